// The next word, from a run or from the stack: marked, stepped, waiting.
// Stack and running place are lawful: `judge` says so first.
ghost use Rattle.std.specs.Prelude.{◌≡◌, true, []};
ghost use Rattle.words.specs.Choice.{pick};
ghost use Rattle.stack.specs.Stack.{Stack, entries};
ghost use Rattle.executor.specs.Judge.{is_word, all_words};
ghost use Rattle.executor.specs.Next.{Tops, is_branch, ended_at, stepped_at, resumed, popped, handed_with, AnsweredWith, AnsweredBy};
ghost use Rattle.executor.specs.Standing.{standing, dropped};

use crate::judge::is_word;
use crate::{Execution, Handed, Phase};
use image::{Image, Tables};
use places::SectionAddress;
use step::StepResult;
use vm::VM;

// What was under way is no more: its place and state stay behind, and nothing reads them.
pub fn drop(run: Execution) -> Execution
    ensures { result ≡ dropped run }
{
    Execution {
        phase: Phase::Idle,
        ..run
    }
}

fn ended(count: usize, run: Execution) -> Handed
    ensures { Ok result ≡ handed_with (ended_at [] [] run) count }
{
    Handed {
        step: None,
        run: drop(run),
        count,
    }
}

fn is_branch(r: StepResult) -> bool
    ensures { result ≡ is_branch r }
{
    matches!(r, StepResult::Branch { .. })
}

// The state that the next word goes on from: a Branch leaves the one that it met.
fn state_after(r: StepResult, met: VM, left: VM) -> VM
    ensures { result ≡ pick (is_branch r) met left }
{
    if is_branch(r) { met } else { left }
}

// The word at a place, marked and stepped.
fn step_at(
    im: &Image<'_>,
    map: &mut [u32],
    count: usize,
    at: SectionAddress,
    start: SectionAddress,
    s: VM,
) -> Handed
    requires { is_word im.now.tables.words.now at ≡ true }
    ensures { AnsweredWith (stepped_at im.now.tables.words.now im.now.«data».now [] map.old at start s) count (Ok result) map.new }
{
    visited::insert(map, lookups::word_number(&im.tables, at));
    let stepped = step::done::step_word(&im.tables, at, lookups::code_word(im, at), s);
    Handed {
        step: Some(stepped),
        run: Execution {
            phase: Phase::Waiting,
            at,
            block_start: start,
            vm: state_after(stepped.result, s, stepped.vm),
        },
        count,
    }
}

// A run goes on at its word; past its section's end it is dropped, and nothing is popped.
pub fn resume(im: &Image<'_>, map: &mut [u32], count: usize, run: Execution) -> Handed
    ensures { AnsweredWith (resumed im.now.tables.words.now im.now.«data».now (standing [] map.old run)) count (Ok result) map.new }
{
    if is_word(&im.tables, run.at) {
        return step_at(im, map, count, run.at, run.block_start, run.vm);
    }
    ended(count, run)
}

// How many states are left where visited ones are taken off the top.
fn highest(im: &Tables<'_>, map: &[u32], stack: &[u32], count: usize) -> usize
    requires { Stack stack.now count × (all_words im.now.words.now (entries stack.now count) ≡ true) }
    ensures { Tops im.now.words.now map.now stack.now count result }
{
    for i in (0..count).rev() {
        let p = stack::held_place(stack, count, i);
        if !visited::contains(map, lookups::word_number(im, p)) {
            return i + 1;
        }
    }
    0
}

// The highest unvisited state is popped and its word stepped; no such state: the stack is empty.
pub fn pop(im: &Image<'_>, map: &mut [u32], stack: &[u32], count: usize, run: Execution) -> Handed
    requires { Stack stack.now count × (all_words im.now.tables.words.now (entries stack.now count) ≡ true) }
    ensures { AnsweredBy (popped im.now.tables.words.now im.now.«data».now (standing (entries stack.now count) map.old run)) (Ok result) map.new }
{
    let n = highest(&im.tables, map, stack, count);
    if n == 0 {
        return ended(0, run);
    }
    let p = stack::top_place(stack, n);
    step_at(im, map, n - 1, p, p, stack::top_state(stack, n))
}
