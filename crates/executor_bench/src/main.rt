// What a call of the executor costs at depth 3,000, by the first byte of standard input: a 3,000 states are pushed, b
// and `next` steps the highest, c and a reply ends its block. Prints a letter for the outcome.
#![tactic(auto)]

ghost use Rattle.std.specs.Prelude.{◌≡◌, ◌<◌, length};
ghost use Rattle.stack.specs.Stack.{Stack};

use executor::{ExecCbResult, Execution, Refusal};
use places::SectionAddress;
use std::io;
use std::io::Read;
use vm::{GprValue, VM};

// Room for 3,000 states.
fn room() -> [u32; 993002]
    ensures { 993002 ≡ length result }
{
    [0; 993002]
}

// 3,000 words 60606060, ori r0, r3, 24672.
fn code() -> [u8; 12000]
    ensures { 12000 ≡ length result }
{
    [96; 12000]
}

fn place(i: usize) -> SectionAddress
    requires { i < 3000 }
{
    SectionAddress {
        section: 0,
        address: 4096 + 4 * (i as u32),
    }
}

fn fill(words: &mut [u32], s: VM) -> usize
    ensures { Stack words.new result }
{
    let mut n: usize = 0;
    for i in 0..3000 {
        n = stack::push_state(words, n, place(i), s, true).unwrap_or(n);
    }
    n
}

fn start() -> VM {
    let mut s = vm::state::new();
    s.gpr[3] = vm::register::set_direct(GprValue::Constant(7));
    s
}

// r for a refusal, e for an end, s for a step, d for a reply.
fn next(words: &[u32], n: usize, map: &mut [u32], code: &[u8], mode: u8) -> Result<u8, Refusal> {
    let im = [0, 0, 1, 0, 0, 0, 4096, 12000, 0, 0, 0, 12000];
    let h = executor::next(&im, code, map, words, n, Execution::idle())?;
    if mode == b'b' {
        return Ok(if h.step.is_some() { b's' } else { b'e' });
    }
    executor::reply(
        &im,
        code,
        map,
        words,
        h.count,
        h.run,
        ExecCbResult::EndBlock,
    )?;
    Ok(b'd')
}

fn asked(words: &[u32], n: usize, code: &[u8], mode: u8) -> u8 {
    let mut map = [0u32; 94];
    if mode == b'a' {
        return b'n';
    }
    next(words, n, &mut map, code, mode).unwrap_or(b'r')
}

fn main(rt: HostRuntime) -> io::Result<()> {
    let mut buffer = [0u8; 1];
    rt.stdin().read(&mut buffer)?;
    let mut words = room();
    let n = fill(&mut words, start());
    let code = code();
    let out = [asked(&words, n, &code, buffer[0]), b'\n'];
    rt.write_all(&out)
}
