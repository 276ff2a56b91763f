// Branched execution, one instruction at a time: executor.rs with its callback turned into two calls, `next` and
// `reply`. The caller keeps the stack's words and count, the visited map and the execution, and hands them to each
// call: any will do. They stay parameters of their own, as a call lends some to read and some to write.
#![tactic(auto, using(image::proofs::SoundTables::laid, image::proofs::SoundTables::sound_tables))]

pub mod following;
pub mod judge;
pub mod stepping;

ghost use Rattle.std.specs.Prelude.{◌≡◌, length, Err};
ghost use Rattle.executor.specs.Standing.{at_rest, refusal_number};
ghost use Rattle.executor.specs.Judge.{place_answer};
ghost use Rattle.executor.specs.declared.Refusal.TheVariants as refusal;
ghost use Rattle.executor.specs.Next.{next_call, AnsweredBy};
ghost use Rattle.executor.specs.Reply.{reply_call};
ghost use Rattle.executor.specs.Push.{PushesTo};
ghost use Rattle.executor.specs.Visits.{visit_call};

use image::{BrokenImage, Image};
use judge::{judge, require_room};
use lookups::PlaceError;
use places::SectionAddress;
use step::Stepped;
use vm::VM;

// Whether nothing is under way, the word at a place is to be stepped, or it was stepped and waits for a reply.
#[derive(Clone, Copy)]
pub enum Phase {
    Idle,
    Running,
    Waiting,
}

// What is under way: where, where its block began, and with which state.
#[derive(Clone, Copy)]
pub struct Execution {
    pub phase: Phase,
    pub at: SectionAddress,
    pub block_start: SectionAddress,
    pub vm: VM,
}

impl Execution {
    // Nothing is under way.
    pub fn idle() -> Execution
        ensures { result ≡ at_rest }
    {
        let nowhere = SectionAddress {
            section: 0,
            address: 0,
        };
        Execution {
            phase: Phase::Idle,
            at: nowhere,
            block_start: nowhere,
            vm: vm::state::new(),
        }
    }
}

// Why a call is refused.
#[derive(Clone, Copy, Debug, PartialEq, Eq)]
pub enum Refusal {
    BrokenImage,
    BadStack,
    SmallMap,
    OutOfTurn,
    OtherSection,
    NotCode,
    Misaligned,
    StackFull,
}

impl From<BrokenImage> for Refusal {
    ghost from_gives = { λ _ why. why ≡ refusal.BrokenImage };

    fn from(_: BrokenImage) -> Refusal {
        Refusal::BrokenImage
    }
}

impl From<PlaceError> for Refusal {
    ghost from_gives = { λ e why. Err why ≡ place_answer (Err e) };

    fn from(e: PlaceError) -> Refusal {
        match e {
            PlaceError::NotCode => Refusal::NotCode,
            PlaceError::Misaligned => Refusal::Misaligned,
        }
    }
}

// Document 01's numbers.
impl From<Refusal> for u32 {
    ghost from_gives = { λ why n. n ≡ refusal_number why };

    fn from(why: Refusal) -> u32 {
        match why {
            Refusal::BrokenImage => 1,
            Refusal::BadStack => 12,
            Refusal::SmallMap => 4,
            Refusal::OutOfTurn => 11,
            Refusal::OtherSection => 6,
            Refusal::NotCode => 2,
            Refusal::Misaligned => 3,
            Refusal::StackFull => 5,
        }
    }
}

// What `next` came to: the stepped word, whose place and the state after it stand in `run`, or None for an end (nothing
// waits any more, or the run passed its section's end). `count` states wait then.
#[derive(Clone, Copy)]
pub struct Handed {
    pub step: Option<Stepped>,
    pub run: Execution,
    pub count: usize,
}

// What the caller wants after a stepped word.
#[derive(Clone, Copy)]
pub enum ExecCbResult {
    Continue,
    Jump(SectionAddress),
    EndBlock,
    End,
}

// One state more on the stack, on top or, sorted, in its place: how many wait then. Refuses, touching nothing, in this
// order: BrokenImage (1), BadStack (12), NotCode (2), Misaligned (3), StackFull (5).
pub fn push(
    im: &[u32],
    data: &[u8],
    stack: &mut [u32],
    count: usize,
    p: SectionAddress,
    s: VM,
    sorted: bool,
) -> Result<usize, Refusal>
    ensures { PushesTo im.now (length «data».now) stack.old count p s sorted result stack.new }
{
    let im = &judge(im, data, stack, count, Phase::Idle, p)?;
    lookups::code_place(&im.tables, p)?;
    stack::push_state(stack, count, p, s, sorted).ok_or(Refusal::StackFull)
}

// The next word of a run, or of the highest unvisited state on the stack: marked, stepped, and waiting for a reply.
// Refuses, touching nothing, in this order: BrokenImage (1), BadStack (12), SmallMap (4: fewer than W bits), OutOfTurn
// (11: an instruction waits). An end leaves an empty stack, or after a run past its section's end the stack as it was.
pub fn next(
    im: &[u32],
    data: &[u8],
    map: &mut [u32],
    stack: &[u32],
    count: usize,
    run: Execution,
) -> Result<Handed, Refusal>
    ensures { AnsweredBy (next_call im.now «data».now stack.now count map.old run) result map.new }
{
    let im = &judge(im, data, stack, count, run.phase, run.at)?;
    require_room(&im.tables, map)?;
    match run.phase {
        Phase::Waiting => Err(Refusal::OutOfTurn),
        Phase::Running => Ok(stepping::resume(im, map, count, run)),
        Phase::Idle => Ok(stepping::pop(im, map, stack, count, run)),
    }
}

// What is under way after the caller's wish for the waiting instruction, whose state the caller may have changed.
// Refuses, with the instruction still waiting, in this order: BrokenImage (1), BadStack (12), SmallMap (4), OutOfTurn
// (11: none waits), and a Jump with OtherSection (6), NotCode (2), Misaligned (3).
pub fn reply(
    im: &[u32],
    data: &[u8],
    map: &[u32],
    stack: &[u32],
    count: usize,
    run: Execution,
    how: ExecCbResult,
) -> Result<Execution, Refusal>
    ensures { result ≡ reply_call im.now (length «data».now) stack.now count map.now run how }
{
    let im = &judge(im, data, stack, count, run.phase, run.at)?;
    require_room(&im.tables, map)?;
    match run.phase {
        Phase::Idle | Phase::Running => Err(Refusal::OutOfTurn),
        Phase::Waiting => following::follow(&im.tables, map, run, how),
    }
}

// Whether the word at a place was visited. Refuses, in this order: BrokenImage (1), SmallMap (4), NotCode (2),
// Misaligned (3).
pub fn visited(im: &[u32], data: &[u8], map: &[u32], p: SectionAddress) -> Result<bool, Refusal>
    ensures { result ≡ visit_call im.now (length «data».now) map.now p }
{
    let im = &Image::new(im, data)?;
    require_room(&im.tables, map)?;
    lookups::code_place(&im.tables, p)?;
    Ok(visited::contains(map, lookups::word_number(&im.tables, p)))
}
