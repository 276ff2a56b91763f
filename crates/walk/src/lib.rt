// The walk: from its starts over all code that they lead to, as crate `turns` defines it.
// `walk` requires nothing. A start is its section's index times 2^32 plus its address.
#![tactic(auto)]

pub mod blocks;
pub mod starts;

ghost use Rattle.std.specs.Prelude.{◌≡◌, length, Err};
ghost use Rattle.cells.specs.Cells.{state_of, Cells};
ghost use Rattle.stack.specs.Stack.{Stack};
ghost use Rattle.turns.specs.Moves.{table_room};
ghost use Rattle.turns.specs.Walks.{given, walked};
ghost use Rattle.walk.specs.Starts.{places_of};
ghost use Rattle.walk.specs.Blocks.{ending_of, Followed};

use blocks::run_block;
use cells::STATE_WORDS;
use image::Image;
use lookups::word_number;
use places::SectionAddress;
use pushes::{Taken, take};
use starts::begin_image;
use step::Leave;
use turns::{WalkError, Walked};

// How many entries a table may have in a walk.
pub const TABLE_ROOM: usize = 1024;

// How a walk begins: how many starts wait, and whether a push was refused (5); a flag, since those before it wait then too.
#[derive(Clone, Copy)]
pub struct Begun {
    pub held: usize,
    pub full: bool,
}

// How a block ended: how its last word leaves, where its ways are still to take; None where nothing is left to do. `at` is the
// word that left, or the section's end. Then how many words were stepped, the last one included where there is one, and how many
// blocks were begun by jumps inside the section.
#[derive(Clone, Copy)]
pub struct Ended {
    pub leave: Option<Leave>,
    pub at: SectionAddress,
    pub stepped: u64,
    pub begun: u64,
}

// The walk over an image's code. Refuses, in this order, and then touches nothing: BrokenImage (1), MapTooSmall (4) for a map of fewer
// bits than there are Code words, and of the first bad start NotCode (2) or Misaligned (3). Else the W bits of the map are what was
// visited, and the answer is Done with an empty stack, or StackFull (5) where a push found all slots held: then the bits, the waiting
// states and the counts are as reached. `two` and `thirteen` are what r2 and r13 hold, `from` and `upto` the bounds of the function
// for tables of guessed size. The stack's words may be anything before; the entry buffer is scratch for tables.
#[tactic(auto, unfolding(turns::specs::Walks::walked, turns::specs::Walks::judged))]
pub fn walk(
    im: &[u32],
    data: &[u8],
    starts: &[u64],
    two: Option<u32>,
    thirteen: Option<u32>,
    from: SectionAddress,
    upto: Option<SectionAddress>,
    map: &mut [u32],
    stack: &mut [u32],
    entries: &mut [u64; TABLE_ROOM],
) -> Walked
    ensures { walked (given im.now «data».now (places_of starts.now) two thirteen from upto) map.old (record { stack = stack.old; entries = entries.old }) ≡ record { result = result; vis = map.new; lent = record { stack = stack.new; entries = entries.new } } }
{
    match Image::new(im, data) {
        Ok(im) => walk_image(&im, starts, two, thirteen, from, upto, map, stack, entries),
        Err(_) => refused(WalkError::BrokenImage),
    }
}

// What a refusal answers: no counts, and nothing waits.
fn refused(e: WalkError) -> Walked
    ensures { result ≡ record { answer = Err e; stepped = 0; begun = 0; read = 0; not_read = 0; held = 0 } }
{
    Walked {
        answer: Err(e),
        stepped: 0,
        begun: 0,
        read: 0,
        not_read: 0,
        held: 0,
    }
}

// The walk over an image that breaks no rule.
fn walk_image(
    im: &Image<'_>,
    starts: &[u64],
    two: Option<u32>,
    thirteen: Option<u32>,
    from: SectionAddress,
    upto: Option<SectionAddress>,
    map: &mut [u32],
    stack: &mut [u32],
    entries: &mut [u64; TABLE_ROOM],
) -> Walked
    ensures { walked (given im.now.tables.words.now im.now.«data».now (places_of starts.now) two thirteen from upto) map.old (record { stack = stack.old; entries = entries.old }) ≡ record { result = result; vis = map.new; lent = record { stack = stack.new; entries = entries.new } } }
{
    let b = match begin_image(im, starts, two, thirteen, map, stack) {
        Ok(b) => b,
        Err(e) => {
            return refused(e);
        }
    };
    let mut state = [0u32; STATE_WORDS];
    let mut held = b.held;
    let mut full = b.full;
    let mut stepped: u64 = 0;
    let mut begun: u64 = 0;
    let mut read: u64 = 0;
    let mut not_read: u64 = 0;
    // No for: how many states will wait is not known before.
    loop {
        if full {
            return Walked {
                answer: Err(WalkError::StackFull),
                stepped,
                begun,
                read,
                not_read,
                held,
            };
        }
        if held == 0 {
            return Walked {
                answer: Ok(()),
                stepped,
                begun,
                read,
                not_read,
                held,
            };
        }
        let p = stack::top_place(stack, held);
        if visited::contains(map, word_number(&im.tables, p)) {
            held -= 1;
            continue;
        }
        stack::top_cells(stack, held, &mut state);
        let e = run_block(im, map, p, &mut state);
        let t = follow(im, from, upto, stack, held - 1, entries, e, &state);
        held = t.held;
        full = t.full;
        stepped += e.stepped;
        begun += 1 + e.begun;
        read += t.read;
        not_read += t.not_read;
    }
}

// What the end of a block asks for: its last word's ways are taken, if it left by some.
fn follow(
    im: &Image<'_>,
    from: SectionAddress,
    upto: Option<SectionAddress>,
    stack: &mut [u32],
    held: usize,
    entries: &mut [u64],
    e: Ended,
    state: &[u32],
) -> Taken
    requires state { Cells state.now (state_of state.now) }
    requires stack { Stack stack.old held × (length entries.old ≡ table_room) }
    ensures { Followed im.now.tables.words.now im.now.«data».now from upto stack.old held entries.old (ending_of e (state_of state.now)) stack.new entries.new result }
{
    match e.leave {
        Some(leave) => take(im, from, upto, stack, held, entries, e.at, leave, state),
        None => Taken {
            held,
            full: false,
            read: 0,
            not_read: 0,
        },
    }
}
