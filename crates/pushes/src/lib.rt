// What a word asks when it leaves a block: places are pushed in order, each with its own state; a table is read, then its entries pushed.
// Requires words and a count that are a stack, and cells that hold the state; our own crates alone call these.
#![tactic(auto)]

pub mod tables;
pub mod targets;

ghost use Rattle.std.specs.Prelude.{◌≡◌, length};
ghost use Rattle.cells.specs.Cells.{state_of, Cells};
ghost use Rattle.clones.specs.Clones.{made_of};
ghost use Rattle.stack.specs.Stack.{Stack};
ghost use Rattle.turns.specs.Moves.{table_room};
ghost use Rattle.pushes.specs.Takes.{none, PushedAt, TakenTarget, TakenTwo, TakenWays};

use clones::Made;
use image::{Image, Tables};
use places::{RelocationTarget, SectionAddress};
use step::Leave;
use tables::take_table;
use targets::{is_way, is_word, stays_in};
use vm::BranchTarget;

// What pushing leaves: how many states wait, whether a push was refused (5), tables read and not read. A flag and no Result:
// the states and the counts stand where a push was refused too.
#[derive(Clone, Copy)]
pub struct Taken {
    pub held: usize,
    pub full: bool,
    pub read: u64,
    pub not_read: u64,
}

fn nothing(count: usize) -> Taken
    ensures { result ≡ none count }
{
    Taken {
        held: count,
        full: false,
        read: 0,
        not_read: 0,
    }
}

// One place with what a way makes of the state: pushed if it is an aligned code word, sorted.
pub fn push_at(
    im: &Tables<'_>,
    stack: &mut [u32],
    count: usize,
    q: SectionAddress,
    cells: &[u32],
    made: Made,
) -> Taken
    requires { Stack stack.old count × Cells cells.now (state_of cells.now) }
    ensures { PushedAt im.now.words.now stack.old count q (made_of made (state_of cells.now)) stack.new result }
{
    if is_word(im, q) {
        let p = stack::push(stack, count, q, cells, made, true);
        return Taken {
            held: p.unwrap_or(count),
            full: p.is_none(),
            read: 0,
            not_read: 0,
        };
    }
    nothing(count)
}

// A target with its state: a place, or a table.
fn take_target(
    im: &Image<'_>,
    from: SectionAddress,
    upto: Option<SectionAddress>,
    stack: &mut [u32],
    count: usize,
    entries: &mut [u64],
    t: BranchTarget,
    cells: &[u32],
    made: Made,
) -> Taken
    requires cells { Cells cells.now (state_of cells.now) }
    requires stack { Stack stack.old count × (length entries.old ≡ table_room) }
    ensures { TakenTarget im.now.tables.words.now im.now.«data».now from upto stack.old count entries.old t (made_of made (state_of cells.now)) stack.new entries.new result }
{
    match t {
        BranchTarget::Unknown => nothing(count),
        BranchTarget::Return => nothing(count),
        BranchTarget::Address(a) => match a {
            RelocationTarget::External => nothing(count),
            RelocationTarget::Address(q) => push_at(&im.tables, stack, count, q, cells, made),
        },
        BranchTarget::JumpTable { address, size } => {
            take_table(
                im, from, upto, stack, count, entries, address, size, cells, made,
            )
        }
    }
}

// A jump: into another section, or through a table. One inside the section is not taken here.
fn take_jump(
    im: &Image<'_>,
    from: SectionAddress,
    upto: Option<SectionAddress>,
    stack: &mut [u32],
    count: usize,
    entries: &mut [u64],
    at: SectionAddress,
    t: BranchTarget,
    cells: &[u32],
) -> Taken
    requires cells { Cells cells.now (state_of cells.now) }
    requires stack { Stack stack.old count × (length entries.old ≡ table_room) }
    ensures { TakenWays im.now.tables.words.now im.now.«data».now from upto stack.old count entries.old at (Leave.Jump t) (state_of cells.now) stack.new entries.new result }
{
    if stays_in(at, t) {
        return nothing(count);
    }
    if is_way(&im.tables, t) {
        return take_target(im, from, upto, stack, count, entries, t, cells, Made::Same);
    }
    nothing(count)
}

// A branch with two ways: the next word with what the first makes of the state, then the target with what the second makes of it.
fn take_two(
    im: &Image<'_>,
    from: SectionAddress,
    upto: Option<SectionAddress>,
    stack: &mut [u32],
    count: usize,
    entries: &mut [u64],
    at: SectionAddress,
    t: BranchTarget,
    cells: &[u32],
    stays: Made,
    goes: Made,
) -> Taken
    requires cells { Cells cells.now (state_of cells.now) }
    requires stack { Stack stack.old count × (length entries.old ≡ table_room) }
    ensures { TakenTwo im.now.tables.words.now im.now.«data».now from upto stack.old count entries.old at t (made_of stays (state_of cells.now)) (made_of goes (state_of cells.now)) (state_of cells.now) stack.new entries.new result }
{
    let first = push_at(
        &im.tables,
        stack,
        count,
        places::offset(at, 4),
        cells,
        stays,
    );
    if first.full {
        return first;
    }
    if is_way(&im.tables, t) {
        return take_target(im, from, upto, stack, first.held, entries, t, cells, goes);
    }
    first
}

// What a word that leaves asks: its ways in order, each with its own state; a table is read, then its entries are pushed ascending.
pub fn take(
    im: &Image<'_>,
    from: SectionAddress,
    upto: Option<SectionAddress>,
    stack: &mut [u32],
    count: usize,
    entries: &mut [u64],
    at: SectionAddress,
    l: Leave,
    cells: &[u32],
) -> Taken
    requires cells { Cells cells.now (state_of cells.now) }
    requires stack { Stack stack.old count × (length entries.old ≡ table_room) }
    ensures { TakenWays im.now.tables.words.now im.now.«data».now from upto stack.old count entries.old at l (state_of cells.now) stack.new entries.new result }
{
    let (target, stays, goes) = match l {
        Leave::Ended | Leave::Illegal => {
            return nothing(count);
        }
        Leave::Jump(t) => {
            return take_jump(im, from, upto, stack, count, entries, at, t, cells);
        }
        // Back from the call, then into it.
        Leave::Call(t) => (t, Made::Return, Made::Link),
        // Each with what it knows of the compared registers.
        Leave::Fork {
            target,
            crf,
            stays,
            goes,
        } => (
            target,
            Made::Result { value: stays, crf },
            Made::Result { value: goes, crf },
        ),
        Leave::Both(t) => (t, Made::Same, Made::Same),
    };
    take_two(
        im, from, upto, stack, count, entries, at, target, cells, stays, goes,
    )
}
