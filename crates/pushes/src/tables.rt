// A jump table in a walk: it is read with the given function bounds, then its entries are pushed.
// Requires words and a count that are a stack, and an entry buffer of the walk's length, and cells that hold the state.
ghost use Rattle.std.specs.Prelude.{◌≡◌, ◌≤◌, length};
ghost use Rattle.cells.specs.Cells.{state_of, Cells};
ghost use Rattle.clones.specs.Clones.{made_of};
ghost use Rattle.stack.specs.Stack.{Stack};
ghost use Rattle.turns.specs.Moves.{place_of, size_in, table_room};
ghost use Rattle.pushes.specs.Takes.{unread, PushedKeys, TakenTable};

use crate::{Taken, nothing, push_at};
use clones::Made;
use image::{Image, Tables};
use jump_tables::table_in;
use places::{RelocationTarget, SectionAddress};

// The place that an entry of a table names. No From: both types are other crates' own.
pub fn place_of(key: u64) -> SectionAddress
    ensures { result ≡ place_of key }
{
    SectionAddress {
        section: (key / 0x1_0000_0000) as u32,
        address: (key % 0x1_0000_0000) as u32,
    }
}

// The first n entries of a table in order, each with the same state, until a push is refused.
pub fn push_keys(
    im: &Tables<'_>,
    stack: &mut [u32],
    count: usize,
    entries: &[u64],
    n: usize,
    cells: &[u32],
    made: Made,
) -> Taken
    requires { Stack stack.old count × (n ≤ length entries.now) × Cells cells.now (state_of cells.now) }
    ensures { PushedKeys im.now.words.now stack.old count entries.now n (made_of made (state_of cells.now)) stack.new result }
{
    let mut held = count;
    for key in &entries[..n] {
        let r = push_at(im, stack, held, place_of(*key), cells, made);
        if r.full {
            return r;
        }
        held = r.held;
    }
    nothing(held)
}

// A size as a number, 0 for none. No From: both types are other crates' own.
fn size_in(size: Option<u32>) -> u32
    ensures { result ≡ size_in size }
{
    match size {
        None => 0,
        Some(n) => n,
    }
}

// Nothing was pushed for a table that was not read.
fn not_read(count: usize) -> Taken
    ensures { result ≡ unread count }
{
    Taken {
        not_read: 1,
        ..nothing(count)
    }
}

// A table: read, or External or refused and then counted as not read; its entries are pushed ascending, a refused one has none.
pub fn take_table(
    im: &Image<'_>,
    from: SectionAddress,
    upto: Option<SectionAddress>,
    stack: &mut [u32],
    count: usize,
    entries: &mut [u64],
    t: RelocationTarget,
    size: Option<u32>,
    cells: &[u32],
    made: Made,
) -> Taken
    requires cells { Cells cells.now (state_of cells.now) }
    requires stack { Stack stack.old count × (length entries.old ≡ table_room) }
    ensures { TakenTable im.now.tables.words.now im.now.«data».now from upto stack.old count entries.old t size (made_of made (state_of cells.now)) stack.new entries.new result }
{
    match t {
        RelocationTarget::External => not_read(count),
        RelocationTarget::Address(p) => {
            match table_in(im, p, size_in(size), from, upto, entries) {
                Ok(t) => {
                    let r = push_keys(&im.tables, stack, count, entries, t.count, cells, made);
                    Taken { read: 1, ..r }
                }
                Err(_) => not_read(count),
            }
        }
    }
}
