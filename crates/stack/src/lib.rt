// A stack of waiting states in lent words; the caller keeps the count of held states and hands it in, as C does: no struct holds both.
// Words and count are a stack (`is_stack` tells); with count 0 the words may be anything. Slots stay where they are, a table orders them.
#![tactic(auto)]

pub mod judge;
pub mod order;

ghost use Rattle.std.specs.Prelude.{◌≡◌, ◌+◌, ◌-◌, ◌<◌, ◌≤◌, length};
ghost use Rattle.cells.specs.Cells.{state_of, Cells};
ghost use Rattle.clones.specs.Clones.{made_of};
ghost use Rattle.slot.specs.Fits.{Fits};
ghost use Rattle.slot.specs.Layout.{state_size};
ghost use Rattle.stack.specs.Stack.{room, high_of, Stack, held_at};
ghost use Rattle.stack.specs.Push.{next_slot, next_high, appended, Pushes};

use cells::{STATE_WORDS, put_state};
use clones::{Made, copy, put_made};
use order::{room_of, slot_at, sort};
use places::SectionAddress;
use vm::VM;

// Slots in use.
fn high_of(words: &[u32], count: usize) -> u32
    requires { (Stack words.now count) × (count < room (length words.now)) }
    ensures { result ≡ high_of words.now count }
{
    if count == 0 { 0 } else { words[0] }
}

// The slot of the next state.
fn next_slot(words: &[u32], count: usize) -> u32
    requires { (Stack words.now count) × (count < room (length words.now)) }
    ensures { result ≡ next_slot words.now count }
{
    let n = count as u32;
    if n < high_of(words, count) {
        words[2 + count]
    } else {
        n
    }
}

// Slots in use with one state more.
fn next_high(words: &[u32], count: usize) -> u32
    requires { (Stack words.now count) × (count < room (length words.now)) }
    ensures { result ≡ next_high words.now count }
{
    let n = count as u32;
    let high = high_of(words, count);
    if n < high { high } else { n + 1 }
}

// A slot for one state more, written, then entered on top.
fn enter(words: &mut [u32], count: usize, p: SectionAddress, cells: &[u32], made: Made)
    requires { (Stack words.old count) × (count < room (length words.old)) × Cells cells.now (state_of cells.now) }
    ensures { (words.new ≡ appended words.old count p (made_of made (state_of cells.now))) × Fits (made_of made (state_of cells.now)) }
{
    let k = next_slot(words, count);
    let high = next_high(words, count);
    let sorted = order::sorted_of(words, count);
    let at = slot_at(words, k);
    put_made(words, at, p, cells, made);
    words[0] = high;
    words[1] = sorted as u32;
    words[2 + count] = k;
}

// One state more, what a way makes of the one in the cells: on top, or, sorted, with the whole stack brought in order of place,
// stably. Says the count after it. While all slots are held it is not taken, and nothing is touched: None.
pub fn push(
    words: &mut [u32],
    count: usize,
    p: SectionAddress,
    cells: &[u32],
    made: Made,
    sorted: bool,
) -> Option<usize>
    requires { (Stack words.old count) × Cells cells.now (state_of cells.now) }
    ensures { Pushes words.old count p (made_of made (state_of cells.now)) sorted result words.new }
{
    if room_of(words.len()) <= count {
        return None;
    }
    enter(words, count, p, cells, made);
    if sorted {
        sort(words, count + 1);
    }
    Some(count + 1)
}

// The same with a state that is handed in by value: it is laid out first.
pub fn push_state(
    words: &mut [u32],
    count: usize,
    p: SectionAddress,
    s: VM,
    sorted: bool,
) -> Option<usize>
    requires { Stack words.old count }
    ensures { Pushes words.old count p s sorted result words.new }
{
    let mut cells = [0u32; STATE_WORDS];
    put_state(&mut cells, s);
    push(words, count, p, &cells, Made::Same, sorted)
}

// The place of the i-th held state, counted from the lowest: a few reads.
pub fn held_place(words: &[u32], count: usize, i: usize) -> SectionAddress
    requires { (Stack words.now count) × (i < count) }
    ensures { result ≡ (held_at words.now i).place }
{
    slot::place_in(words, slot_at(words, words[2 + i]))
}

// The place of the state that pops next.
pub fn top_place(words: &[u32], count: usize) -> SectionAddress
    requires { (Stack words.now count) × (0 < count) }
    ensures { result ≡ (held_at words.now (count - 1)).place }
{
    held_place(words, count, count - 1)
}

// The state that pops next. It is popped by going on with a count one less: the words stay.
pub fn top_state(words: &[u32], count: usize) -> VM
    requires { (Stack words.now count) × (0 < count) }
    ensures { result ≡ (held_at words.now (count - 1)).state }
{
    slot::state_in(words, slot_at(words, words[1 + count]))
}

// The state that pops next, copied into cells: it is not decoded.
pub fn top_cells(words: &[u32], count: usize, cells: &mut [u32])
    requires { (Stack words.now count) × (0 < count) × (length cells.old ≡ state_size) }
    ensures { Cells cells.new (held_at words.now (count - 1)).state }
{
    let at = slot_at(words, words[1 + count]);
    copy(cells, 0, words, at + 2, STATE_WORDS);
}
