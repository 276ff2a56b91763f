// The states that a word's ways hand on, written into a slot from the cells of the state that it leaves with: no state is
// handed on by value. Callers keep a slot's words inside the list and hand in cells that hold a state.
#![tactic(auto)]

ghost use Rattle.std.specs.Prelude.{◌≡◌, ◌+◌, ◌*◌, ◌<◌, ◌≤◌, length, take, drop, replicate};
ghost use Rattle.vm.specs.Registers.{reg, direct, marked};
ghost use Rattle.vm.specs.States.{link_of, return_of, result_of, with_result};
ghost use Rattle.slot.specs.Fits.{Fits};
ghost use Rattle.slot.specs.Layout.{slot_size, state_size, register_words, state_words, slot_words};
ghost use Rattle.slot.specs.Put.{put};
ghost use Rattle.slot.specs.Values.{mark_of};
ghost use Rattle.cells.specs.Cells.{state_of, Cells};
ghost use Rattle.clones.specs.Clones.{made_of};

use cells::{STATE_WORDS, register_in};
use places::SectionAddress;
use slot::record::put_register;
use vm::GprValue;
use vm::register::{set_direct, with_value};

// What a way makes of the state that it leaves with.
#[derive(Clone, Copy)]
pub enum Made {
    Same,
    Link,
    Return,
    Result { value: GprValue, crf: u8 },
}

// n words of one list, from a number on, over those of another. One by one: copy_from_slice calls memmove, which the archive for C
// must not need.
pub fn copy(to: &mut [u32], at: usize, from: &[u32], first: usize, n: usize)
    requires { (at + n ≤ length to.old) × (first + n ≤ length from.now) }
    ensures { to.new ≡ put to.old at (take n (drop first from.now)) }
{
    for i in 0..n {
        to[at + i] = from[first + i];
    }
}

fn clear(words: &mut [u32], at: usize, n: usize)
    requires { at + n ≤ length words.old }
    ensures { words.new ≡ put words.old at (replicate n 0) }
{
    words[at..at + n].fill(0);
}

// Register i's value, without its places.
fn keep_value(words: &mut [u32], at: usize, cells: &[u32], i: usize)
    requires { (at + state_size ≤ length words.old) × (state_size ≤ length cells.now) × (i < 32) }
    ensures { (words.new ≡ put words.old (at + i * 8) (register_words (direct (reg (state_of cells.now) i).value))) × (mark_of (reg (state_of cells.now) i).value < 256) }
{
    let g = register_in(cells, i);
    let v = g.value;
    put_register(words, at + i * 8, set_direct(v));
}

// Into a called function: only r2 and r13 are kept.
fn put_link(words: &mut [u32], at: usize, cells: &[u32])
    requires { (at + state_size ≤ length words.old) × Cells cells.now (state_of cells.now) }
    ensures { (words.new ≡ put words.old at (state_words (link_of (state_of cells.now)))) × Fits (link_of (state_of cells.now)) }
{
    clear(words, at, STATE_WORDS);
    keep_value(words, at, cells, 2);
    keep_value(words, at, cells, 13);
}

// Back from a called function: dedicated registers keep their value, those from 14 up their record.
fn put_return(words: &mut [u32], at: usize, cells: &[u32])
    requires { (at + state_size ≤ length words.old) × Cells cells.now (state_of cells.now) }
    ensures { (words.new ≡ put words.old at (state_words (return_of (state_of cells.now)))) × Fits (return_of (state_of cells.now)) }
{
    clear(words, at, STATE_WORDS);
    keep_value(words, at, cells, 1);
    keep_value(words, at, cells, 2);
    keep_value(words, at, cells, 13);
    copy(words, at + 112, cells, 112, 144);
}

// Register k's record with the value, its places kept.
fn put_marked(words: &mut [u32], at: usize, cells: &[u32], k: usize, value: GprValue)
    requires { (at + state_size ≤ length words.old) × (state_size ≤ length cells.now) × (k < 32) }
    ensures { (words.new ≡ put words.old (at + k * 8) (register_words (marked (reg (state_of cells.now) k) value))) × (mark_of value < 256) }
{
    let g = register_in(cells, k);
    put_register(words, at + k * 8, with_value(g, value));
}

// Register k gets the value if it is marked with the field, where the words have it as the cells do.
fn mark(words: &mut [u32], at: usize, cells: &[u32], k: usize, value: GprValue, crf: u8)
    requires { (at + state_size ≤ length words.old) × Cells cells.now (state_of cells.now) × (k < 32) }
    ensures { (words.old ≡ put words.old (at + k * 8) (register_words (reg (state_of cells.now) k)) → words.new ≡ put words.old (at + k * 8) (register_words (result_of value crf (reg (state_of cells.now) k)))) × (mark_of (result_of value crf (reg (state_of cells.now) k)).value < 256) }
{
    let from = k * 8;
    if cells[from] % 16 == 4 {
        if cells[from + 1] == u32::from(crf) {
            put_marked(words, at, cells, k, value);
        }
    }
}

// Every register marked with the field gets the value, its places kept. Four a turn: nearly none is marked.
fn put_result(words: &mut [u32], at: usize, cells: &[u32], value: GprValue, crf: u8)
    requires { (at + state_size ≤ length words.old) × Cells cells.now (state_of cells.now) }
    ensures { (words.new ≡ put words.old at (state_words (with_result (state_of cells.now) value crf))) × Fits (with_result (state_of cells.now) value crf) }
{
    copy(words, at, cells, 0, STATE_WORDS);
    for i in 0..8 {
        let k = i * 4;
        mark(words, at, cells, k, value, crf);
        mark(words, at, cells, k + 1, value, crf);
        mark(words, at, cells, k + 2, value, crf);
        mark(words, at, cells, k + 3, value, crf);
    }
}

// The state that a way makes of the cells, from a number on.
fn put_state(words: &mut [u32], at: usize, cells: &[u32], made: Made)
    requires { (at + state_size ≤ length words.old) × Cells cells.now (state_of cells.now) }
    ensures { (words.new ≡ put words.old at (state_words (made_of made (state_of cells.now)))) × Fits (made_of made (state_of cells.now)) }
{
    match made {
        Made::Same => {
            copy(words, at, cells, 0, STATE_WORDS);
        }
        Made::Link => {
            put_link(words, at, cells);
        }
        Made::Return => {
            put_return(words, at, cells);
        }
        Made::Result { value, crf } => {
            put_result(words, at, cells, value, crf);
        }
    }
}

// The words of a slot: a place, and what a way makes of the state in the cells.
pub fn put_made(words: &mut [u32], at: usize, p: SectionAddress, cells: &[u32], made: Made)
    requires { (at + slot_size ≤ length words.old) × Cells cells.now (state_of cells.now) }
    ensures { (words.new ≡ put words.old at (slot_words p (made_of made (state_of cells.now)))) × Fits (made_of made (state_of cells.now)) }
{
    words[at] = p.section;
    words[at + 1] = p.address;
    put_state(words, at + 2, cells, made);
}
