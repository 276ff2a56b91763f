// One waiting state in a fixed number of words: its place, its registers, its compare records, LR and CTR.
// Callers keep a slot's words inside the list. Whatever a state can hold can be written, and is read back.
#![tactic(auto)]

pub mod record;
pub mod value;

ghost use Rattle.std.specs.Prelude.{◌≡◌, ◌+◌, ◌≤◌, length};
ghost use Rattle.slot.specs.Put.{put, matches};
ghost use Rattle.slot.specs.Layout.{slot_size, state_size, state_words, slot_words, state_at, place_in, state_in, is_slot};
ghost use Rattle.slot.specs.Fits.{Fits};

use places::SectionAddress;
use record::{compare_at, held_at, is_unset_at, put_compare, put_ends, put_register, register_at};
use vm::VM;

// How many words a slot has.
pub const SLOT_WORDS: usize = 330;

// A value as a tag below 16 and three numbers. Numbers and no enum: they are what stands in a slot's words.
#[derive(Clone, Copy)]
pub struct Numbers {
    pub tag: u32,
    pub a: u32,
    pub b: u32,
    pub c: u32,
}

// A place that may be missing: 1 and its numbers, or zeros. Numbers and no Option: they are what stands in a slot's words.
#[derive(Clone, Copy)]
pub struct AddressNumbers {
    pub known: u32,
    pub section: u32,
    pub address: u32,
}

// The state from a number on. Both loops fill one local: a state handed on by value is a copy. A record that says
// nothing is as in a new state.
fn state_at(words: &[u32], at: usize) -> VM
    requires { at + state_size ≤ length words.now }
    ensures { result ≡ state_at words.now at }
{
    let mut s = vm::state::new();
    let lr = held_at(words, at + 320);
    let ctr = held_at(words, at + 324);
    for i in 0..32 {
        let from = at + i * 8;
        if words[from] == 0 {
            continue;
        }
        s.gpr[i] = register_at(words, from);
    }
    for j in 0..8 {
        let from = at + 256 + j * 8;
        if is_unset_at(words, from) {
            continue;
        }
        s.cr[j] = compare_at(words, from);
    }
    s.lr = lr;
    s.ctr = ctr;
    s
}

// The state from a number on is written.
pub fn put_state(words: &mut [u32], at: usize, s: VM)
    requires { at + state_size ≤ length words.old }
    ensures { (words.new ≡ put words.old at (state_words s)) × Fits s }
{
    let lr = s.lr;
    let ctr = s.ctr;
    for i in 0..32 {
        put_register(words, at + i * 8, s.gpr[i]);
    }
    for j in 0..8 {
        put_compare(words, at + 256 + j * 8, s.cr[j]);
    }
    put_ends(words, at + 320, lr, ctr);
}

// A slot's words from a number on: every word of it is set, no other is touched.
pub fn put_slot(words: &mut [u32], at: usize, p: SectionAddress, s: VM)
    requires { at + slot_size ≤ length words.old }
    ensures { (words.new ≡ put words.old at (slot_words p s)) × Fits s }
{
    words[at] = p.section;
    words[at + 1] = p.address;
    put_state(words, at + 2, s);
}

// The place of a slot: two reads, the state is not decoded.
pub fn place_in(words: &[u32], at: usize) -> SectionAddress
    requires { at + 2 ≤ length words.now }
    ensures { result ≡ place_in words.now at }
{
    SectionAddress {
        section: words[at],
        address: words[at + 1],
    }
}

// The state of a slot.
pub fn state_in(words: &[u32], at: usize) -> VM
    requires { at + slot_size ≤ length words.now }
    ensures { result ≡ state_in words.now at }
{
    state_at(words, at + 2)
}

// Whether the words from at on are those of l.
fn same(words: &[u32], at: usize, l: &[u32]) -> bool
    requires { at + length l.now ≤ length words.now }
    ensures { result ≡ matches words.now at l.now }
{
    &words[at..at + l.len()] == l
}

// Whether the words of a slot are ones that `put_slot` writes for some place and state.
pub fn is_slot(words: &[u32], at: usize) -> bool
    requires { at + slot_size ≤ length words.now }
    ensures { result ≡ is_slot words.now at }
{
    let p = place_in(words, at);
    let s = state_in(words, at);
    let mut written = [0u32; SLOT_WORDS];
    put_slot(&mut written, 0, p, s);
    same(words, at, &written)
}
