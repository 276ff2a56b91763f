// Register records and compare records, eight words each.
// The words lie inside the list.
ghost use Rattle.std.specs.Prelude.{◌≡◌, [], ◌∷◌, ◌+◌, ◌<◌, ◌≤◌, true, ◌&&◌, eqb, length, get_or, replicate};
ghost use Rattle.vm.specs.Registers.{blank, no_cr};
ghost use Rattle.slot.specs.Put.{put};
ghost use Rattle.slot.specs.Values.{mark_of};
ghost use Rattle.slot.specs.Layout.{register_words, compare_words, value_words, ends_words, register_at, compare_at, held_at};
ghost use Rattle.slot.specs.Fits.{FitsCr};

use crate::value::{address_numbers, bit_of, maybe_of, numbers_of, value_of};
use vm::register::set_direct;
use vm::{Cr, Gpr, GprValue, Held};

// Four words from a number on.
fn store4(words: &mut [u32], at: usize, w: u32, x: u32, y: u32, z: u32)
    requires { at + 4 ≤ length words.old }
    ensures { words.new ≡ put words.old at (w ∷ x ∷ y ∷ z ∷ []) }
{
    words[at] = w;
    words[at + 1] = x;
    words[at + 2] = y;
    words[at + 3] = z;
}

// Nothing is known of the register: the common case. Not a derived ==, which would test the value first: the places first
// compile to fewer instructions.
fn is_blank(g: Gpr) -> bool
    ensures { result ≡ true → g ≡ blank }
{
    matches!(g.hi_addr, None) && matches!(g.lo_addr, None) && matches!(g.value, GprValue::Unknown)
}

// Nothing was compared.
fn is_unset(c: Cr) -> bool
    ensures { result ≡ true → c ≡ no_cr }
{
    !c.signed && matches!(c.left, GprValue::Unknown) && matches!(c.right, GprValue::Unknown)
}

// The words of a record of which nothing is known.
pub fn put_zeros(words: &mut [u32], at: usize)
    requires { at + 8 ≤ length words.old }
    ensures { words.new ≡ put words.old at (replicate 8 0) }
{
    store4(words, at, 0, 0, 0, 0);
    store4(words, at + 4, 0, 0, 0, 0);
}

pub fn put_register(words: &mut [u32], at: usize, g: Gpr)
    requires { at + 8 ≤ length words.old }
    ensures { (words.new ≡ put words.old at (register_words g)) × (mark_of g.value < 256) }
{
    if is_blank(g) {
        put_zeros(words, at);
    } else {
        put_known(words, at, g);
    }
}

fn put_known(words: &mut [u32], at: usize, g: Gpr)
    requires { at + 8 ≤ length words.old }
    ensures { (words.new ≡ put words.old at (register_words g)) × (mark_of g.value < 256) }
{
    let value = g.value;
    let hi = g.hi_addr;
    let lo = g.lo_addr;
    let v = numbers_of(value);
    let h = address_numbers(hi);
    let l = address_numbers(lo);
    store4(
        words,
        at,
        v.tag + 16 * h.known + 32 * l.known,
        v.a,
        v.b,
        v.c,
    );
    store4(words, at + 4, h.section, h.address, l.section, l.address);
}

#[tactic(auto, unfolding(crate::specs::Values::value_of))]
pub fn register_at(words: &[u32], at: usize) -> Gpr
    requires { at + 8 ≤ length words.now }
    ensures { result ≡ register_at words.now at }
{
    let head = words[at];
    if head == 0 {
        return set_direct(GprValue::Unknown);
    }
    let value = value_of(head % 16, words[at + 1], words[at + 2], words[at + 3]);
    let hi_addr = maybe_of(head / 16 % 2, words[at + 4], words[at + 5]);
    let lo_addr = maybe_of(head / 32 % 2, words[at + 6], words[at + 7]);
    Gpr {
        value,
        hi_addr,
        lo_addr,
    }
}

pub fn put_compare(words: &mut [u32], at: usize, c: Cr)
    requires { at + 8 ≤ length words.old }
    ensures { (words.new ≡ put words.old at (compare_words c)) × FitsCr c }
{
    if is_unset(c) {
        put_zeros(words, at);
    } else {
        put_compared(words, at, c);
    }
}

fn put_compared(words: &mut [u32], at: usize, c: Cr)
    requires { at + 8 ≤ length words.old }
    ensures { (words.new ≡ put words.old at (compare_words c)) × FitsCr c }
{
    let left = c.left;
    let right = c.right;
    let l = numbers_of(left);
    let r = numbers_of(right);
    store4(words, at, l.tag + 16 * bit_of(c.signed), l.a, l.b, l.c);
    store4(words, at + 4, r.tag, r.a, r.b, r.c);
}

// Whether nothing was compared, by the words.
pub fn is_unset_at(words: &[u32], at: usize) -> bool
    requires { at + 8 ≤ length words.now }
    ensures { result ≡ (eqb (get_or words.now at 0) 0 && eqb (get_or words.now (at + 4) 0) 0) }
{
    let head = words[at];
    let right = words[at + 4];
    (head == 0) & (right == 0)
}

#[tactic(auto, unfolding(crate::specs::Values::value_of))]
pub fn compare_at(words: &[u32], at: usize) -> Cr
    requires { at + 8 ≤ length words.now }
    ensures { result ≡ compare_at words.now at }
{
    let head = words[at];
    if head == 0 {
        if words[at + 4] == 0 {
            return Cr {
                left: GprValue::Unknown,
                right: GprValue::Unknown,
                signed: false,
            };
        }
    }
    let left = value_of(head % 16, words[at + 1], words[at + 2], words[at + 3]);
    let right = value_of(words[at + 4], words[at + 5], words[at + 6], words[at + 7]);
    Cr {
        left,
        right,
        signed: head / 16 % 2 == 1,
    }
}

// A value in four words.
pub fn put_value(words: &mut [u32], at: usize, v: GprValue)
    requires { at + 4 ≤ length words.old }
    ensures { (words.new ≡ put words.old at (value_words v)) × (mark_of v < 256) }
{
    let n = numbers_of(v);
    store4(words, at, n.tag, n.a, n.b, n.c);
}

// LR and CTR, four words each.
pub fn put_ends(words: &mut [u32], at: usize, lr: Held, ctr: Held)
    requires { at + 8 ≤ length words.old }
    ensures { (words.new ≡ put words.old at (ends_words lr ctr)) × ((mark_of lr.value < 256) × (mark_of ctr.value < 256)) }
{
    let left = lr.value;
    let right = ctr.value;
    let l = numbers_of(left);
    let r = numbers_of(right);
    store4(words, at, l.tag, l.a, l.b, l.c);
    store4(words, at + 4, r.tag, r.a, r.b, r.c);
}

pub fn held_at(words: &[u32], at: usize) -> Held
    requires { at + 4 ≤ length words.now }
    ensures { result ≡ held_at words.now at }
{
    let value = value_of(words[at], words[at + 1], words[at + 2], words[at + 3]);
    Held { value }
}
