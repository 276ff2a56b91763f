// The rules on relocations and object symbols.
// Functions over an image require that its tables are laid out; our own crates alone call them.
ghost use Rattle.std.specs.Prelude.{◌≡◌, ℕ, ◌<◌};
ghost use Rattle.places.specs.declared.SectionAddress.{SectionAddress};
ghost use Rattle.image.specs.Laid.{Laid};
ghost use Rattle.image.specs.Rules.{lies_in, bound_sound, bounds_sound, bounds_ascend, unbound_sound, unbounds_sound, symbol_sound, symbols_sound, ascending, symbols_ascend};

use crate::elf::elf_index;
use crate::numbers::{ABSOLUTE, NO_SECTION};
use crate::sections::end_of;
use crate::table::{
    bound, bound_count, bound_place, section, symbol, symbol_count, symbol_place, unbound,
    unbound_count,
};
use crate::{Bound, Section, Symbol, Unbound};
use places::{SectionAddress, is_before};

// A relocation at an address lies in a section; an Absolute one has all four bytes there.
pub fn lies_in(s: Section, a: u32, kind: u32) -> bool
    ensures { result ≡ lies_in s a kind }
{
    let end = end_of(s);
    let starts = s.address <= a;
    if kind == ABSOLUTE {
        return starts & (a as u64 + 4 <= end);
    }
    starts & (a as u64 + 1 <= end)
}

// An existing section that holds it, a known kind, an existing symbol section or none.
fn bound_sound(im: &[u32], r: Bound) -> bool
    requires { Laid im.now }
    ensures { result ≡ bound_sound im.now r }
{
    r.section < im[2]
        && r.kind < 2
        && lies_in(section(im, r.section as usize), r.address, r.kind)
        && (r.symbol_section == NO_SECTION || r.symbol_section < im[2])
}

// Every bound relocation is sound by itself.
pub fn bounds_sound(im: &[u32]) -> bool
    requires { Laid im.now }
    ensures { result ≡ bounds_sound im.now }
{
    (0..bound_count(im)).all(|j| bound_sound(im, bound(im, j)))
}

// Each of n places stands before the next.
fn ascend<F: Fn(usize) -> SectionAddress>(n: usize, place: F) -> bool
    requires { (j : ℕ) → j < n → F.pre place j }
    ensures { (at : ℕ → SectionAddress) → ((j : ℕ) (p : SectionAddress) → F.post place j p → p ≡ at j) → result ≡ ascending at n }
{
    (0..n.saturating_sub(1)).all(|j| is_before(place(j), place(j + 1)))
}

// Bound relocations ascend strictly by section, then address.
pub fn bounds_ascend(im: &[u32]) -> bool
    requires { Laid im.now }
    ensures { result ≡ bounds_ascend im.now }
{
    ascend(bound_count(im), |j| bound_place(im, j))
}

// A known kind, in the section with its elf number, which exists.
fn unbound_sound(im: &[u32], r: Unbound) -> bool
    requires { Laid im.now }
    ensures { result ≡ unbound_sound im.now r }
{
    match elf_index(im, r.section) {
        Some(i) => r.kind < 2 && lies_in(section(im, i), r.address, r.kind),
        None => false,
    }
}

// Every unbound relocation is sound by itself.
pub fn unbounds_sound(im: &[u32]) -> bool
    requires { Laid im.now }
    ensures { result ≡ unbounds_sound im.now }
{
    (0..unbound_count(im)).all(|j| unbound_sound(im, unbound(im, j)))
}

// An existing section, a flag of 0 or 1.
fn symbol_sound(im: &[u32], s: Symbol) -> bool
    requires { Laid im.now }
    ensures { result ≡ symbol_sound im.now s }
{
    s.section < im[2] && s.known < 2
}

// Every object symbol is sound by itself.
pub fn symbols_sound(im: &[u32]) -> bool
    requires { Laid im.now }
    ensures { result ≡ symbols_sound im.now }
{
    (0..symbol_count(im)).all(|j| symbol_sound(im, symbol(im, j)))
}

// Object symbols ascend strictly by section, then address.
pub fn symbols_ascend(im: &[u32]) -> bool
    requires { Laid im.now }
    ensures { result ≡ symbols_ascend im.now }
{
    ascend(symbol_count(im), |j| symbol_place(im, j))
}
