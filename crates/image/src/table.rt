// The image's tables read from its words: how many records each has, where it begins, and one record by its index.
// Each function requires that the words it reads are there; our own crates alone call them, after `check_image`.
ghost use Rattle.std.specs.Prelude.{◌≡◌, ◌+◌, ◌*◌, ◌<◌, length};
ghost use Rattle.image.specs.Layout.{word, sections, bounds, unbounds, symbols, bounds_from, unbounds_from, symbols_from, section_at, bound_at, unbound_at, symbol_at};
ghost use Rattle.image.specs.Rules.{bound_place, symbol_place};

use crate::{Bound, Section, Symbol, Unbound};
use places::SectionAddress;

// How many sections, bound relocations, unbound relocations and object symbols there are.
pub fn section_count(im: &[u32]) -> usize
    requires { 5 < length im.now }
    ensures { result ≡ sections im.now }
{
    im[2] as usize
}

pub fn bound_count(im: &[u32]) -> usize
    requires { 5 < length im.now }
    ensures { result ≡ bounds im.now }
{
    im[3] as usize
}

pub fn unbound_count(im: &[u32]) -> usize
    requires { 5 < length im.now }
    ensures { result ≡ unbounds im.now }
{
    im[4] as usize
}

pub fn symbol_count(im: &[u32]) -> usize
    requires { 5 < length im.now }
    ensures { result ≡ symbols im.now }
{
    im[5] as usize
}

// Where the further tables begin.
pub fn bounds_from(im: &[u32]) -> usize
    requires { 5 < length im.now }
    ensures { result ≡ bounds_from im.now }
{
    im[2] as usize * 6 + 6
}

pub fn unbounds_from(im: &[u32]) -> usize
    requires { 5 < length im.now }
    ensures { result ≡ unbounds_from im.now }
{
    bounds_from(im) + im[3] as usize * 6
}

pub fn symbols_from(im: &[u32]) -> usize
    requires { 5 < length im.now }
    ensures { result ≡ symbols_from im.now }
{
    unbounds_from(im) + im[4] as usize * 6
}

// Section number i.
pub fn section(im: &[u32], i: usize) -> Section
    requires { i * 6 + 11 < length im.now }
    ensures { result ≡ section_at im.now i }
{
    let at = i * 6;
    Section {
        address: im[at + 6],
        size: im[at + 7],
        kind: im[at + 8],
        elf: im[at + 9],
        place: im[at + 10],
        length: im[at + 11],
    }
}

// Bound relocation number j.
pub fn bound(im: &[u32], j: usize) -> Bound
    requires { bounds_from im.now + j * 6 + 5 < length im.now }
    ensures { result ≡ bound_at im.now j }
{
    let at = bounds_from(im) + j * 6;
    Bound {
        section: im[at],
        address: im[at + 1],
        kind: im[at + 2],
        symbol_section: im[at + 3],
        symbol_address: im[at + 4],
        addend: im[at + 5],
    }
}

// Where bound relocation number j stands: its section and address alone.
pub fn bound_place(im: &[u32], j: usize) -> SectionAddress
    requires { bounds_from im.now + j * 6 + 5 < length im.now }
    ensures { result ≡ bound_place im.now j }
{
    place_at(im, bounds_from(im) + j * 6)
}

// Unbound relocation number j.
pub fn unbound(im: &[u32], j: usize) -> Unbound
    requires { unbounds_from im.now + j * 6 + 5 < length im.now }
    ensures { result ≡ unbound_at im.now j }
{
    let at = unbounds_from(im) + j * 6;
    Unbound {
        section: im[at],
        address: im[at + 1],
        module: im[at + 2],
        kind: im[at + 3],
        target: im[at + 4],
        addend: im[at + 5],
    }
}

// Object symbol number j.
pub fn symbol(im: &[u32], j: usize) -> Symbol
    requires { symbols_from im.now + j * 4 + 3 < length im.now }
    ensures { result ≡ symbol_at im.now j }
{
    let at = symbols_from(im) + j * 4;
    Symbol {
        section: im[at],
        address: im[at + 1],
        size: im[at + 2],
        known: im[at + 3],
    }
}

// Where object symbol number j stands.
pub fn symbol_place(im: &[u32], j: usize) -> SectionAddress
    requires { symbols_from im.now + j * 4 + 3 < length im.now }
    ensures { result ≡ symbol_place im.now j }
{
    place_at(im, symbols_from(im) + j * 4)
}

// The place whose section and address begin at word k.
fn place_at(im: &[u32], k: usize) -> SectionAddress
    requires { k + 1 < length im.now }
    ensures { result ≡ record { section = word im.now k; address = word im.now (k + 1) } }
{
    SectionAddress {
        section: im[k],
        address: im[k + 1],
    }
}
