// What the two relocation tables say of a place, and the place of a value.
ghost use Rattle.std.specs.Prelude.{◌≡◌, ◌+◌, ◌*◌, ◌<◌, length};
ghost use Rattle.lookups.specs.Relocations.{differs, bound_target, entry_is, unbound_index, into_section, unbound_target, unbound_for, relocation_for, target_at, place_in, bare_address, section_address_for};

use crate::sections::{at_address, is_within};
use crate::sorted::bound_index;
use crate::{Relocation, RelocationError, Wanted};
use image::elf::elf_index;
use image::numbers::{ABSOLUTE, EXECUTABLE, NO_SECTION};
use image::table::{bound, section, section_count, unbound, unbound_count, unbounds_from};
use image::{Bound, Tables, Unbound};
use places::{RelocationTarget, SectionAddress};
use search::first;
use words::sum::wrapping_add;

// What the tables say of a place: the bound one first, then the unbound one. None where neither has an entry.
// Error for another kind than the wanted one, for an unbound target in no section, and for an address of 2^32 or more.
#[tactic(auto, using(image::proofs::SoundTables::sound_tables, search::proofs::FirstMatch::first_below), unfolding(crate::specs::Relocations::relocation_for))]
pub fn relocation_target_for(im: &Tables<'_>, at: SectionAddress, wanted: Wanted) -> Relocation
    ensures { result ≡ relocation_for im.now.words.now at wanted }
{
    let i = at.section as usize;
    if section_count(im.words) <= i {
        return Ok(None);
    }
    match bound_index(im, at) {
        Some(j) => bound_target(bound(im.words, j), wanted),
        None => unbound_target_for(im, section(im.words, i).elf, at.address, wanted),
    }
}

// The relocation at a place, of any kind; an error counts as none.
pub fn target_at(im: &Tables<'_>, at: SectionAddress) -> Option<RelocationTarget>
    ensures { result ≡ target_at im.now.words.now at }
{
    match relocation_target_for(im, at, Wanted::Any) {
        Ok(Some(t)) => Some(t),
        Err(_) => None,
        Ok(None) => None,
    }
}

// Where a value at an instruction points: the relocation there if any; else, Executable, the section that holds the
// value; else the instruction's own section if it holds it; else None.
#[tactic(auto, unfolding(crate::specs::Relocations::section_address_for))]
pub fn section_address_for(
    im: &Tables<'_>,
    at: SectionAddress,
    value: u32,
) -> Option<RelocationTarget>
    ensures { result ≡ section_address_for im.now.words.now at value }
{
    match target_at(im, at) {
        Some(t) => Some(t),
        None => bare_address(im, at.section, value),
    }
}

// The index of the first unbound entry for a section's elf number and an address. First match is the paper's rule, and
// the table is in no order: a place with no entry costs one read of each entry, 4,096 at most.
pub fn unbound_index(im: &Tables<'_>, elf: u32, a: u32) -> Option<usize>
    ensures { result ≡ unbound_index im.now.words.now elf a }
{
    let words = im.words;
    let from = unbounds_from(words);
    first(
        unbound_count(words),
        |j| is_entry(words, from + j * 6, elf, a),
    )
}

// Whether the entry that begins at a word is for that elf number and address. The address alone rules out most.
fn is_entry(im: &[u32], k: usize, elf: u32, a: u32) -> bool
    requires { k + 1 < length im.now }
    ensures { result ≡ entry_is im.now k elf a }
{
    im[k + 1] == a && im[k] == elf
}

// A value with no relocation: by the section that holds it in an Executable, else by section i alone.
fn bare_address(im: &Tables<'_>, i: u32, value: u32) -> Option<RelocationTarget>
    ensures { result ≡ bare_address im.now.words.now i value }
{
    if im.words[0] == EXECUTABLE {
        return match at_address(im, value) {
            Some(k) => place_in(k, value),
            None => None,
        };
    }
    let own = i as usize;
    if section_count(im.words) <= own {
        return None;
    }
    let s = section(im.words, own);
    if is_within(s.address, s.size, value) {
        place_in(own, value)
    } else {
        None
    }
}

// What a bound entry says to who wants a kind: the kind is looked at before External.
fn bound_target(r: Bound, wanted: Wanted) -> Relocation
    ensures { result ≡ bound_target wanted r }
{
    if is_other(wanted, r.kind) {
        return Err(RelocationError);
    }
    if r.symbol_section == NO_SECTION {
        return Ok(Some(RelocationTarget::External));
    }
    Ok(Some(RelocationTarget::Address(SectionAddress {
        section: r.symbol_section,
        address: wrapping_add(r.symbol_address, r.addend),
    })))
}

// What the unbound table says of a section's elf number and an address.
fn unbound_target_for(im: &Tables<'_>, elf: u32, a: u32, wanted: Wanted) -> Relocation
    ensures { result ≡ unbound_for im.now.words.now elf a wanted }
{
    let Some(j) = unbound_index(im, elf, a) else {
        return Ok(None);
    };
    unbound_target(im, unbound(im.words, j), wanted)
}

// What an unbound entry says: External is looked at before the kind.
fn unbound_target(im: &Tables<'_>, r: Unbound, wanted: Wanted) -> Relocation
    ensures { result ≡ unbound_target im.now.words.now wanted r }
{
    if r.module != im.words[1] {
        return Ok(Some(RelocationTarget::External));
    }
    if is_other(wanted, r.kind) {
        return Err(RelocationError);
    }
    let Some(i) = elf_index(im.words, r.target) else {
        return Err(RelocationError);
    };
    into_section(im.words, i, r.addend)
}

// The place an addend past the start of section i; an error at 2^32 or more.
fn into_section(im: &[u32], i: usize, addend: u32) -> Relocation
    requires { (i * 6 + 11 < length im.now) × (i < 64) }
    ensures { result ≡ into_section im.now addend i }
{
    let from = section(im, i).address;
    if 0xffff_ffff - from < addend {
        return Err(RelocationError);
    }
    Ok(Some(RelocationTarget::Address(SectionAddress {
        section: i as u32,
        address: from + addend,
    })))
}

// Whether a kind is wanted and the entry's is another.
fn is_other(wanted: Wanted, kind: u32) -> bool
    ensures { result ≡ differs wanted kind }
{
    match wanted {
        Wanted::Any => false,
        Wanted::Absolute => kind != ABSOLUTE,
        Wanted::Other => kind == ABSOLUTE,
    }
}

fn place_in(i: usize, a: u32) -> Option<RelocationTarget>
    requires { i < 64 }
    ensures { result ≡ place_in a i }
{
    Some(RelocationTarget::Address(SectionAddress {
        section: i as u32,
        address: a,
    }))
}
