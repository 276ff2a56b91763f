// What one word of a table means.
ghost use Rattle.std.specs.Prelude.{◌≡◌};
ghost use Rattle.jump_tables.specs.Readings.{bare_entry, in_function, sized_target, sized_word, guessed_target, guessed_word, sized_reading, guessed_reading, reading_of};

use crate::{How, Reading};
use image::numbers::EXECUTABLE;
use image::{Image, Tables};
use lookups::{Wanted, at_address, read_u32, relocation_target_for};
use places::{RelocationTarget, SectionAddress, is_before};

// The word at a place of a table whose size is known: Faulty (7), Nowhere (9), Skipped for a bare 0, or its Entry. Stopped
// only where the section has no word there.
#[tactic(auto, unfolding(crate::specs::Readings::sized_reading))]
pub fn sized_reading(im: &Image<'_>, p: SectionAddress) -> Reading
    ensures { result ≡ sized_reading im.now.tables.words.now im.now.«data».now p }
{
    match relocation_target_for(&im.tables, p, Wanted::Absolute) {
        Err(_) => Reading::Faulty,
        Ok(Some(t)) => sized_target(t),
        Ok(None) => sized_word(&im.tables, read_u32(im, p)),
    }
}

// The word at a place of a table whose size is guessed: Faulty (7), Stopped, or its Entry.
#[tactic(auto, unfolding(crate::specs::Readings::guessed_reading))]
pub fn guessed_reading(
    im: &Image<'_>,
    start: SectionAddress,
    end: Option<SectionAddress>,
    p: SectionAddress,
) -> Reading
    ensures { result ≡ guessed_reading im.now.tables.words.now im.now.«data».now start end p }
{
    match relocation_target_for(&im.tables, p, Wanted::Absolute) {
        Err(_) => Reading::Faulty,
        Ok(Some(t)) => guessed_target(t, start, end),
        Ok(None) => guessed_word(&im.tables, read_u32(im, p), start, end),
    }
}

// The same, as the table is read.
pub fn reading(im: &Image<'_>, how: How, p: SectionAddress) -> Reading
    ensures { result ≡ reading_of im.now.tables.words.now im.now.«data».now how p }
{
    match how {
        How::Sized => sized_reading(im, p),
        How::Guessed(start, end) => guessed_reading(im, start, end, p),
    }
}

fn sized_target(t: RelocationTarget) -> Reading
    ensures { result ≡ sized_target t }
{
    match t {
        RelocationTarget::External => Reading::Nowhere,
        RelocationTarget::Address(a) => Reading::Entry(a),
    }
}

fn guessed_target(
    t: RelocationTarget,
    start: SectionAddress,
    end: Option<SectionAddress>,
) -> Reading
    ensures { result ≡ guessed_target start end t }
{
    match t {
        RelocationTarget::External => Reading::Stopped,
        RelocationTarget::Address(a) => in_function(start, end, a),
    }
}

fn sized_word(im: &Tables<'_>, w: Option<u32>) -> Reading
    ensures { result ≡ sized_word im.now.words.now w }
{
    let Some(v) = w else {
        return Reading::Stopped;
    };
    if v == 0 {
        return Reading::Skipped;
    }
    match bare_entry(im, v) {
        Some(a) => Reading::Entry(a),
        None => Reading::Nowhere,
    }
}

fn guessed_word(
    im: &Tables<'_>,
    w: Option<u32>,
    start: SectionAddress,
    end: Option<SectionAddress>,
) -> Reading
    ensures { result ≡ guessed_word im.now.words.now start end w }
{
    let Some(v) = w else {
        return Reading::Stopped;
    };
    match bare_entry(im, v) {
        Some(a) => in_function(start, end, a),
        None => Reading::Stopped,
    }
}

// The place that a bare word names: in an Executable by the first section that holds it, in a Relocatable none.
fn bare_entry(im: &Tables<'_>, v: u32) -> Option<SectionAddress>
    ensures { result ≡ bare_entry im.now.words.now v }
{
    if im.words[0] != EXECUTABLE {
        return None;
    }
    match at_address(im, v) {
        Some(i) => Some(SectionAddress {
            section: i as u32,
            address: v,
        }),
        None => None,
    }
}

// A target before the function's start, or at or past its end, stops the guess.
fn in_function(start: SectionAddress, end: Option<SectionAddress>, t: SectionAddress) -> Reading
    ensures { result ≡ in_function start end t }
{
    if is_before(t, start) {
        return Reading::Stopped;
    }
    match end {
        None => Reading::Entry(t),
        Some(e) => {
            if is_before(t, e) {
                Reading::Entry(t)
            } else {
                Reading::Stopped
            }
        }
    }
}
