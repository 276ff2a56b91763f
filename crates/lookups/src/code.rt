// Places of code, and the numbers of Code words.
ghost use Rattle.std.specs.Prelude.{◌≡◌, true, Ok, Some};
ghost use Rattle.lookups.specs.Bytes.{word_at};
ghost use Rattle.lookups.specs.Code.{in_code, code_place, word_number};

use crate::sections::is_within;
use crate::{PlaceError, WordNumber};
use image::code::words_before;
use image::numbers::CODE;
use image::table::{section, section_count};
use image::{Image, Tables};
use places::SectionAddress;
use words::bytes::four;

// NotCode (2) unless the place's own section exists, is Code and holds it; then Misaligned (3) unless its address is a
// multiple of 4; else Ok.
pub fn code_place(im: &Tables<'_>, at: SectionAddress) -> Result<(), PlaceError>
    ensures { result ≡ code_place im.now.words.now at }
{
    if !is_in_code(im, at) {
        return Err(PlaceError::NotCode);
    }
    if at.address % 4 == 0 {
        Ok(())
    } else {
        Err(PlaceError::Misaligned)
    }
}

// Whether a place is in code: its own section exists, is Code and holds the address.
pub fn is_in_code(im: &Tables<'_>, at: SectionAddress) -> bool
    ensures { result ≡ in_code im.now.words.now at }
{
    let i = at.section as usize;
    if section_count(im.words) <= i {
        return false;
    }
    let s = section(im.words, i);
    s.kind == CODE && is_within(s.address, s.size, at.address)
}

// The number of the Code word at a place of code: it is below W. It reads two words of each section before the place's own.
pub fn word_number(im: &Tables<'_>, at: SectionAddress) -> WordNumber
    requires { in_code im.now.words.now at ≡ true }
    ensures { result.0 ≡ word_number im.now.words.now at }
{
    let i = at.section as usize;
    let before = words_before(im.words, i);
    let from = im.words[i * 6 + 6];
    WordNumber(before as u32 + (at.address - from) / 4)
}

// The word at an aligned place of code: two words of the tables and four bytes are read.
pub fn code_word(im: &Image<'_>, at: SectionAddress) -> u32
    requires { code_place im.now.tables.words.now at ≡ Ok tt }
    ensures { Some result ≡ word_at im.now.tables.words.now im.now.«data».now at }
{
    let i = at.section as usize;
    let from = im.tables.words[i * 6 + 6];
    let place = im.tables.words[i * 6 + 10] as usize;
    four(im.data, place + (at.address - from) as usize)
}
