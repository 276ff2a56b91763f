// Section records lent as a slice: the first match by address and by elf number, and the way into the image's words.
#![tactic(auto)]

ghost use Rattle.std.specs.Prelude.{◌≡◌, ◌+◌, ◌*◌, ◌<◌, ◌≤◌, length};
ghost use Rattle.image.specs.Numbers.{max_sections};
ghost use Rattle.image.specs.Rules.{holds};
ghost use Rattle.records.specs.Records.{numbered, record_at, record_by_elf};
ghost use Rattle.records.specs.Written.{with_section, with_sections, written};

use image::Section;
use lookups::sections::is_within;
use search::first;

// Whether the address a lies in the section.
pub fn section_holds(s: Section, a: u32) -> bool
    ensures { result ≡ holds s a }
{
    is_within(s.address, s.size, a)
}

// Whether the section has that elf number.
pub fn section_numbered(s: Section, elf: u32) -> bool
    ensures { result ≡ numbered s elf }
{
    s.elf == elf
}

// The index of the first record that holds the address a, or none.
pub fn section_at(t: &[Section], a: u32) -> Option<usize>
    ensures { result ≡ record_at t.now a }
{
    first(t.len(), |i| section_holds(t[i], a))
}

// The index of the first record with that elf number, or none.
pub fn section_by_elf(t: &[Section], elf: u32) -> Option<usize>
    ensures { result ≡ record_by_elf t.now elf }
{
    first(t.len(), |i| section_numbered(t[i], elf))
}

// The most sections that an image has: `max_sections`.
const MAX_SECTIONS: usize = 64;

// Why no record is written into an image's words.
#[derive(Clone, Copy, PartialEq, Eq, Debug)]
pub enum WriteError {
    TooMany,
    NoRoom,
}

// How many of n records are written into m words: all of them, or none.
fn room_for(n: usize, m: usize) -> Result<usize, WriteError>
    ensures { result ≡ written n m }
{
    if MAX_SECTIONS < n {
        return Err(WriteError::TooMany);
    }
    if m < n * 6 + 6 {
        return Err(WriteError::NoRoom);
    }
    Ok(n)
}

// Writes record i into its six words, which the words have. No other word changes.
fn put_section(words: &mut [u32], i: usize, s: Section)
    requires { (i < max_sections) × (i * 6 + 12 ≤ length words.old) }
    ensures { words.new ≡ with_section words.old i s }
{
    let at = i * 6 + 6;
    words[at] = s.address;
    words[at + 1] = s.size;
    words[at + 2] = s.kind;
    words[at + 3] = s.elf;
    words[at + 4] = s.place;
    words[at + 5] = s.length;
}

// Writes the records into the words of the section table, which begins at word 6, and answers how many.
// The other words stay. More than 64 records, or fewer words than 6 and 6 for each: none is written, and the error says so.
pub fn write_sections(t: &[Section], words: &mut [u32]) -> Result<usize, WriteError>
    ensures { (result ≡ written (length t.now) (length words.old)) × (words.new ≡ with_sections words.old t.now) }
{
    let n = room_for(t.len(), words.len())?;
    for (i, s) in t.iter().enumerate() {
        put_section(words, i, *s);
    }
    Ok(n)
}
