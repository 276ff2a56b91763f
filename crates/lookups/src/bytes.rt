// A section's bytes in the lent buffer, and the words in them.
ghost use Rattle.std.specs.Prelude.{◌≡◌, ◌+◌, ◌-◌, ◌≤◌, ◌<◌, length, take, drop};
ghost use Rattle.lookups.specs.Bytes.{has_data, data_from, data_offset, word_at};

use crate::sections::is_within;
use image::numbers::BSS;
use image::table::{section, section_count};
use image::{Image, Tables};
use places::SectionAddress;
use words::bytes::four;

// The image's own bytes from a place to its section's end; none for Bss or an address outside.
pub fn data_from<'a>(im: &Image<'a>, at: SectionAddress) -> &'a [u8]
    ensures result_value { result.now ≡ data_from im.now.tables.words.now im.now.«data».now at }
    ensures own { (result.ref_ptr.0 ≡ im.now.«data».ref_ptr.0) × (result.ref_ptr.1 ≡ data_offset im.now.tables.words.now at + im.now.«data».ref_ptr.1) }
{
    if has_data(&im.tables, at) {
        let s = section(im.tables.words, at.section as usize);
        bytes_from(im.data, s.address, s.size, s.place, at.address)
    } else {
        &im.data[0..0]
    }
}

// The big-endian word at a place, where its section has four bytes of data from there on.
pub fn read_u32(im: &Image<'_>, at: SectionAddress) -> Option<u32>
    ensures { result ≡ word_at im.now.tables.words.now im.now.«data».now at }
{
    let d = data_from(im, at);
    if d.len() < 4 {
        return None;
    }
    Some(four(d, 0))
}

// Whether a place has data: its section exists, is no Bss and holds the address.
fn has_data(im: &Tables<'_>, at: SectionAddress) -> bool
    ensures { result ≡ has_data im.now.words.now at }
{
    let i = at.section as usize;
    if section_count(im.words) <= i {
        return false;
    }
    let s = section(im.words, i);
    s.kind != BSS && is_within(s.address, s.size, at.address)
}

// The bytes of a section of that address, size and place in the buffer, from an address in it to its end.
fn bytes_from(bytes: &[u8], address: u32, size: u32, place: u32, a: u32) -> &[u8]
    requires { (address ≤ a) × (a < address + size) × (place + size ≤ length bytes.now) }
    ensures result_value { result.now ≡ take (address + size - a) (drop (place + (a - address)) bytes.now) }
    ensures own { (result.ref_ptr.0 ≡ bytes.entry.ref_ptr.0) × (result.ref_ptr.1 ≡ place + (a - address) + bytes.entry.ref_ptr.1) }
{
    let from = place as usize + (a - address) as usize;
    let end = place as usize + size as usize;
    &bytes[from..end]
}
