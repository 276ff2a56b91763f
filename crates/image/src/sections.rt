// The rules on sections, each by itself and two by two, and on their data.
// Functions over an image require that its tables are laid out; our own crates alone call them.
ghost use Rattle.std.specs.Prelude.{◌≡◌, ℕ, ◌<◌, min, max};
ghost use Rattle.search.specs.Every.{every};
ghost use Rattle.image.specs.Layout.{sections, section_at};
ghost use Rattle.image.specs.Laid.{Laid};
ghost use Rattle.image.specs.Rules.{end_of, aligned, section_sound, sections_sound, apart, sections_apart, data_inside};

use crate::Section;
use crate::numbers::{BSS, CODE, EXECUTABLE};
use crate::table::{section, section_count};

// The address just past a section, which may be 2^32 or more.
pub fn end_of(s: Section) -> u64
    ensures { result ≡ end_of s }
{
    s.address as u64 + s.size as u64
}

// Code address and size are multiples of 4.
fn is_aligned(s: Section) -> bool
    ensures { result ≡ aligned s }
{
    s.kind != CODE || (s.address % 4 == 0 && s.size % 4 == 0)
}

// A known kind, an end below 2^32, data of exactly size bytes and none for Bss, Code aligned.
pub fn section_sound(s: Section) -> bool
    ensures { result ≡ section_sound s }
{
    let stored = if s.kind == BSS { 0 } else { s.size };
    s.kind < 4 && end_of(s) < 0x1_0000_0000 && s.length == stored && is_aligned(s)
}

// Every section is sound by itself.
pub fn sections_sound(im: &[u32]) -> bool
    requires { Laid im.now }
    ensures { result ≡ sections_sound im.now }
{
    (0..section_count(im)).all(|i| section_sound(section(im, i)))
}

// Two sections share no byte.
pub fn are_apart(s: Section, t: Section) -> bool
    ensures { result ≡ apart s t }
{
    let end = end_of(s).min(end_of(t));
    let start = s.address.max(t.address);
    end <= start as u64
}

// Section i shares no byte with one before it.
fn apart_before(im: &[u32], i: usize) -> bool
    requires { Laid im.now × (i < sections im.now) }
    ensures { result ≡ every (λ (j : ℕ). apart (section_at im.now j) (section_at im.now i)) i }
{
    let t = section(im, i);
    (0..i).all(|j| are_apart(section(im, j), t))
}

// In an Executable no byte is in two sections.
pub fn sections_apart(im: &[u32]) -> bool
    requires { Laid im.now }
    ensures { result ≡ sections_apart im.now }
{
    im[0] != EXECUTABLE || (0..section_count(im)).all(|i| apart_before(im, i))
}

// Each section's data lies in a buffer of n bytes.
pub fn data_inside(im: &[u32], n: usize) -> bool
    requires { Laid im.now }
    ensures { result ≡ data_inside im.now n }
{
    (0..section_count(im)).all(|i| {
        let s = section(im, i);
        s.place as usize + s.length as usize <= n
    })
}
