// Reading a report, section by section: each part answers the place after it, or None, and marks the words of its runs.
// Functions over an image require that its tables are there and its Code words are few; our own crates alone call them.
ghost use Rattle.std.specs.Prelude.{◌≡◌, ◌+◌, ◌*◌, ◌^◌, ◌≤◌, ◌<◌, length};
ghost use Rattle.image.specs.Laid as image_laid;
ghost use Rattle.image.specs.Layout.{sections};
ghost use Rattle.image.specs.Rules.{code_words};
ghost use Rattle.report.specs.Reading.{run_fits, run_at, read_runs, read_section, read_sections, head_at, at_end, read_report};
ghost use Rattle.report.specs.Marks.{with_runs, with_sections};

use crate::Found;
use crate::write::words_at;
use image::table::section_count;
use lookups::WordNumber;

// Whether a run may stand where the gap must be no less than `least` and `left` words are left.
fn run_fits(least: u32, left: u32, g: u32, l: u32) -> bool
    ensures { result ≡ run_fits least left g l }
{
    let apart = least <= g;
    let some = 1 <= l;
    let inside = g as u64 + l as u64 <= left as u64;
    apart & some & inside
}

// The run at a place.
fn next_run(s: &[u8], at: usize, least: u32, left: u32) -> Option<Found>
    ensures { result ≡ run_at s.now least left at }
{
    let (gap, mid) = varint::number(s, at)?;
    let (len, end) = varint::number(s, mid)?;
    if run_fits(least, left, gap, len) {
        return Some(Found { gap, len, end });
    }
    None
}

// k runs in some words from one on.
fn read_runs(
    s: &[u8],
    at: usize,
    k: u32,
    words: u32,
    map: &mut [u32],
    from: WordNumber,
) -> Option<usize>
    requires { from.0 + words < 2 ^ 32 }
    ensures { (result ≡ (read_runs s.now k 0 words at).end) × (map.new ≡ with_runs map.old from.0 (read_runs s.now k 0 words at).runs) }
{
    let b = from.0;
    let end = b + words;
    let mut p = at;
    let mut least: u32 = 0;
    let mut c = b;
    for j in 0..k {
        let run = next_run(s, p, least, end - c)?;
        let first = c + run.gap;
        visited::mark_run(map, WordNumber(first), run.len);
        c = first + run.len;
        p = run.end;
        least = 1;
    }
    Some(p)
}

// A section of so many words from one on: the place after it, or None. The words of the runs that read are
// marked in the map, also of those before where it reads no more; a caller who only judges lends a map of its own.
pub fn read_section(
    s: &[u8],
    at: usize,
    words: u32,
    map: &mut [u32],
    from: WordNumber,
) -> Option<usize>
    requires { from.0 + words < 2 ^ 32 }
    ensures { (result ≡ (read_section s.now words at).end) × (map.new ≡ with_runs map.old from.0 (read_section s.now words at).runs) }
{
    let (k, e) = varint::number(s, at)?;
    read_runs(s, e, k, words, map, from)
}

// The sections of an image, one after the other.
fn read_sections(im: &[u32], s: &[u8], at: usize, map: &mut [u32]) -> Option<usize>
    requires { image_laid.Laid im.now × (code_words im.now < 2 ^ 31) }
    ensures { (result ≡ (read_sections im.now s.now (sections im.now) 0 at).end) × (map.new ≡ with_sections im.now map.old 0 (read_sections im.now s.now (sections im.now) 0 at).runs) }
{
    let n = section_count(im);
    let mut p = at;
    let mut b: u32 = 0;
    for i in 0..n {
        let c = words_at(im, i);
        p = read_section(s, p, c, map, WordNumber(b))?;
        b += c;
    }
    Some(p)
}

// Version 1 and the section count: the place after them.
fn read_head(s: &[u8], n: u32) -> Option<usize>
    ensures { result ≡ head_at s.now n }
{
    let (version, d) = varint::number(s, 0)?;
    if version != 1 {
        return None;
    }
    let (m, e) = varint::number(s, d)?;
    if m != n {
        return None;
    }
    Some(e)
}

// A whole report of an image: the place after it, which is the end of the bytes, or None. Its words are marked in the map.
pub fn read_whole(im: &[u32], s: &[u8], map: &mut [u32]) -> Option<usize>
    requires { image_laid.Laid im.now × (code_words im.now < 2 ^ 31) }
    ensures { (result ≡ (read_report im.now s.now).end) × (map.new ≡ with_sections im.now map.old 0 (read_report im.now s.now).runs) }
{
    let n = section_count(im);
    let e = read_head(s, n as u32)?;
    let f = read_sections(im, s, e, map)?;
    if f != s.len() {
        return None;
    }
    Some(f)
}
