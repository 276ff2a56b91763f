// Writing a report: bytes are laid from a place on, and a byte that the buffer does not reach is passed over.
// Functions over an image require that its tables are there and its Code words are few; our own crates alone call them.
ghost use Rattle.std.specs.Prelude.{◌≡◌, [], ◌+◌, ◌*◌, ◌^◌, ◌≤◌, ◌<◌, length, replicate};
ghost use Rattle.image.specs.Laid as image_laid;
ghost use Rattle.image.specs.Layout.{sections};
ghost use Rattle.image.specs.Rules.{code_words};
ghost use Rattle.visited.specs.Bits.{visited_at};
ghost use Rattle.report.specs.Runs.{runs_of, tab, words_at, runs_in};
ghost use Rattle.report.specs.Bytes.{run_bytes, section_bytes, sections_bytes, report_of};
ghost use Rattle.report.specs.Steps.{Laid, Turned, yet, closed_by};

use crate::Scan;
use image::numbers::CODE;
use image::table::section_count;
use lookups::WordNumber;

// The Code words of section i.
pub fn words_at(im: &[u32], i: usize) -> u32
    requires { i * 6 + 11 < length im.now }
    ensures { result ≡ words_at im.now i }
{
    if im[i * 6 + 8] == CODE {
        return im[i * 6 + 7] / 4;
    }
    0
}

// One word more of a scan: visited or not.
fn turn(buf: &mut [u8], s: Scan, v: bool) -> Scan
    requires { (s.at + 10 < 2 ^ 64) × (s.gap + s.len + 1 < 2 ^ 32) }
    ensures { Turned buf.old buf.new s result v }
{
    if v {
        return Scan {
            len: s.len + 1,
            ..s
        };
    }
    if s.len == 0 {
        return Scan {
            gap: s.gap + 1,
            ..s
        };
    }
    let p = varint::put(buf, s.at, s.gap);
    let q = varint::put(buf, p, s.len);
    Scan {
        at: q,
        gap: 1,
        len: 0,
    }
}

// The run that has begun, if there is one.
fn finish(buf: &mut [u8], s: Scan) -> usize
    requires { s.at + 10 < 2 ^ 64 }
    ensures { Laid buf.old buf.new s.at (yet s []) result }
{
    if s.len == 0 {
        return s.at;
    }
    let p = varint::put(buf, s.at, s.gap);
    varint::put(buf, p, s.len)
}

// The runs of some words from one on.
fn write_runs(buf: &mut [u8], at: usize, map: &[u32], from: WordNumber, words: u32) -> usize
    requires { (from.0 + words < 2 ^ 31) × (at + length (run_bytes (runs_of (tab (visited_at map.now) from.0 words))) < 2 ^ 63) }
    ensures { Laid buf.old buf.new at (run_bytes (runs_of (tab (visited_at map.now) from.0 words))) result }
{
    let b = from.0;
    let mut s = Scan { at, gap: 0, len: 0 };
    for j in 0..words {
        let v = visited::contains(map, WordNumber(b + j));
        s = turn(buf, s, v);
    }
    finish(buf, s)
}

// The runs that end before a word: one where the last word was visited and this one is not.
fn closes(last: bool, v: bool) -> u32
    ensures { result ≡ closed_by last v }
{
    if last && !v { 1 } else { 0 }
}

// How many runs there are in some words from one on.
fn count_runs(map: &[u32], from: WordNumber, words: u32) -> u32
    requires { from.0 + words < 2 ^ 31 }
    ensures { result ≡ length (runs_of (tab (visited_at map.now) from.0 words)) }
{
    let b = from.0;
    let mut n: u32 = 0;
    let mut last = false;
    for j in 0..words {
        let v = visited::contains(map, WordNumber(b + j));
        n += closes(last, v);
        last = v;
    }
    n + closes(last, false)
}

// A section: its run count, then its runs.
fn write_section(buf: &mut [u8], at: usize, map: &[u32], from: WordNumber, words: u32) -> usize
    requires { (from.0 + words < 2 ^ 31) × (at + length (section_bytes (runs_of (tab (visited_at map.now) from.0 words))) < 2 ^ 63) }
    ensures { Laid buf.old buf.new at (section_bytes (runs_of (tab (visited_at map.now) from.0 words))) result }
{
    let n = count_runs(map, from, words);
    let p = varint::put(buf, at, n);
    write_runs(buf, p, map, from, words)
}

// The sections, one after the other.
fn write_sections(buf: &mut [u8], at: usize, im: &[u32], map: &[u32]) -> usize
    requires { image_laid.Laid im.now × (code_words im.now < 2 ^ 31) × (at + length (sections_bytes (tab (runs_in im.now map.now) 0 (sections im.now))) < 2 ^ 63) }
    ensures { Laid buf.old buf.new at (sections_bytes (tab (runs_in im.now map.now) 0 (sections im.now))) result }
{
    let n = section_count(im);
    let mut p = at;
    let mut b: u32 = 0;
    for i in 0..n {
        let c = words_at(im, i);
        p = write_section(buf, p, map, WordNumber(b), c);
        b += c;
    }
    p
}

// Version 1, the section count, the sections. The answer is the report's length, whether or not it fitted.
pub fn write_whole(buf: &mut [u8], im: &[u32], map: &[u32]) -> usize
    requires { image_laid.Laid im.now × (code_words im.now < 2 ^ 31) }
    ensures { Laid buf.old buf.new 0 (report_of im.now map.now) result }
{
    let n = section_count(im);
    let p = varint::put(buf, 0, 1);
    let q = varint::put(buf, p, n as u32);
    write_sections(buf, q, im, map)
}

// A buffer of zeros.
pub fn clear_bytes(buf: &mut [u8])
    ensures { buf.new ≡ replicate (length buf.old) 0 }
{
    buf.fill(0);
}
