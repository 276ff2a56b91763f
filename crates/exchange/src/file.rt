// A file of cases, record after record, and its current image; answers go out a line at a time.
ghost use Rattle.std.specs.Prelude.{◌≡◌, ◌≤◌, length, IfOk, OnErr};

use crate::case::{Case, Words};
use crate::line::Line;
use std::io;
use std::io::Read;
use streams::{read_full, room};

// More records than any file has: the loop over them has to end.
const MOST_RECORDS: usize = 100000000;

// A record's kind and its payload's length in words.
#[derive(Clone, Copy)]
pub struct Head {
    pub kind: u32,
    pub length: u32,
}

// The next record's head, where there is one.
pub fn next_head<R: Read>(input: &mut R) -> io::Result<Option<Head>> {
    let mut eight = [0u8; 8];
    if read_full(input, &mut eight)? < 8 {
        return Ok(None);
    }
    Ok(Some(Head {
        kind: words::bytes::word_at(&eight, 0),
        length: words::bytes::word_at(&eight, 4),
    }))
}

pub fn least(a: usize, b: usize) -> usize
    ensures { (result ≤ a) × (result ≤ b) }
{
    a.min(b)
}

// Reads the payload's bytes and answers how many words were there.
fn read_raw<R: Read>(input: &mut R, raw: &mut [u8], count: u32) -> io::Result<usize> {
    let n = least(count as usize * 4, raw.len());
    let got = read_full(input, &mut raw[..n])?;
    Ok(got / 4)
}

// The payload's words, as many as there are: how many.
pub fn next_payload<R: Read>(
    input: &mut R,
    raw: &mut [u8],
    payload: &mut [u32],
    count: u32,
) -> io::Result<usize>
    ensures count { IfOk result (λ n. n ≤ length payload.new) }
    ensures kept { OnErr result (payload.new ≡ payload.old) }
{
    let got = read_raw(input, raw, count)?;
    let n = least(got, payload.len());
    to_words(raw, &mut payload[..n]);
    Ok(n)
}

// The first words of the bytes, as many as there is room for.
fn to_words(raw: &[u8], payload: &mut [u32]) {
    let (fours, _) = raw.as_chunks::<4>();
    for (w, four) in payload.iter_mut().zip(fours) {
        *w = u32::from_be_bytes(*four);
    }
}

// How many words and bytes of its buffers the current image has.
#[derive(Clone, Copy)]
struct Current {
    words: usize,
    bytes: usize,
}

// The image of a record of kind 1 becomes the current one.
fn load_image(payload: &[u32], im: &mut [u32], data: &mut [u8]) -> Current
    ensures { (result.words ≤ length im.new) × (result.bytes ≤ length «data».new) }
{
    let mut p = Words::new(payload);
    let words = least(p.word() as usize, im.len());
    p.fill_words(&mut im[..words]);
    let bytes = least(p.word() as usize, data.len());
    p.fill_bytes(&mut data[..bytes]);
    Current { words, bytes }
}

// Room for a record's bytes and its answer's text, for its payload, for the current image and its data, and for an
// answer's words.
#[derive(Drop)]
struct Buffers<'a> {
    raw: &'a mut [u8],
    payload: &'a mut [u32],
    image: &'a mut [u32],
    data: &'a mut [u8],
    line: &'a mut [u32],
}

// The first n, or as many as there are.
fn first<T>(s: &[T], n: usize) -> &[T] {
    &s[..least(n, s.len())]
}

// Answers each record in turn.
fn run<R: Read, F: Fn(Case, &mut Line)>(
    rt: &impl Print,
    input: &mut R,
    buffers: Buffers,
    answer: F,
) -> io::Result<()>
    requires { F.IsAlwaysCallable answer }
{
    let Buffers {
        raw,
        payload,
        image,
        data,
        line,
    } = buffers;
    let mut now = Current { words: 0, bytes: 0 };
    for _ in 0..MOST_RECORDS {
        let Some(head) = next_head(input)? else {
            return Ok(());
        };
        let n = next_payload(input, raw, payload, head.length)?;
        if head.kind == 1 {
            now = load_image(first(payload, n), image, data);
        }
        let case = Case {
            kind: head.kind,
            words: Words::new(first(payload, n)),
            image: first(image, now.words),
            data: first(data, now.bytes),
        };
        let end = answer_one(case, line, &answer);
        flush(rt, first(line, end), raw)?;
    }
    Ok(())
}

// An answer into a line: where it ends.
fn answer_one<F: Fn(Case, &mut Line)>(case: Case, words: &mut [u32], answer: &F) -> usize
    requires { F.IsAlwaysCallable answer.now }
{
    let mut line = Line::new(words);
    answer(case, &mut line);
    line.end
}

// Answers each record of the input, a line for each, in buffers by the bounds that docs/FORMATS.md gives for every file.
pub fn answer_all<R: Read, F: Fn(Case, &mut Line)>(
    rt: &impl Print,
    input: &mut R,
    answer: F,
) -> io::Result<()>
    requires { F.IsAlwaysCallable answer }
{
    let mut raw: [u8; 1320000] = room(0);
    let mut payload: [u32; 330000] = room(0);
    let mut image: [u32; 66000] = room(0);
    let mut data: [u8; 1048640] = room(0);
    let mut line: [u32; 140000] = room(0);
    let buffers = Buffers {
        raw: &mut raw,
        payload: &mut payload,
        image: &mut image,
        data: &mut data,
        line: &mut line,
    };
    run(rt, input, buffers, answer)
}

// The answer of kind 1.
pub fn judged(case: Case, line: &mut Line) {
    match image::check_image(case.image, case.data) {
        Ok(()) => line.word(0),
        Err(_) => line.word(1),
    }
}

// By hand: there is no heap to format into, and the library has no writer into a lent slice.
fn digit(n: u32) -> u8 {
    let d = (n % 16) as u8;
    if d < 10 { b'0' + d } else { b'a' + (d - 10) }
}

// A word's eight digits and a space.
fn digits(w: u32) -> [u8; 9] {
    [
        digit(w >> 28),
        digit(w >> 24),
        digit(w >> 20),
        digit(w >> 16),
        digit(w >> 12),
        digit(w >> 8),
        digit(w >> 4),
        digit(w),
        b' ',
    ]
}

// Words as text, a space between two of them and a newline after the last, as many as there is room for: where it ends.
fn to_text(words: &[u32], text: &mut [u8]) -> usize
    ensures { result ≤ length text.new }
{
    let end = least(words.len(), text.len() / 9) * 9;
    let (nines, _) = text.as_chunks_mut::<9>();
    for (nine, w) in nines.iter_mut().zip(words) {
        *nine = digits(*w);
    }
    if 0 < end {
        text[end - 1] = b'\n';
    }
    end
}

// An answer goes out as one line.
pub fn flush(rt: &impl Print, words: &[u32], text: &mut [u8]) -> io::Result<()> {
    let end = to_text(words, text);
    rt.write_all(&text[..end])
}
