// The audit of an image file: from standard input to lines that a person, or a script, reads (README.md, "An audit").
// The work is in the crates below; what is read and written here is tested, not proved.
#![tactic(auto)]

ghost use Rattle.std.specs.Prelude.{◌^◌, ◌<◌};

use image::Image;
use image_file::Head;
use std::io;
use std::io::Read;
use std::rt::{Env, Files};
use streams::read_full;
use turns::{WalkError, Walked};
use walk::TABLE_ROOM;

mod options;
mod refusals;
mod rooms;
mod save;
mod which;

use options::Options;
use shown::{counts, sections};

// An image that breaks no rule, the starts, and what the file's head says besides.
#[derive(Clone, Copy)]
struct SoundFile<'a> {
    im: Image<'a>,
    starts: &'a [u64],
    head: Head,
}

// The whole audit, in a buffer that the file must fit in. The last line written says how it ended.
pub fn run<R: Print + Eprint + Env + Files, I: Read>(
    rt: &R,
    input: &mut I,
    file: &mut [u8],
) -> io::Result<()> {
    let Some(o) = options::read(rt) else {
        return println!(rt; "unknown option");
    };
    let n = read_full(input, file)?;
    if n == file.len() {
        if has_more(input)? {
            return refusals::too_long(rt, n);
        }
    }
    parse(rt, &file[..n], o)
}

// Whether the input goes on.
fn has_more<I: Read>(input: &mut I) -> io::Result<bool> {
    let mut one = [0u8; 1];
    let n = read_full(input, &mut one)?;
    Ok(n == 1)
}

fn parse<R: Print + Eprint + Env + Files>(rt: &R, file: &[u8], o: Options) -> io::Result<()> {
    let mut im: [u32; rooms::IMAGE] = rooms::filled(0);
    let mut starts: [u64; rooms::STARTS] = rooms::filled(0);
    match image_file::read_file(file, &mut im, &mut starts) {
        Err(fault) => refusals::no_file(rt, fault, image_file::whole_length(file)),
        Ok(h) => judge(rt, image_file::data_of(file), &im, &starts, h, o),
    }
}

// The image's words and the starts, in the rooms that they were read into.
fn judge<R: Print + Eprint + Env + Files>(
    rt: &R,
    data: &[u8],
    im: &[u32],
    starts: &[u64],
    head: Head,
    o: Options,
) -> io::Result<()> {
    let words = head.words as usize;
    let count = head.starts as usize;
    if im.len() < words || starts.len() < count {
        return Ok(());
    }
    let im = &im[..words];
    let starts = &starts[..count];
    match Image::new(im, data) {
        Err(_) => refusals::broken_image(rt, im, data.len()),
        Ok(im) => walk_file(rt, SoundFile { im, starts, head }, o),
    }
}

// So few starts seldom leave many states waiting: they are walked in a small room first, since the large one takes longer to
// clear than a small program takes to walk.
const FEW_STARTS: usize = 256;

fn walk_file<R: Print + Eprint + Env + Files>(rt: &R, f: SoundFile, o: Options) -> io::Result<()> {
    let mut map: [u32; rooms::MAP] = rooms::filled(0);
    if f.starts.len() <= FEW_STARTS {
        let w = walk_in::<{ rooms::SMALL_STACK }>(f, &mut map);
        if !is_full(w) {
            return show(rt, f, &map, w, o);
        }
        map.fill(0);
    }
    let w = walk_in::<{ rooms::STACK }>(f, &mut map);
    show(rt, f, &map, w, o)
}

// The walk with a stack of so many words.
fn walk_in<const WORDS: usize>(f: SoundFile, map: &mut [u32]) -> Walked
    requires { WORDS < 2 ^ 32 }
{
    let mut stack: [u32; WORDS] = rooms::filled(0);
    let mut entries = [0u64; TABLE_ROOM];
    let h = f.head;
    let two = h.two;
    let thirteen = h.thirteen;
    let upto = h.upto;
    walk::walk(
        f.im.tables.words,
        f.im.data,
        f.starts,
        two,
        thirteen,
        h.from,
        upto,
        map,
        &mut stack,
        &mut entries,
    )
}

fn is_full(w: Walked) -> bool {
    matches!(w.answer, Err(WalkError::StackFull))
}

// What the walk answered, in the order in which a person wants it.
fn show<R: Print + Eprint + Env + Files>(
    rt: &R,
    f: SoundFile,
    map: &[u32],
    w: Walked,
    o: Options,
) -> io::Result<()> {
    match w.answer {
        Err(WalkError::BrokenImage) => refusals::broken_image(
            rt,
            f.im.tables.words,
            f.im.data.len(),
        ),
        Err(WalkError::NotCode) => refusals::bad_start(rt, &f.im.tables, f.starts),
        Err(WalkError::Misaligned) => refusals::bad_start(rt, &f.im.tables, f.starts),
        Err(WalkError::MapTooSmall) => refusals::small_map(rt),
        Ok(()) => show_all(rt, f, map, w, o, "ok"),
        Err(WalkError::StackFull) => show_all(rt, f, map, w, o, "answer 5"),
    }
}

fn show_all<R: Print + Eprint + Env + Files>(
    rt: &R,
    f: SoundFile,
    map: &[u32],
    w: Walked,
    o: Options,
    last: &str,
) -> io::Result<()> {
    counts::show(
        rt,
        f.im.tables.words,
        f.starts.len() as u64,
        map,
        w,
        o.lines,
    )?;
    sections::show(rt, &f.im.tables, map, o.lines)?;
    if let Some(arg) = o.report {
        if !save::report(rt, &f.im, map, arg) {
            return println!(rt; "report not written");
        }
    }
    println!(rt; "{last}")
}
