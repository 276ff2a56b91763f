// Walks the image of a case as often as the first word of standard input says and prints the walk's answer, for bench/walk to
// count. After that word stand a record of kind 1 and one of kind 10 (docs/FORMATS.md); the walk's fill is 0, its slots 5,120.
#![tactic(auto)]

mod print;
mod read;

use places::SectionAddress;
use read::Words;
use std::io;
use streams::{read_full, room};
use turns::Walked;

// What a walk is given.
#[derive(Clone, Copy)]
struct Given<'a> {
    image: &'a [u32],
    data: &'a [u8],
    starts: &'a [u64],
    two: Option<u32>,
    thirteen: Option<u32>,
    from: SectionAddress,
    upto: Option<SectionAddress>,
}

fn repeat(
    turns: u32,
    g: Given,
    map: &mut [u32],
    stack: &mut [u32],
    entries: &mut [u64; 1024],
) -> Walked {
    let mut last = Walked {
        answer: Ok(()),
        stepped: 0,
        begun: 0,
        read: 0,
        not_read: 0,
        held: 0,
    };
    for _ in 0..turns {
        last = walk::walk(
            g.image, g.data, g.starts, g.two, g.thirteen, g.from, g.upto, map, stack, entries,
        );
    }
    last
}

// The image's words, its data and the starts are parts of their buffers; where one isn't, nothing is walked.
fn measure(
    rt: &impl Print,
    file: &[u8],
    im: &mut [u32],
    starts: &mut [u64],
    map: &mut [u32],
    stack: &mut [u32],
) -> io::Result<()> {
    let mut p = Words { rest: file };
    let turns = p.word();
    p.head();
    let words = p.word() as usize;
    if im.len() < words {
        return Ok(());
    }
    p.fill_words(&mut im[..words]);
    let size = p.word() as usize;
    let Some(data) = p.bytes(size) else {
        return Ok(());
    };
    p.head();
    p.word();
    let shown = p.word() as usize;
    p.word();
    let two = p.base();
    let thirteen = p.base();
    let from = p.place();
    let upto = p.maybe_place();
    let many = p.word() as usize;
    if starts.len() < many {
        return Ok(());
    }
    p.fill_keys(&mut starts[..many]);
    let given = Given {
        image: &im[..words],
        data,
        starts: &starts[..many],
        two,
        thirteen,
        from,
        upto,
    };
    let mut entries = [0u64; 1024];
    let r = repeat(turns, given, map, stack, &mut entries);
    print::answer(rt, r, map, shown)
}

// Room for the files that bench/walk makes, together less than a usual stack of 8 MiB.
fn main(rt: HostRuntime) -> io::Result<()> {
    let mut file: [u8; 1114112] = room(0);
    let mut im: [u32; 30000] = room(0);
    let mut starts: [u64; 4096] = room(0);
    // A bit for each of 262,144 words.
    let mut map: [u32; 8192] = room(0);
    // 5,120 states, each in 330 words and one for its order, and two words more.
    let mut stack: [u32; 1694722] = room(0);
    read_full(&mut rt.stdin(), &mut file)?;
    measure(&rt, &file, &mut im, &mut starts, &mut map, &mut stack)
}
