// Runs recorded words in place over one state, as often as the first word of standard input says, for bench/step to count
// instructions; the words follow, at most 16,383 of them. Prints where the last run stopped.
#![tactic(auto)]

use cells::STATE_WORDS;
use image::Tables;
use places::SectionAddress;
use std::io;
use streams::{read_full, room};

fn repeat(im: &Tables<'_>, code: &[u8], turns: u32) -> u32 {
    let start = SectionAddress {
        section: 0,
        address: 4096,
    };
    let mut stopped = 0;
    for _ in 0..turns {
        let mut state = [0u32; STATE_WORDS];
        cells::put_state(&mut state, vm::state::new());
        let r = runs::run(im, code, start, &mut state);
        stopped = r.at.address;
    }
    stopped
}

// The words in an image of their own: Executable, one Code section at 4096.
fn measure(rt: &impl Print, code: &[u8], turns: u32) -> io::Result<()> {
    let size = (code.len() % 65536) as u32;
    let im = [0, 0, 1, 0, 0, 0, 4096, size, 0, 0, 0, size];
    if image::judge::tables_sound(&im) {
        let stopped = repeat(&Tables { words: &im }, code, turns);
        println!(rt; "{stopped}")
    } else {
        rt.write_all(b"no image\n")
    }
}

fn main(rt: HostRuntime) -> io::Result<()> {
    let mut input = rt.stdin();
    let mut four = [0u8; 4];
    let got = read_full(&mut input, &mut four)?;
    let mut buffer: [u8; 65536] = room(0);
    let n = read_full(&mut input, &mut buffer)?;
    if got == 4 {
        return measure(&rt, &buffer[..n], words::bytes::word_at(&four, 0));
    }
    Ok(())
}
