// Holds the words layer against GNU objdump and qemu-ppc: reads the records that vectors/words made and prints, for each
// thing asked, its number, how many records asked it and in how many our answer was the recorded one.
#![tactic(auto)]

use std::io;
use streams::{read_full, room};
use vectors::Tally;
use words::bytes::word_at;
use words::{field, mask};

// The kinds of records, and the bytes of one.
const KINDS: usize = 23;

const RECORD: usize = 20;

fn rotate_and_mask(w: u32, x: u32, n: u32) -> u32 {
    mask::rotate_left(x, n) & mask::mask_value(field::mb(w), field::me(w))
}

// Our answer: what is asked by number, as vectors/words lists them.
fn answer(what: usize, w: u32, a: u32, b: u32) -> u32 {
    match what {
        0 => field::opcd(w),
        1 => field::xo(w),
        2 => field::rd(w) as u32,
        3 => field::rs(w) as u32,
        4 => field::ra(w) as u32,
        5 => field::rb(w) as u32,
        6 => field::crfd(w) as u32,
        7 => u32::from(field::l(w)),
        8 => field::sh(w),
        9 => field::mb(w),
        10 => field::me(w),
        11 => field::bo(w),
        12 => field::bi(w),
        13 => field::spr(w),
        14 => field::simm(w),
        15 => field::uimm(w),
        16 => field::li(w),
        17 => field::bd(w),
        18 => u32::from(field::aa(w)),
        19 => u32::from(field::lk(w)),
        20 => u32::from(field::rc(w)),
        21 => rotate_and_mask(w, a, field::sh(w)),
        _ => rotate_and_mask(w, a, b),
    }
}

fn is_alike(what: usize, record: &[u8]) -> bool {
    let w = word_at(record, 4);
    let a = word_at(record, 8);
    let b = word_at(record, 12);
    answer(what, w, a, b) == word_at(record, 16)
}

fn print_all(rt: &impl Print, records: &[u8]) -> io::Result<()> {
    for what in 0..KINDS {
        let t = vectors::count_kind::<RECORD, _>(records, what, |r: &[u8]| is_alike(what, r));
        let Tally { asked, alike } = t;
        println!(rt; "{what} asked {asked} alike {alike}")?;
    }
    Ok(())
}

fn main(rt: HostRuntime) -> io::Result<()> {
    let mut buffer: [u8; 131072] = room(0);
    let n = read_full(&mut rt.stdin(), &mut buffer)?;
    print_all(&rt, &buffer[..n])
}
