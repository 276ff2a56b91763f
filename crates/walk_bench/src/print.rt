// The walk's answer as a line: words in eight hex digits, a space between them.
use std::io;
use turns::Walked;

fn word(rt: &impl Print, w: u32) -> io::Result<()> {
    print!(rt; "{w:08x} ")
}

// The high word, then the low one.
fn long(rt: &impl Print, n: u64) -> io::Result<()> {
    print!(rt; "{:08x} {:08x} ", n / 0x1_0000_0000, n % 0x1_0000_0000)
}

// Answer, counts, the map's first n words, and how many states wait: a walk that is measured leaves none.
pub(crate) fn answer(rt: &impl Print, r: Walked, map: &[u32], n: usize) -> io::Result<()> {
    word(rt, r.answer.map_or_else(u32::from, |_| 0))?;
    long(rt, r.stepped)?;
    long(rt, r.begun)?;
    long(rt, r.read)?;
    long(rt, r.not_read)?;
    for w in map.iter().take(n) {
        word(rt, *w)?;
    }
    println!(rt; "{:08x}", r.held % 0x1_0000_0000)
}
