// Holds the decoder against GNU objdump and qemu-ppc: reads the records that vectors/decoder made and prints, for each
// kind of record, its number, how many there are and in how many of them the decoder says what the record says.
#![tactic(auto)]

use std::io;
use streams::{read_full, room};
use vectors::Tally;
use words::bytes::word_at;

// The kinds of records, and the bytes of one.
const KINDS: usize = 11;

const RECORD: usize = 16;

// An operation stands in a record by its place in `Op`.
fn same_op(w: u32, op: u32) -> bool {
    decoder::decode(w).op as u32 == op
}

// Whether the decoder says of the word w what a record of this kind says, by its last two words a and b.
fn alike(kind: usize, w: u32, a: u32, b: u32) -> bool {
    let set = decoder::written(w);
    match kind {
        // the operation, whatever is written
        2 => same_op(w, a),
        // no register changed that is not in the set
        4 | 9 => (set | b) == set,
        // the destination at an address
        10 => decoder::branch_dest(w, a) == b,
        // the operation and the registers that are written
        _ => same_op(w, a) & (set == b),
    }
}

fn is_alike(kind: usize, record: &[u8]) -> bool {
    alike(
        kind,
        word_at(record, 4),
        word_at(record, 8),
        word_at(record, 12),
    )
}

fn print_all(rt: &impl Print, records: &[u8]) -> io::Result<()> {
    for kind in 0..KINDS {
        let t = vectors::count_kind::<RECORD, _>(records, kind, |r: &[u8]| is_alike(kind, r));
        let Tally { asked, alike } = t;
        println!(rt; "{kind} asked {asked} alike {alike}")?;
    }
    Ok(())
}

fn main(rt: HostRuntime) -> io::Result<()> {
    let mut buffer: [u8; 262144] = room(0);
    let n = read_full(&mut rt.stdin(), &mut buffer)?;
    print_all(&rt, &buffer[..n])
}
