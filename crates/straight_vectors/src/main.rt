// Holds `step` on Constant states against a PowerPC: reads the records that vectors/straight made and prints, for each
// class of words, how many there are and after how many all thirty-two registers are what qemu-ppc had.
#![tactic(auto)]

use places::SectionAddress;
use std::io;
use step::{StepResult, Stepped};
use streams::{read_full, room};
use vectors::Tally;
use vm::{Gpr, GprValue, VM};
use words::bytes::word_at;

// The bytes of a record: its class, the word, the registers before and after it.
const RECORD: usize = 264;

// The image that the words run in: Executable, one Code section of one word at 4096.
const IMAGE: [u32; 12] = [0, 0, 1, 0, 0, 0, 4096, 4, 0, 0, 0, 4];

// The classes by their numbers, as vectors/straight has them.
const NAMES: [&str; 25] = [
    "add",
    "addi",
    "addic",
    "addic.",
    "addis",
    "subf",
    "subfc",
    "subfic",
    "ori",
    "or",
    "rlwinm",
    "rlwnm",
    "addi with rA 0",
    "addis with rA 0",
    "addic with rA 0",
    "subfic with rA 0",
    "or with rS equal to rB",
    "rlwnm by 32 and more",
    "rlwinm with MB above ME",
    "addi with SIMM -32768",
    "subfic with SIMM -32768",
    "addo.",
    "subfo",
    "or.",
    "rlwnm.",
];

fn constant(n: u32) -> Gpr {
    Gpr {
        value: GprValue::Constant(n),
        hi_addr: None,
        lo_addr: None,
    }
}

// Every register the Constant that the record has before the word. By number, here and below: over chunks the compiler takes the
// state apart, and the program takes up to a third more time.
fn before(record: &[u8; RECORD]) -> VM {
    let mut t = vm::state::new();
    for r in 0..32 {
        t.gpr[r] = constant(word_at(record, 8 + r * 4));
    }
    t
}

fn holds(g: Gpr, n: u32) -> bool {
    match g.value {
        GprValue::Constant(c) => c == n,
        _ => false,
    }
}

// Every register is the Constant that the record has after the word.
fn is_after(t: VM, record: &[u8; RECORD]) -> bool {
    for r in 0..32 {
        if !holds(t.gpr[r], word_at(record, 136 + r * 4)) {
            return false;
        }
    }
    true
}

// The record's word stepped in an image whose data is that word.
fn step_in_image(record: &[u8; RECORD]) -> Stepped {
    let place = SectionAddress {
        section: 0,
        address: 4096,
    };
    step::step(
        &IMAGE,
        &record[4..8],
        place,
        word_at(record, 4),
        before(record),
    )
}

fn is_alike(bytes: &[u8]) -> bool {
    let Some(record) = bytes.first_chunk::<RECORD>() else {
        return false;
    };
    let t = step_in_image(record);
    matches!(t.result, StepResult::Continue) && is_after(t.vm, record)
}

fn print_all(rt: &impl Print, records: &[u8]) -> io::Result<()> {
    for (class, name) in NAMES.iter().enumerate() {
        let Tally { asked, alike } = vectors::count_kind::<RECORD, _>(records, class, is_alike);
        println!(rt; "{name}: {asked} words, {alike} alike")?;
    }
    Ok(())
}

fn main(rt: HostRuntime) -> io::Result<()> {
    let mut buffer: [u8; 262144] = room(0);
    let n = read_full(&mut rt.stdin(), &mut buffer)?;
    print_all(&rt, &buffer[..n])
}
