// What pushes and pops cost, by the first byte of standard input: a nothing, b 3,000 sorted pushes from cells ascending, c descending, e is b
// with 3,000 pops of places alone, d is e with 3,000 pops into cells and pushes from them before it, f is b with a test of the whole stack.
// The same with states by value: g is b with them, h is d with such pops and pushes.
#![tactic(auto)]

ghost use Rattle.std.specs.Prelude.{◌≡◌, ◌<◌, length};
ghost use Rattle.cells.specs.Cells.{state_of, Cells};
ghost use Rattle.slot.specs.Layout.{state_size};
ghost use Rattle.stack.specs.Stack.{Stack};

use cells::STATE_WORDS;
use clones::Made;
use places::SectionAddress;
use std::io;
use std::io::Read;
use vm::{Cr, Gpr, GprValue, VM};

// Room for 3,000 states.
fn room() -> [u32; 993002]
    ensures { 993002 ≡ length result }
{
    [0; 993002]
}

// A state with a few things known.
fn start(x: u32) -> VM {
    let mut s = vm::state::new();
    s.gpr[2] = vm::register::set_direct(GprValue::Constant(x));
    s.gpr[3] = Gpr {
        value: GprValue::Range {
            min: 0,
            max: x,
            step: 4,
        },
        hi_addr: Some(SectionAddress {
            section: 1,
            address: x,
        }),
        lo_addr: None,
    };
    s.gpr[13] = vm::register::set_direct(GprValue::ComparisonResult(3));
    s.cr[3] = Cr {
        left: GprValue::Unknown,
        right: GprValue::Constant(x),
        signed: false,
    };
    s
}

// The address of push i: ascending, or descending.
fn address(i: usize, down: bool) -> u32
    requires { i < 100000 }
{
    if down {
        4000000 - 4 * (i as u32)
    } else {
        4 * (i as u32)
    }
}

// Sorted pushes from cells.
fn fill(words: &mut [u32], down: bool, cells: &[u32]) -> usize
    requires { Cells cells.now (state_of cells.now) }
    ensures { Stack words.new result }
{
    let mut n: usize = 0;
    for i in 0..3000 {
        let p = SectionAddress {
            section: 3,
            address: address(i, down),
        };
        n = stack::push(words, n, p, cells, Made::Same, true).unwrap_or(n);
    }
    n
}

// Sorted pushes of a state by value.
fn fill_states(words: &mut [u32], down: bool, s: VM) -> usize
    ensures { Stack words.new result }
{
    let mut n: usize = 0;
    for i in 0..3000 {
        let p = SectionAddress {
            section: 3,
            address: address(i, down),
        };
        n = stack::push_state(words, n, p, s, true).unwrap_or(n);
    }
    n
}

// The last state popped and pushed again, 3,000 times.
fn churn(words: &mut [u32], n: usize, cells: &mut [u32]) -> usize
    requires { (Stack words.old n) × (length cells.old ≡ state_size) }
    ensures { Stack words.new result }
{
    let mut m = n;
    for _ in 0..3000 {
        if m == 0 {
            return m;
        }
        let p = stack::top_place(words, m);
        stack::top_cells(words, m, cells);
        m = stack::push(words, m - 1, p, cells, Made::Same, true).unwrap_or(m - 1);
    }
    m
}

// The same by value.
fn churn_states(words: &mut [u32], n: usize) -> usize
    requires { Stack words.old n }
    ensures { Stack words.new result }
{
    let mut m = n;
    for _ in 0..3000 {
        if m == 0 {
            return m;
        }
        let p = stack::top_place(words, m);
        let s = stack::top_state(words, m);
        m = stack::push_state(words, m - 1, p, s, true).unwrap_or(m - 1);
    }
    m
}

// The places of all states, each popped in turn.
fn drain(words: &[u32], n: usize) -> u32
    requires { Stack words.now n }
{
    let mut sum: u32 = 0;
    for i in 0..n {
        let p = stack::top_place(words, n - i);
        sum = sum.wrapping_add(p.address);
    }
    sum
}

fn run(words: &mut [u32], mode: u8) -> u32 {
    if mode == b'a' {
        return 1;
    }
    let s = start(u32::from(mode));
    if mode == b'g' {
        fill_states(words, false, s);
        return 5;
    }
    let mut cells = [0u32; STATE_WORDS];
    cells::put_state(&mut cells, s);
    let n = fill(words, mode == b'c', &cells);
    if mode == b'd' {
        let m = churn(words, n, &mut cells);
        return drain(words, m);
    }
    if mode == b'h' {
        let m = churn_states(words, n);
        return drain(words, m);
    }
    if mode == b'e' {
        return drain(words, n);
    }
    if mode == b'f' {
        if stack::judge::is_stack(words, n) {
            return 2;
        }
        return 3;
    }
    4
}

fn main(rt: HostRuntime) -> io::Result<()> {
    let mut buffer = [0u8; 1];
    rt.stdin().read(&mut buffer)?;
    let mode = buffer[0];
    let mut words = room();
    let r = run(&mut words, mode);
    let out = [b'a' + ((r % 16) as u8), b'\n'];
    rt.write_all(&out)
}
