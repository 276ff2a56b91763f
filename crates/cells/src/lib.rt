// A state as the words of a slot without its place, read and changed where it lies: a state that is handed on by value is a copy.
// Callers hand in cells that hold a state; our own crates alone call these.
#![tactic(auto)]

ghost use Rattle.std.specs.Prelude.{◌≡◌, ◌<◌, ◌≤◌, length};
ghost use Rattle.vm.specs.Registers.{blank, reg, with_reg, cr_at, with_lr, with_ctr};
ghost use Rattle.slot.specs.Layout.{state_size};
ghost use Rattle.cells.specs.Cells.{state_of, Cells, with_cr};

use slot::record;
use vm::{Cr, Gpr, GprValue, VM};

// How many words a state has.
pub const STATE_WORDS: usize = 328;

pub fn register_in(cells: &[u32], i: usize) -> Gpr
    requires { (state_size ≤ length cells.now) × (i < 32) }
    ensures { result ≡ reg (state_of cells.now) i }
{
    record::register_at(cells, i * 8)
}

pub fn set_register(cells: &mut [u32], i: usize, g: Gpr)
    requires { Cells cells.old (state_of cells.old) × (i < 32) }
    ensures { Cells cells.new (with_reg (state_of cells.old) i g) }
{
    record::put_register(cells, i * 8, g);
}

// Nothing is known of the register.
pub fn forget(cells: &mut [u32], i: usize)
    requires { Cells cells.old (state_of cells.old) × (i < 32) }
    ensures { Cells cells.new (with_reg (state_of cells.old) i blank) }
{
    record::put_zeros(cells, i * 8);
}

pub fn compare_in(cells: &[u32], k: usize) -> Cr
    requires { (state_size ≤ length cells.now) × (k < 8) }
    ensures { result ≡ cr_at (state_of cells.now) k }
{
    record::compare_at(cells, 256 + k * 8)
}

pub fn set_compare(cells: &mut [u32], k: usize, c: Cr)
    requires { Cells cells.old (state_of cells.old) × (k < 8) }
    ensures { Cells cells.new (with_cr (state_of cells.old) k c) }
{
    record::put_compare(cells, 256 + k * 8, c);
}

// LR and CTR differ in a number alone: each function is one call of what they share, and its name says which.
pub fn lr_in(cells: &[u32]) -> GprValue
    requires { state_size ≤ length cells.now }
    ensures { result ≡ (state_of cells.now).lr.value }
{
    record::held_at(cells, 320).value
}

pub fn set_lr(cells: &mut [u32], v: GprValue)
    requires { Cells cells.old (state_of cells.old) }
    ensures { Cells cells.new (with_lr (state_of cells.old) v) }
{
    record::put_value(cells, 320, v);
}

pub fn ctr_in(cells: &[u32]) -> GprValue
    requires { state_size ≤ length cells.now }
    ensures { result ≡ (state_of cells.now).ctr.value }
{
    record::held_at(cells, 324).value
}

pub fn set_ctr(cells: &mut [u32], v: GprValue)
    requires { Cells cells.old (state_of cells.old) }
    ensures { Cells cells.new (with_ctr (state_of cells.old) v) }
{
    record::put_value(cells, 324, v);
}

// A state is laid out in cells.
pub fn put_state(cells: &mut [u32], s: VM)
    requires { length cells.old ≡ state_size }
    ensures { Cells cells.new s }
{
    slot::put_state(cells, 0, s);
}
