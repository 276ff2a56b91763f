// One word on cells. The commonest words are told by their opcode and read no more registers than they need; a base that is
// not updated stays. The cells hold a state.
ghost use Rattle.std.specs.Prelude.{◌≡◌};
ghost use Rattle.decoder.specs.Decode.{decoded};
ghost use Rattle.cells.specs.Cells.{state_of, Cells};
ghost use Rattle.runs.specs.Went.{Went};

use crate::carry;
use carry::{carry, clear, compared, leaves};
use cells::{forget, register_in, set_register};
use decoder::{Decoded, Op};
use image::Tables;
use places::SectionAddress;
use step::{Leave, Way, arms, records};
use vm::register::set_direct;
use vm::{GprValue, rule};
use words::{field, mask};

// Any word, by its arm.
fn rest(im: &Tables<'_>, at: SectionAddress, w: u32, dec: Decoded, cells: &mut [u32]) -> Leave
    requires { Cells cells.old (state_of cells.old) × (dec ≡ decoded w) }
    ensures { Went im.now.words.now at w (state_of cells.old) result cells.new }
{
    let gs = register_in(cells, field::rd(w));
    let ga = register_in(cells, field::ra(w));
    let gb = register_in(cells, field::rb(w));
    carry(im, at, w, arms::effect(im, at, w, dec, gs, ga, gb), cells)
}

// A word under 31.
fn extended(im: &Tables<'_>, at: SectionAddress, w: u32, cells: &mut [u32]) -> Leave
    requires { Cells cells.old (state_of cells.old) }
    ensures { Went im.now.words.now at w (state_of cells.old) result cells.new }
{
    let dec = decoder::decode(w);
    let op = dec.op;
    let writes = dec.writes;
    match op {
        // or rA, rS, rB
        Op::Or => {
            let g = records::or(
                w,
                register_in(cells, field::rd(w)),
                register_in(cells, field::rb(w)),
            );
            set_register(cells, field::ra(w), g);
            Leave::Ended
        }
        // add rD, rA, rB
        Op::Add => {
            let g = register_in(cells, field::ra(w));
            let h = register_in(cells, field::rb(w));
            let left = g.value;
            let right = h.value;
            set_register(cells, field::rd(w), set_direct(rule::add(left, right)));
            Leave::Ended
        }
        // cmp [crfD], [L], rA, rB
        Op::Cmp => {
            let g = register_in(cells, field::rb(w));
            let right = g.value;
            compared(w, right, true, cells);
            Leave::Ended
        }
        // cmpl [crfD], [L], rA, rB
        Op::Cmpl => {
            let g = register_in(cells, field::rb(w));
            let right = g.value;
            compared(w, right, false, cells);
            Leave::Ended
        }
        // lwzx rD, rA, rB
        Op::Lwzx => {
            let g = register_in(cells, field::ra(w));
            let h = register_in(cells, field::rb(w));
            let left = g.value;
            let right = h.value;
            let known = records::address(im, at, left);
            set_register(cells, field::rd(w), set_direct(rule::lwzx(known, right)));
            Leave::Ended
        }
        // subf rD, rA, rB
        Op::Subf => {
            let g = register_in(cells, field::ra(w));
            let h = register_in(cells, field::rb(w));
            let left = g.value;
            let right = h.value;
            set_register(cells, field::rd(w), set_direct(rule::subf(left, right)));
            Leave::Ended
        }
        Op::Other => {
            clear(w, writes, cells);
            Leave::Ended
        }
        _ => rest(im, at, w, dec, cells),
    }
}

// What the word does to the state in the cells, or how it leaves; Ended says that the run goes on.
pub fn one(im: &Tables<'_>, at: SectionAddress, w: u32, cells: &mut [u32]) -> Leave
    requires { Cells cells.old (state_of cells.old) }
    ensures { Went im.now.words.now at w (state_of cells.old) result cells.new }
{
    match field::opcd(w) {
        // cmpli [crfD], [L], rA, UIMM
        10 => {
            compared(w, GprValue::Constant(field::uimm(w)), false, cells);
            Leave::Ended
        }
        // cmpi [crfD], [L], rA, SIMM
        11 => {
            compared(w, GprValue::Constant(field::simm(w)), true, cells);
            Leave::Ended
        }
        // addi rD, rA, SIMM
        14 => {
            let a = field::ra(w);
            let known = lookups::target_at(im, at);
            let g = records::addi(known, a == 0, at, w, register_in(cells, a));
            set_register(cells, field::rd(w), g);
            Leave::Ended
        }
        // addis rD, rA, SIMM
        15 => {
            let known = lookups::target_at(im, at);
            let g = register_in(cells, field::ra(w));
            let left = g.value;
            set_register(cells, field::rd(w), records::addis(known, at, w, left));
            Leave::Ended
        }
        16 => leaves(im, at, w, Way::Bc, cells),
        18 => leaves(im, at, w, Way::B, cells),
        // rlwinm rA, rS, SH, MB, ME
        21 => {
            let g = register_in(cells, field::rd(w));
            let value = g.value;
            let m = mask::mask_value(field::mb(w), field::me(w));
            set_register(
                cells,
                field::ra(w),
                set_direct(rule::rotate(value, field::sh(w), m)),
            );
            Leave::Ended
        }
        // ori rA, rS, UIMM
        24 => {
            let known = lookups::target_at(im, at);
            let g = records::ori(known, at, w, register_in(cells, field::rd(w)));
            set_register(cells, field::ra(w), g);
            Leave::Ended
        }
        31 => extended(im, at, w, cells),
        // lwz rD, d(rA)
        32 => {
            forget(cells, field::rd(w));
            Leave::Ended
        }
        // lbz rD, d(rA)
        34 => {
            forget(cells, field::rd(w));
            Leave::Ended
        }
        // stw rS, d(rA)
        36 => Leave::Ended,
        // stb rS, d(rA)
        38 => Leave::Ended,
        // lhz rD, d(rA)
        40 => {
            forget(cells, field::rd(w));
            Leave::Ended
        }
        // sth rS, d(rA)
        44 => Leave::Ended,
        _ => rest(im, at, w, decoder::decode(w), cells),
    }
}
