// An effect, carried out on cells.
// The cells hold a state.
ghost use Rattle.std.specs.Prelude.{◌≡◌, ◌/◌};
ghost use Rattle.vm.specs.Registers.{reg, cr_at};
ghost use Rattle.step.specs.Arms.{ra_of, compare_of};
ghost use Rattle.step.specs.Ways.{bi_of, leave_of};
ghost use Rattle.step.specs.Step.{cleared_of};
ghost use Rattle.cells.specs.Cells.{state_of, Cells};
ghost use Rattle.runs.specs.Went.{compared_of, Carries};

use cells::{
    compare_in, ctr_in, forget, lr_in, register_in, set_compare, set_ctr, set_lr, set_register,
};
use decoder::Writes;
use image::Tables;
use places::SectionAddress;
use step::{Effect, Leave, Way, ways};
use vm::register::{set_direct, with_value};
use vm::{Cr, GprValue};
use words::field;

// How the word leaves.
pub fn leaves(im: &Tables<'_>, at: SectionAddress, w: u32, way: Way, cells: &[u32]) -> Leave
    requires { Cells cells.now (state_of cells.now) }
    ensures { result ≡ leave_of way im.now.words.now at w (state_of cells.now).ctr.value (cr_at (state_of cells.now) (bi_of w / 4)) }
{
    let k = (field::bi(w) / 4) as usize;
    ways::leave(im, at, w, way, ctr_in(cells), compare_in(cells, k))
}

// The registers that a word of this kind writes become Unknown.
pub fn clear(w: u32, kind: Writes, cells: &mut [u32])
    requires { Cells cells.old (state_of cells.old) }
    ensures { Cells cells.new (cleared_of kind w (state_of cells.old)) }
{
    match kind {
        Writes::Nothing => {}
        Writes::Rd => {
            forget(cells, field::rd(w));
        }
        Writes::Ra => {
            forget(cells, field::ra(w));
        }
        Writes::RdRa => {
            forget(cells, field::rd(w));
            forget(cells, field::ra(w));
        }
    }
}

// A compare of rA is recorded, and rA marked; with L set, nothing.
pub fn compared(w: u32, right: GprValue, signed: bool, cells: &mut [u32])
    requires { Cells cells.old (state_of cells.old) }
    ensures { Cells cells.new (compared_of w right signed (state_of cells.old)) }
{
    if field::l(w) {
        return;
    }
    let a = field::ra(w);
    let crf = field::crfd(w);
    let g = register_in(cells, a);
    let left = g.value;
    set_register(cells, a, with_value(g, GprValue::ComparisonResult(crf)));
    set_compare(
        cells,
        crf as usize,
        Cr {
            left,
            right,
            signed,
        },
    );
}

// Any effect: the state after it stands in the cells, or, where the word leaves, the state as it was.
pub fn carry(im: &Tables<'_>, at: SectionAddress, w: u32, e: Effect, cells: &mut [u32]) -> Leave
    requires { Cells cells.old (state_of cells.old) }
    ensures { Carries im.now.words.now at w e (state_of cells.old) result cells.new }
{
    let d = field::rd(w);
    let a = field::ra(w);
    match e {
        Effect::Nothing => Leave::Ended,
        Effect::SetD(g) => {
            set_register(cells, d, g);
            Leave::Ended
        }
        Effect::SetA(g) => {
            set_register(cells, a, g);
            Leave::Ended
        }
        Effect::Compare(c, g) => {
            set_register(cells, a, g);
            set_compare(cells, field::crfd(w) as usize, c);
            Leave::Ended
        }
        Effect::ToLr(v) => {
            set_lr(cells, v);
            Leave::Ended
        }
        Effect::ToCtr(v) => {
            set_ctr(cells, v);
            Leave::Ended
        }
        Effect::FromLr => {
            set_register(cells, d, set_direct(lr_in(cells)));
            Leave::Ended
        }
        Effect::FromCtr => {
            set_register(cells, d, set_direct(ctr_in(cells)));
            Leave::Ended
        }
        Effect::Load { base, seen: _ } => {
            set_register(cells, a, base);
            forget(cells, d);
            Leave::Ended
        }
        Effect::Store { base, seen: _ } => {
            set_register(cells, a, base);
            Leave::Ended
        }
        Effect::Clear(kind) => {
            clear(w, kind, cells);
            Leave::Ended
        }
        Effect::Leaves(way) => leaves(im, at, w, way, cells),
    }
}
