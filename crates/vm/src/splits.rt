// The split rule: what the two sides of a conditional branch know of the compared register.
// Whether the compare was signed plays no part, as in vm.rs.
ghost use Rattle.std.specs.Prelude.{◌≡◌};
ghost use Rattle.vm.specs.Splits.{at_most_of, at_least_of, both_of, lt_of, gt_of, eq_of, split_of};

use crate::{Cr, GprValue, Split};
use words::sum::{wrapping_add, wrapping_sub};

// What is known of a value that is at most n: a Range's ends are lowered to n.
fn at_most(value: GprValue, n: u32) -> GprValue
    ensures { result ≡ at_most_of value n }
{
    match value {
        GprValue::Range { min, max, step } => GprValue::Range {
            min: min.min(n),
            max: max.min(n),
            step,
        },
        _ => GprValue::Range {
            min: 0,
            max: n,
            step: 1,
        },
    }
}

// What is known of a value that is at least n: a Range's ends are raised to n.
fn at_least(value: GprValue, n: u32) -> GprValue
    ensures { result ≡ at_least_of value n }
{
    match value {
        GprValue::Range { min, max, step } => GprValue::Range {
            min: min.max(n),
            max: max.max(n),
            step,
        },
        _ => GprValue::Range {
            min: n,
            max: u32::MAX,
            step: 1,
        },
    }
}

fn both(v: GprValue) -> Split
    ensures { result ≡ both_of v }
{
    Split { fails: v, holds: v }
}

#[tactic(auto, using(crate::proofs::Bounds::lt_sides))]
fn lt(left: GprValue, right: GprValue) -> Split
    ensures { result ≡ lt_of left right }
{
    match right {
        GprValue::Constant(v) => Split {
            fails: at_least(left, v),
            holds: at_most(left, wrapping_sub(v, 1)),
        },
        _ => both(left),
    }
}

#[tactic(auto, using(crate::proofs::Bounds::gt_sides))]
fn gt(left: GprValue, right: GprValue) -> Split
    ensures { result ≡ gt_of left right }
{
    match right {
        GprValue::Constant(v) => Split {
            fails: at_most(left, v),
            holds: at_least(left, wrapping_add(v, 1)),
        },
        _ => both(left),
    }
}

fn eq(left: GprValue, right: GprValue) -> Split
    ensures { result ≡ eq_of left right }
{
    match (left, right) {
        (GprValue::Constant(u), GprValue::Constant(v)) if u == v => Split {
            fails: GprValue::Unknown,
            holds: right,
        },
        (_, GprValue::Constant(_)) => Split {
            fails: left,
            holds: right,
        },
        _ => both(left),
    }
}

// By the bit of the field: 0 lt, 1 gt, 2 eq, else so.
#[tactic(auto, unfolding(crate::specs::Splits::split_of))]
pub fn split_values_by_crb(crb: u32, cr: Cr) -> Split
    ensures { result ≡ split_of crb cr }
{
    let left = cr.left;
    let right = cr.right;
    match crb {
        0 => lt(left, right),
        1 => gt(left, right),
        2 => eq(left, right),
        _ => both(left),
    }
}
