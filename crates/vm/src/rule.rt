// What each instruction makes of its operands' values.
// One function a rule; specs/Rules.antt has each as a definition beside its assembly form. Those on two
// constants stay a match each: one function of them all would take a closure with its contract, which is longer.
ghost use Rattle.std.specs.Prelude.{◌≡◌, ◌<◌};
ghost use Rattle.vm.specs.Rules.{offset_of, add_of, addis_of, addi_of, subf_of, subfic_of, ori_of, or_of, rotate_of, rlwnm_of, non_zero, max_offset_of, lwzx_of, size_of, base_of};

use crate::register::{set_direct, set_lo};
use crate::{Gpr, GprValue};
use places::{RelocationTarget, SectionAddress};
use words::mask::rotate_left;
use words::sum::{subtract_from, wrapping_add};

// A target n bytes on; External has no address to add to.
pub fn offset(target: RelocationTarget, n: u32) -> GprValue
    ensures { result ≡ offset_of target n }
{
    match target {
        RelocationTarget::Address(p) => {
            GprValue::Address(RelocationTarget::Address(places::offset(p, n)))
        }
        RelocationTarget::External => GprValue::Unknown,
    }
}

pub fn add(left: GprValue, right: GprValue) -> GprValue
    ensures { result ≡ add_of left right }
{
    match (left, right) {
        (GprValue::Constant(a), GprValue::Constant(b)) => GprValue::Constant(wrapping_add(a, b)),
        (GprValue::Constant(n), GprValue::Address(t))
        | (GprValue::Address(t), GprValue::Constant(n)) => offset(t, n),
        _ => GprValue::Unknown,
    }
}

pub fn addis(left: GprValue, simm: u32) -> GprValue
    ensures { result ≡ addis_of left simm }
{
    match left {
        GprValue::Constant(a) => GprValue::Constant(wrapping_add(a, simm << 16)),
        _ => GprValue::Unknown,
    }
}

pub fn addi(left: GprValue, simm: u32) -> GprValue
    ensures { result ≡ addi_of left simm }
{
    add(left, GprValue::Constant(simm))
}

pub fn subf(left: GprValue, right: GprValue) -> GprValue
    ensures { result ≡ subf_of left right }
{
    match (left, right) {
        (GprValue::Constant(a), GprValue::Constant(b)) => GprValue::Constant(subtract_from(a, b)),
        _ => GprValue::Unknown,
    }
}

pub fn subfic(left: GprValue, simm: u32) -> GprValue
    ensures { result ≡ subfic_of left simm }
{
    subf(left, GprValue::Constant(simm))
}

pub fn ori(left: GprValue, uimm: u32) -> GprValue
    ensures { result ≡ ori_of left uimm }
{
    or(left, GprValue::Constant(uimm))
}

pub fn or(left: GprValue, right: GprValue) -> GprValue
    ensures { result ≡ or_of left right }
{
    match (left, right) {
        (GprValue::Constant(a), GprValue::Constant(b)) => GprValue::Constant(a | b),
        _ => GprValue::Unknown,
    }
}

// The rotate rule, by an amount that is taken modulo 32.
#[tactic(auto, using(crate::proofs::Values::neither), unfolding(crate::specs::Rules::rotate_of))]
pub fn rotate(value: GprValue, shift: u32, mask: u32) -> GprValue
    ensures { result ≡ rotate_of value shift mask }
{
    match value {
        GprValue::Constant(a) => GprValue::Constant(rotate_left(a, shift) & mask),
        GprValue::Range { min, max, step } => {
            GprValue::Range {
                min: rotate_left(min, shift) & mask,
                max: rotate_left(max, shift) & mask,
                step: rotate_left(step, shift),
            }
        }
        _ => GprValue::Range {
            min: 0,
            max: mask,
            step: rotate_left(1, shift),
        },
    }
}

// By the number in rB, where it is known.
pub fn rlwnm(value: GprValue, amount: GprValue, mask: u32) -> GprValue
    ensures { result ≡ rlwnm_of value amount mask }
{
    match amount {
        GprValue::Constant(shift) => rotate(value, shift, mask),
        _ => GprValue::Unknown,
    }
}

// NonZeroU32::new
pub fn non_zero(n: u32) -> Option<u32>
    ensures { result ≡ non_zero n }
{
    if n == 0 { None } else { Some(n) }
}

// What an index tells of the largest offset: a Range's max, if it is a multiple of 4 and 4 more still counts.
pub fn max_offset(index: GprValue) -> Option<u32>
    ensures { result ≡ max_offset_of index }
{
    match index {
        GprValue::Range { max, .. } if max < 4_294_967_291 && max % 4 == 0 => non_zero(max),
        _ => None,
    }
}

pub fn lwzx(table: Option<RelocationTarget>, index: GprValue) -> GprValue
    ensures { result ≡ lwzx_of table index }
{
    match table {
        Some(t) => {
            GprValue::LoadIndexed {
                address: t,
                max_offset: max_offset(index),
            }
        }
        None => GprValue::Unknown,
    }
}

// checked_add(4): the last entry's own bytes.
pub fn size(max_offset: Option<u32>) -> Option<u32>
    ensures { result ≡ size_of max_offset }
{
    match max_offset {
        Some(n) => match n.checked_add(4) {
            Some(m) => Some(m),
            None => None,
        },
        None => None,
    }
}

// The base register after a displacement load or store that reached `seen`. A Constant base in no section stays.
pub fn base(g: Gpr, update: bool, seen: Option<RelocationTarget>, addr: SectionAddress) -> Gpr
    ensures { result ≡ base_of g update seen addr }
{
    if !update {
        return g;
    }
    match seen {
        Some(t) => set_lo(GprValue::Address(t), addr, g),
        None => match g.value {
            GprValue::Constant(_) => g,
            _ => set_direct(GprValue::Unknown),
        },
    }
}
