// Values as a tag and three numbers, and back.
// Nothing is assumed of the numbers that are read; a tag that no value has reads as Unknown.
ghost use Rattle.std.specs.Prelude.{◌≡◌, ◌<◌, ◌≤◌};
ghost use Rattle.slot.specs.Values.{target_numbers, numbers_of, value_of, address_numbers, maybe_of, bit_of};
ghost use Rattle.slot.specs.Fits.{Numbered};

use crate::{AddressNumbers, Numbers};
use places::{RelocationTarget, SectionAddress};
use vm::GprValue;

fn target_numbers(t: RelocationTarget, tag: u32, n: u32) -> Numbers
    requires { tag < 15 }
    ensures { (result ≡ target_numbers t tag n) × (result.tag < 16) }
{
    match t {
        RelocationTarget::External => Numbers {
            tag,
            a: 0,
            b: 0,
            c: n,
        },
        RelocationTarget::Address(p) => Numbers {
            tag: tag + 1,
            a: p.section,
            b: p.address,
            c: n,
        },
    }
}

// The tag and the numbers of a value.
pub fn numbers_of(v: GprValue) -> Numbers
    ensures { Numbered v result }
{
    match v {
        GprValue::Unknown => Numbers {
            tag: 0,
            a: 0,
            b: 0,
            c: 0,
        },
        GprValue::Constant(n) => Numbers {
            tag: 1,
            a: n,
            b: 0,
            c: 0,
        },
        GprValue::Address(t) => target_numbers(t, 2, 0),
        GprValue::ComparisonResult(k) => Numbers {
            tag: 4,
            a: u32::from(k),
            b: 0,
            c: 0,
        },
        GprValue::Range { min, max, step } => Numbers {
            tag: 5,
            a: min,
            b: max,
            c: step,
        },
        GprValue::LoadIndexed {
            address,
            max_offset,
        } => match max_offset {
            None => target_numbers(address, 6, 0),
            Some(n) => target_numbers(address, 8, n),
        },
    }
}

// The value of a tag and numbers.
#[tactic(auto, unfolding(crate::specs::Values::value_of))]
pub fn value_of(tag: u32, a: u32, b: u32, c: u32) -> GprValue
    ensures { result ≡ value_of tag a b c }
{
    let p = SectionAddress {
        section: a,
        address: b,
    };
    match tag {
        1 => GprValue::Constant(a),
        2 => GprValue::Address(RelocationTarget::External),
        3 => GprValue::Address(RelocationTarget::Address(p)),
        4 => GprValue::ComparisonResult((a % 256) as u8),
        5 => GprValue::Range {
            min: a,
            max: b,
            step: c,
        },
        6 => GprValue::LoadIndexed {
            address: RelocationTarget::External,
            max_offset: None,
        },
        7 => GprValue::LoadIndexed {
            address: RelocationTarget::Address(p),
            max_offset: None,
        },
        8 => GprValue::LoadIndexed {
            address: RelocationTarget::External,
            max_offset: Some(c),
        },
        9 => GprValue::LoadIndexed {
            address: RelocationTarget::Address(p),
            max_offset: Some(c),
        },
        _ => GprValue::Unknown,
    }
}

// The flag and the numbers of a place that may be missing.
pub fn address_numbers(m: Option<SectionAddress>) -> AddressNumbers
    ensures { (result ≡ address_numbers m) × (result.known ≤ 1) }
{
    match m {
        None => AddressNumbers {
            known: 0,
            section: 0,
            address: 0,
        },
        Some(p) => AddressNumbers {
            known: 1,
            section: p.section,
            address: p.address,
        },
    }
}

// The place of a flag and numbers.
pub fn maybe_of(known: u32, section: u32, address: u32) -> Option<SectionAddress>
    ensures { result ≡ maybe_of known section address }
{
    if known == 1 {
        Some(SectionAddress { section, address })
    } else {
        None
    }
}

// 1 for true.
pub fn bit_of(b: bool) -> u32
    ensures { (result ≡ bit_of b) × (result ≤ 1) }
{
    u32::from(b)
}
