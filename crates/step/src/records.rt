// The record that each arm of vm.rs gives its register, where it takes more than a rule on values.
ghost use Rattle.std.specs.Prelude.{◌≡◌};
ghost use Rattle.vm.specs.Rules.{address_of, seen_of};
ghost use Rattle.lookups.specs.Relocations.{section_address_for, target_at};
ghost use Rattle.step.specs.Arms.{addis_gpr, addi_gpr, ori_gpr, or_gpr, compare_of, to_spr, from_spr, access_of};

use crate::Effect;
use decoder::Op;
use image::Tables;
use places::{RelocationTarget, SectionAddress};
use vm::register::{set_direct, set_hi, set_lo, with_value};
use vm::{Cr, Gpr, GprValue, rule};
use words::field;

// addis rD, rA, SIMM
#[tactic(auto, unfolding(crate::specs::Arms::addis_gpr))]
pub fn addis(known: Option<RelocationTarget>, at: SectionAddress, w: u32, left: GprValue) -> Gpr
    ensures { result ≡ addis_gpr known at w left }
{
    match known {
        Some(t) => set_hi(GprValue::Address(t), at),
        None => {
            let simm = field::simm(w);
            if field::ra(w) == 0 {
                // lis rD, SIMM
                set_hi(rule::addis(GprValue::Constant(0), simm), at)
            } else {
                set_direct(rule::addis(left, simm))
            }
        }
    }
}

// addi rD, rA, SIMM, and addic and addic., of which rA 0 is register 0
#[tactic(auto, unfolding(crate::specs::Arms::addi_gpr))]
pub fn addi(
    known: Option<RelocationTarget>,
    load_zero: bool,
    at: SectionAddress,
    w: u32,
    ga: Gpr,
) -> Gpr
    ensures { result ≡ addi_gpr known load_zero at w ga }
{
    match known {
        Some(t) => set_lo(GprValue::Address(t), at, ga),
        None => {
            let simm = field::simm(w);
            if load_zero {
                // li rD, SIMM
                set_direct(rule::addi(GprValue::Constant(0), simm))
            } else {
                set_lo(rule::addi(ga.value, simm), at, ga)
            }
        }
    }
}

// ori rA, rS, UIMM
#[tactic(auto, unfolding(crate::specs::Arms::ori_gpr))]
pub fn ori(known: Option<RelocationTarget>, at: SectionAddress, w: u32, gs: Gpr) -> Gpr
    ensures { result ≡ ori_gpr known at w gs }
{
    match known {
        Some(t) => set_lo(GprValue::Address(t), at, gs),
        None => set_lo(rule::ori(gs.value, field::uimm(w)), at, gs),
    }
}

// or rA, rS, rB
#[tactic(auto, unfolding(crate::specs::Arms::or_gpr))]
pub fn or(w: u32, gs: Gpr, gb: Gpr) -> Gpr
    ensures { result ≡ or_gpr w gs gb }
{
    if field::rs(w) == field::rb(w) {
        // Register copy
        gs
    } else {
        set_direct(rule::or(gs.value, gb.value))
    }
}

// cmp, cmpi, cmpl, cmpli: with L set, nothing
#[tactic(auto, unfolding(crate::specs::Arms::compare_of))]
pub fn compare(w: u32, ga: Gpr, right: GprValue, signed: bool) -> Effect
    ensures { result ≡ compare_of w ga right signed }
{
    if field::l(w) {
        Effect::Nothing
    } else {
        let c = Cr {
            left: ga.value,
            right,
            signed,
        };
        let g = with_value(ga, GprValue::ComparisonResult(field::crfd(w)));
        Effect::Compare(c, g)
    }
}

// mtspr SPR, rS
#[tactic(auto, unfolding(crate::specs::Arms::to_spr))]
pub fn mtspr(w: u32, value: GprValue) -> Effect
    ensures { result ≡ to_spr w value }
{
    match field::spr(w) {
        8 => Effect::ToLr(value),
        9 => Effect::ToCtr(value),
        _ => Effect::Nothing,
    }
}

// mfspr rD, SPR
#[tactic(auto, unfolding(crate::specs::Arms::from_spr))]
pub fn mfspr(w: u32) -> Effect
    ensures { result ≡ from_spr w }
{
    match field::spr(w) {
        8 => Effect::FromLr,
        9 => Effect::FromCtr,
        _ => Effect::SetD(set_direct(GprValue::Unknown)),
    }
}

// Gpr::address
pub fn address(im: &Tables<'_>, at: SectionAddress, value: GprValue) -> Option<RelocationTarget>
    ensures { result ≡ address_of (section_address_for im.now.words.now at) value }
{
    match value {
        GprValue::Constant(n) => lookups::section_address_for(im, at, n),
        GprValue::Address(t) => Some(t),
        _ => None,
    }
}

// What a displacement load or store reaches: an Address base does not get the displacement.
fn reach(im: &Tables<'_>, at: SectionAddress, base: GprValue, simm: u32) -> Option<RelocationTarget>
    ensures { result ≡ seen_of (section_address_for im.now.words.now at) base simm }
{
    match base {
        GprValue::Constant(n) => {
            lookups::section_address_for(im, at, words::sum::wrapping_add(n, simm))
        }
        GprValue::Address(t) => Some(t),
        _ => None,
    }
}

// The displacement loads and stores
#[tactic(auto, unfolding(crate::specs::Arms::access_of))]
pub fn access(im: &Tables<'_>, at: SectionAddress, w: u32, op: Op, ga: Gpr) -> Effect
    ensures { result ≡ access_of op im.now.words.now at w ga }
{
    let seen = reach(im, at, ga.value, field::simm(w));
    let base = rule::base(ga, decoder::class::is_update_op(op), seen, at);
    if decoder::class::is_load_op(op) {
        Effect::Load { base, seen }
    } else {
        Effect::Store { base, seen }
    }
}
