// The arms of vm.rs: from a word and the records of its operands to what it does.
ghost use Rattle.std.specs.Prelude.{◌≡◌};
ghost use Rattle.step.specs.Arms.{effect_of};

use crate::{Effect, Way, records};
use decoder::{Decoded, Op};
use image::Tables;
use places::SectionAddress;
use vm::register::set_direct;
use vm::{Gpr, GprValue, rule};
use words::{field, mask};

// gs, ga and gb are the records of rS (the bits of rD), rA and rB.
#[tactic(auto, using(crate::proofs::Masks::masked), unfolding(crate::specs::Arms::effect_by))]
pub fn effect(
    im: &Tables<'_>,
    at: SectionAddress,
    w: u32,
    dec: Decoded,
    gs: Gpr,
    ga: Gpr,
    gb: Gpr,
) -> Effect
    ensures { result ≡ effect_of dec im.now.words.now at w gs ga gb }
{
    let op = dec.op;
    let writes = dec.writes;
    let s = gs.value;
    let a = ga.value;
    let b = gb.value;
    match op {
        Op::Illegal => Effect::Leaves(Way::Illegal),
        // add rD, rA, rB
        Op::Add => Effect::SetD(set_direct(rule::add(a, b))),
        // addis rD, rA, SIMM
        Op::Addis => Effect::SetD(records::addis(lookups::target_at(im, at), at, w, a)),
        // addi rD, rA, SIMM
        Op::Addi => {
            let zero = field::ra(w) == 0;
            Effect::SetD(records::addi(lookups::target_at(im, at), zero, at, w, ga))
        }
        // addic rD, rA, SIMM
        Op::Addic => Effect::SetD(records::addi(lookups::target_at(im, at), false, at, w, ga)),
        // addic. rD, rA, SIMM
        Op::AddicDot => Effect::SetD(records::addi(lookups::target_at(im, at), false, at, w, ga)),
        // subf rD, rA, rB
        Op::Subf => Effect::SetD(set_direct(rule::subf(a, b))),
        // subfc rD, rA, rB
        Op::Subfc => Effect::SetD(set_direct(rule::subf(a, b))),
        // subfic rD, rA, SIMM
        Op::Subfic => Effect::SetD(set_direct(rule::subfic(a, field::simm(w)))),
        // ori rA, rS, UIMM
        Op::Ori => Effect::SetA(records::ori(lookups::target_at(im, at), at, w, gs)),
        // or rA, rS, rB
        Op::Or => Effect::SetA(records::or(w, gs, gb)),
        // cmp [crfD], [L], rA, rB
        Op::Cmp => records::compare(w, ga, b, true),
        // cmpi [crfD], [L], rA, SIMM
        Op::Cmpi => records::compare(w, ga, GprValue::Constant(field::simm(w)), true),
        // cmpl [crfD], [L], rA, rB
        Op::Cmpl => records::compare(w, ga, b, false),
        // cmpli [crfD], [L], rA, UIMM
        Op::Cmpli => records::compare(w, ga, GprValue::Constant(field::uimm(w)), false),
        // rlwinm rA, rS, SH, MB, ME
        Op::Rlwinm => {
            let m = mask::mask_value(field::mb(w), field::me(w));
            Effect::SetA(set_direct(rule::rotate(s, field::sh(w), m)))
        }
        // rlwnm rA, rS, rB, MB, ME
        Op::Rlwnm => {
            let m = mask::mask_value(field::mb(w), field::me(w));
            Effect::SetA(set_direct(rule::rlwnm(s, b, m)))
        }
        Op::B => Effect::Leaves(Way::B),
        Op::Bc => Effect::Leaves(Way::Bc),
        Op::Bcctr => Effect::Leaves(Way::Bcctr),
        Op::Bclr => Effect::Leaves(Way::Bclr),
        // lwzx rD, rA, rB
        Op::Lwzx => Effect::SetD(set_direct(rule::lwzx(records::address(im, at, a), b))),
        Op::Mtspr => records::mtspr(w, s),
        Op::Mfspr => records::mfspr(w),
        Op::Rfi => Effect::Leaves(Way::Rfi),
        Op::Other => Effect::Clear(writes),
        // every displacement load and store
        _ => records::access(im, at, w, op, ga),
    }
}
