// The words that end a straight run: where they go, and what the two sides of a branch know.
ghost use Rattle.std.specs.Prelude.{◌≡◌};
ghost use Rattle.lookups.specs.Relocations.{section_address_for};
ghost use Rattle.vm.specs.Rules.{reached_of};
ghost use Rattle.step.specs.Ways.{ctr_target, dest_target, conditional_of, branch_of, leave_of, branches_of, left_of};

use crate::{Branch, Leave, StepResult, Stepped, Way};
use image::Tables;
use places::{RelocationTarget, SectionAddress};
use vm::{BranchTarget, Cr, GprValue, VM, rule};
use words::field;

fn reached(known: Option<RelocationTarget>) -> BranchTarget
    ensures { result ≡ reached_of known }
{
    match known {
        Some(t) => BranchTarget::Address(t),
        None => BranchTarget::Unknown,
    }
}

// Where CTR leads; a linked branch is never taken for a jump table.
fn ctr_target(im: &Tables<'_>, at: SectionAddress, ctr: GprValue, lk: bool) -> BranchTarget
    ensures { result ≡ ctr_target (section_address_for im.now.words.now at) lk ctr }
{
    match ctr {
        GprValue::Constant(n) => reached(lookups::section_address_for(im, at, n)),
        GprValue::Address(t) => BranchTarget::Address(t),
        GprValue::LoadIndexed {
            address,
            max_offset,
        } if !lk => BranchTarget::JumpTable {
            address,
            size: rule::size(max_offset),
        },
        _ => BranchTarget::Unknown,
    }
}

// Where b and bc lead.
fn dest_target(im: &Tables<'_>, at: SectionAddress, w: u32) -> BranchTarget
    ensures { result ≡ dest_target im.now.words.now at w }
{
    let n = decoder::branch_dest(w, at.address);
    reached(lookups::section_address_for(im, at, n))
}

#[tactic(auto, unfolding(crate::specs::Ways::conditional_of))]
fn conditional(w: u32, target: BranchTarget, cr: Cr) -> Leave
    ensures { result ≡ conditional_of w target cr }
{
    let bi = field::bi(w);
    let s = vm::splits::split_values_by_crb(bi % 4, cr);
    let f = s.fails;
    let t = s.holds;
    let crf = (bi / 4) as u8;
    match field::bo(w) & 30 {
        // Branch if false
        4 => Leave::Fork {
            target,
            crf,
            stays: t,
            goes: f,
        },
        // Branch if true
        12 => Leave::Fork {
            target,
            crf,
            stays: f,
            goes: t,
        },
        _ => Leave::Both(target),
    }
}

fn branch(w: u32, always: bool, target: BranchTarget, cr: Cr) -> Leave
    ensures { result ≡ branch_of w always target cr }
{
    if field::lk(w) {
        return Leave::Call(target);
    }
    if always {
        return Leave::Jump(target);
    }
    conditional(w, target, cr)
}

// cr is the compare record of the field that BI names.
#[tactic(auto, unfolding(crate::specs::Ways::leave_of))]
pub fn leave(im: &Tables<'_>, at: SectionAddress, w: u32, way: Way, ctr: GprValue, cr: Cr) -> Leave
    ensures { result ≡ leave_of way im.now.words.now at w ctr cr }
{
    let always = field::bo(w) & 20 == 20;
    match way {
        Way::Illegal => Leave::Illegal,
        // HACK for `bla 0x60` in __OSDBJump
        Way::B if field::lk(w) && field::aa(w) => Leave::Jump(BranchTarget::Unknown),
        Way::B => branch(w, true, dest_target(im, at, w), cr),
        Way::Bc => branch(w, always, dest_target(im, at, w), cr),
        Way::Bcctr => branch(w, always, ctr_target(im, at, ctr, field::lk(w)), cr),
        Way::Bclr => branch(w, always, BranchTarget::Return, cr),
        Way::Rfi => Leave::Jump(BranchTarget::Unknown),
    }
}

// Both ways of a branch: the next word, never linked, and the target.
fn branches(at: SectionAddress, target: BranchTarget, link: bool) -> StepResult
    ensures { result ≡ branches_of at target link }
{
    let next = RelocationTarget::Address(places::offset(at, 4));
    StepResult::Branch {
        first: Branch {
            target: BranchTarget::Address(next),
            link: false,
        },
        second: Branch { target, link },
    }
}

// The result of leaving, with both states.
#[tactic(auto, unfolding(crate::specs::Ways::left_of))]
pub fn left(l: Leave, at: SectionAddress, s: VM) -> Stepped
    ensures { result ≡ left_of l at s }
{
    match l {
        Leave::Ended | Leave::Illegal => Stepped {
            result: StepResult::Illegal,
            vm: s,
            other: s,
        },
        Leave::Jump(target) => Stepped {
            result: StepResult::Jump(target),
            vm: s,
            other: s,
        },
        Leave::Call(target) => Stepped {
            result: branches(at, target, true),
            vm: vm::state::clone_for_return(s),
            other: vm::state::clone_for_link(s),
        },
        Leave::Fork {
            target,
            crf,
            stays,
            goes,
        } => Stepped {
            result: branches(at, target, false),
            vm: vm::state::set_comparison_result(s, stays, crf),
            other: vm::state::set_comparison_result(s, goes, crf),
        },
        Leave::Both(target) => Stepped {
            result: branches(at, target, false),
            vm: s,
            other: s,
        },
    }
}
