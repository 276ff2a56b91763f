// One step of the abstract machine, and a straight run of steps in place: vm.rs, arm by arm.
// A word is turned into an Effect by its operands' records; `step` and the run carry the effect out.
#![tactic(auto)]

ghost use Rattle.std.specs.Prelude.{◌≡◌, length};
ghost use Rattle.step.specs.Step.{stepped_of, refused_of};

pub mod arms;
pub mod done;
pub mod records;
pub mod ways;

use decoder::Writes;
use image::Image;
use lookups::PlaceError;
use places::{RelocationTarget, SectionAddress};
use vm::{BranchTarget, Cr, Gpr, GprValue, VM};

// Why `step` refuses: document 01's 1, 2 and 3.
#[derive(Clone, Copy)]
pub enum Refusal {
    BrokenImage,
    NotCode,
    Misaligned,
}

// A way out of a Branch.
#[derive(Clone, Copy)]
pub struct Branch {
    pub target: BranchTarget,
    pub link: bool,
}

// Refused is a variant and no Err: `state_after` of straight's theorem, demand 3, reads the state that a refusal hands back.
#[derive(Clone, Copy)]
pub enum StepResult {
    Continue,
    LoadStore {
        address: RelocationTarget,
        source: Gpr,
        source_reg: u8,
    },
    Illegal,
    Jump(BranchTarget),
    // Not taken, then taken.
    Branch {
        first: Branch,
        second: Branch,
    },
    Refused(Refusal),
}

// `vm` is the state after the word, of a Branch the first way's; `other` is the second way's, of any other result `vm` again.
#[derive(Clone, Copy)]
pub struct Stepped {
    pub result: StepResult,
    pub vm: VM,
    pub other: VM,
}

// The words that end a straight run.
#[derive(Clone, Copy)]
pub enum Way {
    Illegal,
    B,
    Bc,
    Bcctr,
    Bclr,
    Rfi,
}

// What a word does to the state, once the records of its operands are known.
#[derive(Clone, Copy)]
pub enum Effect {
    Nothing,
    SetD(Gpr),
    SetA(Gpr),
    // The record of the compare, and rA's own.
    Compare(Cr, Gpr),
    ToLr(GprValue),
    ToCtr(GprValue),
    FromLr,
    FromCtr,
    // rA's record after it, and what it reached; a Load also makes rD Unknown.
    Load {
        base: Gpr,
        seen: Option<RelocationTarget>,
    },
    Store {
        base: Gpr,
        seen: Option<RelocationTarget>,
    },
    Clear(Writes),
    Leaves(Way),
}

// How a straight run ends.
#[derive(Clone, Copy)]
pub enum Leave {
    // At the section's end.
    Ended,
    Illegal,
    Jump(BranchTarget),
    // A linked branch.
    Call(BranchTarget),
    // A conditional branch: both sides know what every register marked with the field holds.
    Fork {
        target: BranchTarget,
        crf: u8,
        stays: GprValue,
        goes: GprValue,
    },
    // A conditional branch that tells nothing.
    Both(BranchTarget),
}

// Where a run stopped, why, and the state before the word there.
#[derive(Clone, Copy)]
pub struct Stopped {
    pub leave: Leave,
    pub at: SectionAddress,
    pub vm: VM,
}

fn refused(why: Refusal, state: VM) -> Stepped
    ensures { result ≡ refused_of why state }
{
    Stepped {
        result: StepResult::Refused(why),
        vm: state,
        other: state,
    }
}

// The Rust's result for the word at a place. Refuses, in this order, and hands the state back: 1 for a broken image,
// 2 for a place in no Code section of its own index, 3 for an address that is no multiple of 4.
pub fn step(im: &[u32], data: &[u8], at: SectionAddress, word: u32, state: VM) -> Stepped
    ensures { result ≡ stepped_of im.now (length «data».now) at word state }
{
    match Image::new(im, data) {
        Err(_) => refused(Refusal::BrokenImage, state),
        Ok(im) => match lookups::code_place(&im.tables, at) {
            Err(PlaceError::NotCode) => refused(Refusal::NotCode, state),
            Err(PlaceError::Misaligned) => refused(Refusal::Misaligned, state),
            Ok(()) => done::step_word(&im.tables, at, word, state),
        },
    }
}
