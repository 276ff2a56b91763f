// The abstract state: thirty-two register records, eight compare records, LR and CTR, and the rules on their values.
// Names and arms are those of vm.rs. A register's index is below 32 wherever it is asked for; nothing else is assumed.
#![tactic(auto)]

pub mod register;
pub mod rule;
pub mod splits;
pub mod state;

use places::{RelocationTarget, SectionAddress};

// What is known of a register's value.
#[derive(Clone, Copy)]
pub enum GprValue {
    Unknown,
    Constant(u32),
    // A relocated address.
    Address(RelocationTarget),
    // The left side of the compare that this field of CR records.
    ComparisonResult(u8),
    Range {
        min: u32,
        max: u32,
        step: u32,
    },
    // A word of the table at an address (a jump table).
    LoadIndexed {
        address: RelocationTarget,
        // The largest offset, where it is known.
        max_offset: Option<u32>,
    },
}

#[derive(Clone, Copy)]
pub struct Gpr {
    pub value: GprValue,
    // The words that load the high and the low part of the value.
    pub hi_addr: Option<SectionAddress>,
    pub lo_addr: Option<SectionAddress>,
}

// A compare: both sides, and whether it was signed.
#[derive(Clone, Copy)]
pub struct Cr {
    pub left: GprValue,
    pub right: GprValue,
    pub signed: bool,
}

// LR's and CTR's value: a struct, since a store to a field that is an enum is proved by hand.
#[derive(Clone, Copy)]
pub struct Held {
    pub value: GprValue,
}

#[derive(Clone, Copy)]
pub struct VM {
    pub gpr: [Gpr; 32],
    pub cr: [Cr; 8],
    pub lr: Held,
    pub ctr: Held,
}

#[derive(Clone, Copy)]
pub enum BranchTarget {
    // CTR without a known value.
    Unknown,
    // To LR.
    Return,
    Address(RelocationTarget),
    JumpTable {
        address: RelocationTarget,
        // In bytes, where it is known.
        size: Option<u32>,
    },
}

// What a conditional branch tells of the compared register: where its bit is false, and where it is true.
#[derive(Clone, Copy)]
pub struct Split {
    pub fails: GprValue,
    pub holds: GprValue,
}
