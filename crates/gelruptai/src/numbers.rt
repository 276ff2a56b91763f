// Answers as numbers: document 01's, and for broken rules and what is wrong with a file those of include/gelruptai.h.
// Functions, no From: the header's numbers are this crate's, and the types are others'.
ghost use Rattle.std.specs.Prelude.{◌≡◌};
ghost use Rattle.turns.specs.Walks.{answer_of};
ghost use Rattle.report.specs.Answers.{write_number, read_number};
ghost use Rattle.gelruptai.specs.Handed.{table_counts};
ghost use Rattle.gelruptai.specs.Numbers.{rule_number, table_number, wrong_number};

use faults::Rule;
use image_file::Wrong;
use jump_tables::{Table, TableError};
use report::{ReadError, WriteError};
use turns::WalkError;

pub(crate) fn walk_number(a: Result<(), WalkError>) -> u32
    ensures { result ≡ answer_of a }
{
    match a {
        Ok(_) => 0,
        Err(e) => u32::from(e),
    }
}

pub(crate) fn table_number(t: Result<Table, TableError>) -> u32
    ensures { result ≡ table_number t }
{
    match t {
        Ok(_) => 0,
        Err(e) => u32::from(e),
    }
}

pub(crate) fn table_counts(t: Result<Table, TableError>) -> [u64; 2]
    ensures { result ≡ table_counts t }
{
    match t {
        Ok(t) => [t.count as u64, t.size as u64],
        Err(_) => [0, 0],
    }
}

pub(crate) fn write_number(w: Result<usize, WriteError>) -> u32
    ensures { result ≡ write_number w }
{
    match w {
        Ok(_) => 0,
        Err(e) => u32::from(e),
    }
}

pub(crate) fn read_number(r: Result<(), ReadError>) -> u32
    ensures { result ≡ read_number r }
{
    match r {
        Ok(_) => 0,
        Err(e) => u32::from(e),
    }
}

pub(crate) fn rule_number(u: Option<Rule>) -> u32
    ensures { result ≡ rule_number u }
{
    match u {
        None => 0,
        Some(Rule::Words) => 1,
        Some(Rule::Counts) => 2,
        Some(Rule::Kind) => 3,
        Some(Rule::Sections) => 4,
        Some(Rule::ElfNumbers) => 5,
        Some(Rule::Overlaps) => 6,
        Some(Rule::CodeWords) => 7,
        Some(Rule::Bounds) => 8,
        Some(Rule::BoundOrder) => 9,
        Some(Rule::Unbounds) => 10,
        Some(Rule::Symbols) => 11,
        Some(Rule::SymbolOrder) => 12,
        Some(Rule::Data) => 13,
    }
}

pub(crate) fn wrong_number(w: Wrong) -> u32
    ensures { result ≡ wrong_number w }
{
    match w {
        Wrong::Short => 1,
        Wrong::Magic => 2,
        Wrong::Version => 3,
        Wrong::Flag => 4,
        Wrong::Unused => 5,
        Wrong::Truncated => 6,
        Wrong::Trailing => 7,
        Wrong::WordsRoom => 8,
        Wrong::StartsRoom => 9,
    }
}
