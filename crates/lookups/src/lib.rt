// Every lookup in an image, by the names of the Rust where it has them.
// Each takes tables that break no rule, or the whole image where it reads data; our own crates alone call these.
#![tactic(auto, using(image::proofs::SoundTables::laid, image::proofs::SoundTables::sound_tables, search::proofs::FirstMatch::first_below))]

use places::RelocationTarget;

pub mod bytes;
pub mod code;
pub mod relocations;
pub mod sections;
pub mod sorted;

pub use bytes::{data_from, read_u32};
pub use code::{code_place, code_word, is_in_code, word_number};
pub use relocations::{relocation_target_for, section_address_for, target_at, unbound_index};
pub use sections::at_address;
pub use sorted::{bound_index, known_size, symbol_index};

// The relocation kind that is asked for, or any.
#[derive(Clone, Copy)]
pub enum Wanted {
    Any,
    Absolute,
    Other,
}

// What a relocation lookup answers: a target, or None where the tables have no entry.
pub type Relocation = Result<Option<RelocationTarget>, RelocationError>;

// An entry that names no place, or of another kind than was asked for.
#[derive(Clone, Copy, Debug, PartialEq, Eq)]
pub struct RelocationError;

// Why a place is no code word: document 01's 2 and 3.
#[derive(Clone, Copy, Debug, PartialEq, Eq)]
pub enum PlaceError {
    NotCode,
    Misaligned,
}

// The number of a Code word, counted in section order: its bit in a visited map. Never an address.
#[derive(Clone, Copy)]
pub struct WordNumber(pub u32);
