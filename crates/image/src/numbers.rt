// The numbers of document 01 and of the image's words, each named once.
// Assumes nothing; specs/Numbers.antt has the same, and the proofs hold the two together.

// Limits: sections, entries in each further table, Code words in all.
pub const MAX_SECTIONS: u32 = 64;

pub const MAX_ENTRIES: u32 = 4096;

pub const MAX_CODE_WORDS: usize = 262144;

// Image kinds: this, and 1 for Relocatable.
pub const EXECUTABLE: u32 = 0;

// Section kinds.
pub const CODE: u32 = 0;

pub const DATA: u32 = 1;

pub const READ_ONLY: u32 = 2;

pub const BSS: u32 = 3;

// Relocation kinds: this, and 1 for any other.
pub const ABSOLUTE: u32 = 0;

// The section of a symbol without one.
pub const NO_SECTION: u32 = 0xffff_ffff;
