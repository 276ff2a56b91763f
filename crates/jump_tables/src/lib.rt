// Jump tables: the entries of a table, sized or guessed, ascending and distinct in a lent buffer.
// An entry is one number, its section's index times 2^32 plus its address.
#![tactic(auto, using(image::proofs::SoundTables::laid, image::proofs::SoundTables::sound_tables, search::proofs::FirstMatch::first_below))]

ghost use Rattle.std.specs.Prelude.{◌≡◌};
ghost use Rattle.jump_tables.specs.Tables.{error_number, table_of};

use image::{BrokenImage, Image};
use places::SectionAddress;

pub mod keys;
pub mod readings;
pub mod tables;

pub use readings::{guessed_reading, sized_reading};
pub use tables::table_in;

// How a table is read: by its size, or guessed within a function's start and its end, which may be missing. No Option: each is a way to read.
#[derive(Clone, Copy)]
pub enum How {
    Sized,
    Guessed(SectionAddress, Option<SectionAddress>),
}

// What a word of a table means.
#[derive(Clone, Copy)]
pub enum Reading {
    // The guess ends before this word.
    Stopped,
    // A bare 0 in a sized table.
    Skipped,
    // A relocation error.
    Faulty,
    // External, or a nonzero word in no section.
    Nowhere,
    Entry(SectionAddress),
}

// Why a table is refused: document 01's 1, 7, 8, 9, 10.
#[derive(Clone, Copy, PartialEq, Eq)]
pub enum TableError {
    Broken,
    RelocationError,
    Ragged,
    PointsNowhere,
    Full,
}

impl From<TableError> for u32 {
    ghost from_gives = { λ e n. n ≡ error_number e };

    fn from(e: TableError) -> u32 {
        match e {
            TableError::Broken => 1,
            TableError::RelocationError => 7,
            TableError::Ragged => 8,
            TableError::PointsNowhere => 9,
            TableError::Full => 10,
        }
    }
}

impl From<BrokenImage> for TableError {
    ghost use Rattle.jump_tables.specs.declared.TableError.TheVariants as why;

    ghost from_gives = { λ _ e. e ≡ why.Broken };

    fn from(_: BrokenImage) -> TableError {
        TableError::Broken
    }
}

// How many entries a table has, and the bytes passed.
#[derive(Clone, Copy)]
pub struct Table {
    pub count: usize,
    pub size: u32,
}

// The entries of the table at a place, for any words and bytes: ascending and distinct at the start of the buffer, zeros
// after them, their count and the bytes passed. A size of 0 is none; the known size of an object symbol there beats it.
// Broken (1) leaves the buffer as it was. Then, with the buffer all zeros: Ragged (8) where the size, cut to the section,
// is no multiple of 4; at the first bad entry RelocationError (7) or PointsNowhere (9); Full (10) for more entries than room.
#[tactic(auto, unfolding(crate::specs::Tables::table_of))]
pub fn uniq_jump_table_entries(
    im: &[u32],
    bytes: &[u8],
    at: SectionAddress,
    size: u32,
    start: SectionAddress,
    end: Option<SectionAddress>,
    entries: &mut [u64],
) -> Result<Table, TableError>
    ensures value { result ≡ (table_of im.now bytes.now at size start end entries.old).table }
    ensures buffer { entries.new ≡ (table_of im.now bytes.now at size start end entries.old).keys }
{
    let im = Image::new(im, bytes)?;
    table_in(&im, at, size, start, end, entries)
}
