// The report of visited words, version 1: written from a map, and read into one, over an image (docs/FORMATS.md).
// The two entry points take any words and bytes.
#![tactic(auto)]

ghost use Rattle.std.specs.Prelude.{◌≡◌, length};
ghost use Rattle.report.specs.declared.WriteError.TheVariants as write_why;
ghost use Rattle.report.specs.declared.ReadError.TheVariants as read_why;
ghost use Rattle.report.specs.Answers.{write_answer, write_leaves, write_error, read_answer, read_leaves, read_error};

use image::BrokenImage;

pub mod read;
pub mod write;

// Where the next bytes go, and the words passed since the last run: not visited ones, then visited ones.
#[derive(Clone, Copy)]
pub struct Scan {
    pub at: usize,
    pub gap: u32,
    pub len: u32,
}

// A run that was read: the words before it that were not visited, its length, and the place after its bytes.
#[derive(Clone, Copy)]
pub struct Found {
    pub gap: u32,
    pub len: u32,
    pub end: usize,
}

// Why no report was written: document 01's 1, 4 and 10.
#[derive(Clone, Copy, PartialEq, Eq, Debug)]
pub enum WriteError {
    BrokenImage,
    SmallMap,
    NoRoom,
}

// Why no report was read: document 01's 1, 4 and 13.
#[derive(Clone, Copy, PartialEq, Eq, Debug)]
pub enum ReadError {
    BrokenImage,
    SmallMap,
    NoReport,
}

impl From<WriteError> for u32 {
    ghost from_gives = { λ e n. n ≡ write_error e };

    fn from(e: WriteError) -> u32 {
        match e {
            WriteError::BrokenImage => 1,
            WriteError::SmallMap => 4,
            WriteError::NoRoom => 10,
        }
    }
}

impl From<ReadError> for u32 {
    ghost from_gives = { λ e n. n ≡ read_error e };

    fn from(e: ReadError) -> u32 {
        match e {
            ReadError::BrokenImage => 1,
            ReadError::SmallMap => 4,
            ReadError::NoReport => 13,
        }
    }
}

impl From<BrokenImage> for WriteError {
    ghost from_gives = { λ _ e. e ≡ write_why.BrokenImage };

    fn from(_e: BrokenImage) -> WriteError {
        WriteError::BrokenImage
    }
}

impl From<BrokenImage> for ReadError {
    ghost from_gives = { λ _ e. e ≡ read_why.BrokenImage };

    fn from(_e: BrokenImage) -> ReadError {
        ReadError::BrokenImage
    }
}

// The report of an image's visited words, written at the start of `out`: how many bytes it has. The bytes past it are as they
// were. BrokenImage (1) and SmallMap (4: the map has fewer than W bits) leave `out` as it was; NoRoom (10: the report has
// more bytes than `out`) leaves it all zeros.
pub fn write_report(
    im: &[u32],
    data: &[u8],
    map: &[u32],
    out: &mut [u8],
) -> Result<usize, WriteError>
    ensures { (result ≡ write_answer im.now (length «data».now) map.now (length out.old)) × (out.new ≡ write_leaves im.now (length «data».now) map.now out.old) }
{
    image::check_image(im, data)?;
    if !visited::has_room(map, image::code::code_words(im)) {
        return Err(WriteError::SmallMap);
    }
    let k = write::write_whole(out, im, map);
    if out.len() < k {
        write::clear_bytes(out);
        return Err(WriteError::NoRoom);
    }
    Ok(k)
}

// A report read into a map, whose W bits are set from it, and those from W up are as they were. BrokenImage (1), SmallMap
// (4: the map has fewer than W bits) and NoReport (13: the bytes are no report of this image) leave the map as it was.
pub fn read_report(im: &[u32], data: &[u8], bytes: &[u8], map: &mut [u32]) -> Result<(), ReadError>
    ensures { (result ≡ read_answer im.now (length «data».now) bytes.now map.old) × (map.new ≡ read_leaves im.now (length «data».now) bytes.now map.old) }
{
    image::check_image(im, data)?;
    let w = image::code::code_words(im);
    if !visited::has_room(map, w) {
        return Err(ReadError::SmallMap);
    }
    if read::read_whole(im, bytes, &mut [0u32; 1]).is_none() {
        return Err(ReadError::NoReport);
    }
    visited::clear(map, w);
    read::read_whole(im, bytes, map);
    Ok(())
}
