// An image file (docs/FORMATS.md, "The image file"): its head judged, its counts, and its words and starts in lent buffers.
// The entry points are `read_file`, `whole_length` and `data_of`; they take any bytes and any buffers.
#![tactic(auto)]

ghost use Rattle.std.specs.Prelude.{◌≡◌, length, drop};
ghost use Rattle.image_file.specs.Reading.{whole_length, data_from, answered, image_left, starts_left};

use places::SectionAddress;

pub mod checks;
pub mod copies;
pub mod fields;

// What is wrong with a file.
#[derive(Clone, Copy, PartialEq, Eq, Debug)]
pub enum Wrong {
    // It ends inside the head.
    Short,
    // It does not begin with the four letters.
    Magic,
    // It is of a version that is not read here.
    Version,
    // A flag is neither 0 nor 1.
    Flag,
    // A number that is not given is not 0.
    Unused,
    // It ends before its counts say.
    Truncated,
    // It goes on after its counts say.
    Trailing,
    // It has more image words than there is room for.
    WordsRoom,
    // It has more starts than there is room for.
    StartsRoom,
}

// What is wrong, and the byte at which that shows.
#[derive(Clone, Copy, PartialEq, Eq, Debug)]
pub struct Fault {
    pub wrong: Wrong,
    pub at: usize,
}

// What the head says: how many image words, starts and data bytes there are, and what the walk is given besides.
#[derive(Clone, Copy)]
pub struct Head {
    pub words: u32,
    pub starts: u32,
    pub bytes: u32,
    pub two: Option<u32>,
    pub thirteen: Option<u32>,
    pub from: SectionAddress,
    pub upto: Option<SectionAddress>,
}

// The file's head, its image words at the start of `im` and its starts, as keys, at the start of `starts`. Where the bytes are
// no image file, or there is too little room, the fault says what is wrong and at which byte, and both stay as they were.
pub fn read_file(file: &[u8], im: &mut [u32], starts: &mut [u64]) -> Result<Head, Fault>
    ensures { (result ≡ answered file.now (length im.old) (length starts.old)) × (im.new ≡ image_left file.now im.old (length starts.old)) × (starts.new ≡ starts_left file.now (length im.old) starts.old) }
{
    checks::judge(file, im.len(), starts.len())?;
    let h = fields::head_of(file);
    let m = h.words as usize;
    copies::copy_words(file, m, im);
    copies::copy_starts(file, 56 + m * 4, h.starts as usize, starts);
    Ok(h)
}

// How many bytes the counts of a file ask for.
pub fn whole_length(file: &[u8]) -> usize
    ensures { result ≡ whole_length file.now }
{
    fields::data_from(file) + fields::word(file, 4) as usize
}

// The caller's own bytes from where the data begins; none where the file ends before that.
pub fn data_of(file: &[u8]) -> &[u8]
    ensures { result.now ≡ drop (data_from file.now) file.now }
{
    let at = fields::data_from(file);
    if at <= file.len() {
        &file[at..]
    } else {
        &file[0..0]
    }
}
