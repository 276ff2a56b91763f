// The image: tables of numbers in lent words, data in lent bytes (docs/FORMATS.md), and rule 1.
// A function that requires something of the image is called by our own crates alone, after `check_image`.
#![tactic(auto)]

pub mod code;
pub mod elf;
pub mod entries;
pub mod head;
pub mod judge;
pub mod numbers;
pub mod sections;
pub mod table;

ghost use Rattle.std.specs.Prelude.{◌≡◌, true, false, length, IfOk, OnErr};
ghost use Rattle.image.specs.Rules.{tables_sound, data_inside, sound, judged};

// One section: its address, size, kind and elf number, and the place and length of its data in the buffer. Its
// kind is a number, no enum, and so are those below: an image's words may hold any, and rule 1 judges them.
#[derive(Clone, Copy)]
pub struct Section {
    pub address: u32,
    pub size: u32,
    pub kind: u32,
    pub elf: u32,
    pub place: u32,
    pub length: u32,
}

// A bound relocation. The addend is signed, in two's complement.
#[derive(Clone, Copy)]
pub struct Bound {
    pub section: u32,
    pub address: u32,
    pub kind: u32,
    pub symbol_section: u32,
    pub symbol_address: u32,
    pub addend: u32,
}

// An unbound relocation: sections by elf number.
#[derive(Clone, Copy)]
pub struct Unbound {
    pub section: u32,
    pub address: u32,
    pub module: u32,
    pub kind: u32,
    pub target: u32,
    pub addend: u32,
}

// An object symbol.
#[derive(Clone, Copy)]
pub struct Symbol {
    pub section: u32,
    pub address: u32,
    pub size: u32,
    pub known: u32,
}

// A rule on images is broken: document 01's 1.
#[derive(Clone, Copy, Debug, PartialEq, Eq)]
pub struct BrokenImage;

// The judge of rule 1, for any words and bytes: BrokenImage, document 01's 1, exactly where a rule is broken. Nothing is touched.
pub fn check_image(im: &[u32], data: &[u8]) -> Result<(), BrokenImage>
    ensures { result ≡ judged im.now (length «data».now) }
{
    if judge::tables_sound(im) && sections::data_inside(im, data.len()) {
        Ok(())
    } else {
        Err(BrokenImage)
    }
}

// The words of an image whose tables break no rule.
#[derive(Clone, Copy)]
pub struct Tables<'a> {
    pub words: &'a [u32],
    pub ghost sound: { tables_sound words.now ≡ true },
}

// An image that breaks no rule: its tables, and its data.
#[derive(Clone, Copy)]
pub struct Image<'a> {
    pub tables: Tables<'a>,
    pub data: &'a [u8],
    pub ghost inside: { data_inside tables.words.now (length «data».now) ≡ true },
}

impl<'a> Image<'a> {
    // The image of the caller's own words and data, for any words and bytes: an error exactly where a rule is broken.
    pub fn new(words: &'a [u32], data: &'a [u8]) -> Result<Image<'a>, BrokenImage>
        ensures broken { OnErr result (sound words.now (length «data».now) ≡ false) }
        ensures whole { IfOk result (λ im. (sound words.now (length «data».now) ≡ true) × (im.tables.words ≡ words.entry) × (im.«data» ≡ «data».entry)) }
    {
        check_image(words, data)?;
        let tables = Tables { words };
        Ok(Image { tables, data })
    }
}
