// What is said where there is no walk, or where it was refused: the number, and in words what it means and where that is.
use crate::which;
use faults::Rule;
use image::Tables;
use image_file::{Fault, Wrong};
use lookups::PlaceError;
use places::SectionAddress;
use std::io;

// The file is no image file, or has more than there is room for: what is wrong, at which byte, and the end that its counts ask for.
pub(crate) fn no_file(rt: &impl Print, f: Fault, end: usize) -> io::Result<()> {
    print!(rt; "no image file: at byte {}: {}", f.at, wrong_text(f.wrong))?;
    if f.wrong == Wrong::Truncated || f.wrong == Wrong::Trailing {
        print!(rt; ", byte {end}")?;
    }
    println!(rt; "\nno image file")
}

// The file is longer than the program's buffer.
pub(crate) fn too_long(rt: &impl Print, room: usize) -> io::Result<()> {
    println!(rt; "no image file: it is longer than the limit of {room} bytes\nno image file")
}

// The program's own words: the limits in them are its buffers'.
fn wrong_text(w: Wrong) -> &'static str {
    match w {
        Wrong::Short => "the file ends inside its head of 56 bytes",
        Wrong::Magic => "the file does not begin with the letters GELR",
        Wrong::Version => "the file's version is not 1",
        Wrong::Flag => "a flag is neither 0 nor 1",
        Wrong::Unused => "a number that is not given is not 0",
        Wrong::Truncated => "the file ends before the end that its counts ask for",
        Wrong::Trailing => "the file goes on after the end that its counts ask for",
        Wrong::WordsRoom => "more image words than the limit of 66000",
        Wrong::StartsRoom => "more starts than the limit of 16384",
    }
}

// Answer 1.
pub(crate) fn broken_image(rt: &impl Print, im: &[u32], bytes: usize) -> io::Result<()> {
    let rule = faults::broken_rule(im, bytes);
    print!(rt; "refused, 1: an image rule is broken: {}", rule_text(rule))?;
    which::tell(rt, rule, im, bytes)?;
    println!(rt; "\nanswer 1")
}

fn rule_text(r: Option<Rule>) -> &'static str {
    match r {
        None => "none",
        Some(Rule::Words) => "the image's words are not as many as its counts say",
        Some(Rule::Counts) => "not 1 to 64 sections, or more than 4096 entries in a table",
        Some(Rule::Kind) => "the image's kind is neither 0 nor 1",
        Some(Rule::Sections) => {
            "a section: unknown kind, end past 2^32, data not of its size, or Code not aligned"
        }
        Some(Rule::ElfNumbers) => "two sections have the same elf number",
        Some(Rule::Overlaps) => "two sections of an Executable share a byte",
        Some(Rule::CodeWords) => "more Code words than the limit of 262144",
        Some(Rule::Bounds) => {
            "a bound relocation: no such section, unknown kind, or not inside its section"
        }
        Some(Rule::BoundOrder) => "bound relocations do not ascend by section, then address",
        Some(Rule::Unbounds) => {
            "an unbound relocation: no such section, unknown kind, or not inside its section"
        }
        Some(Rule::Symbols) => {
            "an object symbol: no such section, or a flag that is neither 0 nor 1"
        }
        Some(Rule::SymbolOrder) => "object symbols do not ascend by section, then address",
        Some(Rule::Data) => "a section's data does not lie in the data bytes",
    }
}

// Answers 2 and 3: the first start that is no aligned code word.
pub(crate) fn bad_start(rt: &impl Print, im: &Tables<'_>, starts: &[u64]) -> io::Result<()> {
    for (i, key) in starts.iter().enumerate() {
        let p = place_of(*key);
        match lookups::code_place(im, p) {
            Ok(()) => {}
            Err(PlaceError::NotCode) => {
                tell_start(rt, 2, i, p)?;
                return println!(rt; ": not in a Code section\nanswer 2");
            }
            Err(PlaceError::Misaligned) => {
                tell_start(rt, 3, i, p)?;
                return println!(rt; ": not a multiple of 4\nanswer 3");
            }
        }
    }
    Ok(())
}

fn tell_start(rt: &impl Print, answer: u32, i: usize, p: SectionAddress) -> io::Result<()> {
    print!(rt;
        "refused, {answer}: start {i}, section {}, address {:08x}",
        p.section, p.address
    )
}

fn place_of(key: u64) -> SectionAddress {
    SectionAddress {
        section: (key / 0x1_0000_0000) as u32,
        address: (key % 0x1_0000_0000) as u32,
    }
}

// Answer 4.
pub(crate) fn small_map(rt: &impl Print) -> io::Result<()> {
    println!(rt; "refused, 4: the visited map has fewer bits than there are Code words\nanswer 4")
}
