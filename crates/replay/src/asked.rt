// Lookups in the current image: docs/FORMATS.md, kind 6.
use exchange::case::{Case, Words};
use exchange::line::{Line, first_four};
use image::{Image, Tables};
use lookups::{PlaceError, Relocation, Wanted};
use places::SectionAddress;

pub(crate) fn lookup(case: Case, line: &mut Line) {
    match Image::new(case.image, case.data) {
        Err(_) => line.word(1),
        Ok(im) => {
            line.word(0);
            in_tables(&im, case.words, line);
        }
    }
}

#[tactic(auto, using(image::proofs::SoundTables::laid))]
fn in_tables(im: &Image<'_>, asked: Words, line: &mut Line) {
    let mut p = asked;
    match p.word() {
        1 => found(lookups::at_address(&im.tables, p.word()), line),
        2 => found(image::elf::elf_index(im.tables.words, p.word()), line),
        3 => relocation(
            lookups::relocation_target_for(&im.tables, p.place(), wanted(p.word())),
            line,
        ),
        4 => line.maybe_target(lookups::section_address_for(&im.tables, p.place(), p.word())),
        5 => line.word(lookups::known_size(&im.tables, p.place())),
        6 => sums(lookups::data_from(im, p.place()), line),
        7 => visited_bit(&im.tables, p.place(), line),
        _ => word_there(lookups::read_u32(im, p.place()), line),
    }
}

fn found(f: Option<usize>, line: &mut Line) {
    match f {
        None => line.many(&[0, 0]),
        Some(i) => {
            line.word(1);
            line.count(i);
        }
    }
}

fn wanted(n: u32) -> Wanted {
    match n {
        0 => Wanted::Any,
        1 => Wanted::Absolute,
        _ => Wanted::Other,
    }
}

fn relocation(r: Relocation, line: &mut Line) {
    match r {
        Ok(None) => {
            line.word(0);
            line.maybe_target(None);
        }
        Err(_) => {
            line.word(1);
            line.maybe_target(None);
        }
        Ok(Some(t)) => {
            line.word(0);
            line.maybe_target(Some(t));
        }
    }
}

fn word_there(m: Option<u32>, line: &mut Line) {
    match m {
        None => line.many(&[0, 0]),
        Some(w) => line.many(&[1, w]),
    }
}

// How many bytes, two running sums, and the first four bytes.
fn sums(bytes: &[u8], line: &mut Line) {
    let mut first: u32 = 0;
    let mut second: u32 = 0;
    for b in bytes {
        first = first.wrapping_add(u32::from(*b) + 1);
        second = second.wrapping_add(first);
    }
    line.count(bytes.len());
    line.many(&[first, second, first_four(bytes)]);
}

#[tactic(auto, using(image::proofs::SoundTables::laid))]
fn visited_bit(im: &Tables<'_>, place: SectionAddress, line: &mut Line) {
    line.count(image::code::code_words(im.words));
    match lookups::code_place(im, place) {
        Err(PlaceError::NotCode) => line.many(&[2, 0]),
        Err(PlaceError::Misaligned) => line.many(&[3, 0]),
        Ok(()) => line.many(&[0, lookups::word_number(im, place).0]),
    }
}
