// The product's entry points over numbers and slices: what crate gelruptai_c exports to C and Rust (include/gelruptai.h).
// They require nothing: a slice is a pointer and a length, and what a pointer owes is said in the header.
#![tactic(auto)]

mod given;
mod numbers;

ghost use Rattle.std.specs.Prelude.{◌≡◌, [], ◌∷◌, length};
ghost use Rattle.words.specs.Choice.{pick};
ghost use Rattle.image.specs.Rules.{sound, code_words};
ghost use Rattle.report.specs.Answers.{write_answer, write_leaves, write_number, read_answer, read_leaves, read_number};
ghost use Rattle.faults.specs.Faults.{broken_rule};
ghost use Rattle.image_file.specs.Reading.{answered, image_left, starts_left};
ghost use Rattle.gelruptai.specs.Numbers.{rule_number, table_number, file_number, length_of};
ghost use Rattle.gelruptai.specs.Handed.{walk_on, table_on, stack_words, table_counts, file_given, file_counts};

pub use given::GIVEN;
use given::{base_in, maybe_in, place_in, words_of};
use image::Image;
use numbers::{read_number, rule_number, table_number, walk_number, write_number, wrong_number};
use places::SectionAddress;
use slot::SLOT_WORDS;
use walk::TABLE_ROOM;

// The number of the first rule that an image of so many data bytes breaks, 0 where it is sound.
pub fn gelruptai_check_image(im: &[u32], data_length: usize) -> u32
    ensures { result ≡ rule_number (broken_rule im.now data_length) }
{
    rule_number(faults::broken_rule(im, data_length))
}

// How many Code words an image has, which are the bits that a map needs; 0 for a broken image.
#[tactic(auto, using(image::proofs::SoundTables::laid))]
pub fn gelruptai_code_words(im: &[u32], data: &[u8]) -> usize
    ensures { result ≡ pick (sound im.now (length «data».now)) (code_words im.now) 0 }
{
    match Image::new(im, data) {
        Err(_) => 0,
        Ok(im) => image::code::code_words(im.tables.words),
    }
}

// How many words a stack needs for so many waiting states: the least that will do (proofs/Rooms.antt).
pub fn gelruptai_stack_words(states: u32) -> usize
    ensures { result ≡ stack_words states }
{
    2 + states as usize * (SLOT_WORDS + 1)
}

// `walk::walk`: 0, or 1, 4, 2, 3, which touch no buffer but `counts`, or 5. `counts` becomes: instructions stepped, blocks begun,
// tables read, tables not read, states that wait still.
pub fn gelruptai_walk(
    im: &[u32],
    data: &[u8],
    starts: &[u64],
    given: &[u32; GIVEN],
    map: &mut [u32],
    stack: &mut [u32],
    entries: &mut [u64; TABLE_ROOM],
    counts: &mut [u64; 5],
) -> u32
    ensures { walk_on im.now «data».now starts.now given.now map.old stack.old entries.old ≡ record { answer = result; counts = counts.new; map = map.new; stack = stack.new; entries = entries.new } }
{
    let two = base_in(given, 0);
    let thirteen = base_in(given, 2);
    let from = place_in(given, 4);
    let upto = maybe_in(given, 6);
    let w = walk::walk(
        im, data, starts, two, thirteen, from, upto, map, stack, entries,
    );
    *counts = [w.stepped, w.begun, w.read, w.not_read, w.held as u64];
    walk_number(w.answer)
}

// `jump_tables::uniq_jump_table_entries` for the table at a place: 0, 1, 7, 8, 9, 10. Of `given` the function's bounds are read.
// `counts` becomes: entries, bytes passed.
pub fn gelruptai_table(
    im: &[u32],
    data: &[u8],
    section: u32,
    address: u32,
    size: u32,
    given: &[u32; GIVEN],
    entries: &mut [u64],
    counts: &mut [u64; 2],
) -> u32
    ensures value { result ≡ table_number (table_on im.now «data».now section address size given.now entries.old).table }
    ensures counts { counts.new ≡ table_counts (table_on im.now «data».now section address size given.now entries.old).table }
    ensures entries { entries.new ≡ (table_on im.now «data».now section address size given.now entries.old).keys }
{
    let from = place_in(given, 4);
    let upto = maybe_in(given, 6);
    let at = SectionAddress { section, address };
    let t = jump_tables::uniq_jump_table_entries(im, data, at, size, from, upto, entries);
    *counts = numbers::table_counts(t);
    table_number(t)
}

// `report::write_report`: 0, 1, 4, 10. `written` becomes the report's length, 0 where it is refused.
pub fn gelruptai_write_report(
    im: &[u32],
    data: &[u8],
    map: &[u32],
    out: &mut [u8],
    written: &mut usize,
) -> u32
    ensures value { result ≡ write_number (write_answer im.now (length «data».now) map.now (length out.old)) }
    ensures written { written.new ≡ length_of (write_answer im.now (length «data».now) map.now (length out.old)) }
    ensures out { out.new ≡ write_leaves im.now (length «data».now) map.now out.old }
{
    let w = report::write_report(im, data, map, out);
    *written = w.unwrap_or(0);
    write_number(w)
}

// `report::read_report`: 0, 1, 4, 13.
pub fn gelruptai_read_report(im: &[u32], data: &[u8], bytes: &[u8], map: &mut [u32]) -> u32
    ensures value { result ≡ read_number (read_answer im.now (length «data».now) bytes.now map.old) }
    ensures map { map.new ≡ read_leaves im.now (length «data».now) bytes.now map.old }
{
    read_number(report::read_report(im, data, bytes, map))
}

// `image_file::read_file`: 0, or the number of what is wrong, which touches nothing but `counts`. `counts` becomes: image words, starts,
// the byte where the data begins, data bytes; or the byte at which something is wrong, and zeros.
pub fn gelruptai_read_file(
    file: &[u8],
    im: &mut [u32],
    starts: &mut [u64],
    given: &mut [u32; GIVEN],
    counts: &mut [u64; 4],
) -> u32
    ensures value { result ≡ file_number (answered file.now (length im.old) (length starts.old)) }
    ensures image { im.new ≡ image_left file.now im.old (length starts.old) }
    ensures starts { starts.new ≡ starts_left file.now (length im.old) starts.old }
    ensures given { given.new ≡ file_given (answered file.now (length im.old) (length starts.old)) given.old }
    ensures counts { counts.new ≡ file_counts file.now (answered file.now (length im.old) (length starts.old)) }
{
    match image_file::read_file(file, im, starts) {
        Err(fault) => {
            *counts = [fault.at as u64, 0, 0, 0];
            wrong_number(fault.wrong)
        }
        Ok(h) => {
            let from = image_file::fields::data_from(file);
            *given = words_of(h);
            *counts = [h.words as u64, h.starts as u64, from as u64, h.bytes as u64];
            0
        }
    }
}
