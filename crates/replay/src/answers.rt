// The answer to each kind of case, as docs/FORMATS.md lays it out.
use crate::asked;
use decoder::Op;
use exchange::case::{Case, Words};
use exchange::line::Line;
use exchange::{file, results};
use jump_tables::{Table, TableError};
use words::{field, mask};

// Writes the answer into the line.
pub(crate) fn answer(case: Case, line: &mut Line) {
    let mut p = case.words;
    match case.kind {
        1 => file::judged(case, line),
        2 => decode(p.word(), line),
        3 => line.word(mask::mask_value(p.word(), p.word())),
        4 => line.word(mask::rotate_left(p.word(), p.word())),
        5 => branch_dest(p.word(), p.word(), line),
        6 => asked::lookup(case, line),
        7 => step(case, line),
        8 => table(case, line),
        _ => (),
    }
}

fn times(b: bool, n: u32) -> u32 {
    if b { n } else { 0 }
}

fn class(op: Op) -> u32 {
    let load = times(decoder::class::is_load_op(op), 1);
    let loadf = times(decoder::class::is_loadf_op(op), 2);
    let store = times(decoder::class::is_store_op(op), 4);
    let storef = times(decoder::class::is_storef_op(op), 8);
    let update = times(decoder::class::is_update_op(op), 16);
    load | loadf | store | storef | update
}

fn written(w: u32, op: Op) -> u32 {
    match op {
        Op::Other => decoder::written(w),
        _ => 0,
    }
}

fn decode(w: u32, line: &mut Line) {
    let op = decoder::decode(w).op;
    line.word(decoder::op_number(w));
    line.word(class(op));
    line.word(written(w, op));
    line.word(field::rd(w) as u32);
    line.word(field::ra(w) as u32);
    line.word(field::rb(w) as u32);
    line.word(field::mb(w));
    line.word(field::me(w));
    line.word(field::simm(w));
    line.word(field::uimm(w));
    line.word(field::crfd(w) as u32);
    line.flag(field::l(w));
    line.word(field::spr(w));
    line.flag(field::lk(w));
    line.flag(field::aa(w));
}

fn branch_dest(w: u32, address: u32, line: &mut Line) {
    match decoder::decode(w).op {
        Op::B | Op::Bc => line.many(&[1, decoder::branch_dest(w, address)]),
        _ => line.many(&[0, 0]),
    }
}

fn step(case: Case, line: &mut Line) {
    let mut p = case.words;
    let at = p.place();
    let word = p.word();
    let before = p.state();
    let r = step::step(case.image, case.data, at, word, before);
    results::stepped(line, r, before);
}

// The room for a table's entries is the bound that docs/FORMATS.md gives for every file.
fn table(case: Case, line: &mut Line) {
    let mut room = [0u64; 2048];
    let mut p = case.words;
    let mut asked = p.part(8);
    let count = (p.word() as usize).min(room.len());
    let entries = &mut room[..count];
    let word = u64::from(p.word());
    entries.fill(word << 32 | word);
    let t = table_in(case, &mut asked, entries);
    print_table(t, entries, line);
}

fn table_in(case: Case, asked: &mut Words, entries: &mut [u64]) -> Result<Table, TableError> {
    let table = asked.place();
    let size = asked.word();
    let start = asked.place();
    let end = asked.maybe_place();
    jump_tables::uniq_jump_table_entries(case.image, case.data, table, size, start, end, entries)
}

fn print_table(t: Result<Table, TableError>, entries: &[u64], line: &mut Line) {
    let (answer, count, size) = match t {
        Ok(t) => (0, t.count, t.size),
        Err(e) => (u32::from(e), 0, 0),
    };
    line.word(answer);
    line.count(count);
    line.word(size);
    for key in entries {
        line.long(*key);
    }
}
