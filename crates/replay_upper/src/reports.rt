// Reports, written and read: docs/FORMATS.md, kinds 11 and 12.
use crate::rooms;
use exchange::case::Case;
use exchange::file::least;
use exchange::line::Line;
use streams::room;

// A report of the case's map, in its buffer.
pub(crate) fn write(case: Case, line: &mut Line) {
    let mut map: [u32; rooms::MAP] = room(0);
    let mut out: [u8; rooms::REPORT] = room(0);
    let mut p = case.words;
    let m = least(p.word() as usize, rooms::MAP);
    p.fill_words(&mut map[..m]);
    let size = least(p.word() as usize, rooms::REPORT);
    out.fill((p.word() % 256) as u8);
    write_in(case, &map[..m], &mut out[..size], line);
}

fn write_in(case: Case, map: &[u32], out: &mut [u8], line: &mut Line) {
    match report::write_report(case.image, case.data, map, out) {
        Ok(n) => {
            line.word(0);
            line.count(n);
        }
        Err(e) => line.many(&[u32::from(e), 0]),
    }
    line.packed(out);
}

pub(crate) fn read(case: Case, line: &mut Line) {
    let mut map: [u32; rooms::MAP] = room(0);
    let mut bytes: [u8; rooms::REPORT] = room(0);
    let mut p = case.words;
    let m = least(p.word() as usize, rooms::MAP);
    p.fill_words(&mut map[..m]);
    let n = least(p.word() as usize, rooms::REPORT);
    p.fill_bytes(&mut bytes[..n]);
    read_in(case, &bytes[..n], &mut map[..m], line);
}

fn read_in(case: Case, bytes: &[u8], map: &mut [u32], line: &mut Line) {
    match report::read_report(case.image, case.data, bytes, map) {
        Ok(_) => line.word(0),
        Err(e) => line.word(u32::from(e)),
    }
    line.many(map);
}
