// Walks: docs/FORMATS.md, kind 10.
use crate::rooms;
use exchange::case::{Case, Words};
use exchange::file::least;
use exchange::line::Line;
use exchange::stacks;
use streams::room;
use turns::Walked;

// A case's first words: the slots, how many words the map has and what fills it. The walk's own words follow.
pub(crate) fn walk(case: Case, line: &mut Line) {
    let mut p = case.words;
    let words = least(stacks::words_of(p.word()), rooms::STACK);
    let m = least(p.word() as usize, rooms::MAP);
    let mut map: [u32; rooms::MAP] = room(p.word());
    let mut stack: [u32; rooms::STACK] = room(0);
    walk_in(case, p, &mut map[..m], &mut stack[..words], line);
}

// A start: its section times 2^32 plus its address.
fn key(p: &mut Words) -> u64 {
    let section = u64::from(p.word());
    let address = u64::from(p.word());
    section * 0x1_0000_0000 + address
}

fn base(p: &mut Words) -> Option<u32> {
    let given = p.word() == 1;
    let number = p.word();
    if given { Some(number) } else { None }
}

fn walk_in(case: Case, asked: Words, map: &mut [u32], stack: &mut [u32], line: &mut Line) {
    let mut p = asked;
    let two = base(&mut p);
    let thirteen = base(&mut p);
    let from = p.place();
    let upto = p.maybe_place();
    let n = least(p.word() as usize, rooms::STARTS);
    let mut starts: [u64; rooms::STARTS] = room(0);
    for start in starts.iter_mut() {
        *start = key(&mut p);
    }
    let mut entries = [0u64; 1024];
    let w = walk::walk(
        case.image,
        case.data,
        &starts[..n],
        two,
        thirteen,
        from,
        upto,
        map,
        stack,
        &mut entries,
    );
    walked(w, map, stack, line);
}

fn walked(w: Walked, map: &[u32], stack: &[u32], line: &mut Line) {
    line.word(w.answer.map_or_else(u32::from, |_| 0));
    line.long(w.stepped);
    line.long(w.begun);
    line.long(w.read);
    line.long(w.not_read);
    line.many(map);
    stacks::held(stack, w.held, line);
}
