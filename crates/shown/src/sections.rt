// Each section, and its visited runs as address ranges.
use crate::runs::CodeWords;
use image::code::words_of;
use image::table::{section, section_count};
use image::{Section, Tables};
use std::io;
use words::sum::wrapping_add;

// A section, its index in the image, and its Code words.
#[derive(Clone, Copy)]
struct Part {
    index: usize,
    section: Section,
    words: CodeWords,
}

// Every section in order.
pub fn show(rt: &impl Print, im: &Tables<'_>, map: &[u32], lines: bool) -> io::Result<()> {
    let n = section_count(im.words);
    let mut base: usize = 0;
    for i in 0..n {
        let s = section(im.words, i);
        let count = words_of(s);
        let words = CodeWords {
            base: base as u32,
            count: count as u32,
        };
        let part = Part {
            index: i,
            section: s,
            words,
        };
        show_section(rt, part, map, lines)?;
        base += count;
    }
    Ok(())
}

fn show_section(rt: &impl Print, p: Part, map: &[u32], lines: bool) -> io::Result<()> {
    let seen = p.words.visited(map);
    if lines {
        show_record(rt, p, seen)?;
    } else {
        tell_section(rt, p, seen)?;
    }
    show_runs(rt, p, map, lines)
}

// A section for a script.
fn show_record(rt: &impl Print, p: Part, seen: u32) -> io::Result<()> {
    let s = p.section;
    let end = wrapping_add(s.address, s.size);
    println!(rt;
        "section {} {} {:08x} {end:08x} {} {seen}",
        p.index, s.kind, s.address, p.words.count
    )
}

// A section for a person.
fn tell_section(rt: &impl Print, p: Part, seen: u32) -> io::Result<()> {
    let s = p.section;
    let end = wrapping_add(s.address, s.size);
    print!(rt;
        "section {}, {}, {:08x} to {end:08x}",
        p.index,
        kind_name(s.kind),
        s.address
    )?;
    if s.kind == 0 {
        print!(rt; ": {seen} of {} words visited", p.words.count)?;
    }
    println!(rt; "")
}

fn kind_name(kind: u32) -> &'static str {
    match kind {
        0 => "Code",
        1 => "Data",
        2 => "ReadOnly",
        _ => "Bss",
    }
}

// The maximal runs of visited words of a section.
fn show_runs(rt: &impl Print, p: Part, map: &[u32], lines: bool) -> io::Result<()> {
    let address = p.section.address;
    let mut j = 0;
    // A while: each turn passes a run, whose length no range says.
    while j < p.words.count {
        let first = p.words.first(map, j, true);
        if p.words.count <= first {
            return Ok(());
        }
        let end = p.words.first(map, first + 1, false);
        let from = wrapping_add(address, first * 4);
        let upto = wrapping_add(address, end * 4);
        show_run(rt, p.index, from, upto, end - first, lines)?;
        j = end;
    }
    Ok(())
}

fn show_run(
    rt: &impl Print,
    index: usize,
    from: u32,
    upto: u32,
    n: u32,
    lines: bool,
) -> io::Result<()> {
    if lines {
        return println!(rt; "run {index} {from:08x} {upto:08x} {n}");
    }
    println!(rt; "  {from:08x} to {upto:08x}, {n} words")
}
