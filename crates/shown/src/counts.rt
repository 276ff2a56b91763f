// What is counted of an image and of its walk.
ghost use Rattle.std.specs.Prelude.{◌≡◌};
ghost use Rattle.image.specs.Laid.{Laid};
ghost use Rattle.shown.specs.Counted.{tenths_of};

use std::io;
use turns::Walked;

pub fn show(
    rt: &impl Print,
    im: &[u32],
    starts: u64,
    map: &[u32],
    w: Walked,
    lines: bool,
) -> io::Result<()>
    requires { Laid im.now }
{
    show_kind(rt, im[0], lines)?;
    show_tables(rt, im, lines)?;
    count(rt, lines, "starts", "starts", starts)?;
    let words = image::code::code_words(im);
    let seen = visited::count(map, words);
    count(rt, lines, "code words", "code_words", words as u64)?;
    show_visited(rt, seen as u64, words as u64, lines)?;
    show_walk(rt, w, lines)
}

// A line with a number: under a label for a person, under a key for a script.
fn count(rt: &impl Print, lines: bool, label: &str, key: &str, n: u64) -> io::Result<()> {
    if lines {
        return println!(rt; "{key} {n}");
    }
    println!(rt; "{label:17}{n}")
}

fn show_kind(rt: &impl Print, kind: u32, lines: bool) -> io::Result<()> {
    if lines {
        return println!(rt; "kind {kind}");
    }
    if kind == 0 {
        return println!(rt; "image            Executable");
    }
    println!(rt; "image            Relocatable")
}

// The module number, and how many records each table of the image has.
fn show_tables(rt: &impl Print, im: &[u32], lines: bool) -> io::Result<()>
    requires { Laid im.now }
{
    count(rt, lines, "module", "module", im[1] as u64)?;
    count(rt, lines, "sections", "sections", im[2] as u64)?;
    count(rt, lines, "bound", "bound", im[3] as u64)?;
    count(rt, lines, "unbound", "unbound", im[4] as u64)?;
    count(rt, lines, "object symbols", "symbols", im[5] as u64)
}

// The visited words and, for a person, what part that is.
fn show_visited(rt: &impl Print, part: u64, whole: u64, lines: bool) -> io::Result<()> {
    if lines {
        return println!(rt; "visited {part}");
    }
    let t = tenths(part, whole);
    println!(rt; "visited          {part}, {}.{} %", t / 10, t % 10)
}

// Tenths of a percent of a part of at most 2^40.
fn tenths(part: u64, whole: u64) -> u64
    ensures { result ≡ tenths_of part whole }
{
    if whole == 0 {
        return 0;
    }
    if part <= 0x100_0000_0000 {
        return part * 1000 / whole;
    }
    0
}

fn show_walk(rt: &impl Print, w: Walked, lines: bool) -> io::Result<()> {
    count(rt, lines, "blocks begun", "blocks", w.begun)?;
    count(rt, lines, "steps", "steps", w.stepped)?;
    count(rt, lines, "tables read", "tables_read", w.read)?;
    count(rt, lines, "tables not read", "tables_not_read", w.not_read)?;
    if !lines && w.not_read != 0 {
        println!(rt;
            "the cases of a table that was not read are not followed: look at it by hand"
        )?;
    }
    count(rt, lines, "states waiting", "waiting", w.held as u64)?;
    if !lines && w.held != 0 {
        println!(rt;
            "stopped, 5: every slot of the stack is held. What is listed was reached; more may be"
        )?;
    }
    Ok(())
}
