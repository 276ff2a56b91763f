// The program's arguments: --lines, and --report with a file's name after it.
ghost use Rattle.std.specs.Prelude.{◌≤◌, length};

use std::env::FillError;
use std::rt::Env;

// Whether a script reads the lines, and which argument names the report's file, where one does.
#[derive(Clone, Copy)]
pub(crate) struct Options {
    pub(crate) lines: bool,
    pub(crate) report: Option<usize>,
}

#[derive(Clone, Copy)]
enum Asked {
    Lines,
    Report,
}

// Argument i at the start of a text: its length, or 0 where it is missing or longer than that.
pub(crate) fn argument(rt: &impl Env, i: usize, text: &mut [u8]) -> usize
    ensures { result ≤ length text.new }
{
    match rt.arg(i, text) {
        Ok(n) => n,
        Err(_) => 0,
    }
}

fn is_there(rt: &impl Env, i: usize) -> bool {
    match rt.arg(i, &mut []) {
        Err(FillError::NotPresent) => false,
        _ => true,
    }
}

// How many arguments there are, the program's name among them.
fn count(rt: &impl Env) -> usize {
    for i in 0..usize::MAX {
        if !is_there(rt, i) {
            return i;
        }
    }
    usize::MAX
}

// What argument i asks for, or None where it is not known.
fn option_at(rt: &impl Env, i: usize) -> Option<Asked> {
    let mut text = [0u8; 16];
    let n = argument(rt, i, &mut text);
    if &text[..n] == b"--lines".as_slice() {
        return Some(Asked::Lines);
    }
    if &text[..n] == b"--report".as_slice() {
        return Some(Asked::Report);
    }
    None
}

// The options, or None where an argument is not known or the report's name is missing.
pub(crate) fn read(rt: &impl Env) -> Option<Options> {
    let n = count(rt);
    let mut o = Options {
        lines: false,
        report: None,
    };
    let mut i: usize = 1;
    // A while: an option takes one argument or two, which no range says.
    while i < n {
        match option_at(rt, i)? {
            Asked::Lines => {
                o.lines = true;
                i += 1;
            }
            Asked::Report => {
                if n - i < 2 {
                    return None;
                }
                o.report = Some(i + 1);
                i += 2;
            }
        }
    }
    Some(o)
}
