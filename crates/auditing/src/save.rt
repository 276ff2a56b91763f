// The report's bytes in a file.
ghost use Rattle.std.specs.Prelude.{◌≤◌};

use crate::options::argument;
use crate::rooms;
use image::Image;
use std::fs::File;
use std::io;
use std::io::Write;
use std::rt::{Env, Files};

// The report of a map, written to the file that an argument names. False where there is no report or the file cannot be written.
pub(crate) fn report<R: Eprint + Env + Files>(
    rt: &R,
    im: &Image<'_>,
    map: &[u32],
    arg: usize,
) -> bool {
    let mut bytes: [u8; rooms::REPORT] = rooms::filled(0);
    match report::write_report(im.tables.words, im.data, map, &mut bytes) {
        Ok(n) if n <= bytes.len() => save(rt, &bytes[..n], arg),
        _ => false,
    }
}

fn save<R: Eprint + Env + Files>(rt: &R, bytes: &[u8], arg: usize) -> bool {
    let mut path: [u8; rooms::PATH] = rooms::filled(0);
    let k = argument(rt, arg, &mut path);
    match std::str::from_utf8(&path[..k]) {
        Ok(name) => save_as(rt, bytes, name),
        Err(_) => {
            let _ = rt.eprintln("the report's name is not UTF-8");
            false
        }
    }
}

fn save_as<R: Eprint + Files>(rt: &R, bytes: &[u8], name: &str) -> bool {
    match File::create(rt, name) {
        Ok(file) => written::<R>(file, bytes),
        Err(e) => {
            fail(rt, name, &e);
            false
        }
    }
}

fn written<R: Files>(file: R::File, bytes: &[u8]) -> bool {
    let mut file = file;
    file.write_all(bytes).is_ok()
}

// As many bytes as the system's words for an error take, at most.
const WORDS: usize = 128;

// The name and what the system says of it, without the number in brackets that follows.
fn fail(rt: &impl Eprint, name: &str, e: &io::Error) {
    let mut text = [0u8; WORDS];
    let n = describe(e, &mut text);
    let said = std::str::from_utf8(&text[..n]).unwrap_or("");
    let words = match said.split_once(" (os error ") {
        Some((before, _)) => before,
        None => said,
    };
    let _ = eprintln!(rt; "{name}: {words}");
}

// The error's text at the start of a buffer: its length.
fn describe(e: &io::Error, text: &mut [u8; WORDS]) -> usize
    ensures { result ≤ 128 }
{
    let mut rest = text.as_mut_slice();
    let _ = write!(rest, "{e}");
    WORDS.saturating_sub(rest.len())
}
