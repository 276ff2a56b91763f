// Answers a file of cases of kinds 1 and 10 to 12 (docs/FORMATS.md) over the proved libraries: cases on standard input, a line
// of words for each on standard output. The oracle answers the same file; equal means equal byte for byte.
#![tactic(auto)]

mod reports;
mod rooms;
mod walks;

use exchange::case::Case;
use exchange::file;
use exchange::line::Line;
use std::io;

// Writes the answer into the line.
fn answer(case: Case, line: &mut Line) {
    match case.kind {
        1 => file::judged(case, line),
        10 => walks::walk(case, line),
        11 => reports::write(case, line),
        12 => reports::read(case, line),
        _ => (),
    }
}

fn main(rt: HostRuntime) -> io::Result<()> {
    file::answer_all(&rt, &mut rt.stdin(), answer)
}
