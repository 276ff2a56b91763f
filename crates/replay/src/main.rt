// Answers a file of cases of kinds 1 to 8 (docs/FORMATS.md) over the proved libraries: cases on standard input, a line of
// words for each on standard output. The oracle answers the same file; equal means equal byte for byte.
#![tactic(auto)]

mod answers;
mod asked;

use std::io;

fn main(rt: HostRuntime) -> io::Result<()> {
    exchange::file::answer_all(&rt, &mut rt.stdin(), answers::answer)
}
