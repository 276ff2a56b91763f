// A straight run over a state that stays in its cells: words until one ends the run, or the bytes do.
// The cells hold a state.
#![tactic(auto, using(cells::proofs::CellLaws::cells_long))]

pub mod carry;
pub mod word;

ghost use Rattle.std.specs.Prelude.{◌≡◌};
ghost use Rattle.cells.specs.Cells.{state_of, Cells};
ghost use Rattle.turns.specs.Straight.{is_ended};
ghost use Rattle.runs.specs.Went.{Halts};

use image::Tables;
use places::SectionAddress;
use step::Leave;
use word::one;

// Where a run stopped, and why; the cells hold the state before the word there.
#[derive(Clone, Copy)]
pub struct Halted {
    pub leave: Leave,
    pub at: SectionAddress,
}

// Whether no word has left: the run met its section's end, or goes on.
pub fn is_ended(l: Leave) -> bool
    ensures { result ≡ is_ended l }
{
    matches!(l, Leave::Ended)
}

// `code` is the bytes from the place on, to its section's end.
pub fn run(im: &Tables<'_>, code: &[u8], at: SectionAddress, cells: &mut [u32]) -> Halted
    requires { Cells cells.old (state_of cells.old) }
    ensures { Halts im.now.words.now code.now at (state_of cells.old) result cells.new }
{
    let mut p = at;
    for k in 0..code.len() / 4 {
        let l = one(im, p, words::bytes::four(code, k * 4), cells);
        if !is_ended(l) {
            return Halted { leave: l, at: p };
        }
        p = places::offset(p, 4);
    }
    Halted {
        leave: Leave::Ended,
        at: p,
    }
}
