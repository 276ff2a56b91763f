// One block: straight runs in place, and the jumps inside the section from one to the next.
ghost use Rattle.std.specs.Prelude.{◌≡◌, true, ◌&&◌, not, ℕ, ◌*◌, ◌≤◌, length, Option};
ghost use Rattle.image.specs.Rules.{code_words};
ghost use Rattle.lookups.specs.Code.{code_place, word_number};
ghost use Rattle.visited.specs.Bits.{visited_at};
ghost use Rattle.turns.specs.Moves.{is_fine, ground_of};
ghost use Rattle.cells.specs.Cells.{state_of, Cells};
ghost use Rattle.walk.specs.Blocks.{target_in, branch_in, jump_in, ending_of, Block};

use crate::Ended;
use image::{Image, Tables};
use lookups::{PlaceError, code_place, word_number};
use places::{RelocationTarget, SectionAddress};
use runs::is_ended;
use step::Leave;
use vm::BranchTarget;

// A target in the section of that index.
fn target_in(t: RelocationTarget, section: u32) -> Option<SectionAddress>
    ensures { result ≡ target_in t section }
{
    match t {
        RelocationTarget::Address(q) => {
            if q.section == section {
                return Some(q);
            }
            None
        }
        RelocationTarget::External => None,
    }
}

fn branch_in(t: BranchTarget, section: u32) -> Option<SectionAddress>
    ensures { result ≡ branch_in t section }
{
    match t {
        BranchTarget::Address(a) => target_in(a, section),
        _ => None,
    }
}

// Where a word jumps to inside its section, if it does.
fn jump_in(l: Leave, section: u32) -> Option<SectionAddress>
    ensures { result ≡ jump_in l section }
{
    match l {
        Leave::Jump(t) => branch_in(t, section),
        _ => None,
    }
}

// Whether a place is a word of code that was not visited.
fn is_new(im: &Tables<'_>, map: &[u32], q: SectionAddress) -> bool
    ensures { result ≡ is_fine (code_place im.now.words.now q) && not (visited_at map.now (word_number im.now.words.now q)) }
{
    match code_place(im, q) {
        Ok(()) => !visited::contains(map, word_number(im, q)),
        Err(PlaceError::NotCode) => false,
        Err(PlaceError::Misaligned) => false,
    }
}

// The block at a word of code, from the state in the cells. What it runs over is marked; the word that leaves is marked and not yet
// followed, and the cells hold the state before it.
pub fn run_block(im: &Image<'_>, map: &mut [u32], from: SectionAddress, cells: &mut [u32]) -> Ended
    requires { (code_words im.now.tables.words.now ≤ length map.old * 32) × (is_fine (code_place im.now.tables.words.now from) ≡ true) × Cells cells.old (state_of cells.old) }
    ensures { Cells cells.new (state_of cells.new) × ((start : SectionAddress) (end : Option SectionAddress) (slots : ℕ) → Block (ground_of im.now.tables.words.now im.now.«data».now start end slots) from (state_of cells.old) map.old (ending_of result (state_of cells.new)) map.new) }
{
    let mut p = from;
    let mut stepped: u64 = 0;
    let mut begun: u64 = 0;
    // No for: a block goes on by its jumps.
    loop {
        let code = lookups::data_from(im, p);
        let r = runs::run(&im.tables, code, p, cells);
        let at = r.at;
        let l = r.leave;
        let w = word_number(&im.tables, p);
        let many = (at.address - p.address) / 4;
        if is_ended(l) {
            visited::mark_run(map, w, many);
            return Ended {
                leave: None,
                at,
                stepped: stepped + many as u64,
                begun,
            };
        }
        visited::mark_run(map, w, many + 1);
        stepped = stepped + many as u64 + 1;
        match jump_in(l, at.section) {
            None => {
                return Ended {
                    leave: Some(l),
                    at,
                    stepped,
                    begun,
                };
            }
            Some(q) => {
                if is_new(&im.tables, map, q) {
                    begun += 1;
                    p = q;
                    continue;
                }
                return Ended {
                    leave: None,
                    at,
                    stepped,
                    begun,
                };
            }
        }
    }
}
