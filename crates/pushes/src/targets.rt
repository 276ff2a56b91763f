// Where a branch's target leads, before a state is made for it.
ghost use Rattle.std.specs.Prelude.{◌≡◌};
ghost use Rattle.lookups.specs.Code.{code_place};
ghost use Rattle.turns.specs.Moves.{is_fine};
ghost use Rattle.pushes.specs.Takes.{is_way, stays_in};

use image::Tables;
use lookups::code_place;
use places::{RelocationTarget, SectionAddress};
use vm::BranchTarget;

// Whether a place is an aligned word of code.
pub fn is_word(im: &Tables<'_>, q: SectionAddress) -> bool
    ensures { result ≡ is_fine (code_place im.now.words.now q) }
{
    matches!(code_place(im, q), Ok(()))
}

// Whether a target is a word of code or a table: where it is not, no state is made for it.
pub fn is_way(im: &Tables<'_>, t: BranchTarget) -> bool
    ensures { result ≡ is_way im.now.words.now t }
{
    match t {
        BranchTarget::Address(RelocationTarget::Address(q)) => is_word(im, q),
        BranchTarget::JumpTable { .. } => true,
        _ => false,
    }
}

// Whether a target is an address in the section of a place.
pub fn stays_in(at: SectionAddress, t: BranchTarget) -> bool
    ensures { result ≡ stays_in at t }
{
    match t {
        BranchTarget::Address(RelocationTarget::Address(q)) => q.section == at.section,
        _ => false,
    }
}
