// What comes before the first block: judging, and the starts pushed.
ghost use Rattle.std.specs.Prelude.{ℕ, ◌≡◌, Option};
ghost use Rattle.places.specs.declared.SectionAddress.{SectionAddress};
ghost use Rattle.turns.specs.Walks.{given, starts_judged, judged};
ghost use Rattle.walk.specs.Starts.{places_of, Begins};

use crate::Begun;
use cells::STATE_WORDS;
use clones::Made;
use image::code::code_words;
use image::{Image, Tables};
use lookups::code_place;
use places::SectionAddress;
use pushes::tables::{place_of, push_keys};
use turns::WalkError;
use vm::state::new_with_base;

// The starts in turn, the first bad one deciding: NotCode (2) or Misaligned (3).
fn judge_starts(im: &Tables<'_>, starts: &[u64]) -> Result<(), WalkError>
    ensures { result ≡ starts_judged im.now.words.now (places_of starts.now) }
{
    for start in starts {
        code_place(im, place_of(*start))?;
    }
    Ok(())
}

// MapTooSmall (4), then the starts.
#[tactic(auto, using(image::proofs::SoundTables::laid), unfolding(turns::specs::Walks::judged))]
fn judge(im: &Image<'_>, starts: &[u64], map: &[u32]) -> Result<(), WalkError>
    ensures { (two thirteen : Option ℕ) (from : SectionAddress) (upto : Option SectionAddress) → result ≡ judged (given im.now.tables.words.now im.now.«data».now (places_of starts.now) two thirteen from upto) map.now }
{
    if visited::has_room(map, code_words(im.tables.words)) {
        return judge_starts(&im.tables, starts);
    }
    Err(WalkError::MapTooSmall)
}

// The judgement; where nothing is refused the W bits are cleared and the starts pushed, each with a fresh state.
#[tactic(auto, using(image::proofs::SoundTables::laid))]
pub(crate) fn begin_image(
    im: &Image<'_>,
    starts: &[u64],
    two: Option<u32>,
    thirteen: Option<u32>,
    map: &mut [u32],
    stack: &mut [u32],
) -> Result<Begun, WalkError>
    ensures { Begins im.now.tables.words.now im.now.«data».now starts.now two thirteen map.old stack.old result map.new stack.new }
{
    judge(im, starts, map)?;
    visited::clear(map, code_words(im.tables.words));
    let mut fresh = [0u32; STATE_WORDS];
    cells::put_state(&mut fresh, new_with_base(two, thirteen));
    let t = push_keys(
        &im.tables,
        stack,
        0,
        starts,
        starts.len(),
        &fresh,
        Made::Same,
    );
    Ok(Begun {
        held: t.held,
        full: t.full,
    })
}

// The same for any words and data: BrokenImage (1) comes first. `walk` makes its image itself, and keeps it.
#[tactic(auto, unfolding(turns::specs::Walks::judged))]
pub fn begin(
    im: &[u32],
    data: &[u8],
    starts: &[u64],
    two: Option<u32>,
    thirteen: Option<u32>,
    map: &mut [u32],
    stack: &mut [u32],
) -> Result<Begun, WalkError>
    ensures { Begins im.now «data».now starts.now two thirteen map.old stack.old result map.new stack.new }
{
    match Image::new(im, data) {
        Ok(im) => begin_image(&im, starts, two, thirteen, map, stack),
        Err(_) => Err(WalkError::BrokenImage),
    }
}
