// What every call judges first: the image (1), then the stack and the place that is under way (12).
// `judge` takes anything; the helpers take tables that break no rule, and ask for a stack where they read its places.
ghost use Rattle.std.specs.Prelude.{◌≡◌, true, length, Ok, IfOk};
ghost use Rattle.std.specs.Result.{result_and};
ghost use Rattle.stack.specs.Stack.{Stack, entries};
ghost use Rattle.executor.specs.Judge.{room_of, is_word, is_end, is_placed, all_words, lawful, verdict_of};

use crate::{Phase, Refusal};
use image::numbers::CODE;
use image::table::{section, section_count};
use image::{Image, Tables};
use places::SectionAddress;

// Refuses a visited map with fewer bits than the image has words (4).
pub(crate) fn require_room(im: &Tables<'_>, map: &[u32]) -> Result<(), Refusal>
    ensures { result ≡ room_of im.now.words.now map.now }
{
    if visited::has_room(map, image::code::code_words(im.words)) {
        Ok(())
    } else {
        Err(Refusal::SmallMap)
    }
}

// Whether a place is an aligned code word.
pub fn is_word(im: &Tables<'_>, at: SectionAddress) -> bool
    ensures { result ≡ is_word im.now.words.now at }
{
    lookups::code_place(im, at).is_ok()
}

// Whether a place is the end of its Code section.
fn is_end(im: &Tables<'_>, at: SectionAddress) -> bool
    ensures { result ≡ is_end im.now.words.now at }
{
    let i = at.section as usize;
    if section_count(im.words) <= i {
        return false;
    }
    let s = section(im.words, i);
    s.kind == CODE && at.address == s.address + s.size
}

// Whether what is under way stands where it may: running at a word or its section's end, waiting at a word.
fn is_placed(im: &Tables<'_>, phase: Phase, at: SectionAddress) -> bool
    ensures { result ≡ is_placed im.now.words.now phase at }
{
    match phase {
        Phase::Idle => true,
        Phase::Running => is_word(im, at) || is_end(im, at),
        Phase::Waiting => is_word(im, at),
    }
}

// Whether every held state waits at an aligned code word.
fn all_words(im: &Tables<'_>, stack: &[u32], count: usize) -> bool
    requires { Stack stack.now count }
    ensures { result ≡ all_words im.now.words.now (entries stack.now count) }
{
    for i in 0..count {
        if !is_word(im, stack::held_place(stack, count, i)) {
            return false;
        }
    }
    true
}

// Whether stack and running place are ones that calls leave.
fn is_lawful(im: &Tables<'_>, stack: &[u32], count: usize, phase: Phase, at: SectionAddress) -> bool
    ensures { result ≡ lawful im.now.words.now stack.now count phase at }
{
    stack::judge::is_stack(stack, count) && all_words(im, stack, count) && is_placed(im, phase, at)
}

// The image of the caller's own words and data; else BrokenImage (1), then BadStack (12).
pub fn judge<'a>(
    im: &'a [u32],
    data: &'a [u8],
    stack: &[u32],
    count: usize,
    phase: Phase,
    at: SectionAddress,
) -> Result<Image<'a>, Refusal>
    ensures verdict { result_and result (Ok tt) ≡ verdict_of im.now (length «data».now) stack.now count phase at }
    ensures whole { IfOk result (λ whole. (whole.tables.words ≡ im.entry) × (whole.«data» ≡ «data».entry)) }
    ensures lawful { IfOk result (λ whole. Stack stack.now count × (all_words whole.tables.words.now (entries stack.now count) ≡ true)) }
{
    let im = Image::new(im, data)?;
    if is_lawful(&im.tables, stack, count, phase, at) {
        Ok(im)
    } else {
        Err(Refusal::BadStack)
    }
}
