// What may be wrong with a file: a check for each thing, in order, and the first of them that is off.
ghost use Rattle.std.specs.Prelude.{◌≡◌, ◌<◌, length};
ghost use Rattle.image_file.specs.Reading.{checked, flag_is, unused_is, head_judged, flags_judged, length_judged, room_judged, judged};

use crate::fields::word;
use crate::{Fault, Wrong};

// The first word of a file, the letters GELR; the one version; the bytes of the head.
const MAGIC: u32 = 0x4745_4c52;

const VERSION: u32 = 1;

const HEAD: usize = 56;

// Nothing is wrong, or that is, and shows at a byte.
fn checked(fine: bool, wrong: Wrong, at: usize) -> Result<(), Fault>
    ensures { result ≡ checked fine wrong at }
{
    if fine {
        return Ok(());
    }
    Err(Fault { wrong, at })
}

// The head is there, and begins as it must.
fn judge_head(file: &[u8]) -> Result<(), Fault>
    ensures { result ≡ head_judged file.now }
{
    let n = file.len();
    checked(HEAD <= n, Wrong::Short, n)?;
    checked(word(file, 0) == MAGIC, Wrong::Magic, 0)?;
    checked(word(file, 1) == VERSION, Wrong::Version, 4)
}

// Word k is a flag.
fn judge_flag(file: &[u8], k: u32) -> Result<(), Fault>
    requires { k < 14 }
    ensures { result ≡ flag_is file.now k }
{
    checked(word(file, k) < 2, Wrong::Flag, k as usize * 4)
}

// Word j is 0 unless the flag at word k says that it is given.
fn judge_unused(file: &[u8], k: u32, j: u32) -> Result<(), Fault>
    requires { (k < 14) × (j < 14) }
    ensures { result ≡ unused_is file.now k j }
{
    let given = word(file, k) == 1;
    let zero = word(file, j) == 0;
    checked(given || zero, Wrong::Unused, j as usize * 4)
}

// The three flags, and what is not given.
fn judge_flags(file: &[u8]) -> Result<(), Fault>
    ensures { result ≡ flags_judged file.now }
{
    judge_flag(file, 5)?;
    judge_unused(file, 5, 6)?;
    judge_flag(file, 7)?;
    judge_unused(file, 7, 8)?;
    judge_flag(file, 11)?;
    judge_unused(file, 11, 12)?;
    judge_unused(file, 11, 13)
}

// The file is as long as its counts say.
fn judge_length(file: &[u8]) -> Result<(), Fault>
    ensures { result ≡ length_judged file.now }
{
    let n = file.len();
    let end = crate::whole_length(file);
    checked(end <= n, Wrong::Truncated, n)?;
    checked(n <= end, Wrong::Trailing, end)
}

// There is room for the image's words and the starts.
fn judge_room(file: &[u8], words: usize, starts: usize) -> Result<(), Fault>
    ensures { result ≡ room_judged file.now words starts }
{
    checked(word(file, 2) as usize <= words, Wrong::WordsRoom, 8)?;
    checked(word(file, 3) as usize <= starts, Wrong::StartsRoom, 12)
}

// Every check, in order.
#[tactic(auto, unfolding(crate::specs::Reading::judged))]
pub fn judge(file: &[u8], words: usize, starts: usize) -> Result<(), Fault>
    ensures { result ≡ judged file.now words starts }
{
    judge_head(file)?;
    judge_flags(file)?;
    judge_length(file)?;
    judge_room(file, words, starts)
}
