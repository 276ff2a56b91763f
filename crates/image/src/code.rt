// Code words, counted in section order.
// Requires that the tables are laid out; our own crates alone call these, after `check_image`.
ghost use Rattle.std.specs.Prelude.{◌≡◌, ◌<◌, ◌≤◌, ◌^◌};
ghost use Rattle.image.specs.Layout.{sections};
ghost use Rattle.image.specs.Laid.{Laid};
ghost use Rattle.image.specs.Rules.{words_of, words_before, code_words, few_code_words};

use crate::Section;
use crate::numbers::{CODE, MAX_CODE_WORDS};
use crate::table::{section, section_count};

// The Code words of a section, fewer than 2^30.
pub fn words_of(s: Section) -> usize
    ensures { (result ≡ words_of s) × (result < 2 ^ 30) }
{
    if s.kind == CODE {
        (s.size / 4) as usize
    } else {
        0
    }
}

// The Code words of the sections before number i.
#[tactic(auto, using(crate::proofs::CodeWords::words_none, crate::proofs::CodeWords::words_more))]
pub fn words_before(im: &[u32], i: usize) -> usize
    requires { Laid im.now × (i ≤ sections im.now) }
    ensures { result ≡ words_before im.now i }
{
    let mut sum = 0;
    for j in 0..i {
        sum += words_of(section(im, j));
    }
    sum
}

// W, the Code words in all.
pub fn code_words(im: &[u32]) -> usize
    requires { Laid im.now }
    ensures { result ≡ code_words im.now }
{
    words_before(im, section_count(im))
}

// W is at most 262,144.
pub fn few_code_words(im: &[u32]) -> bool
    requires { Laid im.now }
    ensures { result ≡ few_code_words im.now }
{
    code_words(im) <= MAX_CODE_WORDS
}
