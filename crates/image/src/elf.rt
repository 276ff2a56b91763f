// Sections by elf number, and the rule that the numbers are distinct.
// Each function requires that the section table is there; our own crates alone call these.
ghost use Rattle.std.specs.Prelude.{◌≡◌, ℕ, ◌+◌, ◌*◌, ◌<◌, not, eqb, length};
ghost use Rattle.image.specs.Layout.{sections, section_at};
ghost use Rattle.search.specs.Every.{every};
ghost use Rattle.image.specs.Laid.{Laid};
ghost use Rattle.image.specs.Rules.{elf_index, elf_distinct};

use crate::table::section_count;
use search::first;

// The index of the first section with that elf number, or nothing: the only one, where elf numbers are distinct.
pub fn elf_index(im: &[u32], elf: u32) -> Option<usize>
    requires { sections im.now * 6 + 5 < length im.now }
    ensures { result ≡ elf_index im.now elf }
{
    first(section_count(im), |i| im[i * 6 + 9] == elf)
}

// No section before number i has its elf number.
fn elf_is_new(im: &[u32], i: usize) -> bool
    requires { Laid im.now × (i < sections im.now) }
    ensures { result ≡ every (λ (j : ℕ). not (eqb (section_at im.now j).elf (section_at im.now i).elf)) i }
{
    let elf = im[i * 6 + 9];
    (0..i).all(|j| im[j * 6 + 9] != elf)
}

// Elf numbers are distinct.
pub fn elf_distinct(im: &[u32]) -> bool
    requires { Laid im.now }
    ensures { result ≡ elf_distinct im.now }
{
    (0..section_count(im)).all(|i| elf_is_new(im, i))
}
