// The rules on the tables together, in the order of document 01; the first broken one ends the judging.
// `tables_sound` takes any words; the parts below it require what the rules before them gave.
ghost use Rattle.std.specs.Prelude.{◌≡◌, ◌&&◌};
ghost use Rattle.image.specs.Laid.{Laid};
ghost use Rattle.image.specs.Rules.{laid_out, counted, kind_known, sections_sound, elf_distinct, sections_apart, few_code_words, bounds_sound, bounds_ascend, unbounds_sound, symbols_sound, symbols_ascend, tables_sound};

use crate::code::few_code_words;
use crate::elf::elf_distinct;
use crate::entries::{bounds_ascend, bounds_sound, symbols_ascend, symbols_sound, unbounds_sound};
use crate::head::{is_counted, is_kind_known, laid_out};
use crate::sections::{sections_apart, sections_sound};

// The rules on the head.
fn head_sound(im: &[u32]) -> bool
    ensures { result ≡ laid_out im.now && counted im.now && kind_known im.now }
{
    laid_out(im) && is_counted(im) && is_kind_known(im)
}

// The rules on sections.
fn section_table_sound(im: &[u32]) -> bool
    requires { Laid im.now }
    ensures { result ≡ sections_sound im.now && elf_distinct im.now && sections_apart im.now && few_code_words im.now }
{
    sections_sound(im) && elf_distinct(im) && sections_apart(im) && few_code_words(im)
}

// The rules on the further tables.
fn further_tables_sound(im: &[u32]) -> bool
    requires { Laid im.now }
    ensures { result ≡ bounds_sound im.now && bounds_ascend im.now && unbounds_sound im.now && symbols_sound im.now && symbols_ascend im.now }
{
    bounds_sound(im)
        && bounds_ascend(im)
        && unbounds_sound(im)
        && symbols_sound(im)
        && symbols_ascend(im)
}

// Every rule on the tables holds. Any words may be asked about.
#[tactic(auto, unfolding(crate::specs::Rules::tables_sound))]
pub fn tables_sound(im: &[u32]) -> bool
    ensures { result ≡ tables_sound im.now }
{
    head_sound(im) && section_table_sound(im) && further_tables_sound(im)
}
