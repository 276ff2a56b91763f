// Which rule of document 01, "The image", an image breaks: its answer 1, said in a way that a person can act on.
// `broken_rule` takes any words; its parts require what the rules before them gave.
#![tactic(auto)]

ghost use Rattle.std.specs.Prelude.{◌≡◌};
ghost use Rattle.image.specs.Laid.{Laid};
ghost use Rattle.faults.specs.Faults.{section_rule, table_rule, symbol_rule, broken_rule};

use image::code::few_code_words;
use image::elf::elf_distinct;
use image::entries::{bounds_ascend, bounds_sound, symbols_ascend, symbols_sound, unbounds_sound};
use image::head::{is_counted, is_kind_known, laid_out};
use image::sections::{data_inside, sections_apart, sections_sound};

// The rules, in the order in which they are judged.
#[derive(Clone, Copy, PartialEq, Eq, Debug)]
pub enum Rule {
    // The words are as many as the head says.
    Words,
    // 1 to 64 sections, at most 4,096 entries in each further table.
    Counts,
    // Executable or Relocatable.
    Kind,
    // Each section: a known kind, an end below 2^32, data of its size and none for Bss, Code aligned.
    Sections,
    // Elf numbers are distinct.
    ElfNumbers,
    // In an Executable no byte is in two sections.
    Overlaps,
    // At most 262,144 Code words.
    CodeWords,
    // Each bound relocation: an existing section that holds it, a known kind, an existing symbol section or none.
    Bounds,
    // Bound relocations ascend.
    BoundOrder,
    // Each unbound relocation: a known kind, in the section with its elf number, which exists.
    Unbounds,
    // Each object symbol: an existing section, a flag of 0 or 1.
    Symbols,
    // Object symbols ascend.
    SymbolOrder,
    // Each section's data lies in the buffer.
    Data,
}

// The first rule that an image of so many data bytes breaks, or None, exactly where `check_image` calls it sound.
#[tactic(auto, unfolding(crate::specs::Faults::broken_rule))]
pub fn broken_rule(im: &[u32], bytes: usize) -> Option<Rule>
    ensures { result ≡ broken_rule im.now bytes }
{
    if !laid_out(im) {
        return Some(Rule::Words);
    }
    if !is_counted(im) {
        return Some(Rule::Counts);
    }
    section_rule(im, bytes)
}

// From the image's kind and its sections on.
#[tactic(auto, unfolding(crate::specs::Faults::section_rule))]
fn section_rule(im: &[u32], bytes: usize) -> Option<Rule>
    requires { Laid im.now }
    ensures { result ≡ section_rule im.now bytes }
{
    if !is_kind_known(im) {
        return Some(Rule::Kind);
    }
    if !sections_sound(im) {
        return Some(Rule::Sections);
    }
    if !elf_distinct(im) {
        return Some(Rule::ElfNumbers);
    }
    if !sections_apart(im) {
        return Some(Rule::Overlaps);
    }
    if !few_code_words(im) {
        return Some(Rule::CodeWords);
    }
    table_rule(im, bytes)
}

// From the further tables on.
#[tactic(auto, unfolding(crate::specs::Faults::table_rule))]
fn table_rule(im: &[u32], bytes: usize) -> Option<Rule>
    requires { Laid im.now }
    ensures { result ≡ table_rule im.now bytes }
{
    if !bounds_sound(im) {
        return Some(Rule::Bounds);
    }
    if !bounds_ascend(im) {
        return Some(Rule::BoundOrder);
    }
    if !unbounds_sound(im) {
        return Some(Rule::Unbounds);
    }
    symbol_rule(im, bytes)
}

// The object symbols and the data.
#[tactic(auto, unfolding(crate::specs::Faults::symbol_rule))]
fn symbol_rule(im: &[u32], bytes: usize) -> Option<Rule>
    requires { Laid im.now }
    ensures { result ≡ symbol_rule im.now bytes }
{
    if !symbols_sound(im) {
        return Some(Rule::Symbols);
    }
    if !symbols_ascend(im) {
        return Some(Rule::SymbolOrder);
    }
    if !data_inside(im, bytes) {
        return Some(Rule::Data);
    }
    None
}
