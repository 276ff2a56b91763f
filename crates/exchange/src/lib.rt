// What the programs that answer files of cases share (docs/FORMATS.md): a file's records and its current image, the pieces
// of a case read from its words, the pieces of an answer written as words. No part of the product: nothing is promised of it
// but safety and ends.
#![tactic(auto)]

pub mod case;
pub mod file;
pub mod line;
pub mod results;
pub mod stacks;
pub mod states;
