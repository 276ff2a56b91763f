// Instruction words: their fields, rotation and masks, sums modulo 2^32, and words in byte buffers.
// No function here has a `requires`; each result is a definition of specs/, for every argument.
#![tactic(auto)]

pub mod bytes;
pub mod field;
pub mod mask;
pub mod sum;
