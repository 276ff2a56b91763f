// What an audit shows on standard output: counts, sections, and their visited runs (docs/FORMATS.md, "What ./audit writes").
// Called by our own crates alone; what is written is tested, not proved.
#![tactic(auto, using(image::proofs::SoundTables::laid))]

pub mod counts;
mod runs;
pub mod sections;
