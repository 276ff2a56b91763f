// The sizes of a case's buffers, by the bounds that docs/FORMATS.md gives for every file.

// The words of the visited map.
pub(crate) const MAP: usize = 8300;

// The bytes of a report.
pub(crate) const REPORT: usize = 4096;

// The words of a stack of 64 slots.
pub(crate) const STACK: usize = 21186;

// The starts of a walk.
pub(crate) const STARTS: usize = 64;
