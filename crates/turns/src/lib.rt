// The walk's meaning, in specs/, and its laws, in proofs/: one turn, the walk as its repetition, and its history.
// Crate `walk` does what is defined here.
#![tactic(auto)]

ghost use Rattle.std.specs.Prelude.{◌≡◌, Ok, Err};
ghost use Rattle.turns.specs.Walks.{error_number, judged_by};

use lookups::PlaceError;

// Why a walk is refused, or stopped before its end: document 01's 1, 2, 3, 4; 5 stops it.
#[derive(Clone, Copy, PartialEq, Eq)]
pub enum WalkError {
    BrokenImage,
    NotCode,
    Misaligned,
    MapTooSmall,
    StackFull,
}

impl From<WalkError> for u32 {
    ghost from_gives = { λ e n. n ≡ error_number e };

    fn from(e: WalkError) -> u32 {
        match e {
            WalkError::BrokenImage => 1,
            WalkError::NotCode => 2,
            WalkError::Misaligned => 3,
            WalkError::MapTooSmall => 4,
            WalkError::StackFull => 5,
        }
    }
}

// What a start is refused with that is no code, or not aligned.
impl From<PlaceError> for WalkError {
    ghost from_gives = { λ p e. judged_by (Err p) (Ok tt) ≡ Err e };

    fn from(p: PlaceError) -> WalkError {
        match p {
            PlaceError::NotCode => WalkError::NotCode,
            PlaceError::Misaligned => WalkError::Misaligned,
        }
    }
}

// Whether the walk ran to its end; how many instructions were stepped, blocks begun, tables read and not read; how many states still wait.
#[derive(Clone, Copy)]
pub struct Walked {
    pub answer: Result<(), WalkError>,
    pub stepped: u64,
    pub begun: u64,
    pub read: u64,
    pub not_read: u64,
    pub held: usize,
}
