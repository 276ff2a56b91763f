// The head: fourteen words, and what they say.
ghost use Rattle.std.specs.Prelude.{◌≡◌, ◌<◌, ◌+◌, ◌*◌, ◌≤◌};
ghost use Rattle.image_file.specs.Reading.{head_word, data_from, base_at, place_at, maybe_at, head_of};

use crate::Head;
use places::SectionAddress;

// Word k of the file, or 0 where it ends before that.
pub fn word(file: &[u8], k: u32) -> u32
    ensures { result ≡ head_word file.now k }
{
    words::bytes::word_at(file, k as usize * 4)
}

// Where the data begins.
pub fn data_from(file: &[u8]) -> usize
    ensures { (result ≡ data_from file.now) × (result < 68719476736) }
{
    56 + word(file, 2) as usize * 4 + word(file, 3) as usize * 8
}

fn base_at(file: &[u8], k: u32) -> Option<u32>
    requires { k < 14 }
    ensures { result ≡ base_at file.now k }
{
    if word(file, k) == 1 {
        return Some(word(file, k + 1));
    }
    None
}

fn place_at(file: &[u8], k: u32) -> SectionAddress
    requires { k < 14 }
    ensures { result ≡ place_at file.now k }
{
    SectionAddress {
        section: word(file, k),
        address: word(file, k + 1),
    }
}

fn maybe_at(file: &[u8], k: u32) -> Option<SectionAddress>
    requires { k < 12 }
    ensures { result ≡ maybe_at file.now k }
{
    if word(file, k) == 1 {
        return Some(place_at(file, k + 1));
    }
    None
}

// What the head says, whatever stands there.
pub fn head_of(file: &[u8]) -> Head
    ensures { result ≡ head_of file.now }
{
    Head {
        words: word(file, 2),
        starts: word(file, 3),
        bytes: word(file, 4),
        two: base_at(file, 5),
        thirteen: base_at(file, 7),
        from: place_at(file, 9),
        upto: maybe_at(file, 11),
    }
}
