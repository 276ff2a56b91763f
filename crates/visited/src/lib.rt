// The visited map in lent u32 words: bit b stands for Code word number b, the low bit of each word first.
// Every function takes any map and any number; a bit past the map's end is not there.
#![tactic(auto)]

ghost use Rattle.std.specs.Prelude.{◌≡◌, ◌-◌, min};
ghost use Rattle.visited.specs.Bits.{visited_at, has_room, with_bit, with_run, without_low, cleared, low_ones, ones_below};

use lookups::WordNumber;

// Whether the map has at least n bits: with W for n, false where the answer is 4.
pub fn has_room(map: &[u32], n: usize) -> bool
    ensures { result ≡ has_room map.now n }
{
    n.div_ceil(32) <= map.len()
}

// Whether a Code word was visited. No number is refused: a word past the map's end was not.
pub fn contains(map: &[u32], w: WordNumber) -> bool
    ensures { result ≡ visited_at map.now w.0 }
{
    let i = (w.0 / 32) as usize;
    i < map.len() && (map[i] >> (w.0 % 32)) % 2 == 1
}

// The map with a Code word visited and every other bit as it was; past the map's end nothing changes.
pub fn insert(map: &mut [u32], w: WordNumber)
    ensures { map.new ≡ with_bit map.old w.0 }
{
    set_bit(map, w.0 as usize);
}

// The map with k Code words in a row visited and every other bit as it was; past the map's end nothing changes.
#[tactic(auto, using(crate::proofs::BitLaws::run_past_end, crate::proofs::BitLaws::run_one_more), unfolding(crate::specs::Bits::with_run))]
pub fn mark_run(map: &mut [u32], from: WordNumber, k: u32)
    ensures { map.new ≡ with_run map.old from.0 k }
{
    let b = from.0 as usize;
    if map.len() <= b / 32 {
        return;
    }
    for j in 0..k as usize {
        set_bit(map, b + j);
    }
}

// The map with its first n bits cleared, and those from n up as they were.
pub fn clear(map: &mut [u32], n: usize)
    ensures { map.new ≡ cleared map.old n }
{
    let mut left = n;
    for word in map {
        *word = high_bits(*word, left);
        left = left.saturating_sub(32);
    }
}

// How many of the first n bits are set: the ones of each map word counted and summed. Bits from n up do not count.
pub fn count(map: &[u32], n: usize) -> usize
    ensures { result ≡ ones_below map.now n }
{
    let mut left = n;
    let mut ones: usize = 0;
    for word in map {
        ones += low_ones(*word, left);
        left = left.saturating_sub(32);
    }
    ones
}

fn set_bit(map: &mut [u32], b: usize)
    ensures { map.new ≡ with_bit map.old b }
{
    let i = b / 32;
    let k = (b % 32) as u32;
    if i < map.len() {
        map[i] |= 1u32 << k;
    }
}

// A word with its k lowest bits cleared, all of them where k is 32 or more.
fn high_bits(x: u32, k: usize) -> u32
    ensures { result ≡ without_low x (min k 32) }
{
    if k < 32 {
        let j = k as u32;
        (x >> j) << j
    } else {
        0
    }
}

// How many of a word's k lowest bits are set, of all its bits where k is 32 or more.
fn low_ones(x: u32, k: usize) -> usize
    ensures { result ≡ low_ones x (min k 32) }
{
    if k < 32 {
        let j = k as u32;
        (x % (1u32 << j)).count_ones() as usize
    } else {
        x.count_ones() as usize
    }
}
