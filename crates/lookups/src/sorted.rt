// The two sorted tables, bound relocations and object symbols, searched by halves.
// In an image their places ascend strictly, so the match that halving finds is the first.
ghost use Rattle.std.specs.Prelude.{◌≡◌, true, ◌+◌, ◌*◌, ◌^◌, ◌≤◌, ◌<◌, length};
ghost use Rattle.search.specs.First.{first};
ghost use Rattle.image.specs.Rules.{ascending};
ghost use Rattle.lookups.specs.Sections.{symbol_index, known_size};
ghost use Rattle.lookups.specs.Relocations.{bound_index};
ghost use Rattle.lookups.specs.Keys.{key_of, key_at, places_at, here_of};

use image::Tables;
use image::table::{bound_count, bounds_from, symbol, symbol_count, symbols_from};
use places::SectionAddress;

// The bound relocation at a place, or none: some twelve comparisons in a table of 4,096.
pub fn bound_index(im: &Tables<'_>, at: SectionAddress) -> Option<usize>
    ensures { result ≡ bound_index im.now.words.now at }
{
    let words = im.words;
    index_by_halves(words, bounds_from(words), 6, bound_count(words), at)
}

// The object symbol at a place, or none, as cheaply.
pub fn symbol_index(im: &Tables<'_>, at: SectionAddress) -> Option<usize>
    ensures { result ≡ symbol_index im.now.words.now at }
{
    let words = im.words;
    index_by_halves(words, symbols_from(words), 4, symbol_count(words), at)
}

// The known size of the object symbol at a place; 0 for no symbol and for an unknown size.
pub fn known_size(im: &Tables<'_>, at: SectionAddress) -> u32
    ensures { result ≡ known_size im.now.words.now at }
{
    let Some(j) = symbol_index(im, at) else {
        return 0;
    };
    let s = symbol(im.words, j);
    if s.known == 1 { s.size } else { 0 }
}

// The place among n that begin at a word and stand a stride of words apart.
fn index_by_halves(
    im: &[u32],
    from: usize,
    stride: usize,
    n: usize,
    at: SectionAddress,
) -> Option<usize>
    requires le_stride { (2 ≤ stride) × (from + n * stride ≤ length im.now) }
    requires n_value { ascending (places_at im.now from stride) n ≡ true }
    ensures { result ≡ first (here_of (places_at im.now from stride) at) n }
{
    let wanted = key(at.section, at.address);
    let mut lo: usize = 0;
    let mut hi: usize = n;
    // By hand: the places are words of the lent image (the C interface), and no slice that the library could search.
    while lo < hi {
        let mid = lo + (hi - lo) / 2;
        if key_at(im, from + mid * stride) < wanted {
            lo = mid + 1;
        } else {
            hi = mid;
        }
    }
    if n <= lo {
        return None;
    }
    if key_at(im, from + lo * stride) == wanted {
        Some(lo)
    } else {
        None
    }
}

// A place as one number, whose order is the places'.
fn key(section: u32, address: u32) -> u64
    ensures { (result ≡ key_of section address) × (address < 2 ^ 32) }
{
    section as u64 * 0x1_0000_0000 + address as u64
}

// The key of the place that stands at a word.
fn key_at(im: &[u32], k: usize) -> u64
    requires { k + 1 < length im.now }
    ensures { result ≡ key_at im.now k }
{
    key(im[k], im[k + 1])
}
