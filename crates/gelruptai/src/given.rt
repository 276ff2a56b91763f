// What a walk is given besides its starts, as nine words: r2 (given, number), r13 (given, number), function start (section, address),
// function end (given, section, address). Given is 1; any other number is not given.
ghost use Rattle.std.specs.Prelude.{◌≡◌, ◌<◌, ◌+◌};
ghost use Rattle.gelruptai.specs.Given.{base_in, place_in, maybe_in, base_words, maybe_words, given_words};

use image_file::Head;
use places::SectionAddress;

pub const GIVEN: usize = 9;

pub(crate) fn base_in(g: &[u32; GIVEN], k: usize) -> Option<u32>
    requires { k < 8 }
    ensures { result ≡ base_in g.now k }
{
    if g[k] == 1 {
        return Some(g[k + 1]);
    }
    None
}

pub(crate) fn place_in(g: &[u32; GIVEN], k: usize) -> SectionAddress
    requires { k < 8 }
    ensures { result ≡ place_in g.now k }
{
    SectionAddress {
        section: g[k],
        address: g[k + 1],
    }
}

pub(crate) fn maybe_in(g: &[u32; GIVEN], k: usize) -> Option<SectionAddress>
    requires { k < 7 }
    ensures { result ≡ maybe_in g.now k }
{
    if g[k] == 1 {
        return Some(place_in(g, k + 1));
    }
    None
}

fn base_words(b: Option<u32>) -> [u32; 2]
    ensures { result ≡ base_words b }
{
    match b {
        None => [0, 0],
        Some(n) => [1, n],
    }
}

fn maybe_words(p: Option<SectionAddress>) -> [u32; 3]
    ensures { result ≡ maybe_words p }
{
    match p {
        None => [0, 0, 0],
        Some(a) => [1, a.section, a.address],
    }
}

// The nine words of a file's head.
pub(crate) fn words_of(h: Head) -> [u32; GIVEN]
    ensures { result ≡ given_words h }
{
    let two = h.two;
    let thirteen = h.thirteen;
    let from = h.from;
    let upto = h.upto;
    let a = base_words(two);
    let b = base_words(thirteen);
    let c = maybe_words(upto);
    [
        a[0],
        a[1],
        b[0],
        b[1],
        from.section,
        from.address,
        c[0],
        c[1],
        c[2],
    ]
}
