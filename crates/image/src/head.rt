// The head of an image: whether the words are as many as it says, the counts, and the kind.
// `laid_out` takes any words; the others require a head.
ghost use Rattle.std.specs.Prelude.{◌≡◌, ◌<◌, length};
ghost use Rattle.image.specs.Rules.{laid_out, counted, kind_known};

use crate::numbers::{MAX_ENTRIES, MAX_SECTIONS};
use crate::table::{symbol_count, symbols_from};

// The words are as many as the head says.
pub fn laid_out(im: &[u32]) -> bool
    ensures { result ≡ laid_out im.now }
{
    im.len() >= 6 && im.len() == symbols_from(im) + symbol_count(im) * 4
}

// 1 to 64 sections, at most 4,096 entries in each further table.
pub fn is_counted(im: &[u32]) -> bool
    requires { 5 < length im.now }
    ensures { result ≡ counted im.now }
{
    let some = 1 <= im[2];
    let few = im[2] <= MAX_SECTIONS;
    let bound = im[3] <= MAX_ENTRIES;
    let unbound = im[4] <= MAX_ENTRIES;
    let symbols = im[5] <= MAX_ENTRIES;
    some & few & bound & unbound & symbols
}

// Executable or Relocatable.
pub fn is_kind_known(im: &[u32]) -> bool
    requires { 5 < length im.now }
    ensures { result ≡ kind_known im.now }
{
    im[0] < 2
}
