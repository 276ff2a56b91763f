// Sections by address: the first that holds it.
ghost use Rattle.std.specs.Prelude.{◌≡◌};
ghost use Rattle.lookups.specs.Sections.{at_address, within};

use image::Tables;
use image::table::section_count;
use search::first;

// The first section that holds the address, or none. It reads two words a section.
pub fn at_address(im: &Tables<'_>, a: u32) -> Option<usize>
    ensures { result ≡ at_address im.now.words.now a }
{
    let words = im.words;
    first(
        section_count(words),
        |i| is_within(words[i * 6 + 6], words[i * 6 + 7], a),
    )
}

// Whether a section of that address and size holds an address.
pub fn is_within(address: u32, size: u32, a: u32) -> bool
    ensures { result ≡ within address size a }
{
    address <= a && a - address < size
}
