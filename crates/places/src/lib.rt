// Places in an image and what a relocation points to: the types that the tables and the machine share.
// A place is a section's index and an address; nothing here asks whether the image has it.
#![tactic(auto)]

ghost use Rattle.std.specs.Prelude.{◌≡◌};
ghost use Rattle.places.specs.Places.{moved, before};

// Places are ordered by section, then by address.
#[derive(Clone, Copy, PartialEq, Eq, PartialOrd, Ord)]
pub struct SectionAddress {
    pub section: u32,
    pub address: u32,
}

// What a relocation points to. The Rust's own enum, no Option: External is a target too.
#[derive(Clone, Copy)]
pub enum RelocationTarget {
    External,
    Address(SectionAddress),
}

// The place n bytes on: only the address part changes, modulo 2^32.
pub fn offset(p: SectionAddress, n: u32) -> SectionAddress
    ensures { result ≡ moved p n }
{
    SectionAddress {
        section: p.section,
        address: words::sum::wrapping_add(p.address, n),
    }
}

// Whether a stands before b: by section, then by address.
pub fn is_before(a: SectionAddress, b: SectionAddress) -> bool
    ensures { result ≡ before a b }
{
    a < b
}
