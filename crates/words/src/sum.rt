// Sums modulo 2^32: the machine's add, and the complement that subf is made of.
ghost use Rattle.std.specs.Prelude.{◌≡◌};
ghost use Rattle.words.specs.Sums.{sum, complement_of, difference};

// a + b, modulo 2^32.
pub fn wrapping_add(a: u32, b: u32) -> u32
    ensures { result ≡ sum a b }
{
    a.wrapping_add(b)
}

// Every bit of a turned over.
pub fn complement(a: u32) -> u32
    ensures { result ≡ complement_of a }
{
    !a
}

// subf's sum: the complement of a, plus b, plus 1.
pub fn subtract_from(a: u32, b: u32) -> u32
    ensures { result ≡ sum (sum (complement_of a) b) 1 }
{
    b.wrapping_sub(a)
}

// a - b, modulo 2^32.
pub fn wrapping_sub(a: u32, b: u32) -> u32
    ensures { result ≡ difference a b }
{
    a.wrapping_sub(b)
}
