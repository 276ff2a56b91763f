// Rotation and masks of the rotate instructions.
ghost use Rattle.std.specs.Prelude.{◌≡◌, ◌%◌};
ghost use Rattle.words.specs.Bits.{mask_of, rotated};

// MASK(begin, end) by two shifts. Both ends are taken modulo 32, so every pair has a mask.
pub fn mask_value(begin: u32, end: u32) -> u32
    ensures { result ≡ mask_of (begin % 32) (end % 32) }
{
    let b = begin % 32;
    let e = end % 32;
    let from = 0xffff_ffffu32 >> b;
    let upto = 0xffff_ffffu32 << (31 - e);
    if b <= e { from & upto } else { from | upto }
}

// x rotated left by n, taken modulo 32.
pub fn rotate_left(x: u32, n: u32) -> u32
    ensures { result ≡ rotated x n }
{
    x.rotate_left(n)
}
