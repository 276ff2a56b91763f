// Words in byte buffers, big-endian as the machine stores them.
ghost use Rattle.std.specs.Prelude.{◌≡◌, ◌+◌, ◌≤◌, length};
ghost use Rattle.words.specs.Bytes.{be32, word_in};

// The word whose first byte is at an index of s, or 0 where fewer than four bytes are left.
pub fn word_at(s: &[u8], at: usize) -> u32
    ensures { result ≡ word_in s.now at }
{
    match s.get(at..) {
        Some([a, b, c, d, ..]) => u32::from_be_bytes([*a, *b, *c, *d]),
        _ => 0,
    }
}

// The same where four bytes are known to be there: for our own crates.
pub fn four(s: &[u8], at: usize) -> u32
    requires { at + 4 ≤ length s.now }
    ensures { result ≡ be32 s.now at }
{
    u32::from_be_bytes([s[at], s[at + 1], s[at + 2], s[at + 3]])
}
