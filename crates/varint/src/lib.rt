// Numbers below 2^32 in groups of seven bits, low group first, the top bit set on all but the last, in shortest form.
// Reading takes any bytes and any place; writing requires that the place can advance, and our own crates alone call it.
#![tactic(auto)]

ghost use Rattle.std.specs.Prelude.{◌≡◌, ◌+◌, ◌^◌, ◌<◌, length, set};
ghost use Rattle.std.proofs.lemmas.List.Edits.{sets};
ghost use Rattle.varint.specs.Groups.{groups, varint, read_groups, number_at};

// The number that reads at a place, and the place after it. None where none does: the bytes end, the form is not the
// shortest, or the number is not below 2^32.
pub fn number(s: &[u8], at: usize) -> Option<(u32, usize)>
    ensures { result ≡ number_at s.now at }
{
    read_groups(s, at, 4)
}

// A number's bytes from a place on, and the place after them. A byte that the buffer does not reach is passed over, so
// that the place alone says in the end whether all fitted.
pub fn put(buf: &mut [u8], at: usize, n: u32) -> usize
    requires { at + 5 < 2 ^ 64 }
    ensures { (result ≡ at + length (varint n)) × (buf.new ≡ sets buf.old at (varint n)) }
{
    put_groups(buf, at, n, 4)
}

// What reads in at most left + 1 groups.
fn read_groups(s: &[u8], at: usize, left: u32) -> Option<(u32, usize)>
    ensures { result ≡ read_groups s.now left at }
{
    if s.len() <= at {
        return None;
    }
    let b = s[at] as u32;
    if b < 128 {
        return Some((b, at + 1));
    }
    if left == 0 {
        return None;
    }
    let (m, e) = read_groups(s, at + 1, left - 1)?;
    if m == 0 {
        return None;
    }
    if 0x200_0000 <= m {
        return None;
    }
    Some((m * 128 + (b - 128), e))
}

// A number in at most left + 1 groups, from a place on.
fn put_groups(buf: &mut [u8], at: usize, n: u32, left: u32) -> usize
    requires { at + left + 1 < 2 ^ 64 }
    ensures { (result ≡ at + length (groups left n)) × (buf.new ≡ sets buf.old at (groups left n)) }
{
    if n < 128 {
        return put_byte(buf, at, n as u8);
    }
    if left == 0 {
        return put_byte(buf, at, (n % 128) as u8);
    }
    let next = put_byte(buf, at, (n % 128 + 128) as u8);
    put_groups(buf, next, n / 128, left - 1)
}

// A byte at a place, if the buffer reaches it, and the place after it.
fn put_byte(buf: &mut [u8], at: usize, b: u8) -> usize
    requires { at + 1 < 2 ^ 64 }
    ensures { (result ≡ at + 1) × (buf.new ≡ set buf.old at b) }
{
    if at < buf.len() {
        buf[at] = b;
        return at + 1;
    }
    at + 1
}
