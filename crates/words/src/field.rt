// The fields of an instruction word, in the manual's bit numbering: bit 0 is the most significant.
ghost use Rattle.std.specs.Prelude.{◌≡◌, ◌+◌, ◌^◌, ◌<◌, ◌≤◌};
ghost use Rattle.words.specs.Word.{field, flag, extended, spr_of, simm_of, li_of, bd_of};

// The bits of w from one place to another, both included: a shift and a remainder, which the compiler makes a mask.
fn bits<const FROM: u32, const TO: u32>(w: u32) -> u32
    requires order { FROM ≤ TO }
    requires inside { TO < 31 + FROM }
    requires end { TO < 32 }
    ensures { result ≡ field w FROM TO }
{
    (w >> (31 - TO)) % (1 << (TO - FROM + 1))
}

// Whether bit I of w is set.
fn bit<const I: u32>(w: u32) -> bool
    requires { I < 32 }
    ensures { result ≡ flag w I }
{
    bits::<I, I>(w) == 1
}

// A number of K bits with its sign bit repeated to the left.
fn signed<const K: u32>(v: u32) -> u32
    requires some { 0 < K }
    requires short { K < 32 }
    requires fits { v < 2 ^ K }
    ensures { result ≡ extended K v }
{
    if v < 1 << (K - 1) {
        v
    } else {
        v + (0xffff_ffff << K)
    }
}

// The primary opcode.
pub fn opcd(w: u32) -> u32
    ensures { result ≡ field w 0 5 }
{
    bits::<0, 5>(w)
}

// The extended opcode, ten bits.
pub fn xo(w: u32) -> u32
    ensures { result ≡ field w 21 30 }
{
    bits::<21, 30>(w)
}

pub fn rd(w: u32) -> usize
    ensures { result ≡ field w 6 10 }
{
    bits::<6, 10>(w) as usize
}

// The same bits as rD, where the word reads the register.
pub fn rs(w: u32) -> usize
    ensures { result ≡ field w 6 10 }
{
    rd(w)
}

pub fn ra(w: u32) -> usize
    ensures { result ≡ field w 11 15 }
{
    bits::<11, 15>(w) as usize
}

pub fn rb(w: u32) -> usize
    ensures { result ≡ field w 16 20 }
{
    bits::<16, 20>(w) as usize
}

pub fn crfd(w: u32) -> u8
    ensures { result ≡ field w 6 8 }
{
    bits::<6, 8>(w) as u8
}

pub fn l(w: u32) -> bool
    ensures { result ≡ flag w 10 }
{
    bit::<10>(w)
}

pub fn sh(w: u32) -> u32
    ensures { result ≡ field w 16 20 }
{
    bits::<16, 20>(w)
}

pub fn mb(w: u32) -> u32
    ensures { result ≡ field w 21 25 }
{
    bits::<21, 25>(w)
}

pub fn me(w: u32) -> u32
    ensures { result ≡ field w 26 30 }
{
    bits::<26, 30>(w)
}

pub fn bo(w: u32) -> u32
    ensures { result ≡ field w 6 10 }
{
    bits::<6, 10>(w)
}

pub fn bi(w: u32) -> u32
    ensures { result ≡ field w 11 15 }
{
    bits::<11, 15>(w)
}

// The number of a special register: the halves of the field stand swapped in the word.
pub fn spr(w: u32) -> u32
    ensures { result ≡ spr_of w }
{
    bits::<16, 20>(w) * 32 + bits::<11, 15>(w)
}

pub fn uimm(w: u32) -> u32
    ensures { result ≡ field w 16 31 }
{
    bits::<16, 31>(w)
}

// The low 16 bits, sign-extended.
pub fn simm(w: u32) -> u32
    ensures { result ≡ simm_of w }
{
    signed::<16>(uimm(w))
}

// LI with two zero bits after it, sign-extended: the displacement of b.
pub fn li(w: u32) -> u32
    ensures { result ≡ li_of w }
{
    signed::<26>(bits::<6, 29>(w) * 4)
}

// BD with two zero bits after it, sign-extended: the displacement of bc.
pub fn bd(w: u32) -> u32
    ensures { result ≡ bd_of w }
{
    signed::<16>(bits::<16, 29>(w) * 4)
}

pub fn aa(w: u32) -> bool
    ensures { result ≡ flag w 30 }
{
    bit::<30>(w)
}

pub fn lk(w: u32) -> bool
    ensures { result ≡ flag w 31 }
{
    bit::<31>(w)
}

pub fn rc(w: u32) -> bool
    ensures { result ≡ flag w 31 }
{
    lk(w)
}
