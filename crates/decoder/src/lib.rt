// The decoder: which operation a word is, which general registers it writes, and where a branch goes.
// No public function has a `requires`; each result is a definition of specs/, for all 2^32 words.
#![tactic(auto)]

ghost use Rattle.std.specs.Prelude.{◌≡◌};
ghost use Rattle.decoder.specs.Ops.{number_of};
ghost use Rattle.decoder.specs.Decode.{decoded, displacement_of, branch_dest};
ghost use Rattle.decoder.specs.Written.{set_by, written_set, lowest_of};

pub mod class;
mod table;

// What `step` tells apart. Illegal: a word that document 01 does not list. Other: a listed word
// of which only the registers that it writes are wanted.
#[derive(Clone, Copy)]
pub enum Op {
    Illegal,
    Other,
    Subfic,
    Cmpli,
    Cmpi,
    Addic,
    AddicDot,
    Addi,
    Addis,
    Bc,
    B,
    Rlwinm,
    Rlwnm,
    Ori,
    Lwz,
    Lwzu,
    Lbz,
    Lbzu,
    Stw,
    Stwu,
    Stb,
    Stbu,
    Lhz,
    Lhzu,
    Lha,
    Lhau,
    Sth,
    Sthu,
    Lmw,
    Stmw,
    Lfs,
    Lfsu,
    Lfd,
    Lfdu,
    Stfs,
    Stfsu,
    Stfd,
    Stfdu,
    Bclr,
    Rfi,
    Bcctr,
    Cmp,
    Cmpl,
    Lwzx,
    Mfspr,
    Mtspr,
    Or,
    Add,
    Subf,
    Subfc,
}

// The kinds of sets of general registers that a word writes: none, or what its fields rD and rA name.
#[derive(Clone, Copy)]
pub enum Writes {
    Nothing,
    Rd,
    Ra,
    RdRa,
}

// What a word is: its operation, and which registers it writes.
#[derive(Clone, Copy)]
pub struct Decoded {
    pub op: Op,
    pub writes: Writes,
}

// The row of document 01 that the word belongs to, or Illegal, which writes nothing. Reserved bits
// and Rc are not looked at.
pub fn decode(w: u32) -> Decoded
    ensures { result ≡ decoded w }
{
    let e = table::entry_of(w);
    Decoded {
        op: table::op_named(e % 64),
        writes: table::kind_named(e / 64),
    }
}

// The number of the word's operation in the order of `Op`, for programs that print or compare it.
pub fn op_number(w: u32) -> u32
    ensures { result ≡ number_of (decoded w).op }
{
    u32::from(table::entry_of(w) % 64)
}

// The registers that a word of this kind writes, as a set: register r is in it where the bit of
// value 2^r is set.
pub fn written_by(kind: Writes, w: u32) -> u32
    ensures { result ≡ set_by kind w }
{
    let d = 1u32 << words::field::rd(w) as u32;
    let a = 1u32 << words::field::ra(w) as u32;
    match kind {
        Writes::Nothing => 0,
        Writes::Rd => d,
        Writes::Ra => a,
        Writes::RdRa => d | a,
    }
}

// The registers that the word writes, as such a set; the empty set for an illegal word.
pub fn written(w: u32) -> u32
    ensures { result ≡ written_set w }
{
    written_by(decode(w).writes, w)
}

// A register of a set, and the set without it.
#[derive(Clone, Copy)]
pub struct Taken {
    pub register: usize,
    pub rest: u32,
}

// The lowest register of a set, and the set without it; of the empty set register 32 and the
// empty set. A loop that takes registers until none is left meets each register of the set once.
// No Option: of the empty set too it answers, as it promised.
pub fn take_lowest(set: u32) -> Taken
    ensures { result ≡ lowest_of set }
{
    if set == 0 {
        return Taken {
            register: 32,
            rest: 0,
        };
    }
    let r = set.trailing_zeros();
    Taken {
        register: r as usize,
        rest: set - (1u32 << r),
    }
}

// Where b and bc go: the displacement, added to the word's address modulo 2^32 unless AA is set.
// Any word that is no b is read as a bc.
pub fn branch_dest(w: u32, address: u32) -> u32
    ensures { result ≡ branch_dest w address }
{
    let d = displacement(w);
    if words::field::aa(w) {
        d
    } else {
        words::sum::wrapping_add(address, d)
    }
}

// LI of a b, BD of any other word, with two zero bits after it, sign-extended.
fn displacement(w: u32) -> u32
    ensures { result ≡ displacement_of w }
{
    if words::field::opcd(w) == 18 {
        words::field::li(w)
    } else {
        words::field::bd(w)
    }
}
