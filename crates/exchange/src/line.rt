// The line being written: an answer's words, one after the other, and the pieces of an answer written as words.
// A line that is full takes no more; the buffer is larger than any answer.
ghost use Rattle.std.specs.Prelude.{◌≡◌, ◌+◌, ◌<◌, ◌≤◌, length};

use places::{RelocationTarget, SectionAddress};
use vm::{BranchTarget, Cr, Gpr, GprValue};

#[derive(Drop)]
pub struct Line<'a> {
    pub words: &'a mut [u32],
    pub end: usize,
}

impl<'a> Line<'a> {
    pub fn new(words: &'a mut [u32]) -> Line<'a>
        ensures { result.end ≡ 0 }
    {
        Line { words, end: 0 }
    }

    // One word.
    pub fn word(&mut self, w: u32)
        ensures room { self.old.end < length self.old.words.now → self.new.end ≡ self.old.end + 1 }
        ensures full { length self.old.words.now ≤ self.old.end → self.new.end ≡ self.old.end }
    {
        if self.end < self.words.len() {
            self.words[self.end] = w;
            self.end += 1;
        }
    }

    pub fn flag(&mut self, b: bool) {
        self.word(u32::from(b));
    }

    // Words, one after the other.
    pub fn many(&mut self, ws: &[u32]) {
        for w in ws {
            self.word(*w);
        }
    }

    // The high word of a 64-bit number, then the low one.
    pub fn long(&mut self, n: u64) {
        self.word((n >> 32) as u32);
        self.word((n & 0xFFFF_FFFF) as u32);
    }

    // The low word of a number that counts something.
    pub fn count(&mut self, n: usize) {
        self.word((n % 0x1_0000_0000) as u32);
    }

    // Bytes, four to a word, zeros after the last.
    pub fn packed(&mut self, bytes: &[u8]) {
        for part in bytes.chunks(4) {
            self.word(first_four(part));
        }
    }

    pub fn place(&mut self, p: SectionAddress) {
        self.many(&[p.section, p.address]);
    }

    pub fn maybe_place(&mut self, m: Option<SectionAddress>) {
        match m {
            None => self.many(&[0, 0, 0]),
            Some(p) => self.many(&[1, p.section, p.address]),
        }
    }

    pub fn target(&mut self, t: RelocationTarget) {
        match t {
            RelocationTarget::External => self.many(&[0, 0, 0]),
            RelocationTarget::Address(p) => self.many(&[1, p.section, p.address]),
        }
    }

    pub fn maybe_target(&mut self, m: Option<RelocationTarget>) {
        match m {
            None => self.many(&[0, 0, 0]),
            Some(RelocationTarget::External) => self.many(&[1, 0, 0]),
            Some(RelocationTarget::Address(p)) => { self.many(&[2, p.section, p.address]) }
        }
    }

    // A tag, a target and one word more.
    fn tagged(&mut self, tag: u32, t: RelocationTarget, d: u32) {
        self.word(tag);
        self.target(t);
        self.word(d);
    }

    pub fn value(&mut self, v: GprValue) {
        match v {
            GprValue::Unknown => self.many(&[0, 0, 0, 0, 0]),
            GprValue::Constant(n) => self.many(&[1, n, 0, 0, 0]),
            GprValue::Address(t) => self.tagged(2, t, 0),
            GprValue::ComparisonResult(k) => self.many(&[3, u32::from(k), 0, 0, 0]),
            GprValue::Range { min, max, step } => self.many(&[4, min, max, step, 0]),
            GprValue::LoadIndexed {
                address,
                max_offset,
            } => self.tagged(5, address, size_of(max_offset)),
        }
    }

    pub fn register(&mut self, g: Gpr) {
        self.value(g.value);
        self.maybe_place(g.hi_addr);
        self.maybe_place(g.lo_addr);
    }

    pub fn compare(&mut self, c: Cr) {
        self.value(c.left);
        self.value(c.right);
        self.flag(c.signed);
    }

    pub fn branch_target(&mut self, t: BranchTarget) {
        match t {
            BranchTarget::Unknown => self.many(&[0, 0, 0, 0, 0]),
            BranchTarget::Return => self.many(&[1, 0, 0, 0, 0]),
            BranchTarget::Address(a) => self.tagged(2, a, 0),
            BranchTarget::JumpTable { address, size } => self.tagged(3, address, size_of(size)),
        }
    }
}

fn size_of(s: Option<u32>) -> u32 {
    match s {
        None => 0,
        Some(n) => n,
    }
}

// The first four bytes as a word, zeros for those that are not there.
pub fn first_four(bytes: &[u8]) -> u32 {
    let mut four = [0u8; 4];
    for (to, b) in four.iter_mut().zip(bytes) {
        *to = *b;
    }
    u32::from_be_bytes(four)
}
