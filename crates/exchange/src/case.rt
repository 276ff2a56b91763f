// A case, and the pieces of one, read from its words one after the other. A word past their end reads as 0.
ghost use Rattle.std.specs.Prelude.{◌≡◌, slice_index, drop};

use places::{RelocationTarget, SectionAddress};
use vm::{Cr, Gpr, GprValue, Held, VM};

// What a record asks, over the current image.
#[derive(Clone, Copy)]
pub struct Case<'a> {
    pub kind: u32,
    pub words: Words<'a>,
    pub image: &'a [u32],
    pub data: &'a [u8],
}

// The words that are still to be read.
#[derive(Clone, Copy)]
pub struct Words<'a> {
    pub rest: &'a [u32],
}

impl<'a> Words<'a> {
    pub fn new(words: &'a [u32]) -> Words<'a>
        ensures { result.rest.now ≡ words.now }
    {
        Words { rest: words }
    }

    pub fn word(&mut self) -> u32
        ensures value { result ≡ slice_index self.old.rest.now 0 }
        ensures rest { self.new.rest.now ≡ drop 1 self.old.rest.now }
    {
        let Some((first, rest)) = self.rest.split_first() else {
            return 0;
        };
        self.rest = rest;
        *first
    }

    // The next n words, or as many as there are.
    pub fn part(&mut self, n: usize) -> Words<'a> {
        let (part, rest) = self.rest.split_at(n.min(self.rest.len()));
        self.rest = rest;
        Words { rest: part }
    }

    // Words into the whole of a buffer.
    pub fn fill_words(&mut self, to: &mut [u32]) {
        for w in to.iter_mut() {
            *w = self.word();
        }
    }

    // Bytes into the whole of a buffer, four from each word, the highest first.
    pub fn fill_bytes(&mut self, to: &mut [u8]) {
        for four in to.chunks_mut(4) {
            let bytes = self.word().to_be_bytes();
            for (b, from) in four.iter_mut().zip(&bytes) {
                *b = *from;
            }
        }
    }

    pub fn place(&mut self) -> SectionAddress {
        SectionAddress {
            section: self.word(),
            address: self.word(),
        }
    }

    pub fn maybe_place(&mut self) -> Option<SectionAddress> {
        let mut three = self.part(3);
        if three.word() == 0 {
            return None;
        }
        Some(three.place())
    }

    fn target(&mut self) -> RelocationTarget {
        let mut three = self.part(3);
        if three.word() == 0 {
            return RelocationTarget::External;
        }
        RelocationTarget::Address(three.place())
    }

    fn value(&mut self) -> GprValue {
        let mut five = self.part(5);
        match five.word() {
            1 => GprValue::Constant(five.word()),
            2 => GprValue::Address(five.target()),
            3 => GprValue::ComparisonResult((five.word() % 256) as u8),
            4 => GprValue::Range {
                min: five.word(),
                max: five.word(),
                step: five.word(),
            },
            5 => GprValue::LoadIndexed {
                address: five.target(),
                max_offset: size(five.word()),
            },
            _ => GprValue::Unknown,
        }
    }

    fn register(&mut self) -> Gpr {
        Gpr {
            value: self.value(),
            hi_addr: self.maybe_place(),
            lo_addr: self.maybe_place(),
        }
    }

    fn compare(&mut self) -> Cr {
        Cr {
            left: self.value(),
            right: self.value(),
            signed: self.word() == 1,
        }
    }

    fn held(&mut self) -> Held {
        Held {
            value: self.value(),
        }
    }

    pub fn state(&mut self) -> VM {
        let mut s = vm::state::new();
        let n = self.word();
        for _ in 0..n {
            let item = self.word() as usize;
            if item < 32 {
                s.gpr[item] = self.register();
            } else if item < 40 {
                s.cr[item - 32] = self.compare();
            } else if item == 40 {
                s.lr = self.held();
            } else {
                s.ctr = self.held();
            }
        }
        s
    }
}

fn size(n: u32) -> Option<u32> {
    if n == 0 { None } else { Some(n) }
}
