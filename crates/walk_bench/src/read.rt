// The parts of the file, one after the other. A word past its end reads as 0.
// Twins of exchange's, over bytes: the file's words and its bytes together wouldn't leave room for the stack.
use places::SectionAddress;

// What is still to be read.
#[derive(Clone, Copy)]
pub(crate) struct Words<'a> {
    pub(crate) rest: &'a [u8],
}

impl<'a> Words<'a> {
    pub(crate) fn word(&mut self) -> u32 {
        let Some((four, rest)) = self.rest.split_first_chunk::<4>() else {
            return 0;
        };
        self.rest = rest;
        u32::from_be_bytes(*four)
    }

    // A record's kind and its length.
    pub(crate) fn head(&mut self) {
        self.word();
        self.word();
    }

    // The next n bytes, and on to the next word.
    pub(crate) fn bytes(&mut self, n: usize) -> Option<&'a [u8]> {
        let (part, rest) = self.rest.split_at_checked(n)?;
        self.rest = rest.get((4 - n % 4) % 4..).unwrap_or(&[]);
        Some(part)
    }

    // Words into the whole of a buffer.
    pub(crate) fn fill_words(&mut self, to: &mut [u32]) {
        for w in to.iter_mut() {
            *w = self.word();
        }
    }

    // Places into the whole of a buffer, each as one number.
    pub(crate) fn fill_keys(&mut self, to: &mut [u64]) {
        for key in to.iter_mut() {
            let section = u64::from(self.word());
            let address = u64::from(self.word());
            *key = section * 0x1_0000_0000 + address;
        }
    }

    pub(crate) fn place(&mut self) -> SectionAddress {
        SectionAddress {
            section: self.word(),
            address: self.word(),
        }
    }

    pub(crate) fn maybe_place(&mut self) -> Option<SectionAddress> {
        let there = self.word() != 0;
        let place = self.place();
        if there { Some(place) } else { None }
    }

    pub(crate) fn base(&mut self) -> Option<u32> {
        let given = self.word() != 0;
        let number = self.word();
        if given { Some(number) } else { None }
    }
}
