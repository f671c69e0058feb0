//! A number that depends on all numbers and texts that were added to it, and on their order.

use std::ops::Range;

/// A digest.
#[derive(Drop)]
pub struct Digest {
    value: u64,
}

impl Digest {
    /// Returns the digest of nothing.
    pub fn new() -> Self {
        Digest {
            value: 0xcbf2_9ce4_8422_2325,
        }
    }

    /// Returns the number.
    pub fn value(&self) -> u64 {
        self.value
    }

    /// Adds a number.
    pub fn add(&mut self, number: u64) {
        let mixed = (self.value ^ number).wrapping_mul(0x9e37_79b9_7f4a_7c15);
        self.value = mixed ^ (mixed >> 29);
    }

    /// Adds a length or an offset.
    pub fn add_size(&mut self, size: usize) {
        self.add(size as u64);
    }

    /// Adds a range.
    pub fn add_range(&mut self, range: &Range<usize>) {
        self.add_size(range.start);
        self.add_size(range.end);
    }

    /// Adds bytes, eight at a time.
    pub fn add_bytes(&mut self, bytes: &[u8]) {
        self.add_size(bytes.len());
        let whole = bytes.len() / 8;
        for i in 0..whole {
            let mut number = [0; 8];
            number.copy_from_slice(&bytes[8 * i..8 * i + 8]);
            self.add(u64::from_le_bytes(number));
        }
        for byte in &bytes[8 * whole..] {
            self.add(u64::from(*byte));
        }
    }
}
