//! Numbers that look random: SplitMix64, as Guy Steele, Doug Lea and Christine Flood published it.

/// A sequence of numbers.
#[derive(Drop)]
pub struct Random {
    state: u64,
}

impl Random {
    /// Returns the sequence that begins with this number.
    pub fn new(seed: u64) -> Self {
        Random { state: seed }
    }

    /// Returns the next number.
    pub fn next(&mut self) -> u64 {
        self.state = self.state.wrapping_add(0x9e37_79b9_7f4a_7c15);
        let first = (self.state ^ (self.state >> 30)).wrapping_mul(0xbf58_476d_1ce4_e5b9);
        let second = (first ^ (first >> 27)).wrapping_mul(0x94d0_49bb_1331_11eb);
        second ^ (second >> 31)
    }

    /// Returns a number below `limit`, or 0 if that is 0.
    pub fn below(&mut self, limit: u64) -> u64 {
        let number = self.next();
        if limit == 0 { 0 } else { number % limit }
    }

    /// Returns one of the texts, or the empty text if there is none.
    pub fn pick<'a>(&mut self, texts: &[&'a str]) -> &'a str {
        let number = self.below(texts.len() as u64);
        match texts.get(number as usize) {
            Some(text) => text,
            None => "",
        }
    }
}
