//! Numbers that a seed gives.

use rand_core::utils::NextWord;
use rand_pcg::Pcg32;

/// A generator of numbers.
#[derive(Drop)]
pub struct Dice {
    generator: Pcg32,
}

impl Dice {
    /// The generator of a seed.
    pub fn new(seed: u32) -> Dice {
        Dice {
            generator: Pcg32::new(seed as u64, 54),
        }
    }

    /// A number below `bound`, or 0 where that is 0.
    pub fn below(&mut self, bound: u32) -> u32 {
        let word: u32 = self.generator.next_word();
        if bound == 0 { 0 } else { word % bound }
    }

    /// Four octets.
    pub fn octets(&mut self) -> [u8; 4] {
        let word: u32 = self.generator.next_word();
        word.to_le_bytes()
    }
}
