//! A digest of octets, eight at a time.

/// What has been digested.
#[derive(Clone, Copy)]
pub struct Digest {
    state: u64,
}

// The multiplier of FNV-1a, which this follows by words of eight octets.
const PRIME: u64 = 0x0100_0000_01b3;

impl Digest {
    /// The digest of nothing.
    pub fn new() -> Digest {
        Digest {
            state: 0xcbf2_9ce4_8422_2325,
        }
    }

    /// Adds a number.
    pub fn add(&mut self, number: u64) {
        self.state = (self.state ^ number).wrapping_mul(PRIME).rotate_left(29);
    }

    /// Adds octets, and how many they are.
    pub fn add_octets(&mut self, octets: &[u8]) {
        let (words, rest) = octets.as_chunks::<8>();
        for word in words {
            self.add(u64::from_le_bytes(*word));
        }
        for octet in rest {
            self.add(*octet as u64);
        }
        self.add(octets.len() as u64);
    }

    /// The number that stands for all that was added.
    pub fn value(&self) -> u64 {
        self.state
    }
}
