//! A list of octets that a contract sees as a list, wherever it lies in memory.

ghost use Rattle.std.specs.Prelude.{◌≡◌, ◌^◌, ◌<◌, ◌≤◌, ◌==◌, length, IsOk, IfOk};

use smallvec::SmallVec;
use std::alloc::{AllocError, Global};
use std::marker::Model;

/// A list of octets: the data of a fault or of a NOTIFICATION. Up to sixteen octets stand in the
/// value itself and take no memory.
#[derive(Debug, Drop)]
pub struct Octets {
    octets: SmallVec<u8, 16>,
}

impl Model for Octets {
    ghost use Rattle.std.specs.Prelude.{List, ℕ};

    ghost Value = { List ℕ };

    ghost view = { λ list. list.octets.items };
}

impl Octets {
    /// A copy of at most sixteen octets, which takes no memory.
    pub fn short(alloc: Global, octets: &[u8]) -> Octets
        requires { length octets.now ≤ 16 }
        ensures { result ≡ octets.now }
    {
        Octets {
            octets: SmallVec::from_slice(alloc, octets).unwrap(),
        }
    }

    /// A copy of the octets. It is refused only for want of memory, and never for sixteen octets or fewer.
    pub fn from_slice(alloc: Global, octets: &[u8]) -> Result<Octets, AllocError>
        ensures ok { IfOk result (λ list. list ≡ octets.now) }
        ensures short { length octets.now ≤ 16 → IsOk result }
    {
        Ok(Octets {
            octets: SmallVec::from_slice(alloc, octets)?,
        })
    }

    /// The octets of a `Vec`, which it keeps. It takes no memory.
    pub fn from_vec(octets: Vec<u8>) -> Octets
        ensures { result ≡ octets.items }
    {
        Octets {
            octets: SmallVec::from_vec(octets),
        }
    }

    /// The list that holds the octets. It takes no memory.
    pub fn into_small_vec(self) -> SmallVec<u8, 16>
        ensures { result.items ≡ self }
    {
        self.octets
    }

    /// The octets.
    pub fn as_slice(&self) -> &[u8]
        ensures { result.now ≡ self.now }
    {
        self.octets.as_slice()
    }

    /// How many octets there are.
    pub fn len(&self) -> usize
        ensures len { result ≡ length self.now }
        ensures fits { result < 2 ^ 63 }
    {
        self.as_slice().len()
    }

    /// Whether there are none.
    pub fn is_empty(&self) -> bool
        ensures { result ≡ (length self.now == 0) }
    {
        self.octets.is_empty()
    }
}
