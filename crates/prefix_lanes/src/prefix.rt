//! One prefix.

ghost use Rattle.std.specs.Prelude.{◌≡◌, ◌≤◌, ◌↔◌, IsTrue, IsSome, IfSome, take};
ghost use Rattle.prefix_lanes.specs.Bits.{address_bits, bits, masked, Covers, IsCanonical, is_prefix};

use crate::mask::{ADDRESS_BITS, begin_alike, mask};
use std::marker::Model;

/// The first bits of an IPv4 address. Prefixes are ordered by address, then by length.
#[derive(Clone, Copy, Debug, PartialEq, Eq, PartialOrd, Ord, Hash)]
pub struct Prefix {
    addr: u32,
    len: u8,
}

impl Model for Prefix {
    ghost use Rattle.prefix_lanes.specs.Bits.{PrefixView, IsCanonical};

    ghost Value = { PrefixView };

    ghost view = { λ p. record { addr = p.addr; len = p.len } };

    ghost invariant = { λ p. IsCanonical (record { addr = p.addr; len = p.len }) };

    ghost inverse = { λ p. record { addr = p.addr; len = p.len } };
}

impl Prefix {
    /// The first `len` bits of `addr`; its other bits are cleared. `None` exactly where `len` is above 32.
    pub fn new(addr: u32, len: u8) -> Option<Prefix>
        ensures valid { IsSome result ↔ (len ≤ 32) }
        ensures value { IfSome result (λ p. p ≡ record { addr = masked addr len; len = len }) }
        ensures canonical { IfSome result IsCanonical }
        ensures first_bits { IfSome result (λ p. bits p ≡ take len (address_bits addr)) }
    {
        if len > ADDRESS_BITS {
            return None;
        }
        Some(Prefix {
            addr: mask(addr, len),
            len,
        })
    }

    /// Whether the two are one prefix.
    pub fn equals(&self, other: &Prefix) -> bool
        ensures { result ≡ is_prefix self.now other.now }
    {
        self.addr == other.addr && self.len == other.len
    }

    /// The address: the bits of the prefix, then zeros.
    pub fn addr(&self) -> u32
        ensures value { result ≡ self.now.addr }
        ensures canonical { IsCanonical self.now }
    {
        self.addr
    }

    /// How many bits the prefix has, 0 to 32.
    pub fn len(&self) -> u8
        ensures value { result ≡ self.now.len }
        ensures canonical { IsCanonical self.now }
    {
        self.len
    }

    /// Whether this prefix has no bits, and so covers every prefix.
    pub fn is_empty(&self) -> bool
        ensures { IsTrue result ↔ (self.now.len ≡ 0) }
    {
        self.len == 0
    }

    /// Whether this prefix covers the other: it is no longer, and the other begins with its bits.
    pub fn covers(&self, other: &Prefix) -> bool
        ensures { IsTrue result ↔ Covers self.now other.now }
    {
        self.len <= other.len && begin_alike(self.addr, other.addr, self.len)
    }
}
