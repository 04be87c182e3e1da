//! Clearing the bits of addresses that a prefix leaves out.

ghost use Rattle.std.specs.Prelude.{◌≡◌, ◌↔◌, IsTrue, ℕ, ◌-◌, ◌/◌, ◌^◌, ◌<◌, ◌≤◌, length, slice_index};
ghost use Rattle.std.specs.List.{All};
ghost use Rattle.std.specs.Simd.Lanes.{Each1, zip2};
ghost use Rattle.prefix_lanes.specs.Bits.{leading_mask, masked};

use std::simd::prelude::*;

/// The bits of an address.
pub(crate) const ADDRESS_BITS: u8 = 32;

/// The address with all bits past the first `len` cleared.
pub(crate) fn mask(addr: u32, len: u8) -> u32
    requires { len ≤ 32 }
    ensures { result ≡ masked addr len }
{
    let rest = ADDRESS_BITS - len;
    (leading(addr, len) << rest) as u32
}

/// The word whose first `len` bits are set, and no other.
pub(crate) fn mask_word(len: u8) -> u32
    requires { len ≤ 32 }
    ensures { result ≡ leading_mask len }
{
    ((1u64 << ADDRESS_BITS) - (1u64 << (ADDRESS_BITS - len))) as u32
}

/// Whether the first `len` bits of both addresses are the same.
pub(crate) fn begin_alike(one: u32, other: u32, len: u8) -> bool
    requires { len ≤ 32 }
    ensures { IsTrue result ↔ (one / 2 ^ (32 - len) ≡ other / 2 ^ (32 - len)) }
{
    leading(one, len) == leading(other, len)
}

/// The first `len` bits of the address, as a number.
fn leading(addr: u32, len: u8) -> u64
    requires { len ≤ 32 }
    ensures { result ≡ addr / 2 ^ (32 - len) }
{
    u64::from(addr) >> (ADDRESS_BITS - len)
}

/// Clears each address past its length: of `words[i]` only the first `lens[i]` bits stay.
pub fn mask_all(words: &mut [u32], lens: &[u8])
    requires same { length words.old ≡ length lens.now }
    requires short { All (λ len. len ≤ 32) lens.now }
    ensures { (k : ℕ) → k < length lens.now
        → slice_index words.new k ≡ masked (slice_index words.old k) (slice_index lens.now k) }
{
    let mut at = 0;
    while lens.len() - at >= 8 {
        let cleared = mask_lanes(
            u32x8::from_slice(&words[at..]),
            u8x8::from_slice(&lens[at..]),
        );
        cleared.copy_to_slice(&mut words[at..]);
        at += 8;
    }
    for i in at..lens.len() {
        words[i] = mask(words[i], lens[i]);
    }
}

// Each of eight addresses with all bits past its length cleared.
fn mask_lanes(words: u32x8, lens: u8x8) -> u32x8
    requires { Each1 (λ len. len ≤ 32) lens }
    ensures { result ≡ zip2 masked words lens }
{
    let lens = lens.cast::<u32>();
    // A lane is shifted by less than its 32 bits: where no bit stays, the mask is chosen.
    let rest = (u32x8::splat(32) - lens) & u32x8::splat(31);
    let masks = u32x8::splat(0) - (u32x8::splat(1) << rest);
    let none = lens.simd_eq(u32x8::splat(0));
    words & none.select(u32x8::splat(0), masks)
}
