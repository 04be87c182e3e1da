//! Runs of `ff` octets, and the Marker that every BGP message begins with.
//!
//! RFC 4271 section 4.1 has each message begin with sixteen octets of ones. This crate answers
//! how long a run of such octets is, and whether sixteen octets are that Marker.
//!
//! Its contract: [`ones_run`] answers how many octets at the front of an input are `ff`, whatever
//! its length. [`is_marker`] answers whether all sixteen octets are `ff`.
//!
//! Left out: everything behind the Marker. Sixteen octets are compared at a time, as lanes of a
//! vector; a plain loop looks at the rest.
#![tactic(auto)]

ghost use Rattle.std.specs.Prelude.{◌≡◌, ◌==◌, ◌+◌, ◌≤◌, ◌↔◌, IsTrue, length, drop, map};
ghost use Rattle.std.specs.List.{prefix_len};
ghost use Rattle.std.specs.Simd.Lanes.{mask_l};
ghost use Rattle.marker_lanes.specs.Marker.{marker, is_other};

use std::simd::prelude::*;

/// How many octets the Marker has (RFC 4271 section 4.1).
pub const MARKER_LEN: usize = 16;

/// How many octets at the front are `ff`, up to the first that is not.
pub fn ones_run(octets: &[u8]) -> usize
    ensures { result ≡ prefix_len (λ octet. octet == 255) octets.now }
{
    let mut at = 0;
    while octets.len() - at >= 16 {
        let found = others(u8x16::from_slice(&octets[at..]));
        if found != 0 {
            return at + found.trailing_zeros() as usize;
        }
        at += 16;
    }
    end_of_ones(octets, at)
}

/// Whether all sixteen octets are `ff`, as RFC 4271 section 4.1 wants of a Marker.
pub fn is_marker(octets: &[u8; 16]) -> bool
    ensures { IsTrue result ↔ (octets.now ≡ marker) }
{
    others(u8x16::from_array(*octets)) == 0
}

// Which of the octets are not `ff`, the first in the lowest bit.
fn others(octets: u8x16) -> u64
    ensures { result ≡ mask_l (map is_other octets) }
{
    octets.simd_ne(u8x16::splat(0xff)).to_bitmask()
}

// Where the octets from `from` on that are `ff` end: the last octets, fewer than sixteen.
fn end_of_ones(octets: &[u8], from: usize) -> usize
    requires { from ≤ length octets.now }
    ensures { result ≡ from + prefix_len (λ octet. octet == 255) (drop from octets.now) }
{
    let mut at = from;
    while at < octets.len() && octets[at] == 0xff {
        at += 1;
    }
    at
}
