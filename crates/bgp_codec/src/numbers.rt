//! Numbers and lengths in a message (RFC 4271 section 4): the most significant octet first.

ghost use Rattle.std.specs.Prelude.{◌≡◌, ◌≤◌, length, slice_index};
ghost use Rattle.bgp_codec.specs.AsNumbers.{number_at, address_at, asn_size, asn_at};

use crate::rule::Asn;
use bgp_values::Width;

// The octet at a place, or zero behind the end.
pub(crate) fn octet_at(octets: &[u8], at: usize) -> u8
    ensures { result ≡ slice_index octets.now at }
{
    match octets.get(at) {
        Some(octet) => *octet,
        None => 0,
    }
}

// The number of two octets at a place.
pub(crate) fn number_at(octets: &[u8], at: usize) -> u16
    requires { at ≤ 65537 }
    ensures { result ≡ number_at octets.now at }
{
    u16::from_be_bytes([octet_at(octets, at), octet_at(octets, at + 1)])
}

// The number of four octets at a place.
pub(crate) fn address_at(octets: &[u8], at: usize) -> u32
    requires { at ≤ 65537 }
    ensures { result ≡ address_at octets.now at }
{
    u32::from_be_bytes([
        octet_at(octets, at),
        octet_at(octets, at + 1),
        octet_at(octets, at + 2),
        octet_at(octets, at + 3),
    ])
}

/// How many octets an AS number has.
pub fn asn_size(width: Width) -> usize
    ensures { result ≡ asn_size width }
{
    match width {
        Width::Two => 2,
        Width::Four => 4,
    }
}

// The AS number in front.
pub(crate) fn asn_at(width: Width, octets: &[u8]) -> Asn
    ensures { result ≡ asn_at width octets.now }
{
    match width {
        Width::Two => Asn::from(number_at(octets, 0)),
        Width::Four => address_at(octets, 0),
    }
}

// How many values the octets have, if they are good: the room that a list of the values needs. The second octet of each
// value says how many units, each of `unit` octets, follow it.
pub(crate) fn count_values(octets: &[u8], unit: usize) -> usize
    requires { unit ≤ 4 }
    ensures { result ≤ length octets.now }
{
    let mut count = 0usize;
    let mut at = 0usize;
    'values: while at + 1 < octets.len() {
        at = at + 2 + unit * octets[at + 1] as usize;
        count = count + 1;
    }
    count
}
