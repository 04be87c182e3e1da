//! The prefixes of an UPDATE (RFC 4271 section 4.3): their reader and their writer.

ghost use Rattle.std.specs.Prelude.{◌≡◌, ◌+◌, ◌-◌, ◌^◌, ◌≤◌, ◌++◌, None, Ok, Err, IfSome, IfErr, length, min, vec_len, vec_capacity};
ghost use Rattle.std.specs.List.{flat_map, AllByRecursion};
ghost use Rattle.prefix_lanes.specs.Bits.{IsCanonical};
ghost use Rattle.bgp_codec.specs.Reading.{Gives, IsNoWant};
ghost use Rattle.bgp_codec.specs.Updates.{octet_count, prefix_octets};
ghost use Rattle.bgp_codec.specs.UpdateReading.{update_fault, prefix_at, prefixes_reading};
ghost use Rattle.bgp_values.specs.declared.faults.TheConstants.{INVALID_NETWORK_FIELD};
ghost use Rattle.bgp_codec.specs.AsNumbers.{address_at};

use crate::fault::{CodecError, update_fault};
use crate::items::Items;
use bgp_values::INVALID_NETWORK_FIELD;
use prefix_lanes::Prefix;
use std::alloc::Global;

// How many octets most prefixes have: one for the length, and three for 17 to 24 bits.
const USUAL_LEN: usize = 4;

/// The least number of octets that hold so many bits.
pub fn octet_count(bits: u8) -> usize
    ensures { result ≡ octet_count bits }
{
    (bits as usize + 7) / 8
}

// The address that begins with these octets and ends with zeros.
fn leading_address(octets: &[u8]) -> u32
    ensures { result ≡ address_at octets.now 0 }
{
    match octets {
        [] => 0,
        [a] => u32::from_be_bytes([*a, 0, 0, 0]),
        [a, b] => u32::from_be_bytes([*a, *b, 0, 0]),
        [a, b, c] => u32::from_be_bytes([*a, *b, *c, 0]),
        [a, b, c, d, ..] => u32::from_be_bytes([*a, *b, *c, *d]),
    }
}

// The prefix in front, and what follows it, if it has at most 32 bits and their octets are there.
pub(crate) fn first_prefix(octets: &[u8]) -> Option<(Prefix, &[u8])>
    ensures some { IfSome result (λ first. prefix_at octets.now ≡ Ok (first.0, first.1.now)) }
    ensures none { result ≡ None → prefix_at octets.now ≡ Err (update_fault INVALID_NETWORK_FIELD) }
{
    match octets {
        [] => None,
        [len, rest @ ..] => {
            let (len, count) = (*len, octet_count(*len));
            if len > 32 || rest.len() < count {
                return None;
            }
            let (body, rest) = rest.split_at(count);
            let prefix = Prefix::new(leading_address(body), len).unwrap();
            Some((prefix, rest))
        }
    }
}

// The prefix in front, and what follows it. It takes no memory.
pub(crate) fn read_prefix(alloc: Global, octets: &[u8]) -> Result<(Prefix, &[u8]), CodecError>
    ensures gives { Gives (λ read. (read.0, read.1.now)) result (prefix_at octets.now) }
    ensures memory { IfErr result IsNoWant }
{
    match first_prefix(octets) {
        Some(first) => Ok(first),
        None => Err(update_fault(alloc, INVALID_NETWORK_FIELD)),
    }
}

// The prefixes that octets consist of, in a block of memory.
fn read_several(alloc: Global, octets: &[u8]) -> Result<Vec<Prefix>, CodecError>
    ensures { Gives (λ prefixes. prefixes.items) result (prefixes_reading octets.now) }
{
    let mut prefixes = Vec::with_capacity(alloc, octets.len() / USUAL_LEN + 1)?;
    let mut left = octets;
    'prefixes: while !left.is_empty() {
        let (prefix, rest) = read_prefix(alloc, left)?;
        prefixes.push(prefix)?;
        left = rest;
    }
    Ok(prefixes)
}

// The prefixes that octets consist of. One alone takes no memory.
pub(crate) fn read_prefixes(alloc: Global, octets: &[u8]) -> Result<Items<Prefix>, CodecError>
    ensures { Gives (λ prefixes. prefixes) result (prefixes_reading octets.now) }
{
    if octets.is_empty() {
        return Ok(Items::new(alloc));
    }
    let (first, rest) = read_prefix(alloc, octets)?;
    if rest.is_empty() {
        return Ok(Items::one(first));
    }
    Ok(Items::from_vec(read_several(alloc, octets)?))
}

// Shows that each prefix is in the one form that is written: the bits behind its length are zero.
pub(crate) fn are_canonical(prefixes: &[Prefix])
    ensures { AllByRecursion IsCanonical prefixes.now }
{
    for prefix in prefixes {
        let _len = prefix.len();
    }
}

// How many octets the prefixes have as they are written. The sum stops at `usize::MAX`.
pub(crate) fn prefixes_len(prefixes: &[Prefix]) -> usize
    ensures { result ≡ min (2 ^ 64 - 1) (length (flat_map prefix_octets prefixes.now)) }
{
    let mut len = 0usize;
    for prefix in prefixes {
        len = len.saturating_add(1 + octet_count(prefix.len()));
    }
    len
}

// Appends a prefix, for which there is room.
fn put_prefix(out: &mut Vec<u8>, prefix: &Prefix)
    requires room { vec_len out.old + length (prefix_octets prefix.now) ≤ vec_capacity out.old }
    ensures items { out.new.items ≡ out.old.items ++ prefix_octets prefix.now }
    ensures capacity { vec_capacity out.old ≤ vec_capacity out.new }
{
    let len = prefix.len();
    let address = prefix.addr().to_be_bytes();
    out.push_reserved(len);
    out.extend_from_slice(&address[..octet_count(len)]).unwrap();
}

// Appends prefixes, for which there is room.
pub(crate) fn put_prefixes(out: &mut Vec<u8>, prefixes: &[Prefix])
    requires room { vec_len out.old + length (flat_map prefix_octets prefixes.now) ≤ vec_capacity out.old }
    ensures items { out.new.items ≡ out.old.items ++ flat_map prefix_octets prefixes.now }
    ensures capacity { vec_capacity out.old ≤ vec_capacity out.new }
{
    for prefix in prefixes {
        put_prefix(out, prefix);
    }
}
