//! The lines that say what an event did. A refused call may leave a part of its line.

use bgp_codec::Fault;
use hex::encode;
use net_text::{path_line, put_decimal, put_len, put_numbers, put_prefixes};
use prefix_lanes::Prefix;
use ranked_policy::Asn;
use router_core::What;
use std::alloc::AllocError;

/// Says a number, with what stands before it and behind it.
pub(crate) fn say_number(
    word: &[u8],
    number: u32,
    end: &[u8],
    text: &mut Vec<u8>,
) -> Result<(), AllocError> {
    text.extend_from_slice(word)?;
    put_decimal(text, number)?;
    text.extend_from_slice(end)
}

/// Says how many octets are sent.
pub(crate) fn say_count(word: &[u8], count: usize, text: &mut Vec<u8>) -> Result<(), AllocError> {
    text.extend_from_slice(word)?;
    put_len(text, count)?;
    text.extend_from_slice(if count == 1 {
        b" octet\n"
    } else {
        b" octets\n"
    })
}

/// Says octets that are sent, in hex.
pub(crate) fn say_hex(octets: &[u8], text: &mut Vec<u8>) -> Result<(), AllocError> {
    let digits = encode(*text.allocator(), octets)?;
    text.extend_from_slice(b"octets ")?;
    text.extend_from_slice(digits.as_bytes())?;
    text.extend_from_slice(b"\n")
}

/// Says an item that is sent or taken: how many octets a piece has, and the number of all others.
pub(crate) fn say_item(word: &[u8], what: &What, text: &mut Vec<u8>) -> Result<(), AllocError> {
    text.extend_from_slice(word)?;
    match what {
        What::Dial(number) => say_number(b"dial ", *number, b"\n", text),
        What::Shut(number) => say_number(b"shut ", *number, b"\n", text),
        What::Mark(_, snapshot) => say_number(b"marker ", *snapshot, b"\n", text),
        What::Piece(_, octets) => say_count(b"", octets.as_slice().len(), text),
    }
}

/// Says a fault that is heard: its code and subcode.
pub(crate) fn say_fault(fault: &Fault, text: &mut Vec<u8>) -> Result<(), AllocError> {
    say_number(b"hears fault ", u32::from(fault.code), b" ", text)?;
    say_number(b"", u32::from(fault.sub), b"\n", text)
}

/// Says the path that a peer is told for a prefix: `none` where it is withdrawn.
pub(crate) fn say_path(
    peer: Asn,
    prefix: &Prefix,
    path: &[Asn],
    text: &mut Vec<u8>,
) -> Result<(), AllocError> {
    path_line(b"tells ", peer, prefix, path, text)
}

/// Says the path that is kept for a prefix now, and the one that was.
pub(crate) fn say_change(
    prefix: &Prefix,
    now: &[Asn],
    was: &[Asn],
    text: &mut Vec<u8>,
) -> Result<(), AllocError> {
    text.extend_from_slice(b"keeps")?;
    put_prefixes(text, &[*prefix])?;
    text.extend_from_slice(b" ")?;
    put_numbers(text, now)?;
    text.extend_from_slice(b", kept ")?;
    put_numbers(text, was)?;
    text.extend_from_slice(b"\n")
}
