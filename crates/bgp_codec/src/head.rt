//! The header of a message, and its checks (RFC 4271 sections 4.1 and 6.1).

ghost use Rattle.std.specs.Prelude.{◌≡◌, IfOk, IfErr, Some, None};
ghost use Rattle.bgp_codec.specs.Header.{header_fault, length_field, kind_field, length_fits, is_message_len, is_kind, begins_with_marker};

use crate::fault::Fault;
use crate::kind::Header;
use crate::octets::Octets;
use bgp_values::{
    BAD_MESSAGE_LENGTH, BAD_MESSAGE_TYPE, CONNECTION_NOT_SYNCHRONIZED, HEADER_LEN, KEEPALIVE,
    LEAST_NOTIFICATION, LEAST_OPEN, LEAST_UPDATE, MESSAGE_HEADER_ERROR, MESSAGE_LIMIT,
    NOTIFICATION, OPEN, UPDATE,
};
use marker_lanes::is_marker;
use std::alloc::Global;

// Whether a message of this type may have this length.
fn fits_kind(kind: u8, len: usize) -> bool
    ensures { result ≡ length_fits kind len }
{
    match kind {
        OPEN => len >= LEAST_OPEN,
        UPDATE => len >= LEAST_UPDATE,
        NOTIFICATION => len >= LEAST_NOTIFICATION,
        _ => len == HEADER_LEN,
    }
}

fn is_message_len(len: usize) -> bool
    ensures { result ≡ is_message_len len }
{
    HEADER_LEN <= len && len <= MESSAGE_LIMIT
}

fn is_kind(kind: u8) -> bool
    ensures { result ≡ is_kind kind }
{
    OPEN <= kind && kind <= KEEPALIVE
}

fn begins_with_marker(octets: &[u8; HEADER_LEN]) -> bool
    ensures { result ≡ begins_with_marker octets.now }
{
    let marker: &[u8; 16] = octets.first_chunk().unwrap();
    is_marker(marker)
}

/// The header of a message, or the first of its checks that fails: Marker, Length, Type, and that
/// the length fits the type. It takes no memory.
#[tactic(auto, unfolding(crate::specs::Header::header_fault))]
pub fn header(alloc: Global, octets: &[u8; HEADER_LEN]) -> Result<Header, Fault>
    ensures good { IfOk result
        (λ header. (header_fault octets.now ≡ None)
        × (header.len ≡ length_field octets.now)
        × (header.kind ≡ kind_field octets.now)) }
    ensures fault { IfErr result (λ fault. header_fault octets.now ≡ Some fault) }
{
    let (high, low, kind) = (octets[16], octets[17], octets[18]);
    let length = u16::from_be_bytes([high, low]);
    let len = usize::from(length);
    if !begins_with_marker(octets) {
        return Err(Fault {
            code: MESSAGE_HEADER_ERROR,
            sub: CONNECTION_NOT_SYNCHRONIZED,
            extra: Octets::short(alloc, &[]),
        });
    }
    if !is_message_len(len) {
        return Err(Fault {
            code: MESSAGE_HEADER_ERROR,
            sub: BAD_MESSAGE_LENGTH,
            extra: Octets::short(alloc, &[high, low]),
        });
    }
    if !is_kind(kind) {
        return Err(Fault {
            code: MESSAGE_HEADER_ERROR,
            sub: BAD_MESSAGE_TYPE,
            extra: Octets::short(alloc, &[kind]),
        });
    }
    if !fits_kind(kind, len) {
        return Err(Fault {
            code: MESSAGE_HEADER_ERROR,
            sub: BAD_MESSAGE_LENGTH,
            extra: Octets::short(alloc, &[high, low]),
        });
    }
    Ok(Header { len: length, kind })
}
