//! Faults in words.

ghost use Rattle.std.specs.Prelude.{◌≡◌};
ghost use Rattle.std.specs.Option.{option_copied};
ghost use Rattle.error_words.specs.Faults.{is_hex_message, fault_of};

use crate::tables::found_in;

// The octets of a Marker in hex.
const MARKER: [u8; 32] = [b'f'; 32];

// The hex of each code with its subcode, and what they mean.
#[rattlefmt::skip]
static FAULTS: [(&[u8], &[u8]); 18] = [
    (b"0101", b"fault 1 1: Connection Not Synchronized (RFC 4271 section 6.1)"),
    (b"0102", b"fault 1 2: Bad Message Length (RFC 4271 section 6.1)"),
    (b"0103", b"fault 1 3: Bad Message Type (RFC 4271 section 6.1)"),
    (b"0200", b"fault 2 0: optional parameters that are malformed (RFC 4271 section 6.2)"),
    (b"0201", b"fault 2 1: Unsupported Version Number (RFC 4271 section 6.2)"),
    (b"0202", b"fault 2 2: Bad Peer AS (RFC 4271 section 6.2)"),
    (b"0203", b"fault 2 3: Bad BGP Identifier (RFC 4271 section 6.2)"),
    (b"0204", b"fault 2 4: Unsupported Optional Parameter (RFC 4271 section 6.2)"),
    (b"0206", b"fault 2 6: Unacceptable Hold Time (RFC 4271 section 6.2)"),
    (b"0301", b"fault 3 1: Malformed Attribute List (RFC 4271 section 6.3)"),
    (b"0302", b"fault 3 2: Unrecognized Well-known Attribute (RFC 4271 section 6.3)"),
    (b"0303", b"fault 3 3: Missing Well-known Attribute (RFC 4271 section 6.3)"),
    (b"0304", b"fault 3 4: Attribute Flags Error (RFC 4271 section 6.3)"),
    (b"0305", b"fault 3 5: Attribute Length Error (RFC 4271 section 6.3)"),
    (b"0306", b"fault 3 6: Invalid ORIGIN Attribute (RFC 4271 section 6.3)"),
    (b"0308", b"fault 3 8: Invalid NEXT_HOP Attribute (RFC 4271 section 6.3)"),
    (b"030a", b"fault 3 10: Invalid Network Field (RFC 4271 section 6.3)"),
    (b"030b", b"fault 3 11: Malformed AS_PATH (RFC 4271 section 6.3)"),
];

fn is_hex_message(last: &[u8]) -> bool
    ensures { result ≡ is_hex_message last.now }
{
    last.starts_with(&MARKER) && last.len() >= 42
}

/// The fault that a NOTIFICATION in hex tells, in words.
pub(crate) fn fault_of(last: &[u8]) -> Option<&'static [u8]>
    ensures { option_copied result ≡ fault_of last.now }
{
    if !is_hex_message(last) {
        return None;
    }
    let (_, behind) = last.split_at(38);
    let (code, _) = behind.split_at(4);
    found_in(&FAULTS, code)
}
