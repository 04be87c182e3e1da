//! The ranges of what a speaker says of itself in an OPEN (RFC 4271 section 4.2).

ghost use Rattle.std.specs.Prelude.{◌≡◌, ◌↔◌, IsTrue};
ghost use Rattle.bgp_values.specs.Ranges.{is_asn, IsAsn, is_hold_time, IsHoldTime, is_unicast, IsUnicast};

use crate::width::{Width, greatest_asn};

/// The least hold time other than none, in seconds (section 4.2).
pub const LEAST_HOLD: u16 = 3;

/// The least first octet of a host's address: the least unicast address is 1.0.0.0.
pub const FIRST_UNICAST: u32 = 1;

/// The greatest first octet of a host's address: multicast addresses begin with 224.
pub const LAST_UNICAST: u32 = 223;

/// Whether a speaker can have this AS number: it is not 0 (RFC 7607), and at most [`greatest_asn`] of the width.
pub fn is_asn(width: Width, asn: u64) -> bool
    ensures test { result ≡ is_asn width asn }
    ensures means { IsTrue result ↔ IsAsn width asn }
{
    1 <= asn && asn <= u64::from(greatest_asn(width))
}

/// Whether an OPEN can propose this hold time, in seconds: 0, which is none, or at least [`LEAST_HOLD`].
pub fn is_hold_time(hold: u16) -> bool
    ensures test { result ≡ is_hold_time hold }
    ensures means { IsTrue result ↔ IsHoldTime hold }
{
    hold == 0 || hold >= LEAST_HOLD
}

/// Whether an address is that of a host, as an identifier and a next hop have to be: its first octet is
/// [`FIRST_UNICAST`] to [`LAST_UNICAST`].
pub fn is_unicast(address: u32) -> bool
    ensures test { result ≡ is_unicast address }
    ensures means { IsTrue result ↔ IsUnicast address }
{
    let first = address / 0x0100_0000;
    FIRST_UNICAST <= first && first <= LAST_UNICAST
}
