//! The attributes of a path (RFC 4271 sections 4.3 and 5), and the table of those that are known:
//! their flags and the sizes of their values.

ghost use Rattle.std.specs.Prelude.{◌≡◌};
ghost use Rattle.bgp_codec.specs.UpdateReading.{no_attrs};
ghost use Rattle.bgp_codec.specs.AttrTable.{high_flags, is_known, flags_of, is_partial, flags_fit, size_fits};

use crate::items::Items;
use crate::numbers::asn_size;
use crate::octets::Octets;
use crate::path::Segment;
use crate::rule::Asn;
use bgp_values::{
    AGGREGATOR, AS_PATH, ATOMIC_AGGREGATE, MULTI_EXIT_DISC, OPTIONAL, ORIGIN, PARTIAL, TRANSITIVE,
    Width,
};
use std::alloc::Global;

/// Who aggregated routes (RFC 4271 section 5.1.7).
#[derive(Clone, Copy, Debug, PartialEq, Eq)]
pub struct Aggregator {
    /// Its number.
    pub asn: Asn,
    /// Its address.
    pub addr: u32,
    /// Whether a speaker on the way did not know the attribute: the flag Partial.
    pub partial: bool,
}

/// An optional attribute that is not recognised.
#[derive(Debug, Drop)]
pub struct Raw {
    /// Its three high flags: Optional, Transitive, Partial; the other bits are zero.
    pub flags: u8,
    /// Its code, 0 or above 7.
    pub code: u8,
    /// Its value.
    pub value: Octets,
}

/// The attributes of an UPDATE (RFC 4271 section 5).
#[derive(Debug, Drop)]
pub struct Attrs {
    /// ORIGIN, code 1: 0 is IGP, 1 EGP, 2 INCOMPLETE.
    pub origin: Option<u8>,
    /// AS_PATH, code 2: the segments, the nearest first.
    pub path: Option<Items<Segment>>,
    /// NEXT_HOP, code 3: an address whose first octet is 1 to 223.
    pub next_hop: Option<u32>,
    /// MULTI_EXIT_DISC, code 4.
    pub med: Option<u32>,
    /// LOCAL_PREF, code 5. It is not sent to external peers; here it is kept and has no effect.
    pub local_pref: Option<u32>,
    /// Whether ATOMIC_AGGREGATE, code 6, is there.
    pub atomic: bool,
    /// AGGREGATOR, code 7.
    pub aggregator: Option<Aggregator>,
    /// The optional attributes that are not recognised, in rising order of code.
    pub other: Items<Raw>,
}

impl Attrs {
    /// No attribute. It takes no memory.
    pub fn none(alloc: Global) -> Attrs
        ensures { result ≡ no_attrs }
    {
        Attrs {
            origin: None,
            path: None,
            next_hop: None,
            med: None,
            local_pref: None,
            atomic: false,
            aggregator: None,
            other: Items::new(alloc),
        }
    }
}

// ---- the table

pub(crate) fn is_known(code: u8) -> bool
    ensures { result ≡ is_known code }
{
    ORIGIN <= code && code <= AGGREGATOR
}

// The three high flags of an octet of flags: Optional, Transitive, and Partial, the lowest of them.
pub(crate) fn high_flags(flags: u8) -> u8
    ensures { result ≡ high_flags flags }
{
    flags / PARTIAL * PARTIAL
}

// The high flags of a known attribute that is not partial.
pub(crate) fn flags_of(code: u8) -> u8
    ensures { result ≡ flags_of code }
{
    match code {
        MULTI_EXIT_DISC => OPTIONAL,
        AGGREGATOR => OPTIONAL + TRANSITIVE,
        _ => TRANSITIVE,
    }
}

// Whether these are the flags of a partial AGGREGATOR: a speaker that did not know it passed it on.
pub(crate) fn is_partial(flags: u8) -> bool
    ensures { result ≡ is_partial flags }
{
    high_flags(flags) == OPTIONAL + TRANSITIVE + PARTIAL
}

// Whether a known attribute may have these flags.
pub(crate) fn flags_fit(code: u8, flags: u8) -> bool
    ensures { result ≡ flags_fit code flags }
{
    high_flags(flags) == flags_of(code) || (code == AGGREGATOR && is_partial(flags))
}

// Whether the value of a known attribute may have so many octets: an address and a number have
// four, AGGREGATOR has an AS number and an address.
pub(crate) fn size_fits(width: Width, code: u8, size: usize) -> bool
    ensures { result ≡ size_fits width code size }
{
    match code {
        ORIGIN => size == 1,
        AS_PATH => true,
        ATOMIC_AGGREGATE => size == 0,
        AGGREGATOR => size == asn_size(width) + 4,
        _ => size == 4,
    }
}
