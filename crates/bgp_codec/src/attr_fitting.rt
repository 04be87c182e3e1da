//! The values that attributes may have in a message that is written: those that a reader accepts.

ghost use Rattle.std.specs.Prelude.{◌≡◌, true, IfSome, ◌^◌, ◌≤◌, ◌<◌, ◌↔◌, IsTrue};
ghost use Rattle.std.specs.List.{AllByRecursion};
ghost use Rattle.bgp_values.specs.declared.attributes.TheConstants.{INCOMPLETE};
ghost use Rattle.bgp_values.specs.Ranges.{is_unicast};
ghost use Rattle.bgp_codec.specs.AsNumbers.{AsnFits};
ghost use Rattle.bgp_codec.specs.Updates.{SegmentFits, RawFits, IsRising, AttrsFit};

use crate::attributes::{Aggregator, Attrs, Raw, high_flags, is_known};
use crate::items::Items;
use crate::path::{Segment, path_fits};
use bgp_values::{INCOMPLETE, OPTIONAL, Width, greatest_asn, is_unicast};

// Whether these are attributes that the table does not know, with Optional and no low flag.
fn raws_fit(raws: &[Raw]) -> bool
    ensures { IsTrue result ↔ AllByRecursion RawFits raws.now }
{
    for raw in raws {
        if is_known(raw.code) || raw.flags < OPTIONAL || high_flags(raw.flags) != raw.flags {
            return false;
        }
    }
    true
}

// Whether the attributes stand in rising order of code.
fn is_rising(raws: &[Raw]) -> bool
    ensures { IsTrue result ↔ IsRising raws.now }
{
    let mut left = raws;
    'raws: while let [raw, rest @ ..] = left {
        if let [next, ..] = rest {
            if raw.code >= next.code {
                return false;
            }
        }
        left = rest;
    }
    true
}

// Whether an ORIGIN, if any, has a value that a reader accepts.
fn origin_fits(origin: Option<u8>) -> bool
    ensures { IsTrue result ↔ IfSome origin (λ o. o ≤ INCOMPLETE) }
{
    match origin {
        None => true,
        Some(origin) => origin <= INCOMPLETE,
    }
}

// Whether a NEXT_HOP, if any, has a value that a reader accepts.
fn next_hop_fits(next_hop: Option<u32>) -> bool
    ensures { IsTrue result ↔ IfSome next_hop (λ n. (n < 2 ^ 32) × (is_unicast n ≡ true)) }
{
    match next_hop {
        None => true,
        Some(address) => is_unicast(address),
    }
}

// Shows that a number, if any, fits four octets.
fn is_four_octets(_number: Option<u32>)
    ensures { IfSome _number (λ n. n < 2 ^ 32) }
{}

// Whether an AGGREGATOR, if any, has a value that a reader accepts.
fn aggregator_fits(width: Width, aggregator: Option<Aggregator>) -> bool
    ensures { IsTrue result ↔ IfSome aggregator (λ g. AsnFits width g.asn × (g.addr < 2 ^ 32)) }
{
    match aggregator {
        None => true,
        Some(by) => by.asn <= greatest_asn(width),
    }
}

// Whether an AS_PATH, if any, has a value that a reader accepts.
fn as_path_fits(width: Width, path: &Option<Items<Segment>>) -> bool
    ensures { IsTrue result ↔ IfSome path.now (AllByRecursion (SegmentFits width)) }
{
    match path {
        None => true,
        Some(path) => path_fits(width, path.as_slice()),
    }
}

// Whether each attribute has a value that a reader accepts.
pub(crate) fn attrs_fit(width: Width, attrs: &Attrs) -> bool
    ensures { IsTrue result ↔ AttrsFit width attrs.now }
{
    is_four_octets(attrs.med);
    is_four_octets(attrs.local_pref);
    let raws = attrs.other.as_slice();
    origin_fits(attrs.origin)
        && as_path_fits(width, &attrs.path)
        && next_hop_fits(attrs.next_hop)
        && aggregator_fits(width, attrs.aggregator)
        && raws_fit(raws)
        && is_rising(raws)
}
