//! The parts of an UPDATE where its octets have them: read one after the other, without memory.

ghost use Rattle.std.specs.Prelude.{◌≡◌, ◌≤◌, ◌*◌, length};
ghost use Rattle.bgp_codec.specs.Parts.{TakesFirst, TakesSegment, path_items};

use crate::numbers::asn_size;
use crate::path::{SegmentKind, first_segment};
use crate::prefixes::first_prefix;
use crate::rule::Asn;
use bgp_values::Width;
use prefix_lanes::Prefix;
use std::marker::Model;

/// Prefixes where their octets stand (RFC 4271 section 4.3): the list of them.
#[derive(Drop)]
pub struct PrefixOctets<'a> {
    // How many there are.
    pub(crate) count: usize,
    pub(crate) octets: &'a [u8],
}

impl<'a> Model for PrefixOctets<'a> {
    ghost use Rattle.std.specs.Prelude.{List};
    ghost use Rattle.prefix_lanes.specs.Bits.{PrefixView};
    ghost use Rattle.bgp_codec.specs.UpdateReading.{prefixes_reading};
    ghost use Rattle.bgp_codec.specs.Parts.{values_of, ReadsAs};

    ghost Value = { List PrefixView };

    ghost view = { λ p. values_of (prefixes_reading p.octets.now) };

    ghost invariant = { λ p. ReadsAs p.octets.now p.count };
}

impl<'a> PrefixOctets<'a> {
    /// How many there are.
    pub fn len(&self) -> usize
        ensures { result ≡ length self.now }
    {
        self.count
    }

    /// Takes the first.
    pub fn next(&mut self) -> Option<Prefix>
        ensures { TakesFirst self.old result self.new }
    {
        let octets = self.octets;
        match first_prefix(octets) {
            None => None,
            Some(first) => {
                self.octets = first.1;
                self.count -= 1;
                Some(first.0)
            }
        }
    }
}

/// The numbers of a segment where their octets stand: the list of them.
#[derive(Drop)]
pub struct NumberOctets<'a> {
    pub(crate) width: Width,
    pub(crate) octets: &'a [u8],
}

impl<'a> Model for NumberOctets<'a> {
    ghost use Rattle.std.specs.Prelude.{List, ℕ};
    ghost use Rattle.bgp_codec.specs.AsNumbers.{numbers_of};

    ghost Value = { List ℕ };

    ghost view = { λ n. numbers_of n.width n.octets.now };
}

impl<'a> NumberOctets<'a> {
    /// Takes the first.
    pub fn next(&mut self) -> Option<Asn>
        ensures { TakesFirst self.old result self.new }
    {
        let octets = self.octets;
        match (self.width, octets) {
            (Width::Two, [a, b, rest @ ..]) => {
                self.octets = rest;
                Some(Asn::from(u16::from_be_bytes([*a, *b])))
            }
            (Width::Four, [a, b, c, d, rest @ ..]) => {
                self.octets = rest;
                Some(u32::from_be_bytes([*a, *b, *c, *d]))
            }
            _ => None,
        }
    }
}

/// An AS_PATH where its octets stand (RFC 4271 section 4.3): the list of its segments.
#[derive(Drop)]
pub struct PathOctets<'a> {
    pub(crate) width: Width,
    pub(crate) octets: &'a [u8],
}

impl<'a> Model for PathOctets<'a> {
    ghost use Rattle.std.specs.Prelude.{List};
    ghost use Rattle.bgp_codec.specs.declared.path.Segment.{Segment};
    ghost use Rattle.bgp_codec.specs.UpdateReading.{path_reading};
    ghost use Rattle.bgp_codec.specs.Parts.{values_of, ReadsAsPath};

    ghost Value = { List Segment };

    ghost view = { λ p. values_of (path_reading p.width p.octets.now) };

    ghost invariant = { λ p. ReadsAsPath p.width p.octets.now };
}

impl<'a> PathOctets<'a> {
    /// No fewer than the segments and the numbers in them.
    pub fn most_items(&self) -> usize
        ensures { path_items self.now ≤ result }
    {
        self.octets.len() / 2
    }

    /// Takes the first segment: its kind and its numbers.
    pub fn next(&mut self) -> Option<(SegmentKind, NumberOctets<'a>)>
        ensures { TakesSegment self.old result self.new }
    {
        let (width, octets) = (self.width, self.octets);
        match first_segment(width, octets) {
            None => None,
            Some((kind, octets, rest)) => {
                self.octets = rest;
                Some((kind, NumberOctets { width, octets }))
            }
        }
    }
}

/// What an UPDATE without a fault withdraws and announces, where its octets have it.
#[derive(Drop)]
pub struct UpdateParts<'a> {
    /// The prefixes that are no longer reached.
    pub withdrawn: PrefixOctets<'a>,
    /// AS_PATH, if it is there.
    pub path: Option<PathOctets<'a>>,
    /// NEXT_HOP, if it is there.
    pub next_hop: Option<u32>,
    /// The announced prefixes.
    pub nlri: PrefixOctets<'a>,
}
