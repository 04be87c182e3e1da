//! AS_PATH (RFC 4271 sections 4.3 and 5.1.2): its segments, their reader and their writer.

ghost use Rattle.std.specs.Prelude.{ℕ, ◌≡◌, ◌+◌, ◌*◌, ◌-◌, ◌^◌, ◌≤◌, ◌<◌, ◌++◌, ◌↔◌, IsTrue, None, Ok, Err, IsOk, IfSome, IfOk, IfErr, length, min, vec_len, vec_capacity};
ghost use Rattle.std.specs.List.{flat_map, AllByRecursion};
ghost use Rattle.bgp_codec.specs.Reading.{Gives, IsNoWant};
ghost use Rattle.bgp_codec.specs.Updates.{segment_code, path_octets, SegmentFits, begins_with};
ghost use Rattle.bgp_codec.specs.UpdateReading.{update_fault, segment_at, segment_with, path_reading};
ghost use Rattle.bgp_values.specs.declared.faults.TheConstants.{MALFORMED_AS_PATH};
ghost use Rattle.bgp_codec.specs.AsNumbers.{asn_size, asn_octets, AsnFits, AreNumbers, numbers_of};

use crate::fault::{CodecError, update_fault};
use crate::items::Items;
use crate::numbers::{asn_size, count_values};
use crate::rule::Asn;
use bgp_values::{AS_SEQUENCE, AS_SET, MALFORMED_AS_PATH, Width, greatest_asn};
use smallvec::SmallVec;
use std::alloc::{AllocError, Global};
use std::marker::Model;

/// How the numbers of a segment stand to each other.
#[derive(Clone, Copy, Debug, PartialEq, Eq)]
pub enum SegmentKind {
    /// AS_SET, type 1: in no order.
    AsSet,
    /// AS_SEQUENCE, type 2: the nearest first.
    AsSequence,
}

/// The numbers of a segment. Up to eight stand in the value itself and take no memory.
#[derive(Debug, Drop)]
pub struct Numbers {
    numbers: SmallVec<Asn, 8>,
}

impl Model for Numbers {
    ghost use Rattle.std.specs.Prelude.{List, ℕ};

    ghost Value = { List ℕ };

    ghost view = { λ list. list.numbers.items };
}

impl Numbers {
    /// A copy of the numbers. It is refused only for want of memory, and never for eight or fewer.
    pub fn from_slice(alloc: Global, numbers: &[Asn]) -> Result<Numbers, AllocError>
        ensures ok { IfOk result (λ list. list ≡ numbers.now) }
        ensures short { length numbers.now ≤ 8 → IsOk result }
    {
        Ok(Numbers {
            numbers: SmallVec::from_slice(alloc, numbers)?,
        })
    }

    /// The numbers of a `Vec`, which it keeps. It takes no memory.
    pub fn from_vec(numbers: Vec<Asn>) -> Numbers
        ensures { result ≡ numbers.items }
    {
        Numbers {
            numbers: SmallVec::from_vec(numbers),
        }
    }

    /// The numbers.
    pub fn as_slice(&self) -> &[Asn]
        ensures { result.now ≡ self.now }
    {
        self.numbers.as_slice()
    }
}

/// A part of a path.
#[derive(Debug, Drop)]
pub struct Segment {
    /// Whether the numbers are a set or a sequence.
    pub kind: SegmentKind,
    /// The numbers, 1 to 255 of them in a message.
    pub numbers: Numbers,
}

/// Reads AS numbers of this width, as [`put_numbers`] appends them. Refused only for want of
/// memory, and never for eight numbers or fewer.
pub fn read_numbers(alloc: Global, width: Width, octets: &[u8]) -> Result<Numbers, AllocError>
    ensures short { length octets.now ≤ asn_size width * 8 → IsOk result }
    ensures numbers { IfOk result (λ numbers. numbers ≡ numbers_of width octets.now) }
    ensures whole { (count : ℕ) → length octets.now ≡ asn_size width * count → AreNumbers width count octets.now }
{
    let mut numbers = SmallVec::new(alloc);
    numbers.reserve(octets.len() / asn_size(width))?;
    let mut left = octets;
    match width {
        Width::Two => {
            'two: while let [high, low, rest @ ..] = left {
                numbers.push(Asn::from(u16::from_be_bytes([*high, *low])))?;
                left = rest;
            }
        }
        Width::Four => {
            'four: while let [a, b, c, d, rest @ ..] = left {
                numbers.push(u32::from_be_bytes([*a, *b, *c, *d]))?;
                left = rest;
            }
        }
    }
    Ok(Numbers { numbers })
}

// The kind of the segment in front, the octets of its numbers, and what follows it, if it is good.
pub(crate) fn first_segment(width: Width, octets: &[u8]) -> Option<(SegmentKind, &[u8], &[u8])>
    ensures some { IfSome result
        (λ first. segment_at width octets.now ≡ Ok (segment_with width first.0 first.1.now, first.2.now)) }
    ensures none { result ≡ None → segment_at width octets.now ≡ Err (update_fault MALFORMED_AS_PATH) }
{
    match octets {
        [] | [_] => None,
        [code, count, rest @ ..] => {
            let (code, size) = (*code, asn_size(width) * *count as usize);
            if !(code == AS_SET || code == AS_SEQUENCE) || *count == 0 || rest.len() < size {
                return None;
            }
            let (numbers, rest) = rest.split_at(size);
            let kind = if code == AS_SET {
                SegmentKind::AsSet
            } else {
                SegmentKind::AsSequence
            };
            Some((kind, numbers, rest))
        }
    }
}

// The kind of the segment in front, the octets of its numbers, and what follows it. It takes no memory.
pub(crate) fn segment_parts(
    alloc: Global,
    width: Width,
    octets: &[u8],
) -> Result<(SegmentKind, &[u8], &[u8]), CodecError>
    ensures gives { Gives (λ read. (segment_with width read.0 read.1.now, read.2.now)) result
        (segment_at width octets.now) }
    ensures memory { IfErr result IsNoWant }
{
    match first_segment(width, octets) {
        Some(first) => Ok(first),
        None => Err(update_fault(alloc, MALFORMED_AS_PATH)),
    }
}

// The segment in front, and what follows it.
fn read_segment(alloc: Global, width: Width, octets: &[u8]) -> Result<(Segment, &[u8]), CodecError>
    ensures { Gives (λ read. (read.0, read.1.now)) result (segment_at width octets.now) }
{
    let (kind, numbers, rest) = segment_parts(alloc, width, octets)?;
    let numbers = read_numbers(alloc, width, numbers)?;
    Ok((Segment { kind, numbers }, rest))
}

// The segments that a path consists of.
pub(crate) fn read_path(
    alloc: Global,
    width: Width,
    octets: &[u8],
) -> Result<Items<Segment>, CodecError>
    ensures { Gives (λ path. path) result (path_reading width octets.now) }
{
    let mut segments = Items::with_room(alloc, count_values(octets, asn_size(width)))?;
    let mut left = octets;
    'segments: while !left.is_empty() {
        let (segment, rest) = read_segment(alloc, width, left)?;
        segments.push(alloc, segment)?;
        left = rest;
    }
    Ok(segments)
}

// Whether this is the first number of a path, in whatever segment.
pub(crate) fn begins_with(path: &[Segment], asn: Asn) -> bool
    ensures { result ≡ begins_with asn (flat_map (λ s. s.numbers) path.now) }
{
    for segment in path {
        if let [first, ..] = segment.numbers.as_slice() {
            return *first == asn;
        }
    }
    false
}

// Whether each number fits the width.
fn numbers_fit(width: Width, numbers: &[Asn]) -> bool
    ensures { IsTrue result ↔ AllByRecursion (AsnFits width) numbers.now }
{
    for number in numbers {
        if *number > greatest_asn(width) {
            return false;
        }
    }
    true
}

// Whether each segment has 1 to 255 numbers, each of which fits the width.
pub(crate) fn path_fits(width: Width, path: &[Segment]) -> bool
    ensures { IsTrue result ↔ AllByRecursion (SegmentFits width) path.now }
{
    for segment in path {
        let numbers = segment.numbers.as_slice();
        if numbers.is_empty() || numbers.len() > 255 || !numbers_fit(width, numbers) {
            return false;
        }
    }
    true
}

// How many octets a path has as it is written. The sum stops at `usize::MAX`.
pub(crate) fn path_len(width: Width, path: &[Segment]) -> usize
    ensures { result ≡ min (2 ^ 64 - 1) (length (path_octets width path.now)) }
{
    let size = asn_size(width);
    let mut len = 0usize;
    for segment in path {
        let count = segment.numbers.as_slice().len();
        len = len
            .saturating_add(2)
            .saturating_add(size.saturating_mul(count));
    }
    len
}

// Appends an AS number, for which there is room.
pub(crate) fn put_asn(out: &mut Vec<u8>, width: Width, asn: Asn)
    requires fit { AsnFits width asn }
    requires room { vec_len out.old + asn_size width ≤ vec_capacity out.old }
    ensures items { out.new.items ≡ out.old.items ++ asn_octets width asn }
    ensures len { vec_len out.new ≡ vec_len out.old + asn_size width }
    ensures capacity { vec_capacity out.old ≤ vec_capacity out.new }
{
    match width {
        Width::Two => {
            let [high, low] = (asn as u16).to_be_bytes();
            out.push_reserved(high);
            out.push_reserved(low);
        }
        Width::Four => out.extend_from_slice(&asn.to_be_bytes()).unwrap(),
    }
}

/// Appends AS numbers, for which there is room.
pub fn put_numbers(out: &mut Vec<u8>, width: Width, numbers: &[Asn])
    requires fit { AllByRecursion (AsnFits width) numbers.now }
    requires room { vec_len out.old + length (flat_map (asn_octets width) numbers.now) ≤ vec_capacity out.old }
    ensures items { out.new.items ≡ out.old.items ++ flat_map (asn_octets width) numbers.now }
    ensures capacity { vec_capacity out.old ≤ vec_capacity out.new }
{
    for number in numbers {
        put_asn(out, width, *number);
    }
}

// The type of a segment.
fn segment_code(kind: SegmentKind) -> u8
    ensures { result ≡ segment_code kind }
{
    match kind {
        SegmentKind::AsSet => AS_SET,
        SegmentKind::AsSequence => AS_SEQUENCE,
    }
}

// Appends the segments of a path, for which there is room.
pub(crate) fn put_path(out: &mut Vec<u8>, width: Width, path: &[Segment])
    requires fit { AllByRecursion (SegmentFits width) path.now }
    requires room { vec_len out.old + length (path_octets width path.now) ≤ vec_capacity out.old }
    ensures items { out.new.items ≡ out.old.items ++ path_octets width path.now }
    ensures capacity { vec_capacity out.old ≤ vec_capacity out.new }
{
    for segment in path {
        let numbers = segment.numbers.as_slice();
        out.push_reserved(segment_code(segment.kind));
        out.push_reserved(numbers.len() as u8);
        put_numbers(out, width, numbers);
    }
}
