//! The writer of attributes (RFC 4271 section 4.3): in rising order of code, in the one form that is written.

ghost use Rattle.std.specs.Prelude.{◌≡◌, if◌then◌else◌, ℕ, List, Some, None, IfSome, nat_le, ◌+◌, ◌-◌, ◌^◌, ◌≤◌, ◌<◌, ◌++◌, ◌∷◌, [], filter, length, min, vec_len, vec_capacity};
ghost use Rattle.std.specs.Option.{option_map};
ghost use Rattle.std.specs.Int.{w32, to_be_bytes};
ghost use Rattle.std.specs.List.{flat_map, AllByRecursion};
ghost use Rattle.bgp_codec.specs.AttrTable.{flags_of};
ghost use Rattle.bgp_values.specs.declared.attributes.TheConstants.{ORIGIN, AS_PATH, ATOMIC_AGGREGATE, TRANSITIVE, OPTIONAL, PARTIAL};
ghost use Rattle.bgp_codec.specs.AsNumbers.{AsnFits};
ghost use Rattle.bgp_codec.specs.Updates.{SegmentFits, RawFits, AttrsFit, stands, given, raw_of, path_octets, aggregator_raw, raw_octets, attrs_octets};
ghost use Rattle.bgp_codec.specs.declared.attributes.Raw.{Raw};

use crate::attributes::{Aggregator, Attrs, Raw, flags_of};
use crate::items::Items;
use crate::numbers::asn_size;
use crate::path::{Segment, path_len, put_asn, put_path};
use bgp_values::{
    AGGREGATOR, AS_PATH, ATOMIC_AGGREGATE, EXTENDED, LOCAL_PREF, MULTI_EXIT_DISC, NEXT_HOP, ORIGIN,
    PARTIAL, Width,
};

// How many octets an attribute has as it is written, with a value of `size` octets. The sum stops at `usize::MAX`.
fn attr_len(size: usize) -> usize
    ensures { result ≡ min (2 ^ 64 - 1) ((if nat_le 256 size then 4 else 3) + size) }
{
    let head = if size >= 256 { 4usize } else { 3 };
    head.saturating_add(size)
}

// The octets of an attribute that may be absent: `len` if it is there, else 0.
fn given_len(is_there: bool, len: usize) -> usize
    ensures { result ≡ (if is_there then len else 0) }
{
    if is_there { len } else { 0 }
}

// Whether an unknown code stands below all known ones, or above them.
fn stands(before: bool, code: u8) -> bool
    ensures { (r : Raw) → r.code ≡ code → result ≡ stands before r }
{
    if before { code == 0 } else { code != 0 }
}

// How many octets the unknown attributes have that stand below the known ones, or above them. The
// sum stops at `usize::MAX`.
fn raws_len(raws: &[Raw], before: bool) -> usize
    ensures { result ≡ min (2 ^ 64 - 1) (length (flat_map raw_octets (filter (stands before) raws.now))) }
{
    let mut len = 0usize;
    for raw in raws {
        if stands(before, raw.code) {
            len = len.saturating_add(attr_len(raw.value.len()));
        }
    }
    len
}

// How many octets the path has as an attribute. The sum stops at `usize::MAX`.
fn path_attr_len(width: Width, path: &Option<Items<Segment>>) -> usize
    ensures { result
        ≡ min (2 ^ 64 - 1)
        (length (flat_map raw_octets (given TRANSITIVE AS_PATH (option_map (path_octets width) path.now)))) }
{
    match path {
        None => 0,
        Some(path) => attr_len(path_len(width, path.as_slice())),
    }
}

// How many octets the attributes have as they are written. The sum stops at `usize::MAX`.
pub(crate) fn attrs_len(width: Width, attrs: &Attrs) -> usize
    ensures { result ≡ min (2 ^ 64 - 1) (length (attrs_octets width attrs.now)) }
{
    let raws = attrs.other.as_slice();
    let fixed = given_len(attrs.origin.is_some(), 4)
        + given_len(attrs.next_hop.is_some(), 7)
        + given_len(attrs.med.is_some(), 7)
        + given_len(attrs.local_pref.is_some(), 7)
        + given_len(attrs.atomic, 3)
        + given_len(attrs.aggregator.is_some(), 7 + asn_size(width));
    raws_len(raws, true)
        .saturating_add(fixed)
        .saturating_add(path_attr_len(width, &attrs.path))
        .saturating_add(raws_len(raws, false))
}

// Appends the flags, code and length of an attribute whose value has `size` octets: Extended Length
// for 256 or more. The vector has room for them.
fn put_head(out: &mut Vec<u8>, flags: u8, code: u8, size: usize)
    requires flags { flags ≤ OPTIONAL + TRANSITIVE + PARTIAL }
    requires size { size < 2 ^ 16 }
    requires room { vec_len out.old + (if nat_le 256 size then 4 else 3) ≤ vec_capacity out.old }
    ensures items { (value : List ℕ) → length value ≡ size
        → out.new.items ++ value ≡ out.old.items ++ raw_octets (raw_of flags code value) }
    ensures len { vec_len out.new ≡ vec_len out.old + (if nat_le 256 size then 4 else 3) }
    ensures capacity { vec_capacity out.old ≤ vec_capacity out.new }
{
    let [high, low] = (size as u16).to_be_bytes();
    if size >= 256 {
        out.push_reserved(flags + EXTENDED);
        out.push_reserved(code);
        out.push_reserved(high);
        out.push_reserved(low);
    } else {
        out.push_reserved(flags);
        out.push_reserved(code);
        out.push_reserved(low);
    }
}

// Appends an attribute, for which there is room.
fn put_attr(out: &mut Vec<u8>, flags: u8, code: u8, value: &[u8])
    requires flags { flags ≤ OPTIONAL + TRANSITIVE + PARTIAL }
    requires size { length value.now < 2 ^ 16 }
    requires room { vec_len out.old + length (raw_octets (raw_of flags code value.now)) ≤ vec_capacity out.old }
    ensures items { out.new.items ≡ out.old.items ++ raw_octets (raw_of flags code value.now) }
    ensures capacity { vec_capacity out.old ≤ vec_capacity out.new }
{
    put_head(out, flags, code, value.len());
    out.extend_from_slice(value).unwrap();
}

// Appends the unknown attributes below the known ones, or those above them, for which there is room.
fn put_raws(out: &mut Vec<u8>, raws: &[Raw], before: bool)
    requires fit { AllByRecursion RawFits raws.now }
    requires size { length (flat_map raw_octets (filter (stands before) raws.now)) < 2 ^ 16 }
    requires room { vec_len out.old + length (flat_map raw_octets (filter (stands before) raws.now))
        ≤ vec_capacity out.old }
    ensures items { out.new.items ≡ out.old.items ++ flat_map raw_octets (filter (stands before) raws.now) }
    ensures capacity { vec_capacity out.old ≤ vec_capacity out.new }
{
    for raw in raws {
        if stands(before, raw.code) {
            put_attr(out, raw.flags, raw.code, raw.value.as_slice());
        }
    }
}

// Appends ORIGIN, if any. The vector has room for it.
fn put_origin(out: &mut Vec<u8>, origin: Option<u8>)
    requires room { vec_len out.old
        + length (flat_map raw_octets (given TRANSITIVE ORIGIN (option_map (λ o. o ∷ []) origin)))
        ≤ vec_capacity out.old }
    ensures items { out.new.items
        ≡ out.old.items ++ flat_map raw_octets (given TRANSITIVE ORIGIN (option_map (λ o. o ∷ []) origin)) }
    ensures capacity { vec_capacity out.old ≤ vec_capacity out.new }
{
    if let Some(origin) = origin {
        put_attr(out, flags_of(ORIGIN), ORIGIN, &[origin]);
    }
}

// Appends AS_PATH, if any. The vector has room for it.
fn put_path_attr(out: &mut Vec<u8>, width: Width, path: &Option<Items<Segment>>)
    requires fit { IfSome path.now (AllByRecursion (SegmentFits width)) }
    requires size { length (flat_map raw_octets (given TRANSITIVE AS_PATH (option_map (path_octets width) path.now)))
        < 2 ^ 16 }
    requires room { vec_len out.old
        + length (flat_map raw_octets (given TRANSITIVE AS_PATH (option_map (path_octets width) path.now)))
        ≤ vec_capacity out.old }
    ensures items { out.new.items
        ≡ out.old.items ++ flat_map raw_octets (given TRANSITIVE AS_PATH (option_map (path_octets width) path.now)) }
    ensures capacity { vec_capacity out.old ≤ vec_capacity out.new }
{
    if let Some(path) = path {
        put_head(
            out,
            flags_of(AS_PATH),
            AS_PATH,
            path_len(width, path.as_slice()),
        );
        put_path(out, width, path.as_slice());
    }
}

// Appends an attribute of four octets, if any. The vector has room for it.
fn put_number(out: &mut Vec<u8>, code: u8, number: Option<u32>)
    requires room { vec_len out.old
        + length (flat_map raw_octets (given (flags_of code) code (option_map (to_be_bytes w32) number)))
        ≤ vec_capacity out.old }
    ensures items { out.new.items
        ≡ out.old.items ++ flat_map raw_octets (given (flags_of code) code (option_map (to_be_bytes w32) number)) }
    ensures capacity { vec_capacity out.old ≤ vec_capacity out.new }
{
    if let Some(number) = number {
        put_attr(out, flags_of(code), code, &number.to_be_bytes());
    }
}

// Appends ATOMIC_AGGREGATE, if any. The vector has room for it.
fn put_atomic(out: &mut Vec<u8>, atomic: bool)
    requires room { vec_len out.old
        + length (flat_map raw_octets (given TRANSITIVE ATOMIC_AGGREGATE (if atomic then Some [] else None)))
        ≤ vec_capacity out.old }
    ensures items { out.new.items
        ≡ out.old.items ++ flat_map raw_octets (given TRANSITIVE ATOMIC_AGGREGATE (if atomic then Some [] else None)) }
    ensures capacity { vec_capacity out.old ≤ vec_capacity out.new }
{
    if atomic {
        put_attr(out, flags_of(ATOMIC_AGGREGATE), ATOMIC_AGGREGATE, &[]);
    }
}

// Appends AGGREGATOR, if any. The vector has room for it.
fn put_aggregator(out: &mut Vec<u8>, width: Width, aggregator: Option<Aggregator>)
    requires fit { IfSome aggregator (λ g. AsnFits width g.asn × (g.addr < 2 ^ 32)) }
    requires room { vec_len out.old + length (flat_map raw_octets (aggregator_raw width aggregator))
        ≤ vec_capacity out.old }
    ensures items { out.new.items ≡ out.old.items ++ flat_map raw_octets (aggregator_raw width aggregator) }
    ensures capacity { vec_capacity out.old ≤ vec_capacity out.new }
{
    if let Some(by) = aggregator {
        let partial = if by.partial { PARTIAL } else { 0 };
        put_head(
            out,
            flags_of(AGGREGATOR) + partial,
            AGGREGATOR,
            asn_size(width) + 4,
        );
        put_asn(out, width, by.asn);
        out.extend_from_slice(&by.addr.to_be_bytes()).unwrap();
    }
}

// Appends the attributes in rising order of code, for which there is room.
pub(crate) fn put_attrs(out: &mut Vec<u8>, width: Width, attrs: &Attrs)
    requires fit { AttrsFit width attrs.now }
    requires size { length (attrs_octets width attrs.now) < 2 ^ 16 }
    requires room { vec_len out.old + length (attrs_octets width attrs.now) ≤ vec_capacity out.old }
    ensures items { out.new.items ≡ out.old.items ++ attrs_octets width attrs.now }
    ensures capacity { vec_capacity out.old ≤ vec_capacity out.new }
{
    let raws = attrs.other.as_slice();
    put_raws(out, raws, true);
    put_origin(out, attrs.origin);
    put_path_attr(out, width, &attrs.path);
    put_number(out, NEXT_HOP, attrs.next_hop);
    put_number(out, MULTI_EXIT_DISC, attrs.med);
    put_number(out, LOCAL_PREF, attrs.local_pref);
    put_atomic(out, attrs.atomic);
    put_aggregator(out, width, attrs.aggregator);
    put_raws(out, raws, false);
}
