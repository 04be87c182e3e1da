//! Searches a body for its first fault, and takes no memory for what it reads. It takes memory only
//! for the data of a fault, if they are longer than sixteen octets. Where reading met want of memory,
//! a fault is so answered before that. Of an UPDATE without a fault it answers the parts.

ghost use Rattle.std.specs.Prelude.{◌≡◌, ◌≤◌, List, Some, Ok, false, length, slice_index};
ghost use Rattle.bgp_codec.specs.Reading.{Judges, Passes};
ghost use Rattle.bgp_codec.specs.Judging.{Remembers, Shows, first_number};
ghost use Rattle.bgp_codec.specs.Opens.{number_said, said_by, said_in, cap_at, caps_reading, param_at, params_reading, open_reading};
ghost use Rattle.bgp_codec.specs.Updates.{path_numbers, missing, is_from};
ghost use Rattle.bgp_codec.specs.UpdateReading.{prefixes_reading, path_reading, has_code, with_value, with_attr, attrs_reading, nlri_reading, parts_reading, update_reading};
ghost use Rattle.bgp_codec.specs.declared.attributes.Attrs.{Attrs};
ghost use Rattle.bgp_codec.specs.declared.path.Segment.{Segment};

use crate::attr_reading::read_attr;
use crate::attributes::{flags_fit, is_known, size_fits};
use crate::fault::{CodecError, Fault, attr_fault, open_fault, update_fault};
use crate::numbers::{address_at, asn_at, octet_at};
use crate::octets::Octets;
use crate::open::{number_fault, number_said, params_of, read_value};
use crate::parts::{PathOctets, PrefixOctets, UpdateParts};
use crate::path::segment_parts;
use crate::prefixes::read_prefix;
use crate::rule::{Asn, Rule};
use crate::update::parts_of;
use bgp_values::{
    AS_PATH, ATTRIBUTE_FLAGS_ERROR, ATTRIBUTE_LENGTH_ERROR, CAPABILITIES, INCOMPLETE,
    INVALID_NEXT_HOP_ATTRIBUTE, INVALID_ORIGIN_ATTRIBUTE, MALFORMED_AS_PATH,
    MALFORMED_ATTRIBUTE_LIST, MISSING_WELL_KNOWN_ATTRIBUTE, NEXT_HOP, OPTIONAL, ORIGIN,
    UNRECOGNIZED_WELL_KNOWN_ATTRIBUTE, UNSUPPORTED_OPTIONAL_PARAMETER, UPDATE_MESSAGE_ERROR, Width,
    is_unicast,
};
use std::alloc::Global;

// ---- OPEN

// Passes the capability in front, and answers the number that it says, and what follows it.
fn judge_cap(alloc: Global, octets: &[u8]) -> Result<(Option<Asn>, &[u8]), CodecError>
    ensures { Judges (λ passed read. (passed.0 ≡ number_said read.0) × (read.1 ≡ passed.1.now)) result
        (cap_at octets.now) }
{
    let (value, rest) = read_value(alloc, octets)?;
    Ok((number_said(octet_at(octets, 0), value), rest))
}

// Passes the capabilities that fill these octets, and answers the first number that they say.
fn judge_caps(alloc: Global, octets: &[u8]) -> Result<Option<Asn>, CodecError>
    ensures { Judges (λ said caps. said ≡ said_by caps) result (caps_reading octets.now) }
{
    let mut said = None;
    let mut left = octets;
    'caps: while !left.is_empty() {
        let (number, rest) = judge_cap(alloc, left)?;
        said = said.or(number);
        left = rest;
    }
    Ok(said)
}

// Passes the parameter in front, and answers the first number that it says, and what follows it.
fn judge_param(alloc: Global, octets: &[u8]) -> Result<(Option<Asn>, &[u8]), CodecError>
    ensures { Judges (λ passed read. (passed.0 ≡ said_by read.0) × (read.1 ≡ passed.1.now)) result
        (param_at octets.now) }
{
    let (value, rest) = read_value(alloc, octets)?;
    if octet_at(octets, 0) != CAPABILITIES {
        return Err(open_fault(alloc, UNSUPPORTED_OPTIONAL_PARAMETER));
    }
    Ok((judge_caps(alloc, value)?, rest))
}

// Passes the parameters that fill these octets, and answers the first number that they say.
fn judge_params(alloc: Global, octets: &[u8]) -> Result<Option<Asn>, CodecError>
    ensures { Judges (λ said params. said ≡ said_in params) result (params_reading octets.now) }
{
    let mut said = None;
    let mut left = octets;
    'params: while !left.is_empty() {
        let (number, rest) = judge_param(alloc, left)?;
        said = said.or(number);
        left = rest;
    }
    Ok(said)
}

// Passes the body of an OPEN, and answers its first fault. It answers want of memory only if the
// data of that fault are longer than sixteen octets and memory for them was refused.
pub(crate) fn judge_open(alloc: Global, body: &[u8], rule: &Rule) -> Result<(), CodecError>
    requires { 10 ≤ length body.now }
    ensures { Passes result (open_reading rule.now body.now) }
{
    let params = params_of(alloc, body, rule)?;
    let said = judge_params(alloc, params)?;
    match number_fault(alloc, rule, said) {
        None => Ok(()),
        Some(fault) => Err(CodecError::Fault(fault)),
    }
}

// ---- UPDATE

// Passes the prefixes that octets consist of.
fn judge_prefixes(alloc: Global, octets: &[u8]) -> Result<PrefixOctets<'_>, CodecError>
    ensures { Judges (λ prefixes read. prefixes ≡ read) result (prefixes_reading octets.now) }
{
    let mut count = 0usize;
    let mut left = octets;
    'prefixes: while !left.is_empty() {
        let (_, rest) = read_prefix(alloc, left)?;
        count += 1;
        left = rest;
    }
    Ok(PrefixOctets { count, octets })
}

// Passes the segments that a path consists of.
fn judge_path(alloc: Global, width: Width, octets: &[u8]) -> Result<(), CodecError>
    ensures { Passes result (path_reading width octets.now) }
{
    let mut left = octets;
    'segments: while !left.is_empty() {
        let (_, _, rest) = segment_parts(alloc, width, left)?;
        left = rest;
    }
    Ok(())
}

// What a pass over attributes remembers of those that came.
#[derive(Drop)]
struct Came<'a> {
    // By code, whether an attribute of it came.
    codes: [bool; 256],
    // The octets of the path, where one came.
    path: Option<&'a [u8]>,
    // The next hop, where one came.
    next_hop: Option<u32>,
}

// The first number of the path of these octets, which are good. It stands behind the first two
// octets, the head of the first segment.
fn first_asn(width: Width, octets: &[u8]) -> Option<Asn>
    ensures { (segments : List Segment) → path_reading width octets.now ≡ Ok segments
        → result ≡ first_number (path_numbers (Some segments)) }
{
    match octets {
        [_, _, numbers @ ..] => Some(asn_at(width, numbers)),
        _ => None,
    }
}

// Passes the value of an attribute of a known code, whose flags and length are good.
fn judge_value(alloc: Global, width: Width, attr: &[u8], value: &[u8]) -> Result<(), CodecError>
    ensures { (a : Attrs) → Passes result (with_value width a attr.now value.now) }
{
    let code = octet_at(attr, 1);
    if code == ORIGIN && octet_at(value, 0) > INCOMPLETE {
        return Err(attr_fault(alloc, INVALID_ORIGIN_ATTRIBUTE, attr));
    }
    if code == NEXT_HOP && !is_unicast(address_at(value, 0)) {
        return Err(attr_fault(alloc, INVALID_NEXT_HOP_ATTRIBUTE, attr));
    }
    if code == AS_PATH {
        return judge_path(alloc, width, value);
    }
    Ok(())
}

// Passes an attribute of a new code. The checks in order: an unknown one is optional, then the
// flags, the length and the value by the table.
fn judge_new(alloc: Global, width: Width, attr: &[u8], value: &[u8]) -> Result<(), CodecError>
    ensures { (a : Attrs) → has_code a (slice_index attr.now 1) ≡ false
        → Passes result (with_attr width a attr.now value.now) }
{
    let (flags, code) = (octet_at(attr, 0), octet_at(attr, 1));
    if !is_known(code) {
        if flags < OPTIONAL {
            return Err(attr_fault(alloc, UNRECOGNIZED_WELL_KNOWN_ATTRIBUTE, attr));
        }
        return Ok(());
    }
    if !flags_fit(code, flags) {
        return Err(attr_fault(alloc, ATTRIBUTE_FLAGS_ERROR, attr));
    }
    if !size_fits(width, code, value.len()) {
        return Err(attr_fault(alloc, ATTRIBUTE_LENGTH_ERROR, attr));
    }
    judge_value(alloc, width, attr, value)
}

// Remembers an attribute that was passed.
fn remember<'a>(width: Width, came: &mut Came<'a>, attr: &[u8], value: &'a [u8])
    ensures { (a b : Attrs) → Remembers width came.old a → with_attr width a attr.now value.now ≡ Ok b
        → Remembers width came.new b }
{
    let code = octet_at(attr, 1);
    came.codes[code as usize] = true;
    if code == AS_PATH {
        came.path = Some(value);
    } else if code == NEXT_HOP {
        came.next_hop = Some(address_at(value, 0));
    }
}

// Passes one more attribute: its code is no repeat, then the checks of the attribute alone.
fn judge_attr<'a>(
    alloc: Global,
    width: Width,
    came: &mut Came<'a>,
    attr: &[u8],
    value: &'a [u8],
) -> Result<(), CodecError>
    ensures { (a : Attrs) → Remembers width came.old a
        → Judges (λ _ b. Remembers width came.new b) result (with_attr width a attr.now value.now) }
{
    if came.codes[octet_at(attr, 1) as usize] {
        return Err(update_fault(alloc, MALFORMED_ATTRIBUTE_LIST));
    }
    judge_new(alloc, width, attr, value)?;
    remember(width, came, attr, value);
    Ok(())
}

// Passes the attributes that octets consist of, and answers what is remembered of them.
#[inline(always)]
fn judge_attrs(alloc: Global, width: Width, octets: &[u8]) -> Result<Came<'_>, CodecError>
    ensures { Judges (λ came a. Remembers width came a) result (attrs_reading width octets.now) }
{
    let mut came = Came {
        codes: [false; 256],
        path: None,
        next_hop: None,
    };
    let mut left = octets;
    'attrs: while !left.is_empty() {
        let (attr, value, rest) = read_attr(alloc, left)?;
        judge_attr(alloc, width, &mut came, attr, value)?;
        left = rest;
    }
    Ok(came)
}

// The first of ORIGIN, AS_PATH and NEXT_HOP that did not come.
fn missing(width: Width, came: &Came<'_>) -> Option<u8>
    ensures { (a : Attrs) → Remembers width came.now a → result ≡ missing a }
{
    if !came.codes[ORIGIN as usize] {
        Some(ORIGIN)
    } else if !came.codes[AS_PATH as usize] {
        Some(AS_PATH)
    } else if !came.codes[NEXT_HOP as usize] {
        Some(NEXT_HOP)
    } else {
        None
    }
}

// Whether the first number of the path is the peer's, if the rule names a peer.
fn is_from(width: Width, peer: Option<Asn>, came: &Came<'_>) -> bool
    ensures { (a : Attrs) → Remembers width came.now a → result ≡ is_from peer a }
{
    match (peer, came.path) {
        (None, _) => true,
        (Some(_), None) => false,
        (Some(asn), Some(path)) => first_asn(width, path) == Some(asn),
    }
}

// Passes the announced prefixes. The checks in order: the mandatory attributes came, the prefixes, the peer.
fn judge_nlri<'a>(
    alloc: Global,
    rule: &Rule,
    came: &Came<'_>,
    octets: &'a [u8],
) -> Result<PrefixOctets<'a>, CodecError>
    ensures { (a : Attrs) → Remembers rule.now.width came.now a
        → Judges (λ prefixes read. prefixes ≡ read) result (nlri_reading rule.now.peer a octets.now) }
{
    if octets.is_empty() {
        return judge_prefixes(alloc, octets);
    }
    if let Some(code) = missing(rule.width, came) {
        return Err(CodecError::Fault(Fault {
            code: UPDATE_MESSAGE_ERROR,
            sub: MISSING_WELL_KNOWN_ATTRIBUTE,
            extra: Octets::short(alloc, &[code]),
        }));
    }
    let nlri = judge_prefixes(alloc, octets)?;
    if !is_from(rule.width, rule.peer, came) {
        return Err(update_fault(alloc, MALFORMED_AS_PATH));
    }
    Ok(nlri)
}

// Passes the three parts, one after the other.
fn judge_parts<'a>(
    alloc: Global,
    rule: &Rule,
    withdrawn: &'a [u8],
    attrs: &'a [u8],
    nlri: &'a [u8],
) -> Result<UpdateParts<'a>, CodecError>
    ensures { Judges Shows result (parts_reading rule.now withdrawn.now attrs.now nlri.now) }
{
    let width = rule.width;
    let withdrawn = judge_prefixes(alloc, withdrawn)?;
    let came = judge_attrs(alloc, width, attrs)?;
    let nlri = judge_nlri(alloc, rule, &came, nlri)?;
    let path = match came.path {
        Some(octets) => Some(PathOctets { width, octets }),
        None => None,
    };
    Ok(UpdateParts {
        withdrawn,
        path,
        next_hop: came.next_hop,
        nlri,
    })
}

// Passes the body of an UPDATE, and answers its parts, or its first fault. It answers want of memory
// only if the data of that fault are longer than sixteen octets and memory for them was refused.
pub(crate) fn judge_update<'a>(
    alloc: Global,
    body: &'a [u8],
    rule: &Rule,
) -> Result<UpdateParts<'a>, CodecError>
    requires { 4 ≤ length body.now }
    ensures { Judges Shows result (update_reading rule.now body.now) }
{
    let (withdrawn, attrs, nlri) = parts_of(alloc, body)?;
    judge_parts(alloc, rule, withdrawn, attrs, nlri)
}
