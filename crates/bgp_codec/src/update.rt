//! UPDATE (RFC 4271 section 4.3): its three parts, its reader and its writer.

ghost use Rattle.std.specs.Prelude.{◌≡◌, ◌≢◌, ℕ, Option, Err, IfOk, IfErr, [], None, ◌-◌, min, ◌+◌, ◌^◌, ◌≤◌, ◌<◌, ◌++◌, ◌↔◌, IsTrue, length, vec_len, vec_capacity};
ghost use Rattle.bgp_codec.specs.Reading.{Gives};
ghost use Rattle.bgp_codec.specs.Updates.{missing, is_from, update_octets, UpdateFits};
ghost use Rattle.bgp_codec.specs.UpdateReading.{nlri_reading, parts_reading, update_reading, update_fault};
ghost use Rattle.bgp_codec.specs.declared.rule.Rule.{Rule};
ghost use Rattle.std.specs.Int.{w16, to_be_bytes};

use crate::attr_fitting::attrs_fit;
use crate::attr_reading::read_attrs;
use crate::attr_writing::{attrs_len, put_attrs};
use crate::attributes::Attrs;
use crate::fault::{CodecError, Fault, update_fault};
use crate::items::Items;
use crate::numbers::number_at;
use crate::octets::Octets;
use crate::path::begins_with;
use crate::prefixes::{are_canonical, prefixes_len, put_prefixes, read_prefixes};
use crate::rule::{Asn, Rule};
use bgp_values::{
    AS_PATH, MALFORMED_AS_PATH, MALFORMED_ATTRIBUTE_LIST, MISSING_WELL_KNOWN_ATTRIBUTE, NEXT_HOP,
    ORIGIN, UPDATE_MESSAGE_ERROR, Width,
};
use prefix_lanes::Prefix;
use std::alloc::Global;

/// What an UPDATE says (RFC 4271 section 4.3).
#[derive(Debug, Drop)]
pub struct Update {
    /// The prefixes that are no longer reached.
    pub withdrawn: Items<Prefix>,
    /// The attributes of the routes to the announced prefixes.
    pub attrs: Attrs,
    /// The announced prefixes: the network layer reachability information.
    pub nlri: Items<Prefix>,
}

// The first of ORIGIN, AS_PATH and NEXT_HOP that is missing.
fn missing(attrs: &Attrs) -> Option<u8>
    ensures { result ≡ missing attrs.now }
{
    if attrs.origin.is_none() {
        Some(ORIGIN)
    } else if attrs.path.is_none() {
        Some(AS_PATH)
    } else if attrs.next_hop.is_none() {
        Some(NEXT_HOP)
    } else {
        None
    }
}

// Whether the first number of the path is the peer's, if the rule names a peer.
fn is_from(peer: Option<Asn>, attrs: &Attrs) -> bool
    ensures { result ≡ is_from peer attrs.now }
{
    match (peer, &attrs.path) {
        (None, _) => true,
        (Some(_), None) => false,
        (Some(asn), Some(path)) => begins_with(path.as_slice(), asn),
    }
}

// The announced prefixes. The checks in order: the mandatory attributes are there, the prefixes, the peer.
fn read_nlri(
    alloc: Global,
    peer: Option<Asn>,
    attrs: &Attrs,
    octets: &[u8],
) -> Result<Items<Prefix>, CodecError>
    ensures { Gives (λ nlri. nlri) result (nlri_reading peer attrs.now octets.now) }
{
    if octets.is_empty() {
        return Ok(Items::new(alloc));
    }
    if let Some(code) = missing(attrs) {
        return Err(CodecError::Fault(Fault {
            code: UPDATE_MESSAGE_ERROR,
            sub: MISSING_WELL_KNOWN_ATTRIBUTE,
            extra: Octets::short(alloc, &[code]),
        }));
    }
    let nlri = read_prefixes(alloc, octets)?;
    if !is_from(peer, attrs) {
        return Err(update_fault(alloc, MALFORMED_AS_PATH));
    }
    Ok(nlri)
}

// The three parts, one after the other.
fn read_parts(
    alloc: Global,
    rule: &Rule,
    withdrawn: &[u8],
    attrs: &[u8],
    nlri: &[u8],
) -> Result<Update, CodecError>
    ensures { Gives (λ update. update) result (parts_reading rule.now withdrawn.now attrs.now nlri.now) }
{
    let withdrawn = read_prefixes(alloc, withdrawn)?;
    let attrs = read_attrs(alloc, rule.width, attrs)?;
    let nlri = read_nlri(alloc, rule.peer, &attrs, nlri)?;
    Ok(Update {
        withdrawn,
        attrs,
        nlri,
    })
}

// The octets of the three parts of a body. The length of the withdrawn prefixes stands at 0, and they stand from 2.
// Then come the length of the attributes, the attributes, and the announced prefixes to the end. It takes no memory.
#[tactic(auto, unfolding(crate::specs::UpdateReading::update_reading))]
pub(crate) fn parts_of(alloc: Global, body: &[u8]) -> Result<(&[u8], &[u8], &[u8]), CodecError>
    requires { 4 ≤ length body.now }
    ensures ok { IfOk result
        (λ parts. (rule : Rule)
        → update_reading rule body.now ≡ parts_reading rule parts.0.now parts.1.now parts.2.now) }
    ensures err { IfErr result
        (λ error. (error ≡ CodecError.Fault (update_fault MALFORMED_ATTRIBUTE_LIST))
        × ((rule : Rule) → update_reading rule body.now ≡ Err (update_fault MALFORMED_ATTRIBUTE_LIST))) }
{
    let first = number_at(body, 0) as usize;
    let second = number_at(body, 2 + first) as usize;
    if body.len() < 4 + first || body.len() < 4 + (first + second) {
        return Err(update_fault(alloc, MALFORMED_ATTRIBUTE_LIST));
    }
    let (_, behind) = body.split_at(2);
    let (withdrawn, _) = behind.split_at(first);
    let (_, behind) = body.split_at(4 + first);
    let (attrs, _) = behind.split_at(second);
    let (_, nlri) = body.split_at(4 + (first + second));
    Ok((withdrawn, attrs, nlri))
}

// The UPDATE of a body.
#[inline(never)]
pub(crate) fn read_update(alloc: Global, body: &[u8], rule: &Rule) -> Result<Update, CodecError>
    requires { 4 ≤ length body.now }
    ensures { Gives (λ update. update) result (update_reading rule.now body.now) }
{
    let (withdrawn, attrs, nlri) = parts_of(alloc, body)?;
    read_parts(alloc, rule, withdrawn, attrs, nlri)
}

// Whether an UPDATE that announces these prefixes has the mandatory attributes.
fn is_complete(attrs: &Attrs, nlri: &[Prefix]) -> bool
    ensures { IsTrue result ↔ (nlri.now ≢ [] → missing attrs.now ≡ None) }
{
    nlri.is_empty() || missing(attrs).is_none()
}

// Whether a reader accepts each field, and each part fits its own length field.
pub(crate) fn update_fits(width: Width, message: &Update) -> bool
    ensures { IsTrue result ↔ UpdateFits width message.now }
{
    let withdrawn = message.withdrawn.as_slice();
    let nlri = message.nlri.as_slice();
    are_canonical(withdrawn);
    are_canonical(nlri);
    attrs_fit(width, &message.attrs)
        && is_complete(&message.attrs, nlri)
        && prefixes_len(withdrawn) < 0x1_0000
        && attrs_len(width, &message.attrs) < 0x1_0000
}

// How many octets the body has as it is written. The sum stops at `usize::MAX`.
pub(crate) fn update_len(width: Width, message: &Update) -> usize
    ensures { result ≡ min (2 ^ 64 - 1) (length (update_octets width message.now)) }
{
    prefixes_len(message.withdrawn.as_slice())
        .saturating_add(attrs_len(width, &message.attrs))
        .saturating_add(prefixes_len(message.nlri.as_slice()))
        .saturating_add(4)
}

// Appends a length of two octets, for which there is room.
fn put_len(out: &mut Vec<u8>, len: usize)
    requires fit { len < 2 ^ 16 }
    requires room { vec_len out.old + 2 ≤ vec_capacity out.old }
    ensures items { out.new.items ≡ out.old.items ++ to_be_bytes w16 len }
    ensures capacity { vec_capacity out.old ≤ vec_capacity out.new }
{
    let [high, low] = (len as u16).to_be_bytes();
    out.push_reserved(high);
    out.push_reserved(low);
}

// Appends the body of an UPDATE, for which there is room.
pub(crate) fn put_update(out: &mut Vec<u8>, width: Width, message: &Update)
    requires fit { UpdateFits width message.now }
    requires room { vec_len out.old + length (update_octets width message.now) ≤ vec_capacity out.old }
    ensures items { out.new.items ≡ out.old.items ++ update_octets width message.now }
    ensures capacity { vec_capacity out.old ≤ vec_capacity out.new }
{
    let withdrawn = message.withdrawn.as_slice();
    put_len(out, prefixes_len(withdrawn));
    put_prefixes(out, withdrawn);
    put_len(out, attrs_len(width, &message.attrs));
    put_attrs(out, width, &message.attrs);
    put_prefixes(out, message.nlri.as_slice());
}
