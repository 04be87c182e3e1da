//! OPEN (RFC 4271 section 4.2, RFC 5492 section 4): its fields, its reader and its writer.

ghost use Rattle.std.specs.Prelude.{◌≡◌, ◌+◌, ◌-◌, ◌^◌, ◌≤◌, ◌<◌, ◌++◌, ◌∷◌, ◌↔◌, IsTrue, IfOk, IfErr, length, min, vec_len, vec_capacity};
ghost use Rattle.std.specs.List.{flat_map, AllByRecursion};
ghost use Rattle.bgp_codec.specs.Reading.{Gives, Judged, IsNoWant};
ghost use Rattle.bgp_codec.specs.Opens.{cap_octets, param_octets, open_octets, asn_field, hold_field, id_field, CapFits, ParamFits, OpenFits, value_at, cap_at, caps_reading, param_at, params_reading, open_reading, open_behind, is_peer, cap_of, number_said, said_by, said_in, capability_fault, said_fault, number_fault};

use crate::fault::{CodecError, Fault, open_fault};
use crate::items::Items;
use crate::numbers::{address_at, count_values, octet_at};
use crate::octets::Octets;
use crate::rule::{Asn, Rule};
use bgp_values::{
    AS_TRANS, BAD_BGP_IDENTIFIER, BAD_PEER_AS, CAPABILITIES, FOUR_OCTET_ASN, OPEN_MESSAGE_ERROR,
    UNACCEPTABLE_HOLD_TIME, UNSPECIFIC, UNSUPPORTED_CAPABILITY, UNSUPPORTED_OPTIONAL_PARAMETER,
    UNSUPPORTED_VERSION_NUMBER, VERSION, Width, is_hold_time, is_unicast,
};
use std::alloc::Global;

/// What a speaker says that it can do (RFC 5492 section 4).
#[derive(Debug, Drop)]
pub struct Cap {
    /// The number that IANA gives it: 65 is four-octet AS numbers.
    pub code: u8,
    /// At most 255 octets, whose meaning depends on the code.
    pub value: Octets,
}

/// What an OPEN says (RFC 4271 section 4.2).
#[derive(Debug, Drop)]
pub struct Open {
    /// The speaker's number, or AS_TRANS, 23456, in place of one that two octets do not hold: then a
    /// capability 65 has it (RFC 6793).
    pub asn: u16,
    /// The hold time that it offers, in seconds: 0, or 3 and more.
    pub hold: u16,
    /// Its identifier, an address whose first octet is 1 to 223.
    pub id: u32,
    /// The capabilities of each parameter of kind 2, in their order.
    pub params: Items<Items<Cap>>,
}

// The value in front, its length at 1 and its octets from 2, and what follows it. It takes no memory.
pub(crate) fn read_value(alloc: Global, octets: &[u8]) -> Result<(&[u8], &[u8]), CodecError>
    ensures gives { Gives (λ read. (read.0.now, read.1.now)) result (value_at octets.now) }
    ensures memory { IfErr result IsNoWant }
{
    match octets {
        [] | [_] => Err(open_fault(alloc, UNSPECIFIC)),
        [_, len, rest @ ..] => {
            let len = *len as usize;
            if rest.len() < len {
                return Err(open_fault(alloc, UNSPECIFIC));
            }
            Ok(rest.split_at(len))
        }
    }
}

// The capability in front, and what follows it.
fn read_cap(alloc: Global, octets: &[u8]) -> Result<(Cap, &[u8]), CodecError>
    ensures { Gives (λ read. (read.0, read.1.now)) result (cap_at octets.now) }
{
    let (value, rest) = read_value(alloc, octets)?;
    let value = Octets::from_slice(alloc, value)?;
    let code = octet_at(octets, 0);
    Ok((Cap { code, value }, rest))
}

// The capabilities that fill these octets.
fn read_caps(alloc: Global, octets: &[u8]) -> Result<Items<Cap>, CodecError>
    ensures { Gives (λ caps. caps) result (caps_reading octets.now) }
{
    let mut caps = Items::with_room(alloc, count_values(octets, 1))?;
    let mut left = octets;
    'caps: while !left.is_empty() {
        let (cap, rest) = read_cap(alloc, left)?;
        caps.push(alloc, cap)?;
        left = rest;
    }
    Ok(caps)
}

// The capabilities of the parameter in front, which has to be of kind 2, and what follows it.
fn read_param(alloc: Global, octets: &[u8]) -> Result<(Items<Cap>, &[u8]), CodecError>
    ensures { Gives (λ read. (read.0, read.1.now)) result (param_at octets.now) }
{
    let (value, rest) = read_value(alloc, octets)?;
    if octet_at(octets, 0) != CAPABILITIES {
        return Err(open_fault(alloc, UNSUPPORTED_OPTIONAL_PARAMETER));
    }
    Ok((read_caps(alloc, value)?, rest))
}

// The parameters that fill these octets.
fn read_params(alloc: Global, octets: &[u8]) -> Result<Items<Items<Cap>>, CodecError>
    ensures { Gives (λ params. params) result (params_reading octets.now) }
{
    let mut params = Items::with_room(alloc, count_values(octets, 1))?;
    let mut left = octets;
    'params: while !left.is_empty() {
        let (caps, rest) = read_param(alloc, left)?;
        params.push(alloc, caps)?;
        left = rest;
    }
    Ok(params)
}

// Whether the field AS is the peer's number, if the rule names a peer.
fn is_peer(width: Width, peer: Option<Asn>, asn: u16) -> bool
    ensures { result ≡ is_peer width peer asn }
{
    match (peer, width) {
        (None, _) => true,
        (Some(peer), Width::Two) => Asn::from(asn) == peer,
        (Some(peer), Width::Four) => Asn::from(asn) == peer || asn == AS_TRANS,
    }
}

// The number that a capability of this code and value says.
pub(crate) fn number_said(code: u8, value: &[u8]) -> Option<Asn>
    ensures { result ≡ number_said (cap_of code value.now) }
{
    if code == FOUR_OCTET_ASN && value.len() == 4 {
        Some(address_at(value, 0))
    } else {
        None
    }
}

// The first number that capabilities say.
fn said_by(caps: &[Cap]) -> Option<Asn>
    ensures { result ≡ said_by caps.now }
{
    for cap in caps {
        let said = number_said(cap.code, cap.value.as_slice());
        if said.is_some() {
            return said;
        }
    }
    None
}

// The first number that the capabilities of parameters say.
fn said_in(params: &[Items<Cap>]) -> Option<Asn>
    ensures { result ≡ said_in params.now }
{
    for caps in params {
        let said = said_by(caps.as_slice());
        if said.is_some() {
            return said;
        }
    }
    None
}

// The fault of an OPEN that does not say its speaker's number in four octets. `own` is the reader's number.
fn capability_fault(alloc: Global, own: Asn) -> Fault
    ensures { result ≡ capability_fault own }
{
    let [a, b, c, d] = own.to_be_bytes();
    Fault {
        code: OPEN_MESSAGE_ERROR,
        sub: UNSUPPORTED_CAPABILITY,
        extra: Octets::short(alloc, &[FOUR_OCTET_ASN, 4, a, b, c, d]),
    }
}

// The fault of the number that an OPEN says in four octets, if any. The number has to be there if the rule names the
// reader, and to be the peer's if it names a peer. It takes no memory.
pub(crate) fn number_fault(alloc: Global, rule: &Rule, said: Option<Asn>) -> Option<Fault>
    ensures { result ≡ number_fault rule.now.width rule.now.own rule.now.peer said }
{
    match rule.width {
        Width::Two => None,
        Width::Four => said_fault(alloc, rule.own, rule.peer, said),
    }
}

// The fault of the number that an OPEN says, if any, where AS numbers have four octets.
fn said_fault(
    alloc: Global,
    own: Option<Asn>,
    peer: Option<Asn>,
    said: Option<Asn>,
) -> Option<Fault>
    ensures { result ≡ said_fault own peer said }
{
    match (said, own, peer) {
        (None, None, _) => None,
        (None, Some(own), _) => Some(capability_fault(alloc, own)),
        (Some(_), _, None) => None,
        (Some(asn), _, Some(peer)) => {
            if asn == peer {
                return None;
            }
            Some(Fault {
                code: OPEN_MESSAGE_ERROR,
                sub: BAD_PEER_AS,
                extra: Octets::short(alloc, &[]),
            })
        }
    }
}

// The fields of a body before its parameters: AS at 1, hold time at 3, identifier at 5.
fn fields_of(body: &[u8]) -> (u16, u16, u32)
    requires { 10 ≤ length body.now }
    ensures { result ≡ (asn_field body.now, hold_field body.now, id_field body.now) }
{
    (
        u16::from_be_bytes([body[1], body[2]]),
        u16::from_be_bytes([body[3], body[4]]),
        u32::from_be_bytes([body[5], body[6], body[7], body[8]]),
    )
}

// The octets of the parameters, if the fields before them are good. The version stands at 0, then come those of
// `fields_of`, the length of the parameters at 9, and the parameters from 10. It takes no memory.
#[tactic(auto, unfolding(crate::specs::Opens::open_reading))]
pub(crate) fn params_of<'a>(
    alloc: Global,
    body: &'a [u8],
    rule: &Rule,
) -> Result<&'a [u8], CodecError>
    requires { 10 ≤ length body.now }
    ensures ok { IfOk result (λ params. open_reading rule.now body.now ≡ open_behind rule.now body.now params.now) }
    ensures err { IfErr result (λ error. Judged error (open_reading rule.now body.now) × IsNoWant error) }
{
    let (asn, hold, id) = fields_of(body);
    if body[0] != VERSION {
        return Err(CodecError::Fault(Fault {
            code: OPEN_MESSAGE_ERROR,
            sub: UNSUPPORTED_VERSION_NUMBER,
            extra: Octets::short(alloc, &[0, VERSION]),
        }));
    }
    if !is_peer(rule.width, rule.peer, asn) {
        return Err(open_fault(alloc, BAD_PEER_AS));
    }
    if !is_hold_time(hold) {
        return Err(open_fault(alloc, UNACCEPTABLE_HOLD_TIME));
    }
    if !is_unicast(id) {
        return Err(open_fault(alloc, BAD_BGP_IDENTIFIER));
    }
    if body.len() != 10 + body[9] as usize {
        return Err(open_fault(alloc, UNSPECIFIC));
    }
    let (_, params) = body.split_at(10);
    Ok(params)
}

// The OPEN of a body.
#[inline(never)]
pub(crate) fn read_open(alloc: Global, body: &[u8], rule: &Rule) -> Result<Open, CodecError>
    requires { 10 ≤ length body.now }
    ensures { Gives (λ read. read) result (open_reading rule.now body.now) }
{
    let params = params_of(alloc, body, rule)?;
    let params = read_params(alloc, params)?;
    if let Some(fault) = number_fault(alloc, rule, said_in(params.as_slice())) {
        return Err(CodecError::Fault(fault));
    }
    let (asn, hold, id) = fields_of(body);
    Ok(Open {
        asn,
        hold,
        id,
        params,
    })
}

// How many octets the capabilities have as they are written. The sum stops at `usize::MAX`.
fn caps_len(caps: &[Cap]) -> usize
    ensures { result ≡ min (2 ^ 64 - 1) (length (flat_map cap_octets caps.now)) }
{
    let mut len = 0usize;
    for cap in caps {
        len = len.saturating_add(2).saturating_add(cap.value.len());
    }
    len
}

// How many octets the parameters have as they are written. The sum stops at `usize::MAX`.
pub(crate) fn params_len(params: &[Items<Cap>]) -> usize
    ensures { result ≡ min (2 ^ 64 - 1) (length (flat_map param_octets params.now)) }
{
    let mut len = 0usize;
    for caps in params {
        len = len
            .saturating_add(2)
            .saturating_add(caps_len(caps.as_slice()));
    }
    len
}

// Whether each value fits its one octet of length.
fn caps_fit(caps: &[Cap]) -> bool
    ensures { IsTrue result ↔ AllByRecursion CapFits caps.now }
{
    for cap in caps {
        if cap.value.len() > 255 {
            return false;
        }
    }
    true
}

// Whether each parameter, and each of its capabilities, fits its one octet of length.
fn params_fit(params: &[Items<Cap>]) -> bool
    ensures { IsTrue result ↔ AllByRecursion ParamFits params.now }
{
    for caps in params {
        let caps = caps.as_slice();
        if !caps_fit(caps) || caps_len(caps) > 255 {
            return false;
        }
    }
    true
}

// Whether a reader accepts each field, and each part fits its own length field.
pub(crate) fn fits(message: &Open) -> bool
    ensures { IsTrue result ↔ OpenFits message.now }
{
    let _asn = message.asn;
    let params = message.params.as_slice();
    is_hold_time(message.hold)
        && is_unicast(message.id)
        && params_fit(params)
        && params_len(params) < 256
}

// Appends the capabilities, for which there is room.
fn put_caps(out: &mut Vec<u8>, caps: &[Cap])
    requires fit { AllByRecursion CapFits caps.now }
    requires room { vec_len out.old + length (flat_map cap_octets caps.now) ≤ vec_capacity out.old }
    ensures items { out.new.items ≡ out.old.items ++ flat_map cap_octets caps.now }
    ensures capacity { vec_capacity out.old ≤ vec_capacity out.new }
{
    for cap in caps {
        out.push_reserved(cap.code);
        out.push_reserved(cap.value.len() as u8);
        out.extend_from_slice(cap.value.as_slice()).unwrap();
    }
}

// Appends the parameters, for which there is room.
fn put_params(out: &mut Vec<u8>, params: &[Items<Cap>])
    requires fit { AllByRecursion ParamFits params.now }
    requires room { vec_len out.old + length (flat_map param_octets params.now) ≤ vec_capacity out.old }
    ensures items { out.new.items ≡ out.old.items ++ flat_map param_octets params.now }
    ensures capacity { vec_capacity out.old ≤ vec_capacity out.new }
{
    for caps in params {
        let caps = caps.as_slice();
        out.push_reserved(CAPABILITIES);
        out.push_reserved(caps_len(caps) as u8);
        put_caps(out, caps);
    }
}

// Appends the body of an OPEN, for which there is room.
pub(crate) fn put_open(out: &mut Vec<u8>, message: &Open)
    requires fit { OpenFits message.now }
    requires room { vec_len out.old + length (open_octets message.now) ≤ vec_capacity out.old }
    ensures items { out.new.items ≡ out.old.items ++ open_octets message.now }
    ensures capacity { vec_capacity out.old ≤ vec_capacity out.new }
{
    let [asn_high, asn_low] = message.asn.to_be_bytes();
    let [hold_high, hold_low] = message.hold.to_be_bytes();
    let params = message.params.as_slice();
    out.push_reserved(VERSION);
    out.push_reserved(asn_high);
    out.push_reserved(asn_low);
    out.push_reserved(hold_high);
    out.push_reserved(hold_low);
    out.extend_from_slice(&message.id.to_be_bytes()).unwrap();
    out.push_reserved(params_len(params) as u8);
    put_params(out, params);
}
