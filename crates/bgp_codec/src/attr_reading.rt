//! The reader of attributes (RFC 4271 sections 4.3 and 6.3): one after the other, each with all its checks.

ghost use Rattle.std.specs.Prelude.{◌≡◌, List, true, IfErr, OnOk, slice_index, ◌≤◌, length};
ghost use Rattle.bgp_codec.specs.Reading.{Gives, IsNoWant};
ghost use Rattle.bgp_codec.specs.AttrTable.{is_known};
ghost use Rattle.bgp_codec.specs.UpdateReading.{is_extended, head_size, value_size, attr_at, with_other, with_value, with_attr, other_reading, attrs_reading};
ghost use Rattle.bgp_codec.specs.Gathering.{in_order, Marks};
ghost use Rattle.bgp_codec.specs.declared.attributes.Raw.{Raw};

use crate::attributes::{
    Aggregator, Attrs, Raw, flags_fit, high_flags, is_known, is_partial, size_fits,
};
use crate::fault::{CodecError, attr_fault, update_fault};
use crate::items::Items;
use crate::numbers::{address_at, asn_at, asn_size, number_at, octet_at};
use crate::octets::Octets;
use crate::path::read_path;
use bgp_values::{
    AGGREGATOR, AS_PATH, ATOMIC_AGGREGATE, ATTRIBUTE_FLAGS_ERROR, ATTRIBUTE_LENGTH_ERROR, EXTENDED,
    INCOMPLETE, INVALID_NEXT_HOP_ATTRIBUTE, INVALID_ORIGIN_ATTRIBUTE, LOCAL_PREF,
    MALFORMED_ATTRIBUTE_LIST, MULTI_EXIT_DISC, NEXT_HOP, OPTIONAL, ORIGIN,
    UNRECOGNIZED_WELL_KNOWN_ATTRIBUTE, Width, is_unicast,
};
use std::alloc::Global;

// Whether an attribute has its length in two octets: the flag Extended Length.
fn is_extended(flags: u8) -> bool
    ensures { result ≡ is_extended flags }
{
    flags / EXTENDED % 2 == 1
}

// How many octets stand before the value of the attribute in front, and how many the value has.
fn attr_sizes(octets: &[u8]) -> (usize, usize)
    ensures { result ≡ (head_size octets.now, value_size octets.now) }
{
    if is_extended(octet_at(octets, 0)) {
        (4, number_at(octets, 2) as usize)
    } else {
        (3, octet_at(octets, 2) as usize)
    }
}

// The attribute in front, its value, and what follows it. It takes no memory.
pub(crate) fn read_attr(alloc: Global, octets: &[u8]) -> Result<(&[u8], &[u8], &[u8]), CodecError>
    ensures gives { Gives (λ read. (read.0.now, read.1.now, read.2.now)) result (attr_at octets.now) }
    ensures memory { IfErr result IsNoWant }
{
    let (head, size) = attr_sizes(octets);
    if octets.len() < head + size {
        return Err(update_fault(alloc, MALFORMED_ATTRIBUTE_LIST));
    }
    let (attr, rest) = octets.split_at(head + size);
    let (_, value) = attr.split_at(head);
    Ok((attr, value, rest))
}

// Takes an attribute that the table does not know, behind those that came before it.
fn add_other(alloc: Global, attrs: &mut Attrs, attr: &[u8], value: &[u8]) -> Result<(), CodecError>
    ensures { Gives (λ _. in_order attrs.new) result (other_reading (in_order attrs.old) attr.now value.now) }
{
    let (flags, code) = (octet_at(attr, 0), octet_at(attr, 1));
    if flags < OPTIONAL {
        return Err(attr_fault(alloc, UNRECOGNIZED_WELL_KNOWN_ATTRIBUTE, attr));
    }
    let value = Octets::from_slice(alloc, value)?;
    let flags = high_flags(flags);
    attrs.other.push(alloc, Raw { flags, code, value })?;
    Ok(())
}

// Takes the value of an attribute of a known code, whose flags and length are good.
fn add_value(
    alloc: Global,
    width: Width,
    attrs: &mut Attrs,
    attr: &[u8],
    value: &[u8],
) -> Result<(), CodecError>
    requires { is_known (slice_index attr.now 1) ≡ true }
    ensures value { (rs : List Raw)
        → Gives (λ _. with_other attrs.new rs) result (with_value width (with_other attrs.old rs) attr.now value.now) }
    ensures other { attrs.new.other ≡ attrs.old.other }
{
    match octet_at(attr, 1) {
        ORIGIN => {
            let origin = octet_at(value, 0);
            if origin > INCOMPLETE {
                return Err(attr_fault(alloc, INVALID_ORIGIN_ATTRIBUTE, attr));
            }
            attrs.origin = Some(origin);
        }
        AS_PATH => attrs.path = Some(read_path(alloc, width, value)?),
        NEXT_HOP => {
            let next_hop = address_at(value, 0);
            if !is_unicast(next_hop) {
                return Err(attr_fault(alloc, INVALID_NEXT_HOP_ATTRIBUTE, attr));
            }
            attrs.next_hop = Some(next_hop);
        }
        MULTI_EXIT_DISC => attrs.med = Some(address_at(value, 0)),
        LOCAL_PREF => attrs.local_pref = Some(address_at(value, 0)),
        ATOMIC_AGGREGATE => attrs.atomic = true,
        AGGREGATOR => {
            attrs.aggregator = Some(Aggregator {
                asn: asn_at(width, value),
                addr: address_at(value, asn_size(width)),
                partial: is_partial(octet_at(attr, 0)),
            });
        }
        _ => unreachable!(),
    }
    Ok(())
}

// Takes one more attribute. The checks in order: a code that came before, which has a mark in `came`, is refused; an
// unknown one is optional; then the flags, the length and the value by the table.
fn add_attr(
    alloc: Global,
    width: Width,
    attrs: &mut Attrs,
    came: &mut [bool; 256],
    attr: &[u8],
    value: &[u8],
) -> Result<(), CodecError>
    requires { Marks came.old (in_order attrs.old) }
    ensures gives { Gives (λ _. in_order attrs.new) result (with_attr width (in_order attrs.old) attr.now value.now) }
    ensures marks { OnOk result (Marks came.new (in_order attrs.new)) }
{
    let (flags, code) = (octet_at(attr, 0), octet_at(attr, 1));
    if came[code as usize] {
        return Err(update_fault(alloc, MALFORMED_ATTRIBUTE_LIST));
    }
    came[code as usize] = true;
    if !is_known(code) {
        return add_other(alloc, attrs, attr, value);
    }
    if !flags_fit(code, flags) {
        return Err(attr_fault(alloc, ATTRIBUTE_FLAGS_ERROR, attr));
    }
    if !size_fits(width, code, value.len()) {
        return Err(attr_fault(alloc, ATTRIBUTE_LENGTH_ERROR, attr));
    }
    add_value(alloc, width, attrs, attr, value)
}

// How many attributes the octets have that the table does not know, if the octets are good: the
// room that a list of them needs.
fn count_others(octets: &[u8]) -> usize
    ensures { result ≤ length octets.now }
{
    let mut count = 0usize;
    let mut at = 0usize;
    'attrs: while at < octets.len() {
        let (_, left) = octets.split_at(at);
        let (head, size) = attr_sizes(left);
        if !is_known(octet_at(left, 1)) {
            count = count + 1;
        }
        at = at + head + size;
    }
    count
}

// The attributes that octets consist of. Those that the table does not know are gathered as they
// come, and put in order at the end.
pub(crate) fn read_attrs(alloc: Global, width: Width, octets: &[u8]) -> Result<Attrs, CodecError>
    ensures { Gives (λ attrs. attrs) result (attrs_reading width octets.now) }
{
    let mut attrs = Attrs::none(alloc);
    attrs.other = Items::with_room(alloc, count_others(octets))?;
    let mut came = [false; 256];
    let mut left = octets;
    'attrs: while !left.is_empty() {
        let (attr, value, rest) = read_attr(alloc, left)?;
        add_attr(alloc, width, &mut attrs, &mut came, attr, value)?;
        left = rest;
    }
    attrs.other.order();
    Ok(attrs)
}
