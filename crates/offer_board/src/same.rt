//! Whether two offers say the same, read field by field.

ghost use Rattle.std.specs.Prelude.{◌≡◌, ◌==◌, true, map, filter};
ghost use Rattle.snap_marker.specs.Parts.{seen, IsCopy, offer_of, router_of};
ghost use Rattle.snap_collector.specs.Collecting.{made_by};
ghost use Rattle.offer_board.specs.Boards.{collected, collected_in};
ghost use Rattle.offer_board.specs.Same.{Tells};

use crate::board::Made;
use bgp_codec::{Attrs, Raw, Segment, Update};
use prefix_lanes::Prefix;
use ranked_policy::Asn;
use snap_marker::{Channel, KeptPath, Offer, Part};

// Whether two segments of a path are the same.
fn same_segment(one: &Segment, other: &Segment) -> bool
    ensures { Tells result one.now other.now }
{
    one.kind == other.kind && one.numbers.as_slice() == other.numbers.as_slice()
}

// Whether two lists of segments are the same, one by one.
fn same_segments(one: &[Segment], other: &[Segment]) -> bool
    ensures { Tells result one.now other.now }
{
    if one.len() != other.len() {
        return false;
    }
    for at in 0..one.len() {
        if !same_segment(&one[at], &other[at]) {
            return false;
        }
    }
    true
}

// Whether two attributes that are not recognised are the same.
fn same_raw(one: &Raw, other: &Raw) -> bool
    ensures { Tells result one.now other.now }
{
    one.flags == other.flags
        && one.code == other.code
        && one.value.as_slice() == other.value.as_slice()
}

fn same_raws(one: &[Raw], other: &[Raw]) -> bool
    ensures { Tells result one.now other.now }
{
    if one.len() != other.len() {
        return false;
    }
    for at in 0..one.len() {
        if !same_raw(&one[at], &other[at]) {
            return false;
        }
    }
    true
}

// Whether two AS_PATHs are the same, or both missing.
fn same_path(one: &Attrs, other: &Attrs) -> bool
    ensures { Tells result one.now.path other.now.path }
{
    match (&one.path, &other.path) {
        (None, None) => true,
        (Some(one), Some(other)) => same_segments(one.as_slice(), other.as_slice()),
        (None, Some(_)) | (Some(_), None) => false,
    }
}

fn same_attributes(one: &Attrs, other: &Attrs) -> bool
    ensures { Tells result one.now other.now }
{
    one.origin == other.origin
        && same_path(one, other)
        && one.next_hop == other.next_hop
        && one.med == other.med
        && one.local_pref == other.local_pref
        && one.atomic == other.atomic
        && one.aggregator == other.aggregator
        && same_raws(one.other.as_slice(), other.other.as_slice())
}

fn same_prefix(one: &Prefix, other: &Prefix) -> bool
    ensures { Tells result one.now other.now }
{
    *one == *other
}

// Whether two lists of prefixes are the same.
fn same_prefixes(one: &[Prefix], other: &[Prefix]) -> bool
    ensures { Tells result one.now other.now }
{
    if one.len() != other.len() {
        return false;
    }
    for at in 0..one.len() {
        if !same_prefix(&one[at], &other[at]) {
            return false;
        }
    }
    true
}

fn same_update(one: &Update, other: &Update) -> bool
    ensures { Tells result one.now other.now }
{
    if !same_attributes(&one.attrs, &other.attrs) {
        return false;
    }
    if !same_prefixes(one.withdrawn.as_slice(), other.withdrawn.as_slice()) {
        return false;
    }
    same_prefixes(one.nlri.as_slice(), other.nlri.as_slice())
}

fn same_updates(one: &[Update], other: &[Update]) -> bool
    ensures { Tells result one.now other.now }
{
    if one.len() != other.len() {
        return false;
    }
    for at in 0..one.len() {
        if !same_update(&one[at], &other[at]) {
            return false;
        }
    }
    true
}

fn same_channel(one: &Channel, other: &Channel) -> bool
    ensures { Tells result (seen one.now) (seen other.now) }
{
    one.peer == other.peer
        && one.epoch == other.epoch
        && one.is_open == other.is_open
        && same_updates(one.updates.as_slice(), other.updates.as_slice())
}

fn same_channels(one: &[Channel], other: &[Channel]) -> bool
    ensures { Tells result (map seen one.now) (map seen other.now) }
{
    if one.len() != other.len() {
        return false;
    }
    for at in 0..one.len() {
        if !same_channel(&one[at], &other[at]) {
            return false;
        }
    }
    true
}

fn same_kept(one: &KeptPath, other: &KeptPath) -> bool
    ensures { Tells result one.now other.now }
{
    one.prefix == other.prefix && one.path.as_slice() == other.path.as_slice()
}

fn same_paths(one: &[KeptPath], other: &[KeptPath]) -> bool
    ensures { Tells result one.now other.now }
{
    if one.len() != other.len() {
        return false;
    }
    for at in 0..one.len() {
        if !same_kept(&one[at], &other[at]) {
            return false;
        }
    }
    true
}

fn same_flag(one: bool, other: bool) -> bool
    ensures { Tells result one other }
{
    one == other
}

fn same_part(one: &Part, other: &Part) -> bool
    ensures { result ≡ true → IsCopy one.now other.now }
{
    if one.router != other.router || one.number != other.number {
        return false;
    }
    if !same_flag(one.pending, other.pending) {
        return false;
    }
    if !same_prefixes(one.originated.as_slice(), other.originated.as_slice()) {
        return false;
    }
    if !same_paths(one.kept.as_slice(), other.kept.as_slice()) {
        return false;
    }
    same_channels(one.channels.as_slice(), other.channels.as_slice())
}

/// Whether two offers say the same: they have the same router and number, and the same part or the same loss.
pub fn same_offer(one: &Offer, other: &Offer) -> bool
    ensures { Tells result (made_by one.now) (made_by other.now) }
{
    match (one, other) {
        (Offer::Part(one), Offer::Part(other)) => same_part(one, other),
        (Offer::Lost(one), Offer::Lost(other)) => *one == *other,
        (Offer::Part(_), Offer::Lost(_)) | (Offer::Lost(_), Offer::Part(_)) => false,
    }
}

fn same_made(one: &Made, other: &Made) -> bool
    ensures { Tells result (collected one.now) (collected other.now) }
{
    one.stamp == other.stamp && same_offer(&one.offer, &other.offer)
}

/// Whether the offers of a router among all that were made are these, in this order and with these stamps.
pub fn made_by_same(all: &[Made], router: Asn, own: &[Made]) -> bool
    ensures { Tells result (filter (λ o. o.router == router) (collected_in all.now)) (collected_in own.now) }
{
    let mut next = 0;
    for made in all {
        if made.offer.router() != router {
            continue;
        }
        if next == own.len() || !same_made(made, &own[next]) {
            return false;
        }
        next += 1;
    }
    next == own.len()
}
