//! Scripts: what a recording meets, step by step, and what is to come of it.

use super::recorded::part;
use crate::tests::messages::withdrawal;
use bgp_codec::Update;
use ranked_policy::Asn;
use snap_marker::{Channel, Lost, MarkState, Offer};
use std::alloc::{AllocError, Global};
use std::process::Abort;

/// The offer that is made next.
#[derive(Clone, Copy)]
pub(super) enum Offered {
    Nothing,
    /// An offer of router 1 with this number.
    Numbered(u32),
    /// A part, which has so many UPDATEs in the channel of each peer.
    Part(&'static [usize]),
    Loss(Lost),
}

#[derive(Clone, Copy)]
pub(super) enum Step {
    /// A snapshot of this number begins, with links to these peers; the marker came over one of them, or
    /// over none.
    Begins(u32, &'static [Asn], Option<Asn>),
    /// One begins while a peer is not Established.
    BeginsDown(u32, &'static [Asn], Asn),
    /// The number of the last snapshot.
    HasLast(u32),
    /// Whether a recording is unfinished.
    Records(bool),
    /// An UPDATE of a peer: whether it is recorded.
    Hears(Asn, bool),
    /// A marker of a peer with this number.
    Marks(Asn, u32),
    /// The session with a peer is left, in incarnation 7.
    Closes(Asn),
    /// The offer at hand is made.
    Makes,
    /// This is the offer at hand.
    Offers(Offered),
}

// The calls. These helpers ensure nothing, so that one is not carried along to the next.
fn begins(
    alloc: Global,
    marks: &mut MarkState,
    number: u32,
    peers: &[Asn],
    first: Option<Asn>,
    down: Option<Asn>,
) -> bool {
    match part(alloc, number, peers, first) {
        Ok(part) => marks.begin(part, down).is_ok(),
        Err(_) => false,
    }
}

fn has_last(marks: &MarkState, number: u32) -> bool {
    marks.last() == number
}

fn records(marks: &MarkState) -> bool {
    marks.unfinished().is_some()
}

// Whether an UPDATE of a peer is recorded, to which a link leads.
fn is_recorded(alloc: Global, marks: &mut MarkState, peer: Asn, update: &Update) -> Option<bool> {
    let copy = marks.copy_update(alloc, peer, update).ok()?;
    let is_recorded = copy.is_some();
    if !marks.has_link(peer) {
        return None;
    }
    marks.on_update(peer, copy);
    Some(is_recorded)
}

fn hears(alloc: Global, marks: &mut MarkState, peer: Asn) -> Option<bool> {
    match withdrawal(alloc) {
        Ok(update) => is_recorded(alloc, marks, peer, &update),
        Err(_) => None,
    }
}

fn marks_end(marks: &mut MarkState, peer: Asn, number: u32) -> bool {
    if !marks.has_link(peer) {
        return false;
    }
    marks.on_mark(peer, number);
    true
}

fn closes(marks: &mut MarkState, peer: Asn) -> bool {
    marks.on_close(peer, 7);
    true
}

fn makes(marks: &mut MarkState) -> bool {
    marks.offer_made();
    true
}

/// Whether these channels have so many UPDATEs.
pub(super) fn have_updates(channels: &[Channel], counts: &[usize]) -> bool {
    for (channel, count) in channels.iter().zip(counts) {
        if channel.updates.len() != *count {
            return false;
        }
    }
    channels.len() == counts.len()
}

fn is_part(offer: &Offer, counts: &[usize]) -> bool {
    match offer {
        Offer::Part(part) => have_updates(&part.channels, counts),
        Offer::Lost(_) => false,
    }
}

fn is_loss(offer: &Offer, wanted: &Lost) -> bool {
    match offer {
        Offer::Lost(lost) => lost == wanted,
        Offer::Part(_) => false,
    }
}

fn is_numbered(offer: &Offer, number: u32) -> bool {
    offer.number() == number && offer.router() == 1
}

fn is_offer(offer: Option<&Offer>, wanted: &Offered) -> bool {
    match (offer, wanted) {
        (None, Offered::Nothing) => true,
        (Some(offer), Offered::Numbered(number)) => is_numbered(offer, *number),
        (Some(offer), Offered::Part(counts)) => is_part(offer, counts),
        (Some(offer), Offered::Loss(lost)) => is_loss(offer, lost),
        _ => false,
    }
}

fn offers(marks: &MarkState, wanted: &Offered) -> bool {
    is_offer(marks.next_offer(), wanted)
}

// Whether a step goes as it says.
fn goes(alloc: Global, marks: &mut MarkState, step: &Step) -> bool {
    match step {
        Step::Begins(number, peers, first) => begins(alloc, marks, *number, peers, *first, None),
        Step::BeginsDown(number, peers, down) => {
            begins(alloc, marks, *number, peers, None, Some(*down))
        }
        Step::HasLast(number) => has_last(marks, *number),
        Step::Records(wanted) => records(marks) == *wanted,
        Step::Hears(peer, wanted) => hears(alloc, marks, *peer) == Some(*wanted),
        Step::Marks(peer, number) => marks_end(marks, *peer, *number),
        Step::Closes(peer) => closes(marks, *peer),
        Step::Makes => makes(marks),
        Step::Offers(offered) => offers(marks, offered),
    }
}

/// Each step of a script goes as it says.
pub(super) fn plays(rt: &impl Abort, alloc: Global, marks: &mut MarkState, script: &[Step]) {
    for (i, step) in script.iter().enumerate() {
        assert!(rt; goes(alloc, marks, step), "step {i}");
    }
}

/// Each step of a script goes as it says, from the start.
pub(super) fn tries(rt: &impl Abort, alloc: Global, script: &[Step]) {
    let mut marks = MarkState::new(alloc);
    plays(rt, alloc, &mut marks, script);
}
