//! Items that a peer puts, and those that come out.

use super::answers::{Answer, puts_next, takes_with};
use ranked_policy::Asn;
use router_core::{Item, PieceOctets, Router, What};
use std::alloc::{AllocError, Global};

// An item, its octets in a script.
#[derive(Clone, Copy)]
pub(super) enum Sent<'a> {
    Dial(u32),
    // The messages of an incarnation, each by what follows its marker.
    Says(u32, &'a [&'a [u8]]),
    // Octets of an incarnation that are no messages.
    Octets(u32, &'a [u8]),
    Mark(u32, u32),
    Shut(u32),
}

// The octets of messages: of each a marker, and what follows it.
fn spelled(alloc: Global, tails: &[&[u8]]) -> Result<Vec<u8>, AllocError> {
    let mut octets = Vec::new(alloc);
    for tail in tails {
        octets.extend_from_slice(&[0xff; 16])?;
        octets.extend_from_slice(tail)?;
    }
    Ok(octets)
}

// A piece of these octets, where there was memory for 1 to 4096 of them.
fn piece(epoch: u32, octets: Result<Vec<u8>, AllocError>) -> Option<What> {
    match octets {
        Ok(octets) => Some(What::Piece(epoch, PieceOctets::new(octets)?)),
        Err(_) => None,
    }
}

pub(super) fn what(alloc: Global, sent: &Sent<'_>) -> Option<What> {
    match *sent {
        Sent::Dial(epoch) => Some(What::Dial(epoch)),
        Sent::Says(epoch, tails) => piece(epoch, spelled(alloc, tails)),
        Sent::Octets(epoch, octets) => piece(epoch, Vec::from_slice(alloc, octets)),
        Sent::Mark(epoch, number) => Some(What::Mark(epoch, number)),
        Sent::Shut(epoch) => Some(What::Shut(epoch)),
    }
}

// Its kind, its incarnation, and the number of a marker.
pub(super) fn numbers(what: &What) -> (u8, u32, u32) {
    match what {
        What::Dial(epoch) => (0, *epoch, 0),
        What::Piece(epoch, _) => (1, *epoch, 0),
        What::Mark(epoch, number) => (2, *epoch, *number),
        What::Shut(epoch) => (3, *epoch, 0),
    }
}

fn octets(what: &What) -> &[u8] {
    match what {
        What::Piece(_, octets) => octets.as_slice(),
        What::Dial(_) | What::Mark(_, _) | What::Shut(_) => &[],
    }
}

// Whether the item is that one.
fn is_sent(alloc: Global, item: &Item, sent: &Sent<'_>) -> bool {
    match what(alloc, sent) {
        Some(wanted) => {
            numbers(&item.what) == numbers(&wanted) && octets(&item.what) == octets(&wanted)
        }
        None => false,
    }
}

// What the next item towards a peer is to be.
#[derive(Clone, Copy)]
pub(super) enum Put<'a> {
    // That one.
    Item(Sent<'a>),
    // One with that stamp.
    At(u64),
    // Octets of an incarnation.
    Octets(u32),
}

// Whether the next item towards a peer is so.
pub(super) fn puts(alloc: Global, router: &mut Router<'_>, peer: Asn, wanted: &Put<'_>) -> bool {
    let Ok(Some(item)) = puts_next(router, peer) else {
        return false;
    };
    match wanted {
        Put::Item(sent) => is_sent(alloc, &item, sent),
        Put::At(stamp) => item.stamp == *stamp,
        Put::Octets(epoch) => numbers(&item.what) == (1, *epoch, 0),
    }
}

// Puts all that waits towards a peer, of which there is little.
pub(super) fn drains(router: &mut Router<'_>, peer: Asn) -> bool {
    for _ in 0..8 {
        match puts_next(router, peer) {
            Ok(Some(_)) => {}
            Ok(None) => return true,
            Err(_) => return false,
        }
    }
    true
}

// An item of a peer with this stamp, where there was memory for it.
pub(super) fn made(alloc: Global, stamp: u64, sent: &Sent<'_>) -> Option<Item> {
    let what = what(alloc, sent)?;
    Some(Item { stamp, what })
}

// Whether the item of a peer is answered so, where the caller has room for the event, or has none.
pub(super) fn takes(
    alloc: Global,
    router: &mut Router<'_>,
    peer: Asn,
    stamp: u64,
    sent: &Sent<'_>,
    room: Result<(), AllocError>,
    answer: Answer,
) -> bool {
    match made(alloc, stamp, sent) {
        Some(item) => takes_with(router, peer, &item, room) == answer,
        None => false,
    }
}
