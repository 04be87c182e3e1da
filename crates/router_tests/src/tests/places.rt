//! Two routers, each the first peer of the other, are asked by place.

use super::answers::{DID, does};
use super::*;
use router_core::{Call, Item};

// What a router is asked of its first peer.
#[derive(Clone, Copy)]
enum Asked {
    MayTake,
    PutsNothing,
    IsQuiet,
}

fn is_so(router: &Router<'_>, asked: Asked) -> bool {
    let Some(peer) = router.peer_at(0) else {
        return false;
    };
    match asked {
        Asked::MayTake => router.may_take_at(0, peer),
        Asked::PutsNothing => router.puts_nothing_at(0, peer),
        Asked::IsQuiet => router.link_is_idle_at(0, peer),
    }
}

// Whether the item of the first peer is taken.
fn takes_first(router: &mut Router<'_>, item: &Item) -> bool {
    match router.peer_at(0) {
        Some(peer) => router.take_at(0, peer, item, Ok(())) == DID,
        None => false,
    }
}

// Whether the message of the first peer is handled, if one waits.
fn handles_first(router: &mut Router<'_>) -> bool {
    match router.peer_at(0) {
        Some(peer) => router.handle_at(0, peer, Ok(())).is_ok(),
        None => false,
    }
}

// An item is put towards the first peer, and taken.
fn passes(from: &mut Router<'_>, to: &mut Router<'_>) -> bool {
    let Some(peer) = from.peer_at(0) else {
        return false;
    };
    let Ok(Some(item)) = from.next_item_at(0, peer) else {
        return false;
    };
    if !takes_first(to, &item) {
        return false;
    }
    from.item_put_at(0, peer);
    true
}

// Where an item is put and may be taken, it passes.
fn carries(from: &mut Router<'_>, to: &mut Router<'_>) -> bool {
    is_so(from, Asked::PutsNothing) || !is_so(to, Asked::MayTake) || passes(from, to)
}

fn acts(router: &mut Router<'_>) -> bool {
    handles_first(router)
        && does(router, &Call::Decide).is_ok()
        && does(router, &Call::Advertise).is_ok()
}

// Turns pass until both are quiet.
fn is_settled(one: &mut Router<'_>, two: &mut Router<'_>) -> bool {
    for _ in 0..100 {
        if is_so(one, Asked::IsQuiet) && is_so(two, Asked::IsQuiet) {
            return true;
        }
        if !carries(one, two) || !carries(two, one) || !acts(one) || !acts(two) {
            return false;
        }
    }
    false
}

// Both have something to put at first, and nothing once they are quiet.
pub(super) fn settles_by_place(one: &mut Router<'_>, two: &mut Router<'_>) -> bool {
    !is_so(one, Asked::PutsNothing)
        && !is_so(two, Asked::IsQuiet)
        && is_settled(one, two)
        && is_so(one, Asked::PutsNothing)
        && is_so(two, Asked::MayTake)
}
