//! The calls of a router, each without what it ensures: a proof of a function that makes several carries
//! each answer's equation along.

use prefix_lanes::Prefix;
use ranked_policy::{Asn, MOST_LINKS};
use router_core::{Call, Command, Item, Router, RouterError, Stepped};
use std::alloc::AllocError;

pub(super) type Answer = Result<Stepped, RouterError>;

pub(super) const DID: Answer = Ok(Stepped::Did);

pub(super) const NOTHING: Answer = Ok(Stepped::Nothing);

pub(super) const MEMORY: Answer = Err(RouterError::Memory);

pub(super) fn does(router: &mut Router<'_>, call: &Call) -> Answer {
    match call {
        Call::Obey(command) => router.command(*command),
        Call::Tick => router.tick(),
        Call::Handle(peer) => router.handle(*peer),
        Call::Decide => router.decide(),
        Call::Advertise => router.advertise(),
    }
}

// What a call answers if the caller has no room for the event.
pub(super) fn does_without_room(router: &mut Router<'_>, call: &Call) -> Answer {
    router.perform(call, Err(AllocError))
}

pub(super) fn takes_item(router: &mut Router<'_>, peer: Asn, item: &Item) -> Answer {
    router.take_item(peer, item)
}

// What an item is answered by a router whose caller has room for the event, or has none; room is never asked for where
// no link leads to the peer.
pub(super) fn takes_with(
    router: &mut Router<'_>,
    peer: Asn,
    item: &Item,
    room: Result<(), AllocError>,
) -> Answer {
    for place in 0..MOST_LINKS {
        let Some(other) = router.peer_at(place) else {
            break;
        };
        if other == peer {
            return router.take_at(place, other, item, room);
        }
    }
    router.take_item(peer, item)
}

pub(super) fn may_take(router: &Router<'_>, peer: Asn) -> bool {
    router.may_take(peer)
}

pub(super) fn stamp(router: &Router<'_>) -> u64 {
    router.stamp()
}

pub(super) fn keeps(router: &Router<'_>, prefix: &Prefix, path: &[Asn]) -> bool {
    router.kept(prefix) == path
}

// Puts the next item towards a peer, and answers it.
pub(super) fn puts_next(router: &mut Router<'_>, peer: Asn) -> Result<Option<Item>, RouterError> {
    let Some(item) = router.next_item(peer)? else {
        return Ok(None);
    };
    router.item_put(peer);
    Ok(Some(item))
}

// Whether something is left to put towards a peer; no answer where that is refused.
pub(super) fn waits(router: &Router<'_>, peer: Asn) -> Option<bool> {
    match router.next_item(peer) {
        Ok(item) => Some(item.is_some()),
        Err(_) => None,
    }
}

// Lets so many seconds pass.
pub(super) fn seconds(router: &mut Router<'_>, n: u32) -> bool {
    for _ in 0..n {
        if does(router, &Call::Tick) != DID {
            return false;
        }
    }
    true
}

// Its stamp after an answer: one above the greatest of its last and the item's, or its last.
fn has_stamp(router: &Router<'_>, answer: Answer, last: u64, items: u64) -> bool {
    let now = stamp(router);
    match answer {
        Ok(Stepped::Did) => now == last.max(items).saturating_add(1),
        Ok(Stepped::Nothing) | Err(_) => now == last,
    }
}

// What is answered without room, by what is with it.
fn without_room(answer: Answer) -> Answer {
    if answer == DID { MEMORY } else { answer }
}

// A call is answered without room as with it, but that a step is refused, and the stamp stays.
pub(super) fn does_either_way(router: &mut Router<'_>, call: &Call) -> bool {
    let last = stamp(router);
    let without = does_without_room(router, call);
    let stays = stamp(router) == last;
    let answer = does(router, call);
    stays && without == without_room(answer) && has_stamp(router, answer, last, 0)
}

// An item too; it is refused where a message waits, and there alone.
pub(super) fn takes_either_way(router: &mut Router<'_>, peer: Asn, item: &Item) -> bool {
    let last = stamp(router);
    let held = !may_take(router, peer);
    let without = takes_with(router, peer, item, Err(AllocError));
    let stays = stamp(router) == last;
    let answer = takes_item(router, peer, item);
    let refused = answer == Err(RouterError::Held { peer });
    stays
        && without == without_room(answer)
        && refused == held
        && has_stamp(router, answer, last, item.stamp)
}

// A prefix is originated, or withdrawn, and what then is kept is told.
fn changes(router: &mut Router<'_>, command: Command) -> Answer {
    does(router, &Call::Obey(command))?;
    does(router, &Call::Decide)?;
    does(router, &Call::Advertise)
}

// A prefix comes and goes until router 2 is told nothing more: whether that came to be.
pub(super) fn fills(router: &mut Router<'_>, prefix: Prefix) -> bool {
    let blocked = Err(RouterError::Blocked { peer: 2 });
    for _ in 0..1000 {
        if changes(router, Command::Originate(prefix)) == blocked
            || changes(router, Command::Withdraw(prefix)) == blocked
        {
            return true;
        }
    }
    false
}
