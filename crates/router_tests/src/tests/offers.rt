//! What a router offers of a snapshot.

use super::steps::{Named, prefix};
use prefix_lanes::Prefix;
use ranked_policy::Asn;
use router_core::{Offer, Router};
use snap_marker::{Cause, Channel, Lost, Part};
use std::mem::forget;

// What a router is to offer.
#[derive(Clone, Copy)]
pub(super) enum Offered {
    Nothing,
    // A part of router 1 with this number.
    Part(u32),
    // A part with so many UPDATEs of 2, and of 3.
    Updates(usize, usize),
    // A part that is pending, or is not.
    Pending(bool),
    // A part that keeps and originates this prefix alone, and names incarnation 1 of both links.
    State(Named),
    // The loss of recording 1, by the link to this peer in this incarnation.
    Loss(Asn, u32, Cause),
}

fn updates_of(channels: &[Channel], peer: Asn) -> Option<usize> {
    for channel in channels {
        if channel.peer == peer {
            return Some(channel.updates.len());
        }
    }
    None
}

// Whether it keeps the path of router 1 alone for the prefix.
fn keeps_first(part: &Part, prefix: Prefix) -> bool {
    match part.kept.as_slice().first() {
        Some(kept) => kept.prefix == prefix && kept.path.as_slice() == [1].as_slice(),
        None => false,
    }
}

fn is_state(part: &Part, prefix: Option<Prefix>) -> bool {
    let Some(prefix) = prefix else {
        return false;
    };
    let own = part.originated.as_slice() == [prefix].as_slice();
    own && keeps_first(part, prefix) && part.epoch(2) == 1 && part.epoch(3) == 1
}

fn is_part(part: &Part, offered: &Offered) -> bool {
    match offered {
        Offered::Part(number) => part.router == 1 && part.number == *number,
        Offered::Updates(of_two, of_three) => {
            let channels = part.channels.as_slice();
            updates_of(channels, 2) == Some(*of_two) && updates_of(channels, 3) == Some(*of_three)
        }
        Offered::Pending(pending) => part.pending == *pending,
        Offered::State(named) => is_state(part, prefix(*named)),
        Offered::Nothing | Offered::Loss(..) => false,
    }
}

fn is_loss(lost: &Lost, offered: &Offered) -> bool {
    match offered {
        Offered::Loss(peer, epoch, cause) => {
            *lost
                == Lost {
                    router: 1,
                    number: 1,
                    peer: *peer,
                    epoch: *epoch,
                    cause: *cause,
                }
        }
        _ => false,
    }
}

pub(super) fn offers(router: &Router<'_>, offered: &Offered) -> bool {
    match router.next_offer() {
        Some(Offer::Part(part)) => is_part(part, offered),
        Some(Offer::Lost(lost)) => is_loss(lost, offered),
        None => matches!(offered, Offered::Nothing),
    }
}

// Whether what would be recorded now is that state, and not pending.
pub(super) fn records_now(router: &mut Router<'_>, prefix: Prefix) -> bool {
    match router.part_state() {
        Ok(part) => {
            let is_state = is_state(&part, Some(prefix)) && !part.pending;
            forget(part);
            is_state
        }
        Err(_) => false,
    }
}

// The incarnation of the link to a peer, as the router has it.
pub(super) fn epoch(router: &mut Router<'_>, peer: Asn) -> u32 {
    match router.part_state() {
        Ok(part) => {
            let epoch = part.epoch(peer);
            forget(part);
            epoch
        }
        Err(_) => 0,
    }
}
