//! What the routers 1 and 2 of a link offer of a snapshot.

use super::messages::withdrawal;
use bgp_codec::Update;
use ranked_policy::Asn;
use snap_marker::{Cause, Channel, Lost, Offer, Part};
use std::alloc::{AllocError, Global};

/// What a router offers.
#[derive(Clone, Copy)]
pub(super) enum Offered {
    /// Its part of snapshot 5: whether it is pending, the incarnation of its one link, and how many
    /// UPDATEs are in the channel.
    Part(Asn, bool, u32, u32),
    /// Its loss of the snapshot of this number, by a close of incarnation 7.
    Loss(Asn, u32),
}

fn updates(alloc: Global, count: u32) -> Result<Vec<Update>, AllocError> {
    let mut heard = Vec::new(alloc);
    for _ in 0..count {
        heard.push(withdrawal(alloc)?).map_err(|_| AllocError)?;
    }
    Ok(heard)
}

// The channel from the other of the two routers.
fn channel(router: Asn, epoch: u32, updates: Vec<Update>) -> Channel {
    Channel {
        peer: if router == 1 { 2 } else { 1 },
        epoch,
        is_open: false,
        updates,
    }
}

fn channels(
    alloc: Global,
    router: Asn,
    epoch: u32,
    count: u32,
) -> Result<Vec<Channel>, AllocError> {
    let updates = updates(alloc, count)?;
    let mut channels = Vec::new(alloc);
    channels
        .push(channel(router, epoch, updates))
        .map_err(|_| AllocError)?;
    Ok(channels)
}

// A part that keeps and originates nothing.
fn part(alloc: Global, router: Asn, pending: bool, channels: Vec<Channel>) -> Offer {
    Offer::Part(Part {
        router,
        number: 5,
        kept: Vec::new(alloc),
        originated: Vec::new(alloc),
        pending,
        channels,
    })
}

fn loss(router: Asn, number: u32) -> Offer {
    Offer::Lost(Lost {
        router,
        number,
        peer: 1,
        epoch: 7,
        cause: Cause::Closed,
    })
}

pub(super) fn offer(alloc: Global, offered: Offered) -> Result<Offer, AllocError> {
    match offered {
        Offered::Part(router, pending, epoch, updates) => {
            let channels = channels(alloc, router, epoch, updates)?;
            Ok(part(alloc, router, pending, channels))
        }
        Offered::Loss(router, number) => Ok(loss(router, number)),
    }
}

/// The loss of 2, of snapshot 5.
pub(super) const LOSS_OF_2: Lost = Lost {
    router: 2,
    number: 5,
    peer: 1,
    epoch: 7,
    cause: Cause::Closed,
};
