//! What router 1 records.

use crate::tests::networks::prefix;
use prefix_lanes::Prefix;
use ranked_policy::{Asn, Path};
use snap_marker::{Channel, KeptPath, Part};
use std::alloc::{AllocError, Global};

// The path of router 1 alone.
fn kept(alloc: Global) -> Result<Vec<KeptPath>, AllocError> {
    let prefix = prefix().ok_or(AllocError)?;
    let path = Path::from_slice(alloc, &[1])?;
    let mut kept = Vec::new(alloc);
    kept.push(KeptPath { prefix, path })
        .map_err(|_| AllocError)?;
    Ok(kept)
}

fn originated(alloc: Global) -> Result<Vec<Prefix>, AllocError> {
    let prefix = prefix().ok_or(AllocError)?;
    Vec::from_slice(alloc, &[prefix])
}

// The empty channel of a peer, whose marker came or did not.
fn channel(alloc: Global, peer: Asn, is_open: bool) -> Channel {
    Channel {
        peer,
        epoch: 7,
        is_open,
        updates: Vec::new(alloc),
    }
}

fn channels(alloc: Global, peers: &[Asn], first: Option<Asn>) -> Result<Vec<Channel>, AllocError> {
    let mut channels = Vec::new(alloc);
    for peer in peers {
        channels
            .push(channel(alloc, *peer, Some(*peer) != first))
            .map_err(|_| AllocError)?;
    }
    Ok(channels)
}

// The part of these.
fn part_of(
    number: u32,
    kept: Vec<KeptPath>,
    originated: Vec<Prefix>,
    channels: Vec<Channel>,
) -> Part {
    Part {
        router: 1,
        number,
        kept,
        originated,
        pending: true,
        channels,
    }
}

/// One path, one prefix originated, and the links to the peers, open but for the one over which the
/// marker came.
pub(super) fn part(
    alloc: Global,
    number: u32,
    peers: &[Asn],
    first: Option<Asn>,
) -> Result<Part, AllocError> {
    let originated = originated(alloc)?;
    let channels = channels(alloc, peers, first)?;
    let kept = kept(alloc)?;
    Ok(part_of(number, kept, originated, channels))
}
