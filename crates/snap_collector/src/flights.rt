//! The UPDATEs that were in flight as a snapshot was recorded.

ghost use Rattle.std.specs.Prelude.{◌≡◌, ◌++◌, map, IfOk, OnOk};
ghost use Rattle.std.specs.List.{flat_map};
ghost use Rattle.snap_marker.specs.Parts.{channel_in, messages, part_of};
ghost use Rattle.snap_collector.specs.Collecting.{made_in, member_of};
ghost use Rattle.snap_collector.specs.Flights.{flight_of, flights_from, flights_of, flights_at};

use crate::members::Member;
use crate::verdicts::first_part;
use bgp_codec::Update;
use ranked_policy::Asn;
use snap_marker::{Channel, Offer, Part};
use std::alloc::{AllocError, Global};

/// An UPDATE that was in flight as a snapshot was recorded: the router acted on it behind its recording, and the peer
/// had sent it before its own recording.
#[derive(Debug, Drop)]
pub struct InFlight {
    /// The router.
    pub router: Asn,
    /// The peer.
    pub peer: Asn,
    /// What it says.
    pub update: Update,
}

// Appends the UPDATEs of a channel, from a peer to a router.
fn put_updates(
    alloc: Global,
    flights: &mut Vec<InFlight>,
    router: Asn,
    peer: Asn,
    updates: &[Update],
) -> Result<(), AllocError>
    ensures { OnOk result
        (map flight_of flights.new.items
        ≡ map flight_of flights.old.items ++ flights_from router peer (messages updates.now)) }
{
    for update in updates {
        flights.push(InFlight {
            router,
            peer,
            update: update.copied(alloc)?,
        })?;
    }
    Ok(())
}

// Appends the UPDATEs of the first of the channels that is the peer's.
fn put_channel(
    alloc: Global,
    flights: &mut Vec<InFlight>,
    router: Asn,
    peer: Asn,
    channels: &[Channel],
) -> Result<(), AllocError>
    ensures { OnOk result
        (map flight_of flights.new.items
        ≡ map flight_of flights.old.items ++ flights_from router peer (channel_in channels.now peer)) }
{
    for channel in channels {
        if peer == channel.peer {
            return put_updates(alloc, flights, router, peer, &channel.updates);
        }
    }
    Ok(())
}

// Appends the UPDATEs in the channels of a part, by the router's peers.
fn put_part(
    alloc: Global,
    flights: &mut Vec<InFlight>,
    member: &Member,
    part: &Part,
) -> Result<(), AllocError>
    ensures { OnOk result
        (map flight_of flights.new.items
        ≡ map flight_of flights.old.items ++ flights_of (member_of member.now) (part_of part.now)) }
{
    for peer in member.peers.as_slice() {
        put_channel(alloc, flights, member.router, *peer, &part.channels)?;
    }
    Ok(())
}

// Appends the UPDATEs in flight to one router, by its first part.
fn put_router(
    alloc: Global,
    flights: &mut Vec<InFlight>,
    member: &Member,
    offers: &[Offer],
) -> Result<(), AllocError>
    ensures { OnOk result
        (map flight_of flights.new.items
        ≡ map flight_of flights.old.items ++ flights_at (made_in offers.now) (member_of member.now)) }
{
    match first_part(offers, member.router) {
        Some(part) => put_part(alloc, flights, member, part),
        None => Ok(()),
    }
}

/// The UPDATEs in the channels of the routers' first parts, by router, then peer, in the order acted on.
pub(crate) fn flights_to(
    alloc: Global,
    members: &[Member],
    offers: &[Offer],
) -> Result<Vec<InFlight>, AllocError>
    ensures { IfOk result
        (λ flights. map flight_of flights.items
        ≡ flat_map (flights_at (made_in offers.now)) (map member_of members.now)) }
{
    let mut flights = Vec::new(alloc);
    for member in members {
        put_router(alloc, &mut flights, member, offers)?;
    }
    Ok(flights)
}
