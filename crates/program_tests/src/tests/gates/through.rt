//! The record of two routers in lockstep, through the cut of its snapshot.

use super::{Holds, NARROW, Pair, WIDE, new_asked, read_pair, two_gates};
use net_workers::{Limits, Record, run_net};
use prefix_lanes::Prefix;
use ranked_policy::{Asn, Network};
use router_core::Router;
use std::alloc::{AllocError, Global};
use std::sync::Wait;
use std::test::Fail;
use std::thread::Threads;
use worker_loop::WorkerEvent;
use world_core::{Event, World, play, through_cut};

// What a router acted on and sent with a peer.
fn told(alloc: Global, router: &Router<'_>, peer: Asn) -> Result<String, AllocError> {
    let (Some(acted), Some(sent)) = (router.acted(alloc, peer), router.sent(alloc, peer)) else {
        return Err(AllocError);
    };
    let acted = acted?;
    let sent = sent?;
    format!(in alloc; "{acted:?} {sent:?}")
}

// Whether a router of a world keeps the same path, and acted on and sent the same.
fn is_alike(
    alloc: Global,
    world: &World<'_>,
    router: &Router<'_>,
    peer: Asn,
    prefix: &Prefix,
) -> Result<bool, AllocError> {
    match world.router(router.number()) {
        Some(other) => Ok(
            router.kept(prefix) == other.kept(prefix)
                && told(alloc, router, peer)? == told(alloc, other, peer)?,
        ),
        None => Ok(false),
    }
}

// Whether events lead to two routers as these.
fn lead_to(
    alloc: Global,
    network: &Network,
    events: &[Event],
    routers: (&Router<'_>, &Router<'_>),
    prefix: &Prefix,
) -> Result<bool, AllocError> {
    match play(alloc, network, events) {
        Ok(world) => Ok(
            is_alike(alloc, &world, routers.0, 2, prefix)?
                && is_alike(alloc, &world, routers.1, 1, prefix)?,
        ),
        Err(_) => Ok(false),
    }
}

fn events_of(alloc: Global, gathered: &[WorkerEvent]) -> Result<Vec<Event>, AllocError> {
    gathered.iter().map(|entry| entry.event).collect(alloc)
}

// Whether the run of a record goes through the cut of snapshot 1, and ends there too as the record.
fn goes_through<G>(
    alloc: Global,
    network: &Network,
    record: &Record<'_, G>,
    prefix: &Prefix,
) -> Result<bool, AllocError> {
    let events = events_of(alloc, record.gathered.as_slice())?;
    match (
        through_cut(alloc, network, events.as_slice(), 1),
        record.workers.as_slice(),
    ) {
        (Ok(Some(through)), [one, other]) => lead_to(
            alloc,
            network,
            through.events.as_slice(),
            (&one.router, &other.router),
            prefix,
        ),
        _ => Ok(false),
    }
}

// Whether the record of two routers in lockstep goes through the cut, and ends there too as the
// record.
fn does_so<R: Threads + Wait + Sync>(
    rt: &R,
    alloc: Global,
    pair: &Pair,
) -> Result<bool, AllocError> {
    let asked = new_asked();
    let gates = two_gates(alloc, &asked, Holds::Each, pair.prefix)?;
    match run_net(rt, alloc, &pair.network, gates, Limits { turns: 1000 }) {
        Ok(record) => goes_through(alloc, &pair.network, &record, &pair.prefix),
        Err(_) => Ok(false),
    }
}

#[test]
fn gate_lockstep_through_the_cut(rt: HostRuntime) -> Result<(), Fail> {
    for text in [WIDE, NARROW] {
        let pair = read_pair(rt.alloc(), text)?;
        assert!(rt; does_so(&rt, rt.alloc(), &pair)?);
    }
    Ok(())
}
