//! The sessions of a router.

ghost use Rattle.std.specs.Prelude.{◌≡◌, ◌++◌, true, is_some, slice_get, OnOk};
ghost use Rattle.bgp_framing.specs.Held.{is_waiting};
ghost use Rattle.outbox.specs.Items.{octets_waiting};
ghost use Rattle.ranked_policy.specs.Plans.{IsRouter};
ghost use Rattle.router_core.specs.Views.{sides_of};
ghost use Rattle.why_engine.specs.Explaining.{ArePeers, IsPeer, is_coming, peer_line, timers_line, peers_text, pipes_to};

use crate::lines::{put_peer_line, put_timers_line};
use ranked_policy::Asn;
use router_core::Router;
use std::alloc::{AllocError, Global};
use world_core::World;

// Whether an item of a peer is in the pipe towards a router.
fn is_in_pipe(world: &World<'_>, router: &Router<'_>, peer: Asn) -> bool
    requires same { world.now.net ≡ router.now.net }
    requires there { IsRouter router.now.net.routers router.now.number }
    requires peer { IsPeer router.now peer }
    ensures { result ≡ is_some (slice_get (pipes_to world.now router.now.number peer) 0) }
{
    world.next_to_take(router.number(), peer).is_some()
}

// Whether a message of a peer waits to be handled.
fn is_unhandled(alloc: Global, router: &Router<'_>, peer: Asn) -> bool
    requires { IsPeer router.now peer }
    ensures { result ≡ is_waiting (sides_of router.now peer).held }
{
    router.front(alloc, peer).is_some()
}

// Whether something of a peer is on its way to a router.
fn is_coming(alloc: Global, world: &World<'_>, router: &Router<'_>, peer: Asn) -> bool
    requires same { world.now.net ≡ router.now.net }
    requires there { IsRouter router.now.net.routers router.now.number }
    requires peer { IsPeer router.now peer }
    ensures { result ≡ is_coming (pipes_to world.now router.now.number peer) (sides_of router.now peer) }
{
    is_in_pipe(world, router, peer) || is_unhandled(alloc, router, peer)
}

// Appends a peer, and the timers of the session with it.
fn put_peer(
    router: &Router<'_>,
    peer: Asn,
    coming: bool,
    out: &mut Vec<u8>,
) -> Result<(), AllocError>
    requires { IsPeer router.now peer }
    ensures { OnOk result
        (out.new.items
        ≡ out.old.items
        ++ (peer_line peer (sides_of router.now peer).session.state (sides_of router.now peer).link.epoch
        (octets_waiting (sides_of router.now peer).outbox) coming
        ++ timers_line (sides_of router.now peer).session)) }
{
    let Some(session) = router.session(peer) else {
        return Ok(());
    };
    let epoch = router.epoch(peer).unwrap_or(0);
    let waiting = router.octets_waiting(peer).unwrap_or(0);
    put_peer_line(peer, session.state(), epoch, waiting, coming, out)?;
    put_timers_line(&session, out)
}

/// Appends the peers of a router.
pub(crate) fn put_peers(
    alloc: Global,
    world: &World<'_>,
    router: &Router<'_>,
    peers: &[Asn],
    out: &mut Vec<u8>,
) -> Result<(), AllocError>
    requires same { world.now.net ≡ router.now.net }
    requires there { IsRouter router.now.net.routers router.now.number }
    requires peers { ArePeers router.now peers.now }
    ensures { OnOk result
        (out.new.items
        ≡ out.old.items ++ peers_text (sides_of router.now) (pipes_to world.now router.now.number) peers.now) }
{
    for peer in peers {
        let coming = is_coming(alloc, world, router, *peer);
        put_peer(router, *peer, coming, out)?;
    }
    Ok(())
}
