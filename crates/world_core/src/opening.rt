//! The routers, pipes and offers of a world before anything was done.

ghost use Rattle.std.specs.Prelude.{◌≡◌, ℕ, [], true, map, slice_get, Some, IfOk, MatchOption};
ghost use Rattle.std.specs.List.{AllByRecursion};
ghost use Rattle.ranked_policy.specs.declared.network.Link.{Link};
ghost use Rattle.ranked_policy.specs.Plans.{IsRouter, numbers};
ghost use Rattle.router_model.specs.Settings.{linked, peers};
ghost use Rattle.world_core.specs.Views.{IsWhole, KnowsBack, Opens, IsNewRouter};
ghost use Rattle.world_core.specs.Steps.{view_of};

use crate::inbox::{Inbox, Pipe};
use crate::state::State;
use ranked_policy::{Asn, Link, Network};
use router_core::Router;
use router_model::laws::linked_routers_are_peers;
use snap_collector::Collector;
use std::alloc::{AllocError, Global};
use std::collections::VecDeque;

/// A router of the network, as it starts. It is refused only for want of memory.
pub fn new_router<'a>(
    alloc: Global,
    network: &'a Network,
    number: Asn,
) -> Result<Router<'a>, AllocError>
    requires { IsRouter network.now.routers number }
    ensures new { IfOk result (IsNewRouter network.now) }
    ensures number { IfOk result (λ router. router.number ≡ number) }
{
    match Router::new(alloc, network, number) {
        Ok(router) => Ok(router),
        Err(_) => Err(AllocError),
    }
}

// Every router of the network, as it starts.
fn new_routers<'a>(alloc: Global, network: &'a Network) -> Result<Vec<Router<'a>>, AllocError>
    ensures numbers { IfOk result (λ made. map (λ r. r.number) made.items ≡ numbers network.now.routers) }
    ensures new { IfOk result (λ made. AllByRecursion (IsNewRouter network.now) made.items) }
{
    let mut made = Vec::new(alloc);
    for router in network.routers() {
        made.push(new_router(alloc, network, router.asn)?)?;
    }
    Ok(made)
}

// The place of a peer among those that links lead to.
fn place_among(links: &[Link], peer: Asn) -> Option<usize>
    ensures { MatchOption result ((k : ℕ) (l : Link) → slice_get links.now k ≡ Some l → l.other ≡ peer → ⊥)
        (λ k. (l : Link) × (slice_get links.now k ≡ Some l) × (l.other ≡ peer)) }
{
    for (place, link) in links.iter().enumerate() {
        if link.other == peer {
            return Some(place);
        }
    }
    None
}

// The empty pipe from a peer to a router.
fn new_pipe(alloc: Global, network: &Network, number: Asn, peer: Asn) -> Pipe
    requires { linked network.now number peer ≡ true }
    ensures peer { result.peer ≡ peer }
    ensures empty { result.items.items ≡ [] }
    ensures back { KnowsBack network.now number result }
{
    linked_routers_are_peers();
    let _ = network.built();
    let router = network.place(peer).unwrap();
    let back = place_among(network.links_of(peer), number).unwrap();
    Pipe {
        peer,
        router,
        back,
        items: VecDeque::new(alloc),
    }
}

// The empty pipes that lead to a router.
fn new_pipes(alloc: Global, network: &Network, number: Asn) -> Result<Vec<Pipe>, AllocError>
    ensures peers { IfOk result (λ made. map (λ p. p.peer) made.items ≡ peers network.now number) }
    ensures empty { IfOk result (λ made. AllByRecursion (λ p. p.items.items ≡ []) made.items) }
    ensures backs { IfOk result (λ made. AllByRecursion (KnowsBack network.now number) made.items) }
{
    let mut made = Vec::new(alloc);
    for link in network.links_of(number) {
        made.push(new_pipe(alloc, network, number, link.other))?;
    }
    Ok(made)
}

// The empty pipes that lead to every router.
fn new_inboxes(alloc: Global, network: &Network) -> Result<Vec<Inbox>, AllocError>
    ensures routers { IfOk result (λ made. map (λ i. i.router) made.items ≡ numbers network.now.routers) }
    ensures peers { IfOk result
        (λ made. AllByRecursion (λ i. map (λ p. p.peer) i.pipes.items ≡ peers network.now i.router) made.items) }
    ensures empty { IfOk result
        (λ made. AllByRecursion (λ i. AllByRecursion (λ p. p.items.items ≡ []) i.pipes.items) made.items) }
    ensures backs { IfOk result
        (λ made. AllByRecursion (λ i. AllByRecursion (KnowsBack network.now i.router) i.pipes.items) made.items) }
{
    let mut made = Vec::new(alloc);
    for router in network.routers() {
        let pipes = new_pipes(alloc, network, router.asn)?;
        made.push(Inbox {
            router: router.asn,
            pipes,
        })?;
    }
    Ok(made)
}

/// The state of a world before anything was done. It is refused only for want of memory.
pub(crate) fn opening<'a>(alloc: Global, network: &'a Network) -> Result<State<'a>, AllocError>
    ensures whole { IfOk result (λ state. IsWhole (view_of state)) }
    ensures opens { IfOk result (λ state. Opens network.now (view_of state)) }
{
    let _ = network.built();
    Ok(State {
        network,
        routers: new_routers(alloc, network)?,
        inboxes: new_inboxes(alloc, network)?,
        collector: Collector::new(alloc, network)?,
        board: 0,
        run: Vec::new(alloc),
    })
}
