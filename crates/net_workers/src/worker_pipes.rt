//! The ends of pipes that a worker holds.

ghost use Rattle.std.specs.Prelude.{◌≡◌, false, map, IfOk, MatchOption};
ghost use Rattle.std.specs.List.{position};
ghost use Rattle.net_workers.specs.Lanes.{is_to, place_among, reaches, IsFound, stands_at, wiring_of};

use outbox::Item;
use ranked_policy::{Asn, Link};
use ruled_pipe::{PutEnd, TakeEnd};
use std::alloc::{AllocError, Global};
use std::sync::Wait;
use worker_loop::Pipes;

/// A worker's ends of the two pipes between it and the worker of a peer.
#[derive(Drop)]
pub struct PipePair {
    /// The peer.
    pub peer: Asn,
    /// The end that puts towards the peer.
    pub out: PutEnd<Item>,
    /// The end that takes from the peer.
    pub into: TakeEnd<Item>,
}

/// The pairs of a worker.
#[derive(Drop)]
pub struct WorkerPipes {
    /// The pairs, in the order in which links were dealt.
    pub pairs: Vec<PipePair>,
    /// Where the pair to each peer stands among them, by rising peer. It is empty until a worker holds them.
    pub order: Vec<usize>,
}

// The place of the pair to a peer.
fn place_of(pairs: &[PipePair], peer: Asn) -> Option<usize>
    ensures { result ≡ position (is_to peer) pairs.now }
{
    pairs.iter().position(|pair| pair.peer == peer)
}

/// Where the pair to the peer of each link stands, in the order of the links; behind all, if there is none. It answers an
/// error if memory is refused.
pub(crate) fn order_of(
    alloc: Global,
    pairs: &[PipePair],
    links: &[Link],
) -> Result<Vec<usize>, AllocError>
    ensures { IfOk result
        (λ order. order.items ≡ map (λ v. place_among (is_to v) pairs.now) (map (λ link. link.other) links.now)) }
{
    let mut order = Vec::new(alloc);
    for link in links {
        order.push(place_of(pairs, link.other).unwrap_or(pairs.len()))?;
    }
    Ok(order)
}

impl WorkerPipes {
    // Where the pair of the peer at a place stands, if there is one.
    fn pair_at(&self, peer_at: usize, _peer: Asn) -> Option<usize>
        requires { stands_at (wiring_of self.now) peer_at _peer }
        ensures { MatchOption result (reaches self.now.pairs.items _peer ≡ false) (IsFound self.now.pairs.items _peer) }
    {
        let at = self.order[peer_at];
        if at < self.pairs.len() {
            return Some(at);
        }
        None
    }
}

impl Pipes for WorkerPipes {
    ghost use Rattle.net_workers.specs.Lanes.{put_of, taken_of, room_of, Wiring, wiring_of, stands_at};

    ghost put_to = { λ e. put_of e.pairs.items };

    ghost taken_from = { λ e. taken_of e.pairs.items };

    ghost room = { λ e. room_of e.pairs.items };

    ghost Wiring = { Wiring };

    ghost wiring = { wiring_of };

    ghost stands = { stands_at };

    fn places(&self) -> usize {
        self.order.len()
    }

    fn put<R: Wait>(&mut self, rt: &R, peer_at: usize, peer: Asn, item: Item) -> Result<(), Item> {
        let Some(at) = self.pair_at(peer_at, peer) else {
            return Err(item);
        };
        self.pairs[at].out.put(rt, item)
    }

    fn is_full(&mut self, peer_at: usize, peer: Asn) -> bool {
        let Some(at) = self.pair_at(peer_at, peer) else {
            return true;
        };
        self.pairs[at].out.is_full()
    }

    fn take<R: Wait>(&mut self, rt: &R, peer_at: usize, peer: Asn) -> Option<Item> {
        let at = self.pair_at(peer_at, peer)?;
        self.pairs[at].into.take(rt)
    }
}
