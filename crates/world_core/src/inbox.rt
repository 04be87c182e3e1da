//! The pipes that lead to a router.

ghost use Rattle.std.specs.Prelude.{◌≡◌};
ghost use Rattle.std.specs.List.{position};
ghost use Rattle.world_core.specs.Views.{is_from};

use outbox::Item;
use ranked_policy::Asn;
use std::collections::VecDeque;

/// What a peer put towards a router and the router did not take, the oldest first.
#[derive(Drop)]
pub(crate) struct Pipe {
    pub peer: Asn,
    // The place of the peer in the network.
    pub router: usize,
    // The place of the pipe that leads back, among those to the peer.
    pub back: usize,
    pub items: VecDeque<Item>,
}

/// A router, and the pipes that lead to it, by rising peer.
#[derive(Drop)]
pub(crate) struct Inbox {
    pub router: Asn,
    pub pipes: Vec<Pipe>,
}

/// The place of the pipe from a peer.
pub(crate) fn place_of(pipes: &[Pipe], peer: Asn) -> Option<usize>
    ensures { result ≡ position (is_from peer) pipes.now }
{
    pipes.iter().position(|pipe| pipe.peer == peer)
}
