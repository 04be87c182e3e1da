//! The peers of a router, by rising number.

ghost use Rattle.std.specs.Prelude.{◌≡◌};
ghost use Rattle.std.specs.List.{position};
ghost use Rattle.router_core.specs.Views.{is_number};

use ranked_policy::Asn;
use router_side::Side;

/// A peer: its number, and the side towards it.
#[derive(Drop)]
pub(crate) struct Peer {
    pub number: Asn,
    pub side: Side,
}

/// The place of a number.
pub(crate) fn place_of(peers: &[Peer], number: Asn) -> Option<usize>
    ensures { result ≡ position (is_number number) peers.now }
{
    peers.iter().position(|peer| peer.number == number)
}
