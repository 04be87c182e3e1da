//! What there is to do with a peer: whether its next item may be taken, whether one waits to be put towards the peer,
//! and whether nothing is to be put or handled.

ghost use Rattle.std.specs.Prelude.{ℕ, ◌≡◌, true, Some, slice_get};
ghost use Rattle.router_side.specs.SideOf.{side};
ghost use Rattle.router_model.specs.Settings.{linked, peers};
ghost use Rattle.router_core.specs.Views.{sides_of, may_take, puts_nothing, link_is_idle};

use super::Router;
use ranked_policy::Asn;
use router_side::Side;

impl Router<'_> {
    /// Whether an item of a peer may be taken: a link leads to the peer, and no whole message or fault of that peer
    /// waits to be handled. Where it may not, [`Router::take_item`] is refused.
    pub fn may_take(&self, peer: Asn) -> bool
        ensures { result ≡ may_take self.now peer }
    {
        match self.find(peer) {
            Some(peer_at) => self.may_take_at(peer_at, peer),
            None => false,
        }
    }

    /// Whether an item of the peer at a place may be taken, as [`Router::may_take`] says.
    pub fn may_take_at(&self, peer_at: usize, peer: Asn) -> bool
        requires stands { slice_get (peers self.now.net self.now.number) peer_at ≡ Some peer }
        ensures { result ≡ may_take self.now peer }
    {
        !self.side_to(peer_at, peer).is_waiting()
    }

    /// Whether a router puts nothing towards the peer at a place as it now is: no item waits in the outbox, so that
    /// [`Router::next_item_at`] answers `None`.
    pub fn puts_nothing_at(&self, peer_at: usize, peer: Asn) -> bool
        requires stands { slice_get (peers self.now.net self.now.number) peer_at ≡ Some peer }
        ensures { (cut : ℕ) → result ≡ puts_nothing self.now peer cut }
    {
        !self.side_to(peer_at, peer).has_item()
    }

    /// Whether the link to the peer at a place is idle: no item waits in the outbox, and no whole message or fault of the
    /// peer waits to be handled. Neither a put nor [`Router::handle_at`] then does anything, and an item of the peer may
    /// be taken.
    pub fn link_is_idle_at(&self, peer_at: usize, peer: Asn) -> bool
        requires stands { slice_get (peers self.now.net self.now.number) peer_at ≡ Some peer }
        ensures { (cut : ℕ) → result ≡ link_is_idle self.now peer cut }
    {
        let side = self.side_to(peer_at, peer);
        !side.has_item() && !side.is_waiting()
    }

    // The side towards the peer at a place.
    fn side_to(&self, peer_at: usize, peer: Asn) -> &Side
        requires stands { slice_get (peers self.now.net self.now.number) peer_at ≡ Some peer }
        ensures side { side result.now ≡ sides_of self.now peer }
        ensures linked { linked self.now.net self.now.number peer ≡ true }
    {
        self.peer_stands_at(peer_at, peer);
        &self.peers[peer_at].side
    }
}
