//! Items that a router takes.

ghost use Rattle.std.specs.Prelude.{◌≡◌, slice_get};
ghost use Rattle.router_model.specs.Settings.{peers};
ghost use Rattle.router_model.specs.Calls.{Take};
ghost use Rattle.router_core.specs.Views.{IsSame, Answers, IsFound, TakesSign};
ghost use Rattle.router_core.specs.Calling.{NeedsRoom};

use super::Router;
use link_epoch::Sign;
use outbox::{Item, What};
use ranked_policy::Asn;
use router_model::{RouterError, Stepped};
use router_side::laws::what_comes_keeps_fresh;
use run_model::GREATEST_STAMP;
use std::alloc::AllocError;

impl Router<'_> {
    /// Takes the next item of a peer, whatever it is: a Dial or a Shut, a piece of octets, or a marker.
    /// Pieces and markers are used in the incarnation that the end joined, and markers in Established
    /// alone; all others are dropped.
    ///
    /// Refused with [`RouterError::NoSuchPeer`], with [`RouterError::Held`] if a whole message or a fault of that peer
    /// waits, with [`RouterError::StampEnd`], with [`RouterError::EpochEnd`], and with [`RouterError::Memory`] if a
    /// growth is refused; then all is as it was.
    pub fn take_item(&mut self, peer: Asn, item: &Item) -> Result<Stepped, RouterError>
        ensures answers { Answers result self.old (Take peer item.now.stamp item.now.what) self.new }
        ensures same { IsSame self.old self.new }
    {
        let Some(peer_at) = self.find(peer) else {
            return Err(RouterError::NoSuchPeer);
        };
        self.take_at(peer_at, peer, item, Ok(()))
    }

    /// Takes the next item of the peer at a place as [`Router::take_item`] does.
    ///
    /// `room` says whether the caller has room for the event if the call steps. Without room, a step is refused with
    /// [`RouterError::Memory`]; any other answer is as it would be. Refused besides with [`RouterError::Held`], with
    /// [`RouterError::StampEnd`], with [`RouterError::EpochEnd`], and with [`RouterError::Memory`] if a growth is
    /// refused; then all is as it was.
    pub fn take_at(
        &mut self,
        peer_at: usize,
        peer: Asn,
        item: &Item,
        room: Result<(), AllocError>,
    ) -> Result<Stepped, RouterError>
        requires stands { slice_get (peers self.old.net self.old.number) peer_at ≡ Some peer }
        ensures answers { Answers result self.old (Take peer item.now.stamp item.now.what) self.new }
        ensures full { NeedsRoom result room }
        ensures same { IsSame self.old self.new }
    {
        self.peer_stands_at(peer_at, peer);
        if self.peers[peer_at].side.is_waiting() {
            return Err(RouterError::Held { peer });
        }
        let stamp = self.stamp.max(item.stamp).saturating_add(1);
        if stamp > GREATEST_STAMP {
            return Err(RouterError::StampEnd);
        }
        match &item.what {
            What::Dial(number) => self.take_sign(peer, peer_at, Sign::Dial(*number), stamp, room),
            What::Shut(number) => self.take_sign(peer, peer_at, Sign::Shut(*number), stamp, room),
            What::Piece(epoch, octets) => {
                room?;
                self.peers[peer_at]
                    .side
                    .take_piece(*epoch, octets.as_slice());
                self.stamp = stamp;
                Ok(Stepped::Did)
            }
            What::Mark(epoch, number) => self.take_mark(
                peer, peer_at, *epoch, *number, room, stamp,
            ),
        }
    }

    // Takes a Dial or a Shut at this stamp, or refuses it and changes nothing. Its draft is large, and a function pays
    // as it begins for what it may hold: `take_at`, which mostly takes pieces, therefore holds none.
    #[inline(never)]
    fn take_sign(
        &mut self,
        peer: Asn,
        peer_at: usize,
        sign: Sign,
        stamp: u64,
        room: Result<(), AllocError>,
    ) -> Result<Stepped, RouterError>
        requires { IsFound self.old.peers peer peer_at }
        ensures takes { TakesSign result self.old peer sign stamp self.new }
        ensures full { NeedsRoom result room }
        ensures same { IsSame self.old self.new }
    {
        what_comes_keeps_fresh();
        let made = self.peers[peer_at].side.draft_sign(&self.own_open, sign);
        self.carry_out(peer, peer_at, &made, stamp, room)
    }
}
