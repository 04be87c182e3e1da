//! Items that a router puts.

ghost use Rattle.std.specs.Prelude.{◌≡◌, slice_get, Ok};
ghost use Rattle.router_model.specs.declared.refusal.Stepped.TheVariants.{Did};
ghost use Rattle.router_model.specs.Settings.{peers};
ghost use Rattle.router_model.specs.Calls.{Put};
ghost use Rattle.router_core.specs.Views.{IsSame, Answers, ShowsNext, HasNext};

use super::{Router, next_stamp};
use outbox::Item;
use ranked_policy::Asn;
use router_model::RouterError;

impl Router<'_> {
    /// A copy of the item that is put next towards a peer, with the stamp of its put. It is a control item, or as many
    /// octets of one incarnation as a piece may have. `None` if nothing waits. It changes nothing.
    ///
    /// Refused with [`RouterError::NoSuchPeer`], with [`RouterError::StampEnd`], and with [`RouterError::Memory`] if
    /// the copy is refused.
    pub fn next_item(&self, peer: Asn) -> Result<Option<Item>, RouterError>
        ensures { ShowsNext result self.now peer }
    {
        let Some(peer_at) = self.find(peer) else {
            return Err(RouterError::NoSuchPeer);
        };
        self.next_item_at(peer_at, peer)
    }

    /// A copy of the item that is put next towards the peer at a place, as [`Router::next_item`] answers it. It changes
    /// nothing.
    ///
    /// Refused with [`RouterError::StampEnd`], and with [`RouterError::Memory`] if the copy is refused.
    pub fn next_item_at(&self, peer_at: usize, peer: Asn) -> Result<Option<Item>, RouterError>
        requires stands { slice_get (peers self.now.net self.now.number) peer_at ≡ Some peer }
        ensures { ShowsNext result self.now peer }
    {
        self.peer_stands_at(peer_at, peer);
        if !self.peers[peer_at].side.has_item() {
            return Ok(None);
        }
        let stamp = next_stamp(self.stamp)?;
        let cut = self.network.settings().cut;
        match self.peers[peer_at].side.next_item(cut) {
            Ok(None) => Ok(None),
            Ok(Some(what)) => Ok(Some(Item { stamp, what })),
            Err(_) => Err(RouterError::Memory),
        }
    }

    /// Puts the item that `next_item` answers. It takes no memory, and cannot be refused.
    pub fn item_put(&mut self, peer: Asn)
        requires { HasNext self.old peer }
        ensures answers { Answers (Ok Did) self.old (Put peer) self.new }
        ensures same { IsSame self.old self.new }
    {
        let _ = &self.peers;
        let peer_at = self.find(peer).unwrap();
        self.item_put_at(peer_at, peer);
    }

    /// Puts the item that `next_item_at` answers, towards the peer at a place. It takes no memory, and cannot be
    /// refused.
    pub fn item_put_at(&mut self, peer_at: usize, peer: Asn)
        requires stands { slice_get (peers self.old.net self.old.number) peer_at ≡ Some peer }
        requires next { HasNext self.old peer }
        ensures answers { Answers (Ok Did) self.old (Put peer) self.new }
        ensures same { IsSame self.old self.new }
    {
        self.peer_stands_at(peer_at, peer);
        let cut = self.network.settings().cut;
        self.peers[peer_at].side.item_put(cut);
        self.stamp += 1;
    }
}
