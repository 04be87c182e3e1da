//! The UPDATEs that a router acted on and sent.

ghost use Rattle.std.specs.Prelude.{◌≡◌, false, IfOk, MatchOption};
ghost use Rattle.router_side.specs.Histories.{history};
ghost use Rattle.router_model.specs.Settings.{linked};
ghost use Rattle.router_core.specs.Views.{sides_of};

use super::Router;
use ranked_policy::Asn;
use router_side::PastUpdate;
use std::alloc::{AllocError, Global};

impl Router<'_> {
    /// The UPDATEs of a peer that were acted on, in their order, each once with its incarnation (RFC 4271 section 9).
    /// `None` if no link leads to the peer.
    pub fn acted(&self, alloc: Global, peer: Asn) -> Option<Result<Vec<PastUpdate>, AllocError>>
        ensures { MatchOption result (linked self.now.net self.now.number peer ≡ false)
            (λ read. IfOk read (λ told. history told.items ≡ (sides_of self.now peer).acted)) }
    {
        let peer_at = self.find(peer)?;
        Some(self.peers[peer_at].side.acted(alloc))
    }

    /// The UPDATEs that were sent to a peer, in their order, each once with its incarnation. `None` if no link leads to
    /// the peer.
    pub fn sent(&self, alloc: Global, peer: Asn) -> Option<Result<Vec<PastUpdate>, AllocError>>
        ensures { MatchOption result (linked self.now.net self.now.number peer ≡ false)
            (λ read. IfOk read (λ told. history told.items ≡ (sides_of self.now peer).sent)) }
    {
        let peer_at = self.find(peer)?;
        Some(self.peers[peer_at].side.sent(alloc))
    }
}
