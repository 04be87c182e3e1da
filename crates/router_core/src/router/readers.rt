//! What a router shows of itself: its sessions, the message of a peer that it handles next, and the words of its peers.

ghost use Rattle.std.specs.Prelude.{◌≡◌, ◌≢◌, true, false, slice_get, IfOk, MatchOption};
ghost use Rattle.outbox.specs.Items.{octets_waiting};
ghost use Rattle.rib_tables.specs.Words.{nothing};
ghost use Rattle.rib_tables.specs.Tables.{word_of};
ghost use Rattle.rib_tables.specs.Least.{HoldsOfAll, IsLeastWithout};
ghost use Rattle.rib_tables.specs.Owners.{IsSettled};
ghost use Rattle.router_model.specs.Settings.{peers};
ghost use Rattle.router_core.specs.Views.{plain_of, heard_now, told_now};
ghost use Rattle.router_core.specs.Shown.{of_peer, has_front, front_of, IsSaidNow, IsToldNext};

use super::Router;
use super::choose::Next;
use bgp_codec::{Fault, Message, Rule};
use prefix_lanes::Prefix;
use ranked_policy::Asn;
use rib_tables::Word;
use session_fsm::{Session, State};
use std::alloc::{AllocError, Global};

impl Router<'_> {
    /// The peer at a place, counted from 0 by rising number. `None` behind the last.
    pub fn peer_at(&self, place: usize) -> Option<Asn>
        ensures { result ≡ slice_get (peers self.now.net self.now.number) place }
    {
        if place >= self.peers.len() {
            return None;
        }
        Some(self.peers[place].number)
    }

    /// The state of the session with a peer (RFC 4271 section 8.2.2). `None` if no link leads to the peer.
    pub fn state(&self, peer: Asn) -> Option<State>
        ensures { result ≡ of_peer self.now peer (λ side. side.session.state) }
    {
        let peer_at = self.find(peer)?;
        Some(self.peers[peer_at].side.state())
    }

    /// The session with a peer, with its timers. `None` if no link leads to the peer.
    pub fn session(&self, peer: Asn) -> Option<Session>
        ensures { result ≡ of_peer self.now peer (λ side. side.session) }
    {
        let peer_at = self.find(peer)?;
        Some(self.peers[peer_at].side.session())
    }

    /// The incarnation of the link to a peer: the last number that the router dialled, 0 at first. `None` if no link
    /// leads to the peer.
    pub fn epoch(&self, peer: Asn) -> Option<u32>
        ensures { result ≡ of_peer self.now peer (λ side. side.link.epoch) }
    {
        let peer_at = self.find(peer)?;
        Some(self.peers[peer_at].side.epoch())
    }

    /// How many octets of messages wait to be put towards a peer. `None` if no link leads to the peer.
    pub fn octets_waiting(&self, peer: Asn) -> Option<usize>
        ensures { result ≡ of_peer self.now peer (λ side. octets_waiting side.outbox) }
    {
        let peer_at = self.find(peer)?;
        Some(self.peers[peer_at].side.octets_waiting())
    }

    /// The message or fault of a peer that is handled next. `None` if no link leads to the peer, or if neither waits.
    /// It is refused only for want of memory.
    pub fn front(
        &self,
        alloc: Global,
        peer: Asn,
    ) -> Option<Result<Result<Message, Fault>, AllocError>>
        ensures { MatchOption result (has_front self.now peer ≡ false)
            (λ read. (has_front self.now peer ≡ true) × IfOk read (λ front. front ≡ front_of self.now peer)) }
    {
        let peer_at = self.find(peer)?;
        let side = &self.peers[peer_at].side;
        if !side.is_waiting() {
            return None;
        }
        let rule = Rule {
            width: self.network.settings().width,
            peer: Some(peer),
            own: Some(self.number),
        };
        Some(side.front_to_show(alloc, &rule))
    }

    /// The word heard last from a peer for a prefix (Adj-RIB-In, RFC 4271 section 3.2). `None` exactly where it is the
    /// empty path, as in every state but Established.
    pub fn word_heard(&self, peer: Asn, prefix: &Prefix) -> Option<&Word>
        ensures word { MatchOption result (word_of self.now.tables.heard peer prefix.now ≡ nothing)
            (λ word. (word.now ≡ word_of self.now.tables.heard peer prefix.now) × (word.now ≢ nothing)) }
        ensures plain { IsSaidNow self.now peer prefix.now self.now.tables.heard heard_now }
    {
        self.tables.word_heard(peer, prefix)
    }

    /// The word sent last to a peer for a prefix (Adj-RIB-Out, RFC 4271 section 3.2). `None` exactly where it is the
    /// empty path, as in every state but Established.
    pub fn word_sent(&self, peer: Asn, prefix: &Prefix) -> Option<&Word>
        ensures word { MatchOption result (word_of self.now.tables.sent peer prefix.now ≡ nothing)
            (λ word. (word.now ≡ word_of self.now.tables.sent peer prefix.now) × (word.now ≢ nothing)) }
        ensures plain { IsSaidNow self.now peer prefix.now self.now.tables.sent told_now }
    {
        self.tables.word_sent(peer, prefix)
    }

    /// Whether the router originates a prefix now.
    pub fn originates(&self, prefix: &Prefix) -> bool
        ensures { result ≡ (plain_of self.now).router.originated prefix.now }
    {
        self.tables.is_originated(prefix)
    }

    /// The prefix whose kept path [`Router::decide`] sets next: the least, by address and then by length, whose kept
    /// path is not the best of the choices. `None` exactly where each kept path is the best.
    pub fn undecided(&self) -> Option<Prefix>
        ensures { MatchOption result (HoldsOfAll self.now.tables.net.origins (IsSettled self.now.tables))
            (IsLeastWithout self.now.tables.net.origins (IsSettled self.now.tables)) }
    {
        self.tables.dirty()
    }

    /// The peer that [`Router::advertise`] tells next, and the prefix: the least Established peer that was not told
    /// some kept path and whose outbox has room, and its least such prefix. `None` if there is no such peer.
    pub fn next_advertised(&self) -> Option<(Asn, Prefix)>
        ensures { IsToldNext self.now result }
    {
        match self.next_to_tell() {
            Next::Peer(peer_at, _, prefix) => Some((self.peers[peer_at].number, prefix)),
            Next::Blocked(_) | Next::Nobody => None,
        }
    }
}
