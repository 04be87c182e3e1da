//! The routing tables of one router, and the calls that change them.

ghost use Rattle.std.specs.Prelude.{◌≡◌, ◌≢◌, ◌↔◌, ℕ, true, false, map, slice_get, Some, IsTrue, IfOk, IfErr, IfSome, OnErr, OnOk, MatchOption, if◌then◌else◌};
ghost use Rattle.std.specs.List.{Contains};
ghost use Rattle.ranked_policy.specs.Plans.{IsRouter, IsNamed, IsOrigin, Linked};
ghost use Rattle.ranked_policy.specs.Peers.{peers};
ghost use Rattle.prefix_lanes.specs.Bits.{PrefixView};
ghost use Rattle.bgp_codec.specs.declared.update.Update as updates;
ghost use Rattle.rib_tables.specs.Words.{nothing, TellsPath};
ghost use Rattle.rib_tables.specs.Tables.{word_of, path_of};
ghost use Rattle.rib_tables.specs.Least.{HoldsOfAll, IsLeastWithout};
ghost use Rattle.rib_tables.specs.Choices.{IsBest, IsSources};
ghost use Rattle.rib_tables.specs.Owners.{sources_of, IsSettled, IsServed, HasWaitingPeer, AllServed, IsPending, IsNew, HearsUpdate, TellsKept, ComesUp, ForgetsPeer, Originating, Withdrawing, Decides, Clears};

use crate::changes::{
    Listener, clear_all, forget_all, hear_one, hear_update, keep_at, mark_words, originate_at,
    place_of, place_of_peer, set_up, tell_at, unadvertised, wait_after_all,
};
use crate::opening::{keys_of, no_waits, peers_down, rows_of};
use crate::place_set::PlaceSet;
use crate::row::{Peer, Row, best_way, first_undecided, path_along};
use crate::word::Word;
use bgp_codec::Update;
use indexmap::IndexSet;
use prefix_lanes::Prefix;
use ranked_policy::laws::each_policy_is_an_order;
use ranked_policy::{Asn, Network, Path};
use std::alloc::{AllocError, Global};
use std::marker::Model;

/// The routing tables of one router: its Adj-RIBs-In, its Loc-RIB and its Adj-RIBs-Out (RFC 4271
/// section 3.2), with the sessions that are Established and the prefixes that it originates.
#[derive(Debug, Drop)]
pub struct Rib<'a> {
    network: &'a Network,
    router: Asn,
    // The prefixes of the network, in its order.
    keys: IndexSet<Prefix>,
    // The linked routers, by rising number.
    peers: Vec<Peer>,
    // One row for each prefix, in the same order.
    rows: Vec<Row<'a>>,
    // Each kept path outside this set is the best.
    dirty: PlaceSet,
    // The prefixes that each peer waits for.
    waits: Vec<PlaceSet>,
}

impl<'a> Model for Rib<'a> {
    ghost use Rattle.rib_tables.specs.Owners.{RibView};
    ghost use Rattle.rib_tables.specs.Rows.{view_of, IsRib};

    ghost Value = { RibView };

    ghost view = { λ r. view_of r.network.now r.router r.peers.items r.rows.items };

    ghost invariant = { λ r.
        IsRib r.network.now r.router r.peers.items r.keys.keys r.rows.items r.dirty r.waits.items };
}

impl<'a> Rib<'a> {
    /// The tables of a router of the network, as it starts: nothing is heard, sent, originated or kept, and no session
    /// is Established. Refused only for want of memory.
    pub fn new(alloc: Global, network: &'a Network, router: Asn) -> Result<Rib<'a>, AllocError>
        requires { IsRouter network.now.routers router }
        ensures { IfOk result (IsNew network.now router) }
    {
        let table = network.policies(router).unwrap();
        let numbers = network.peers(alloc, router)?;
        let origins = network.origins();
        let keys = keys_of(alloc, origins)?;
        let peers = peers_down(alloc, numbers.as_slice())?;
        let waits = no_waits(alloc, numbers.len())?;
        let rows = rows_of(alloc, network, &table, numbers.len())?;
        Ok(Rib {
            network,
            router,
            keys,
            peers,
            rows,
            dirty: PlaceSet::new(),
            waits,
        })
    }

    /// The network, whose prefixes stand in [`Network::origins`] by address, then by length.
    pub fn network(&self) -> &'a Network
        ensures value { result.now ≡ self.now.net }
        ensures sources { IsSources (sources_of self.now) }
        ensures linked { (v : ℕ) → Contains self.now.established v → Linked self.now.net.links self.now.router v }
    {
        self.network
    }

    /// The router.
    pub fn router(&self) -> Asn
        ensures { result ≡ self.now.router }
    {
        self.router
    }

    // The place of a peer among the router's peers, by rising number.
    fn peer_place(&self, peer: Asn) -> usize
        requires { Linked self.now.net.links self.now.router peer }
        ensures { slice_get (peers self.now.net self.now.router) result ≡ Some peer }
    {
        place_of_peer(self.peers.as_slice(), peer).unwrap()
    }

    // The word heard last from a peer for a prefix, or the one that was sent last. `None` exactly where it is the empty
    // path.
    fn word(&self, sent: bool, peer: Asn, prefix: &Prefix) -> Option<&Word>
        ensures { let words = if sent then self.now.sent else self.now.heard in
            MatchOption result (word_of words peer prefix.now ≡ nothing)
            (λ word. (word.now ≡ word_of words peer prefix.now) × (word.now ≢ nothing)) }
    {
        let from = place_of_peer(self.peers.as_slice(), peer)?;
        let prefix_at = place_of(&self.keys, prefix)?;
        self.rows[prefix_at].line(sent).something(from)
    }

    /// The word heard last from a peer for a prefix. `None` exactly where it is the empty path.
    pub fn word_heard(&self, peer: Asn, prefix: &Prefix) -> Option<&Word>
        ensures { MatchOption result (word_of self.now.heard peer prefix.now ≡ nothing)
            (λ word. (word.now ≡ word_of self.now.heard peer prefix.now) × (word.now ≢ nothing)) }
    {
        self.word(false, peer, prefix)
    }

    /// The word sent last to a peer for a prefix. `None` exactly where it is the empty path.
    pub fn word_sent(&self, peer: Asn, prefix: &Prefix) -> Option<&Word>
        ensures { MatchOption result (word_of self.now.sent peer prefix.now ≡ nothing)
            (λ word. (word.now ≡ word_of self.now.sent peer prefix.now) × (word.now ≢ nothing)) }
    {
        self.word(true, peer, prefix)
    }

    /// The path that is kept for a prefix; the empty path if none is.
    pub fn path(&self, prefix: &Prefix) -> &[Asn]
        ensures { result.now ≡ path_of self.now.kept prefix.now }
    {
        match place_of(&self.keys, prefix) {
            Some(prefix_at) => self.path_at(prefix_at, prefix),
            None => &[],
        }
    }

    /// Answers as [`Rib::path`] does, of the prefix at the place `at` of [`Network::origins`].
    pub fn path_at(&self, prefix_at: usize, prefix: &Prefix) -> &[Asn]
        requires stands { slice_get (map (λ origin. origin.prefix) self.now.net.origins) prefix_at ≡ Some prefix.now }
        ensures { result.now ≡ path_of self.now.kept prefix.now }
    {
        self.rows[prefix_at].kept.as_slice()
    }

    /// Whether the router originates a prefix now.
    pub fn is_originated(&self, prefix: &Prefix) -> bool
        ensures { IsTrue result ↔ Contains self.now.originated prefix.now }
    {
        match place_of(&self.keys, prefix) {
            Some(prefix_at) => self.is_originated_at(prefix_at, prefix),
            None => false,
        }
    }

    /// Answers as [`Rib::is_originated`] does, of the prefix at the place `at` of [`Network::origins`].
    pub fn is_originated_at(&self, prefix_at: usize, prefix: &Prefix) -> bool
        requires stands { slice_get (map (λ origin. origin.prefix) self.now.net.origins) prefix_at ≡ Some prefix.now }
        ensures { IsTrue result ↔ Contains self.now.originated prefix.now }
    {
        self.rows[prefix_at].originated
    }

    /// Takes an UPDATE of a peer (RFC 4271 sections 3.1 and 4.3). Each prefix of the network that the UPDATE mentions
    /// gets the word that it says; an announcement wins over a withdrawal. Nothing else changes. Refused only for want of
    /// memory, and then all is as it was.
    pub fn hear(&mut self, peer: Asn, update: &Update) -> Result<(), AllocError>
        requires { Linked self.old.net.links self.old.router peer }
        ensures ok { OnOk result (HearsUpdate self.old self.new peer update.now) }
        ensures err { OnErr result (self.new ≡ self.old) }
    {
        let peer_at = self.peer_place(peer);
        self.hear_at(peer_at, peer, update)
    }

    /// Does what [`Rib::hear`] does, and is refused as it is, for the peer at a place among the router's peers, by
    /// rising number.
    pub fn hear_at(&mut self, peer_at: usize, peer: Asn, update: &Update) -> Result<(), AllocError>
        requires stands { slice_get (peers self.old.net self.old.router) peer_at ≡ Some peer }
        ensures ok { OnOk result (HearsUpdate self.old self.new peer update.now) }
        ensures err { OnErr result (self.new ≡ self.old) }
    {
        let alloc = *self.peers.allocator();
        let by = Listener {
            router: self.router,
            keys: &self.keys,
            peer: peer_at,
        };
        hear_update(alloc, &by, &mut self.rows, &mut self.dirty, update)?;
        Ok(())
    }

    /// Takes an UPDATE that tells a path of one prefix, as [`Rib::hear`] does, of the peer at a place among the router's
    /// peers, by rising number; the empty path is a withdrawal. Refused only for want of memory, and then all is as it
    /// was.
    pub fn hear_path_at(
        &mut self,
        peer_at: usize,
        peer: Asn,
        prefix: &Prefix,
        path: &[Asn],
    ) -> Result<(), AllocError>
        requires stands { slice_get (peers self.old.net self.old.router) peer_at ≡ Some peer }
        ensures ok { OnOk result
            ((u : updates.Update) → TellsPath u prefix.now path.now → HearsUpdate self.old self.new peer u) }
        ensures err { OnErr result (self.new ≡ self.old) }
    {
        let alloc = *self.peers.allocator();
        let word = Word::Sequence(Path::from_slice(alloc, path)?);
        let by = Listener {
            router: self.router,
            keys: &self.keys,
            peer: peer_at,
        };
        hear_one(&by, &mut self.rows, &mut self.dirty, prefix, word);
        Ok(())
    }

    /// Records that the peer at a place among the router's peers, by rising number, was told the kept path of the prefix
    /// at the place `at` of [`Network::origins`]. Refused only for want of memory, and then all is as it was.
    pub fn tell_at(
        &mut self,
        peer_at: usize,
        peer: Asn,
        prefix_at: usize,
        prefix: &Prefix,
    ) -> Result<(), AllocError>
        requires stands { slice_get (peers self.old.net self.old.router) peer_at ≡ Some peer }
        requires named { slice_get (map (λ origin. origin.prefix) self.old.net.origins) prefix_at ≡ Some prefix.now }
        ensures ok { OnOk result (TellsKept self.old self.new peer prefix.now) }
        ensures err { OnErr result (self.new ≡ self.old) }
    {
        let alloc = *self.peers.allocator();
        let path = Path::from_slice(alloc, self.rows[prefix_at].kept.as_slice())?;
        tell_at(&mut self.rows, prefix_at, peer_at, Word::Sequence(path));
        let waiting = &mut self.waits[peer_at];
        waiting.take_out(prefix_at);
        Ok(())
    }

    /// Records that the session with a peer is Established from now on. It takes no memory.
    pub fn come_up(&mut self, peer: Asn)
        requires { Linked self.old.net.links self.old.router peer }
        ensures { ComesUp self.old self.new peer }
    {
        let peer_at = self.peer_place(peer);
        self.come_up_at(peer_at, peer);
    }

    /// Does what [`Rib::come_up`] does, for the peer at a place among the router's peers, by rising number. It takes no
    /// memory.
    pub fn come_up_at(&mut self, peer_at: usize, peer: Asn)
        requires stands { slice_get (peers self.old.net self.old.router) peer_at ≡ Some peer }
        ensures { ComesUp self.old self.new peer }
    {
        mark_words(self.rows.as_slice(), &mut self.dirty, peer_at);
        set_up(&mut self.peers, peer_at, true);
        self.waits[peer_at] = unadvertised(self.rows.as_slice(), peer_at);
    }

    /// Records that the session with a peer is left, and forgets all words heard from it and sent to it. It takes no
    /// memory.
    pub fn forget(&mut self, peer: Asn)
        requires { Linked self.old.net.links self.old.router peer }
        ensures { ForgetsPeer self.old self.new peer }
    {
        let peer_at = self.peer_place(peer);
        self.forget_at(peer_at, peer);
    }

    /// Does what [`Rib::forget`] does, for the peer at a place among the router's peers, by rising number. It takes no
    /// memory.
    pub fn forget_at(&mut self, peer_at: usize, peer: Asn)
        requires stands { slice_get (peers self.old.net self.old.router) peer_at ≡ Some peer }
        ensures { ForgetsPeer self.old self.new peer }
    {
        let alloc = *self.peers.allocator();
        forget_all(alloc, &mut self.rows, &mut self.dirty, peer_at);
        set_up(&mut self.peers, peer_at, false);
        self.waits[peer_at] = PlaceSet::new();
    }

    // Originates a prefix from now on, or no longer.
    fn set_originated(&mut self, prefix: &Prefix, now: bool)
        requires { IsOrigin self.old.net.origins self.old.router prefix.now }
        ensures originating { now ≡ true → Originating self.old self.new prefix.now }
        ensures withdrawing { now ≡ false → Withdrawing self.old self.new prefix.now }
    {
        let prefix_at = place_of(&self.keys, prefix).unwrap();
        originate_at(&mut self.rows, prefix_at, now);
        self.dirty.put(prefix_at);
    }

    /// Originates a prefix from now on. It takes no memory.
    pub fn originate(&mut self, prefix: &Prefix)
        requires { IsOrigin self.old.net.origins self.old.router prefix.now }
        ensures { Originating self.old self.new prefix.now }
    {
        self.set_originated(prefix, true);
    }

    /// Originates a prefix no longer. It takes no memory.
    pub fn withdraw(&mut self, prefix: &Prefix)
        requires { IsOrigin self.old.net.origins self.old.router prefix.now }
        ensures { Withdrawing self.old self.new prefix.now }
    {
        self.set_originated(prefix, false);
    }

    /// Restarts: no path is kept then, and nothing is originated. It takes no memory.
    pub fn clear(&mut self)
        ensures { Clears self.old self.new }
    {
        let alloc = *self.peers.allocator();
        clear_all(alloc, &mut self.rows, &mut self.dirty);
        wait_after_all(self.peers.as_slice(), self.rows.as_slice(), &mut self.waits);
    }

    /// The best of the router's choices for a prefix of the network (RFC 4271 section 9.1.2). It is the first
    /// permitted, in the order of the router's policy, of the paths "the router, then what an Established peer said",
    /// else the empty path. At the prefix's origin it is the router alone while it originates the prefix, else the
    /// empty path. Refused only for want of memory.
    pub fn best(&self, alloc: Global, prefix: &Prefix) -> Result<Path, AllocError>
        requires { IsNamed self.now.net.origins prefix.now }
        ensures { IfOk result (IsBest (sources_of self.now) prefix.now) }
    {
        let prefix_at = place_of(&self.keys, prefix).unwrap();
        let way = best_way(self.router, self.peers.as_slice(), &self.rows[prefix_at]);
        path_along(alloc, self.router, way)
    }

    /// The prefix that [`Rib::decide`] decides next: the least of the network, by address and then by length, whose
    /// kept path is not the best (RFC 4271 section 9.1). `None` exactly where each kept path is the best. It takes no
    /// memory.
    pub fn dirty(&self) -> Option<Prefix>
        ensures { MatchOption result (HoldsOfAll self.now.net.origins (IsSettled self.now))
            (IsLeastWithout self.now.net.origins (IsSettled self.now)) }
    {
        let mut dirty = self.dirty;
        let peers = self.peers.as_slice();
        let rows = self.rows.as_slice();
        let (prefix_at, _) = first_undecided(self.router, peers, rows, &mut dirty)?;
        Some(self.rows[prefix_at].prefix)
    }

    /// Decides one prefix (RFC 4271 section 9.1): the least of the network, by address and then by length, whose kept
    /// path is not the best. The prefix gets its best path, and is answered. `None` exactly where each kept path is the
    /// best, and then nothing changes. Refused only for want of memory: then some kept path is not the best, and all is
    /// as it was.
    pub fn decide(&mut self, alloc: Global) -> Result<Option<Prefix>, AllocError>
        ensures least { IfOk result
            (λ found. MatchOption found (HoldsOfAll self.old.net.origins (IsSettled self.old))
            (IsLeastWithout self.old.net.origins (IsSettled self.old))) }
        ensures decides { IfOk result (λ found. MatchOption found (self.new ≡ self.old) (Decides self.old self.new)) }
        ensures pending { IfErr result
            (λ _. (q : PrefixView) × IsLeastWithout self.old.net.origins (IsSettled self.old) q) }
        ensures err { OnErr result (self.new ≡ self.old) }
    {
        if self.dirty.is_empty() {
            return Ok(None);
        }
        let peers = self.peers.as_slice();
        let rows = self.rows.as_slice();
        let found = first_undecided(self.router, peers, rows, &mut self.dirty);
        let Some((prefix_at, way)) = found else {
            return Ok(None);
        };
        let best = path_along(alloc, self.router, way)?;
        let prefix = keep_at(peers, &mut self.rows, &mut self.waits, prefix_at, best);
        self.dirty.take_out(prefix_at);
        Ok(Some(prefix))
    }

    /// The prefix that a peer waits for: the least of the network, by address and then by length, whose kept path is
    /// not the last word sent to the peer. `None` exactly where the peer was told each kept path, or its session is not
    /// Established. It takes no memory.
    pub fn waiting(&self, peer: Asn) -> Option<Prefix>
        requires { Linked self.now.net.links self.now.router peer }
        ensures { MatchOption result (HoldsOfAll self.now.net.origins (IsServed self.now peer))
            (IsLeastWithout self.now.net.origins (IsServed self.now peer)) }
    {
        let (_, prefix) = self.waiting_at(self.peer_place(peer), peer)?;
        Some(prefix)
    }

    /// Answers as [`Rib::waiting`] does, of the peer at a place among the router's peers, by rising number. In front of
    /// the prefix stands its place among [`Network::origins`].
    pub fn waiting_at(&self, peer_at: usize, peer: Asn) -> Option<(usize, Prefix)>
        requires stands { slice_get (peers self.now.net self.now.router) peer_at ≡ Some peer }
        ensures least { MatchOption result (HoldsOfAll self.now.net.origins (IsServed self.now peer))
            (λ found. IsLeastWithout self.now.net.origins (IsServed self.now peer) found.1) }
        ensures named { IfSome result
            (λ found. slice_get (map (λ origin. origin.prefix) self.now.net.origins) found.0 ≡ Some found.1) }
    {
        let prefix_at = self.waits[peer_at].first()?;
        if prefix_at >= self.rows.len() {
            return None;
        }
        Some((prefix_at, self.rows[prefix_at].prefix))
    }

    /// Whether some Established peer was not told some kept path. It takes no memory.
    pub fn has_waiting_peer(&self) -> bool
        ensures some { result ≡ true → HasWaitingPeer self.now }
        ensures none { result ≡ false → AllServed self.now }
    {
        for waiting in self.waits.as_slice() {
            if waiting.has_below(self.rows.len()) {
                return true;
            }
        }
        false
    }

    /// Whether it shows, without a look at any path, that nothing is to be done: each kept path is the best, and each
    /// Established peer was told each of them. `false` says nothing. It takes no memory.
    pub fn has_nothing_to_do(&self) -> bool
        ensures { result ≡ true → HoldsOfAll self.now.net.origins (IsSettled self.now) × AllServed self.now }
    {
        self.dirty.is_empty() && !self.has_waiting_peer()
    }

    /// Whether anything is still to be done: some kept path is not the best, or some Established
    /// peer was not told some kept path. It takes no memory.
    pub fn is_pending(&self) -> bool
        ensures some { result ≡ true → IsPending self.now }
        ensures none { result ≡ false → HoldsOfAll self.now.net.origins (IsSettled self.now) × AllServed self.now }
    {
        self.dirty().is_some() || self.has_waiting_peer()
    }
}
