//! A router: its peers, its tables, what it records, and the stamp of its last event.

ghost use Rattle.std.specs.Prelude.{◌≡◌, ◌+◌, ◌≤◌, true, false, nat_lt, slice_get, MatchOption, MatchResult, IfSome, IfOk, IfErr, OnOk, IsOk};
ghost use Rattle.ranked_policy.specs.Plans.{IsRouter};
ghost use Rattle.router_model.specs.declared.refusal.RouterError.TheVariants.{Memory, StampEnd};
ghost use Rattle.router_model.specs.Settings.{linked, peers};
ghost use Rattle.run_model.specs.declared.stamps.TheConstants.{GREATEST_STAMP};
ghost use Rattle.router_core.specs.Views.{Opens, plain_of, listed, IsFound};
ghost use Rattle.router_core.specs.Calling.{no_step};

mod call;
mod carry;
mod choose;
mod command;
mod handle;
mod history;
mod idle;
mod offer;
mod put;
mod readers;
mod record;
mod take;
mod to_all;

use crate::opening::{new_peers, own_open};
use crate::peers::{Peer, place_of};
use bgp_codec::Message;
pub use call::Call;
use prefix_lanes::Prefix;
use ranked_policy::{Asn, Network};
use rib_tables::Rib;
use router_model::RouterError;
use router_model::laws::linked_routers_are_peers;
use run_model::GREATEST_STAMP;
use session_fsm::SessionConfig;
use snap_marker::MarkState;
use std::alloc::{AllocError, Global};
use std::marker::Model;

/// One router of a network.
#[derive(Drop)]
pub struct Router<'a> {
    network: &'a Network,
    number: Asn,
    own_open: Message,
    // By rising number.
    peers: Vec<Peer>,
    tables: Rib<'a>,
    marks: MarkState,
    stamp: u64,
}

impl<'a> Model for Router<'a> {
    ghost use Rattle.router_core.specs.Fields.{RouterView};

    ghost Value = { RouterView };

    ghost use Rattle.router_core.specs.Views.{view_of, IsSound};

    ghost view = { view_of };

    ghost invariant = { λ r. IsSound (view_of r) };
}

// The stamp behind this one, if one is left.
fn next_stamp(last: u64) -> Result<u64, RouterError>
    requires { last ≤ GREATEST_STAMP }
    ensures { MatchResult result (λ next. (next ≡ last + 1) × (nat_lt GREATEST_STAMP (last + 1) ≡ false))
        (λ why. (why ≡ StampEnd) × (nat_lt GREATEST_STAMP (last + 1) ≡ true)) }
{
    let next = last + 1;
    if next > GREATEST_STAMP {
        return Err(RouterError::StampEnd);
    }
    Ok(next)
}

// The stamp behind this one, if one is left and the caller has room for the event.
fn next_stamp_with_room(last: u64, room: Result<(), AllocError>) -> Result<u64, RouterError>
    requires { last ≤ GREATEST_STAMP }
    ensures next { IfOk result (λ next. (next ≡ last + 1) × (nat_lt GREATEST_STAMP (last + 1) ≡ false)) }
    ensures room { OnOk result (IsOk room) }
    ensures refused { IfErr result (λ why. why ≡ no_step last) }
{
    let next = next_stamp(last)?;
    room?;
    Ok(next)
}

impl<'a> Router<'a> {
    /// A router of the network, as it starts: every session is Idle, and nothing was said, kept or
    /// originated. Refused with [`RouterError::Memory`] if a growth is refused.
    pub fn new(alloc: Global, network: &'a Network, number: Asn) -> Result<Router<'a>, RouterError>
        requires { IsRouter network.now.routers number }
        ensures { MatchResult result (Opens network.now number) (λ why. why ≡ Memory) }
    {
        linked_routers_are_peers();
        let settings = network.settings();
        let config = SessionConfig {
            hold: settings.hold,
            restart: settings.restart,
        };
        let Ok(peers) = new_peers(alloc, network, number, config) else {
            return Err(RouterError::Memory);
        };
        let Ok(tables) = Rib::new(alloc, network, number) else {
            return Err(RouterError::Memory);
        };
        Ok(Router {
            network,
            number,
            own_open: own_open(alloc, network, number),
            peers,
            tables,
            marks: MarkState::new(alloc),
            stamp: 0,
        })
    }

    /// Its number.
    pub fn number(&self) -> Asn
        ensures { result ≡ self.now.number }
    {
        self.number
    }

    /// The stamp of its last event, 0 at first.
    pub fn stamp(&self) -> u64
        ensures { result ≡ self.now.stamp }
    {
        self.stamp
    }

    /// The number of the last snapshot that it recorded; 0 if it recorded none.
    pub fn last_snapshot(&self) -> u32
        ensures { result ≡ (plain_of self.now).router.snapshots.last }
    {
        self.marks.last()
    }

    /// The path that it keeps for a prefix (Loc-RIB, RFC 4271 section 3.2); empty if it keeps none.
    pub fn kept(&self, prefix: &Prefix) -> &[Asn]
        ensures { result.now ≡ (plain_of self.now).router.kept prefix.now }
    {
        self.tables.path(prefix)
    }

    // The place of a peer.
    fn find(&self, peer: Asn) -> Option<usize>
        ensures place { MatchOption result (listed peer self.now.peers ≡ false) (IsFound self.now.peers peer) }
        ensures stands { IfSome result (λ peer_at. slice_get (peers self.now.net self.now.number) peer_at ≡ Some peer) }
        ensures none { MatchOption result (linked self.now.net self.now.number peer ≡ false)
            (λ peer_at. linked self.now.net self.now.number peer ≡ true) }
    {
        place_of(self.peers.as_slice(), peer)
    }

    // What holds of the peer at a place, for the proofs of the calls by place.
    fn peer_stands_at(&self, _at: usize, _peer: Asn)
        requires stands { slice_get (peers self.now.net self.now.number) _at ≡ Some _peer }
        ensures found { IsFound self.now.peers _peer _at }
        ensures linked { linked self.now.net self.now.number _peer ≡ true }
    {
        let _ = &self.peers;
    }
}
