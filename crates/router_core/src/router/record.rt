//! What a router records of a snapshot (Chandy and Lamport 1985).

ghost use Rattle.std.specs.Prelude.{◌≡◌, ◌&&◌, [], ◌∷◌, ◌≤◌, map, MatchResult, IfOk, OnOk};
ghost use Rattle.rib_tables.specs.Words.{lists};
ghost use Rattle.snap_marker.specs.Parts.{seen};
ghost use Rattle.router_model.specs.declared.refusal.RouterError.TheVariants.{Memory};
ghost use Rattle.router_model.specs.declared.command.Command.TheVariants.{Snapshot};
ghost use Rattle.router_model.specs.Sides.{is_up, uses};
ghost use Rattle.router_side.specs.SideOf.{side as side_of};
ghost use Rattle.router_model.specs.Step.{awaits_marker};
ghost use Rattle.router_model.specs.Calls.{Obey};
ghost use Rattle.run_model.specs.declared.stamps.TheConstants.{GREATEST_STAMP};
ghost use Rattle.router_core.specs.Views.{Answers, IsFound, IsNamedAt, IsSame, TakesMark};
ghost use Rattle.router_core.specs.Calling.{NeedsRoom};
ghost use Rattle.router_core.specs.Recorded.{paths_of, own_of, channels_of, down_in, Become, HaveRoomToMark, marked_if_up, IsPart, IsPeer, IsStateOf, RecordsAt};

use super::{Router, next_stamp_with_room};
use crate::best_path::the_best_is_the_best_path;
use crate::peers::Peer;
use prefix_lanes::Prefix;
use ranked_policy::{Asn, Origin, Path};
use rib_tables::Rib;
use router_model::laws::linked_routers_are_peers;
use router_model::{RouterError, Stepped};
use router_side::Side;
use snap_marker::{Channel, KeptPath, Part};
use std::alloc::{AllocError, Global};

// A copy of the path kept for each prefix of the network.
fn kept_paths(alloc: Global, origins: &[Origin], tables: &Rib) -> Result<Vec<KeptPath>, AllocError>
    requires { origins.now ≡ tables.now.net.origins }
    ensures { IfOk result (λ kept. kept.items ≡ paths_of origins.now tables.now.kept) }
{
    let mut kept = Vec::with_capacity(alloc, origins.len())?;
    for (prefix_at, origin) in origins.iter().enumerate() {
        let path = Path::from_slice(alloc, tables.path_at(prefix_at, &origin.prefix))?;
        kept.push(KeptPath {
            prefix: origin.prefix,
            path,
        })?;
    }
    Ok(kept)
}

// Whether the prefix at a place of the network is originated.
fn is_own(tables: &Rib, prefix_at: usize, prefix: &Prefix) -> bool
    requires { IsNamedAt tables.now.net prefix.now prefix_at }
    ensures { result ≡ lists tables.now.originated prefix.now }
{
    tables.is_originated_at(prefix_at, prefix)
}

// The prefixes of the network that are originated.
fn originated(alloc: Global, origins: &[Origin], tables: &Rib) -> Result<Vec<Prefix>, AllocError>
    requires { origins.now ≡ tables.now.net.origins }
    ensures { IfOk result (λ own. own.items ≡ own_of origins.now tables.now.originated) }
{
    let mut own = Vec::new(alloc);
    for (prefix_at, origin) in origins.iter().enumerate() {
        if is_own(tables, prefix_at, &origin.prefix) {
            own.push(origin.prefix)?;
        }
    }
    Ok(own)
}

// Whether the marker of a peer is still to come, if that of `first` came.
fn awaits_marker(first: Option<Asn>, peer: Asn) -> bool
    ensures { result ≡ awaits_marker first peer }
{
    match first {
        None => true,
        Some(first) => peer != first,
    }
}

// A channel for each peer, open but for the one whose marker came.
fn channels(alloc: Global, peers: &[Peer], first: Option<Asn>) -> Result<Vec<Channel>, AllocError>
    ensures { IfOk result (λ made. map seen made.items ≡ channels_of first peers.now) }
{
    let mut made = Vec::with_capacity(alloc, peers.len())?;
    for peer in peers {
        made.push(Channel {
            peer: peer.number,
            epoch: peer.side.epoch(),
            is_open: awaits_marker(first, peer.number),
            updates: Vec::new(alloc),
        })?;
    }
    Ok(made)
}

// The least peer whose session is not Established.
fn first_down(peers: &[Peer]) -> Option<Asn>
    ensures { result ≡ down_in peers.now }
{
    for peer in peers {
        if !peer.side.is_up() {
            return Some(peer.number);
        }
    }
    None
}

// Makes room for a marker to every peer of the router.
fn reserve_markers(peers: &mut Vec<Peer>) -> Result<(), AllocError>
    ensures same { Become (λ s. s) peers.old.items peers.new.items }
    ensures room { OnOk result (HaveRoomToMark peers.new.items) }
{
    for peer in peers.iter_mut() {
        peer.side.reserve_marker()?;
    }
    Ok(())
}

// Sends the marker of a snapshot to a peer in Established, behind all that waits.
fn mark(peer: &mut Peer, number: u32)
    requires { HaveRoomToMark (peer.old ∷ []) }
    ensures { Become (marked_if_up number) (peer.old ∷ []) (peer.new ∷ []) }
{
    if peer.side.is_up() {
        peer.side.mark(number);
    }
}

// Sends the marker to every peer of the router.
fn mark_all(peers: &mut Vec<Peer>, number: u32)
    requires { HaveRoomToMark peers.old.items }
    ensures { Become (marked_if_up number) peers.old.items peers.new.items }
{
    for peer in peers.iter_mut() {
        mark(peer, number);
    }
}

// Whether a marker is heeded: in Established alone, in the incarnation that the end joined.
fn heeds(side: &Side, epoch: u32) -> bool
    ensures { result ≡ (is_up (side_of side.now) && uses (side_of side.now).link epoch) }
{
    side.is_up() && side.uses(epoch)
}

// The part of a snapshot that a router records now.
fn part_now(
    alloc: Global,
    number: Asn,
    origins: &[Origin],
    tables: &Rib,
    peers: &[Peer],
    snapshot: u32,
    first: Option<Asn>,
) -> Result<Part, AllocError>
    requires { origins.now ≡ tables.now.net.origins }
    ensures { IfOk result (IsPart origins.now tables.now peers.now number snapshot first) }
{
    let kept = kept_paths(alloc, origins, tables)?;
    let originated = originated(alloc, origins, tables)?;
    let channels = channels(alloc, peers, first)?;
    Ok(Part {
        router: number,
        number: snapshot,
        kept,
        originated,
        pending: tables.is_pending(),
        channels,
    })
}

impl Router<'_> {
    /// What the router would record of a snapshot now, as a copy: the path kept for each prefix, the prefixes that it
    /// originates, the incarnation of each link, and whether a kept path is not the route or an Established peer was
    /// not told of one. Its number is 0, which no snapshot has. Its channels are empty, and wait for their markers.
    ///
    /// Refused only with [`RouterError::Memory`].
    pub fn part_state(&self) -> Result<Part, RouterError>
        ensures { MatchResult result (IsStateOf self.now) (λ why. why ≡ Memory) }
    {
        linked_routers_are_peers();
        the_best_is_the_best_path(&self.tables);
        let alloc = *self.peers.allocator();
        let origins = self.network.origins();
        let peers = self.peers.as_slice();
        let made = part_now(alloc, self.number, origins, &self.tables, peers, 0, None);
        let Ok(part) = made else {
            return Err(RouterError::Memory);
        };
        Ok(part)
    }

    // Records a snapshot at a stamp that is left, by a command or by the marker of a first peer, and sends its markers.
    // A refusal leaves the router as it was.
    pub(super) fn records(
        &mut self,
        number: u32,
        first: Option<Asn>,
        stamp: u64,
    ) -> Result<Stepped, RouterError>
        requires first { IsPeer self.old.peers first }
        requires few { stamp ≤ GREATEST_STAMP }
        ensures records { RecordsAt result self.old number first stamp self.new }
        ensures same { IsSame self.old self.new }
    {
        linked_routers_are_peers();
        the_best_is_the_best_path(&self.tables);
        let alloc = *self.peers.allocator();
        let origins = self.network.origins();
        let peers = self.peers.as_slice();
        let tables = &self.tables;
        let made = part_now(alloc, self.number, origins, tables, peers, number, first);
        let Ok(part) = made else {
            return Err(RouterError::Memory);
        };
        let down = first_down(self.peers.as_slice());
        let Ok(()) = reserve_markers(&mut self.peers) else {
            return Err(RouterError::Memory);
        };
        match self.marks.begin(part, down) {
            Err(_) => Err(RouterError::Memory),
            Ok(()) => {
                mark_all(&mut self.peers, number);
                self.stamp = stamp;
                Ok(Stepped::Did)
            }
        }
    }

    // Obeys the command to record a snapshot.
    pub(super) fn snapshot(
        &mut self,
        number: u32,
        room: Result<(), AllocError>,
    ) -> Result<Stepped, RouterError>
        ensures answers { Answers result self.old (Obey (Snapshot number)) self.new }
        ensures full { NeedsRoom result room }
        ensures same { IsSame self.old self.new }
    {
        let last = self.marks.last();
        if number <= last {
            return Err(RouterError::OldSnapshot { last });
        }
        let stamp = next_stamp_with_room(self.stamp, room)?;
        self.records(number, None, stamp)
    }

    // Takes the marker of a peer at a stamp that is left, if the caller has room for the event.
    pub(super) fn take_mark(
        &mut self,
        peer: Asn,
        peer_at: usize,
        epoch: u32,
        number: u32,
        room: Result<(), AllocError>,
        stamp: u64,
    ) -> Result<Stepped, RouterError>
        requires place { IsFound self.old.peers peer peer_at }
        requires stamp { stamp ≤ GREATEST_STAMP }
        ensures takes { TakesMark result self.old peer epoch number stamp self.new }
        ensures full { NeedsRoom result room }
        ensures same { IsSame self.old self.new }
    {
        room?;
        if !heeds(&self.peers[peer_at].side, epoch) {
            self.stamp = stamp;
            return Ok(Stepped::Did);
        }
        if number > self.marks.last() {
            return self.records(number, Some(peer), stamp);
        }
        linked_routers_are_peers();
        self.marks.on_mark(peer, number);
        self.stamp = stamp;
        Ok(Stepped::Did)
    }
}
