//! The path that a router chooses, and the peer that it tells (RFC 4271 section 9).

ghost use Rattle.std.specs.Prelude.{ℕ};
ghost use Rattle.router_model.specs.Calls.{Decide, Advertise};
ghost use Rattle.router_core.specs.Views.{IsSame, Answers, IsAt, IsNamedAt, IsNext, MayTell, Tells};
ghost use Rattle.router_core.specs.Calling.{NeedsRoom};

use super::{Router, next_stamp_with_room};
use crate::best_path::the_best_is_the_best_path;
use crate::path_to_tell::path_to_tell;
use crate::peers::Peer;
use prefix_lanes::Prefix;
use ranked_policy::Asn;
use router_model::{OUTBOX_LIMIT, RouterError, Stepped};
use std::alloc::AllocError;

// The peer to tell next.
pub(super) enum Next {
    // The least peer that waits and has room, and its least prefix, each with its place.
    Peer(usize, usize, Prefix),
    // Each peer that waits is at the limit. This is the least of them.
    Blocked(Asn),
    // Nobody waits.
    Nobody,
}

impl Router<'_> {
    /// Decides one prefix (RFC 4271 section 9.1): the least, by address and then by length, whose kept path is not the
    /// best of the choices. It gets its best path. There is nothing to do if each kept path is the best.
    ///
    /// Refused with [`RouterError::StampEnd`], and with [`RouterError::Memory`] if a growth is refused; then all is as
    /// it was.
    pub fn decide(&mut self) -> Result<Stepped, RouterError>
        ensures answers { Answers result self.old Decide self.new }
        ensures same { IsSame self.old self.new }
    {
        self.decide_with_room(Ok(()))
    }

    // Does what `decide` does; if the caller has no room for the event, no step is done.
    pub(super) fn decide_with_room(
        &mut self,
        room: Result<(), AllocError>,
    ) -> Result<Stepped, RouterError>
        ensures answers { Answers result self.old Decide self.new }
        ensures full { NeedsRoom result room }
        ensures same { IsSame self.old self.new }
    {
        the_best_is_the_best_path(&self.tables);
        let stamp = match next_stamp_with_room(self.stamp, room) {
            Ok(stamp) => stamp,
            Err(why) => {
                let Some(_) = self.tables.dirty() else {
                    return Ok(Stepped::Nothing);
                };
                return Err(why);
            }
        };
        let alloc = *self.peers.allocator();
        match self.tables.decide(alloc) {
            Ok(Some(_)) => {
                self.stamp = stamp;
                Ok(Stepped::Did)
            }
            Ok(None) => Ok(Stepped::Nothing),
            Err(_) => Err(RouterError::Memory),
        }
    }

    // The peer to tell next.
    pub(super) fn next_to_tell(&self) -> Next
        ensures { IsNext self.now result }
    {
        if !self.tables.has_waiting_peer() {
            return Next::Nobody;
        }
        let mut blocked = None;
        for peer_at in 0..self.peers.len() {
            let peer = &self.peers[peer_at];
            let Some(found) = self.tables.waiting_at(peer_at, peer.number) else {
                continue;
            };
            if peer.side.octets_waiting() < OUTBOX_LIMIT {
                return Next::Peer(peer_at, found.0, found.1);
            }
            blocked = blocked.or(Some(peer.number));
        }
        match blocked {
            Some(peer) => Next::Blocked(peer),
            None => Next::Nobody,
        }
    }

    /// Tells one peer of one prefix, in one UPDATE (RFC 4271 section 9.2). The peer is the least Established one that
    /// was not told some kept path and whose outbox has less than 65,536 octets. It is told the kept path of the least
    /// such prefix. There is nothing to do if each peer was told all.
    ///
    /// Refused with [`RouterError::Blocked`] if each peer that waits is at the limit, with [`RouterError::StampEnd`],
    /// and with [`RouterError::Memory`] if a growth is refused; then all is as it was.
    pub fn advertise(&mut self) -> Result<Stepped, RouterError>
        ensures answers { Answers result self.old Advertise self.new }
        ensures same { IsSame self.old self.new }
    {
        self.advertise_with_room(Ok(()))
    }

    // Does what `advertise` does; if the caller has no room for the event, no step is done.
    pub(super) fn advertise_with_room(
        &mut self,
        room: Result<(), AllocError>,
    ) -> Result<Stepped, RouterError>
        ensures answers { Answers result self.old Advertise self.new }
        ensures full { NeedsRoom result room }
        ensures same { IsSame self.old self.new }
    {
        match self.next_to_tell() {
            Next::Nobody => Ok(Stepped::Nothing),
            Next::Blocked(peer) => Err(RouterError::Blocked { peer }),
            Next::Peer(peer_at, prefix_at, prefix) => self.tell(peer_at, prefix_at, &prefix, room),
        }
    }

    // Tells the kept path of the prefix at a place of the network to the peer at a place.
    fn tell(
        &mut self,
        peer_at: usize,
        prefix_at: usize,
        prefix: &Prefix,
        room: Result<(), AllocError>,
    ) -> Result<Stepped, RouterError>
        requires may { MayTell self.old peer_at prefix.now }
        requires named { IsNamedAt self.old.net prefix.now prefix_at }
        ensures tells { (v : ℕ) → IsAt self.old.peers v peer_at → Tells result self.old v prefix.now self.new }
        ensures full { NeedsRoom result room }
        ensures same { IsSame self.old self.new }
    {
        let stamp = next_stamp_with_room(self.stamp, room)?;
        let alloc = *self.peers.allocator();
        let path = self.tables.path_at(prefix_at, prefix);
        let Ok(told) = path_to_tell(alloc, self.network, self.number, prefix, path) else {
            return Err(RouterError::Memory);
        };
        let Peer { number, side } = &mut self.peers[peer_at];
        let Ok(()) = side.reserve_path(&told) else {
            return Err(RouterError::Memory);
        };
        let Ok(()) = self.tables.tell_at(peer_at, *number, prefix_at, prefix) else {
            return Err(RouterError::Memory);
        };
        side.tell_path(&told);
        self.stamp = stamp;
        Ok(Stepped::Did)
    }
}
