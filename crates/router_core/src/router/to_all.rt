//! Events that come to all peers of a router: a second that passes, and a restart.

ghost use Rattle.bgp_values.specs.declared.width.Width as widths;
ghost use Rattle.std.specs.Prelude.{◌≡◌, ◌<◌, ℕ, false, length, get_or, IfOk};
ghost use Rattle.router_model.specs.declared.command.Command.TheVariants.{Restart};
ghost use Rattle.router_model.specs.Calls.{Tick, Obey};
ghost use Rattle.router_side.specs.Sayings.{IsSayable};
ghost use Rattle.router_side.specs.SideOf.{side};
ghost use Rattle.router_core.specs.declared.peers.Peer as peer;
ghost use Rattle.router_core.specs.Views.{IsSame, Answers};
ghost use Rattle.router_core.specs.Calling.{NeedsRoom};
ghost use Rattle.router_core.specs.Recorded.{Become};
ghost use Rattle.router_core.specs.ToAll.{draft_by, overflow_in, IsReady, AreReady, MovesSide, MovesAll, runs_out_in, counted_down};

use super::carry::{SessionEvent, carry, close, drafted};
use super::{Router, next_stamp, next_stamp_with_room};
use crate::peers::Peer;
use bgp_codec::Message;
use router_model::{RouterError, Stepped};
use router_side::laws::sessions_keep_fresh;
use router_side::{Brought, SideDraft};
use std::alloc::{AllocError, Global};

// Whether a dial of some side would pass the greatest incarnation.
pub(super) fn overflows(event: SessionEvent, peers: &[Peer], own_open: &Message) -> bool
    ensures { result ≡ overflow_in (draft_by event own_open.now) peers.now }
{
    for peer in peers {
        if drafted(event, &peer.side, own_open).overflows {
            return true;
        }
    }
    false
}

// Drafts the sides of all peers, with room for each. A refusal leaves the sides as they were.
fn prepare(
    alloc: Global,
    event: SessionEvent,
    peers: &mut Vec<Peer>,
    own_open: &Message,
) -> Result<Vec<SideDraft>, AllocError>
    requires { (w : widths.Width) → IsSayable w own_open.now }
    ensures same { Become (λ s. s) peers.old.items peers.new.items }
    ensures ready { IfOk result
        (λ made. AreReady own_open.now (draft_by event own_open.now) peers.new.items made.items) }
{
    let mut drafts = Vec::new(alloc);
    for peer in peers.iter_mut() {
        let made = drafted(event, &peer.side, own_open);
        peer.side.reserve(own_open, &Brought::Nothing, &made)?;
        drafts.push(made)?;
    }
    Ok(drafts)
}

// Whether a timer of some session runs out in the next second.
fn runs_out(peers: &[Peer]) -> bool
    ensures { result ≡ runs_out_in peers.now }
{
    for peer in peers {
        if peer.side.runs_out() {
            return true;
        }
    }
    false
}

// Counts the timers of all sessions down by one second.
fn count_down_all(peers: &mut Vec<Peer>)
    ensures { Become counted_down peers.old.items peers.new.items }
{
    for peer in peers.iter_mut() {
        peer.side.count_down();
    }
}

impl Router<'_> {
    // Carries out the draft of the side at a place, for which there is room. The stamp stays.
    fn move_side(&mut self, event: SessionEvent, peer_at: usize, made: &SideDraft)
        requires below { peer_at < length self.old.peers }
        requires ready { (d : peer.Peer)
            → IsReady self.old.own_open (draft_by event self.old.own_open) (get_or self.old.peers peer_at d) made.now }
        requires fits { (d : peer.Peer)
            → (draft_by event self.old.own_open (side (get_or self.old.peers peer_at d).side)).overflows ≡ false }
        ensures { MovesSide self.old peer_at (draft_by event self.old.own_open) self.new }
    {
        sessions_keep_fresh();
        let alloc = *self.peers.allocator();
        let peer = self.peers[peer_at].number;
        let side = &mut self.peers[peer_at].side;
        carry(
            alloc,
            side,
            &mut self.tables,
            peer_at,
            peer,
            &self.own_open,
            made,
        );
        close(&mut self.marks, peer, made.left);
    }

    // Carries out the drafts of all sides, peers rising.
    fn move_all(&mut self, event: SessionEvent, made: &[SideDraft])
        requires ready { AreReady self.old.own_open (draft_by event self.old.own_open) self.old.peers made.now }
        requires fits { overflow_in (draft_by event self.old.own_open) self.old.peers ≡ false }
        ensures { MovesAll self.old (draft_by event self.old.own_open) self.new }
    {
        for peer_at in 0..made.len() {
            self.move_side(event, peer_at, &made[peer_at]);
        }
    }

    /// Lets a second pass: at most one timer of each session runs out, peers rising (RFC 4271 section 8).
    ///
    /// Refused with [`RouterError::StampEnd`], with [`RouterError::EpochEnd`], and with [`RouterError::Memory`] if a
    /// growth is refused; then all is as it was.
    pub fn tick(&mut self) -> Result<Stepped, RouterError>
        ensures answers { Answers result self.old Tick self.new }
        ensures same { IsSame self.old self.new }
    {
        self.tick_with_room(Ok(()))
    }

    // Does what `tick` does; if the caller has no room for the event, no step is done.
    pub(super) fn tick_with_room(
        &mut self,
        room: Result<(), AllocError>,
    ) -> Result<Stepped, RouterError>
        ensures answers { Answers result self.old Tick self.new }
        ensures full { NeedsRoom result room }
        ensures same { IsSame self.old self.new }
    {
        if runs_out(self.peers.as_slice()) {
            self.tick_by_drafts(room)
        } else {
            self.count_down(room)
        }
    }

    // Lets a second pass in which no timer runs out. It says, dials and leaves nothing: it needs no draft and no memory
    // of its own, and moves the timers alone.
    fn count_down(&mut self, room: Result<(), AllocError>) -> Result<Stepped, RouterError>
        requires { runs_out_in self.old.peers ≡ false }
        ensures answers { Answers result self.old Tick self.new }
        ensures full { NeedsRoom result room }
        ensures same { IsSame self.old self.new }
    {
        let stamp = next_stamp_with_room(self.stamp, room)?;
        count_down_all(&mut self.peers);
        self.stamp = stamp;
        Ok(Stepped::Did)
    }

    // Lets any second pass: all sides are drafted, given room, and moved.
    #[inline(never)]
    fn tick_by_drafts(&mut self, room: Result<(), AllocError>) -> Result<Stepped, RouterError>
        ensures answers { Answers result self.old Tick self.new }
        ensures full { NeedsRoom result room }
        ensures same { IsSame self.old self.new }
    {
        let stamp = next_stamp(self.stamp)?;
        if overflows(SessionEvent::Second, self.peers.as_slice(), &self.own_open) {
            return Err(RouterError::EpochEnd);
        }
        room?;
        let alloc = *self.peers.allocator();
        let Ok(made) = prepare(alloc, SessionEvent::Second, &mut self.peers, &self.own_open) else {
            return Err(RouterError::Memory);
        };
        self.move_all(SessionEvent::Second, made.as_slice());
        self.stamp = stamp;
        Ok(Stepped::Did)
    }

    // Stops every session, rising; then forgets what is kept and originated.
    pub(super) fn restart(&mut self, room: Result<(), AllocError>) -> Result<Stepped, RouterError>
        ensures answers { Answers result self.old (Obey Restart) self.new }
        ensures full { NeedsRoom result room }
        ensures same { IsSame self.old self.new }
    {
        let stamp = next_stamp_with_room(self.stamp, room)?;
        let alloc = *self.peers.allocator();
        let Ok(made) = prepare(alloc, SessionEvent::Stop, &mut self.peers, &self.own_open) else {
            return Err(RouterError::Memory);
        };
        self.move_all(SessionEvent::Stop, made.as_slice());
        self.tables.clear();
        self.stamp = stamp;
        Ok(Stepped::Did)
    }
}
