//! Carrying out drafts.

ghost use Rattle.bgp_values.specs.declared.width.Width as widths;
ghost use Rattle.std.specs.Prelude.{◌≡◌, true, false, ℕ, List, None, Some, slice_get};
ghost use Rattle.bgp_framing.specs.Held.{is_waiting};
ghost use Rattle.snap_marker.specs.Recordings.{closed};
ghost use Rattle.snap_marker.specs.Parts.{snapshots_of, IsOver, AreOf};
ghost use Rattle.router_model.specs.Settings.{peers};
ghost use Rattle.router_model.specs.Sides.{carried, without_front, NoMessage};
ghost use Rattle.router_model.specs.Step.{close_at};
ghost use Rattle.router_side.specs.Sayings.{told_of, IsSayable, IsSayableWhere};
ghost use Rattle.router_side.specs.Drafts.{draft, hand};
ghost use Rattle.router_side.specs.Freshness.{KeepsFresh};
ghost use Rattle.router_side.specs.SideOf.{side as side_of, IsInFront, HasRoom};
ghost use Rattle.router_core.specs.Views.{sides_of, IsFound, IsSame, Carries};
ghost use Rattle.router_core.specs.Calling.{NeedsRoom};
ghost use Rattle.router_core.specs.Following.{standing, Followed};
ghost use Rattle.router_core.specs.ToAll.{draft_by};

use super::Router;
use crate::tables::follow;
use bgp_codec::Message;
use ranked_policy::Asn;
use rib_tables::Rib;
use router_model::{RouterError, Stepped};
use router_side::{Brought, Side, SideDraft};
use run_model::GREATEST_STAMP;
use session_fsm::FsmEvent;
use snap_marker::MarkState;
use std::alloc::{AllocError, Global};

/// What comes to a session and brings no message.
#[derive(Clone, Copy)]
pub(super) enum SessionEvent {
    // It starts.
    Start,
    // It stops.
    Stop,
    // It stops, and starts again.
    Reset,
    // A second passes.
    Second,
}

/// The draft of a side for such an event.
pub(super) fn drafted(event: SessionEvent, side: &Side, own_open: &Message) -> SideDraft
    ensures { draft own_open.now NoMessage result ≡ draft_by event own_open.now (side_of side.now) }
{
    match event {
        SessionEvent::Start => side.draft_event(own_open, FsmEvent::ManualStart),
        SessionEvent::Stop => side.draft_event(own_open, FsmEvent::ManualStop),
        SessionEvent::Reset => side.draft_reset(own_open),
        SessionEvent::Second => side.draft_second(own_open),
    }
}

/// The incarnation in which the session is Established, if it is.
fn standing(side: &Side) -> Option<u32>
    ensures { result ≡ standing (side_of side.now) }
{
    if side.is_up() {
        Some(side.epoch())
    } else {
        None
    }
}

/// Carries out the draft of an event that brings no message, for which there is room. The tables follow the session. It
/// takes no memory.
pub(super) fn carry(
    alloc: Global,
    side: &mut Side,
    tables: &mut Rib<'_>,
    peer_at: usize,
    peer: Asn,
    own_open: &Message,
    made: &SideDraft,
)
    requires stands { slice_get (peers tables.old.net tables.old.router) peer_at ≡ Some peer }
    requires own { (w : widths.Width) → IsSayable w own_open.now }
    requires room { HasRoom own_open.now None made.now side.old }
    ensures side { side_of side.new ≡ carried NoMessage (side_of side.old) (draft own_open.now NoMessage made.now) }
    ensures tables { Followed tables.old tables.new peer (standing (side_of side.old)) (standing (side_of side.new)) }
{
    let was = standing(side);
    side.commit(alloc, own_open, made);
    let now = standing(side);
    follow(tables, peer_at, peer, was, now);
}

/// Carries out the draft of the message or fault in front, for which there is room. The tables follow the session. It
/// takes no memory.
pub(super) fn carry_front(
    alloc: Global,
    own_open: &Message,
    given: Brought,
    made: &SideDraft,
    side: &mut Side,
    tables: &mut Rib<'_>,
    peer_at: usize,
    peer: Asn,
)
    requires stands { slice_get (peers tables.old.net tables.old.router) peer_at ≡ Some peer }
    requires own { (w : widths.Width) → IsSayable w own_open.now }
    requires told { IsSayableWhere (side_of side.old).width (told_of (hand given)) }
    requires waits { is_waiting (side_of side.old).held ≡ true }
    requires front { IsInFront (side_of side.old).width (side_of side.old).held (hand given) }
    requires room { HasRoom own_open.now (told_of (hand given)) made.now side.old }
    ensures side { side_of side.new
        ≡ carried (hand given) (without_front (side_of side.old)) (draft own_open.now (hand given) made.now) }
    ensures tables { Followed tables.old tables.new peer (standing (side_of side.old)) (standing (side_of side.new)) }
{
    let was = standing(side);
    side.commit_front(alloc, own_open, given, made);
    let now = standing(side);
    follow(tables, peer_at, peer, was, now);
}

/// Loses the unfinished recording, if a session leaves Established in an incarnation. It takes no memory.
pub(super) fn close(marks: &mut MarkState, peer: Asn, left: Option<u32>)
    ensures closed { snapshots_of marks.new ≡ closed (close_at peer left) (snapshots_of marks.old) }
    ensures over { (peers : List ℕ) → IsOver peers marks.old.unfinished → IsOver peers marks.new.unfinished }
    ensures router { (u : ℕ) → AreOf u marks.old → AreOf u marks.new }
{
    if let Some(epoch) = left {
        marks.on_close(peer, epoch);
    }
}

impl Router<'_> {
    // Carries out the draft of one side at a stamp, if the caller has room for the event; else refuses it and changes
    // nothing.
    pub(super) fn carry_out(
        &mut self,
        peer: Asn,
        peer_at: usize,
        made: &SideDraft,
        stamp: u64,
        room: Result<(), AllocError>,
    ) -> Result<Stepped, RouterError>
        requires place { IsFound self.old.peers peer peer_at }
        requires fresh { made.now.overflows ≡ false
            → KeepsFresh (sides_of self.old peer) NoMessage (draft self.old.own_open NoMessage made.now) }
        ensures carries { Carries result self.old peer NoMessage (draft self.old.own_open NoMessage made.now)
            made.now.overflows stamp self.new }
        ensures full { NeedsRoom result room }
        ensures same { IsSame self.old self.new }
    {
        if stamp > GREATEST_STAMP {
            return Err(RouterError::StampEnd);
        }
        let overflows = made.overflows;
        if overflows {
            return Err(RouterError::EpochEnd);
        }
        room?;
        let alloc = *self.peers.allocator();
        let nothing = Brought::Nothing;
        let side = &mut self.peers[peer_at].side;
        if side.reserve(&self.own_open, &nothing, made).is_err() {
            return Err(RouterError::Memory);
        }
        carry(
            alloc,
            side,
            &mut self.tables,
            peer_at,
            peer,
            &self.own_open,
            made,
        );
        close(&mut self.marks, peer, made.left);
        self.stamp = stamp;
        Ok(Stepped::Did)
    }
}
