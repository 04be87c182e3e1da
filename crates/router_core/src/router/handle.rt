//! Messages and faults that a router handles.

ghost use Rattle.std.specs.Prelude.{◌≡◌, true, slice_get, IfOk, IfSome, OnOk, OnErr, ℕ, List, Option, Some};
ghost use Rattle.bgp_codec.specs.declared.update.Update as update;
ghost use Rattle.bgp_framing.specs.Held.{is_waiting};
ghost use Rattle.bgp_values.specs.declared.width.Width as widths;
ghost use Rattle.router_core.specs.Calling.{NeedsRoom};
ghost use Rattle.router_core.specs.Handling.{update_acted, copy_where, seen_where, Hears, HandlesFront};
ghost use Rattle.router_core.specs.Views.{IsSame, Answers};
ghost use Rattle.router_model.specs.Calls.{Handle};
ghost use Rattle.router_model.specs.Settings.{peers};
ghost use Rattle.router_model.specs.Step.{close_at};
ghost use Rattle.router_side.specs.Drafts.{hand};
ghost use Rattle.router_side.specs.Sayings.{IsSayable};
ghost use Rattle.router_side.specs.SideOf.{side as side_of, naming};
ghost use Rattle.snap_marker.specs.Parts.{snapshots_of, is_heard, HasRoom, IsLink, IsOver, AreOf};
ghost use Rattle.snap_marker.specs.Recordings.{closed};

use super::carry::{carry_front, close};
use super::{Router, next_stamp_with_room};
use bgp_codec::{Message, Rule, Update};
use ranked_policy::Asn;
use rib_tables::Rib;
use rib_tables::laws::the_word_follows;
use router_model::{RouterError, Stepped};
use router_side::laws::{updates_are_acted_on, what_comes_keeps_fresh};
use router_side::{Brought, Side, opened};
use snap_marker::MarkState;
use std::alloc::{AllocError, Global};

// A copy of the UPDATE that is acted on, for the channel of its peer, if that is being recorded.
fn copy_for(
    alloc: Global,
    marks: &mut MarkState,
    peer: Asn,
    acts: bool,
    given: &Brought,
) -> Result<Option<Update>, AllocError>
    ensures copy { IfOk result
        (λ copy. copy ≡ copy_where marks.new.unfinished peer (update_acted acts (hand given.now))) }
    ensures heard { IfOk result (λ copy. IfSome copy (λ _. is_heard marks.new.unfinished peer ≡ true)) }
    ensures room { IfOk result (λ copy. IfSome copy (λ _. HasRoom marks.new.unfinished peer)) }
    ensures state { snapshots_of marks.new ≡ snapshots_of marks.old }
    ensures over { (peers : List ℕ) → IsOver peers marks.old.unfinished → IsOver peers marks.new.unfinished }
    ensures router { (u : ℕ) → AreOf u marks.old → AreOf u marks.new }
{
    if !acts {
        return Ok(None);
    }
    match given {
        Brought::Update(update) => marks.copy_update(alloc, peer, update),
        Brought::Nothing | Brought::Fault(_) => Ok(None),
    }
}

// Lets the tables take the UPDATE that is acted on.
fn hear(
    tables: &mut Rib<'_>,
    peer_at: usize,
    peer: Asn,
    acts: bool,
    given: &Brought,
) -> Result<(), AllocError>
    requires { slice_get (peers tables.old.net tables.old.router) peer_at ≡ Some peer }
    ensures ok { OnOk result (Hears tables.old tables.new peer (update_acted acts (hand given.now))) }
    ensures err { OnErr result (tables.new ≡ tables.old) }
{
    if !acts {
        return Ok(());
    }
    match given {
        Brought::Update(update) => tables.hear_at(peer_at, peer, update),
        Brought::Nothing | Brought::Fault(_) => Ok(()),
    }
}

// Lets the recording see a session that leaves Established, or else the UPDATE.
fn record(marks: &mut MarkState, peer: Asn, left: Option<u32>, copy: Option<Update>)
    requires link { IsLink marks.old.unfinished peer }
    requires copy { IfSome copy (λ _. is_heard marks.old.unfinished peer ≡ true) }
    requires room { IfSome copy (λ _. HasRoom marks.old.unfinished peer) }
    ensures sees { (acted : Option update.Update) → copy ≡ copy_where marks.old.unfinished peer acted
        → snapshots_of marks.new ≡ seen_where peer acted (closed (close_at peer left) (snapshots_of marks.old)) }
    ensures over { (peers : List ℕ) → IsOver peers marks.old.unfinished → IsOver peers marks.new.unfinished }
    ensures router { (u : ℕ) → AreOf u marks.old → AreOf u marks.new }
{
    match left {
        Some(_) => close(marks, peer, left),
        None => marks.on_update(peer, copy),
    }
}

// Handles the message or fault in front of a side, as its peer says it. A refusal leaves all as it was.
fn handle_front(
    alloc: Global,
    rule: &Rule,
    side: &mut Side,
    tables: &mut Rib<'_>,
    marks: &mut MarkState,
    own_open: &Message,
    peer_at: usize,
    peer: Asn,
) -> Result<(), AllocError>
    requires stands { slice_get (peers tables.old.net tables.old.router) peer_at ≡ Some peer }
    requires own { (w : widths.Width) → IsSayable w own_open.now }
    requires rule { (own : ℕ) × (rule.now ≡ naming (side_of side.old).width own peer) }
    requires waits { is_waiting (side_of side.old).held ≡ true }
    requires link { IsLink marks.old.unfinished peer }
    ensures ok { OnOk result
        (HandlesFront own_open.now rule.now peer (side_of side.old) (side_of side.new) tables.old tables.new
        (snapshots_of marks.old) (snapshots_of marks.new)) }
    ensures side { OnErr result (side_of side.new ≡ side_of side.old) }
    ensures tables { OnErr result (tables.new ≡ tables.old) }
    ensures marks { OnErr result (snapshots_of marks.new ≡ snapshots_of marks.old) }
    ensures over { (peers : List ℕ) → IsOver peers marks.old.unfinished → IsOver peers marks.new.unfinished }
    ensures router { (u : ℕ) → AreOf u marks.old → AreOf u marks.new }
{
    updates_are_acted_on();
    // most are UPDATEs as a router tells them, and are not recorded: they are acted on without a draft
    if side.is_up() && marks.unfinished().is_none() {
        if let Some(told) = side.path_in_front(alloc, peer)? {
            side.reserve_acting()?;
            let (prefix, path) = told.prefix_and_path();
            let Ok(()) = tables.hear_path_at(peer_at, peer, prefix, path) else {
                return Err(AllocError);
            };
            side.act_on_front();
            return Ok(());
        }
    }
    handle_by_draft(alloc, rule, side, tables, marks, own_open, peer_at, peer)
}

// Handles any message or fault: it is read, and its draft is made, given room, and carried out. A draft is large, and a
// function pays as it begins for what it may hold: `handle_front` therefore holds none.
#[inline(never)]
fn handle_by_draft(
    alloc: Global,
    rule: &Rule,
    side: &mut Side,
    tables: &mut Rib<'_>,
    marks: &mut MarkState,
    own_open: &Message,
    peer_at: usize,
    peer: Asn,
) -> Result<(), AllocError>
    requires stands { slice_get (peers tables.old.net tables.old.router) peer_at ≡ Some peer }
    requires own { (w : widths.Width) → IsSayable w own_open.now }
    requires rule { (own : ℕ) × (rule.now ≡ naming (side_of side.old).width own peer) }
    requires waits { is_waiting (side_of side.old).held ≡ true }
    requires link { IsLink marks.old.unfinished peer }
    ensures ok { OnOk result
        (HandlesFront own_open.now rule.now peer (side_of side.old) (side_of side.new) tables.old tables.new
        (snapshots_of marks.old) (snapshots_of marks.new)) }
    ensures side { OnErr result (side_of side.new ≡ side_of side.old) }
    ensures tables { OnErr result (tables.new ≡ tables.old) }
    ensures marks { OnErr result (snapshots_of marks.new ≡ snapshots_of marks.old) }
    ensures over { (peers : List ℕ) → IsOver peers marks.old.unfinished → IsOver peers marks.new.unfinished }
    ensures router { (u : ℕ) → AreOf u marks.old → AreOf u marks.new }
{
    let read = side.front(alloc, rule)?;
    let (event, given) = opened(read);
    let made = side.draft_message(own_open, &given, event);
    side.reserve(own_open, &given, &made)?;
    let copy = copy_for(alloc, marks, peer, made.acts, &given)?;
    hear(tables, peer_at, peer, made.acts, &given)?;
    record(marks, peer, made.left, copy);
    carry_front(alloc, own_open, given, &made, side, tables, peer_at, peer);
    Ok(())
}

impl Router<'_> {
    /// Handles the message or fault of a peer that waits in front: its event comes to the session, and what the session
    /// wants is done (RFC 4271 section 8). An UPDATE that is acted on changes the words heard of the prefixes that the
    /// network names (section 3.1). It joins the channel of its peer, if that is being recorded. There is nothing to do
    /// if neither waits.
    ///
    /// Refused with [`RouterError::NoSuchPeer`], with [`RouterError::StampEnd`], and with [`RouterError::Memory`] if a
    /// growth is refused; then all is as it was.
    pub fn handle(&mut self, peer: Asn) -> Result<Stepped, RouterError>
        ensures answers { Answers result self.old (Handle peer) self.new }
        ensures same { IsSame self.old self.new }
    {
        self.handle_with_room(peer, Ok(()))
    }

    // Does what `handle` does; if the caller has no room for the event, no step is done.
    pub(super) fn handle_with_room(
        &mut self,
        peer: Asn,
        room: Result<(), AllocError>,
    ) -> Result<Stepped, RouterError>
        ensures answers { Answers result self.old (Handle peer) self.new }
        ensures full { NeedsRoom result room }
        ensures same { IsSame self.old self.new }
    {
        let Some(peer_at) = self.find(peer) else {
            return Err(RouterError::NoSuchPeer);
        };
        self.handle_at(peer_at, peer, room)
    }

    /// Handles the message or fault of the peer at a place that waits in front, as [`Router::handle`] does.
    ///
    /// `room` says whether the caller has room for the event if the call steps. Without room, a step is refused with
    /// [`RouterError::Memory`]; any other answer is as it would be. Refused besides with [`RouterError::StampEnd`], and
    /// with [`RouterError::Memory`] if a growth is refused; then all is as it was.
    pub fn handle_at(
        &mut self,
        peer_at: usize,
        peer: Asn,
        room: Result<(), AllocError>,
    ) -> Result<Stepped, RouterError>
        requires stands { slice_get (peers self.old.net self.old.number) peer_at ≡ Some peer }
        ensures answers { Answers result self.old (Handle peer) self.new }
        ensures full { NeedsRoom result room }
        ensures same { IsSame self.old self.new }
    {
        what_comes_keeps_fresh();
        the_word_follows();
        self.peer_stands_at(peer_at, peer);
        if !self.peers[peer_at].side.is_waiting() {
            return Ok(Stepped::Nothing);
        }
        let stamp = next_stamp_with_room(self.stamp, room)?;
        let alloc = *self.peers.allocator();
        let rule = Rule {
            width: self.network.settings().width,
            peer: Some(peer),
            own: Some(self.number),
        };
        let side = &mut self.peers[peer_at].side;
        match handle_front(
            alloc,
            &rule,
            side,
            &mut self.tables,
            &mut self.marks,
            &self.own_open,
            peer_at,
            peer,
        ) {
            Ok(()) => {
                self.stamp = stamp;
                Ok(Stepped::Did)
            }
            Err(_) => Err(RouterError::Memory),
        }
    }
}
