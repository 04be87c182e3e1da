//! What one router has recorded.

ghost use Rattle.std.specs.Prelude.{ℕ, List, ◌↔◌, IsTrue, [], ◌∷◌, ◌++◌, ◌≡◌, ◌≤◌, ◌+◌, ◌-◌, false, OnOk, OnErr, Some, None, MatchOption, IfOk, IfSome, true, slice_get, drop};
ghost use Rattle.bgp_codec.specs.declared.message.Message.TheVariants.{UpdateMsg};
ghost use Rattle.bgp_codec.specs.declared.update.Update as update;
ghost use Rattle.snap_marker.specs.Recordings.{no_snapshots, begun_at, superseding, goes_on, ends_channel, closed, acted_on, without_first};
ghost use Rattle.snap_marker.specs.Parts.{MarkView, snapshots_of, recording_of, peers_of, offers_owed, copy_for, is_heard, router_of, IsLink, IsOver, AreOf, HasRoom};

use crate::links::{
    close_channel, copy_update, epoch_in, first_waiting, is_open, leads_to, push_update,
    waits_for_marker,
};
use crate::part::{Cause, Lost, Offer, Part};
use bgp_codec::Update;
use ranked_policy::Asn;
use std::alloc::{AllocError, Global};
use std::collections::VecDeque;
use std::marker::Model;

/// What one router has recorded: the number of its last snapshot, the recording that is unfinished,
/// and the offers that wait to be made.
#[derive(Drop)]
pub struct MarkState {
    last: u32,
    unfinished: Option<Part>,
    queue: VecDeque<Offer>,
}

impl Model for MarkState {
    ghost use Rattle.std.specs.Prelude.{◌≤◌, ◌-◌};
    ghost use Rattle.std.specs.VecDeque.{deque_capacity, deque_len};
    ghost use Rattle.snap_marker.specs.Parts.{MarkView, offers_owed};

    ghost Value = { MarkView };

    ghost view = { λ m. record { last = m.last; unfinished = m.unfinished; queue = m.queue.items; room = deque_capacity m.queue - deque_len m.queue } };

    ghost invariant = { λ m. offers_owed m.unfinished ≤ deque_capacity m.queue - deque_len m.queue };
}

impl MarkState {
    /// The state of a router that has recorded nothing yet. It takes no memory.
    pub fn new(alloc: Global) -> MarkState
        ensures none { snapshots_of result ≡ no_snapshots }
        ensures router { (u : ℕ) → AreOf u result }
        ensures over { (peers : List ℕ) → IsOver peers result.unfinished }
    {
        MarkState {
            last: 0,
            unfinished: None,
            queue: VecDeque::new(alloc),
        }
    }

    /// The number of the last snapshot that was recorded, 0 at first.
    pub fn last(&self) -> u32
        ensures { result ≡ self.now.last }
    {
        self.last
    }

    /// The recording that is unfinished.
    pub fn unfinished(&self) -> Option<&Part>
        ensures { MatchOption result (self.now.unfinished ≡ None) (λ part. self.now.unfinished ≡ Some part.now) }
    {
        self.unfinished.as_ref()
    }

    /// The offer that is made next.
    pub fn next_offer(&self) -> Option<&Offer>
        ensures { MatchOption result (self.now.queue ≡ []) (λ offer. slice_get self.now.queue 0 ≡ Some offer.now) }
    {
        self.queue.front()
    }

    /// Takes the offer that is made next, if one waits: it is made then, and waits no more. It takes no memory.
    pub fn take_offer(&mut self) -> Option<Offer>
        ensures offer { result ≡ slice_get self.old.queue 0 }
        ensures made { snapshots_of self.new ≡ without_first (snapshots_of self.old) }
        ensures unfinished { self.new.unfinished ≡ self.old.unfinished }
        ensures router { (u : ℕ) → AreOf u self.old → AreOf u self.new }
    {
        self.queue.pop_front()
    }

    /// Removes the next offer, which was made. It takes no memory.
    pub fn offer_made(&mut self)
        ensures made { snapshots_of self.new ≡ without_first (snapshots_of self.old) }
        ensures unfinished { self.new.unfinished ≡ self.old.unfinished }
        ensures router { (u : ℕ) → AreOf u self.old → AreOf u self.new }
    {
        self.take_offer();
    }

    /// Whether a link of the unfinished recording leads to the peer; true if nothing is being recorded.
    pub fn has_link(&self, peer: Asn) -> bool
        ensures { IsTrue result ↔ IsLink self.now.unfinished peer }
    {
        match &self.unfinished {
            None => true,
            Some(part) => leads_to(&part.channels, peer),
        }
    }

    // Queues an offer, for which there is room.
    fn queue(&mut self, offer: Offer)
        requires { offers_owed self.old.unfinished + 1 ≤ self.old.room }
        ensures { self.new ≡ record self.old { queue = self.old.queue ++ offer ∷ []; room = self.old.room - 1 } }
    {
        self.queue.push_back_reserved(offer);
    }

    // Lets a recording go on if it waits for a marker; else queues its part.
    fn go_on(&mut self, part: Part)
        requires none { self.old.unfinished ≡ None }
        requires room { 1 ≤ self.old.room }
        ensures goes_on { snapshots_of self.new
            ≡ goes_on (peers_of part.channels.items) (recording_of part) (snapshots_of self.old) }
        ensures over { IsOver (peers_of part.channels.items) self.new.unfinished }
        ensures router { (u : ℕ) → part.router ≡ u → AreOf u self.old → AreOf u self.new }
    {
        if is_open(&part.channels) {
            self.unfinished = Some(part);
        } else {
            self.queue(Offer::Part(part));
        }
    }

    // Ends the unfinished recording, since a new number supersedes it.
    fn supersede(&mut self, part: &Part)
        requires { offers_owed self.old.unfinished + 1 ≤ self.old.room }
        ensures superseded { snapshots_of self.new
            ≡ superseding (recording_of part.now) (peers_of part.now.channels.items) (snapshots_of self.old) }
        ensures none { self.new.unfinished ≡ None }
        ensures room { 1 ≤ self.new.room }
        ensures router { (u : ℕ) → AreOf u self.old → AreOf u self.new }
    {
        self.last = part.number;
        if let Some(old) = self.unfinished.take() {
            if let Some(peer) = first_waiting(&part.channels, &old.channels) {
                self.queue(Offer::Lost(Lost {
                    router: old.router,
                    number: old.number,
                    peer,
                    epoch: epoch_in(&part.channels, peer),
                    cause: Cause::Superseded,
                }));
            }
        }
    }

    /// Records a snapshot, whose number is that of the part. The part holds the router's state and its links; its
    /// channels are open, but for the one over which the marker came. The unfinished recording is superseded: it is
    /// lost by the first of the part's peers whose marker it misses. If a peer is `down`, not Established, the new
    /// recording is lost at once; else it goes on until no channel is open. Refused only for want of memory, and then all
    /// is as it was.
    pub fn begin(&mut self, part: Part, down: Option<Asn>) -> Result<(), AllocError>
        ensures ok { OnOk result
            (snapshots_of self.new
            ≡ begun_at (peers_of part.channels.items) down (recording_of part) (snapshots_of self.old)) }
        ensures over { OnOk result (IsOver (peers_of part.channels.items) self.new.unfinished) }
        ensures err { OnErr result (snapshots_of self.new ≡ snapshots_of self.old) }
        ensures same { OnErr result (self.new.unfinished ≡ self.old.unfinished) }
        ensures router { OnOk result ((u : ℕ) → part.router ≡ u → AreOf u self.old → AreOf u self.new) }
        ensures queue { OnErr result (self.new.queue ≡ self.old.queue) }
    {
        self.queue.try_reserve(2)?;
        self.supersede(&part);
        match down {
            None => self.go_on(part),
            Some(peer) => self.queue(Offer::Lost(Lost {
                router: part.router,
                number: part.number,
                peer,
                epoch: epoch_in(&part.channels, peer),
                cause: Cause::NotUp,
            })),
        }
        Ok(())
    }

    /// Takes a marker of a peer whose number is not above the last. It ends the channel that waits for it; if none
    /// does, it is ignored. A recording whose last channel it ends is offered. It takes no memory.
    pub fn on_mark(&mut self, peer: Asn, number: u32)
        requires link { IsLink self.old.unfinished peer }
        ensures ends { (peers : List ℕ) → IsOver peers self.old.unfinished
            → snapshots_of self.new
            ≡ ends_channel peers peer number (snapshots_of self.old).unfinished (snapshots_of self.old) }
        ensures over { (peers : List ℕ) → IsOver peers self.old.unfinished → IsOver peers self.new.unfinished }
        ensures router { (u : ℕ) → AreOf u self.old → AreOf u self.new }
    {
        let Some(mut part) = self.unfinished.take() else {
            return;
        };
        if part.number == number && waits_for_marker(&part.channels, peer) {
            close_channel(&mut part.channels, peer);
            self.go_on(part);
        } else {
            self.unfinished = Some(part);
        }
    }

    /// Takes note that the session with a peer left Established, in this incarnation: an unfinished recording is lost.
    /// It takes no memory.
    pub fn on_close(&mut self, peer: Asn, epoch: u32)
        ensures closed { snapshots_of self.new ≡ closed (Some (peer, epoch)) (snapshots_of self.old) }
        ensures none { self.new.unfinished ≡ None }
        ensures router { (u : ℕ) → AreOf u self.old → AreOf u self.new }
    {
        if let Some(part) = self.unfinished.take() {
            self.queue(Offer::Lost(Lost {
                router: part.router,
                number: part.number,
                peer,
                epoch,
                cause: Cause::Closed,
            }));
        }
    }

    /// A copy of an UPDATE for the channel of a peer, and room for it there, if that is being recorded; else `None`.
    /// Nothing is recorded yet. Refused only for want of memory.
    pub fn copy_update(
        &mut self,
        alloc: Global,
        peer: Asn,
        update: &Update,
    ) -> Result<Option<Update>, AllocError>
        ensures copy { IfOk result (λ copy. copy ≡ copy_for self.new.unfinished peer update.now) }
        ensures room { OnOk result (HasRoom self.new.unfinished peer) }
        ensures state { snapshots_of self.new ≡ snapshots_of self.old }
        ensures over { (peers : List ℕ) → IsOver peers self.old.unfinished → IsOver peers self.new.unfinished }
        ensures router { (u : ℕ) → AreOf u self.old → AreOf u self.new }
    {
        let Some(mut part) = self.unfinished.take() else {
            return Ok(None);
        };
        let copy = copy_update(alloc, &mut part.channels, peer, update);
        self.unfinished = Some(part);
        Ok(copy?)
    }

    /// Takes note that an UPDATE of a peer is acted on: its copy, if there is one, joins the channel. It takes no
    /// memory.
    pub fn on_update(&mut self, peer: Asn, copy: Option<Update>)
        requires link { IsLink self.old.unfinished peer }
        requires copy { IfSome copy (λ _. is_heard self.old.unfinished peer ≡ true) }
        requires room { IfSome copy (λ _. HasRoom self.old.unfinished peer) }
        ensures none { copy ≡ None → self.new ≡ self.old }
        ensures acted_on { (u : update.Update) → copy ≡ copy_for self.old.unfinished peer u
            → snapshots_of self.new ≡ acted_on peer (UpdateMsg u) (snapshots_of self.old) }
        ensures over { (peers : List ℕ) → IsOver peers self.old.unfinished → IsOver peers self.new.unfinished }
        ensures router { (u : ℕ) → AreOf u self.old → AreOf u self.new }
    {
        let Some(update) = copy else {
            return;
        };
        let Some(mut part) = self.unfinished.take() else {
            return;
        };
        push_update(&mut part.channels, peer, update);
        self.unfinished = Some(part);
    }
}
