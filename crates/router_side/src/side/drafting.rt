//! What each event will make of a side, drafted by value: nothing is changed.

ghost use Rattle.std.specs.Prelude.{◌≡◌, is_some};
ghost use Rattle.session_fsm.specs.Table.{IsGoodEvent};
ghost use Rattle.session_fsm.specs.Timers.{runs_out};
ghost use Rattle.router_model.specs.Sides.{draft_event, draft_reset, draft_second, draft_sign, react, draft_of, NoMessage};
ghost use Rattle.router_side.specs.Drafts.{draft, hand};
ghost use Rattle.router_side.specs.SideOf.{side};

use super::Side;
use crate::brought::Brought;
use crate::draft::SideDraft;
use bgp_codec::Message;
use link_epoch::Sign;
use session_fsm::FsmEvent;

impl Side {
    /// What an event that brings nothing will make of the side: a start, a stop.
    pub fn draft_event(&self, own_open: &Message, event: FsmEvent) -> SideDraft
        requires { IsGoodEvent event }
        ensures { draft own_open.now NoMessage result ≡ draft_event own_open.now (side self.now) event }
    {
        let mut made = SideDraft::new(self.session, self.link);
        made.react(own_open, &Brought::Nothing, event);
        made
    }

    /// What a stop and a start will make of the side.
    pub fn draft_reset(&self, own_open: &Message) -> SideDraft
        ensures { draft own_open.now NoMessage result ≡ draft_reset own_open.now (side self.now) }
    {
        let mut made = SideDraft::new(self.session, self.link);
        made.react(own_open, &Brought::Nothing, FsmEvent::ManualStop);
        made.react(own_open, &Brought::Nothing, FsmEvent::ManualStart);
        made
    }

    /// What a second will make of the side.
    pub fn draft_second(&self, own_open: &Message) -> SideDraft
        ensures { draft own_open.now NoMessage result ≡ draft_second own_open.now (side self.now) }
    {
        let mut session = self.session;
        let event = session.tick();
        let mut made = SideDraft::new(session, self.link);
        if let Some(event) = event {
            made.react(own_open, &Brought::Nothing, event);
        }
        made
    }

    /// Whether a timer of its session runs out in the next second. A second in which none does has a draft
    /// in which the timers move alone: [`Side::count_down`] is all of it.
    pub fn runs_out(&self) -> bool
        ensures { result ≡ is_some (runs_out (side self.now).session) }
    {
        let mut session = self.session;
        session.tick().is_some()
    }

    /// What a sign of the peer will make of the side.
    pub fn draft_sign(&self, own_open: &Message, sign: Sign) -> SideDraft
        ensures { draft own_open.now NoMessage result ≡ draft_sign own_open.now (side self.now) sign }
    {
        let mut link = self.link;
        let heard = link.hear(sign);
        let mut made = SideDraft::new(self.session, link);
        made.react_to_sign(own_open, heard);
        made
    }

    /// What the message or fault in front will make of the side, by the event that it brings.
    pub fn draft_message(&self, own_open: &Message, given: &Brought, event: FsmEvent) -> SideDraft
        requires { IsGoodEvent event }
        ensures { draft own_open.now (hand given.now) result
            ≡ react own_open.now (hand given.now) (draft_of (side self.now).session (side self.now).link) event }
    {
        let mut made = SideDraft::new(self.session, self.link);
        made.react(own_open, given, event);
        made
    }
}
