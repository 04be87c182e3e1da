//! What an event will make of a side. It is worked out first: if it is refused, nothing has changed.

ghost use Rattle.std.specs.Prelude.{◌≡◌, ◌≤◌, ◌<◌, ◌+◌, [], length};
ghost use Rattle.session_fsm.specs.Table.{IsGoodEvent};
ghost use Rattle.router_model.specs.Sides.{draft_of, apply_once, apply_all_once, dials, react_once, is_joined_by, apply, react, react_to_sign, is_connecting, NoMessage};
ghost use Rattle.router_side.specs.Drafts.{draft, hand, side_draft_of};

use crate::brought::Brought;
use crate::drafted::{Say, Says};
use bgp_codec::Message;
use link_epoch::{Heard, LinkEnd};
use session_fsm::{Action, FsmEvent, Session, State};

/// A draft: the session and the link end as they are to be, and what has to be done besides. Only
/// contracts read the router's OPEN and what is at hand, since what is said is kept in short.
#[derive(Drop)]
pub struct SideDraft {
    /// The session as it is to be.
    pub session: Session,
    /// The link end as it is to be.
    pub link: LinkEnd,
    /// What is appended.
    pub says: Says,
    /// Whether the octets held are forgotten.
    pub drops: bool,
    /// Whether the UPDATE at hand is acted on.
    pub acts: bool,
    /// The incarnation in which Established is left, if it is left.
    pub left: Option<u32>,
    /// Whether a dial would pass the greatest incarnation. Such a draft must not be carried out.
    pub overflows: bool,
}

impl SideDraft {
    /// A draft in which nothing is done.
    pub fn new(session: Session, link: LinkEnd) -> SideDraft
        ensures { result ≡ side_draft_of session link }
    {
        SideDraft {
            session,
            link,
            says: Says::new(),
            drops: false,
            acts: false,
            left: None,
            overflows: false,
        }
    }

    #[tactic(auto, using(crate::proofs::Said::said_on))]
    fn dial(&mut self, own_open: &Message, given: &Brought)
        requires { length self.old.says < 40 }
        ensures after { draft own_open.now (hand given.now) self.new
            ≡ dials (draft own_open.now (hand given.now) self.old) }
        ensures grows { length self.new.says ≤ length self.old.says + 1 }
    {
        match self.link.dial() {
            Ok(dialled) => self.says.push(Say::Dial(dialled.epoch)),
            Err(_) => self.overflows = true,
        }
    }

    #[tactic(auto, using(crate::proofs::Said::said_on))]
    fn apply_once(&mut self, own_open: &Message, given: &Brought, action: Action)
        requires { length self.old.says < 40 }
        ensures after { draft own_open.now (hand given.now) self.new
            ≡ apply_once own_open.now (hand given.now) (draft own_open.now (hand given.now) self.old) action }
        ensures grows { length self.new.says ≤ length self.old.says + 1 }
    {
        let epoch = self.link.epoch();
        match action {
            Action::Dial => self.dial(own_open, given),
            Action::SendOpen => self.says.push(Say::Open(epoch)),
            Action::SendAlive => self.says.push(Say::Alive(epoch)),
            Action::SendNotice(code) => self.says.push(Say::Notice(epoch, code)),
            Action::SendGiven => self.says.push(Say::Given(epoch)),
            Action::HangUp => {
                if let Some(number) = self.link.hang_up() {
                    self.says.push(Say::Shut(number));
                }
                self.drops = true;
            }
            Action::Act => self.acts = true,
            Action::Up => {}
            Action::Down => self.left = Some(epoch),
        }
    }

    fn apply_all_once(&mut self, own_open: &Message, given: &Brought, actions: &[Action])
        requires { length self.old.says + length actions.now ≤ 40 }
        ensures after { draft own_open.now (hand given.now) self.new
            ≡ apply_all_once own_open.now (hand given.now) (draft own_open.now (hand given.now) self.old) actions.now }
        ensures grows { length self.new.says ≤ length self.old.says + length actions.now }
    {
        for action in actions {
            self.apply_once(own_open, given, *action);
        }
    }

    #[tactic(auto, unfolding(router_model::specs::Sides::react_once))]
    fn react_once(&mut self, own_open: &Message, given: &Brought, event: FsmEvent)
        requires good { IsGoodEvent event }
        requires room { length self.old.says ≤ 36 }
        ensures after { draft own_open.now (hand given.now) self.new
            ≡ react_once own_open.now (hand given.now) (draft own_open.now (hand given.now) self.old) event }
        ensures grows { length self.new.says ≤ length self.old.says + 4 }
    {
        let actions = self.session.on(event);
        self.apply_all_once(own_open, given, actions.as_slice());
    }

    fn is_joined_by(&self, action: Action) -> bool
        ensures { result ≡ is_joined_by (draft_of self.now.session self.now.link) action }
    {
        match action {
            Action::Dial => self.link.is_joinable(),
            Action::SendOpen
            | Action::SendAlive
            | Action::SendNotice(_)
            | Action::SendGiven
            | Action::HangUp
            | Action::Act
            | Action::Up
            | Action::Down => false,
        }
    }

    #[tactic(auto, unfolding(router_model::specs::Sides::apply))]
    fn apply(&mut self, own_open: &Message, given: &Brought, action: Action)
        requires { length self.old.says ≤ 35 }
        ensures after { draft own_open.now (hand given.now) self.new
            ≡ apply own_open.now (hand given.now) (draft own_open.now (hand given.now) self.old) action }
        ensures grows { length self.new.says ≤ length self.old.says + 5 }
    {
        let joins = self.is_joined_by(action);
        self.apply_once(own_open, given, action);
        if joins {
            self.react_once(own_open, given, FsmEvent::TcpCrAcked);
        }
    }

    /// An event comes to the session, and its actions are obeyed in their order.
    #[tactic(auto, unfolding(router_model::specs::Sides::react))]
    pub fn react(&mut self, own_open: &Message, given: &Brought, event: FsmEvent)
        requires good { IsGoodEvent event }
        requires room { length self.old.says ≤ 20 }
        ensures after { draft own_open.now (hand given.now) self.new
            ≡ react own_open.now (hand given.now) (draft own_open.now (hand given.now) self.old) event }
        ensures grows { length self.new.says ≤ length self.old.says + 20 }
    {
        for action in self.session.on(event).as_slice() {
            self.apply(own_open, given, *action);
        }
    }

    /// Does what a sign of the peer means to the session.
    #[tactic(auto, unfolding(router_model::specs::Sides::react_to_sign))]
    pub fn react_to_sign(&mut self, own_open: &Message, heard: Heard)
        requires { self.old.says ≡ [] }
        ensures after { draft own_open.now NoMessage self.new
            ≡ react_to_sign own_open.now (draft own_open.now NoMessage self.old) heard }
        ensures few { length self.new.says ≤ 40 }
    {
        let nothing = Brought::Nothing;
        match heard {
            Heard::Quiet => {}
            Heard::Joined => self.react(own_open, &nothing, FsmEvent::TcpCrAcked),
            Heard::Offered(_) => {
                if is_connecting(self.session.state()) {
                    self.dial(own_open, &nothing);
                    self.react(own_open, &nothing, FsmEvent::TcpConnectionConfirmed);
                }
            }
            Heard::Closed => self.react(own_open, &nothing, FsmEvent::TcpConnectionFails),
        }
    }
}

fn is_connecting(state: State) -> bool
    ensures { result ≡ is_connecting state }
{
    match state {
        State::Connect | State::Active => true,
        State::Idle | State::OpenSent | State::OpenConfirm | State::Established => false,
    }
}
