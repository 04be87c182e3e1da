//! What a router keeps towards one peer.

ghost use Rattle.std.specs.Prelude.{◌≡◌, true, false, IfOk};
ghost use Rattle.bgp_framing.specs.Held.{is_waiting};
ghost use Rattle.bgp_values.specs.Ranges.{IsHoldTime};
ghost use Rattle.router_model.specs.Sides.{is_up, uses};
ghost use Rattle.router_side.specs.Histories.{history};
ghost use Rattle.router_side.specs.SideOf.{side, side_opening};

mod acting;
mod carrying;
mod drafting;
mod hearing;
mod putting;
mod telling;

use crate::history::{History, PastUpdate};
use bgp_framing::Framer;
use bgp_values::Width;
use link_epoch::{LinkEnd, Phase};
use outbox::Outbox;
use session_fsm::{Session, SessionConfig, State};
use std::alloc::{AllocError, Global};

/// One side of a router.
#[derive(Drop)]
pub struct Side {
    session: Session,
    link: LinkEnd,
    framer: Framer,
    outbox: Outbox,
    // The UPDATEs that were acted on, and those that were sent, each once.
    acted: History,
    sent: History,
    // How many octets AS numbers have in what is said here (RFC 6793).
    width: Width,
}

impl Side {
    /// A side whose session is Idle, and towards whose peer nothing was ever said. It is refused only for want of
    /// memory.
    pub fn new(alloc: Global, config: SessionConfig, width: Width) -> Result<Side, AllocError>
        requires { IsHoldTime config.hold }
        ensures { IfOk result (λ made. side made ≡ side_opening config width) }
    {
        let framer = Framer::new(alloc)?;
        Ok(Side {
            session: Session::new(config),
            link: LinkEnd::new(),
            framer,
            outbox: Outbox::new(alloc),
            acted: History::new(alloc),
            sent: History::new(alloc),
            width,
        })
    }

    /// Whether octets and markers of an incarnation are used: they are if the end joined that incarnation.
    pub fn uses(&self, epoch: u32) -> bool
        ensures { result ≡ uses (side self.now).link epoch }
    {
        match self.link.phase() {
            Phase::Joined => epoch == self.link.epoch(),
            Phase::Shut | Phase::Offered => false,
        }
    }

    /// Whether the session is Established.
    pub fn is_up(&self) -> bool
        ensures { result ≡ is_up (side self.now) }
    {
        match self.session.state() {
            State::Established => true,
            State::Idle | State::Connect | State::Active | State::OpenSent | State::OpenConfirm =>
                false,
        }
    }

    /// The state of the session.
    pub fn state(&self) -> State
        ensures { result ≡ (side self.now).session.state }
    {
        self.session.state()
    }

    /// The session, with its timers.
    pub fn session(&self) -> Session
        ensures { result ≡ (side self.now).session }
    {
        self.session
    }

    /// The incarnation of the link: the last number that this end dialled, 0 at first.
    pub fn epoch(&self) -> u32
        ensures { result ≡ (side self.now).link.epoch }
    {
        self.link.epoch()
    }

    /// Whether a whole message or a fault stands in front of the octets held.
    pub fn is_waiting(&self) -> bool
        ensures { result ≡ is_waiting (side self.now).held }
    {
        self.framer.is_waiting()
    }

    /// The UPDATEs that were acted on, in their order, each with its incarnation. It is refused only for want of
    /// memory.
    pub fn acted(&self, alloc: Global) -> Result<Vec<PastUpdate>, AllocError>
        ensures { IfOk result (λ told. history told.items ≡ (side self.now).acted) }
    {
        self.acted.updates(alloc, self.width)
    }

    /// The UPDATEs that were sent, in their order, each with its incarnation. It is refused only for want of memory.
    pub fn sent(&self, alloc: Global) -> Result<Vec<PastUpdate>, AllocError>
        ensures { IfOk result (λ told. history told.items ≡ (side self.now).sent) }
    {
        self.sent.updates(alloc, self.width)
    }
}
