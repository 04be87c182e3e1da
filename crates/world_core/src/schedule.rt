//! The events of a schedule, the orders that stand for many of them, and why one is refused.

ghost use Rattle.std.specs.Prelude.{◌≡◌, ◌<◌, ◌++◌, ◌∷◌, [], vec_len, vec_capacity};
ghost use Rattle.world_core.specs.Events.{router_of, peer_of};
ghost use Rattle.world_core.specs.declared.schedule.StepFault.TheVariants.{Memory};

use ranked_policy::Asn;
use router_model::{Command, RouterError};
use std::alloc::AllocError;
use std::slice::from_ref;
use thiserror::Error;

/// An event of a schedule: it names a router, and a peer where it needs one.
#[derive(Clone, Copy, Debug, PartialEq, Eq)]
pub enum Event {
    /// The router obeys a command.
    Command(Asn, Command),
    /// A second passes at the router.
    Tick(Asn),
    /// The first router puts the next item towards the second.
    Put(Asn, Asn),
    /// The first router takes the next item from the second.
    Take(Asn, Asn),
    /// The first router handles the message of the second that waits in front.
    Handle(Asn, Asn),
    /// The router sets one kept path that is not its route.
    Decide(Asn),
    /// The router tells one waiting peer of one prefix.
    Advertise(Asn),
    /// The router makes the offer that waits in front of its queue.
    Offer(Asn),
}

impl Event {
    /// The router that does the event.
    pub fn router(&self) -> Asn
        ensures { result ≡ router_of self.now }
    {
        match *self {
            Event::Command(number, _)
            | Event::Tick(number)
            | Event::Put(number, _)
            | Event::Take(number, _)
            | Event::Handle(number, _)
            | Event::Decide(number)
            | Event::Advertise(number)
            | Event::Offer(number) => number,
        }
    }

    /// The peer that the router puts an item towards, takes one of, or handles the message of. `None` if the event names
    /// no peer: a command has its own.
    pub fn peer(&self) -> Option<Asn>
        ensures { result ≡ peer_of self.now }
    {
        match *self {
            Event::Put(_, peer) | Event::Take(_, peer) | Event::Handle(_, peer) => Some(peer),
            Event::Command(..)
            | Event::Tick(_)
            | Event::Decide(_)
            | Event::Advertise(_)
            | Event::Offer(_) => None,
        }
    }
}

/// An order of a schedule: one event, or so many rounds or ticks of all routers.
#[derive(Clone, Copy, Debug, PartialEq, Eq)]
pub enum Order {
    /// One event.
    One(Event),
    /// So many rounds. In a round each router has a turn, rising: for each peer, rising, one Put,
    /// one Take and one Handle; then one Decide, one Advertise and one Offer.
    Rounds(u32),
    /// So many times a Tick of each router, rising.
    Ticks(u32),
}

/// Why an event was refused. The world is as it was.
#[derive(Clone, Copy, Debug, PartialEq, Eq, Error)]
pub enum StepFault {
    /// The network has no such router.
    #[error("no such router")]
    NoSuchRouter,
    /// No link joins the two routers.
    #[error("no such link")]
    NoSuchLink,
    /// The router refused it.
    #[error("{0}")]
    Refused(RouterError),
    /// A growth was refused.
    #[error("memory")]
    Memory,
}

/// Why a schedule was not played to its end.
#[derive(Clone, Copy, Debug, PartialEq, Eq)]
pub struct PlayFault {
    /// The place of the refused event, counted from 0; 0 also if memory was refused at the opening.
    pub at: usize,
    /// Why it was refused.
    pub why: StepFault,
}

/// Adds an event to a run that has room for it.
pub(crate) fn join(run: &mut Vec<Event>, event: &Event)
    requires { vec_len run.old < vec_capacity run.old }
    ensures { run.new.items ≡ run.old.items ++ event.now ∷ [] }
{
    // as a slice of one: rattle has no proof of a caller that gives a copy of an event to `push_reserved`
    run.extend_from_slice(from_ref(event)).unwrap();
}

impl From<AllocError> for StepFault {
    ghost from_gives = { λ _ fault. fault ≡ Memory };

    fn from(_error: AllocError) -> StepFault {
        StepFault::Memory
    }
}
