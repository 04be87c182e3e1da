//! The calls of one router.

use crate::asking::{Callee, both_are_alike};
use crate::readings::{push, push_router};
use prefix_lanes::Prefix;
use ranked_policy::Network;
use router_core::{Call, Router};
use router_model::{Command, RouterError, Stepped};
use std::alloc::{AllocError, Global};

// What router 1 is asked, one behind the other.
fn calls(alloc: Global) -> Result<Vec<Call>, AllocError> {
    let Some(prefix) = Prefix::new(0x0a01_0000, 16) else {
        return Err(AllocError);
    };
    Ok(vec![in alloc;
        Call::Obey(Command::Start(2)),
        Call::Obey(Command::Originate(prefix)),
        Call::Decide,
        Call::Tick,
        Call::Obey(Command::Snapshot(1)),
        Call::Handle(2),
        Call::Advertise,
        Call::Obey(Command::Reset(2)),
        Call::Obey(Command::Withdraw(prefix)),
        Call::Obey(Command::Stop(2)),
        Call::Obey(Command::Restart),
    ]?)
}

fn new_router(alloc: Global, network: &Network) -> Result<Router<'_>, AllocError> {
    if !network.has_router(1) {
        return Err(AllocError);
    }
    Router::new(alloc, network, 1).map_err(|_| AllocError)
}

fn part(alloc: Global, router: &mut Router<'_>) -> Result<String, AllocError> {
    match router.part_state() {
        Ok(part) => format!(in alloc; "{part:?}"),
        Err(_) => Err(AllocError),
    }
}

impl Callee for Router<'_> {
    type Call = Call;

    type Answer = Result<Stepped, RouterError>;

    const EACH: bool = true;

    fn answer(&mut self, call: &Call) -> Result<Stepped, RouterError> {
        self.perform(call, Ok(()))
    }

    fn is_refused(answer: &Result<Stepped, RouterError>) -> bool {
        *answer == Err(RouterError::Memory)
    }

    fn said(&mut self, alloc: Global, network: &Network) -> Result<String, AllocError> {
        let mut text = String::new(alloc);
        push_router(alloc, &mut text, network, self)?;
        push(&mut text, part(alloc, self))?;
        Ok(text)
    }
}

/// Whether the calls are alike, asked of two routers.
pub fn are_alike(alloc: Global, network: &Network) -> Result<bool, AllocError> {
    let calls = calls(alloc)?;
    let (one, other) = (new_router(alloc, network), new_router(alloc, network));
    both_are_alike(alloc, network, one, other, calls.as_slice())
}
