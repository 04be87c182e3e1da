//! Steps of a world.

use crate::asking::{Callee, both_are_alike};
use crate::readings::{push, push_router};
use prefix_lanes::Prefix;
use ranked_policy::Network;
use router_model::{Command, Stepped};
use std::alloc::{AllocError, Global};
use world_core::{Event, StepFault, World};

// How many turns each of the two routers has behind the commands.
const TURNS: u8 = 14;

// A turn of a router.
fn push_turn(events: &mut Vec<Event>, number: u32, peer: u32) -> Result<(), AllocError> {
    events.extend_from_slice(&[
        Event::Put(number, peer),
        Event::Take(number, peer),
        Event::Handle(number, peer),
        Event::Decide(number),
        Event::Advertise(number),
        Event::Offer(number),
    ])
}

// A session comes up, a prefix is originated, and a snapshot is taken on the way.
fn events(alloc: Global) -> Result<Vec<Event>, AllocError> {
    let Some(prefix) = Prefix::new(0x0a01_0000, 16) else {
        return Err(AllocError);
    };
    let mut events = vec![in alloc;
        Event::Command(1, Command::Start(2)),
        Event::Command(2, Command::Start(1)),
        Event::Command(1, Command::Originate(prefix)),
    ]?;
    for turn in 0..TURNS {
        if turn == 8 {
            events.push(Event::Command(1, Command::Snapshot(1)))?;
        }
        push_turn(&mut events, 1, 2)?;
        push_turn(&mut events, 2, 1)?;
    }
    events.push(Event::Tick(1))?;
    Ok(events)
}

fn new_world(alloc: Global, network: &Network) -> Result<World<'_>, AllocError> {
    World::new(alloc, network).map_err(|_| AllocError)
}

impl Callee for World<'_> {
    type Call = Event;

    type Answer = Result<Stepped, StepFault>;

    // They say too much to be compared behind each step.
    const EACH: bool = false;

    fn answer(&mut self, event: &Event) -> Result<Stepped, StepFault> {
        self.step(event)
    }

    fn is_refused(answer: &Result<Stepped, StepFault>) -> bool {
        *answer == Err(StepFault::Memory)
    }

    fn said(&mut self, alloc: Global, network: &Network) -> Result<String, AllocError> {
        let mut text = String::new(alloc);
        for router in network.routers() {
            if let Some(router) = self.router(router.asn) {
                push_router(alloc, &mut text, network, router)?;
            }
        }
        let decided = self.collector().decided();
        let outcome = self.collector().outcome(1);
        push(
            &mut text,
            format!(in alloc; " decided {decided:?} {outcome:?}"),
        )?;
        Ok(text)
    }

    fn did_the_same(&self, other: &Self) -> bool {
        self.run() == other.run()
    }
}

/// Whether the steps are alike, asked of two worlds.
pub fn are_alike(alloc: Global, network: &Network) -> Result<bool, AllocError> {
    let events = events(alloc)?;
    let (one, other) = (new_world(alloc, network), new_world(alloc, network));
    both_are_alike(alloc, network, one, other, events.as_slice())
}
