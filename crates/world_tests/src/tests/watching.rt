//! Worlds that are watched.

use super::playing::{starts, ten_one};
use super::two_routers;
use std::alloc::{AllocError, Global};
use std::process::Abort;
use std::test::Fail;
use world_core::*;

// A watcher that keeps what it is shown: the events that were done, at most so many, and of each round its number and
// how many events it did.
#[derive(Drop)]
struct Log {
    done: Vec<Event>,
    most: usize,
    rounds: Vec<(u32, usize)>,
}

impl Watch for Log {
    ghost use Rattle.std.specs.Prelude.{◌≡◌, [], true};

    ghost said = { λ _. [] };

    ghost saw = { λ _ _ _. Unit {0} };

    ghost says = { λ _ _ _ text. text ≡ [] };

    ghost says_of_round = { λ _ _. [] };

    ghost may_want = { true };

    fn before_event(&mut self, _world: &World<'_>, _event: &Event) -> Result<(), AllocError> {
        Ok(())
    }

    fn behind_event(&mut self, world: &World<'_>, event: &Event) -> Result<(), AllocError> {
        if self.done.len() >= self.most || world.run().last() != Some(event) {
            return Err(AllocError);
        }
        self.done.push(*event)?;
        Ok(())
    }

    fn behind_round(&mut self, number: u32, count: usize) -> Result<(), AllocError> {
        self.rounds.push((number, count))?;
        Ok(())
    }
}

fn new_log(alloc: Global, most: usize) -> Log {
    Log {
        done: Vec::new(alloc),
        most,
        rounds: Vec::new(alloc),
    }
}

// What an order of forty rounds answers. It ensures nothing, so that the answer is not carried along.
fn rounds(world: &mut World<'_>, log: &mut Log) -> Result<Option<u32>, StepFault> {
    world.obey_watched(&Order::Rounds(40), log)
}

// Whether the rounds are numbered from 1, and did so many events together.
fn are_numbered(rounds: &[(u32, usize)], events: usize) -> bool {
    let mut left = events;
    let mut next = 1u32;
    for (number, count) in rounds {
        if *number != next || *count == 0 || *count > left {
            return false;
        }
        left -= *count;
        next = next.wrapping_add(1);
    }
    left == 0
}

// Whether a run has three events, and then these.
fn ends_in(run: &[Event], done: &[Event]) -> bool {
    match run {
        [_, _, _, rest @ ..] => rest == done,
        _ => false,
    }
}

#[test]
fn a_watcher_sees_each_event_that_was_done(rt: HostRuntime) -> Result<(), Fail> {
    let prefix = ten_one()?;
    let net = two_routers(rt.alloc(), prefix)?;
    let mut world = World::new(rt.alloc(), &net)?;
    let mut log = new_log(rt.alloc(), 100);
    assert!(rt; starts(&mut world, prefix));
    let rest = rounds(&mut world, &mut log)?;
    assert!(rt; ends_in(world.run(), log.done.as_slice()));
    assert!(rt; log.done.len() == 26);
    assert!(rt; rest == u32::try_from(log.rounds.len()).ok());
    assert!(rt; are_numbered(log.rounds.as_slice(), 26));
    Ok(())
}

#[test]
fn a_watcher_without_memory_ends_the_order(rt: HostRuntime) -> Result<(), Fail> {
    let prefix = ten_one()?;
    let net = two_routers(rt.alloc(), prefix)?;
    let mut world = World::new(rt.alloc(), &net)?;
    let mut log = new_log(rt.alloc(), 5);
    assert!(rt; starts(&mut world, prefix));
    assert!(rt; rounds(&mut world, &mut log) == Err(StepFault::Memory));
    assert!(rt; log.done.len() == 5);
    assert!(rt; world.run().len() == 9);
    Ok(())
}
