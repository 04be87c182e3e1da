//! Worlds that are played.

use super::two_routers;
use prefix_lanes::Prefix;
use ranked_policy::Asn;
use router_model::{Command, RouterError};
use std::alloc::{AllocError, Global};
use std::process::Abort;
use std::test::Fail;
use world_core::*;

// What a router with one peer tries in a turn.
pub(super) fn turn(events: &mut Vec<Event>, number: Asn, peer: Asn) -> Result<(), AllocError> {
    events.extend_from_slice(&[
        Event::Put(number, peer),
        Event::Take(number, peer),
        Event::Handle(number, peer),
        Event::Decide(number),
        Event::Advertise(number),
        Event::Offer(number),
    ])
}

// Both start and router 1 originates, then forty rounds.
fn schedule(alloc: Global, prefix: Prefix) -> Result<Vec<Event>, AllocError> {
    let mut events = Vec::new(alloc);
    events.extend_from_slice(&[
        Event::Command(1, Command::Start(2)),
        Event::Command(2, Command::Start(1)),
        Event::Command(1, Command::Originate(prefix)),
    ])?;
    for _ in 0..40u8 {
        turn(&mut events, 1, 2)?;
        turn(&mut events, 2, 1)?;
    }
    Ok(events)
}

// Whether a router of the world keeps this path.
fn keeps(world: &World<'_>, number: Asn, prefix: &Prefix, path: &[Asn]) -> bool {
    match world.router(number) {
        Some(router) => router.kept(prefix) == path,
        None => false,
    }
}

// What a world answers, and what it has done. These helpers ensure nothing, so that one answer is not
// carried along to the next.
fn fault_of(world: &mut World<'_>, event: &Event) -> Option<StepFault> {
    world.step(event).err()
}

fn fault_of_order(world: &mut World<'_>, order: &Order) -> Option<StepFault> {
    world.obey(order).err()
}

fn count(world: &World<'_>) -> usize {
    world.run().len()
}

pub(super) fn ten_one() -> Result<Prefix, &'static str> {
    Prefix::new(0x0a01_0000, 16).ok_or("a prefix")
}

// The routes of both routers once they arrived, 29 events after the start.
fn arrived(rt: &impl Abort, world: &World<'_>, prefix: &Prefix) {
    assert!(rt; count(world) == 29);
    assert!(rt; keeps(world, 1, prefix, &[1]));
    assert!(rt; keeps(world, 2, prefix, &[2, 1]));
}

#[test]
fn routes_arrive_after_29_events(rt: HostRuntime) -> Result<(), Fail> {
    let prefix = ten_one()?;
    let net = two_routers(rt.alloc(), prefix)?;
    let events = schedule(rt.alloc(), prefix)?;
    let Ok(world) = play(rt.alloc(), &net, events.as_slice()) else {
        return Err("the schedule is played".into());
    };
    arrived(&rt, &world, &prefix);
    Ok(())
}

#[test]
fn who_is_not_there_is_refused(rt: HostRuntime) -> Result<(), Fail> {
    let net = two_routers(rt.alloc(), ten_one()?)?;
    let mut world = World::new(rt.alloc(), &net)?;
    who_is_not_there_is_refused_in(&rt, &mut world);
    Ok(())
}

fn who_is_not_there_is_refused_in(rt: &impl Abort, world: &mut World<'_>) {
    assert!(rt; fault_of(world, &Event::Tick(3)) == Some(StepFault::NoSuchRouter));
    assert!(rt; fault_of(world, &Event::Put(1, 3)) == Some(StepFault::NoSuchRouter));
    assert!(rt; fault_of(world, &Event::Put(1, 1)) == Some(StepFault::NoSuchLink));
}

#[test]
fn an_old_snapshot_is_refused(rt: HostRuntime) -> Result<(), Fail> {
    let net = two_routers(rt.alloc(), ten_one()?)?;
    let mut world = World::new(rt.alloc(), &net)?;
    an_old_snapshot_is_refused_in(&rt, &mut world);
    Ok(())
}

const OLD: Option<StepFault> = Some(StepFault::Refused(RouterError::OldSnapshot { last: 1 }));

fn an_old_snapshot_is_refused_in(rt: &impl Abort, world: &mut World<'_>) {
    let event = Event::Command(1, Command::Snapshot(1));
    assert!(rt; fault_of(world, &event).is_none());
    assert!(rt; fault_of(world, &event) == OLD);
    assert!(rt; count(world) == 1);
}

// Whether an order of one event is obeyed.
fn does(world: &mut World<'_>, event: Event) -> bool {
    fault_of_order(world, &Order::One(event)).is_none()
}

// Both start and router 1 originates, each by its order.
pub(super) fn starts(world: &mut World<'_>, prefix: Prefix) -> bool {
    does(world, Event::Command(1, Command::Start(2)))
        && does(world, Event::Command(2, Command::Start(1)))
        && does(world, Event::Command(1, Command::Originate(prefix)))
}

#[test]
fn rounds_are_turns_of_every_router(rt: HostRuntime) -> Result<(), Fail> {
    let prefix = ten_one()?;
    let net = two_routers(rt.alloc(), prefix)?;
    let mut world = World::new(rt.alloc(), &net)?;
    assert!(rt; starts(&mut world, prefix));
    assert!(rt; fault_of_order(&mut world, &Order::Rounds(40)).is_none());
    arrived(&rt, &world, &prefix);
    Ok(())
}

#[test]
fn a_refused_order_keeps_the_steps_before(rt: HostRuntime) -> Result<(), Fail> {
    let net = two_routers(rt.alloc(), ten_one()?)?;
    let mut world = World::new(rt.alloc(), &net)?;
    a_refused_order_keeps_the_steps_before_in(&rt, &mut world);
    Ok(())
}

fn a_refused_order_keeps_the_steps_before_in(rt: &impl Abort, world: &mut World<'_>) {
    let snapshot = Order::One(Event::Command(1, Command::Snapshot(1)));
    assert!(rt; fault_of_order(world, &snapshot).is_none());
    assert!(rt; fault_of_order(world, &snapshot) == OLD);
    assert!(rt; count(world) == 1);
}

#[test]
fn ticks_pass_at_every_router(rt: HostRuntime) -> Result<(), Fail> {
    let net = two_routers(rt.alloc(), ten_one()?)?;
    let mut world = World::new(rt.alloc(), &net)?;
    assert!(rt; fault_of_order(&mut world, &Order::Ticks(2)).is_none());
    assert!(rt; count(&world) == 4);
    Ok(())
}
