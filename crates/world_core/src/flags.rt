//! Events that are played, each with a flag: whether it is inside the cut of a snapshot.

ghost use Rattle.std.specs.Prelude.{◌≡◌, ◌<◌, length, nat_lt, IfOk, IfErr};
ghost use Rattle.ranked_policy.specs.Plans.{IsRouter};
ghost use Rattle.world_core.specs.Events.{router_of};
ghost use Rattle.world_core.specs.Flagging.{Flags, PlaysOn, PlaysWithFlags};
ghost use Rattle.world_core.specs.Views.{routers_of};

use crate::schedule::{Event, PlayFault, StepFault};
use crate::world::World;
use ranked_policy::Network;
use router_model::Stepped;
use router_model::laws::answers_are_steps;
use router_runs::each_network_has_a_setting;
use std::alloc::Global;

// Whether the router of an event has not recorded the snapshot yet.
fn is_inside(world: &World<'_>, event: &Event, number: u32) -> bool
    ensures { IsRouter world.now.net.routers (router_of event.now)
        → result ≡ nat_lt (routers_of world.now (router_of event.now)).router.snapshots.last number }
{
    match world.router(event.router()) {
        Some(router) => router.last_snapshot() < number,
        None => false,
    }
}

// Does one event. If it is a step, its flag joins the others.
fn step_with_flag(
    world: &mut World<'_>,
    inside: &mut Vec<bool>,
    event: &Event,
    number: u32,
) -> Result<(), StepFault>
    ensures flags { Flags result number world.old inside.old.items event.now world.new inside.new.items }
    ensures same { world.new.net ≡ world.old.net }
{
    answers_are_steps();
    let _ = world.network().built();
    let is_inside = is_inside(world, event, number);
    match world.step(event)? {
        Stepped::Did => match inside.push(is_inside) {
            Ok(()) => Ok(()),
            Err(_) => Err(StepFault::Memory),
        },
        Stepped::Nothing => Ok(()),
    }
}

// Plays events behind those that were played, and notes of each that was done whether it is inside. The place of a
// refused one is counted from the first of these events.
fn play_on(
    world: &mut World<'_>,
    inside: &mut Vec<bool>,
    events: &[Event],
    number: u32,
) -> Result<(), PlayFault>
    ensures plays { PlaysOn result number world.old inside.old.items events.now world.new inside.new.items }
    ensures place { IfErr result (λ fault. fault.at < length events.now) }
{
    for (at, event) in events.iter().enumerate() {
        if let Err(why) = step_with_flag(world, inside, event, number) {
            return Err(PlayFault { at, why });
        }
    }
    Ok(())
}

/// Plays events, and notes of each that was done whether it is inside the cut of a snapshot: its router had not
/// recorded the snapshot of this number before it.
pub(crate) fn play_with_flags<'a>(
    alloc: Global,
    network: &'a Network,
    events: &[Event],
    number: u32,
) -> Result<(World<'a>, Vec<bool>), PlayFault>
    ensures plays { PlaysWithFlags result network.now events.now number }
    ensures long { IfOk result (λ played. length played.1.items ≡ length played.0.run) }
{
    each_network_has_a_setting();
    let _ = network.built();
    let mut world = match World::new(alloc, network) {
        Ok(world) => world,
        Err(why) => return Err(PlayFault { at: 0, why }),
    };
    let mut inside = Vec::new(alloc);
    play_on(&mut world, &mut inside, events, number)?;
    Ok((world, inside))
}

/// Does what `play_with_flags` does, and gives the events up: the half that was played is dropped before the other is
/// played.
pub(crate) fn play_halves<'a>(
    alloc: Global,
    network: &'a Network,
    mut events: Vec<Event>,
    number: u32,
) -> Result<(World<'a>, Vec<bool>), PlayFault>
    ensures { PlaysWithFlags result network.now events.items number }
{
    let half = events.len() / 2;
    let Ok(later) = events.split_off(half) else {
        return Err(PlayFault {
            at: 0,
            why: StepFault::Memory,
        });
    };
    let mut world = match World::new(alloc, network) {
        Ok(world) => world,
        Err(why) => return Err(PlayFault { at: 0, why }),
    };
    let mut inside = Vec::new(alloc);
    play_on(&mut world, &mut inside, events.as_slice(), number)?;
    drop(events);
    match play_on(&mut world, &mut inside, later.as_slice(), number) {
        Ok(()) => Ok((world, inside)),
        Err(PlayFault { at, why }) => Err(PlayFault { at: half + at, why }),
    }
}
