//! Playing schedules.

ghost use Rattle.std.specs.Prelude.{IfOk};
ghost use Rattle.world_core.specs.Views.{KeepsPromises, Plays};

use crate::schedule::{Event, PlayFault};
use crate::world::World;
use ranked_policy::Network;
use std::alloc::Global;

/// Plays the events of a schedule one after the other, from a world in which nothing was done, and answers the world
/// that they lead to.
///
/// Refused with the place and the cause of the first event that is refused. If memory is refused at the opening,
/// refused with place 0 and [`StepFault::Memory`](crate::StepFault::Memory) too.
pub fn play<'a>(
    alloc: Global,
    network: &'a Network,
    events: &[Event],
) -> Result<World<'a>, PlayFault>
    ensures plays { Plays result network.now events.now }
    ensures promises { IfOk result KeepsPromises }
{
    let mut world = match World::new(alloc, network) {
        Ok(world) => world,
        Err(why) => return Err(PlayFault { at: 0, why }),
    };
    for (at, event) in events.iter().enumerate() {
        if let Err(why) = world.step(event) {
            return Err(PlayFault { at, why });
        }
    }
    Ok(world)
}
