//! The run of the same events that passes through the cut of a snapshot.

ghost use Rattle.std.specs.Prelude.{◌≡◌, length, IfOk};
ghost use Rattle.world_core.specs.Answering.{answer_of, count_of, CountsInside, GoesThrough, RefusesAsPlay, StopsAsPlay};
ghost use Rattle.world_core.specs.Through.{count_true, picked_by};
ghost use Rattle.world_core.specs.Verdicts.{judged, JudgesItsRuns};

use crate::flags::{play_halves, play_with_flags};
use crate::laws::{answers_are_through, tests_tell_what_is_inside};
use crate::reordering::{count_true, reordered};
use crate::schedule::{Event, PlayFault, StepFault};
use crate::world::World;
use ranked_policy::Network;
use snap_collector::Outcome;
use std::alloc::{AllocError, Global};
use std::marker::Model;

/// The run of the same events that passes through the cut of a snapshot.
#[derive(Drop)]
pub struct Through {
    /// The events, in the order of that run.
    pub events: Vec<Event>,
    /// How many of them were done up to each router's recording, itself included.
    pub recorded: usize,
    /// How many of the first lead to the cut: those, and the puts of what was taken by then.
    pub place: usize,
}

impl Model for Through {
    ghost use Rattle.world_core.specs.Through.{ThroughView};

    ghost Value = { ThroughView };

    ghost view = { λ t. record { events = t.events.items; recorded = t.recorded; place = t.place } };
}

// The run through the cut, picked from a world's run by which of its events are inside, if the snapshot is settled or
// moving.
fn picked(
    alloc: Global,
    world: &World<'_>,
    inside: &[bool],
    number: u32,
) -> Result<Option<Through>, AllocError>
    requires { length inside.now ≡ length world.now.run }
    ensures answer { IfOk result
        (λ answer. answer ≡ answer_of (judged world.now.collector number) (picked_by inside.now world.now.run)) }
    ensures judges { JudgesItsRuns world.now }
{
    match world.collector().outcome(number) {
        Outcome::Waiting | Outcome::Abandoned(_) => Ok(None),
        Outcome::Moving { .. } | Outcome::Settled => {
            Ok(Some(reordered(alloc, world.run(), inside)?))
        }
    }
}

/// The run of the same events that passes through the cut of a snapshot (Chandy and Lamport 1985), if the snapshot is
/// settled or moving at their end. First comes what each router did up to its recording, and the puts of what was taken
/// by then; then the rest; each part is in the order of the events. Between the two each router is as it recorded but
/// for those puts, and what is in flight on each link is what was recorded of it. At the end all is as at the end of
/// the given events, but for the order of the offers for other snapshots. Events that found nothing to do are left out.
/// If no outbox ever reached the limit, [`play`](crate::play) of the events ends there.
///
/// `None` if the snapshot is not decided, or is abandoned.
///
/// Refused as [`play`](crate::play) refuses the events. If memory was refused once all were played, refused with their
/// number as the place and [`StepFault::Memory`].
pub fn through_cut(
    alloc: Global,
    network: &Network,
    events: &[Event],
    number: u32,
) -> Result<Option<Through>, PlayFault>
    ensures goes { GoesThrough result network.now events.now number }
    ensures refused { StopsAsPlay result network.now events.now }
{
    answers_are_through();
    let (world, inside) = play_with_flags(alloc, network, events, number)?;
    match picked(alloc, &world, inside.as_slice(), number) {
        Ok(through) => Ok(through),
        Err(_) => Err(PlayFault {
            at: events.len(),
            why: StepFault::Memory,
        }),
    }
}

// How many events are inside, if the snapshot is settled or moving.
fn counted(world: &World<'_>, inside: &[bool], number: u32) -> Option<usize>
    ensures answer { result ≡ count_of (judged world.now.collector number) (count_true inside.now) }
    ensures judges { JudgesItsRuns world.now }
{
    match world.collector().outcome(number) {
        Outcome::Waiting | Outcome::Abandoned(_) => None,
        Outcome::Moving { .. } | Outcome::Settled => Some(count_true(inside)),
    }
}

/// How many of the events that were done are inside the cut of a snapshot, if the snapshot is settled or moving at
/// their end: those of each router up to its recording, itself included. It is the [`recorded`](Through::recorded) of
/// [`through_cut`], without the list of events. The events are given up as they are played, half of them at a time.
///
/// `None` if the snapshot is not decided, or is abandoned. Refused as [`play`](crate::play) refuses the events.
pub fn count_inside(
    alloc: Global,
    network: &Network,
    events: Vec<Event>,
    number: u32,
) -> Result<Option<usize>, PlayFault>
    ensures counts { CountsInside result network.now events.items number }
    ensures refused { RefusesAsPlay result network.now events.items }
{
    tests_tell_what_is_inside();
    let (world, inside) = play_halves(alloc, network, events, number)?;
    Ok(counted(&world, inside.as_slice(), number))
}
