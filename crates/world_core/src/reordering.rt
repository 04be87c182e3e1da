//! Which events come first in the run through a cut.

ghost use Rattle.std.specs.Prelude.{◌≡◌, ◌<◌, ℕ, [], length, IfOk};
ghost use Rattle.world_core.specs.Counting.{count_of, TellsFirst};
ghost use Rattle.world_core.specs.Picking.{taken_inside, firsts, laters};
ghost use Rattle.world_core.specs.Through.{count_true, picked_by};

use crate::counts::Counts;
use crate::schedule::Event;
use crate::through::Through;
use std::alloc::{AllocError, Global};

/// How many of the flags are set.
pub(crate) fn count_true(inside: &[bool]) -> usize
    ensures { result ≡ count_true inside.now }
{
    let mut count = 0;
    for &is_inside in inside {
        if is_inside {
            count += 1;
        }
    }
    count
}

// How many items each router took from each peer, by events inside.
fn taken_inside(alloc: Global, run: &[Event], inside: &[bool]) -> Result<Counts, AllocError>
    requires { length inside.now ≡ length run.now }
    ensures { IfOk result (λ counts. (u v : ℕ) → count_of counts u v ≡ taken_inside u v inside.now run.now) }
{
    let mut counts = Counts::new(alloc);
    for (at, event) in run.iter().enumerate() {
        if let Event::Take(number, peer) = *event {
            if inside[at] {
                counts.add(peer, number)?;
            }
        }
    }
    Ok(counts)
}

// Whether an event comes first: it is inside, or puts one of the items that were taken inside. Its put is counted.
fn goes_first(
    needed: &Counts,
    put: &mut Counts,
    is_inside: bool,
    event: &Event,
) -> Result<bool, AllocError>
    requires { (u v : ℕ) → count_of put.old u v < usize.MAX }
    ensures { TellsFirst result needed.now put.old is_inside event.now put.new }
{
    let Event::Put(from, to) = *event else {
        return Ok(is_inside);
    };
    let is_needed = put.at(from, to) < needed.at(from, to);
    put.add(from, to)?;
    Ok(is_inside || is_needed)
}

// The events that come first, and the others, each in the order of the run.
fn parts(
    alloc: Global,
    needed: &Counts,
    run: &[Event],
    inside: &[bool],
) -> Result<(Vec<Event>, Vec<Event>), AllocError>
    requires { length inside.now ≡ length run.now }
    ensures first { IfOk result (λ parts. parts.0.items ≡ firsts (count_of needed.now) [] inside.now run.now) }
    ensures later { IfOk result (λ parts. parts.1.items ≡ laters (count_of needed.now) [] inside.now run.now) }
{
    let mut put = Counts::new(alloc);
    let mut first = Vec::with_capacity(alloc, run.len())?;
    let mut later = Vec::with_capacity(alloc, run.len())?;
    for (at, event) in run.iter().enumerate() {
        if goes_first(needed, &mut put, inside[at], event)? {
            first.push(*event)?;
        } else {
            later.push(*event)?;
        }
    }
    Ok((first, later))
}

/// The run through a cut, by which of its events are inside.
pub(crate) fn reordered(
    alloc: Global,
    run: &[Event],
    inside: &[bool],
) -> Result<Through, AllocError>
    requires { length inside.now ≡ length run.now }
    ensures { IfOk result (λ through. through ≡ picked_by inside.now run.now) }
{
    let needed = taken_inside(alloc, run, inside)?;
    let (mut events, later) = parts(alloc, &needed, run, inside)?;
    let place = events.len();
    events.extend_from_slice(later.as_slice())?;
    Ok(Through {
        events,
        recorded: count_true(inside),
        place,
    })
}
