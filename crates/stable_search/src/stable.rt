//! The search for all stable assignments.

ghost use Rattle.std.specs.Prelude.{◌≡◌, ◌↔◌, ◌<◌, ◌≤◌, ℕ, List, IfOk, IfErr, length, map};
ghost use Rattle.std.specs.List.{All};
ghost use Rattle.ranked_policy.specs.Plans.{numbers};
ghost use Rattle.stable_search.specs.Every.{IsEveryStable};
ghost use Rattle.stable_search.specs.Groups.{IsPartOf, ArePartsOf, IsGroup, AreValues, AreValuesAt};
ghost use Rattle.stable_search.specs.Picks.{Has};
ghost use Rattle.stable_search.specs.Refusals.{AreFew, IsPathsRefusal, IsRefusal};
ghost use Rattle.stable_search.specs.Seats.{IsSeat};

use crate::chooser::choosers;
use crate::distance::distances;
use crate::every::{Component, Every};
use crate::fixing::fixed_paths;
use crate::group::{Group, groups, is_led};
use crate::laws::stable_is_fitting;
use crate::limits::SearchLimits;
use crate::listing::list_open;
use crate::reach::reaches;
use crate::refusal::SearchError;
use crate::relating::{ends_between, ways_between};
use crate::seat::{Seat, routers_at, seats};
use ranked_policy::{NetItems, Path};
use stable_paths::Instance;
use std::alloc::{AllocError, Global};

// A copy of paths.
fn copied(alloc: Global, paths: &[Path]) -> Result<NetItems<Path>, AllocError>
    ensures { IfOk result (λ copy. copy ≡ paths.now) }
{
    let mut copy = Vec::with_capacity(alloc, paths.len())?;
    for path in paths {
        copy.push(Path::from_slice(alloc, path.as_slice())?)?;
    }
    Ok(NetItems::from_vec(copy))
}

// The paths that the routers at these places may have.
fn values_at(
    alloc: Global,
    seats: &[Seat],
    places: &[usize],
) -> Result<NetItems<NetItems<Path>>, AllocError>
    requires { All (λ place. place < length seats.now) places.now }
    ensures { IfOk result (AreValuesAt seats.now places.now) }
{
    let mut values = Vec::with_capacity(alloc, places.len())?;
    for place in places {
        values.push(copied(alloc, seats[*place].values.as_slice())?)?;
    }
    Ok(NetItems::from_vec(values))
}

// The set of the first `count` values.
fn first_values(count: usize) -> u64
    requires { count ≤ 64 }
    ensures { (value : ℕ) → (Has result value ↔ value < count) }
{
    let mut values = 0;
    for value in 0..count {
        values |= 1 << value;
    }
    values
}

// All values of each seat.
fn all_values(alloc: Global, seats: &[Seat]) -> Result<Vec<u64>, AllocError>
    requires { All (λ seat. length seat.values.items < 64) seats.now }
    ensures { IfOk result (λ sets. AreValues seats.now sets.items) }
{
    let mut sets = Vec::with_capacity(alloc, seats.len())?;
    for seat in seats {
        sets.push(first_values(seat.values.len()))?;
    }
    Ok(sets)
}

// The part of a group, with its picks.
fn part_of(
    alloc: Global,
    seats: &[Seat],
    levels: &[usize],
    group: Group,
) -> Result<Component, AllocError>
    requires size { length levels.now ≡ length seats.now }
    requires group { (sets : List ℕ) × AreValues seats.now sets × IsGroup sets group }
    ensures { IfOk result (IsPartOf seats.now levels.now group) }
{
    let follows = is_led(&group, levels);
    let places = group.places.as_slice();
    let routers = routers_at(alloc, seats, places)?;
    let values = values_at(alloc, seats, places)?;
    Ok(Component {
        routers,
        values,
        picks: group.picks,
        follows,
    })
}

// The parts of groups, in their order.
fn parts_of(
    alloc: Global,
    seats: &[Seat],
    levels: &[usize],
    groups: Vec<Group>,
) -> Result<NetItems<Component>, AllocError>
    requires size { length levels.now ≡ length seats.now }
    requires groups { (sets : List ℕ) × AreValues seats.now sets × All (IsGroup sets) groups.items }
    ensures { IfOk result (ArePartsOf seats.now levels.now groups.items) }
{
    let mut parts = Vec::with_capacity(alloc, groups.len())?;
    for group in groups {
        parts.push(part_of(alloc, seats, levels, group)?)?;
    }
    Ok(NetItems::from_vec(parts))
}

// The routers with the paths that they may have. A router that is seen to have only one path has that alone.
fn all_seats<'a>(alloc: Global, instance: &Instance<'a>) -> Result<Vec<Seat<'a>>, SearchError>
    ensures routers { IfOk result (λ seats. map (λ seat. seat.router) seats.items ≡ numbers instance.now.net.routers) }
    ensures seats { IfOk result (λ seats. All (IsSeat instance.now) seats.items) }
    ensures refused { IfErr result (IsPathsRefusal instance.now) }
{
    let all_choosers = choosers(alloc, instance)?;
    let choosers = all_choosers.as_slice();
    let distances = distances(alloc, instance, choosers)?;
    let fixed = fixed_paths(alloc, instance, choosers, distances.as_slice())?;
    let bounds = reaches(alloc, instance, choosers, fixed.as_slice())?;
    let mut seats = seats(alloc, instance, choosers, fixed.as_slice())?;
    list_open(alloc, instance, bounds.as_slice(), &mut seats)?;
    Ok(seats)
}

/// All stable assignments of an instance: each has one of the choices of each part, and to any combination of choices of
/// the parts that don't follow belongs exactly one.
///
/// It answers all of them or refuses. Refused with [`SearchError::TooManyPaths`] and a router that has no rule for the
/// prefix, if 64 paths or more are found that it may have, the empty one among them; the router is the first so found,
/// by the length of the paths and then by number. Refused with [`SearchError::TooManyChoices`] if routers that bear on
/// each other have together more choices than the limit; a choice is a list of paths that fit. Refused with
/// [`SearchError::TooManySteps`] if the search of such routers would take more steps than the limit. Refused with
/// [`SearchError::Memory`] if a growth is refused. What the call was lent is as it was.
pub fn stable_assignments(
    alloc: Global,
    instance: &Instance,
    limits: &SearchLimits,
) -> Result<Every, SearchError>
    // All stable assignments, and no other.
    ensures every { IfOk result (IsEveryStable instance.now) }
    // No part has more choices than were asked for.
    ensures most { IfOk result (λ every. AreFew limits.now.most every.parts) }
    // What a refusal says of its routers is true.
    ensures refused { IfErr result (IsRefusal instance.now limits.now) }
{
    stable_is_fitting();
    let network = instance.network();
    let seats = all_seats(alloc, instance)?;
    let ways = ways_between(alloc, network, seats.as_slice())?;
    let ends = ends_between(alloc, network, seats.as_slice())?;
    let mut sets = all_values(alloc, seats.as_slice())?;
    let grouping = groups(
        alloc,
        seats.as_slice(),
        ways.as_slice(),
        ends.as_slice(),
        sets.as_mut_slice(),
        limits,
    )?;
    let levels = grouping.levels;
    let parts = parts_of(alloc, seats.as_slice(), levels.as_slice(), grouping.groups)?;
    Ok(Every { parts })
}
