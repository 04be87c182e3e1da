//! Places that are searched together.

ghost use Rattle.std.specs.Prelude.{◌≡◌, ◌≢◌, ◌↔◌, ◌<◌, ◌≤◌, ℕ, List, IfOk, IfErr, IfSome, OnOk, IsTrue, length, slice_index};
ghost use Rattle.std.specs.List.{All, AllPairs, Any, Contains};
ghost use Rattle.stable_search.specs.Following.{AreLevels};
ghost use Rattle.stable_search.specs.Groups.{IsGroup, AreGroups, HaveGroups, TellsOf, RefusesSearch, RefusesPlaces, FindsGroups};
ghost use Rattle.stable_search.specs.Groups.{IsLed};
ghost use Rattle.stable_search.specs.Led.{IsOpen, HaveLed, FindsLed};
ghost use Rattle.stable_search.specs.Parting.{IsPartGroup};
ghost use Rattle.stable_search.specs.Picks.{AllSome, AreWithin, AreAll, Narrows};
ghost use Rattle.stable_search.specs.declared.way.Way.{Way};

use crate::following::{levels_of, no_levels};
use crate::keeping::keep_seen;
use crate::limits::SearchLimits;
use crate::narrowing::narrow_some;
use crate::parting::{keep_values_at, labels_of, places_with, sets_with, ways_with};
use crate::refusal::SearchError;
use crate::sampling::keep_possible;
use crate::searching::search;
use crate::seat::{Seat, routers_at};
use crate::stop::Stop;
use crate::way::Way;
use ranked_policy::NetItems;
use std::alloc::Global;

/// Places, and the picks of values for them.
#[derive(Debug, Drop)]
pub(crate) struct Group {
    /// The places.
    pub(crate) places: NetItems<usize>,
    /// The picks: each has a value for every place, in the order of the places.
    pub(crate) picks: NetItems<NetItems<u8>>,
}

/// The refusal of a search that stopped, with the routers at the places that were searched.
pub(crate) fn refusal(alloc: Global, seats: &[Seat], places: &[usize], stop: Stop) -> SearchError
    requires { All (λ place. place < length seats.now) places.now }
    ensures { TellsOf seats.now places.now stop result }
{
    let Ok(routers) = routers_at(alloc, seats, places) else {
        return SearchError::Memory;
    };
    match stop {
        Stop::TooManyChoices => SearchError::TooManyChoices { routers },
        Stop::TooManySteps => SearchError::TooManySteps { routers },
        Stop::Memory => SearchError::Memory,
    }
}

// All picks out of the sets of these places that solve, each once.
fn searched(
    alloc: Global,
    seats: &[Seat],
    places: &[usize],
    ways: &[Way],
    sets: Vec<u64>,
    limits: &SearchLimits,
) -> Result<Vec<NetItems<u8>>, SearchError>
    requires within { AreWithin (length sets.items) ways.now }
    requires places { All (λ place. place < length seats.now) places.now }
    ensures all { IfOk result (λ found. AreAll ways.now sets.items found.items) }
    ensures most { IfOk result (λ found. length found.items ≤ limits.now.most) }
    ensures refused { IfErr result (RefusesSearch seats.now places.now ways.now sets.items limits.now.most) }
{
    let mut steps = limits.steps;
    let mut found = Vec::new(alloc);
    match search(
        alloc,
        ways,
        sets,
        u64::MAX,
        limits.most,
        &mut steps,
        &mut found,
    ) {
        Ok(()) => Ok(found),
        Err(stop) => Err(refusal(alloc, seats, places, stop)),
    }
}

// The group of the places with a label, with all picks for them.
fn group_of(
    alloc: Global,
    seats: &[Seat],
    ways: &[Way],
    sets: &[u64],
    labels: &[usize],
    label: usize,
    places: Vec<usize>,
    limits: &SearchLimits,
) -> Result<Group, SearchError>
    requires seats { length seats.now ≡ length sets.now }
    requires size { length labels.now ≡ length sets.now }
    requires within { AreWithin (length labels.now) ways.now }
    requires places { (place : ℕ) → (Contains places.items place ↔ (place < length labels.now)
        × (slice_index labels.now place ≡ label)) }
    requires rising { AllPairs (λ place later. place < later) places.items }
    requires some { 0 < length places.items }
    ensures group { IfOk result (IsPartGroup sets.now labels.now label ways.now) }
    ensures most { IfOk result (λ group. length group.picks ≤ limits.now.most) }
    ensures refused { IfErr result (RefusesPlaces seats.now ways.now sets.now limits.now.most) }
{
    let part_ways = ways_with(alloc, ways, labels, label)?;
    let part_sets = sets_with(alloc, sets, labels, label)?;
    let mut picks = searched(
        alloc,
        seats,
        places.as_slice(),
        part_ways.as_slice(),
        part_sets,
        limits,
    )?;
    keep_values_at(alloc, picks.as_mut_slice(), places.as_slice())?;
    Ok(Group {
        places: NetItems::from_vec(places),
        picks: NetItems::from_vec(picks),
    })
}

// The groups of places that bear on each other, with their picks.
fn groups_of(
    alloc: Global,
    seats: &[Seat],
    ways: &[Way],
    sets: &[u64],
    limits: &SearchLimits,
) -> Result<Vec<Group>, SearchError>
    requires seats { length seats.now ≡ length sets.now }
    requires within { AreWithin (length sets.now) ways.now }
    ensures { FindsGroups seats.now ways.now sets.now limits.now.most result }
{
    let all_labels = labels_of(alloc, ways, sets)?;
    let labels = all_labels.as_slice();
    let mut groups = Vec::new(alloc);
    for label in 0..sets.len() {
        let places = places_with(alloc, labels, label)?;
        if !places.as_slice().is_empty() {
            let group = group_of(alloc, seats, ways, sets, labels, label, places, limits)?;
            groups.push(group)?;
        }
    }
    Ok(groups)
}

// Removes from the sets of each group's places the values that none of the group's picks has, and answers whether there
// were any. A set of which none is left stays.
fn keep_picked(groups: &[Group], sets: &mut [u64]) -> bool
    requires { All (IsGroup sets.old) groups.now }
    ensures narrows { (ways : List Way) → AreGroups ways sets.old groups.now → Narrows ways sets.old sets.new }
    ensures some { AllSome sets.old → AllSome sets.new }
{
    let mut some = false;
    for group in groups {
        some |= keep_seen(group.places.as_slice(), group.picks.as_slice(), sets);
    }
    some
}

// Whether each group has a pick.
fn have_picks(groups: &[Group]) -> bool
    ensures { IsTrue result ↔ All (λ group. 0 < length group.picks) groups.now }
{
    for group in groups {
        if group.picks.is_empty() {
            return false;
        }
    }
    true
}

// Whether each group has exactly one pick.
fn have_one_pick(groups: &[Group]) -> bool
    ensures { IsTrue result ↔ All (λ group. length group.picks ≡ 1) groups.now }
{
    for group in groups {
        if group.picks.len() != 1 {
            return false;
        }
    }
    true
}

// Whether each group has a pick, and not each just one. Then some group of the places that follow none has several too.
fn have_several(groups: &[Group]) -> bool
    ensures { IsTrue result ↔ All (λ group. 0 < length group.picks) groups.now
        × (All (λ group. length group.picks ≡ 1) groups.now → ⊥) }
{
    have_picks(groups) && !have_one_pick(groups)
}

// The groups of places that bear on each other, if no value can be removed that none of their picks has. Else the sets are
// without such values. Where a group has too many picks for a list, only so many of them are found that this is known.
// Groups that have several picks are let go, since those of the places that follow none are the answer.
fn first_groups(
    alloc: Global,
    seats: &[Seat],
    ways: &[Way],
    sets: &mut [u64],
    limits: &SearchLimits,
) -> Result<Option<Vec<Group>>, SearchError>
    requires seats { length seats.now ≡ length sets.old }
    requires within { AreWithin (length sets.old) ways.now }
    ensures narrows { OnOk result (Narrows ways.now sets.old sets.new) }
    ensures some { OnOk result (AllSome sets.old → AllSome sets.new) }
    ensures found { IfOk result (λ found. IfSome found (λ groups.
        HaveGroups ways.now sets.old limits.now.most groups.items)) }
    ensures refused { IfErr result (RefusesPlaces seats.now ways.now sets.old limits.now.most) }
{
    match groups_of(alloc, seats, ways, sets, limits) {
        Ok(groups) => {
            if keep_picked(groups.as_slice(), sets) || have_several(groups.as_slice()) {
                Ok(None)
            } else {
                Ok(Some(groups))
            }
        }
        Err(SearchError::TooManyChoices { routers: _ }) => {
            keep_possible(alloc, seats, ways, sets, limits)?;
            Ok(None)
        }
        Err(why) => Err(why),
    }
}

/// Places in groups.
#[derive(Debug, Drop)]
pub(crate) struct Grouping {
    /// The groups.
    pub(crate) groups: Vec<Group>,
    /// The level of each place: 0 if it follows none.
    pub(crate) levels: Vec<usize>,
}

/// Whether a group is a place that follows others and has two values or more.
pub(crate) fn is_led(group: &Group, levels: &[usize]) -> bool
    requires some { 0 < length group.now.places }
    requires inside { All (λ place. place < length levels.now) group.now.places }
    ensures { IsTrue result ↔ IsLed levels.now group.now }
{
    group.picks.len() > 1 && levels[group.places.as_slice()[0]] > 0
}

// Whether some group that follows none has no pick, or several.
fn has_open(groups: &[Group], levels: &[usize]) -> bool
    requires some { All (λ group. 0 < length group.places) groups.now }
    requires inside { All (λ group. All (λ place. place < length levels.now) group.places) groups.now }
    ensures { IsTrue result → Any (IsOpen levels.now) groups.now }
{
    for group in groups {
        if group.picks.len() != 1 && !is_led(group, levels) {
            return true;
        }
    }
    false
}

// The groups of the places that follow none, and each place that follows by itself. `None` if each of the first has one
// pick, or if one has too many.
fn led_groups(
    alloc: Global,
    seats: &[Seat],
    ways: &[Way],
    sets: &[u64],
    levels: &[usize],
    limits: &SearchLimits,
) -> Result<Option<Vec<Group>>, SearchError>
    requires seats { length seats.now ≡ length sets.now }
    requires within { AreWithin (length sets.now) ways.now }
    requires levels { length levels.now ≡ length sets.now }
    ensures found { IfOk result (λ found. IfSome found (λ groups. (ends : List Way) (old wide : List ℕ)
        → Narrows ways.now old wide → Narrows ways.now wide sets.now → AreLevels ends wide levels.now
        → HaveLed ways.now ends old sets.now levels.now limits.now.most groups.items)) }
    ensures refused { IfErr result (RefusesPlaces seats.now ways.now sets.now limits.now.most) }
{
    let core = ways_with(alloc, ways, levels, 0)?;
    match groups_of(alloc, seats, core.as_slice(), sets, limits) {
        Ok(groups) => {
            if has_open(groups.as_slice(), levels) {
                Ok(Some(groups))
            } else {
                Ok(None)
            }
        }
        Err(SearchError::TooManyChoices { routers: _ }) => Ok(None),
        Err(SearchError::TooManySteps { routers }) => Err(SearchError::TooManySteps { routers }),
        Err(SearchError::TooManyPaths { router }) => Err(SearchError::TooManyPaths { router }),
        Err(SearchError::Memory) => Err(SearchError::Memory),
    }
}

/// The groups of places that bear on each other once the sets are narrowed, with their picks. A place that has one
/// value in all picks of its group is a group by itself, and so is one that follows others, unless all others have one
/// pick.
pub(crate) fn groups(
    alloc: Global,
    seats: &[Seat],
    ways: &[Way],
    ends: &[Way],
    sets: &mut [u64],
    limits: &SearchLimits,
) -> Result<Grouping, SearchError>
    requires seats { length seats.now ≡ length sets.old }
    requires within { AreWithin (length sets.old) ways.now }
    requires ends { AreWithin (length sets.old) ends.now }
    ensures { FindsLed seats.now ways.now ends.now sets.old limits.now.most result }
{
    narrow_some(alloc, ways, sets)?;
    let levels = levels_of(alloc, ends, sets)?;
    let first = first_groups(alloc, seats, ways, sets, limits)?;
    if let Some(groups) = led_groups(alloc, seats, ways, sets, levels.as_slice(), limits)? {
        return Ok(Grouping { groups, levels });
    }
    let levels = no_levels(alloc, sets.len())?;
    match first {
        Some(groups) => Ok(Grouping { groups, levels }),
        None => {
            let groups = groups_of(alloc, seats, ways, sets, limits)?;
            Ok(Grouping { groups, levels })
        }
    }
}
