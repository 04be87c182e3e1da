//! Which values picks have, without all picks: a value that no pick so far has is tried until a pick has it.

ghost use Rattle.std.specs.Prelude.{◌≡◌, ◌≢◌, ◌↔◌, ◌<◌, ◌⊎◌, ℕ, List, IfOk, IfErr, OnOk, length, slice_index};
ghost use Rattle.std.specs.List.{All, AllPairs, Contains};
ghost use Rattle.stable_search.specs.Groups.{RefusesPlaces};
ghost use Rattle.stable_search.specs.Picks.{Has, AllSome, AreWithin, Solves, Narrows, MarksMore, Sees, SeesAll};
ghost use Rattle.stable_search.specs.declared.stop.Stop.TheVariants.{TooManyChoices};

use crate::group::refusal;
use crate::keeping::keep_marked;
use crate::limits::SearchLimits;
use crate::narrowing::mark_of;
use crate::parting::{labels_of, places_with, sets_with, ways_with};
use crate::refusal::SearchError;
use crate::searching::search;
use crate::seat::Seat;
use crate::stop::Stop;
use crate::way::{Way, has};
use ranked_policy::NetItems;
use std::alloc::{AllocError, Global};

// Marks the value of each place that a pick has.
fn mark_pick(pick: &[u8], seen: &mut [u64])
    ensures { MarksMore seen.old seen.new }
{
    for (place, value) in pick.iter().enumerate() {
        if place < seen.len() && *value < 64 {
            seen[place] |= 1 << *value;
        }
    }
}

// Marks a value of a place.
fn mark_value(place: usize, value: usize, seen: &mut [u64])
    requires place { place < length seen.old }
    requires value { value < 64 }
    ensures more { MarksMore seen.old seen.new }
    ensures marked { Has (slice_index seen.new place) value }
{
    seen[place] |= 1 << value;
}

// Marks the value of a place if a pick has it, and what else that pick has.
fn try_value(
    alloc: Global,
    ways: &[Way],
    sets: &[u64],
    place: usize,
    value: usize,
    steps: &mut u64,
    seen: &mut [u64],
) -> Result<(), Stop>
    requires within { AreWithin (length sets.now) ways.now }
    requires place { place < length sets.now }
    requires size { length seen.old ≡ length sets.now }
    requires value { value < 64 }
    ensures more { MarksMore seen.old seen.new }
    ensures tried { OnOk result ((pick : List ℕ) → Solves ways.now sets.now pick → slice_index pick place ≡ value
        → Has (slice_index seen.new place) value) }
    ensures stopped { IfErr result (λ stop. stop ≢ TooManyChoices) }
{
    let mut one = Vec::from_slice(alloc, sets)?;
    one[place] = 1 << value;
    let mut found: Vec<NetItems<u8>> = Vec::new(alloc);
    match search(alloc, ways, one, mark_of(place), 0, steps, &mut found) {
        Ok(()) => Ok(()),
        Err(Stop::TooManyChoices) => {
            for pick in found.as_slice() {
                mark_pick(pick.as_slice(), seen);
            }
            mark_value(place, value, seen);
            Ok(())
        }
        Err(Stop::TooManySteps) => Err(Stop::TooManySteps),
        Err(Stop::Memory) => Err(Stop::Memory),
    }
}

// Marks each value of a place that a pick has.
fn see_place(
    alloc: Global,
    ways: &[Way],
    sets: &[u64],
    place: usize,
    steps: &mut u64,
    seen: &mut [u64],
) -> Result<(), Stop>
    requires within { AreWithin (length sets.now) ways.now }
    requires place { place < length sets.now }
    requires size { length seen.old ≡ length sets.now }
    ensures more { MarksMore seen.old seen.new }
    ensures sees { OnOk result (Sees ways.now sets.now place seen.new) }
    ensures stopped { IfErr result (λ stop. stop ≢ TooManyChoices) }
{
    for value in 0..64 {
        if has(sets[place], value) && !has(seen[place], value) {
            try_value(alloc, ways, sets, place, value, steps, seen)?;
        }
    }
    Ok(())
}

// No value of any of so many places is marked.
fn none_marked(alloc: Global, count: usize) -> Result<Vec<u64>, AllocError>
    ensures { IfOk result (λ seen. length seen.items ≡ count) }
{
    let mut seen = Vec::with_capacity(alloc, count)?;
    for _place in 0..count {
        seen.push(0)?;
    }
    Ok(seen)
}

// For each of these places the values that picks have there.
fn seen_values(
    alloc: Global,
    ways: &[Way],
    sets: &[u64],
    places: &[usize],
    steps: &mut u64,
) -> Result<Vec<u64>, Stop>
    requires within { AreWithin (length sets.now) ways.now }
    requires inside { All (λ place. place < length sets.now) places.now }
    ensures size { IfOk result (λ seen. length seen.items ≡ length sets.now) }
    ensures sees { IfOk result (λ seen. SeesAll ways.now sets.now places.now seen.items) }
    ensures stopped { IfErr result (λ stop. stop ≢ TooManyChoices) }
{
    let mut seen = none_marked(alloc, sets.len())?;
    for place in places {
        see_place(alloc, ways, sets, *place, steps, seen.as_mut_slice())?;
    }
    Ok(seen)
}

// Removes from the sets of the places with a label the values that no pick for them has. A set of which none is left
// stays.
fn keep_seen_values(
    alloc: Global,
    seats: &[Seat],
    ways: &[Way],
    sets: &mut [u64],
    labels: &[usize],
    label: usize,
    places: &[usize],
    limits: &SearchLimits,
) -> Result<(), SearchError>
    requires seats { length seats.now ≡ length sets.old }
    requires size { length labels.now ≡ length sets.old }
    requires within { AreWithin (length labels.now) ways.now }
    requires places { (place : ℕ) → (Contains places.now place ↔ (place < length labels.now)
        × (slice_index labels.now place ≡ label)) }
    requires rising { AllPairs (λ place later. place < later) places.now }
    requires some { 0 < length places.now }
    ensures narrows { OnOk result (Narrows ways.now sets.old sets.new) }
    ensures some { OnOk result (AllSome sets.old → AllSome sets.new) }
    ensures refused { IfErr result (RefusesPlaces seats.now ways.now sets.old limits.now.most) }
{
    let part_ways = ways_with(alloc, ways, labels, label)?;
    let part_sets = sets_with(alloc, sets, labels, label)?;
    let mut steps = limits.steps;
    match seen_values(
        alloc,
        part_ways.as_slice(),
        part_sets.as_slice(),
        places,
        &mut steps,
    ) {
        Ok(seen) => {
            keep_marked(places, seen.as_slice(), sets);
            Ok(())
        }
        Err(stop) => Err(refusal(alloc, seats, places, stop)),
    }
}

/// Removes from the sets the values that no pick has for the places that bear on each other. A set of which none is left
/// stays.
pub(crate) fn keep_possible(
    alloc: Global,
    seats: &[Seat],
    ways: &[Way],
    sets: &mut [u64],
    limits: &SearchLimits,
) -> Result<(), SearchError>
    requires seats { length seats.now ≡ length sets.old }
    requires within { AreWithin (length sets.old) ways.now }
    ensures narrows { OnOk result (Narrows ways.now sets.old sets.new) }
    ensures some { OnOk result (AllSome sets.old → AllSome sets.new) }
    ensures refused { IfErr result (RefusesPlaces seats.now ways.now sets.old limits.now.most) }
{
    let all_labels = labels_of(alloc, ways, sets)?;
    let labels = all_labels.as_slice();
    for label in 0..labels.len() {
        let places = places_with(alloc, labels, label)?;
        if places.len() > 1 {
            keep_seen_values(
                alloc,
                seats,
                ways,
                sets,
                labels,
                label,
                places.as_slice(),
                limits,
            )?;
        }
    }
    Ok(())
}
