//! Which places bear on each other.

ghost use Rattle.std.specs.Prelude.{◌≡◌, ◌≢◌, ◌↔◌, ◌<◌, ◌==◌, ℕ, List, IsTrue};
ghost use Rattle.std.specs.Prelude.{IfOk, OnOk, length, map, slice_index, true, if◌then◌else◌};
ghost use Rattle.std.specs.List.{All, AllPairs, Contains};
ghost use Rattle.stable_search.specs.Groups.{at_places};
ghost use Rattle.stable_search.specs.Parting.{IsFree, Joins, AreLabels, InPart, KeepsPart, AreCopies, IsPartSets};
ghost use Rattle.stable_search.specs.Picks.{Has, FitsWay, IsWithin, AreWithin};
ghost use Rattle.stable_search.specs.declared.way.Way.{Way};

use crate::way::{Way, has};
use ranked_policy::NetItems;
use std::alloc::{AllocError, Global};

/// The values that fit a value over a way; none if the way says nothing of it.
pub(crate) fn fitting(way: &Way, value: usize) -> u64
    ensures { result ≡ slice_index way.now.fits.items value }
{
    match way.fits.get(value) {
        Some(fitting) => *fitting,
        None => 0,
    }
}

/// Whether all values of one set are in another.
pub(crate) fn are_in(values: u64, all: u64) -> bool
    ensures { result ≡ true → (value : ℕ) → Has values value → Has all value }
{
    values & all == values
}

/// Whether each value of a way's first place fits each value of its other place.
pub(crate) fn is_free(way: &Way, sets: &[u64]) -> bool
    requires { IsWithin (length sets.now) way.now }
    ensures { result ≡ true → IsFree sets.now way.now }
{
    let mine = sets[way.from];
    let theirs = sets[way.to];
    for value in 0..64 {
        if has(mine, value) && !are_in(theirs, fitting(way, value)) {
            return false;
        }
    }
    true
}

// Gives the places with the label `other` the label `one`.
fn merge(labels: &mut [usize], one: usize, other: usize)
    ensures { (place : ℕ) → place < length labels.old → slice_index labels.new place ≡
        (if slice_index labels.old place == other then one else slice_index labels.old place) }
{
    for label in labels.iter_mut() {
        if *label == other {
            *label = one;
        }
    }
}

// Gives the two places of a way one label, the lesser, unless all their values fit.
fn join(way: &Way, sets: &[u64], labels: &mut [usize])
    requires within { IsWithin (length sets.now) way.now }
    requires size { length labels.old ≡ length sets.now }
    ensures { Joins sets.now way.now labels.old labels.new }
{
    if is_free(way, sets) {
        return;
    }
    let mine = labels[way.from];
    let theirs = labels[way.to];
    if mine <= theirs {
        merge(labels, mine, theirs);
    } else {
        merge(labels, theirs, mine);
    }
}

/// A label for each place. Two places of which some values don't fit have the same. A label is the
/// least place that has it.
pub(crate) fn labels_of(alloc: Global, ways: &[Way], sets: &[u64]) -> Result<Vec<usize>, AllocError>
    requires { AreWithin (length sets.now) ways.now }
    ensures { IfOk result (λ labels. AreLabels sets.now ways.now labels.items) }
{
    let mut labels = Vec::with_capacity(alloc, sets.len())?;
    for place in 0..sets.len() {
        labels.push(place)?;
    }
    for way in ways {
        join(way, sets, labels.as_mut_slice());
    }
    Ok(labels)
}

/// The places with a label, rising.
pub(crate) fn places_with(
    alloc: Global,
    labels: &[usize],
    label: usize,
) -> Result<Vec<usize>, AllocError>
    ensures exact { IfOk result (λ places. (place : ℕ) → (Contains places.items place ↔ (place < length labels.now)
        × (slice_index labels.now place ≡ label))) }
    ensures rising { IfOk result (λ places. AllPairs (λ place later. place < later) places.items) }
{
    let mut places = Vec::new(alloc);
    for (place, has) in labels.iter().enumerate() {
        if *has == label {
            places.push(place)?;
        }
    }
    Ok(places)
}

// A copy of a way.
fn copied(alloc: Global, way: &Way) -> Result<Way, AllocError>
    ensures { IfOk result (λ copy. (copy.from ≡ way.now.from) × (copy.to ≡ way.now.to)
        × (copy.fits.items ≡ way.now.fits.items)) }
{
    let fits = Vec::from_slice(alloc, way.fits.as_slice())?;
    Ok(Way {
        from: way.from,
        to: way.to,
        fits,
    })
}

/// The ways between places with a label.
pub(crate) fn ways_with(
    alloc: Global,
    ways: &[Way],
    labels: &[usize],
    label: usize,
) -> Result<Vec<Way>, AllocError>
    requires { AreWithin (length labels.now) ways.now }
    ensures within { IfOk result (λ part. AreWithin (length labels.now) part.items) }
    ensures inside { IfOk result (λ part. All (InPart labels.now label) part.items) }
    ensures part { IfOk result (λ part. KeepsPart labels.now label ways.now part.items) }
    ensures copies { IfOk result (λ part. AreCopies labels.now label ways.now part.items) }
{
    let mut part = Vec::new(alloc);
    for way in ways {
        if labels[way.from] == label && labels[way.to] == label {
            part.push(copied(alloc, way)?)?;
        }
    }
    Ok(part)
}

/// The sets of the places with a label, and one value for each other place.
pub(crate) fn sets_with(
    alloc: Global,
    sets: &[u64],
    labels: &[usize],
    label: usize,
) -> Result<Vec<u64>, AllocError>
    requires { length labels.now ≡ length sets.now }
    ensures { IfOk result (λ part. IsPartSets sets.now labels.now label part.items) }
{
    let mut part = Vec::with_capacity(alloc, sets.len())?;
    for (place, set) in sets.iter().enumerate() {
        if labels[place] == label {
            part.push(*set)?;
        } else {
            part.push(1)?;
        }
    }
    Ok(part)
}

// The values that a pick has at these places.
fn values_at(alloc: Global, pick: &[u8], places: &[usize]) -> Result<NetItems<u8>, AllocError>
    requires { All (λ place. place < length pick.now) places.now }
    ensures { IfOk result (λ values. values ≡ at_places pick.now places.now) }
{
    let mut values = Vec::with_capacity(alloc, places.len())?;
    for place in places {
        values.push(pick[*place])?;
    }
    Ok(NetItems::from_vec(values))
}

/// Leaves of each pick the values at these places. If memory is refused, some picks are whole still.
pub(crate) fn keep_values_at(
    alloc: Global,
    picks: &mut [NetItems<u8>],
    places: &[usize],
) -> Result<(), AllocError>
    requires { All (λ pick. All (λ place. place < length pick) places.now) picks.old }
    ensures { OnOk result (picks.new ≡ map (λ pick. at_places pick places.now) picks.old) }
{
    for pick in picks.iter_mut() {
        *pick = values_at(alloc, pick.as_slice(), places)?;
    }
    Ok(())
}
