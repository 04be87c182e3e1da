//! Sets of values without those that no value of another place fits.

ghost use Rattle.std.specs.Prelude.{◌≡◌, ◌<◌, ◌≤◌, ◌⊎◌, ℕ, [], ◌∷◌, true, IsTrue, OnOk, length, slice_index};
ghost use Rattle.std.specs.Int.RustNames.{bit_and};
ghost use Rattle.stable_search.specs.Picks.{AllSome, Has, IsWithin, AreWithin, Narrows};

use crate::way::Way;
use std::alloc::{AllocError, Global};

// Whether it is seen that no value of the set fits the value.
fn is_alone(fits: &[u64], value: usize, theirs: u64) -> bool
    ensures { result ≡ true → bit_and (slice_index fits.now value) theirs ≡ 0 }
{
    match fits.get(value) {
        Some(fitting) => *fitting & theirs == 0,
        None => false,
    }
}

// The values of a set that fit one of the other place's set.
fn with_partner(fits: &[u64], mine: u64, theirs: u64) -> u64
    ensures fewer { (value : ℕ) → Has result value → Has mine value }
    ensures kept { (value : ℕ) → value < 64 → Has mine value → Has result value
        ⊎ (bit_and (slice_index fits.now value) theirs ≡ 0) }
{
    let mut kept = mine;
    let mut left = mine;
    for _value in 0..64 {
        if left == 0 {
            return kept;
        }
        let value = left.trailing_zeros();
        if is_alone(fits, value as usize, theirs) {
            kept &= !(1 << value);
        }
        left &= left - 1;
    }
    kept
}

// Removes the values that nothing fits over one way, and answers whether there were any.
fn narrow_over(way: &Way, sets: &mut [u64]) -> bool
    requires { IsWithin (length sets.old) way.now }
    ensures { Narrows (way.now ∷ []) sets.old sets.new }
{
    let mine = sets[way.from];
    let left = with_partner(way.fits.as_slice(), mine, sets[way.to]);
    sets[way.from] = left;
    left != mine
}

/// The mark of a place. Each of 64 places has its own.
pub(crate) fn mark_of(place: usize) -> u64 {
    1 << (place % 64)
}

// Does what `narrow_over` does, if the way's other place is marked.
fn narrow_where(way: &Way, sets: &mut [u64], marks: u64) -> bool
    requires { IsWithin (length sets.old) way.now }
    ensures { Narrows (way.now ∷ []) sets.old sets.new }
{
    if marks & mark_of(way.to) == 0 {
        return false;
    }
    narrow_over(way, sets)
}

/// Removes, way by way, the values that nothing fits over the way, if the way's other place is marked or lost a value
/// here. Answers the marks of the places that lost one.
pub(crate) fn narrow(ways: &[Way], sets: &mut [u64], marks: u64) -> u64
    requires { AreWithin (length sets.old) ways.now }
    ensures { Narrows ways.now sets.old sets.new }
{
    let mut next = 0u64;
    for way in ways {
        if narrow_where(way, sets, marks | next) {
            next |= mark_of(way.from);
        }
    }
    next
}

// The most values of 64 places. A round that removes none ends the narrowing before.
const ROUNDS: usize = 64 * 64;

/// Removes the values that nothing fits, until there are none. It begins with those of the peers of marked places,
/// whose sets changed.
pub(crate) fn narrow_all(ways: &[Way], sets: &mut [u64], marks: u64)
    requires { AreWithin (length sets.old) ways.now }
    ensures { Narrows ways.now sets.old sets.new }
{
    let mut left = marks;
    for _round in 0..ROUNDS {
        left = narrow(ways, sets, left);
        if left == 0 {
            return;
        }
    }
}

/// Whether a set has a value.
pub(crate) fn has_some(set: u64) -> bool
    ensures { IsTrue result → (value : ℕ) × Has set value }
{
    set != 0
}

// Whether each set has a value.
fn all_some(sets: &[u64]) -> bool
    ensures { IsTrue result → AllSome sets.now }
{
    for set in sets {
        if !has_some(*set) {
            return false;
        }
    }
    true
}

/// Removes the values that nothing fits, unless a set would lose its last one.
pub(crate) fn narrow_some(alloc: Global, ways: &[Way], sets: &mut [u64]) -> Result<(), AllocError>
    requires { AreWithin (length sets.old) ways.now }
    ensures narrows { OnOk result (Narrows ways.now sets.old sets.new) }
    ensures some { OnOk result (AllSome sets.old → AllSome sets.new) }
{
    let mut left = Vec::from_slice(alloc, sets)?;
    narrow_all(ways, left.as_mut_slice(), u64::MAX);
    if all_some(left.as_slice()) {
        sets.copy_from_slice(left.as_slice());
    }
    Ok(())
}
