//! Sets without the values that no pick has.

ghost use Rattle.std.specs.Prelude.{◌≡◌, ◌<◌, ℕ, List, length, slice_index};
ghost use Rattle.std.specs.List.{All, Any};
ghost use Rattle.stable_search.specs.Groups.{IsLowPick, AreCovered};
ghost use Rattle.stable_search.specs.Picks.{Has, AllSome, Solves, Narrows, SeesAll};
ghost use Rattle.stable_search.specs.declared.way.Way.{Way};

use crate::narrowing::has_some;
use ranked_policy::NetItems;

// The values that picks have at one of their places, as a set.
fn seen_at(picks: &[NetItems<u8>], k: usize) -> u64
    requires { All (λ pick. (k < length pick) × (slice_index pick k < 64)) picks.now }
    ensures { All (λ pick. Has result (slice_index pick k)) picks.now }
{
    let mut seen = 0;
    for pick in picks {
        seen |= 1 << pick.as_slice()[k];
    }
    seen
}

// Keeps of a place's set these values, unless it has none of them, and answers whether it had others.
fn keep_only(place: usize, values: u64, sets: &mut [u64]) -> bool
    requires { place < length sets.old }
    ensures narrows { (ways : List Way)
        → ((pick : List ℕ) → Solves ways sets.old pick → Has values (slice_index pick place))
        → Narrows ways sets.old sets.new }
    ensures some { AllSome sets.old → AllSome sets.new }
{
    let mine = sets[place];
    let left = mine & values;
    if !has_some(left) {
        return false;
    }
    sets[place] = left;
    left != mine
}

// Removes from the set of a place the values that none of the picks has at its k-th place, and answers whether there
// were any.
fn keep_at(place: usize, k: usize, picks: &[NetItems<u8>], sets: &mut [u64]) -> bool
    requires inside { place < length sets.old }
    requires picks { All (λ pick. (k < length pick) × (slice_index pick k < 64)) picks.now }
    ensures narrows { (ways : List Way)
        → ((pick : List ℕ) → Solves ways sets.old pick
        → Any (λ seen. slice_index seen k ≡ slice_index pick place) picks.now)
        → Narrows ways sets.old sets.new }
    ensures some { AllSome sets.old → AllSome sets.new }
{
    keep_only(place, seen_at(picks, k), sets)
}

/// Removes from the sets of these places the values that none of their picks has, and answers whether there were any.
/// A set of which none is left stays.
pub(crate) fn keep_seen(places: &[usize], picks: &[NetItems<u8>], sets: &mut [u64]) -> bool
    requires inside { All (λ place. place < length sets.old) places.now }
    requires picks { All (IsLowPick places.now) picks.now }
    ensures narrows { (ways : List Way) → AreCovered ways sets.old places.now picks.now
        → Narrows ways sets.old sets.new }
    ensures some { AllSome sets.old → AllSome sets.new }
{
    let mut some = false;
    for (k, place) in places.iter().enumerate() {
        some |= keep_at(*place, k, picks, sets);
    }
    some
}

/// Removes from the sets of these places the values that are not marked there. A set of which none is left stays.
pub(crate) fn keep_marked(places: &[usize], seen: &[u64], sets: &mut [u64])
    requires inside { All (λ place. place < length sets.old) places.now }
    requires size { length seen.now ≡ length sets.old }
    ensures narrows { (ways : List Way) → SeesAll ways sets.old places.now seen.now → Narrows ways sets.old sets.new }
    ensures some { AllSome sets.old → AllSome sets.new }
{
    for place in places {
        keep_only(*place, seen[*place], sets);
    }
}
