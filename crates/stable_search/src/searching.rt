//! The search for all picks, case by case.

ghost use Rattle.std.specs.Prelude.{◌≡◌, ◌≤◌, ◌<◌, ◌⊎◌, ℕ, List, IfOk, IfErr, OnOk, MatchOption, length};
ghost use Rattle.std.specs.List.{All};
ghost use Rattle.stable_search.specs.Picks.{IsOnlyPick, AreWithin, AddsAll, IsFull, Narrows};

use crate::narrowing::{mark_of, narrow_all};
use crate::picking::{first_apart, fits_all, is_dead, only_pick, place_to_split};
use crate::stop::Stop;
use crate::way::Way;
use ranked_policy::NetItems;
use std::alloc::Global;

// Adds a pick if its values fit. One that is too many is added too.
fn add_fitting(
    ways: &[Way],
    pick: NetItems<u8>,
    most: usize,
    found: &mut Vec<NetItems<u8>>,
) -> Result<(), Stop>
    requires within { AreWithin (length pick) ways.now }
    requires low { All (λ value. value < 64) pick }
    ensures all { (sets : List ℕ) → IsOnlyPick sets pick
        → OnOk result (AddsAll ways.now sets found.old.items found.new.items) }
    ensures most { length found.old.items ≤ most → OnOk result (length found.new.items ≤ most) }
    ensures full { (sets : List ℕ) → IsOnlyPick sets pick → IfErr result (IsFull ways.now sets most found.old.items) }
{
    if !fits_all(ways, pick.as_slice()) {
        return Ok(());
    }
    let is_full = found.len() >= most;
    let pushed = found.push(pick);
    if is_full {
        return Err(Stop::TooManyChoices);
    }
    let Ok(()) = pushed else {
        return Err(Stop::Memory);
    };
    Ok(())
}

// Narrows the sets, of which the marked ones changed. If they are narrow enough then, adds their picks that solve; else
// answers which of them to split.
fn settle(
    alloc: Global,
    ways: &[Way],
    sets: &mut [u64],
    marks: u64,
    most: usize,
    found: &mut Vec<NetItems<u8>>,
) -> Result<Option<usize>, Stop>
    requires { AreWithin (length sets.old) ways.now }
    ensures next { IfOk result (λ next. MatchOption next
        (AddsAll ways.now sets.old found.old.items found.new.items)
        (λ place. (place < length sets.new) × Narrows ways.now sets.old sets.new
        × (found.new.items ≡ found.old.items))) }
    ensures most { length found.old.items ≤ most → OnOk result (length found.new.items ≤ most) }
    ensures full { IfErr result (IsFull ways.now sets.old most found.old.items) }
{
    narrow_all(ways, sets, marks);
    if is_dead(sets) {
        return Ok(None);
    }
    match only_pick(alloc, sets)? {
        Some(pick) => {
            add_fitting(ways, pick, most, found)?;
            Ok(None)
        }
        None => Ok(Some(place_to_split(sets))),
    }
}

/// Adds all picks out of these sets that solve, each once. It stops if the list has more than `most`, or if all steps are
/// taken.
pub(crate) fn search(
    alloc: Global,
    ways: &[Way],
    sets: Vec<u64>,
    marks: u64,
    most: usize,
    steps: &mut u64,
    found: &mut Vec<NetItems<u8>>,
) -> Result<(), Stop>
    requires { AreWithin (length sets.items) ways.now }
    ensures steps { steps.new ≤ steps.old }
    ensures all { OnOk result (AddsAll ways.now sets.items found.old.items found.new.items) }
    ensures most { length found.old.items ≤ most → OnOk result (length found.new.items ≤ most) }
    ensures stopped { IfErr result (λ stop. IsFull ways.now sets.items most found.old.items stop
        ⊎ ((stop ≡ Stop.TooManySteps) × (steps.new ≡ 0))) }
{
    let mut sets = sets;
    let mut marks = marks;
    loop {
        if *steps == 0 {
            return Err(Stop::TooManySteps);
        }
        *steps -= 1;
        let Some(place) = settle(alloc, ways, sets.as_mut_slice(), marks, most, found)? else {
            return Ok(());
        };
        let (first, others) = first_apart(sets[place]);
        let mut one = Vec::from_slice(alloc, sets.as_slice())?;
        one[place] = first;
        marks = mark_of(place);
        search(alloc, ways, one, marks, most, steps, found)?;
        sets[place] = others;
    }
}
