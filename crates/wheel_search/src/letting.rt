//! Letting go: a path goes once the better ones of its row and its rest went.

ghost use Rattle.std.specs.Prelude.{◌≡◌, ◌<◌, ◌≤◌, ℕ, [], true, false, IfOk, IsTrue, MatchOption, length, slice_index, slice_index_or};
ghost use Rattle.wheel_search.specs.Waits.{wait_of, Comes, AreWithin, AllFree};
ghost use Rattle.wheel_search.specs.Letting.{AreGone, MayGo, HasGone, IsHeld, IsCircle};
ghost use Rattle.wheel_search.specs.declared.wait.Wait.TheVariants.{Rest};

use crate::wait::{Wait, comes, wait_at};
use ranked_policy::NetItems;
use std::alloc::{AllocError, Global};

/// How far the paths of each row went.
#[derive(Debug, Drop)]
pub(crate) struct Letting {
    /// How many paths of each row went, the best first.
    pub(crate) gone: Vec<usize>,
    /// Whether the next path of a row is being let go.
    busy: Vec<bool>,
    /// These rows, each held by the next.
    pub(crate) trail: Vec<usize>,
}

// Whether a path may be feasible: it is looked at if that is asked for.
fn may_come(waits: &[NetItems<Wait>], row: usize, place: usize, asks: bool) -> bool
    ensures sure { asks ≡ true → IsTrue result → Comes waits.now row place }
    ensures all { Comes waits.now row place → IsTrue result }
{
    if asks { comes(waits, row, place) } else { true }
}

// The place of a path's rest, if the path may be feasible and the rest did not go yet.
fn held_by(
    waits: &[NetItems<Wait>],
    gone: &[usize],
    row: usize,
    place: usize,
    asks: bool,
) -> Option<(usize, usize)>
    requires within { AreWithin waits.now }
    requires size { length gone.now ≡ length waits.now }
    ensures { MatchOption result
        (Comes waits.now row place → (next at : ℕ) → wait_of waits.now row place ≡ Rest next at
        → at < slice_index gone.now next)
        (λ held. (wait_of waits.now row place ≡ Rest held.0 held.1) × (asks ≡ true → Comes waits.now row place)
        × (slice_index gone.now held.0 ≤ held.1)) }
{
    match wait_at(waits, row, place) {
        Wait::Rest {
            row: next,
            place: at,
        } => {
            if gone[next] <= at && may_come(waits, row, place, asks) {
                Some((next, at))
            } else {
                None
            }
        }
        Wait::Never | Wait::Nothing => None,
    }
}

// Lets the paths of a row go up to a place. `Some` is a row of the trail that holds the last one of the trail, by a
// feasible path if it is asked whether paths are.
fn let_go(
    waits: &[NetItems<Wait>],
    letting: &mut Letting,
    row: usize,
    last: usize,
    asks: bool,
) -> Result<Option<usize>, AllocError>
    requires within { AreWithin waits.now }
    requires may { MayGo waits.now letting.old row last }
    ensures { IfOk result (λ closes. MatchOption closes (HasGone waits.now letting.old letting.new row last)
        (λ by. asks ≡ true → IsHeld waits.now letting.old letting.new row last by)) }
{
    letting.busy[row] = true;
    letting.trail.push(row)?;
    for place in letting.gone[row]..last + 1 {
        if let Some((next, at)) = held_by(waits, letting.gone.as_slice(), row, place, asks) {
            if letting.busy[next] {
                return Ok(Some(next));
            }
            if let Some(closes) = let_go(waits, letting, next, at, asks)? {
                return Ok(Some(closes));
            }
        }
        letting.gone[row] = place + 1;
    }
    letting.trail.pop();
    letting.busy[row] = false;
    Ok(None)
}

// No path went yet.
fn none_gone(alloc: Global, waits: &[NetItems<Wait>]) -> Result<Letting, AllocError>
    ensures gone { IfOk result (λ letting. AreGone waits.now letting.gone.items) }
    ensures size { IfOk result (λ letting. length letting.busy.items ≡ length waits.now) }
    ensures shut { IfOk result (λ letting. (row : ℕ) → slice_index_or letting.busy.items row false ≡ false) }
    ensures trail { IfOk result (λ letting. letting.trail.items ≡ []) }
{
    let count = waits.len();
    let mut gone = Vec::with_capacity(alloc, count)?;
    let mut busy = Vec::with_capacity(alloc, count)?;
    for _row in 0..count {
        gone.push(0)?;
        busy.push(false)?;
    }
    Ok(Letting {
        gone,
        busy,
        trail: Vec::with_capacity(alloc, count)?,
    })
}

// Lets all paths go. `Some` has the rows that hold one another in a circle, by feasible paths if it is asked whether
// paths are, and how far all went.
fn let_rows_go(
    alloc: Global,
    waits: &[NetItems<Wait>],
    asks: bool,
) -> Result<Option<(Letting, usize)>, AllocError>
    requires { AreWithin waits.now }
    ensures { IfOk result (λ found. MatchOption found (AllFree waits.now)
        (λ held. asks ≡ true → IsCircle waits.now held.0 held.1)) }
{
    let mut letting = none_gone(alloc, waits)?;
    for (row, of_row) in waits.iter().enumerate() {
        let count = of_row.len();
        if letting.gone[row] < count {
            if let Some(closes) = let_go(waits, &mut letting, row, count - 1, asks)? {
                return Ok(Some((letting, closes)));
            }
        }
    }
    Ok(None)
}

/// Lets all paths go. `Some` has the rows that hold one another in a circle, and how far all went.
///
/// It is first tried without a look at whether paths are feasible: where all go so, they go.
pub(crate) fn let_all_go(
    alloc: Global,
    waits: &[NetItems<Wait>],
) -> Result<Option<(Letting, usize)>, AllocError>
    requires { AreWithin waits.now }
    ensures { IfOk result (λ found. MatchOption found (AllFree waits.now)
        (λ held. IsCircle waits.now held.0 held.1)) }
{
    if let None = let_rows_go(alloc, waits, false)? {
        return Ok(None);
    }
    let_rows_go(alloc, waits, true)
}
