//! The rims of a circle of rows that hold one another.

ghost use Rattle.std.specs.Prelude.{◌≡◌, ◌<◌, ◌≤◌, ◌∷◌, ◌++◌, ℕ, List, IfOk, OnOk, length, map};
ghost use Rattle.std.specs.List.{All, Contains};
ghost use Rattle.dispute_wheels.specs.Feasible.{game_of};
ghost use Rattle.dispute_wheels.specs.Wheels.{IsWheel};
ghost use Rattle.wheel_search.specs.Found.{as_rim};
ghost use Rattle.wheel_search.specs.Letting.{IsCircle};
ghost use Rattle.wheel_search.specs.Rims.{AddsRim, AreHeld, AreRimsOf, HeldAt};
ghost use Rattle.wheel_search.specs.Rows.{AreRows, AreWaits, path_at, paths_at};
ghost use Rattle.wheel_search.specs.Waits.{AreWithin};

use crate::letting::Letting;
use crate::rim::Rim;
use crate::row::Row;
use crate::wait::{Wait, wait_at};
use ranked_policy::laws::each_policy_is_an_order;
use ranked_policy::{NetItems, Path};
use stable_paths::Instance;
use std::alloc::{AllocError, Global};

// The rows of a trail from this one on.
fn from_row(trail: &[usize], row: usize) -> &[usize]
    requires { Contains trail.now row }
    ensures { (front : List ℕ) × (rows : List ℕ) × (trail.now ≡ front ++ row ∷ rows) × (result.now ≡ row ∷ rows) }
{
    for (at, other) in trail.iter().enumerate() {
        if *other == row {
            return &trail[at..];
        }
    }
    trail
}

// A copy of the path at a place of a row.
fn path_of(alloc: Global, rows: &[Row], row: usize, place: usize) -> Result<Path, AllocError>
    requires row { row < length rows.now }
    requires place { place < length (paths_at rows.now row) }
    ensures { IfOk result (λ path. path ≡ path_at rows.now row place) }
{
    Path::from_slice(alloc, rows[row].paths()[place].as_slice())
}

// Adds the rim of the row that holds another, if its first path that did not go is better than the rest that it holds.
fn add_rim(
    alloc: Global,
    rows: &[Row],
    waits: &[NetItems<Wait>],
    gone: &[usize],
    held: usize,
    rims: &mut Vec<Rim>,
) -> Result<(), AllocError>
    requires rows { AreHeld rows.now waits.now gone.now }
    requires held { held < length waits.now }
    requires at { HeldAt waits.now gone.now held }
    ensures { OnOk result (AddsRim rows.now waits.now gone.now held rims.old.items rims.new.items) }
{
    if let Wait::Rest { row, place } = wait_at(waits, held, gone[held]) {
        if place != gone[row] {
            let spoke = path_of(alloc, rows, row, place)?;
            let over = path_of(alloc, rows, row, gone[row])?;
            rims.push(Rim { spoke, over })?;
        }
    }
    Ok(())
}

// Adds the rims of rows that hold one another, in this order.
fn add_rims(
    alloc: Global,
    rows: &[Row],
    waits: &[NetItems<Wait>],
    gone: &[usize],
    circle: &[usize],
    rims: &mut Vec<Rim>,
) -> Result<(), AllocError>
    requires rows { AreHeld rows.now waits.now gone.now }
    requires held { All (λ row. (row < length waits.now) × HeldAt waits.now gone.now row) circle.now }
    ensures { (before : List ℕ) → AreRimsOf rows.now waits.now gone.now before rims.old.items
        → OnOk result (AreRimsOf rows.now waits.now gone.now (before ++ circle.now) rims.new.items) }
{
    for row in circle {
        add_rim(alloc, rows, waits, gone, *row, rims)?;
    }
    Ok(())
}

// The place in a circle of the row that holds the least row with a rim.
fn start_of(waits: &[NetItems<Wait>], gone: &[usize], circle: &[usize]) -> usize
    requires within { AreWithin waits.now }
    requires size { length gone.now ≡ length waits.now }
    requires known { All (λ row. (row < length waits.now) × HeldAt waits.now gone.now row) circle.now }
    ensures { result ≤ length circle.now }
{
    let mut start = 0;
    let mut least = usize::MAX;
    for (at, held) in circle.iter().enumerate() {
        if let Wait::Rest { row, place } = wait_at(waits, *held, gone[*held]) {
            if place != gone[row] && row < least {
                start = at;
                least = row;
            }
        }
    }
    start
}

/// The dispute wheel of rows that hold one another. The rim of the least router comes first.
pub(crate) fn rims(
    alloc: Global,
    instance: &Instance,
    rows: &[Row],
    waits: &[NetItems<Wait>],
    letting: &Letting,
    closes: usize,
) -> Result<NetItems<Rim>, AllocError>
    requires rows { AreRows instance.now rows.now }
    requires waits { AreWaits instance.now rows.now waits.now }
    requires circle { IsCircle waits.now letting.now closes }
    ensures { IfOk result (λ rims. IsWheel (game_of instance.now) (map as_rim rims)) }
{
    each_policy_is_an_order();
    let _network = instance.network();
    let gone = letting.gone.as_slice();
    let circle = from_row(letting.trail.as_slice(), closes);
    let start = start_of(waits, gone, circle);
    let mut rims = Vec::new(alloc);
    add_rims(alloc, rows, waits, gone, &circle[start..], &mut rims)?;
    add_rims(alloc, rows, waits, gone, &circle[..start], &mut rims)?;
    Ok(NetItems::from_vec(rims))
}
