//! Picks of a value for each place.

ghost use Rattle.std.specs.Prelude.{◌≡◌, ◌↔◌, ◌<◌, IsTrue, IfOk, IfSome, MatchOption, length};
ghost use Rattle.std.specs.List.{All, Contains};
ghost use Rattle.stable_search.specs.Picks.{IsOnly, IsOnlyPick, FallsInto, FitsWay, IsWithin, AreWithin};

use crate::way::Way;
use ranked_policy::NetItems;
use std::alloc::{AllocError, Global};

/// The only value of a set, if it has exactly one.
pub(crate) fn only_value(set: u64) -> Option<u8>
    ensures { IfSome result (IsOnly set) }
{
    if set == 0 {
        return None;
    }
    let value = set.trailing_zeros();
    if set & !(1 << value) == 0 {
        Some(value as u8)
    } else {
        None
    }
}

/// The pick of the only value of each set, if each has exactly one.
pub(crate) fn only_pick(alloc: Global, sets: &[u64]) -> Result<Option<NetItems<u8>>, AllocError>
    ensures { IfOk result (λ found. MatchOption found (0 < length sets.now) (IsOnlyPick sets.now)) }
{
    let mut pick = Vec::with_capacity(alloc, sets.len())?;
    for set in sets {
        match only_value(*set) {
            Some(value) => pick.push(value)?,
            None => return Ok(None),
        }
    }
    Ok(Some(NetItems::from_vec(pick)))
}

// Whether the values that a pick has at two places fit.
fn fits_way(way: &Way, pick: &[u8]) -> bool
    requires within { IsWithin (length pick.now) way.now }
    requires low { All (λ value. value < 64) pick.now }
    ensures { IsTrue result ↔ FitsWay pick.now way.now }
{
    match way.fits.get(usize::from(pick[way.from])) {
        Some(fitting) => (*fitting >> pick[way.to]) & 1 == 1,
        None => false,
    }
}

/// Whether the values of a pick fit over all the ways.
pub(crate) fn fits_all(ways: &[Way], pick: &[u8]) -> bool
    requires within { AreWithin (length pick.now) ways.now }
    requires low { All (λ value. value < 64) pick.now }
    ensures { IsTrue result ↔ All (FitsWay pick.now) ways.now }
{
    for way in ways {
        if !fits_way(way, pick) {
            return false;
        }
    }
    true
}

/// Whether some set has no value.
pub(crate) fn is_dead(sets: &[u64]) -> bool
    ensures { IsTrue result ↔ Contains sets.now 0 }
{
    sets.contains(&0)
}

/// The place with the fewest values, of those with two or more.
pub(crate) fn place_to_split(sets: &[u64]) -> usize
    requires { 0 < length sets.now }
    ensures { result < length sets.now }
{
    let mut best = 0;
    let mut fewest = 65;
    for (place, set) in sets.iter().enumerate() {
        let values = set.count_ones();
        if values > 1 && values < fewest {
            best = place;
            fewest = values;
        }
    }
    best
}

/// The first value of a set, as a set, and the set of the others.
pub(crate) fn first_apart(set: u64) -> (u64, u64)
    ensures { FallsInto set result.0 result.1 }
{
    let rest = set & set.wrapping_sub(1);
    (set ^ rest, rest)
}
