//! Places that follow others together: whatever values these have, the followers can have values that fit in exactly one
//! way, and none of these matters to the others.

ghost use Rattle.std.specs.Prelude.{◌≡◌, ◌≢◌, ◌↔◌, ◌<◌, ℕ, ⊤, IsTrue, IfOk, IfSome, OnOk, MatchOption, length, slice_index};
ghost use Rattle.std.specs.List.{All, Contains};
ghost use Rattle.std.specs.Int.RustNames.{bit_and};
ghost use Rattle.stable_search.specs.Following.{IsHeard, Answers, FollowTogether, AreUnmoved, AreLevels, AreMet, IsRaised, IsBesides, IsNear, Tells, IsSettled, Settles};
ghost use Rattle.stable_search.specs.Picks.{Has, IsOnly, AreWithin};
ghost use Rattle.stable_search.specs.declared.way.Way.{Way};

use crate::parting::{are_in, fitting, is_free};
use crate::picking::only_value;
use crate::way::{Way, has};
use std::alloc::{AllocError, Global};

// ---- one place

// Whether it is an end at the place, over a link to another one.
fn is_heard(end: &Way, place: usize) -> bool
    ensures { IsTrue result ↔ IsHeard place end.now }
{
    end.to == place && end.from != place
}

// Adds a set, unless it is there; `false` if it is empty, or there are too many.
fn add_set(set: u64, met: &mut Vec<u64>) -> Result<bool, AllocError>
    ensures kept { IfOk result (λ all. (other : ℕ) → Contains met.old.items other → Contains met.new.items other) }
    ensures added { IfOk result (λ all. IsTrue all → Contains met.new.items set) }
{
    if met.contains(&set) {
        return Ok(true);
    }
    if set == 0 || met.len() >= 64 {
        return Ok(false);
    }
    met.push(set)?;
    Ok(true)
}

// Adds what each set has in common with the values, once; `false` if that is nothing, or too many.
fn add_common(sets: &[u64], values: u64, met: &mut Vec<u64>) -> Result<bool, AllocError>
    ensures kept { IfOk result (λ all. (other : ℕ) → Contains met.old.items other → Contains met.new.items other) }
    ensures added { IfOk result (λ all. IsTrue all → (set : ℕ) → Contains sets.now set
        → Contains met.new.items (bit_and set values)) }
{
    for set in sets {
        if !add_set(*set & values, met)? {
            return Ok(false);
        }
    }
    Ok(true)
}

// Adds what each set has in common with the values that fit this one of the end's first place, if that place has it.
fn add_met(
    end: &Way,
    theirs: u64,
    value: usize,
    sets: &[u64],
    met: &mut Vec<u64>,
) -> Result<bool, AllocError>
    requires { value < 64 }
    ensures kept { IfOk result (λ all. (other : ℕ) → Contains met.old.items other → Contains met.new.items other) }
    ensures added { IfOk result (λ all. IsTrue all → Has theirs value → (set : ℕ) → Contains sets.now set
        → Contains met.new.items (bit_and set (slice_index end.now.fits.items value))) }
{
    if !has(theirs, value) {
        return Ok(true);
    }
    add_common(sets, fitting(end, value), met)
}

// What each set has in common with the values that fit one of the end's first place; `None` if that is nothing once, or
// too many sets.
fn met_over(
    alloc: Global,
    end: &Way,
    theirs: u64,
    sets: &[u64],
) -> Result<Option<Vec<u64>>, AllocError>
    ensures { IfOk result (λ found. MatchOption found ⊤ (λ met. AreMet end.now theirs sets.now met.items)) }
{
    let mut met = Vec::new(alloc);
    for value in 0..64 {
        if !add_met(end, theirs, value, sets, &mut met)? {
            return Ok(None);
        }
    }
    Ok(Some(met))
}

// Whether a set has exactly one value.
fn is_single(set: u64) -> bool
    ensures { IsTrue result → (value : ℕ) × IsOnly set value }
{
    match only_value(set) {
        Some(_value) => true,
        None => false,
    }
}

// Whether each set has exactly one value.
fn are_single(sets: &[u64]) -> bool
    ensures { IsTrue result → All (λ set. (value : ℕ) × IsOnly set value) sets.now }
{
    for set in sets {
        if !is_single(*set) {
            return false;
        }
    }
    true
}

// Whether exactly one value of the place fits at its ends, whatever values the other places have.
fn answers(alloc: Global, ends: &[Way], sets: &[u64], place: usize) -> Result<bool, AllocError>
    requires within { AreWithin (length sets.now) ends.now }
    requires place { place < length sets.now }
    ensures { IfOk result (λ answers. IsTrue answers → Answers ends.now sets.now place) }
{
    let mut left = Vec::new(alloc);
    left.push(sets[place])?;
    for end in ends {
        if is_heard(end, place) {
            match met_over(alloc, end, sets[end.from], left.as_slice())? {
                Some(met) => left = met,
                None => return Ok(false),
            }
        }
    }
    Ok(are_single(left.as_slice()))
}

// Whether each place of a level has exactly one value that fits at its ends, whatever values the other places have.
fn all_answer(
    alloc: Global,
    ends: &[Way],
    sets: &[u64],
    levels: &[usize],
    level: usize,
) -> Result<bool, AllocError>
    requires within { AreWithin (length sets.now) ends.now }
    requires size { length levels.now ≡ length sets.now }
    ensures { IfOk result (λ all. IsTrue all → (place : ℕ) → place < length sets.now
        → slice_index levels.now place ≡ level → Answers ends.now sets.now place) }
{
    for (place, has) in levels.iter().enumerate() {
        if *has == level && !answers(alloc, ends, sets, place)? {
            return Ok(false);
        }
    }
    Ok(true)
}

// ---- places that settle

// The values of an end's first place, out of a set, that fit this value of its other place; and the values that fit one of
// them.
fn besides(end: &Way, theirs: u64, value: usize) -> (u64, u64)
    requires { value < 64 }
    ensures { IsBesides end.now theirs value result.0 result.1 }
{
    let mut partners = 0;
    let mut rivals = 0;
    for their in 0..64 {
        let fits = fitting(end, their);
        if has(theirs, their) && has(fits, value) {
            partners |= 1 << their;
            rivals |= fits;
        }
    }
    (partners, rivals)
}

// Whether an end at the place tells something of its value: the other place is of a lower level, or of the same one, and
// then all these values of it are settled.
fn is_near(end: &Way, levels: &[usize], settled: &[u64], place: usize, partners: u64) -> bool
    requires from { end.now.from < length levels.now }
    requires place { place < length levels.now }
    requires size { length settled.now ≡ length levels.now }
    ensures { IsTrue result → IsNear levels.now settled.now place partners end.now }
{
    let level = levels[place];
    let theirs = levels[end.from];
    theirs < level || (theirs == level && are_in(partners, settled[end.from]))
}

// The other values of a set than this one, but for settled ones.
fn rivals_of(set: u64, settled: u64, value: usize) -> u64
    requires { value < 64 }
    ensures { (rival : ℕ) → rival < 64 → Has set rival → (Has settled rival → ⊥) → rival ≢ value → Has result rival }
{
    let open = set ^ (set & settled);
    open & !(1 << value)
}

// Whether what is settled tells where the place has this value: no other one, but for settled ones, fits where it does.
fn is_told(
    ends: &[Way],
    sets: &[u64],
    levels: &[usize],
    settled: &[u64],
    place: usize,
    value: usize,
) -> bool
    requires within { AreWithin (length sets.now) ends.now }
    requires size { length levels.now ≡ length sets.now }
    requires settled { length settled.now ≡ length levels.now }
    requires place { place < length sets.now }
    requires value { value < 64 }
    ensures { IsTrue result → Tells ends.now sets.now levels.now settled.now place value }
{
    let mut left = rivals_of(sets[place], settled[place], value);
    for end in ends {
        if is_heard(end, place) {
            let (partners, rivals) = besides(end, sets[end.from], value);
            if is_near(end, levels, settled, place, partners) {
                left &= rivals;
            }
        }
    }
    left == 0
}

// Settles a value of a place.
fn settle(place: usize, value: usize, settled: &mut Vec<u64>)
    requires place { place < length settled.old.items }
    requires value { value < 64 }
    ensures { IsSettled settled.old.items place value settled.new.items }
{
    settled[place] |= 1 << value;
}

// Settles the values of a place that what is settled tells, and answers whether there were any.
fn settle_place(
    ends: &[Way],
    sets: &[u64],
    levels: &[usize],
    place: usize,
    settled: &mut Vec<u64>,
) -> bool
    requires within { AreWithin (length sets.now) ends.now }
    requires size { length levels.now ≡ length sets.now }
    requires place { place < length sets.now }
    requires answers { (other : ℕ) → other < length sets.now
        → slice_index levels.now other ≡ slice_index levels.now place → Answers ends.now sets.now other }
    requires before { Settles ends.now sets.now levels.now (slice_index levels.now place) settled.old.items }
    ensures { Settles ends.now sets.now levels.now (slice_index levels.now place) settled.new.items }
{
    let mut some = false;
    for value in 0..64 {
        if has(sets[place], value)
            && !has(settled[place], value)
            && is_told(ends, sets, levels, settled.as_slice(), place, value)
        {
            settle(place, value, settled);
            some = true;
        }
    }
    some
}

// Settles, place by place, the values of a level that what is settled tells, and answers whether there were any.
fn settle_each(
    ends: &[Way],
    sets: &[u64],
    levels: &[usize],
    level: usize,
    settled: &mut Vec<u64>,
) -> bool
    requires within { AreWithin (length sets.now) ends.now }
    requires size { length levels.now ≡ length sets.now }
    requires answers { (place : ℕ) → place < length sets.now → slice_index levels.now place ≡ level
        → Answers ends.now sets.now place }
    requires before { Settles ends.now sets.now levels.now level settled.old.items }
    ensures { Settles ends.now sets.now levels.now level settled.new.items }
{
    let mut some = false;
    for (place, has) in levels.iter().enumerate() {
        if *has == level {
            some |= settle_place(ends, sets, levels, place, settled);
        }
    }
    some
}

// Whether all values of each place of a level are settled.
fn are_settled(sets: &[u64], levels: &[usize], level: usize, settled: &[u64]) -> bool
    requires size { length levels.now ≡ length sets.now }
    requires settled { length settled.now ≡ length levels.now }
    ensures { IsTrue result → (place value : ℕ) → place < length sets.now → slice_index levels.now place ≡ level
        → Has (slice_index sets.now place) value → Has (slice_index settled.now place) value }
{
    for (place, has) in levels.iter().enumerate() {
        if *has == level && !are_in(sets[place], settled[place]) {
            return false;
        }
    }
    true
}

// The most values of 64 places. A round that settles none ends the settling before.
const ROUNDS: usize = 64 * 64;

// Whether the values of the places of a level settle one after the other, from those of lower levels on.
fn settles(
    alloc: Global,
    ends: &[Way],
    sets: &[u64],
    levels: &[usize],
    level: usize,
) -> Result<bool, AllocError>
    requires within { AreWithin (length sets.now) ends.now }
    requires size { length levels.now ≡ length sets.now }
    requires answers { (place : ℕ) → place < length sets.now → slice_index levels.now place ≡ level
        → Answers ends.now sets.now place }
    ensures { IfOk result (λ all. IsTrue all → FollowTogether ends.now sets.now levels.now level) }
{
    let mut settled = none_settled(alloc, sets.len())?;
    for _round in 0..ROUNDS {
        if !settle_each(ends, sets, levels, level, &mut settled) {
            break;
        }
    }
    Ok(are_settled(sets, levels, level, settled.as_slice()))
}

// No value of so many places is settled.
fn none_settled(alloc: Global, count: usize) -> Result<Vec<u64>, AllocError>
    ensures { IfOk result (λ settled. (length settled.items ≡ count)
        × ((place : ℕ) → slice_index settled.items place ≡ 0)) }
{
    let mut settled = Vec::with_capacity(alloc, count)?;
    for _place in 0..count {
        settled.push(0)?;
    }
    Ok(settled)
}

// ---- levels

// Whether no place has a value that matters to a place of a lower level.
fn are_unmoved(ends: &[Way], sets: &[u64], levels: &[usize]) -> bool
    requires within { AreWithin (length sets.now) ends.now }
    requires size { length levels.now ≡ length sets.now }
    ensures { IsTrue result → AreUnmoved ends.now sets.now levels.now }
{
    for end in ends {
        if levels[end.to] < levels[end.from] && !is_free(end, sets) {
            return false;
        }
    }
    true
}

// Whether the places of a level follow together those of lower levels, and no value matters to a place of a lower level.
fn follow_together(
    alloc: Global,
    ends: &[Way],
    sets: &[u64],
    levels: &[usize],
    level: usize,
) -> Result<bool, AllocError>
    requires within { AreWithin (length sets.now) ends.now }
    requires size { length levels.now ≡ length sets.now }
    ensures { IfOk result (λ follow. IsTrue follow
        → AreUnmoved ends.now sets.now levels.now × FollowTogether ends.now sets.now levels.now level) }
{
    if !are_unmoved(ends, sets, levels) {
        return Ok(false);
    }
    if !all_answer(alloc, ends, sets, levels, level)? {
        return Ok(false);
    }
    settles(alloc, ends, sets, levels, level)
}

// For each end, whether a value of its first place matters to the other.
fn all_moved(alloc: Global, ends: &[Way], sets: &[u64]) -> Result<Vec<bool>, AllocError>
    requires { AreWithin (length sets.now) ends.now }
    ensures { IfOk result (λ moved. length moved.items ≡ length ends.now) }
{
    let mut moved = Vec::with_capacity(alloc, ends.len())?;
    for end in ends {
        moved.push(!is_free(end, sets))?;
    }
    Ok(moved)
}

// Marks each place to which a marked one matters, and answers whether there was another one.
fn mark_each(ends: &[Way], moved: &[bool], marks: &mut Vec<bool>) -> bool
    requires within { AreWithin (length marks.old.items) ends.now }
    requires moved { length moved.now ≡ length ends.now }
    ensures { length marks.new.items ≡ length marks.old.items }
{
    let mut some = false;
    for (k, end) in ends.iter().enumerate() {
        if moved[k] && marks[end.from] && !marks[end.to] {
            marks[end.to] = true;
            some = true;
        }
    }
    some
}

// So many places, none of them marked.
fn none_marked(alloc: Global, count: usize) -> Result<Vec<bool>, AllocError>
    ensures { IfOk result (λ marks. length marks.items ≡ count) }
{
    let mut marks = Vec::with_capacity(alloc, count)?;
    for _place in 0..count {
        marks.push(false)?;
    }
    Ok(marks)
}

// The marks of a place, and of each to which a marked one matters.
fn marks_behind(
    alloc: Global,
    ends: &[Way],
    moved: &[bool],
    count: usize,
    place: usize,
) -> Result<Vec<bool>, AllocError>
    requires within { AreWithin count ends.now }
    requires moved { length moved.now ≡ length ends.now }
    requires place { place < count }
{
    let mut marks = none_marked(alloc, count)?;
    marks[place] = true;
    for _round in 0..count {
        if !mark_each(ends, moved, &mut marks) {
            break;
        }
    }
    Ok(marks)
}

// For each place the marks of those behind it: to which it matters, or one of them does.
fn all_behind(alloc: Global, ends: &[Way], sets: &[u64]) -> Result<Vec<Vec<bool>>, AllocError>
    requires { AreWithin (length sets.now) ends.now }
{
    let moved = all_moved(alloc, ends, sets)?;
    let count = sets.len();
    let mut behind = Vec::with_capacity(alloc, count)?;
    for place in 0..count {
        behind.push(marks_behind(alloc, ends, moved.as_slice(), count, place)?)?;
    }
    Ok(behind)
}

// Whether a place is behind another one.
fn is_behind(behind: &[Vec<bool>], place: usize, other: usize) -> bool {
    match behind.get(place) {
        Some(marks) => match marks.as_slice().get(other) {
            Some(mark) => *mark,
            None => false,
        },
        None => false,
    }
}

// How many places of level 0 are behind a place; `None` if one of them is stuck.
fn count_behind(
    behind: &[Vec<bool>],
    levels: &[usize],
    stuck: &[bool],
    place: usize,
) -> Option<usize>
    requires { length stuck.now ≡ length levels.now }
{
    let mut count = 0;
    for (other, level) in levels.iter().enumerate() {
        if *level == 0 && is_behind(behind, place, other) {
            if stuck[other] {
                return None;
            }
            count += 1;
        }
    }
    Some(count)
}

// The place of level 0 with two values or more that has the fewest such places behind it, none of them stuck.
fn least_place(
    behind: &[Vec<bool>],
    sets: &[u64],
    levels: &[usize],
    stuck: &[bool],
) -> Option<usize>
    requires size { length levels.now ≡ length sets.now }
    requires stuck { length stuck.now ≡ length sets.now }
{
    let mut least = None;
    let mut fewest = usize::MAX;
    for (place, set) in sets.iter().enumerate() {
        if levels[place] == 0 && set.count_ones() > 1 && !stuck[place] {
            match count_behind(behind, levels, stuck, place) {
                Some(count) if count < fewest => {
                    fewest = count;
                    least = Some(place);
                }
                _ => {}
            }
        }
    }
    least
}

// The levels with this one for each place of level 0 behind a place.
fn raised(
    alloc: Global,
    behind: &[Vec<bool>],
    levels: &[usize],
    level: usize,
    place: usize,
) -> Result<Vec<usize>, AllocError>
    ensures { IfOk result (λ raised. IsRaised levels.now level raised.items) }
{
    let mut raised = Vec::from_slice(alloc, levels)?;
    for other in 0..levels.len() {
        if raised[other] == 0 && is_behind(behind, place, other) {
            raised[other] = level;
        }
    }
    Ok(raised)
}

// Marks the places of the level as stuck.
fn mark_stuck(levels: &[usize], level: usize, stuck: &mut Vec<bool>)
    requires { length stuck.old.items ≡ length levels.now }
    ensures { length stuck.new.items ≡ length stuck.old.items }
{
    for (place, has) in levels.iter().enumerate() {
        if *has == level {
            stuck[place] = true;
        }
    }
}

// The levels with this one for the fewest places that follow together places of lower levels. Those that don't are stuck.
fn next_levels(
    alloc: Global,
    ends: &[Way],
    behind: &[Vec<bool>],
    sets: &[u64],
    levels: &[usize],
    level: usize,
    stuck: &mut Vec<bool>,
) -> Result<Option<Vec<usize>>, AllocError>
    requires within { AreWithin (length sets.now) ends.now }
    requires size { length levels.now ≡ length sets.now }
    requires stuck { length stuck.old.items ≡ length sets.now }
    ensures stuck { length stuck.new.items ≡ length stuck.old.items }
    ensures next { IfOk result (λ found. IfSome found (λ next. IsRaised levels.now level next.items
        × AreUnmoved ends.now sets.now next.items × FollowTogether ends.now sets.now next.items level)) }
{
    for _try in 0..sets.len() {
        let Some(place) = least_place(behind, sets, levels, stuck.as_slice()) else {
            return Ok(None);
        };
        let next = raised(alloc, behind, levels, level, place)?;
        if follow_together(alloc, ends, sets, next.as_slice(), level)? {
            return Ok(Some(next));
        }
        mark_stuck(next.as_slice(), level, stuck);
    }
    Ok(None)
}

/// So many places that follow none.
pub(crate) fn no_levels(alloc: Global, count: usize) -> Result<Vec<usize>, AllocError>
    ensures { IfOk result (λ levels. (length levels.items ≡ count)
        × ((place : ℕ) → slice_index levels.items place ≡ 0)) }
{
    let mut levels = Vec::with_capacity(alloc, count)?;
    for _place in 0..count {
        levels.push(0)?;
    }
    Ok(levels)
}

/// For each place its level: 0, if it follows none; else those of one level follow together places of lower levels.
pub(crate) fn levels_of(alloc: Global, ends: &[Way], sets: &[u64]) -> Result<Vec<usize>, AllocError>
    requires { AreWithin (length sets.now) ends.now }
    ensures { IfOk result (λ levels. AreLevels ends.now sets.now levels.items) }
{
    let count = sets.len();
    let mut levels = no_levels(alloc, count)?;
    if are_single(sets) {
        return Ok(levels);
    }
    let behind = all_behind(alloc, ends, sets)?;
    let mut stuck = none_marked(alloc, count)?;
    for step in 0..count {
        match next_levels(
            alloc,
            ends,
            behind.as_slice(),
            sets,
            levels.as_slice(),
            count - step,
            &mut stuck,
        )? {
            Some(next) => levels = next,
            None => return Ok(levels),
        }
    }
    Ok(levels)
}
