//! Which paths of two peers fit each other.

ghost use Rattle.std.specs.Prelude.{◌≡◌, ◌↔◌, ◌<◌, ℕ, List, [], ◌∷◌, IsTrue, IfOk, OnOk, length, slice_index_or, map};
ghost use Rattle.std.specs.List.{All};
ghost use Rattle.ranked_policy.specs.Choosing.{chosen_permits, chosen_prefers};
ghost use Rattle.ranked_policy.specs.Paths.{BeginsWith};
ghost use Rattle.stable_search.specs.Picks.{Has};
ghost use Rattle.stable_search.specs.Seats.{FitsBy, FitsEnd, FitsBoth, MarksPermitted, SayWhatFits};
ghost use Rattle.stable_search.specs.Seats.{IsWayOf, HasWay, HasWaysFrom, AreWaysOf, SayWhatFitsEnd, IsEndOf, AreEndsOf};
ghost use Rattle.stable_search.specs.declared.seat.Seat.{Seat};

use crate::seat::Seat;
use crate::way::{Way, has};
use ranked_policy::{Asn, Chosen, Network, Path, is_onward};
use std::alloc::{AllocError, Global};

/// Whether a path goes on from the router over the peer.
pub(crate) fn is_over(path: &[Asn], router: Asn, peer: Asn) -> bool
    ensures { IsTrue result ↔ ((rest : List ℕ) × (path.now ≡ router ∷ peer ∷ rest)) }
{
    match path {
        [first, next, ..] => *first == router && *next == peer,
        _ => false,
    }
}

/// Whether a path of the router is preferred to the one that goes on along other numbers.
pub(crate) fn is_preferred(policy: &Chosen, path: &[Asn], router: Asn, rest: &[Asn]) -> bool
    ensures { IsTrue result ↔ (BeginsWith path.now router × chosen_prefers policy.now path.now (router ∷ rest.now)) }
{
    match path {
        [first, on @ ..] => *first == router && policy.prefers_onward(router, on, rest),
        [] => false,
    }
}

/// Whether a path of the router fits that of a peer, by the router's policy. `is_permitted` says whether the router
/// permits its path along the peer's.
pub(crate) fn fits_by(
    policy: &Chosen,
    router: Asn,
    peer: Asn,
    path: &[Asn],
    theirs: &[Asn],
    is_permitted: bool,
) -> bool
    requires { IsTrue is_permitted ↔ chosen_permits policy.now (router ∷ theirs.now) }
    ensures { IsTrue result ↔ FitsBy policy.now router peer path.now theirs.now }
{
    if is_onward(path, router, theirs) {
        return true;
    }
    !is_over(path, router, peer) && (!is_permitted || is_preferred(policy, path, router, theirs))
}

// Whether the path of a seat's router fits that of its peer.
fn fits_end(seat: &Seat, peer: Asn, path: &Path, theirs: &Path, is_permitted: bool) -> bool
    requires { IsTrue is_permitted ↔ chosen_permits seat.now.policy (seat.now.router ∷ theirs.now) }
    ensures { IsTrue result ↔ FitsEnd seat.now peer path.now theirs.now }
{
    seat.is_origin
        || fits_by(
            &seat.policy,
            seat.router,
            peer,
            path.as_slice(),
            theirs.as_slice(),
            is_permitted,
        )
}

// Whether the paths of two seats fit at both ends. `is_permitted` says whether the first router permits its path along
// the second's, `is_permitted_back` whether the second permits its path along the first's.
fn fits_both(
    one: &Seat,
    other: &Seat,
    path: &Path,
    theirs: &Path,
    is_permitted: bool,
    is_permitted_back: bool,
) -> bool
    requires there { IsTrue is_permitted ↔ chosen_permits one.now.policy (one.now.router ∷ theirs.now) }
    requires back { IsTrue is_permitted_back ↔ chosen_permits other.now.policy (other.now.router ∷ path.now) }
    ensures { IsTrue result ↔ FitsBoth one.now other.now path.now theirs.now }
{
    fits_end(one, other.router, path, theirs, is_permitted)
        && fits_end(other, one.router, theirs, path, is_permitted_back)
}

// Whether the router of a seat permits its path along this one.
fn permits_on(one: &Seat, path: &Path) -> bool
    ensures { IsTrue result ↔ chosen_permits one.now.policy (one.now.router ∷ path.now) }
{
    one.policy.permits_onward(one.router, path.as_slice())
}

// The values of the second seat along which the router of the first permits its path.
fn permitted(one: &Seat, other: &Seat) -> u64
    requires { length other.now.values.items < 64 }
    ensures { MarksPermitted one.now other.now result }
{
    let mut marks = 0;
    for (value, theirs) in other.values.as_slice().iter().enumerate() {
        if permits_on(one, theirs) {
            marks |= 1 << value;
        }
    }
    marks
}

// The values of the second seat that fit a path of the first. `marks` stand for those along which the first router
// permits its path; `is_permitted` says whether the second router permits its path along `path`.
fn fitting(one: &Seat, other: &Seat, path: &Path, marks: u64, is_permitted: bool) -> u64
    requires few { length other.now.values.items < 64 }
    requires marks { MarksPermitted one.now other.now marks }
    requires permitted { IsTrue is_permitted ↔ chosen_permits other.now.policy (other.now.router ∷ path.now) }
    ensures { (b : ℕ) → b < length other.now.values.items → (Has result b
        ↔ FitsBoth one.now other.now path.now (slice_index_or other.now.values.items b [])) }
{
    let mut fits = 0;
    for (value, theirs) in other.values.as_slice().iter().enumerate() {
        let is_onward = has(marks, value);
        if fits_both(one, other, path, theirs, is_onward, is_permitted) {
            fits |= 1 << value;
        }
    }
    fits
}

// For each value of the first seat, the values of the second that fit it.
fn what_fits(alloc: Global, one: &Seat, other: &Seat) -> Result<Vec<u64>, AllocError>
    requires one { length one.now.values.items < 64 }
    requires other { length other.now.values.items < 64 }
    ensures { IfOk result (λ fits. SayWhatFits one.now other.now fits.items) }
{
    let marks = permitted(one, other);
    let theirs = permitted(other, one);
    let mut fits = Vec::with_capacity(alloc, one.values.len())?;
    for (value, path) in one.values.as_slice().iter().enumerate() {
        fits.push(fitting(one, other, path, marks, has(theirs, value)))?;
    }
    Ok(fits)
}

// Adds the ways over the links of the router at a place.
fn add_ways(
    alloc: Global,
    network: &Network,
    seats: &[Seat],
    from: usize,
    ways: &mut Vec<Way>,
) -> Result<(), AllocError>
    requires from { from < length seats.now }
    requires few { All (λ seat. length seat.values.items < 64) seats.now }
    ensures each { All (IsWayOf network.now.links seats.now) ways.old.items
        → OnOk result (All (IsWayOf network.now.links seats.now) ways.new.items) }
    ensures kept { OnOk result ((one other : ℕ) → HasWay ways.old.items one other → HasWay ways.new.items one other) }
    ensures all { OnOk result (HasWaysFrom network.now.links seats.now ways.new.items from) }
{
    let one = &seats[from];
    for (to, other) in seats.iter().enumerate() {
        if network.linked(one.router, other.router) {
            let fits = what_fits(alloc, one, other)?;
            ways.push(Way { from, to, fits })?;
        }
    }
    Ok(())
}

/// The ways over all links, in both directions.
pub(crate) fn ways_between(
    alloc: Global,
    network: &Network,
    seats: &[Seat],
) -> Result<Vec<Way>, AllocError>
    requires few { All (λ seat. length seat.values.items < 64) seats.now }
    ensures { IfOk result (λ ways. AreWaysOf network.now.links seats.now ways.items) }
{
    let mut ways = Vec::new(alloc);
    for from in 0..seats.len() {
        add_ways(alloc, network, seats, from, &mut ways)?;
    }
    Ok(ways)
}

// The values of the second seat that fit a path of the first at the second router.
fn fitting_end(one: &Seat, other: &Seat, path: &Path) -> u64
    requires { length other.now.values.items < 64 }
    ensures { (b : ℕ) → b < length other.now.values.items → (Has result b
        ↔ FitsEnd other.now one.now.router (slice_index_or other.now.values.items b []) path.now) }
{
    let is_permitted = permits_on(other, path);
    let mut fits = 0;
    for (value, own) in other.values.as_slice().iter().enumerate() {
        if fits_end(other, one.router, own, path, is_permitted) {
            fits |= 1 << value;
        }
    }
    fits
}

// For each value of the first seat, the values of the second that fit it at the second router.
fn what_fits_end(alloc: Global, one: &Seat, other: &Seat) -> Result<Vec<u64>, AllocError>
    requires { length other.now.values.items < 64 }
    ensures { IfOk result (λ fits. SayWhatFitsEnd one.now other.now fits.items) }
{
    let mut fits = Vec::with_capacity(alloc, one.values.len())?;
    for path in one.values.as_slice() {
        fits.push(fitting_end(one, other, path))?;
    }
    Ok(fits)
}

// Adds the ends at the peers of the router at a place.
fn add_ends(
    alloc: Global,
    network: &Network,
    seats: &[Seat],
    from: usize,
    ends: &mut Vec<Way>,
) -> Result<(), AllocError>
    requires from { from < length seats.now }
    requires few { All (λ seat. length seat.values.items < 64) seats.now }
    ensures each { All (IsEndOf network.now.links seats.now) ends.old.items
        → OnOk result (All (IsEndOf network.now.links seats.now) ends.new.items) }
    ensures kept { OnOk result ((one other : ℕ) → HasWay ends.old.items one other → HasWay ends.new.items one other) }
    ensures all { OnOk result (HasWaysFrom network.now.links seats.now ends.new.items from) }
{
    let one = &seats[from];
    for (to, other) in seats.iter().enumerate() {
        if network.linked(one.router, other.router) {
            let fits = what_fits_end(alloc, one, other)?;
            ends.push(Way { from, to, fits })?;
        }
    }
    Ok(())
}

/// The ends of all links: for each path of the router at one place, which paths fit it at the other router.
pub(crate) fn ends_between(
    alloc: Global,
    network: &Network,
    seats: &[Seat],
) -> Result<Vec<Way>, AllocError>
    requires few { All (λ seat. length seat.values.items < 64) seats.now }
    ensures { IfOk result (λ ends. AreEndsOf network.now.links seats.now ends.items) }
{
    let mut ends = Vec::new(alloc);
    for from in 0..seats.len() {
        add_ends(alloc, network, seats, from, &mut ends)?;
    }
    Ok(ends)
}
