//! The paths that routers may have if no rule lists their paths: along those that their peers may have, by rounds, the
//! shorter first.

ghost use Rattle.std.specs.Prelude.{◌≡◌, ◌↔◌, ◌<◌, ◌≤◌, ◌+◌, ◌⊎◌, ◌∷◌, ℕ, List, IsTrue, IfOk, IfErr, OnOk, length, map};
ghost use Rattle.std.specs.List.{All, Contains};
ghost use Rattle.ranked_policy.specs.Choosing.{chosen_permits};
ghost use Rattle.ranked_policy.specs.Plans.{numbers};
ghost use Rattle.ranked_policy.specs.declared.limits.TheConstants.{LONGEST_PATH};
ghost use Rattle.stable_search.specs.Listing.{IsOnly, IsBound, IsKept, LeadsOn, GoesOn, GoesOnOver, AreOnward, AddsOnce, HasMany, IsExtended, IsListing, AreListed};
ghost use Rattle.stable_search.specs.Reaching.{AreBounds};
ghost use Rattle.stable_search.specs.Refusals.{IsPathsRefusal};
ghost use Rattle.stable_search.specs.Seats.{IsSeat, StandsAt};
ghost use Rattle.stable_search.specs.declared.seat.Seat.{Seat};

use crate::refusal::SearchError;
use crate::seat::{Seat, add_once};
use ranked_policy::laws::{each_policy_is_an_order, the_longest_rule_is_one};
use ranked_policy::{Asn, LONGEST_PATH, MOST_PATHS, Network, Path};
use stable_paths::Instance;
use std::alloc::{AllocError, Global};

// The only path that a router may have; the empty path if it may have others.
fn only_path<'s>(seat: &'s Seat) -> &'s [Asn]
    ensures { IsOnly seat.now result.now }
{
    match seat.values.as_slice() {
        [path] if !seat.is_open => path.as_slice(),
        _ => &[],
    }
}

// The best path for a router to go on along, of those that a peer has in every stable assignment; the empty path if
// there is none.
fn bound_of<'s>(network: &Network, seats: &'s [Seat], it: &Seat) -> &'s [Asn]
    ensures { IsBound network.now.links seats.now it.now result.now }
{
    let mut bound: &[Asn] = &[];
    for peer in seats {
        let theirs = only_path(peer);
        if network.linked(it.router, peer.router)
            && it.policy.takes_onward(it.router, theirs, bound)
        {
            bound = theirs;
        }
    }
    bound
}

// Whether a router doesn't prefer its path along the bound, if there is one, to its path along `rest`.
fn is_kept(it: &Seat, bound: &[Asn], rest: &[Asn]) -> bool
    ensures { IsTrue result ↔ IsKept it.now bound.now (it.now.router ∷ rest.now) }
{
    bound.is_empty() || !it.policy.prefers_onward(it.router, bound, rest)
}

// Whether a path has so many routers, and the router permits its own path along it and doesn't prefer the one along the
// bound.
fn leads_on(it: &Seat, bound: &[Asn], rest: &[Asn], count: usize) -> bool
    ensures { IsTrue result ↔ LeadsOn it.now bound.now count rest.now }
{
    rest.len() == count && it.policy.permits_onward(it.router, rest) && is_kept(it, bound, rest)
}

// Adds the paths of a router along those of a peer that have so many routers, if it permits them and doesn't prefer the
// one along the bound.
fn put_along(
    alloc: Global,
    it: &Seat,
    bound: &[Asn],
    theirs: &[Path],
    count: usize,
    found: &mut Vec<Path>,
) -> Result<(), AllocError>
    ensures { OnOk result ((path : List ℕ) → (Contains found.new.items path
        ↔ Contains found.old.items path ⊎ GoesOn it.now bound.now theirs.now count path)) }
{
    for rest in theirs {
        if leads_on(it, bound, rest.as_slice(), count) {
            found.push(Path::from_router(alloc, it.router, rest.as_slice())?)?;
        }
    }
    Ok(())
}

// The paths of a router along those of so many routers that a peer may have, if it permits them and doesn't prefer the
// one along the bound.
fn onward(
    alloc: Global,
    network: &Network,
    seats: &[Seat],
    it: &Seat,
    bound: &[Asn],
    count: usize,
) -> Result<Vec<Path>, AllocError>
    ensures { IfOk result (λ found. (path : List ℕ) → (Contains found.items path
        ↔ GoesOnOver network.now.links seats.now it.now bound.now count path)) }
{
    let mut found = Vec::new(alloc);
    for peer in seats {
        if network.linked(it.router, peer.router) {
            put_along(alloc, it, bound, peer.values.as_slice(), count, &mut found)?;
        }
    }
    Ok(found)
}

// The paths of the router at a place along those of so many routers that its peers may have, but for those to which it
// prefers its path along the only path of a peer.
fn onward_at(
    alloc: Global,
    network: &Network,
    seats: &[Seat],
    place: usize,
    count: usize,
) -> Result<Vec<Path>, AllocError>
    requires { place < length seats.now }
    ensures { (it : Seat) → StandsAt seats.now place it
        → IfOk result (λ found. AreOnward network.now.links seats.now it count found.items) }
{
    let it = &seats[place];
    let bound = bound_of(network, seats, it);
    onward(alloc, network, seats, it, bound, count)
}

// Adds each of these paths that is missing.
fn add_each(alloc: Global, values: &mut Vec<Path>, paths: &[Path]) -> Result<(), AllocError>
    ensures { OnOk result (AddsOnce values.old.items paths.now values.new.items) }
{
    for path in paths {
        add_once(alloc, values, path)?;
    }
    Ok(())
}

// Adds these paths to those that a router may have. Refused if they are too many together.
fn extend(alloc: Global, seat: &mut Seat, paths: &[Path]) -> Result<(), SearchError>
    ensures extended { OnOk result (IsExtended seat.old paths.now seat.new) }
    ensures refused { IfErr result (λ why. ((why ≡ SearchError.TooManyPaths seat.old.router)
        × HasMany seat.old.values.items paths.now) ⊎ (why ≡ SearchError.Memory)) }
{
    add_each(alloc, &mut seat.values, paths)?;
    if seat.values.len() >= 2 * MOST_PATHS {
        return Err(SearchError::TooManyPaths {
            router: seat.router,
        });
    }
    Ok(())
}

// Adds the paths of the router at a place along those of peers that have so many routers, if its paths are found by
// rounds and may be so long.
fn list_at(
    alloc: Global,
    instance: &Instance,
    bounds: &[usize],
    seats: &mut Vec<Seat>,
    place: usize,
    count: usize,
) -> Result<(), SearchError>
    requires place { place < length seats.old.items }
    requires some { 0 < count }
    requires below { count < LONGEST_PATH }
    requires bounds { AreBounds instance.now bounds.now }
    requires listed { AreListed instance.now count place seats.old.items }
    ensures listed { OnOk result (AreListed instance.now count (place + 1) seats.new.items) }
    ensures refused { IfErr result (IsPathsRefusal instance.now) }
{
    each_policy_is_an_order();
    the_longest_rule_is_one();
    let network = instance.network();
    if !seats[place].is_open {
        return Ok(());
    }
    if bounds[place] <= count {
        return Ok(());
    }
    let found = onward_at(alloc, network, seats.as_slice(), place, count)?;
    extend(alloc, &mut seats[place], found.as_slice())?;
    Ok(())
}

// A round: adds each router's paths along those of its peers that have so many routers.
fn list_round(
    alloc: Global,
    instance: &Instance,
    bounds: &[usize],
    seats: &mut Vec<Seat>,
    count: usize,
) -> Result<(), SearchError>
    requires some { 0 < count }
    requires below { count < LONGEST_PATH }
    requires bounds { AreBounds instance.now bounds.now }
    requires listed { AreListed instance.now count 0 seats.old.items }
    ensures listed { OnOk result (AreListed instance.now (count + 1) 0 seats.new.items) }
    ensures refused { IfErr result (IsPathsRefusal instance.now) }
{
    for place in 0..seats.len() {
        list_at(alloc, instance, bounds, seats, place, count)?;
    }
    Ok(())
}

/// Finds the paths that routers may have if no rule lists their paths. It goes by rounds: the paths of two routers
/// first, then those of three, up to the longest; of each router only up to its bound, by place, since it has no longer
/// path in a stable assignment.
///
/// Refused with [`SearchError::TooManyPaths`] and the first router, by round and then by number, that may have 64 paths
/// or more, the empty one among them; with [`SearchError::Memory`] if a growth is refused.
pub(crate) fn list_open(
    alloc: Global,
    instance: &Instance,
    bounds: &[usize],
    seats: &mut Vec<Seat>,
) -> Result<(), SearchError>
    requires bounds { AreBounds instance.now bounds.now }
    requires routers { map (λ seat. seat.router) seats.old.items ≡ numbers instance.now.net.routers }
    requires seats { All (IsListing instance.now 1) seats.old.items }
    ensures routers { OnOk result (map (λ seat. seat.router) seats.new.items ≡ numbers instance.now.net.routers) }
    ensures seats { OnOk result (All (IsSeat instance.now) seats.new.items) }
    ensures refused { IfErr result (IsPathsRefusal instance.now) }
{
    each_policy_is_an_order();
    let _network = instance.network();
    for count in 1..LONGEST_PATH {
        list_round(alloc, instance, bounds, seats, count)?;
    }
    Ok(())
}
