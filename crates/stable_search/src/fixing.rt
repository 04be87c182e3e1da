//! Routers that have one path in every stable assignment: the origin, and then, outwards from it, each router whose
//! best path over a fixed peer is better than any that another peer could bring.

ghost use Rattle.std.specs.Prelude.{◌≡◌, ◌<◌, ◌≤◌, ◌∷◌, ℕ, List, Option, Some, None, IsTrue, IfOk, IfSome, OnOk, MatchOption, length, map, slice_index, slice_index_or};
ghost use Rattle.std.specs.List.{All, Contains};
ghost use Rattle.ranked_policy.specs.Plans.{Linked, numbers};
ghost use Rattle.ranked_policy.specs.Choosing.{chosen_permits, chosen_prefers};
ghost use Rattle.ranked_policy.specs.Orders.{IsShorter};
ghost use Rattle.ranked_policy.specs.Paths.{BeginsWith};
ghost use Rattle.ranked_policy.specs.declared.limits.TheConstants.{LONGEST_PATH};
ghost use Rattle.stable_search.specs.Choosers.{IsChooser};
ghost use Rattle.stable_search.specs.Fixing.{AreDistances, IsFixed, AreFixed, IsBetterThanAny, HoldsOver, HoldsOverAll, IsOfferAt, IsOffered};
ghost use Rattle.stable_search.specs.Seats.{StandsAt};
ghost use Rattle.stable_search.specs.declared.chooser.Chooser.{Chooser};

use crate::chooser::Chooser;
use crate::relating::{fits_by, is_over, is_preferred};
use ranked_policy::laws::each_policy_is_an_order;
use ranked_policy::{Asn, Chosen, LONGEST_PATH, Network, Path};
use stable_paths::Instance;
use std::alloc::{AllocError, Global};

/// The fixed path at a place.
pub(crate) fn path_at(fixed: &[Option<Path>], place: usize) -> Option<&[Asn]>
    ensures { MatchOption result (slice_index_or fixed.now place None ≡ None)
        (λ path. slice_index_or fixed.now place None ≡ Some path.now) }
{
    match fixed.get(place) {
        Some(Some(path)) => Some(path.as_slice()),
        _ => None,
    }
}

// Whether the router permits its path over the peer at a place, and prefers it to its path over the best peer so far.
fn is_better_offer(it: &Chooser, fixed: &[Option<Path>], place: usize, best: Option<usize>) -> bool
    ensures { IsTrue result → (theirs : List ℕ) × (slice_index_or fixed.now place None ≡ Some theirs)
        × chosen_permits it.now.policy (it.now.router ∷ theirs) }
{
    let Some(theirs) = path_at(fixed, place) else {
        return false;
    };
    if !it.policy.permits_onward(it.router, theirs) {
        return false;
    }
    match best {
        Some(other) => is_better_than_at(it, fixed, theirs, other),
        None => true,
    }
}

// Whether the router prefers its path along `theirs` to its path over the peer at a place.
fn is_better_than_at(it: &Chooser, fixed: &[Option<Path>], theirs: &[Asn], place: usize) -> bool {
    match path_at(fixed, place) {
        Some(other) => it.policy.prefers_onward(it.router, theirs, other),
        None => true,
    }
}

/// The place of the peer with the best fixed path that the router permits.
pub(crate) fn best_peer(
    network: &Network,
    choosers: &[Chooser],
    fixed: &[Option<Path>],
    it: &Chooser,
) -> Option<usize>
    ensures { IfSome result (IsOfferAt network.now.links choosers.now fixed.now it.now) }
{
    let mut best = None;
    for (place, peer) in choosers.iter().enumerate() {
        if network.linked(it.router, peer.router) && is_better_offer(it, fixed, place, best) {
            best = Some(place);
        }
    }
    best
}

// The path over the peer with the best fixed path, or no path.
fn best_offer(
    alloc: Global,
    network: &Network,
    choosers: &[Chooser],
    fixed: &[Option<Path>],
    it: &Chooser,
) -> Result<Path, AllocError>
    ensures { IfOk result (IsOffered network.now.links choosers.now fixed.now it.now) }
{
    let Some(place) = best_peer(network, choosers, fixed, it) else {
        return Ok(Path::new(alloc));
    };
    match path_at(fixed, place) {
        Some(theirs) => Path::from_router(alloc, it.router, theirs),
        None => Ok(Path::new(alloc)),
    }
}

// Whether a listed path doesn't go over the peer, or the path of the router is better.
fn is_no_better(policy: &Chosen, router: Asn, peer: Asn, path: &[Asn], listed: &[Asn]) -> bool
    ensures { IsTrue result → (rest : List ℕ) → listed.now ≡ router ∷ peer ∷ rest
        → BeginsWith path.now router × chosen_prefers policy.now path.now listed.now }
{
    match listed {
        [_, on @ ..] => !is_over(listed, router, peer) || is_preferred(policy, path, router, on),
        [] => true,
    }
}

// Whether no listed path over the peer is as good as the path of the router.
fn is_before_each(policy: &Chosen, router: Asn, peer: Asn, path: &[Asn], paths: &[Path]) -> bool
    ensures { IsTrue result → (rest : List ℕ) → Contains paths.now (router ∷ peer ∷ rest)
        → BeginsWith path.now router × chosen_prefers policy.now path.now (router ∷ peer ∷ rest) }
{
    for listed in paths {
        if !is_no_better(policy, router, peer, path, listed.as_slice()) {
            return false;
        }
    }
    true
}

// Whether the path of a router without a rule comes before each path over the peer with at least so many routers from
// the peer on: it is shorter, or as short and over a lesser number.
fn is_shorter_than_any(router: Asn, peer: Asn, path: &[Asn], least: usize) -> bool
    ensures { IsTrue result → (rest : List ℕ) → BeginsWith rest peer → least ≤ length rest → length rest < LONGEST_PATH
        → BeginsWith path.now router × IsShorter path.now (router ∷ rest) }
{
    if least >= LONGEST_PATH {
        return true;
    }
    match path {
        [first, next, ..] => {
            *first == router && (path.len() <= least || path.len() == least + 1 && *next < peer)
        }
        _ => false,
    }
}

// Whether the path of the router is better than each path over the peer with at least so many routers from the peer on.
fn is_better_than_any(policy: &Chosen, router: Asn, peer: Asn, path: &[Asn], least: usize) -> bool
    ensures { IsTrue result → IsBetterThanAny policy.now router peer path.now least }
{
    match policy {
        Chosen::Only(_only) => false,
        Chosen::Ranked(rule) => is_before_each(policy, router, peer, path, rule.paths),
        Chosen::Shortest(_all) => is_shorter_than_any(router, peer, path, least),
    }
}

// Whether the path of the router fits what the peer at a place has in any stable assignment.
fn holds_over(
    it: &Chooser,
    peer: Asn,
    path: &[Asn],
    fixed: &[Option<Path>],
    place: usize,
    least: usize,
) -> bool
    ensures { IsTrue result
        → HoldsOver it.now.policy it.now.router peer path.now (slice_index_or fixed.now place None) least }
{
    match path_at(fixed, place) {
        Some(theirs) => {
            let is_permitted = it.policy.permits_onward(it.router, theirs);
            fits_by(&it.policy, it.router, peer, path, theirs, is_permitted)
        }
        None => is_better_than_any(&it.policy, it.router, peer, path, least),
    }
}

// Whether the path of the router fits what each peer has in any stable assignment.
fn holds_over_all(
    network: &Network,
    choosers: &[Chooser],
    distances: &[usize],
    fixed: &[Option<Path>],
    it: &Chooser,
    path: &[Asn],
) -> bool
    requires { length distances.now ≡ length choosers.now }
    ensures { IsTrue result → HoldsOverAll network.now.links choosers.now distances.now fixed.now it.now path.now }
{
    for (place, peer) in choosers.iter().enumerate() {
        if network.linked(it.router, peer.router)
            && !holds_over(it, peer.router, path, fixed, place, distances[place])
        {
            return false;
        }
    }
    true
}

// The path that a router has in every stable assignment, if it is seen to have one.
fn path_of(
    alloc: Global,
    instance: &Instance,
    choosers: &[Chooser],
    distances: &[usize],
    fixed: &[Option<Path>],
    it: &Chooser,
) -> Result<Option<Path>, AllocError>
    requires routers { map (λ it. it.router) choosers.now ≡ numbers instance.now.net.routers }
    requires choosers { All (IsChooser instance.now) choosers.now }
    requires distances { AreDistances instance.now choosers.now distances.now }
    requires fixed { AreFixed instance.now choosers.now fixed.now }
    requires chooser { IsChooser instance.now it.now }
    ensures { IfOk result (λ found. IfSome found (IsFixed instance.now it.now)) }
{
    each_policy_is_an_order();
    let network = instance.network();
    if it.is_origin {
        let path = Path::from_slice(alloc, &[it.router])?;
        return Ok(Some(path));
    }
    let path = best_offer(alloc, network, choosers, fixed, it)?;
    if holds_over_all(network, choosers, distances, fixed, it, path.as_slice()) {
        Ok(Some(path))
    } else {
        Ok(None)
    }
}

// The path that the router at a place has in every stable assignment, if it is seen to have one.
fn path_of_place(
    alloc: Global,
    instance: &Instance,
    choosers: &[Chooser],
    distances: &[usize],
    fixed: &[Option<Path>],
    place: usize,
) -> Result<Option<Path>, AllocError>
    requires routers { map (λ it. it.router) choosers.now ≡ numbers instance.now.net.routers }
    requires choosers { All (IsChooser instance.now) choosers.now }
    requires distances { AreDistances instance.now choosers.now distances.now }
    requires fixed { AreFixed instance.now choosers.now fixed.now }
    requires place { place < length choosers.now }
    ensures { (it : Chooser) → StandsAt choosers.now place it
        → IfOk result (λ found. IfSome found (IsFixed instance.now it)) }
{
    path_of(
        alloc,
        instance,
        choosers,
        distances,
        fixed,
        &choosers[place],
    )
}

// Fixes the path of the router at a place, if the router is seen now to have one, and answers whether it is.
fn fix(
    alloc: Global,
    instance: &Instance,
    choosers: &[Chooser],
    distances: &[usize],
    fixed: &mut Vec<Option<Path>>,
    place: usize,
) -> Result<bool, AllocError>
    requires routers { map (λ it. it.router) choosers.now ≡ numbers instance.now.net.routers }
    requires choosers { All (IsChooser instance.now) choosers.now }
    requires distances { AreDistances instance.now choosers.now distances.now }
    requires fixed { AreFixed instance.now choosers.now fixed.old.items }
    requires place { place < length choosers.now }
    ensures { OnOk result (AreFixed instance.now choosers.now fixed.new.items) }
{
    if fixed[place].is_some() {
        return Ok(false);
    }
    let path = path_of_place(
        alloc,
        instance,
        choosers,
        distances,
        fixed.as_slice(),
        place,
    )?;
    let is_found = path.is_some();
    fixed[place] = path;
    Ok(is_found)
}

// Fixes the routers that are seen to have one path, and answers whether there was one.
fn fix_each(
    alloc: Global,
    instance: &Instance,
    choosers: &[Chooser],
    distances: &[usize],
    fixed: &mut Vec<Option<Path>>,
) -> Result<bool, AllocError>
    requires routers { map (λ it. it.router) choosers.now ≡ numbers instance.now.net.routers }
    requires choosers { All (IsChooser instance.now) choosers.now }
    requires distances { AreDistances instance.now choosers.now distances.now }
    requires fixed { AreFixed instance.now choosers.now fixed.old.items }
    ensures { OnOk result (AreFixed instance.now choosers.now fixed.new.items) }
{
    let mut some = false;
    for place in 0..choosers.len() {
        some |= fix(alloc, instance, choosers, distances, fixed, place)?;
    }
    Ok(some)
}

/// For each router, the path that it has in every stable assignment, if it is seen to have one.
pub(crate) fn fixed_paths(
    alloc: Global,
    instance: &Instance,
    choosers: &[Chooser],
    distances: &[usize],
) -> Result<Vec<Option<Path>>, AllocError>
    requires routers { map (λ it. it.router) choosers.now ≡ numbers instance.now.net.routers }
    requires choosers { All (IsChooser instance.now) choosers.now }
    requires distances { AreDistances instance.now choosers.now distances.now }
    ensures { IfOk result (λ fixed. AreFixed instance.now choosers.now fixed.items) }
{
    let mut fixed = none_yet(alloc, choosers.len())?;
    for _round in 0..choosers.len() {
        if !fix_each(alloc, instance, choosers, distances, &mut fixed)? {
            break;
        }
    }
    Ok(fixed)
}

// `count` routers, none of which is fixed.
fn none_yet(alloc: Global, count: usize) -> Result<Vec<Option<Path>>, AllocError>
    ensures { IfOk result
        (λ fixed. (length fixed.items ≡ count) × ((place : ℕ) → slice_index_or fixed.items place None ≡ None)) }
{
    let mut fixed = Vec::with_capacity(alloc, count)?;
    for _place in 0..count {
        fixed.push(None)?;
    }
    Ok(fixed)
}
