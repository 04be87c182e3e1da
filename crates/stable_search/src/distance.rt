//! The least length of a router's path: over each link it has one router more.

ghost use Rattle.std.specs.Prelude.{◌≡◌, ◌≤◌, ◌<◌, ◌+◌, ℕ, IfOk, false, length, map, slice_index};
ghost use Rattle.std.specs.List.{All};
ghost use Rattle.ranked_policy.specs.Plans.{Linked, numbers};
ghost use Rattle.ranked_policy.specs.declared.limits.TheConstants.{LONGEST_PATH};
ghost use Rattle.stable_search.specs.Choosers.{IsChooser};
ghost use Rattle.stable_search.specs.Fixing.{AreFar, IsNear, AreDistances};
ghost use Rattle.stable_search.specs.Seats.{StandsAt};
ghost use Rattle.stable_search.specs.declared.chooser.Chooser.{Chooser};

use crate::chooser::Chooser;
use ranked_policy::laws::each_policy_is_an_order;
use ranked_policy::{Asn, LONGEST_PATH, Network};
use stable_paths::Instance;
use std::alloc::{AllocError, Global};

// Whether a peer of the router has at most this distance.
fn has_near_peer(
    network: &Network,
    choosers: &[Chooser],
    distances: &[usize],
    router: Asn,
    distance: usize,
) -> bool
    requires { length distances.now ≡ length choosers.now }
    ensures { result ≡ false → (place : ℕ) (peer : Chooser) → StandsAt choosers.now place peer
        → Linked network.now.links router peer.router → distance < slice_index distances.now place }
{
    for (place, peer) in choosers.iter().enumerate() {
        if distances[place] <= distance && network.linked(router, peer.router) {
            return true;
        }
    }
    false
}

// The distance of the router at a place, if all distances up to this one are known.
fn next_distance(
    network: &Network,
    choosers: &[Chooser],
    distances: &[usize],
    place: usize,
    distance: usize,
) -> usize
    requires size { length distances.now ≡ length choosers.now }
    requires place { place < length choosers.now }
    requires low { distance < LONGEST_PATH }
    ensures { (it : Chooser) → StandsAt choosers.now place it
        → IsNear network.now.links choosers.now distances.now it distance (slice_index distances.now place) result }
{
    let it = &choosers[place];
    let known = distances[place];
    if known > distance
        && (it.is_origin || has_near_peer(network, choosers, distances, it.router, distance))
    {
        distance + 1
    } else {
        known
    }
}

// The distances, if all up to the next one are known.
fn next_distances(
    alloc: Global,
    instance: &Instance,
    choosers: &[Chooser],
    distances: &[usize],
    distance: usize,
) -> Result<Vec<usize>, AllocError>
    requires routers { map (λ it. it.router) choosers.now ≡ numbers instance.now.net.routers }
    requires choosers { All (IsChooser instance.now) choosers.now }
    requires far { AreFar instance.now choosers.now distance distances.now }
    requires low { distance < LONGEST_PATH }
    ensures { IfOk result (λ next. AreFar instance.now choosers.now (distance + 1) next.items) }
{
    each_policy_is_an_order();
    let network = instance.network();
    let mut next = Vec::with_capacity(alloc, choosers.len())?;
    for place in 0..choosers.len() {
        next.push(next_distance(network, choosers, distances, place, distance))?;
    }
    Ok(next)
}

// `count` distances, each more than that of any router with a path.
fn none_known(alloc: Global, count: usize) -> Result<Vec<usize>, AllocError>
    ensures { IfOk result (λ distances. (length distances.items ≡ count)
        × ((place : ℕ) → place < count → slice_index distances.items place ≡ LONGEST_PATH + 1)) }
{
    let mut distances = Vec::with_capacity(alloc, count)?;
    for _place in 0..count {
        distances.push(LONGEST_PATH + 1)?;
    }
    Ok(distances)
}

/// For each router, how many routers its path has at least in a stable assignment: 1 at the origin, elsewhere one more
/// than at a peer.
pub(crate) fn distances(
    alloc: Global,
    instance: &Instance,
    choosers: &[Chooser],
) -> Result<Vec<usize>, AllocError>
    requires routers { map (λ it. it.router) choosers.now ≡ numbers instance.now.net.routers }
    requires choosers { All (IsChooser instance.now) choosers.now }
    ensures { IfOk result (λ distances. AreDistances instance.now choosers.now distances.items) }
{
    let mut distances = none_known(alloc, choosers.len())?;
    for distance in 0..LONGEST_PATH {
        distances = next_distances(alloc, instance, choosers, distances.as_slice(), distance)?;
    }
    Ok(distances)
}
