//! The greatest length of a router's path, where it surely has one: that of its fixed path; of the paths of its rule, if
//! a peer surely offers one of them; without a rule one router more than at a peer that surely has a path.

ghost use Rattle.std.specs.Prelude.{◌≡◌, ◌≤◌, ◌<◌, ◌+◌, ◌⊎◌, ℕ, IfOk, IfSome, IsTrue, OnOk, length, map, slice_index, slice_index_or, Some, None};
ghost use Rattle.std.specs.List.{All};
ghost use Rattle.ranked_policy.specs.Paths.{EndsWith};
ghost use Rattle.ranked_policy.specs.Plans.{Linked, numbers};
ghost use Rattle.ranked_policy.specs.declared.limits.TheConstants.{LONGEST_PATH};
ghost use Rattle.stable_search.specs.Choosers.{IsChooser};
ghost use Rattle.stable_search.specs.Fixing.{AreFixed};
ghost use Rattle.stable_search.specs.Reaching.{AreReaches, IsRankedTo, IsRuled, IsFirstReach, IsShortestTo, IsNextReach, AreBounds};
ghost use Rattle.stable_search.specs.Seats.{StandsAt};
ghost use Rattle.stable_search.specs.declared.chooser.Chooser.{Chooser};

use crate::chooser::Chooser;
use crate::fixing::{best_peer, path_at};
use ranked_policy::laws::each_policy_is_an_order;
use ranked_policy::{Asn, Chosen, LONGEST_PATH, Network, Path};
use stable_paths::Instance;
use std::alloc::{AllocError, Global};

// Where nothing is known of a router's path.
const UNKNOWN: usize = LONGEST_PATH + 1;

// The origin of the prefix, if it is seen.
fn origin_of(choosers: &[Chooser]) -> Option<Asn> {
    for it in choosers {
        if it.is_origin {
            return Some(it.router);
        }
    }
    None
}

// The most routers that one of these paths has.
fn longest_of(paths: &[Path]) -> usize
    ensures { All (λ path. length path ≤ result) paths.now }
{
    let mut longest = 0;
    for path in paths {
        longest = longest.max(path.len());
    }
    longest
}

// Whether a path ends with the origin.
fn ends_with(path: &[Asn], origin: Asn) -> bool
    ensures { IsTrue result → EndsWith path.now origin }
{
    match path {
        [.., last] => *last == origin,
        [] => false,
    }
}

// Whether the router has no rule for the prefix of this origin.
fn is_shortest_to(policy: &Chosen, router: Asn, origin: Asn) -> bool
    ensures { IsTrue result → IsShortestTo policy.now router origin }
{
    match policy {
        Chosen::Only(_only) => false,
        Chosen::Ranked(_rule) => false,
        Chosen::Shortest(all) => all.router == router && all.origin == Some(origin),
    }
}

// The most routers of a path of the rule, for the prefix of this origin.
fn longest_to(policy: &Chosen, origin: Asn) -> usize
    ensures { (LONGEST_PATH < result) ⊎ IsRankedTo policy.now origin result }
{
    match policy {
        Chosen::Only(_only) => UNKNOWN,
        Chosen::Ranked(rule) => {
            if rule.origin == Some(origin) {
                longest_of(rule.paths)
            } else {
                UNKNOWN
            }
        }
        Chosen::Shortest(_all) => UNKNOWN,
    }
}

// How many routers a path has, if it ends with the origin.
fn reach_of(path: &[Asn], origin: Asn) -> usize
    ensures { (LONGEST_PATH < result) ⊎ (EndsWith path.now origin × (result ≡ length path.now)) }
{
    if ends_with(path, origin) {
        path.len()
    } else {
        UNKNOWN
    }
}

// The most routers of the path of a router by its rule, if a path of the rule is surely offered.
fn reach_by_rule(
    network: &Network,
    choosers: &[Chooser],
    fixed: &[Option<Path>],
    origin: Asn,
    it: &Chooser,
) -> usize
    ensures { (LONGEST_PATH < result) ⊎ IsRuled network.now.links choosers.now fixed.now origin it.now result }
{
    if it.is_origin {
        return UNKNOWN;
    }
    match best_peer(network, choosers, fixed, it) {
        Some(_place) => longest_to(&it.policy, origin),
        None => UNKNOWN,
    }
}

// The most routers of the path of the router at a place, by its fixed path or by its rule.
fn first_reach(
    network: &Network,
    choosers: &[Chooser],
    fixed: &[Option<Path>],
    origin: Asn,
    place: usize,
) -> usize
    requires { place < length choosers.now }
    ensures { (it : Chooser) → StandsAt choosers.now place it
        → IsFirstReach network.now.links choosers.now fixed.now origin place it result }
{
    match path_at(fixed, place) {
        Some(path) => reach_of(path, origin),
        None => reach_by_rule(network, choosers, fixed, origin, &choosers[place]),
    }
}

// The most routers of each router's path, by its fixed path or by its rule.
fn first_reaches(
    alloc: Global,
    instance: &Instance,
    choosers: &[Chooser],
    fixed: &[Option<Path>],
    origin: Asn,
) -> Result<Vec<usize>, AllocError>
    requires routers { map (λ it. it.router) choosers.now ≡ numbers instance.now.net.routers }
    requires choosers { All (IsChooser instance.now) choosers.now }
    requires fixed { AreFixed instance.now choosers.now fixed.now }
    ensures { IfOk result (λ reaches. AreReaches instance.now choosers.now origin reaches.items) }
{
    each_policy_is_an_order();
    let network = instance.network();
    let mut reaches = Vec::with_capacity(alloc, choosers.len())?;
    for place in 0..choosers.len() {
        reaches.push(first_reach(network, choosers, fixed, origin, place))?;
    }
    Ok(reaches)
}

// The least that is known of the peers of a router.
fn least_of_peers(network: &Network, choosers: &[Chooser], reaches: &[usize], router: Asn) -> usize
    requires { length reaches.now ≡ length choosers.now }
    ensures most { result ≤ LONGEST_PATH + 1 }
    ensures peer { (result ≡ LONGEST_PATH + 1) ⊎ ((place : ℕ) × (peer : Chooser) × StandsAt choosers.now place peer
        × Linked network.now.links router peer.router × (result ≡ slice_index reaches.now place)) }
{
    let mut least = UNKNOWN;
    for (place, peer) in choosers.iter().enumerate() {
        if reaches[place] < least && network.linked(router, peer.router) {
            least = reaches[place];
        }
    }
    least
}

// What is known of the router at a place, if so much is known of its peers.
fn next_reach(
    network: &Network,
    choosers: &[Chooser],
    origin: Asn,
    reaches: &[usize],
    place: usize,
) -> usize
    requires size { length reaches.now ≡ length choosers.now }
    requires place { place < length choosers.now }
    ensures { (it : Chooser) → StandsAt choosers.now place it
        → IsNextReach network.now.links choosers.now origin reaches.now it (slice_index reaches.now place) result }
{
    let it = &choosers[place];
    let known = reaches[place];
    if it.is_origin || !is_shortest_to(&it.policy, it.router, origin) {
        return known;
    }
    let over = least_of_peers(network, choosers, reaches, it.router);
    if over < known { over + 1 } else { known }
}

// Learns of each router what follows from what is known of its peers.
fn next_reaches(instance: &Instance, choosers: &[Chooser], origin: Asn, reaches: &mut Vec<usize>)
    requires routers { map (λ it. it.router) choosers.now ≡ numbers instance.now.net.routers }
    requires choosers { All (IsChooser instance.now) choosers.now }
    requires reaches { AreReaches instance.now choosers.now origin reaches.old.items }
    ensures { AreReaches instance.now choosers.now origin reaches.new.items }
{
    each_policy_is_an_order();
    let network = instance.network();
    for place in 0..choosers.len() {
        reaches[place] = next_reach(network, choosers, origin, reaches.as_slice(), place);
    }
}

/// By the places of the routers, the most routers that a path has in a stable assignment; more than
/// [`LONGEST_PATH`] where that isn't known.
pub(crate) fn reaches(
    alloc: Global,
    instance: &Instance,
    choosers: &[Chooser],
    fixed: &[Option<Path>],
) -> Result<Vec<usize>, AllocError>
    requires routers { map (λ it. it.router) choosers.now ≡ numbers instance.now.net.routers }
    requires choosers { All (IsChooser instance.now) choosers.now }
    requires fixed { AreFixed instance.now choosers.now fixed.now }
    ensures { IfOk result (λ bounds. AreBounds instance.now bounds.items) }
{
    each_policy_is_an_order();
    let _network = instance.network();
    let origin = origin_of(choosers).unwrap_or(0);
    let mut reaches = first_reaches(alloc, instance, choosers, fixed, origin)?;
    for _round in 1..LONGEST_PATH {
        next_reaches(instance, choosers, origin, &mut reaches);
    }
    Ok(reaches)
}
