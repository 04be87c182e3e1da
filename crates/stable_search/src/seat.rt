//! Routers with what they may have in a stable assignment.

ghost use Rattle.std.specs.Prelude.{◌≡◌, ◌≢◌, ◌↔◌, ◌<◌, ◌⊎◌, ℕ, List, [], ◌∷◌, IsTrue, IfOk, IfErr, IfSome, IfNone, OnOk, length, map};
ghost use Rattle.std.specs.List.{All, AllPairs, Contains};
ghost use Rattle.ranked_policy.specs.Choosing.{chosen_permits};
ghost use Rattle.stable_search.specs.Choosers.{IsChooser};
ghost use Rattle.stable_search.specs.Fits.{GoesOver};
ghost use Rattle.stable_search.specs.Fixing.{IsFixed, AreFixed};
ghost use Rattle.stable_search.specs.Groups.{AreRoutersAt};
ghost use Rattle.stable_search.specs.Refusals.{IsPathsRefusal};
ghost use Rattle.stable_search.specs.Listing.{AreValuesBy, MayHaveMany, IsListing};
ghost use Rattle.stable_search.specs.Seats.{AreValuesOf};

use crate::chooser::Chooser;
use crate::refusal::SearchError;
use ranked_policy::laws::{each_policy_is_an_order, the_longest_rule_is_one};
use ranked_policy::{Asn, Chosen, MOST_PATHS, NetItems, Network, Path, Policy, is_listed};
use stable_paths::Instance;
use std::alloc::{AllocError, Global};

/// A router in a search.
#[derive(Debug, Drop)]
pub(crate) struct Seat<'a> {
    /// The router.
    pub(crate) router: Asn,
    /// Whether it originates the prefix.
    pub(crate) is_origin: bool,
    /// Its policy for the prefix.
    pub(crate) policy: Chosen<'a>,
    /// Whether its paths are found by rounds: it isn't the origin, no rule lists its paths, and it isn't seen to have
    /// only one.
    pub(crate) is_open: bool,
    /// The paths that it may have.
    pub(crate) values: Vec<Path>,
}

// Whether a path goes on from a router over one of its peers.
fn goes_over(network: &Network, router: Asn, path: &Path) -> bool
    ensures { IsTrue result ↔ GoesOver network.now.links router path.now }
{
    match path.as_slice() {
        [first, peer, ..] => *first == router && network.linked(router, *peer),
        _ => false,
    }
}

/// Adds a path, unless it is there already.
pub(crate) fn add_once(alloc: Global, values: &mut Vec<Path>, path: &Path) -> Result<(), AllocError>
    ensures exact { OnOk result ((other : List ℕ) → (Contains values.new.items other
        ↔ Contains values.old.items other ⊎ (path.now ≡ other))) }
    ensures distinct { OnOk result (AllPairs (λ one later. one ≢ later) values.old.items
        → AllPairs (λ one later. one ≢ later) values.new.items) }
{
    if !is_listed(values.as_slice(), path) {
        values.push(Path::from_slice(alloc, path.as_slice())?)?;
    }
    Ok(())
}

// Whether a path is permitted and goes on from the router over one of its peers.
fn may_stand(network: &Network, policy: &Chosen, router: Asn, path: &Path) -> bool
    ensures { IsTrue result ↔ (chosen_permits policy.now path.now × GoesOver network.now.links router path.now) }
{
    policy.permits(path) && goes_over(network, router, path)
}

// The paths of a list that are permitted and go on over a peer, each once, and then the empty path.
fn listed(
    alloc: Global,
    network: &Network,
    policy: &Chosen,
    router: Asn,
    paths: &[Path],
) -> Result<Vec<Path>, AllocError>
    ensures exact { IfOk result (λ values. (path : List ℕ) → (Contains values.items path ↔ (Contains paths.now path
        × chosen_permits policy.now path × GoesOver network.now.links router path) ⊎ ([] ≡ path))) }
    ensures distinct { IfOk result (λ values. AllPairs (λ path later. path ≢ later) values.items) }
{
    let mut values = Vec::new(alloc);
    for path in paths {
        if may_stand(network, policy, router, path) {
            add_once(alloc, &mut values, path)?;
        }
    }
    add_once(alloc, &mut values, &Path::new(alloc))?;
    Ok(values)
}

// The paths that a router other than the origin may have; none of the paths of its rule is left out. `None` if no rule
// lists its paths.
fn values_by(
    alloc: Global,
    network: &Network,
    policy: &Chosen,
    router: Asn,
) -> Result<Option<Vec<Path>>, SearchError>
    ensures values { IfOk result
        (λ found. IfSome found (λ values. AreValuesBy network.now.links policy.now router values.items)) }
    ensures refused { IfErr result (λ why. ((why ≡ SearchError.TooManyPaths router)
        × MayHaveMany network.now.links policy.now router) ⊎ (why ≡ SearchError.Memory)) }
{
    let Chosen::Ranked(ranked) = policy else {
        return Ok(None);
    };
    let values = listed(alloc, network, policy, router, ranked.paths)?;
    if values.len() >= 2 * MOST_PATHS {
        return Err(SearchError::TooManyPaths { router });
    }
    Ok(Some(values))
}

// A list of the path of these numbers.
fn one_path(alloc: Global, numbers: &[Asn]) -> Result<Vec<Path>, SearchError>
    ensures path { IfOk result (λ values. values.items ≡ numbers.now ∷ []) }
    ensures memory { IfErr result (λ why. why ≡ SearchError.Memory) }
{
    let path = Path::from_slice(alloc, numbers)?;
    Ok(vec![in alloc; path]?)
}

// The paths that a router may have: the one that it has in every stable assignment, if it is seen to have one, or all.
// `None` if it isn't the origin and no rule lists its paths.
fn values_of(
    alloc: Global,
    instance: &Instance,
    it: &Chooser,
    fixed: Option<&Path>,
) -> Result<Option<Vec<Path>>, SearchError>
    requires chooser { IsChooser instance.now it.now }
    requires fixed { IfSome fixed (λ path. IsFixed instance.now it.now path.now) }
    ensures values { IfOk result (λ found. IfSome found (λ values. AreValuesOf instance.now it.now values.items)) }
    ensures none { IfOk result (λ found. IfNone found (IsTrue it.now.is_origin → ⊥)) }
    ensures refused { IfErr result (IsPathsRefusal instance.now) }
{
    each_policy_is_an_order();
    the_longest_rule_is_one();
    let network = instance.network();
    if let Some(path) = fixed {
        let values = one_path(alloc, path.as_slice())?;
        return Ok(Some(values));
    }
    if it.is_origin {
        let own = one_path(alloc, &[it.router])?;
        return Ok(Some(own));
    }
    values_by(alloc, network, &it.policy, it.router)
}

// A router with these values.
fn seat_with<'a>(it: &Chooser<'a>, is_open: bool, values: Vec<Path>) -> Seat<'a>
    ensures { result ≡ record {
      router = it.now.router;
      is_origin = it.now.is_origin;
      policy = it.now.policy;
      is_open = is_open;
      values = values;
    } }
{
    Seat {
        router: it.router,
        is_origin: it.is_origin,
        policy: it.policy,
        is_open,
        values,
    }
}

// A router with the paths that it may have, or with the empty path if they are found by rounds.
fn seat_of<'a>(
    alloc: Global,
    instance: &Instance,
    it: &Chooser<'a>,
    fixed: Option<&Path>,
) -> Result<Seat<'a>, SearchError>
    requires chooser { IsChooser instance.now it.now }
    requires fixed { IfSome fixed (λ path. IsFixed instance.now it.now path.now) }
    ensures router { IfOk result (λ seat. seat.router ≡ it.now.router) }
    ensures seat { IfOk result (IsListing instance.now 1) }
    ensures refused { IfErr result (IsPathsRefusal instance.now) }
{
    each_policy_is_an_order();
    let _network = instance.network();
    let found = values_of(alloc, instance, it, fixed)?;
    let Some(values) = found else {
        let none = one_path(alloc, &[])?;
        return Ok(seat_with(it, true, none));
    };
    Ok(seat_with(it, false, values))
}

/// The routers of an instance with the paths that they may have, or with the empty path if these are found by rounds.
pub(crate) fn seats<'a>(
    alloc: Global,
    instance: &Instance,
    choosers: &[Chooser<'a>],
    fixed: &[Option<Path>],
) -> Result<Vec<Seat<'a>>, SearchError>
    requires choosers { All (IsChooser instance.now) choosers.now }
    requires fixed { AreFixed instance.now choosers.now fixed.now }
    ensures routers { IfOk result
        (λ seats. map (λ seat. seat.router) seats.items ≡ map (λ it. it.router) choosers.now) }
    ensures seats { IfOk result (λ seats. All (IsListing instance.now 1) seats.items) }
    ensures refused { IfErr result (IsPathsRefusal instance.now) }
{
    let mut seats = Vec::with_capacity(alloc, choosers.len())?;
    for (place, it) in choosers.iter().enumerate() {
        seats.push(seat_of(alloc, instance, it, fixed[place].as_ref())?)?;
    }
    Ok(seats)
}

/// The routers at these places.
pub(crate) fn routers_at(
    alloc: Global,
    seats: &[Seat],
    places: &[usize],
) -> Result<NetItems<Asn>, AllocError>
    requires { All (λ place. place < length seats.now) places.now }
    ensures { IfOk result (AreRoutersAt seats.now places.now) }
{
    let mut routers = Vec::with_capacity(alloc, places.len())?;
    for place in places {
        routers.push(seats[*place].router)?;
    }
    Ok(NetItems::from_vec(routers))
}
