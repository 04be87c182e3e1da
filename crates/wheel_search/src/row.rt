//! The routers of an instance, each with its paths.

ghost use Rattle.std.specs.Prelude.{◌≡◌, ◌↔◌, ◌≤◌, ◌<◌, ◌∷◌, [], ℕ, List, IfOk, IsTrue, MatchOption, length};
ghost use Rattle.std.specs.List.{Any};
ghost use Rattle.ranked_policy.specs.Plans.{IsRouter};
ghost use Rattle.wheel_search.specs.Found.{HasNoRule};
ghost use Rattle.wheel_search.specs.Lists.{AreLevels, number_at, walks_to};
ghost use Rattle.wheel_search.specs.Rows.{IsSeat, AreSeats, IsRow, IsWhole, AreRows, IsRanked, IsFreeKind, IsWithin, GoesWithin, AreWithin, OwnPaths, listed};

use crate::listing::joined;
use ranked_policy::laws::{each_policy_is_an_order, policies_are_tests, the_longest_rule_is_one};
use ranked_policy::{Asn, NetItems, Path};
use stable_paths::Instance;
use std::alloc::{AllocError, Global};

/// What a router permits for a prefix.
#[derive(Clone, Copy, Debug)]
pub(crate) enum Kind<'a> {
    /// The path of itself alone: it originates the prefix.
    Origin,
    /// These paths of its rule, the best first, if they end at the origin.
    Ranked(&'a [Path]),
    /// Every route to the origin, the shorter first: it has no rule.
    Free,
}

/// A router, and what it permits for a prefix.
#[derive(Clone, Copy, Debug)]
pub(crate) struct Seat<'a> {
    /// The router.
    pub(crate) router: Asn,
    /// What it permits.
    pub(crate) kind: Kind<'a>,
}

/// A router with paths, the best first. All that are feasible are among them; of a router without a rule, those that
/// another path can wait for.
#[derive(Debug, Drop)]
pub(crate) struct Row<'a> {
    /// The router, and what it permits.
    pub(crate) seat: Seat<'a>,
    /// The path of itself alone, which an origin has; or the paths of a router without a rule.
    pub(crate) own: Vec<Path>,
}

impl Row<'_> {
    ghost use Rattle.std.specs.Prelude.{◌≡◌};
    ghost use Rattle.wheel_search.specs.Rows.{paths_of};

    /// The paths.
    pub(crate) fn paths(&self) -> &[Path]
        ensures { result.now ≡ paths_of self.now }
    {
        match &self.seat.kind {
            Kind::Ranked(paths) => paths,
            Kind::Origin | Kind::Free => self.own.as_slice(),
        }
    }
}

// What a router permits.
fn kind_of<'a>(instance: &Instance<'a>, router: Asn) -> Kind<'a>
    requires { IsRouter instance.now.net.routers router }
    ensures { IsSeat instance.now (record { router = router; kind = result }) }
{
    let network = instance.network();
    let table = network.policies(router).unwrap();
    if network.is_origin(router, instance.prefix()) {
        return Kind::Origin;
    }
    match table.rule(instance.prefix()) {
        Some(rule) => Kind::Ranked(rule.paths.as_slice()),
        None => Kind::Free,
    }
}

/// The routers of an instance, by rising number.
pub(crate) fn seats<'a>(alloc: Global, instance: &Instance<'a>) -> Result<Vec<Seat<'a>>, AllocError>
    ensures { IfOk result (λ seats. AreSeats instance.now seats.items) }
{
    let network = instance.network();
    let mut seats = Vec::with_capacity(alloc, network.routers().len())?;
    for router in network.routers() {
        let kind = kind_of(instance, router.asn);
        seats.push(Seat {
            router: router.asn,
            kind,
        })?;
    }
    Ok(seats)
}

/// Whether a rule lists the router's paths.
pub(crate) fn is_ranked(seat: &Seat) -> bool
    ensures { IsTrue result ↔ IsRanked seat.now.kind }
{
    match seat.kind {
        Kind::Ranked(_paths) => true,
        Kind::Origin | Kind::Free => false,
    }
}

/// Whether the router permits every route to the origin.
pub(crate) fn is_free(seat: &Seat) -> bool
    ensures { IsTrue result ↔ IsFreeKind seat.now.kind }
{
    match seat.kind {
        Kind::Free => true,
        Kind::Origin | Kind::Ranked(_) => false,
    }
}

/// Whether a rule lists the paths of some router.
pub(crate) fn some_ranked(seats: &[Seat]) -> bool
    ensures { IsTrue result ↔ Any (λ seat. IsRanked seat.kind) seats.now }
{
    for seat in seats {
        if is_ranked(seat) {
            return true;
        }
    }
    false
}

// Whether some router permits every route to the origin.
fn some_free(seats: &[Seat]) -> bool
    ensures { IsTrue result ↔ Any (λ seat. IsFreeKind seat.kind) seats.now }
{
    for seat in seats {
        if is_free(seat) {
            return true;
        }
    }
    false
}

// Whether a router has no rule, and is not the origin.
fn is_free_at(instance: &Instance, seats: &[Seat], router: Asn) -> bool
    requires { AreSeats instance.now seats.now }
    ensures { HasNoRule instance.now router → IsTrue result }
{
    each_policy_is_an_order();
    policies_are_tests();
    the_longest_rule_is_one();
    match instance.network().place(router) {
        Some(place) => is_free(&seats[place]),
        None => false,
    }
}

// How many routers the rest of a path has, if it begins with a router without a rule.
fn free_rest(instance: &Instance, seats: &[Seat], path: &[Asn]) -> usize
    requires { AreSeats instance.now seats.now }
    ensures { (u v : ℕ) (rest : List ℕ) → path.now ≡ u ∷ v ∷ rest → IsWithin instance.now result v (v ∷ rest) }
{
    let [_first, peer, ..] = path else {
        return 0;
    };
    if !is_free_at(instance, seats, *peer) {
        return 0;
    }
    path.len() - 1
}

// The greatest of a number and those of routers that rests of these paths have which begin with a router without a
// rule.
fn reach(instance: &Instance, seats: &[Seat], router: Asn, paths: &[Path], least: usize) -> usize
    requires { AreSeats instance.now seats.now }
    ensures within { GoesWithin instance.now result router paths.now }
    ensures least { least ≤ result }
{
    let mut longest = least;
    for path in paths {
        let rest = free_rest(instance, seats, path.as_slice());
        if rest > longest {
            longest = rest;
        }
    }
    longest
}

// The paths of a router's rule.
fn rule_paths<'a>(seat: &Seat<'a>) -> &'a [Path]
    ensures { result.now ≡ listed seat.now.kind [] }
{
    match seat.kind {
        Kind::Ranked(paths) => paths,
        Kind::Origin | Kind::Free => &[],
    }
}

/// How many routers the longest path of a router without a rule has by which a path of a rule goes on.
pub(crate) fn longest_rest(instance: &Instance, seats: &[Seat]) -> usize
    requires { AreSeats instance.now seats.now }
    ensures { AreWithin instance.now result seats.now }
{
    each_policy_is_an_order();
    policies_are_tests();
    the_longest_rule_is_one();
    let _network = instance.network();
    let mut longest = 0;
    if !some_free(seats) {
        return longest;
    }
    for seat in seats {
        longest = reach(instance, seats, seat.router, rule_paths(seat), longest);
    }
    longest
}

// The paths of a router other than those of a rule.
fn own_paths(
    alloc: Global,
    instance: &Instance,
    levels: &[NetItems<NetItems<Path>>],
    seat: &Seat,
    place: usize,
) -> Result<Vec<Path>, AllocError>
    requires levels { AreLevels instance.now levels.now }
    requires place { place < length instance.now.net.routers }
    requires here { number_at instance.now place ≡ seat.now.router }
    ensures { IfOk result (λ own. OwnPaths instance.now (length levels.now) seat.now own.items) }
{
    if is_free(seat) {
        return joined(alloc, instance, levels, place);
    }
    let mut own = Vec::new(alloc);
    own.push(Path::from_slice(alloc, &[seat.router])?)?;
    Ok(own)
}

// The paths of a router.
fn row_of<'a>(
    alloc: Global,
    instance: &Instance,
    levels: &[NetItems<NetItems<Path>>],
    seat: &Seat<'a>,
    place: usize,
) -> Result<Row<'a>, AllocError>
    requires levels { AreLevels instance.now levels.now }
    requires place { place < length instance.now.net.routers }
    requires here { number_at instance.now place ≡ seat.now.router }
    requires seat { IsSeat instance.now seat.now }
    requires within { GoesWithin instance.now (length levels.now) seat.now.router (listed seat.now.kind []) }
    ensures seat { IfOk result (λ row. row.seat ≡ seat.now) }
    ensures row { IfOk result (IsRow instance.now) }
    ensures whole { IfOk result (IsWhole instance.now (length levels.now)) }
{
    each_policy_is_an_order();
    policies_are_tests();
    the_longest_rule_is_one();
    let _network = instance.network();
    let own = own_paths(alloc, instance, levels, seat, place)?;
    Ok(Row { seat: *seat, own })
}

/// The routers with their paths.
pub(crate) fn rows<'a>(
    alloc: Global,
    instance: &Instance,
    seats: &[Seat<'a>],
    levels: &[NetItems<NetItems<Path>>],
) -> Result<Vec<Row<'a>>, AllocError>
    requires seats { AreSeats instance.now seats.now }
    requires levels { AreLevels instance.now levels.now }
    requires within { AreWithin instance.now (length levels.now) seats.now }
    ensures { IfOk result (λ rows. AreRows instance.now rows.items) }
{
    let mut rows = Vec::with_capacity(alloc, seats.len())?;
    for (place, seat) in seats.iter().enumerate() {
        let row = row_of(alloc, instance, levels, seat, place)?;
        rows.push(row)?;
    }
    Ok(rows)
}
