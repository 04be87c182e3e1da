//! The feasible paths of routers, the shorter first: each is its router in front of a feasible path of a peer.

ghost use Rattle.std.specs.Prelude.{◌≡◌, ◌↔◌, ◌<◌, ◌+◌, ◌++◌, ◌∷◌, [], ℕ, List, IfOk, IfErr, OnOk, IsTrue, length};
ghost use Rattle.std.specs.List.{All};
ghost use Rattle.ranked_policy.specs.Plans.{IsRouter};
ghost use Rattle.dispute_wheels.specs.Tests.{is_feasible};
ghost use Rattle.wheel_search.specs.Found.{IsOverfull};
ghost use Rattle.wheel_search.specs.Lists.{IsChosen, IsRest, AreLevels, kept, onward, walks, walks_to, level, number_at};
ghost use Rattle.wheel_search.specs.Rows.{AreSeats};

use crate::refusal::WheelError;
use crate::row::{Seat, is_free};
use ranked_policy::laws::{each_policy_is_an_order, policies_are_tests, the_longest_rule_is_one};
use ranked_policy::{Asn, Chosen, NetItems, Path};
use stable_paths::Instance;
use std::alloc::{AllocError, Global};

// The policy of a router for the prefix.
fn policy_of<'a>(instance: &Instance<'a>, router: Asn) -> Chosen<'a>
    requires { IsRouter instance.now.net.routers router }
    ensures { IsChosen instance.now router result }
{
    let network = instance.network();
    let table = network.policies(router).unwrap();
    table.for_prefix(instance.prefix())
}

// Whether the path of a router that goes on by a peer's path, or by none, is feasible.
fn is_kept(instance: &Instance, policy: &Chosen, router: Asn, rest: &[Asn]) -> bool
    requires policy { IsChosen instance.now router policy.now }
    requires rest { IsRest instance.now router rest.now }
    ensures { result ≡ is_feasible instance.now.net instance.now.prefix (router ∷ rest.now) }
{
    each_policy_is_an_order();
    policies_are_tests();
    let _network = instance.network();
    policy.permits_onward(router, rest)
}

// Appends the feasible paths of a router that go on by these of a peer.
fn put_onward(
    alloc: Global,
    instance: &Instance,
    policy: &Chosen,
    router: Asn,
    rests: &[Path],
    out: &mut Vec<Path>,
) -> Result<(), AllocError>
    requires policy { IsChosen instance.now router policy.now }
    requires rests { All (IsRest instance.now router) rests.now }
    ensures { OnOk result
        (out.new.items ≡ out.old.items ++ onward instance.now.net instance.now.prefix router rests.now) }
{
    for rest in rests {
        if is_kept(instance, policy, router, rest.as_slice()) {
            out.push(Path::from_router(alloc, router, rest.as_slice())?)?;
        }
    }
    Ok(())
}

// The feasible path of a router alone, if there is one.
fn alone(alloc: Global, instance: &Instance, router: Asn) -> Result<NetItems<Path>, AllocError>
    requires { IsRouter instance.now.net.routers router }
    ensures { IfOk result (λ paths. paths ≡ walks instance.now.net instance.now.prefix 0 router) }
{
    let policy = policy_of(instance, router);
    let mut out = Vec::new(alloc);
    put_onward(
        alloc,
        instance,
        &policy,
        router,
        &[Path::new(alloc)],
        &mut out,
    )?;
    Ok(NetItems::from_vec(out))
}

// The feasible paths of a router with one router more than the last of those at hand.
fn longer(
    alloc: Global,
    instance: &Instance,
    seats: &[Seat],
    levels: &[NetItems<NetItems<Path>>],
    router: Asn,
) -> Result<NetItems<Path>, AllocError>
    requires seats { AreSeats instance.now seats.now }
    requires levels { AreLevels instance.now levels.now }
    requires some { 0 < length levels.now }
    requires router { IsRouter instance.now.net.routers router }
    ensures { IfOk result (λ paths. paths ≡ walks instance.now.net instance.now.prefix (length levels.now) router) }
{
    each_policy_is_an_order();
    policies_are_tests();
    let network = instance.network();
    let policy = policy_of(instance, router);
    let last = levels[levels.len() - 1].as_slice();
    let mut out = Vec::new(alloc);
    for (place, seat) in seats.iter().enumerate() {
        if network.linked(router, seat.router) {
            let rests = last[place].as_slice();
            put_onward(alloc, instance, &policy, router, rests, &mut out)?;
        }
    }
    Ok(NetItems::from_vec(out))
}

// The feasible paths of a router of the next length.
fn next_paths(
    alloc: Global,
    instance: &Instance,
    seats: &[Seat],
    levels: &[NetItems<NetItems<Path>>],
    router: Asn,
) -> Result<NetItems<Path>, AllocError>
    requires seats { AreSeats instance.now seats.now }
    requires levels { AreLevels instance.now levels.now }
    requires router { IsRouter instance.now.net.routers router }
    ensures { IfOk result (λ paths. paths ≡ walks instance.now.net instance.now.prefix (length levels.now) router) }
{
    if levels.is_empty() {
        alone(alloc, instance, router)
    } else {
        longer(alloc, instance, seats, levels, router)
    }
}

// Whether the router at a place has more paths than this, with so many besides.
fn is_over(
    instance: &Instance,
    levels: &[NetItems<NetItems<Path>>],
    place: usize,
    besides: usize,
    most: usize,
) -> bool
    requires levels { AreLevels instance.now levels.now }
    requires place { place < length instance.now.net.routers }
    ensures { IsTrue result ↔ most < length (walks_to instance.now.net instance.now.prefix (length levels.now)
        (number_at instance.now place)) + besides }
{
    let _network = instance.network();
    if besides > most {
        return true;
    }
    let mut room = most - besides;
    for level in levels {
        let count = level.as_slice()[place].len();
        if count > room {
            return true;
        }
        room -= count;
    }
    false
}

// The feasible paths of each router of the next length, unless a router without a rule has more than this.
fn next_level(
    alloc: Global,
    instance: &Instance,
    seats: &[Seat],
    levels: &[NetItems<NetItems<Path>>],
    most: usize,
) -> Result<NetItems<NetItems<Path>>, WheelError>
    requires seats { AreSeats instance.now seats.now }
    requires levels { AreLevels instance.now levels.now }
    ensures level { IfOk result
        (λ found. found ≡ level instance.now.net instance.now.prefix (length levels.now)) }
    ensures refused { IfErr result (IsOverfull instance.now most) }
{
    each_policy_is_an_order();
    policies_are_tests();
    the_longest_rule_is_one();
    let _network = instance.network();
    let mut out = Vec::with_capacity(alloc, seats.len())?;
    for (place, seat) in seats.iter().enumerate() {
        let router = seat.router;
        let paths = next_paths(alloc, instance, seats, levels, router)?;
        if is_free(seat) && is_over(instance, levels, place, paths.len(), most) {
            return Err(WheelError::UnlistedPaths { router });
        }
        out.push(paths)?;
    }
    Ok(NetItems::from_vec(out))
}

/// The feasible paths of each router, length by length, up to so many routers; unless a router without a rule has more
/// than `most`.
pub(crate) fn levels(
    alloc: Global,
    instance: &Instance,
    seats: &[Seat],
    longest: usize,
    most: usize,
) -> Result<Vec<NetItems<NetItems<Path>>>, WheelError>
    requires { AreSeats instance.now seats.now }
    ensures levels { IfOk result (λ levels. AreLevels instance.now levels.items) }
    ensures size { IfOk result (λ levels. length levels.items ≡ longest) }
    ensures refused { IfErr result (IsOverfull instance.now most) }
{
    let mut levels = Vec::with_capacity(alloc, longest)?;
    for _length in 0..longest {
        let level = next_level(alloc, instance, seats, levels.as_slice(), most)?;
        levels.push(level)?;
    }
    Ok(levels)
}

// Appends copies of paths.
fn put_copies(alloc: Global, paths: &[Path], out: &mut Vec<Path>) -> Result<(), AllocError>
    ensures { OnOk result (out.new.items ≡ out.old.items ++ paths.now) }
{
    for path in paths {
        out.push(Path::from_slice(alloc, path.as_slice())?)?;
    }
    Ok(())
}

/// The feasible paths of the router at a place, the shorter first.
pub(crate) fn joined(
    alloc: Global,
    instance: &Instance,
    levels: &[NetItems<NetItems<Path>>],
    place: usize,
) -> Result<Vec<Path>, AllocError>
    requires levels { AreLevels instance.now levels.now }
    requires place { place < length instance.now.net.routers }
    ensures { IfOk result (λ paths. paths.items
        ≡ walks_to instance.now.net instance.now.prefix (length levels.now) (number_at instance.now place)) }
{
    let _network = instance.network();
    let mut out = Vec::new(alloc);
    for level in levels {
        put_copies(alloc, level.as_slice()[place].as_slice(), &mut out)?;
    }
    Ok(out)
}
