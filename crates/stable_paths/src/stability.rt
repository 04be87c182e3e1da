//! Whether an assignment is stable.

ghost use Rattle.std.specs.Prelude.{◌≡◌, ◌↔◌, ◌++◌, ◌∷◌, Err, ℕ, [], IsTrue, IfOk, IfErr, OnOk, MatchOption};
ghost use Rattle.ranked_policy.specs.Plans.{IsRouter};
ghost use Rattle.stable_paths.specs.Stable.{path_of, MayHave, IsBest};
ghost use Rattle.stable_paths.specs.Judging.{IsJudged, IsPermittedAll, IsLeastWithout, IsMover, AreMovers};

use crate::assignment::Assignment;
use crate::choosing::best_of;
use crate::instance::Instance;
use crate::refusal::StableError;
use crate::verdict::{Check, Mover};
use prefix_lanes::Prefix;
use ranked_policy::laws::each_policy_is_an_order;
use ranked_policy::{Asn, Network, Path, Policy};
use std::alloc::{AllocError, Global};

/// Whether a router may have a path for a prefix: the empty path, or one that it permits.
pub fn may_have(network: &Network, prefix: &Prefix, router: Asn, path: &Path) -> bool
    ensures { IsTrue result ↔ MayHave network.now prefix.now router path.now }
{
    if path.is_empty() {
        return true;
    }
    let _known = network.routers();
    match network.policies(router) {
        None => false,
        Some(table) => table.for_prefix(prefix).permits(path),
    }
}

// Whether a router may have the path that it has.
fn may_keep(instance: &Instance, assignment: &Assignment, router: Asn) -> bool
    ensures { IsTrue result ↔ MayHave instance.now.net instance.now.prefix router (path_of assignment.now router) }
{
    match assignment.get(router) {
        None => true,
        Some(path) => may_have(instance.network(), instance.prefix(), router, path),
    }
}

// Tests that each router may have its path; else names the least one that may not.
fn permit_all(instance: &Instance, assignment: &Assignment) -> Result<(), StableError>
    ensures ok { IfOk result (λ _. IsPermittedAll instance.now (path_of assignment.now)) }
    ensures err { IfErr result (λ e. IsJudged instance.now (path_of assignment.now) (Err e)) }
{
    let network = instance.network();
    for router in network.routers() {
        if !may_keep(instance, assignment, router.asn) {
            return Err(StableError::NotPermitted { router: router.asn });
        }
    }
    Ok(())
}

// Whether a path has these numbers.
fn is_path(path: &Path, numbers: &[Asn]) -> bool
    ensures { IsTrue result ↔ (path.now ≡ numbers.now) }
{
    path.as_slice() == numbers
}

// The router as one that would move, unless it has the best of its choices.
fn mover(
    alloc: Global,
    instance: &Instance,
    assignment: &Assignment,
    router: Asn,
) -> Result<Option<Mover>, StableError>
    requires { IsRouter instance.now.net.routers router }
    ensures mover { IfOk result
        (λ mover. MatchOption mover (IsBest instance.now (path_of assignment.now) router (path_of assignment.now router))
        (λ mover. (mover.router ≡ router) × IsMover instance.now (path_of assignment.now) mover)) }
    ensures memory { IfErr result (λ e. e ≡ StableError.Memory) }
{
    let network = instance.network();
    let table = network.policies(router).unwrap();
    let best = best_of(alloc, instance, assignment, &table)?;
    let has = assignment.path(router);
    if is_path(&best, has) {
        return Ok(None);
    }
    Ok(Some(Mover {
        router,
        has: Path::from_slice(alloc, has)?,
        best,
    }))
}

/// Tests whether each router has the best of its choices. If not, it answers the least router that
/// has not, with its path and its best.
///
/// Refused with [`StableError::NotPermitted`] and the least router whose path is neither empty nor
/// permitted there, if there is one; else with [`StableError::Memory`] if a growth is refused.
pub fn check(
    alloc: Global,
    instance: &Instance,
    assignment: &Assignment,
) -> Result<Check, StableError>
    ensures { IsJudged instance.now (path_of assignment.now) result }
{
    each_policy_is_an_order();
    permit_all(instance, assignment)?;
    let network = instance.network();
    for router in network.routers() {
        match mover(alloc, instance, assignment, router.asn)? {
            None => {}
            Some(mover) => {
                return Ok(Check::Unstable {
                    router: mover.router,
                    has: mover.has,
                    best: mover.best,
                });
            }
        }
    }
    Ok(Check::Stable)
}

// Adds a router that would move, if this is one.
fn add(movers: &mut Vec<Mover>, mover: Option<Mover>) -> Result<(), AllocError>
    ensures { OnOk result
        (MatchOption mover (movers.new.items ≡ movers.old.items)
        (λ mover. movers.new.items ≡ movers.old.items ++ mover ∷ [])) }
{
    match mover {
        None => {}
        Some(mover) => movers.push(mover)?,
    }
    Ok(())
}

/// Lists the routers that have not the best of their choices, by rising number, each with its path and its best.
/// Refused as [`check`] is.
pub fn movers(
    alloc: Global,
    instance: &Instance,
    assignment: &Assignment,
) -> Result<Vec<Mover>, StableError>
    ensures permitted { IfOk result (λ movers. IsPermittedAll instance.now (path_of assignment.now)) }
    ensures movers { IfOk result
        (λ movers. AreMovers instance.now (path_of assignment.now) instance.now.net.routers movers.items) }
    ensures err { IfErr result (λ e. IsJudged instance.now (path_of assignment.now) (Err e)) }
{
    permit_all(instance, assignment)?;
    let network = instance.network();
    let mut movers = Vec::new(alloc);
    for router in network.routers() {
        add(&mut movers, mover(alloc, instance, assignment, router.asn)?)?;
    }
    Ok(movers)
}
