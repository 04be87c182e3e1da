//! The best of a router's choices.

ghost use Rattle.std.specs.Prelude.{◌≡◌, IfOk, IfErr};
ghost use Rattle.ranked_policy.specs.Choices.{path_by};
ghost use Rattle.ranked_policy.specs.Policies.{IsTableOf};
ghost use Rattle.stable_paths.specs.Stable.{path_of, IsBestOf};

use crate::assignment::Assignment;
use crate::instance::Instance;
use crate::refusal::StableError;
use ranked_policy::laws::each_policy_is_an_order;
use ranked_policy::{Asn, Path, PolicyTable};
use std::alloc::{AllocError, Global};

// The path of a router along a way; the empty path if the way is empty.
fn path_along(alloc: Global, router: Asn, way: &[Asn]) -> Result<Path, AllocError>
    ensures { IfOk result (λ path. path ≡ path_by router way.now) }
{
    if way.is_empty() {
        return Ok(Path::new(alloc));
    }
    Path::from_router(alloc, router, way)
}

/// The best of the choices of the router of a table.
pub(crate) fn best_of(
    alloc: Global,
    instance: &Instance,
    assignment: &Assignment,
    table: &PolicyTable,
) -> Result<Path, StableError>
    requires { IsTableOf instance.now.net table.now.router table.now }
    ensures best { IfOk result (IsBestOf instance.now (path_of assignment.now) table.now) }
    ensures memory { IfErr result (λ e. e ≡ StableError.Memory) }
{
    each_policy_is_an_order();
    let network = instance.network();
    let prefix = instance.prefix();
    let router = table.router();
    if network.is_origin(router, prefix) {
        return Ok(Path::from_slice(alloc, &[router])?);
    }
    let policy = table.for_prefix(prefix);
    let mut best: &[Asn] = &[];
    for link in network.links_of(router) {
        best = policy.better_onward(router, assignment.path(link.other), best);
    }
    Ok(path_along(alloc, router, best)?)
}
