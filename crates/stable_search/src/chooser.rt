//! Routers with their policies for the prefix.

ghost use Rattle.std.specs.Prelude.{◌≡◌, IfOk, map};
ghost use Rattle.std.specs.List.{All};
ghost use Rattle.ranked_policy.specs.Plans.{IsRouter, numbers};
ghost use Rattle.stable_search.specs.Choosers.{IsChooser};

use ranked_policy::{Asn, Chosen};
use stable_paths::Instance;
use std::alloc::{AllocError, Global};

/// A router with its policy for a prefix.
#[derive(Debug, Drop)]
pub(crate) struct Chooser<'a> {
    /// The router.
    pub(crate) router: Asn,
    /// Whether it originates the prefix.
    pub(crate) is_origin: bool,
    /// Its policy for the prefix.
    pub(crate) policy: Chosen<'a>,
}

// A router with its policy.
fn chooser_of<'a>(instance: &Instance<'a>, router: Asn) -> Chooser<'a>
    requires { IsRouter instance.now.net.routers router }
    ensures router { result.router ≡ router }
    ensures chooser { IsChooser instance.now result }
{
    let network = instance.network();
    let prefix = instance.prefix();
    let policy = network.policies(router).unwrap().for_prefix(prefix);
    let is_origin = network.is_origin(router, prefix);
    Chooser {
        router,
        is_origin,
        policy,
    }
}

/// The routers of an instance with their policies, by rising number.
pub(crate) fn choosers<'a>(
    alloc: Global,
    instance: &Instance<'a>,
) -> Result<Vec<Chooser<'a>>, AllocError>
    ensures routers { IfOk result
        (λ choosers. map (λ it. it.router) choosers.items ≡ numbers instance.now.net.routers) }
    ensures choosers { IfOk result (λ choosers. All (IsChooser instance.now) choosers.items) }
{
    let network = instance.network();
    let mut choosers = Vec::with_capacity(alloc, network.routers().len())?;
    for router in network.routers() {
        choosers.push(chooser_of(instance, router.asn))?;
    }
    Ok(choosers)
}
