//! What a search answers of a network (`stable_search`).

use super::networks::{Plan, network, prefix};
use ranked_policy::{Asn, NetError, Network};
use stable_paths::Instance;
use stable_search::{Every, SearchError, SearchLimits, stable_assignments};
use std::alloc::Global;
use std::process::Abort;

pub(super) const LIMITS: SearchLimits = SearchLimits {
    most: 1_000,
    steps: 100_000,
};

// The call. These helpers ensure nothing, so that no answer is carried along to the next.
fn searched(
    rt: &impl Abort,
    alloc: Global,
    net: &Network,
    limits: &SearchLimits,
) -> Result<Every, SearchError> {
    let Some(prefix) = prefix() else {
        panic!(rt; "no prefix");
    };
    assert!(rt; net.names(&prefix));
    stable_assignments(alloc, &Instance::new(net, &prefix), limits)
}

/// What a search finds that is not refused.
pub(super) fn found(rt: &impl Abort, alloc: Global, net: &Network, limits: &SearchLimits) -> Every {
    match searched(rt, alloc, net, limits) {
        Ok(every) => every,
        Err(_) => panic!(rt; "refused"),
    }
}

/// So many assignments of the network of a plan are stable.
pub(super) fn counts(
    rt: &impl Abort,
    alloc: Global,
    plan: &Plan,
    limits: &SearchLimits,
    stable: u64,
) -> Result<(), NetError> {
    let net = network(alloc, plan)?;
    assert!(rt; found(rt, alloc, &net, limits).count() == Some(stable));
    Ok(())
}

/// Which limit a search met.
#[derive(Clone, Copy)]
pub(super) enum Limit {
    Paths,
    Choices,
    Steps,
}

// Whether a refusal is of this limit, at these routers.
fn is_refusal(error: &SearchError, limit: Limit, at: &[Asn]) -> bool {
    match (error, limit) {
        (SearchError::TooManyPaths { router }, Limit::Paths) => at == [*router].as_slice(),
        (SearchError::TooManyChoices { routers }, Limit::Choices) => routers.as_slice() == at,
        (SearchError::TooManySteps { routers }, Limit::Steps) => routers.as_slice() == at,
        _ => false,
    }
}

/// The search of the network of a plan is refused.
pub(super) fn refuses(
    rt: &impl Abort,
    alloc: Global,
    plan: &Plan,
    limits: &SearchLimits,
    limit: Limit,
    at: &[Asn],
) -> Result<(), NetError> {
    let net = network(alloc, plan)?;
    match searched(rt, alloc, &net, limits) {
        Ok(_) => panic!(rt; "not refused"),
        Err(error) => assert!(rt; is_refusal(&error, limit, at)),
    }
    Ok(())
}
