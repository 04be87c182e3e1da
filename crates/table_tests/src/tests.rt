//! What the tests share: networks, as they are built.

use bgp_values::Width;
use prefix_lanes::Prefix;
use ranked_policy::{Asn, NetBuilder, NetError, Network, Path, Settings};
use std::alloc::{AllocError, Global};

mod building;
mod laws;
mod networks;
mod paths;
mod policies;
mod ribs;

const SETTINGS: Settings = Settings {
    hold: 90,
    restart: 0,
    cut: 4096,
    pipe: 64,
    width: Width::Two,
};

/// 10.0.0.0, of which the identifiers are the first addresses.
const TEN: u32 = 0x0a00_0000;

/// A prefix by its address and length.
type At = (u32, u8);

/// Ranks paths of a router for a prefix.
type Rule = (Asn, At, &'static [&'static [Asn]]);

/// Routers 1 to `routers` with these links, origins and rules.
struct Plan {
    routers: u32,
    links: &'static [(Asn, Asn)],
    origins: &'static [(Asn, At)],
    rules: &'static [Rule],
}

const SIXTEEN: At = (0x0a01_0000, 16);

const CROSSED: &[(Asn, Asn)] = &[(1, 2), (2, 3), (3, 4), (1, 3), (2, 4)];

const DISAGREEING: &[Rule] = &[
    (1, SIXTEEN, &[&[1, 2], &[1]]),
    (2, SIXTEEN, &[&[2, 3, 1], &[2, 1], &[2]]),
    (3, SIXTEEN, &[&[3, 2, 1], &[3, 1]]),
    (4, (TEN, 8), &[&[4, 2, 1]]),
    (4, SIXTEEN, &[&[4, 3, 1], &[4, 2, 1]]),
];

/// Routers 1 to 4, of which 1 originates 10.1.0.0/16 and 11.0.0.0/8; 2 and 3 prefer the way through
/// each other, 4 has rules for 10.0.0.0/8 and 10.1.0.0/16.
const DISAGREE: Plan = Plan {
    routers: 4,
    links: CROSSED,
    origins: &[(1, SIXTEEN), (1, (0x0b00_0000, 8))],
    rules: DISAGREEING,
};

// What owns a network or a list makes it, and what borrows it has the steps: each `?` of an owner is
// a way out on which all that it owns is dropped.

fn paths_of(alloc: Global, lists: &[&[Asn]]) -> Result<Vec<Path>, AllocError> {
    let mut paths = Vec::new(alloc);
    for list in lists {
        paths.push(Path::from_slice(alloc, list)?)?;
    }
    Ok(paths)
}

// What a builder answers. These helpers ensure nothing, so that one answer is not carried along to the
// next.
fn adds_router(net: &mut NetBuilder, asn: Asn, id: u32) -> Result<(), NetError> {
    net.push_router(asn, id)
}

fn adds_link(net: &mut NetBuilder, one: Asn, other: Asn) -> Result<(), NetError> {
    net.push_link(one, other)
}

fn adds_origin(net: &mut NetBuilder, router: Asn, (addr, len): At) -> Result<(), NetError> {
    match Prefix::new(addr, len) {
        Some(prefix) => net.push_origin(router, prefix),
        None => Err(NetError::BadNumber),
    }
}

fn adds_rule(
    net: &mut NetBuilder,
    router: Asn,
    (addr, len): At,
    paths: Result<Vec<Path>, AllocError>,
) -> Result<(), NetError> {
    match (Prefix::new(addr, len), paths) {
        (Some(prefix), Ok(paths)) => net.push_rule(router, prefix, paths),
        (None, _) => Err(NetError::BadNumber),
        (_, Err(_)) => Err(NetError::Memory),
    }
}

/// Adds routers 1 to `count`.
fn push_routers(net: &mut NetBuilder, count: u32) -> Result<(), NetError> {
    for i in 0..count {
        let asn = i.wrapping_add(1);
        adds_router(net, asn, TEN | asn)?;
    }
    Ok(())
}

fn push_plan(alloc: Global, net: &mut NetBuilder, plan: &Plan) -> Result<(), NetError> {
    push_routers(net, plan.routers)?;
    for &(one, other) in plan.links {
        adds_link(net, one, other)?;
    }
    for &(router, at) in plan.origins {
        adds_origin(net, router, at)?;
    }
    for &(router, at, lists) in plan.rules {
        adds_rule(net, router, at, paths_of(alloc, lists))?;
    }
    Ok(())
}

fn built(alloc: Global, plan: &Plan) -> Result<NetBuilder, NetError> {
    let mut net = NetBuilder::new(alloc, SETTINGS)?;
    push_plan(alloc, &mut net, plan)?;
    Ok(net)
}

/// The network of a plan.
fn network(alloc: Global, plan: &Plan) -> Result<Network, NetError> {
    match built(alloc, plan)?.finish() {
        Ok(net) => Ok(net),
        Err((_, error)) => Err(error),
    }
}
