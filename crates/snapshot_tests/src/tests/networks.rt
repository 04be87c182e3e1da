//! Small networks, whose prefix is 10.1.0.0/16.

use bgp_values::Width;
use prefix_lanes::Prefix;
use ranked_policy::{Asn, NetBuilder, NetError, Network, Path, Settings};
use std::alloc::{AllocError, Global};

// The least of each: nothing here depends on them.
const SETTINGS: Settings = Settings {
    hold: 0,
    restart: 0,
    cut: 1,
    pipe: 1,
    width: Width::Two,
};

pub(super) type Links = &'static [(Asn, Asn)];

/// Ranks paths for the prefix. The router itself stands first in each.
pub(super) type Rule = &'static [&'static [Asn]];

/// Routers 1 to `routers` with these links, part by part, and these rules. Router 1 is the origin of the prefix.
pub(super) struct Plan {
    pub(super) routers: u32,
    pub(super) links: &'static [Links],
    pub(super) rules: &'static [Rule],
}

/// Two routers with a link.
pub(super) static PAIR: Plan = Plan {
    routers: 2,
    links: &[&[(1, 2)]],
    rules: &[],
};

pub(super) const TRIANGLE: Links = &[(1, 2), (1, 3), (2, 3)];

pub(super) const TWO_OVER_THREE: Rule = &[&[2, 3, 1], &[2, 1]];

pub(super) const THREE_OVER_TWO: Rule = &[&[3, 2, 1], &[3, 1]];

/// 2 and 3 prefer the way through each other.
pub(super) const DISAGREEING: &[Rule] = &[TWO_OVER_THREE, THREE_OVER_TWO];

/// DISAGREE (Griffin, Shepherd and Wilfong 2002).
pub(super) static DISAGREE: Plan = Plan {
    routers: 3,
    links: &[TRIANGLE],
    rules: DISAGREEING,
};

/// A ring of 2, 3 and 4 round 1: each prefers the way through the next (BAD GADGET of the same paper).
pub(super) static RING: Plan = Plan {
    routers: 4,
    links: &[&[(1, 2), (1, 3), (1, 4), (2, 3), (3, 4), (4, 2)]],
    rules: &[
        &[&[2, 3, 1], &[2, 1]],
        &[&[3, 4, 1], &[3, 1]],
        &[&[4, 2, 1], &[4, 1]],
    ],
};

/// 1 and 4 are linked by 2 and by 3, and there are no rules.
pub(super) static SQUARE: Plan = Plan {
    routers: 4,
    links: &[&[(1, 2), (1, 3), (2, 4), (3, 4)]],
    rules: &[],
};

pub(super) fn prefix() -> Option<Prefix> {
    Prefix::new(0x0a01_0000, 16)
}

// What a builder answers. These helpers ensure nothing, so that one answer is not carried along to the
// next.
fn adds_router(net: &mut NetBuilder, number: Asn) -> Result<(), NetError> {
    net.push_router(number, 0x0a00_0000 | number)
}

fn adds_link(net: &mut NetBuilder, one: Asn, other: Asn) -> Result<(), NetError> {
    net.push_link(one, other)
}

fn adds_origin(net: &mut NetBuilder) -> Result<(), NetError> {
    match prefix() {
        Some(prefix) => net.push_origin(1, prefix),
        None => Err(NetError::BadNumber),
    }
}

fn adds_rule(net: &mut NetBuilder, router: Asn, paths: Vec<Path>) -> Result<(), NetError> {
    match prefix() {
        Some(prefix) => net.push_rule(router, prefix, paths),
        None => Err(NetError::BadNumber),
    }
}

fn paths_of(alloc: Global, lists: &[&[Asn]]) -> Result<Vec<Path>, AllocError> {
    let mut paths = Vec::new(alloc);
    for list in lists {
        paths.push(Path::from_slice(alloc, list)?)?;
    }
    Ok(paths)
}

/// The router that stands first in a path, 0 where none does.
pub(super) fn first_of(path: &[Asn]) -> Asn {
    path.first().copied().unwrap_or(0)
}

fn push_rule(alloc: Global, net: &mut NetBuilder, lists: &[&[Asn]]) -> Result<(), NetError> {
    let router = lists.first().map_or(0, |path| first_of(path));
    match paths_of(alloc, lists) {
        Ok(paths) => adds_rule(net, router, paths),
        Err(_) => Err(NetError::Memory),
    }
}

fn push_routers(net: &mut NetBuilder, plan: &Plan) -> Result<(), NetError> {
    for i in 0..plan.routers {
        adds_router(net, i.wrapping_add(1))?;
    }
    Ok(())
}

fn push_links(net: &mut NetBuilder, links: &[(Asn, Asn)]) -> Result<(), NetError> {
    for (one, other) in links {
        adds_link(net, *one, *other)?;
    }
    Ok(())
}

fn push_rules(alloc: Global, net: &mut NetBuilder, plan: &Plan) -> Result<(), NetError> {
    for lists in plan.rules {
        push_rule(alloc, net, lists)?;
    }
    Ok(())
}

fn push_all(alloc: Global, net: &mut NetBuilder, plan: &Plan) -> Result<(), NetError> {
    push_routers(net, plan)?;
    for links in plan.links {
        push_links(net, links)?;
    }
    adds_origin(net)?;
    push_rules(alloc, net, plan)
}

fn built(alloc: Global, plan: &Plan) -> Result<NetBuilder, NetError> {
    let mut net = NetBuilder::new(alloc, SETTINGS)?;
    push_all(alloc, &mut net, plan)?;
    Ok(net)
}

/// The network of a plan.
pub(super) fn network(alloc: Global, plan: &Plan) -> Result<Network, NetError> {
    match built(alloc, plan)?.finish() {
        Ok(net) => Ok(net),
        Err((_, error)) => Err(error),
    }
}
