//! What a check says of assignments of paths (`stable_paths`).

use super::networks::{DISAGREE, Plan, RING, SQUARE, first_of, network, prefix};
use ranked_policy::{Asn, NetError, Network, Path};
use stable_paths::laws::{
    best_by_rank_is_best, disagree_chooses, each_network_has_its_model, no_origin_no_path,
    one_best, stable_is_the_models,
};
use stable_paths::{Assignment, Check, Instance, Mover, StableError, check, movers};
use std::alloc::Global;
use std::process::Abort;
use std::test::*;

// What a check is to say.
#[derive(Clone, Copy)]
enum Said {
    Stable,
    // This router, which has the first path, would move to the second.
    Moves(Asn, &'static [Asn], &'static [Asn]),
    // This router has a path that it does not permit.
    NotPermitted(Asn),
}

// The paths that are set, each for the router that stands first in it, and what is said then.
type Case = (&'static [&'static [Asn]], Said);

// The calls. These helpers ensure nothing, so that one is not carried along to the next.
fn sets(alloc: Global, assignment: &mut Assignment, numbers: &[Asn]) -> bool {
    match Path::from_slice(alloc, numbers) {
        Ok(path) => assignment.set(first_of(numbers), path).is_ok(),
        Err(_) => false,
    }
}

fn sets_all(alloc: Global, assignment: &mut Assignment, paths: &[&[Asn]]) -> bool {
    for numbers in paths {
        if !sets(alloc, assignment, numbers) {
            return false;
        }
    }
    true
}

fn has_path(assignment: &Assignment, router: Asn, numbers: &[Asn]) -> bool {
    assignment.path(router) == numbers
}

/// What a check answers of a network that names the prefix.
pub(super) fn checked(
    alloc: Global,
    net: &Network,
    assignment: &Assignment,
) -> Option<Result<Check, StableError>> {
    let prefix = prefix()?;
    if !net.names(&prefix) {
        return None;
    }
    Some(check(alloc, &Instance::new(net, &prefix), assignment))
}

fn is_check(check: &Check, said: Said) -> bool {
    match (check, said) {
        (Check::Stable, Said::Stable) => true,
        (Check::Unstable { router, has, best }, Said::Moves(who, from, to)) => {
            *router == who && has.as_slice() == from && best.as_slice() == to
        }
        _ => false,
    }
}

fn is_said(answer: &Result<Check, StableError>, said: Said) -> bool {
    match (answer, said) {
        (Ok(check), said) => is_check(check, said),
        (Err(StableError::NotPermitted { router }), Said::NotPermitted(who)) => *router == who,
        (Err(_), _) => false,
    }
}

fn says(alloc: Global, net: &Network, assignment: &Assignment, said: Said) -> bool {
    match checked(alloc, net, assignment) {
        Some(answer) => is_said(&answer, said),
        None => false,
    }
}

fn is_so(alloc: Global, net: &Network, case: &Case) -> bool {
    let (paths, said) = *case;
    let mut assignment = Assignment::new(alloc);
    sets_all(alloc, &mut assignment, paths) && says(alloc, net, &assignment, said)
}

fn all_are_so(rt: &impl Abort, alloc: Global, net: &Network, cases: &[Case]) {
    for (i, case) in cases.iter().enumerate() {
        assert!(rt; is_so(alloc, net, case), "case {i}");
    }
}

// Checks assignments of the network of a plan.
fn checks(rt: &impl Abort, alloc: Global, plan: &Plan, cases: &[Case]) -> Result<(), NetError> {
    match network(alloc, plan) {
        Ok(net) => all_are_so(rt, alloc, &net, cases),
        Err(error) => return Err(error),
    }
    Ok(())
}

// Two stable assignments, one that is not, and that of no path.
static OF_DISAGREE: [Case; 4] = [
    (&[&[1], &[2, 3, 1], &[3, 1]], Said::Stable),
    (&[&[1], &[2, 1], &[3, 2, 1]], Said::Stable),
    (
        &[&[1], &[2, 1], &[3, 1]],
        Said::Moves(2, &[2, 1], &[2, 3, 1]),
    ),
    (&[], Said::Moves(1, &[], &[1])),
];

#[test]
fn two_that_prefer_each_other(rt: HostRuntime) -> Result<(), NetError> {
    checks(&rt, rt.alloc(), &DISAGREE, &OF_DISAGREE)
}

// A router that would move, its path and its best.
type Moving = (Asn, &'static [Asn], &'static [Asn]);

fn are_movers(listed: &[Mover], wanted: &[Moving]) -> bool {
    if listed.len() != wanted.len() {
        return false;
    }
    for (mover, (router, has, best)) in listed.iter().zip(wanted.iter()) {
        if mover.router != *router
            || mover.has.as_slice() != *has
            || mover.best.as_slice() != *best
        {
            return false;
        }
    }
    true
}

fn lists_movers(alloc: Global, net: &Network, paths: &[&[Asn]], wanted: &[Moving]) -> bool {
    let mut assignment = Assignment::new(alloc);
    if !sets_all(alloc, &mut assignment, paths) {
        return false;
    }
    let Some(prefix) = prefix() else {
        return false;
    };
    if !net.names(&prefix) {
        return false;
    }
    match movers(alloc, &Instance::new(net, &prefix), &assignment) {
        Ok(listed) => are_movers(&listed, wanted),
        Err(_) => false,
    }
}

#[test]
fn all_that_would_move_are_listed(rt: HostRuntime) -> Result<(), NetError> {
    let alloc = rt.alloc();
    let net = network(alloc, &DISAGREE)?;
    let both: [Moving; 2] = [(2, &[2, 1], &[2, 3, 1]), (3, &[3, 1], &[3, 2, 1])];
    assert!(&rt; lists_movers(alloc, &net, &[&[1], &[2, 1], &[3, 1]], &both));
    assert!(&rt; lists_movers(alloc, &net, &[&[1], &[2, 3, 1], &[3, 1]], &[]));
    Ok(())
}

// No assignment is stable; this is one.
static OF_THE_RING: [Case; 1] = [(
    &[&[1], &[2, 3, 1], &[3, 1], &[4, 1]],
    Said::Moves(3, &[3, 1], &[3, 4, 1]),
)];

#[test]
fn no_assignment_of_a_ring_is_stable(rt: HostRuntime) -> Result<(), NetError> {
    checks(&rt, rt.alloc(), &RING, &OF_THE_RING)
}

// Without rules the shorter path is better, then the one with the lesser number.
static OF_THE_SQUARE: [Case; 3] = [
    (&[&[1], &[2, 1], &[3, 1], &[4, 2, 1]], Said::Stable),
    (
        &[&[1], &[2, 1], &[3, 1], &[4, 3, 1]],
        Said::Moves(4, &[4, 3, 1], &[4, 2, 1]),
    ),
    (&[&[1], &[2, 1], &[3, 1]], Said::Moves(4, &[], &[4, 2, 1])),
];

#[test]
fn without_rules_the_shorter_path_is_better(rt: HostRuntime) -> Result<(), NetError> {
    checks(&rt, rt.alloc(), &SQUARE, &OF_THE_SQUARE)
}

// A path that a router does not permit is refused, at the least such router. What is set last counts.
static NOT_PERMITTED: [Case; 2] = [
    (&[&[3, 1, 2], &[2, 3]], Said::NotPermitted(2)),
    (&[&[3, 1, 2], &[2, 3], &[2, 1]], Said::NotPermitted(3)),
];

#[test]
fn paths_that_are_not_permitted(rt: HostRuntime) -> Result<(), NetError> {
    checks(&rt, rt.alloc(), &DISAGREE, &NOT_PERMITTED)
}

fn paths_are_read(rt: &impl Abort, alloc: Global, assignment: &mut Assignment) {
    assert!(rt; sets_all(alloc, assignment, &[&[2, 3], &[2, 1]]));
    assert!(rt; has_path(assignment, 2, &[2, 1]));
    assert!(rt; has_path(assignment, 1, &[]));
}

#[test]
fn what_was_set_last_is_read(rt: HostRuntime) {
    let mut assignment = Assignment::new(rt.alloc());
    paths_are_read(&rt, rt.alloc(), &mut assignment);
}

// Calls each law once.
#[test]
fn each_law_holds_at_a_type(_rt: HostRuntime) {
    best_by_rank_is_best();
    disagree_chooses();
    each_network_has_its_model::<u8>();
    one_best();
    no_origin_no_path();
    stable_is_the_models::<u8>();
}
