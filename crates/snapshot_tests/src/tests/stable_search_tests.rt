//! Which assignments a search says are stable (`stable_search`), beside a check of each assignment of
//! listed paths.

use super::networks::{
    DISAGREE, DISAGREEING, PAIR, Plan, RING, SQUARE, THREE_OVER_TWO, TRIANGLE, TWO_OVER_THREE,
    network,
};
use super::searches::{LIMITS, Limit, counts, found, refuses};
use super::stable_paths_tests::checked;
use ranked_policy::{Asn, NetError, Network, Path};
use stable_paths::{Assignment, Check};
use stable_search::laws::{several_have_none, stable_is_fitting};
use stable_search::{Component, Every, SearchLimits};
use std::alloc::Global;
use std::process::Abort;
use std::test::*;

/// As many paths as one router of a plan has at most, the empty path among them.
const MOST_LISTED: u32 = 5;

/// The origin alone.
static ALONE: Plan = Plan {
    routers: 1,
    links: &[],
    rules: &[],
};

/// 2, 3 and 4 each prefer the way through the next that ends there, so they agree.
static AGREE: Plan = Plan {
    routers: 4,
    links: &[&[(1, 2), (1, 3), (1, 4), (2, 3), (3, 4)]],
    rules: &[
        &[&[2, 3, 4, 1], &[2, 1]],
        &[&[3, 4, 1], &[3, 1]],
        &[&[4, 1]],
    ],
};

/// A ring of 2 to 5 round 1: each prefers the way through the next.
static EVEN_RING: Plan = Plan {
    routers: 5,
    links: &[
        &[(1, 2), (1, 3), (1, 4), (1, 5)],
        &[(2, 3), (3, 4), (4, 5), (5, 2)],
    ],
    rules: &[
        &[&[2, 3, 1], &[2, 1]],
        &[&[3, 4, 1], &[3, 1]],
        &[&[4, 5, 1], &[4, 1]],
        &[&[5, 2, 1], &[5, 1]],
    ],
};

/// Two pairs that disagree, each by itself.
static TWO_PAIRS: Plan = Plan {
    routers: 5,
    links: &[TRIANGLE, &[(1, 4), (1, 5), (4, 5)]],
    rules: &[
        TWO_OVER_THREE,
        THREE_OVER_TWO,
        &[&[4, 5, 1], &[4, 1]],
        &[&[5, 4, 1], &[5, 1]],
    ],
};

/// 2 lists a path over a router that is no peer of it, one that ends elsewhere, and none that it can have.
static NONE_CAN: Plan = Plan {
    routers: 3,
    links: &[&[(1, 3), (2, 3)]],
    rules: &[&[&[2, 1], &[2, 3]], &[&[3, 1]]],
};

/// 3 permits no path, so 2 has none over it.
static NONE_PERMITTED: Plan = Plan {
    routers: 3,
    links: &[&[(1, 3), (2, 3)]],
    rules: &[&[&[2, 3, 1]], &[&[3, 2, 1]]],
};

/// 4 is linked with the origin and with one of two that disagree.
static BESIDE_DISAGREE: Plan = Plan {
    routers: 4,
    links: &[TRIANGLE, &[(2, 4), (1, 4)]],
    rules: DISAGREEING,
};

/// The paths that come to them.
static PATHS_BESIDE_DISAGREE: Plan = Plan {
    routers: 4,
    links: &[TRIANGLE, &[(2, 4), (1, 4)]],
    rules: &[TWO_OVER_THREE, THREE_OVER_TWO, &[&[4, 1]]],
};

/// 2 has a rule, 3 and 4 have none.
static BEHIND_A_RULE: Plan = Plan {
    routers: 4,
    links: &[TRIANGLE, &[(2, 4)]],
    rules: &[TWO_OVER_THREE],
};

/// Each of five is linked with each other.
static COMPLETE: Plan = Plan {
    routers: 5,
    links: &[
        &[(1, 2), (1, 3), (1, 4), (1, 5)],
        &[(2, 3), (2, 4), (2, 5)],
        &[(3, 4), (3, 5), (4, 5)],
    ],
    rules: &[],
};

/// A line of 18.
static LINE: Plan = Plan {
    routers: 18,
    links: &[
        &[(1, 2), (2, 3), (3, 4), (4, 5), (5, 6), (6, 7)],
        &[(7, 8), (8, 9), (9, 10), (10, 11), (11, 12), (12, 13)],
        &[(13, 14), (14, 15), (15, 16), (16, 17), (17, 18)],
    ],
    rules: &[],
};

// What is listed for a router of a plan, and at the end the empty path.
fn listed(plan: &Plan, router: Asn, place: usize) -> Option<&'static [Asn]> {
    if router == 1 {
        return if place == 0 { Some(&[1]) } else { None };
    }
    let lists = *plan.rules.get((router as usize).wrapping_sub(2))?;
    match lists.get(place) {
        Some(path) => Some(*path),
        None => {
            if place == lists.len() {
                Some(&[])
            } else {
                None
            }
        }
    }
}

// The calls. These helpers ensure nothing, so that one is not carried along to the next.
fn sets(alloc: Global, assignment: &mut Assignment, router: Asn, numbers: &[Asn]) -> bool {
    match Path::from_slice(alloc, numbers) {
        Ok(path) => assignment.set(router, path).is_ok(),
        Err(_) => false,
    }
}

// Gives the routers the paths that the digits of a number say; false where they say nothing.
fn sets_all(alloc: Global, plan: &Plan, code: u32, assignment: &mut Assignment) -> bool {
    let mut rest = code;
    for i in 0..plan.routers {
        let router = i.wrapping_add(1);
        let Some(path) = listed(plan, router, (rest % MOST_LISTED) as usize) else {
            return false;
        };
        if !sets(alloc, assignment, router, path) {
            return false;
        }
        rest /= MOST_LISTED;
    }
    true
}

fn is_stable(alloc: Global, net: &Network, assignment: &Assignment) -> bool {
    match checked(alloc, net, assignment) {
        Some(Ok(Check::Stable)) => true,
        _ => false,
    }
}

fn is_path(assignment: &Assignment, router: Asn, path: &Path) -> bool {
    assignment.path(router) == path.as_slice()
}

fn has_paths(part: &Component, choice: usize, assignment: &Assignment) -> bool {
    for (place, router) in part.routers.as_slice().iter().enumerate() {
        match part.path(choice, place) {
            Some(path) if is_path(assignment, *router, path) => {}
            _ => return false,
        }
    }
    true
}

fn has_choice(part: &Component, assignment: &Assignment) -> bool {
    for choice in 0..part.choice_count() {
        if has_paths(part, choice, assignment) {
            return true;
        }
    }
    false
}

fn is_listed(every: &Every, assignment: &Assignment) -> bool {
    for part in every.parts.as_slice() {
        if !has_choice(part, assignment) {
            return false;
        }
    }
    true
}

fn has_follower(every: &Every) -> bool {
    for part in every.parts.as_slice() {
        if part.follows {
            return true;
        }
    }
    false
}

// Whether the assignment of a number is stable, if there is one; and whether it is listed where it is stable, and, if no
// router follows, nowhere else.
fn agrees(alloc: Global, plan: &Plan, net: &Network, every: &Every, code: u32) -> (bool, bool) {
    let mut assignment = Assignment::new(alloc);
    if !sets_all(alloc, plan, code, &mut assignment) {
        return (false, true);
    }
    let stable = is_stable(alloc, net, &assignment);
    let listed = is_listed(every, &assignment);
    (stable, stable == listed || listed && has_follower(every))
}

// As many assignments of these paths are stable.
fn all_agree(
    rt: &impl Abort,
    alloc: Global,
    plan: &Plan,
    net: &Network,
    every: &Every,
    stable: u64,
) {
    let mut count = 0u64;
    for code in 0..MOST_LISTED.wrapping_pow(plan.routers) {
        let (is_one, agrees) = agrees(alloc, plan, net, every, code);
        assert!(rt; agrees, "assignment {code}");
        if is_one {
            count = count.wrapping_add(1);
        }
    }
    assert!(rt; count == stable, "{count} stable");
}

/// The search of the network of a plan lists so many assignments; so many of those of the paths that another plan
/// lists are stable, and are listed.
pub(super) fn finds_among(
    rt: &impl Abort,
    alloc: Global,
    plan: &Plan,
    all: &Plan,
    stable: u64,
) -> Result<(), NetError> {
    let net = network(alloc, plan)?;
    let every = found(rt, alloc, &net, &LIMITS);
    assert!(rt; every.count() == Some(stable));
    all_agree(rt, alloc, all, &net, &every, stable);
    Ok(())
}

// The search of the network of a plan lists so many assignments, and those that are stable.
fn finds(rt: &impl Abort, alloc: Global, plan: &Plan, stable: u64) -> Result<(), NetError> {
    finds_among(rt, alloc, plan, plan, stable)
}

// Whether the first choice of a part gives the router these numbers.
fn gives(part: &Component, router: Asn, numbers: &[Asn]) -> bool {
    for (place, other) in part.routers.as_slice().iter().enumerate() {
        if *other == router {
            return match part.path(0, place) {
                Some(path) => path.as_slice() == numbers,
                None => false,
            };
        }
    }
    false
}

fn has_path(every: &Every, router: Asn, numbers: &[Asn]) -> bool {
    for part in every.parts.as_slice() {
        if gives(part, router, numbers) {
            return true;
        }
    }
    false
}

fn lists_one(rt: &impl Abort, every: &Every, paths: &[&[Asn]]) {
    assert!(rt; every.count() == Some(1));
    let mut router: Asn = 1;
    for numbers in paths {
        assert!(rt; has_path(every, router, numbers), "router {router}");
        router = router.wrapping_add(1);
    }
}

// The search of the network of a plan lists one assignment, and it has these paths, by router.
fn has_one(rt: &impl Abort, alloc: Global, plan: &Plan, paths: &[&[Asn]]) -> Result<(), NetError> {
    let net = network(alloc, plan)?;
    lists_one(rt, &found(rt, alloc, &net, &LIMITS), paths);
    Ok(())
}

#[test]
fn the_origin_alone_has_one_assignment(rt: HostRuntime) -> Result<(), NetError> {
    finds(&rt, rt.alloc(), &ALONE, 1)
}

#[test]
fn two_that_disagree_have_two_assignments(rt: HostRuntime) -> Result<(), NetError> {
    finds(&rt, rt.alloc(), &DISAGREE, 2)
}

#[test]
fn a_ring_of_three_has_none(rt: HostRuntime) -> Result<(), NetError> {
    finds(&rt, rt.alloc(), &RING, 0)
}

#[test]
fn a_ring_of_four_has_two(rt: HostRuntime) -> Result<(), NetError> {
    finds(&rt, rt.alloc(), &EVEN_RING, 2)
}

#[test]
fn three_that_agree_have_one(rt: HostRuntime) -> Result<(), NetError> {
    finds(&rt, rt.alloc(), &AGREE, 1)
}

#[test]
fn two_pairs_have_four(rt: HostRuntime) -> Result<(), NetError> {
    finds(&rt, rt.alloc(), &TWO_PAIRS, 4)
}

// Each part has two choices, and all together four.
#[test]
fn each_pair_has_two_choices(rt: HostRuntime) -> Result<(), NetError> {
    let limits = SearchLimits { most: 2, ..LIMITS };
    counts(&rt, rt.alloc(), &TWO_PAIRS, &limits, 4)
}

#[test]
fn paths_that_none_can_have(rt: HostRuntime) -> Result<(), NetError> {
    finds(&rt, rt.alloc(), &NONE_CAN, 1)
}

#[test]
fn paths_that_no_peer_has(rt: HostRuntime) -> Result<(), NetError> {
    finds(&rt, rt.alloc(), &NONE_PERMITTED, 1)
}

#[test]
fn networks_without_rules_have_one(rt: HostRuntime) -> Result<(), NetError> {
    has_one(&rt, rt.alloc(), &PAIR, &[&[1], &[2, 1]])?;
    has_one(
        &rt,
        rt.alloc(),
        &SQUARE,
        &[&[1], &[2, 1], &[3, 1], &[4, 2, 1]],
    )?;
    has_one(
        &rt,
        rt.alloc(),
        &COMPLETE,
        &[&[1], &[2, 1], &[3, 1], &[4, 1], &[5, 1]],
    )
}

// A path has at most 16 routers.
#[test]
fn a_long_line_has_one(rt: HostRuntime) -> Result<(), NetError> {
    has_one(
        &rt,
        rt.alloc(),
        &LINE,
        &[
            &[1],
            &[2, 1],
            &[3, 2, 1],
            &[4, 3, 2, 1],
            &[5, 4, 3, 2, 1],
            &[6, 5, 4, 3, 2, 1],
            &[7, 6, 5, 4, 3, 2, 1],
            &[8, 7, 6, 5, 4, 3, 2, 1],
            &[9, 8, 7, 6, 5, 4, 3, 2, 1],
            &[10, 9, 8, 7, 6, 5, 4, 3, 2, 1],
            &[11, 10, 9, 8, 7, 6, 5, 4, 3, 2, 1],
            &[12, 11, 10, 9, 8, 7, 6, 5, 4, 3, 2, 1],
            &[13, 12, 11, 10, 9, 8, 7, 6, 5, 4, 3, 2, 1],
            &[14, 13, 12, 11, 10, 9, 8, 7, 6, 5, 4, 3, 2, 1],
            &[15, 14, 13, 12, 11, 10, 9, 8, 7, 6, 5, 4, 3, 2, 1],
            &[16, 15, 14, 13, 12, 11, 10, 9, 8, 7, 6, 5, 4, 3, 2, 1],
            &[],
            &[],
        ],
    )
}

// 2 prefers the longer way through 3; 4 has no rule and follows 2.
#[test]
fn a_router_without_a_rule_follows(rt: HostRuntime) -> Result<(), NetError> {
    has_one(
        &rt,
        rt.alloc(),
        &BEHIND_A_RULE,
        &[&[1], &[2, 3, 1], &[3, 1], &[4, 2, 3, 1]],
    )
}

// 4 has no rule and is linked with the origin, so it has one path whatever 2 and 3 have.
#[test]
fn beside_two_that_disagree_there_is_one_path(rt: HostRuntime) -> Result<(), NetError> {
    finds_among(&rt, rt.alloc(), &BESIDE_DISAGREE, &PATHS_BESIDE_DISAGREE, 2)
}

#[test]
fn more_choices_than_asked_for_are_refused(rt: HostRuntime) -> Result<(), NetError> {
    let limits = SearchLimits { most: 1, ..LIMITS };
    refuses(&rt, rt.alloc(), &DISAGREE, &limits, Limit::Choices, &[2, 3])
}

#[test]
fn a_search_without_steps_is_refused(rt: HostRuntime) -> Result<(), NetError> {
    let limits = SearchLimits { steps: 0, ..LIMITS };
    refuses(&rt, rt.alloc(), &DISAGREE, &limits, Limit::Steps, &[1])
}

// The origin's part takes one step, the next part more.
#[test]
fn too_few_steps_are_refused(rt: HostRuntime) -> Result<(), NetError> {
    let limits = SearchLimits { steps: 1, ..LIMITS };
    refuses(&rt, rt.alloc(), &DISAGREE, &limits, Limit::Steps, &[2, 3])
}

// Calls the laws once.
#[test]
fn the_laws_hold_at_a_type(_rt: HostRuntime) {
    stable_is_fitting();
    several_have_none();
}
