//! Into which parts a search lets routers fall (`stable_search`): a router that has one path in all choices is
//! a part by itself, and so is one that follows others, alone or together with some.

use super::networks::{Links, Plan, Rule, THREE_OVER_TWO, TRIANGLE, TWO_OVER_THREE, network};
use super::searches::{LIMITS, found};
use ranked_policy::{Asn, NetError};
use stable_search::Every;
use std::alloc::Global;
use std::process::Abort;
use std::test::*;

/// 4 is linked with 2, 3, 5 and 6, and the origin with 5 and 6.
const BEHIND: Links = &[(2, 4), (3, 4), (4, 5), (1, 5), (4, 6), (1, 6)];

const FOUR_OVER_BOTH: Rule = &[&[4, 2, 3, 1], &[4, 3, 2, 1], &[4, 5, 1]];

/// 2 and 3 disagree, and 4 has a way through either, so it never goes over 5. 6 would prefer that way.
static BEHIND_DISAGREE: Plan = Plan {
    routers: 6,
    links: &[TRIANGLE, BEHIND],
    rules: &[
        TWO_OVER_THREE,
        THREE_OVER_TWO,
        FOUR_OVER_BOTH,
        &[&[5, 1]],
        &[&[6, 4, 5, 1], &[6, 1]],
    ],
};

/// The same twice: 7 and 8 disagree too, and 9 is beside them as 4 is beside 2 and 3. 6 is linked with both.
static BETWEEN_TWO: Plan = Plan {
    routers: 9,
    links: &[
        TRIANGLE,
        BEHIND,
        &[(1, 7), (1, 8), (7, 8), (7, 9), (8, 9), (5, 9), (6, 9)],
    ],
    rules: &[
        TWO_OVER_THREE,
        THREE_OVER_TWO,
        FOUR_OVER_BOTH,
        &[&[5, 1]],
        &[&[6, 4, 5, 1], &[6, 9, 5, 1], &[6, 1]],
        &[&[7, 8, 1], &[7, 1]],
        &[&[8, 7, 1], &[8, 1]],
        &[&[9, 7, 8, 1], &[9, 8, 7, 1], &[9, 5, 1]],
    ],
};

/// 2 and 3 disagree; 4 is behind 2 and 5 behind 3, and each has a way through the other.
static TOGETHER: Plan = Plan {
    routers: 5,
    links: &[TRIANGLE, &[(2, 4), (3, 5), (4, 5)]],
    rules: &[
        TWO_OVER_THREE,
        THREE_OVER_TWO,
        &[&[4, 2, 1], &[4, 5, 3, 1], &[4, 2, 3, 1]],
        &[&[5, 3, 1], &[5, 4, 2, 1], &[5, 3, 2, 1]],
    ],
};

/// A mesh of routers without a rule behind 2, which disagrees with 3: 6 and 7 have ways through each other.
static MESH: Plan = Plan {
    routers: 8,
    links: &[
        TRIANGLE,
        &[
            (2, 4),
            (2, 8),
            (4, 5),
            (4, 8),
            (5, 6),
            (5, 7),
            (6, 7),
            (6, 8),
            (7, 8),
        ],
    ],
    rules: &[TWO_OVER_THREE, THREE_OVER_TWO],
};

// Whether the parts have these routers, so many choices, and follow.
fn are_parts(every: &Every, parts: &[(&[Asn], usize, bool)]) -> bool {
    if every.parts.len() != parts.len() {
        return false;
    }
    for (part, wanted) in every.parts.as_slice().iter().zip(parts) {
        if part.routers.as_slice() != wanted.0
            || part.choice_count() != wanted.1
            || part.follows != wanted.2
        {
            return false;
        }
    }
    true
}

// The routers of the network of a plan fall into these parts.
fn has_parts(
    rt: &impl Abort,
    alloc: Global,
    plan: &Plan,
    parts: &[(&[Asn], usize, bool)],
) -> Result<(), NetError> {
    let net = network(alloc, plan)?;
    assert!(rt; are_parts(&found(rt, alloc, &net, &LIMITS), parts));
    Ok(())
}

#[test]
fn one_path_behind_two_that_disagree(rt: HostRuntime) -> Result<(), NetError> {
    has_parts(
        &rt,
        rt.alloc(),
        &BEHIND_DISAGREE,
        &[
            (&[1], 1, false),
            (&[2, 3], 2, false),
            (&[4], 2, true),
            (&[5], 1, false),
            (&[6], 1, false),
        ],
    )
}

#[test]
fn one_path_between_two_disputes(rt: HostRuntime) -> Result<(), NetError> {
    has_parts(
        &rt,
        rt.alloc(),
        &BETWEEN_TWO,
        &[
            (&[1], 1, false),
            (&[2, 3], 2, false),
            (&[4], 2, true),
            (&[5], 1, false),
            (&[6], 1, false),
            (&[7, 8], 2, false),
            (&[9], 2, true),
        ],
    )
}

#[test]
fn two_follow_together(rt: HostRuntime) -> Result<(), NetError> {
    has_parts(
        &rt,
        rt.alloc(),
        &TOGETHER,
        &[
            (&[1], 1, false),
            (&[2, 3], 2, false),
            (&[4], 2, true),
            (&[5], 2, true),
        ],
    )
}

#[test]
fn a_mesh_follows(rt: HostRuntime) -> Result<(), NetError> {
    has_parts(
        &rt,
        rt.alloc(),
        &MESH,
        &[
            (&[1], 1, false),
            (&[2, 3], 2, false),
            (&[4], 2, true),
            (&[5], 2, true),
            (&[6], 2, true),
            (&[7], 2, true),
            (&[8], 2, true),
        ],
    )
}
