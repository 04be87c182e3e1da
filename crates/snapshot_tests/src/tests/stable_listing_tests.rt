//! What a search lists for routers without a rule that may have several paths (`stable_search`).

use super::networks::{DISAGREEING, Links, Plan, Rule, THREE_OVER_TWO, TRIANGLE, TWO_OVER_THREE};
use super::searches::{LIMITS, Limit, counts, refuses};
use super::stable_search_tests::finds_among;
use ranked_policy::NetError;
use std::test::*;

/// 4 hangs on one of two that disagree.
static BEHIND_DISAGREE: Plan = Plan {
    routers: 4,
    links: &[TRIANGLE, &[(2, 4)]],
    rules: DISAGREEING,
};

/// The network of `BEHIND_DISAGREE`, with a rule of every path of 4.
static PATHS_BEHIND_DISAGREE: Plan = Plan {
    routers: 4,
    links: &[],
    rules: &[TWO_OVER_THREE, THREE_OVER_TWO, &[&[4, 2, 1], &[4, 2, 3, 1]]],
};

/// 4 is linked with both of two that disagree.
static BEHIND_BOTH: Plan = Plan {
    routers: 4,
    links: &[TRIANGLE, &[(2, 4), (3, 4)]],
    rules: DISAGREEING,
};

/// The network of `BEHIND_BOTH`, with a rule of every path of 4.
static PATHS_BEHIND_BOTH: Plan = Plan {
    routers: 4,
    links: &[],
    rules: &[
        TWO_OVER_THREE,
        THREE_OVER_TWO,
        &[&[4, 2, 1], &[4, 3, 1], &[4, 2, 3, 1], &[4, 3, 2, 1]],
    ],
};

/// 4 is linked with one of the two, 5 with the other, and 4 with 5.
static TWO_BEHIND: Plan = Plan {
    routers: 5,
    links: &[TRIANGLE, &[(2, 4), (3, 5), (4, 5)]],
    rules: DISAGREEING,
};

/// The network of `TWO_BEHIND`, with rules of every path of 4 and of 5.
static PATHS_OF_TWO_BEHIND: Plan = Plan {
    routers: 5,
    links: &[],
    rules: &[
        TWO_OVER_THREE,
        THREE_OVER_TWO,
        &[&[4, 2, 1], &[4, 2, 3, 1], &[4, 5, 3, 1], &[4, 5, 3, 2, 1]],
        &[&[5, 3, 1], &[5, 3, 2, 1], &[5, 4, 2, 1], &[5, 4, 2, 3, 1]],
    ],
};

/// 4 to 8 are linked with 2 and with each other.
const FIVE: Links = &[
    (2, 4),
    (2, 5),
    (2, 6),
    (2, 7),
    (2, 8),
    (4, 5),
    (4, 6),
    (4, 7),
    (4, 8),
    (5, 6),
    (5, 7),
    (5, 8),
    (6, 7),
    (6, 8),
    (7, 8),
];

/// Behind one of two that disagree, each of five is linked with each other: each has a path of at most 4 routers.
static FIVE_BEHIND: Plan = Plan {
    routers: 8,
    links: &[TRIANGLE, FIVE],
    rules: DISAGREEING,
};

/// The network of `FIVE_BEHIND`, but 2 has no path that 1 surely offers: each of the five may have 65 paths, or none.
static FIVE_BEHIND_ONE_UNSURE: Plan = Plan {
    routers: 8,
    links: &[TRIANGLE, FIVE],
    rules: &[&[&[2, 3, 1]], THREE_OVER_TWO],
};

/// The five of `FIVE_BEHIND`, each linked with 9 too, which has one path. Each of the five thus has the path over 9, or
/// one that is as short.
static FIVE_BESIDE: Plan = Plan {
    routers: 9,
    links: &[
        TRIANGLE,
        FIVE,
        &[(1, 9), (4, 9), (5, 9), (6, 9), (7, 9), (8, 9)],
    ],
    rules: DISAGREEING,
};

/// 2 and 3 are linked with some of 4 to 8, these with each other, and 2 with 9.
const MANY_PATHS: Links = &[
    (2, 5),
    (2, 8),
    (3, 7),
    (3, 8),
    (4, 6),
    (4, 7),
    (4, 8),
    (5, 6),
    (5, 7),
    (6, 7),
    (6, 8),
    (7, 8),
    (2, 9),
];

/// 2 prefers the way over 3, and permits one over each of 3 to 8 too: it may be as far as that.
const TWO_FAR: Rule = &[&[2, 3, 1], &[2, 1], &[2, 5, 6, 8, 4, 7, 3, 1]];

/// 3 prefers the way over 2, and may be as far as 2.
const THREE_FAR: Rule = &[&[3, 2, 1], &[3, 1], &[3, 8, 4, 7, 6, 5, 2, 1]];

/// Behind two that disagree, 4 may have 62 paths, and 5 to 8 fewer. 9 has a rule.
static AT_THE_LIMIT: Plan = Plan {
    routers: 9,
    links: &[TRIANGLE, MANY_PATHS],
    rules: &[TWO_FAR, THREE_FAR, &[&[9, 2, 1]]],
};

/// The network of `AT_THE_LIMIT`, but 4 is linked with 9 too and may have one path more.
static PAST_THE_LIMIT: Plan = Plan {
    routers: 9,
    links: &[TRIANGLE, MANY_PATHS, &[(4, 9)]],
    rules: &[TWO_FAR, THREE_FAR, &[&[9, 2, 1]]],
};

// What 4 has hangs on 2 alone, which has one of two.
#[test]
fn behind_one_of_two(rt: HostRuntime) -> Result<(), NetError> {
    finds_among(&rt, rt.alloc(), &BEHIND_DISAGREE, &PATHS_BEHIND_DISAGREE, 2)
}

#[test]
fn behind_both(rt: HostRuntime) -> Result<(), NetError> {
    finds_among(&rt, rt.alloc(), &BEHIND_BOTH, &PATHS_BEHIND_BOTH, 2)
}

#[test]
fn two_behind_both(rt: HostRuntime) -> Result<(), NetError> {
    finds_among(&rt, rt.alloc(), &TWO_BEHIND, &PATHS_OF_TWO_BEHIND, 2)
}

#[test]
fn five_beside_one_path(rt: HostRuntime) -> Result<(), NetError> {
    counts(&rt, rt.alloc(), &FIVE_BESIDE, &LIMITS, 2)
}

#[test]
fn five_behind_follow(rt: HostRuntime) -> Result<(), NetError> {
    counts(&rt, rt.alloc(), &FIVE_BEHIND, &LIMITS, 2)
}

#[test]
fn as_many_as_are_listed(rt: HostRuntime) -> Result<(), NetError> {
    counts(&rt, rt.alloc(), &AT_THE_LIMIT, &LIMITS, 2)
}

#[test]
fn more_than_are_listed(rt: HostRuntime) -> Result<(), NetError> {
    refuses(
        &rt,
        rt.alloc(),
        &PAST_THE_LIMIT,
        &LIMITS,
        Limit::Paths,
        &[4],
    )?;
    refuses(
        &rt,
        rt.alloc(),
        &FIVE_BEHIND_ONE_UNSURE,
        &LIMITS,
        Limit::Paths,
        &[4],
    )
}
