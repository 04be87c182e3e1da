//! Which paths a router may use, and which it prefers.

use super::*;
use ranked_policy::{Chosen, Only, Policy, Ranked, Shortest};
use std::process::Abort;
use std::test::Fail;

const TWENTY_FOUR: At = (0x0a01_0200, 24);

const EIGHT: At = (0x0b00_0000, 8);

/// A prefix that no router originates.
const STRAY: At = (0x0c00_0000, 8);

/// Routers 1 to 3, of which 1 originates 10.1.2.0/24 and 10.2.0.0/16; 2 has a rule for 10.0.0.0/8, and one for
/// 10.1.0.0/16.
const TWO_RULES: Plan = Plan {
    routers: 3,
    links: &[(1, 2), (2, 3), (1, 3)],
    origins: &[(1, TWENTY_FOUR), (1, (0x0a02_0000, 16))],
    rules: &[(2, (TEN, 8), &[&[2, 1]]), (2, SIXTEEN, &[&[2, 3, 1]])],
};

/// What a policy is asked.
enum Asked {
    /// Whether the router may use the path.
    Permits(&'static [Asn], bool),
    /// Whether it prefers the first path to the second.
    Prefers(&'static [Asn], &'static [Asn], bool),
}

/// A network, and what its policies are asked, each that of a router for a prefix.
struct Case {
    name: &'static str,
    plan: Plan,
    rows: &'static [(Asn, At, Asked)],
}

#[rattlefmt::skip]
static CASES: [Case; 3] = [
    // The origin has its own path alone, whatever its rules say; the longest covering rule names the
    // paths of the others, as far as they end at the origin; without one every route is permitted.
    Case { name: "paths of the rule alone are permitted", plan: DISAGREE, rows: &[
        (1, SIXTEEN, Asked::Permits(&[1], true)),
        (1, SIXTEEN, Asked::Permits(&[1, 2], false)),
        (2, SIXTEEN, Asked::Permits(&[2, 3, 1], true)),
        (2, SIXTEEN, Asked::Permits(&[2, 1], true)),
        (2, SIXTEEN, Asked::Permits(&[2], false)),
        (4, SIXTEEN, Asked::Permits(&[4, 3, 1], true)),
        (4, SIXTEEN, Asked::Permits(&[4, 2, 1], true)),
        (4, SIXTEEN, Asked::Permits(&[4, 2, 3, 1], false)),
        (4, TWENTY_FOUR, Asked::Permits(&[4, 2, 1], false)),
        (4, EIGHT, Asked::Permits(&[4, 3, 1], true)),
        (4, EIGHT, Asked::Permits(&[4, 3, 2, 1], true)),
        (4, EIGHT, Asked::Permits(&[4, 3, 4, 1], false)),
        (4, EIGHT, Asked::Permits(&[4, 3], false)),
        (4, EIGHT, Asked::Permits(&[3, 1], false)),
        (4, EIGHT, Asked::Permits(&[], false)),
        (4, STRAY, Asked::Permits(&[4, 1], false)),
        (1, STRAY, Asked::Permits(&[1], false)),
    ] },
    // Of the rules for 10.0.0.0/8 and 10.1.0.0/16 the second speaks for 10.1.2.0/24, the first for
    // 10.2.0.0/16.
    Case { name: "the longest rule speaks", plan: TWO_RULES, rows: &[
        (2, TWENTY_FOUR, Asked::Permits(&[2, 3, 1], true)),
        (2, TWENTY_FOUR, Asked::Permits(&[2, 1], false)),
        (2, (0x0a02_0000, 16), Asked::Permits(&[2, 1], true)),
        (2, (0x0a02_0000, 16), Asked::Permits(&[2, 3, 1], false)),
    ] },
    // By rank, then by length, then by the numbers.
    Case { name: "the better of two paths is preferred", plan: DISAGREE, rows: &[
        (1, SIXTEEN, Asked::Prefers(&[1], &[1], false)),
        (2, SIXTEEN, Asked::Prefers(&[2, 3, 1], &[2, 1], true)),
        (2, SIXTEEN, Asked::Prefers(&[2, 1], &[2, 3, 1], false)),
        (2, SIXTEEN, Asked::Prefers(&[2, 1], &[2, 1], false)),
        (4, SIXTEEN, Asked::Prefers(&[4, 3, 1], &[4, 2, 1], true)),
        (4, EIGHT, Asked::Prefers(&[4, 3, 1], &[4, 2, 3, 1], true)),
        (4, EIGHT, Asked::Prefers(&[4, 2, 1], &[4, 3, 1], true)),
        (4, EIGHT, Asked::Prefers(&[4, 3, 1], &[4, 2, 1], false)),
        (4, EIGHT, Asked::Prefers(&[4, 2, 1], &[4, 2, 1], false)),
    ] },
];

// The policy of a router for a prefix, if there is such a router.
fn policy_of<'a>(net: &'a Network, router: Asn, (addr, len): At) -> Option<Chosen<'a>> {
    let prefix = Prefix::new(addr, len)?;
    let table = net.policies(router)?;
    Some(table.for_prefix(&prefix))
}

// Whether a policy says so of a path.
fn permits_as(alloc: Global, policy: &Chosen, numbers: &[Asn], wanted: bool) -> bool {
    match Path::from_slice(alloc, numbers) {
        Ok(path) => policy.permits(&path) == wanted,
        Err(_) => false,
    }
}

// Whether it says so of two paths.
fn prefers_as(alloc: Global, policy: &Chosen, a: &[Asn], b: &[Asn], wanted: bool) -> bool {
    match (Path::from_slice(alloc, a), Path::from_slice(alloc, b)) {
        (Ok(one), Ok(other)) => policy.prefers(&one, &other) == wanted,
        (_, _) => false,
    }
}

fn is_so(alloc: Global, policy: &Chosen, asked: &Asked) -> bool {
    match asked {
        Asked::Permits(path, wanted) => permits_as(alloc, policy, path, *wanted),
        Asked::Prefers(a, b, wanted) => prefers_as(alloc, policy, a, b, *wanted),
    }
}

fn answers(rt: &impl Abort, alloc: Global, net: &Network, case: &Case) {
    for (i, (router, at, asked)) in case.rows.iter().enumerate() {
        let Some(policy) = policy_of(net, *router, *at) else {
            panic!(rt; "{}: no policy in row {i}", case.name);
        };
        assert!(rt; is_so(alloc, &policy, asked), "{}: row {i}", case.name);
    }
}

#[test]
fn policies_permit_and_prefer(rt: HostRuntime) -> Result<(), Fail> {
    for case in &CASES {
        let net = network(rt.alloc(), &case.plan)?;
        answers(&rt, rt.alloc(), &net, case);
    }
    Ok(())
}

fn first_of<P: Policy>(policy: &P, a: &Path, b: &Path) -> bool {
    policy.permits(a) && policy.permits(b) && policy.prefers(a, b)
}

fn each_kind_in(rt: &impl Abort, listed: &[Path], a: &Path, b: &Path) {
    let ranked = Ranked {
        paths: listed,
        origin: Some(1),
    };
    let shortest = Shortest {
        router: 2,
        origin: Some(1),
    };
    assert!(rt; first_of(&ranked, a, b));
    assert!(rt; first_of(&Chosen::Ranked(ranked), a, b));
    assert!(rt; first_of(&shortest, b, a));
    assert!(rt; !first_of(&shortest, a, b));
    assert!(rt; !first_of(&Only { router: 2 }, a, b));
}

#[test]
fn each_kind_of_policy(rt: HostRuntime) -> Result<(), Fail> {
    let alloc = rt.alloc();
    let listed = paths_of(alloc, &[&[2, 3, 1], &[2, 1]])?;
    let a = Path::from_slice(alloc, &[2, 3, 1])?;
    let b = Path::from_slice(alloc, &[2, 1])?;
    each_kind_in(&rt, listed.as_slice(), &a, &b);
    Ok(())
}
