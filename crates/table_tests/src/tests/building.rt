//! What a builder takes and refuses.

use super::*;
use bgp_values::Width;
use ranked_policy::{NetRouter, Origin};
use std::process::Abort;

type Answer = Result<(), NetError>;

const TAKEN: Answer = Ok(());

const REPEATED: Answer = Err(NetError::Repeated);

const UNKNOWN: Answer = Err(NetError::UnknownRouter);

const LIMIT: Answer = Err(NetError::Limit);

const BAD_NUMBER: Answer = Err(NetError::BadNumber);

const NOT_SIMPLE: Answer = Err(NetError::NotSimple);

const TOO_LONG: Answer = Err(NetError::TooLong);

static SETTINGS_OF_ALL_KINDS: [(u16, usize, usize, bool); 8] = [
    (0, 1, 1, true),
    (3, 4096, 1024, true),
    (65535, 4096, 64, true),
    (2, 4096, 64, false),
    (90, 0, 64, false),
    (90, 4097, 64, false),
    (90, 4096, 0, false),
    (90, 4096, 1025, false),
];

// Whether a builder has these settings if they are good, and refuses them if not.
fn are_judged(alloc: Global, settings: Settings, good: bool) -> bool {
    match NetBuilder::new(alloc, settings) {
        Ok(net) => good && net.settings() == settings,
        Err(error) => !good && error == NetError::BadNumber,
    }
}

#[test]
fn settings_outside_the_limits_are_refused(rt: HostRuntime) {
    for &(hold, cut, pipe, good) in &SETTINGS_OF_ALL_KINDS {
        let settings = Settings {
            hold,
            restart: 7,
            cut,
            pipe,
            width: Width::Two,
        };
        assert!(rt;
            are_judged(rt.alloc(), settings, good),
            "{hold} {cut} {pipe}"
        );
    }
}

/// What is given to a builder, or asked of it.
enum Step {
    /// The routers, links, origins and rules of a plan are taken.
    Takes(Plan),
    /// Routers 1 to this one are taken, and the links of each with the next.
    Line(u32),
    /// A router with this number and this identifier is answered so.
    Router(Asn, u32, Answer),
    Link(Asn, Asn, Answer),
    /// Links of router 1 with each from this router to below that one are taken.
    LinksOfOne(Asn, Asn),
    Origin(Asn, At, Answer),
    /// Router 1 is taken as origin of 0.0.254.0/24, and of the 254 prefixes of this length before it, the last first.
    ManyOrigins,
    /// A rule of a router is answered so.
    Rule(Asn, At, &'static [&'static [Asn]], Answer),
    /// A rule of router 1 for 0.0.0.0/0, whose paths are those to each router from 2 to below this one.
    RuleOfWays(Asn, Answer),
    /// Rules of router 1 without paths, for 0.0.2.0/24 to 0.0.63.0/24, are taken.
    ManyRules,
    /// The numbers of the routers rise, from 1 on, up to this one.
    RoutersRise(Asn),
    /// There are so many origins, and their prefixes rise.
    OriginsRise(usize),
}

/// What a builder comes to: it is refused as it finishes, or a network of so many routers.
type End = Result<usize, NetError>;

/// What builders are given, stage by stage; each stage ends as the builder finishes, and one that is refused goes on.
struct Case {
    name: &'static str,
    stages: &'static [(&'static [Step], End)],
}

#[rattlefmt::skip]
static CASES: [Case; 7] = [
    Case { name: "faulty routers are refused", stages: &[(&[
        Step::Line(2),
        Step::Router(1, TEN | 9, REPEATED),
        Step::Router(9, TEN | 1, REPEATED),
        Step::Router(0, TEN | 1, REPEATED),
        Step::Router(0, TEN | 9, BAD_NUMBER),
        Step::Router(65536, TEN | 9, BAD_NUMBER),
        Step::Router(9, 9, BAD_NUMBER),
        Step::Router(9, 0xe000_0001, BAD_NUMBER),
        Step::Router(65535, 0xdfff_ffff, TAKEN),
        Step::Router(9, 0x0100_0000, TAKEN),
        Step::RoutersRise(65535),
    ], Err(NetError::NotConnected))] },
    Case { name: "a router past the 64th is refused", stages: &[(&[
        Step::Line(64),
        Step::Router(65, TEN | 65, LIMIT),
        Step::Router(1, TEN | 65, REPEATED),
        Step::Router(0, TEN | 65, LIMIT),
    ], Ok(64))] },
    Case { name: "faulty links are refused", stages: &[(&[
        Step::Line(18),
        Step::Link(1, 2, REPEATED),
        Step::Link(2, 1, REPEATED),
        Step::Link(3, 3, REPEATED),
        Step::Link(99, 99, REPEATED),
        Step::Link(1, 99, UNKNOWN),
        Step::Link(99, 1, UNKNOWN),
        Step::LinksOfOne(3, 18),
        Step::Link(1, 18, LIMIT),
        Step::Link(18, 1, LIMIT),
    ], Ok(18))] },
    Case { name: "faulty origins are refused", stages: &[(&[
        Step::Line(2),
        Step::Origin(9, (TEN, 8), UNKNOWN),
        Step::Origin(2, (TEN, 8), TAKEN),
        Step::Origin(2, (TEN, 8), REPEATED),
        Step::Origin(1, (TEN, 8), REPEATED),
        Step::Origin(9, (TEN, 8), REPEATED),
        Step::ManyOrigins,
        Step::Origin(1, (TEN, 9), LIMIT),
        Step::Origin(2, (0, 24), REPEATED),
        Step::OriginsRise(256),
    ], Ok(2))] },
    Case { name: "faulty rules are refused", stages: &[(&[
        Step::Takes(DISAGREE),
        Step::Rule(2, (TEN, 9), &[&[2, 3, 2]], NOT_SIMPLE),
        Step::Rule(2, (TEN, 9), &[&[3, 1]], NOT_SIMPLE),
        Step::Rule(9, (TEN, 9), &[&[9, 9]], NOT_SIMPLE),
        Step::Rule(2, (TEN, 9), &[&[2, 1], &[2, 3], &[2, 1]], REPEATED),
        Step::Rule(9, (TEN, 9), &[&[9, 1]], UNKNOWN),
        Step::Rule(2, (TEN, 9), &[&[2, 9]], UNKNOWN),
        Step::Rule(9, (TEN, 9), &[], UNKNOWN),
        Step::Rule(2, (TEN, 9), &[], TAKEN),
        Step::Rule(2, (TEN, 9), &[], REPEATED),
    ], Ok(4))] },
    // A router has at most 64 rules, a rule at most 32 paths, a path at most 16 routers.
    Case { name: "rules past a limit are refused", stages: &[(&[
        Step::Line(40),
        Step::Rule(1, (TEN, 1), &[&[1, 2, 3, 4, 5, 6, 7, 8, 9, 10, 11, 12, 13, 14, 15, 16]], TAKEN),
        Step::Rule(1, (TEN, 2), &[&[1, 2, 3, 4, 5, 6, 7, 8, 9, 10, 11, 12, 13, 14, 15, 16, 17]], TOO_LONG),
        Step::RuleOfWays(35, LIMIT),
        Step::RuleOfWays(34, TAKEN),
        Step::ManyRules,
        Step::Rule(1, (64 << 8, 24), &[], LIMIT),
    ], Ok(40))] },
    Case { name: "a network in two parts is given back", stages: &[
        (&[], Err(NetError::Limit)),
        (&[
            Step::Router(1, TEN | 1, TAKEN),
            Step::Router(2, TEN | 2, TAKEN),
            Step::Router(3, TEN | 3, TAKEN),
            Step::Link(1, 2, TAKEN),
        ], Err(NetError::NotConnected)),
        (&[Step::Link(3, 2, TAKEN)], Ok(3)),
    ] },
];

fn push_line(net: &mut NetBuilder, count: u32) -> Answer {
    push_routers(net, count)?;
    for i in 1..count {
        adds_link(net, i, i.wrapping_add(1))?;
    }
    Ok(())
}

fn push_links_of_one(net: &mut NetBuilder, first: Asn, last: Asn) -> Answer {
    for i in first..last {
        adds_link(net, 1, i)?;
    }
    Ok(())
}

fn push_many_origins(net: &mut NetBuilder) -> Answer {
    for i in 0..255u32 {
        adds_origin(net, 1, (254u32.wrapping_sub(i) << 8, 24))?;
    }
    Ok(())
}

fn push_many_rules(alloc: Global, net: &mut NetBuilder) -> Answer {
    for i in 2..64u32 {
        adds_rule(net, 1, (i << 8, 24), Ok(Vec::new(alloc)))?;
    }
    Ok(())
}

/// The paths of router 1 to each from 2 to below `last`.
fn ways_of_two(alloc: Global, last: Asn) -> Result<Vec<Path>, AllocError> {
    let mut list = Vec::new(alloc);
    for i in 2..last {
        list.push(Path::from_slice(alloc, &[1, i])?)?;
    }
    Ok(list)
}

// Whether the numbers rise, from 1 on, up to the last.
fn rise_to(routers: &[NetRouter], greatest: Asn) -> bool {
    let mut last = 0;
    for router in routers {
        if router.asn <= last {
            return false;
        }
        last = router.asn;
    }
    last == greatest
}

// Whether these are so many, and the prefixes rise.
fn are_in_order(origins: &[Origin], count: usize) -> bool {
    let mut last = None;
    for origin in origins {
        if last >= Some(origin.prefix) {
            return false;
        }
        last = Some(origin.prefix);
    }
    origins.len() == count
}

// Whether the builder answers so.
fn is_so(alloc: Global, net: &mut NetBuilder, step: &Step) -> bool {
    match step {
        Step::Takes(plan) => push_plan(alloc, net, plan).is_ok(),
        Step::Line(count) => push_line(net, *count).is_ok(),
        Step::Router(asn, id, want) => adds_router(net, *asn, *id) == *want,
        Step::Link(one, other, want) => adds_link(net, *one, *other) == *want,
        Step::LinksOfOne(first, last) => push_links_of_one(net, *first, *last).is_ok(),
        Step::Origin(router, at, want) => adds_origin(net, *router, *at) == *want,
        Step::ManyOrigins => push_many_origins(net).is_ok(),
        Step::Rule(router, at, lists, want) => {
            adds_rule(net, *router, *at, paths_of(alloc, lists)) == *want
        }
        Step::RuleOfWays(last, want) => {
            adds_rule(net, 1, (0, 0), ways_of_two(alloc, *last)) == *want
        }
        Step::ManyRules => push_many_rules(alloc, net).is_ok(),
        Step::RoutersRise(greatest) => rise_to(net.routers(), *greatest),
        Step::OriginsRise(count) => are_in_order(net.origins(), *count),
    }
}

fn answers(rt: &impl Abort, alloc: Global, net: &mut NetBuilder, name: &str, steps: &[Step]) {
    for (i, step) in steps.iter().enumerate() {
        assert!(rt; is_so(alloc, net, step), "{name}: row {i}");
    }
}

// The builder again, where it is refused so; none where a network of so many routers was built.
fn ends(rt: &impl Abort, net: NetBuilder, name: &str, end: End) -> Option<NetBuilder> {
    match net.finish() {
        Ok(net) => {
            assert!(rt; end == Ok(net.routers().len()), "{name}: finishes");
            None
        }
        Err((net, error)) => {
            assert!(rt; end == Err(error), "{name}: is refused as it finishes");
            Some(net)
        }
    }
}

fn goes(rt: &impl Abort, alloc: Global, case: &Case) -> Option<()> {
    let mut net = NetBuilder::new(alloc, SETTINGS).ok()?;
    for &(steps, end) in case.stages {
        answers(rt, alloc, &mut net, case.name, steps);
        match ends(rt, net, case.name, end) {
            Some(again) => net = again,
            None => return Some(()),
        }
    }
    Some(())
}

#[test]
fn builders_take_and_refuse(rt: HostRuntime) {
    for case in &CASES {
        assert!(rt; goes(&rt, rt.alloc(), case) == Some(()), "{}", case.name);
    }
}
