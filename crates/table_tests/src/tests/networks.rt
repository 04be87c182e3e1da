//! What a network says of itself.

use super::*;
use ranked_policy::{Link, NetItems};
use std::process::Abort;
use std::test::Fail;

/// What is asked of a prefix.
enum Of {
    /// Its place, by address and then by length.
    Place(Option<usize>),
    /// Whether a router originates it.
    IsOrigin(Asn, bool),
    IsNamed(bool),
}

/// What a network is asked, and what it is to answer.
enum Asked {
    Prefix(At, Of),
    /// The place of a router, by rising number.
    Place(Asn, Option<usize>),
    /// Whether there is such a router.
    IsKnown(Asn, bool),
    AreLinked(Asn, Asn, bool),
    LinksOf(Asn, &'static [Link]),
    Peers(Asn, &'static [Asn]),
    /// The settings of every network here.
    Settings,
    /// How many links, origins and routers there are.
    Counts(usize, usize, usize),
}

/// A network, and what it is asked.
struct Case {
    name: &'static str,
    plan: Plan,
    asked: &'static [Asked],
}

const EIGHT: At = (TEN, 8);

/// `DISAGREE`, of which router 4 originates 10.0.0.0/8 as well.
const WITH_EIGHT: Plan = Plan {
    routers: 4,
    links: CROSSED,
    origins: &[(1, SIXTEEN), (1, (0x0b00_0000, 8)), (4, EIGHT)],
    rules: DISAGREEING,
};

#[rattlefmt::skip]
static CASES: [Case; 6] = [
    Case { name: "routers stand by rising number", plan: WITH_EIGHT, asked: &[
        Asked::Place(1, Some(0)),
        Asked::Place(3, Some(2)),
        Asked::Place(4, Some(3)),
        Asked::Place(0, None),
        Asked::Place(5, None),
    ] },
    Case { name: "prefixes stand by address and then by length", plan: WITH_EIGHT, asked: &[
        Asked::Prefix(EIGHT, Of::Place(Some(0))),
        Asked::Prefix(SIXTEEN, Of::Place(Some(1))),
        Asked::Prefix((0x0b00_0000, 8), Of::Place(Some(2))),
        Asked::Prefix((TEN, 9), Of::Place(None)),
        Asked::Prefix((0x0c00_0000, 8), Of::Place(None)),
        Asked::Prefix(EIGHT, Of::IsOrigin(4, true)),
        Asked::Prefix(EIGHT, Of::IsOrigin(1, false)),
    ] },
    Case { name: "readers answer what was built", plan: DISAGREE, asked: &[
        Asked::Settings,
        Asked::Counts(5, 2, 4),
        Asked::Peers(2, &[1, 3, 4]),
    ] },
    Case { name: "the links of a router are listed", plan: DISAGREE, asked: &[
        Asked::LinksOf(2, &[Link { one: 2, other: 1 }, Link { one: 2, other: 3 }, Link { one: 2, other: 4 }]),
        Asked::LinksOf(5, &[]),
    ] },
    Case { name: "routers and links are known", plan: DISAGREE, asked: &[
        Asked::IsKnown(1, true),
        Asked::IsKnown(4, true),
        Asked::IsKnown(5, false),
        Asked::AreLinked(3, 1, true),
        Asked::AreLinked(3, 4, true),
        Asked::AreLinked(3, 5, false),
    ] },
    Case { name: "origins and prefixes are known", plan: DISAGREE, asked: &[
        Asked::Prefix(SIXTEEN, Of::IsOrigin(1, true)),
        Asked::Prefix(SIXTEEN, Of::IsOrigin(4, false)),
        Asked::Prefix(SIXTEEN, Of::IsOrigin(5, false)),
        Asked::Prefix(SIXTEEN, Of::IsNamed(true)),
        Asked::Prefix(EIGHT, Of::IsNamed(false)),
    ] },
];

fn is_so_of(net: &Network, prefix: &Prefix, of: &Of) -> bool {
    match of {
        Of::Place(place) => net.prefix_place(prefix) == *place,
        Of::IsOrigin(asn, wanted) => net.is_origin(*asn, prefix) == *wanted,
        Of::IsNamed(wanted) => net.names(prefix) == *wanted,
    }
}

fn has_peers(alloc: Global, net: &Network, router: Asn, peers: &[Asn]) -> bool {
    match net.peers(alloc, router) {
        Ok(found) => found.as_slice() == peers,
        Err(_) => false,
    }
}

// Whether the network answers so.
fn is_so(alloc: Global, net: &Network, asked: &Asked) -> bool {
    match asked {
        Asked::Prefix((addr, len), of) => {
            match Prefix::new(*addr, *len) {
                Some(prefix) => is_so_of(net, &prefix, of),
                None => false,
            }
        }
        Asked::Place(asn, place) => net.place(*asn) == *place,
        Asked::IsKnown(asn, wanted) => {
            net.has_router(*asn) == *wanted && net.router(*asn).is_some() == *wanted
        }
        Asked::AreLinked(one, other, wanted) => net.linked(*one, *other) == *wanted,
        Asked::LinksOf(router, links) => net.links_of(*router) == *links,
        Asked::Peers(router, peers) => has_peers(alloc, net, *router, peers),
        Asked::Settings => net.settings() == SETTINGS,
        Asked::Counts(links, origins, routers) => {
            net.links().len() == *links
                && net.origins().len() == *origins
                && net.built().routers().len() == *routers
        }
    }
}

fn answers(rt: &impl Abort, alloc: Global, net: &Network, case: &Case) {
    for (i, asked) in case.asked.iter().enumerate() {
        assert!(rt; is_so(alloc, net, asked), "{}: row {i}", case.name);
    }
}

#[test]
fn networks_answer_what_was_built(rt: HostRuntime) -> Result<(), Fail> {
    for case in &CASES {
        let net = network(rt.alloc(), &case.plan)?;
        answers(&rt, rt.alloc(), &net, case);
    }
    Ok(())
}

fn is_empty_list(alloc: Global) -> bool {
    let list: NetItems<Asn> = NetItems::new(alloc);
    list.is_empty()
}

// Whether a list has these numbers, and gives them back.
fn keeps_two(list: Vec<Asn>) -> bool {
    let list = NetItems::from_vec(list);
    list.len() == 2 && list.into_vec().as_slice() == [1, 2].as_slice()
}

#[test]
fn a_list_keeps_its_items(rt: HostRuntime) -> Result<(), Fail> {
    let alloc = rt.alloc();
    assert!(rt; is_empty_list(alloc));
    assert!(rt; keeps_two([1, 2].to_vec(alloc)?));
    Ok(())
}
