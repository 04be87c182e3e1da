//! Runs through the cut of a snapshot.

use super::playing::turn;
use super::{one_router, two_routers};
use prefix_lanes::Prefix;
use ranked_policy::{Asn, Network};
use router_model::Command;
use std::alloc::{AllocError, Global};
use std::process::Abort;
use std::test::Fail;
use world_core::*;

// What a schedule names; the prefix is that of the network.
#[derive(Clone, Copy)]
enum Does {
    Starts(Asn, Asn),
    Resets(Asn, Asn),
    Originates(Asn),
    Withdraws(Asn),
    Records(Asn, u32),
    Decides(Asn),
    Advertises(Asn),
    Offers(Asn),
    // So many rounds of two routers.
    Rounds(u32),
}

// A schedule in parts, the number of a snapshot, and what comes of it: how many events are inside its cut, how many
// there are, and how many lead to the cut.
#[derive(Clone, Copy)]
struct Row {
    all: &'static [&'static [Does]],
    number: u32,
    through: Option<(usize, usize, usize)>,
}

// Two routers come to rest, with a route.
const SETTLES: &[Does] = &[
    Does::Starts(1, 2),
    Does::Starts(2, 1),
    Does::Originates(1),
    Does::Rounds(40),
];

// At rest, and no such snapshot; while a withdrawal is in flight; and with a session that closes meanwhile.
static OF_TWO: [Row; 4] = [
    Row {
        all: &[SETTLES, &[Does::Records(1, 1), Does::Rounds(10)]],
        number: 1,
        through: Some((31, 36, 32)),
    },
    Row {
        all: &[SETTLES, &[Does::Records(1, 1), Does::Rounds(10)]],
        number: 2,
        through: None,
    },
    Row {
        all: &[
            SETTLES,
            &[Does::Withdraws(1), Does::Decides(1), Does::Advertises(1)],
            &[Does::Records(1, 1), Does::Records(2, 1), Does::Rounds(10)],
        ],
        number: 1,
        through: Some((34, 48, 34)),
    },
    Row {
        all: &[
            SETTLES,
            &[Does::Records(1, 1), Does::Resets(2, 1), Does::Rounds(5)],
            &[Does::Starts(1, 2), Does::Rounds(40)],
        ],
        number: 1,
        through: None,
    },
];

static OF_ONE: [Row; 1] = [Row {
    all: &[&[
        Does::Originates(1),
        Does::Decides(1),
        Does::Records(1, 1),
        Does::Offers(1),
    ]],
    number: 1,
    through: Some((3, 4, 3)),
}];

fn rounds(events: &mut Vec<Event>, times: u32) -> Result<(), AllocError> {
    for _ in 0..times {
        turn(events, 1, 2)?;
        turn(events, 2, 1)?;
    }
    Ok(())
}

fn adds(events: &mut Vec<Event>, does: Does, prefix: Prefix) -> Result<(), AllocError> {
    match does {
        Does::Starts(number, peer) => {
            events.extend_from_slice(&[Event::Command(number, Command::Start(peer))])
        }
        Does::Resets(number, peer) => {
            events.extend_from_slice(&[Event::Command(number, Command::Reset(peer))])
        }
        Does::Originates(number) => {
            events.extend_from_slice(&[Event::Command(number, Command::Originate(prefix))])
        }
        Does::Withdraws(number) => {
            events.extend_from_slice(&[Event::Command(number, Command::Withdraw(prefix))])
        }
        Does::Records(number, made) => {
            events.extend_from_slice(&[Event::Command(number, Command::Snapshot(made))])
        }
        Does::Decides(number) => events.extend_from_slice(&[Event::Decide(number)]),
        Does::Advertises(number) => events.extend_from_slice(&[Event::Advertise(number)]),
        Does::Offers(number) => events.extend_from_slice(&[Event::Offer(number)]),
        Does::Rounds(times) => rounds(events, times),
    }
}

fn adds_all(events: &mut Vec<Event>, part: &[Does], prefix: Prefix) -> Result<(), AllocError> {
    for &does in part {
        adds(events, does, prefix)?;
    }
    Ok(())
}

// The events of a schedule, those that find nothing to do among them.
fn schedule(alloc: Global, all: &[&[Does]], prefix: Prefix) -> Result<Vec<Event>, AllocError> {
    let mut events = Vec::new(alloc);
    for part in all {
        adds_all(&mut events, part, prefix)?;
    }
    Ok(events)
}

// Whether events are played and each of them is done.
fn does_all(alloc: Global, network: &Network, events: &[Event]) -> bool {
    match play(alloc, network, events) {
        Ok(world) => world.run() == events && world.into_run().as_slice() == events,
        Err(_) => false,
    }
}

// Whether a run through the cut is the wanted one, and all of its events are done again.
fn is_wanted(
    alloc: Global,
    network: &Network,
    through: &Through,
    wanted: (usize, usize, usize),
) -> bool {
    (through.recorded, through.events.len(), through.place) == wanted
        && does_all(alloc, network, through.events.as_slice())
}

// Whether what is done comes to the wanted answer.
fn comes_to(alloc: Global, network: &Network, events: &[Event], row: &Row) -> bool {
    match (through_cut(alloc, network, events, row.number), row.through) {
        (Ok(Some(through)), Some(wanted)) => is_wanted(alloc, network, &through, wanted),
        (Ok(None), None) => true,
        _ => false,
    }
}

// Whether as many of what is done is inside as is wanted.
fn counts(alloc: Global, network: &Network, events: Vec<Event>, row: &Row) -> bool {
    match (
        count_inside(alloc, network, events, row.number),
        row.through,
    ) {
        (Ok(Some(inside)), Some((recorded, _, _))) => inside == recorded,
        (Ok(None), None) => true,
        _ => false,
    }
}

fn is_as(alloc: Global, network: &Network, prefix: Prefix, row: &Row) -> bool {
    match schedule(alloc, row.all, prefix) {
        Ok(events) => {
            comes_to(alloc, network, events.as_slice(), row) && counts(alloc, network, events, row)
        }
        Err(_) => false,
    }
}

fn rows_are(rt: &impl Abort, alloc: Global, network: &Network, prefix: Prefix, rows: &[Row]) {
    for row in rows {
        assert!(rt; is_as(alloc, network, prefix, row));
    }
}

#[test]
fn two_routers_go_through_the_cut(rt: HostRuntime) -> Result<(), Fail> {
    let prefix = Prefix::new(0x0a01_0000, 16).ok_or("a prefix")?;
    let net = two_routers(rt.alloc(), prefix)?;
    rows_are(&rt, rt.alloc(), &net, prefix, &OF_TWO);
    Ok(())
}

#[test]
fn one_router_goes_through_the_cut(rt: HostRuntime) -> Result<(), Fail> {
    let prefix = Prefix::new(0x0a01_0000, 16).ok_or("a prefix")?;
    let net = one_router(rt.alloc(), prefix)?;
    rows_are(&rt, rt.alloc(), &net, prefix, &OF_ONE);
    Ok(())
}
