//! Two routers, between which items are carried.

use super::answers::{DID, does, keeps, takes_item};
use super::beginnings::{FRESH, FRESH_AT_1, FRESH_AT_18};
use super::places::settles_by_place;
use super::*;
use prefix_lanes::Prefix;
use router_core::{Call, Command, Offer};

// How two routers meet.
enum Way {
    // Both have their routes after so many turns.
    Turns(u32),
    // Then both have recorded a snapshot after as many more, and what they offer is not pending.
    Records(u32),
    // They are asked by place, until nothing is left to do.
    ByPlace,
}

struct Meeting {
    name: &'static str,
    from: Beginning,
    way: Way,
}

#[rattlefmt::skip]
static MEETINGS: [Meeting; 7] = [
    Meeting { name: "they have their routes at a cut of 4096", from: FRESH, way: Way::Turns(40) },
    Meeting { name: "they have their routes at a cut of 18", from: FRESH_AT_18, way: Way::Turns(100) },
    Meeting { name: "they have their routes at a cut of 1", from: FRESH_AT_1, way: Way::Turns(400) },
    Meeting { name: "they record at a cut of 4096", from: FRESH, way: Way::Records(40) },
    Meeting { name: "they record at a cut of 18", from: FRESH_AT_18, way: Way::Records(100) },
    Meeting { name: "they record at a cut of 1", from: FRESH_AT_1, way: Way::Records(400) },
    Meeting { name: "they settle by place", from: FRESH, way: Way::ByPlace },
];

// Carries one item from router u to v, where one waits and is taken. Whether it was not refused to be shown.
fn carries(from: &mut Router<'_>, to: &mut Router<'_>, u: Asn, v: Asn) -> bool {
    match from.next_item(v) {
        Ok(Some(item)) => {
            if takes_item(to, u, &item) == DID {
                from.item_put(v);
            }
            true
        }
        Ok(None) => true,
        Err(_) => false,
    }
}

// A router handles one message, decides and tells; whether nothing was refused.
fn acts(router: &mut Router<'_>, peer: Asn) -> bool {
    does(router, &Call::Handle(peer)).is_ok()
        && does(router, &Call::Decide).is_ok()
        && does(router, &Call::Advertise).is_ok()
}

// Turns of both: each way one item; then each acts.
fn turns(one: &mut Router<'_>, two: &mut Router<'_>, n: u32) -> bool {
    for _ in 0..n {
        if !carries(one, two, 1, 2) || !carries(two, one, 2, 1) || !acts(one, 2) || !acts(two, 1) {
            return false;
        }
    }
    true
}

// Both start, and router 1 originates its prefix.
fn begins(one: &mut Router<'_>, two: &mut Router<'_>, prefix: Prefix) -> bool {
    does(one, &Call::Obey(Command::Start(2))) == DID
        && does(two, &Call::Obey(Command::Start(1))) == DID
        && does(one, &Call::Obey(Command::Originate(prefix))) == DID
}

// Both have their routes.
fn have_routes(one: &Router<'_>, two: &Router<'_>, prefix: Prefix) -> bool {
    keeps(one, &prefix, &[1]) && keeps(two, &prefix, &[2, 1])
}

// Whether a part of snapshot 1 is offered, and not pending.
fn offers_quiet_part(router: &Router<'_>) -> bool {
    match router.next_offer() {
        Some(Offer::Part(part)) => !part.pending && part.number == 1,
        Some(Offer::Lost(_)) | None => false,
    }
}

// A snapshot of both: after some turns each has a part, which is not pending.
fn record(one: &mut Router<'_>, two: &mut Router<'_>, n: u32) -> bool {
    does(one, &Call::Obey(Command::Snapshot(1))) == DID
        && turns(one, two, n)
        && offers_quiet_part(one)
        && offers_quiet_part(two)
}

// Both have their routes after some turns.
fn settles(one: &mut Router<'_>, two: &mut Router<'_>, prefix: Prefix, n: u32) -> bool {
    begins(one, two, prefix) && turns(one, two, n) && have_routes(one, two, prefix)
}

fn meet(one: &mut Router<'_>, two: &mut Router<'_>, prefix: Prefix, way: &Way) -> bool {
    match way {
        Way::Turns(n) => settles(one, two, prefix, *n),
        Way::Records(n) => settles(one, two, prefix, *n) && record(one, two, *n),
        Way::ByPlace => {
            begins(one, two, prefix) && settles_by_place(one, two) && have_routes(one, two, prefix)
        }
    }
}

fn meet_beside(
    alloc: Global,
    net: &Network,
    one: &mut Router<'_>,
    way: &Way,
) -> Result<bool, Fail> {
    let prefix = prefix(Named::Greatest).ok_or("a prefix")?;
    let mut two = router(alloc, net, 2)?;
    let outcome = meet(one, &mut two, prefix, way);
    forget(two);
    Ok(outcome)
}

fn meet_in(alloc: Global, net: &Network, way: &Way) -> Result<bool, Fail> {
    let mut one = router(alloc, net, 1)?;
    let outcome = meet_beside(alloc, net, &mut one, way);
    forget(one);
    outcome
}

fn meet_from(alloc: Global, meeting: &Meeting) -> Result<bool, Fail> {
    let net = star(alloc, &meeting.from)?;
    let outcome = meet_in(alloc, &net, &meeting.way);
    forget(net);
    outcome
}

#[test]
fn two_routers_meet(rt: HostRuntime) -> Result<(), Fail> {
    for meeting in &MEETINGS {
        assert!(rt; meet_from(rt.alloc(), meeting)?, "{}", meeting.name);
    }
    Ok(())
}
