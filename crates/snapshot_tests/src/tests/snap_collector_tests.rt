//! Verdicts on the offers of two linked routers (`snap_collector`).

use super::offers::Offered::{Loss, Part};
use super::offers::{LOSS_OF_2, Offered, offer};
use ranked_policy::{Asn, NetItems};
use snap_collector::{Member, Outcome, Why, decides, has_offered, laws, verdict};
use snap_marker::Offer;
use std::alloc::{AllocError, Global};
use std::process::Abort;
use std::test::*;

mod many;
mod offering;

fn push_member(
    alloc: Global,
    members: &mut Vec<Member>,
    router: Asn,
    peer: Asn,
) -> Result<(), AllocError> {
    let peers = Vec::from_slice(alloc, &[peer])?;
    let peers = NetItems::from_vec(peers);
    members
        .push(Member { router, peers })
        .map_err(|_| AllocError)
}

// The routers 1 and 2, each with the other as its peer.
fn pair(alloc: Global) -> Result<Vec<Member>, AllocError> {
    let mut members = Vec::new(alloc);
    push_member(alloc, &mut members, 1, 2)?;
    push_member(alloc, &mut members, 2, 1)?;
    Ok(members)
}

fn push_offer(alloc: Global, offers: &mut Vec<Offer>, offered: &Offered) -> Result<(), AllocError> {
    let offer = offer(alloc, *offered)?;
    offers.push(offer).map_err(|_| AllocError)
}

fn offers(alloc: Global, offered: &[Offered]) -> Result<Vec<Offer>, AllocError> {
    let mut offers = Vec::new(alloc);
    for one in offered {
        push_offer(alloc, &mut offers, one)?;
    }
    Ok(offers)
}

// What is asked of offers. These helpers ensure nothing, so that one answer is not carried along to the
// next.
fn has_verdict(members: &[Member], offers: &[Offer], outcome: Outcome) -> bool {
    verdict(members, offers) == outcome
}

fn is_decided(members: &[Member], offers: &[Offer]) -> bool {
    decides(members, offers)
}

// Offers, and the verdict on them.
type Case = (&'static [Offered], Outcome);

fn is_judged(alloc: Global, members: &[Member], case: &Case) -> bool {
    let (offered, outcome) = *case;
    match offers(alloc, offered) {
        Ok(offers) => {
            has_verdict(members, &offers, outcome)
                && is_decided(members, &offers) == (outcome != Outcome::Waiting)
        }
        Err(_) => false,
    }
}

fn all_are_judged(rt: &impl Abort, alloc: Global, members: &[Member], cases: &[Case]) {
    for (i, case) in cases.iter().enumerate() {
        assert!(rt; is_judged(alloc, members, case), "case {i}");
    }
}

fn judges(rt: &impl Abort, alloc: Global, cases: &[Case]) -> Result<(), Fail> {
    match pair(alloc) {
        Ok(members) => all_are_judged(rt, alloc, &members, cases),
        Err(_) => return Err("no memory".into()),
    }
    Ok(())
}

// Nothing, or the part of one router, decides nothing.
static PARTS: [Case; 3] = [
    (&[], Outcome::Waiting),
    (&[Part(2, false, 7, 0)], Outcome::Waiting),
    (
        &[Part(2, false, 7, 0), Part(1, false, 7, 0)],
        Outcome::Settled,
    ),
];

#[test]
fn a_snapshot_waits_for_every_part(rt: HostRuntime) -> Result<(), Fail> {
    judges(&rt, rt.alloc(), &PARTS)
}

fn has_offer(offers: &[Offer], router: Asn) -> bool {
    has_offered(offers, router)
}

#[test]
fn who_has_offered(rt: HostRuntime) -> Result<(), Fail> {
    let offers = offers(rt.alloc(), &[Part(2, false, 7, 0)])?;
    assert!(rt; has_offer(&offers, 2) && !has_offer(&offers, 1));
    Ok(())
}

// A loss abandons it, whatever the other part says.
static LOSSES: [Case; 2] = [
    (&[Loss(2, 5), Loss(1, 5)], Outcome::Abandoned(LOSS_OF_2)),
    (
        &[Part(1, true, 7, 1), Loss(2, 5)],
        Outcome::Abandoned(LOSS_OF_2),
    ),
];

#[test]
fn a_loss_abandons(rt: HostRuntime) -> Result<(), Fail> {
    judges(&rt, rt.alloc(), &LOSSES)
}

// The first fault: the least router's, and there a pending part before a channel before another
// incarnation.
static FAULTS: [Case; 5] = [
    (
        &[Part(2, true, 8, 1), Part(1, true, 7, 1)],
        Outcome::Moving {
            router: 1,
            why: Why::Pending,
        },
    ),
    (
        &[Part(2, true, 8, 0), Part(1, false, 7, 1)],
        Outcome::Moving {
            router: 1,
            why: Why::InFlight(2),
        },
    ),
    (
        &[Part(2, true, 8, 0), Part(1, false, 7, 0)],
        Outcome::Moving {
            router: 1,
            why: Why::Mismatch(2),
        },
    ),
    (
        &[Part(2, true, 7, 2), Part(1, false, 7, 0)],
        Outcome::Moving {
            router: 2,
            why: Why::Pending,
        },
    ),
    (
        &[Part(2, false, 7, 2), Part(1, false, 7, 0)],
        Outcome::Moving {
            router: 2,
            why: Why::InFlight(1),
        },
    ),
];

#[test]
fn the_first_fault_is_named(rt: HostRuntime) -> Result<(), Fail> {
    judges(&rt, rt.alloc(), &FAULTS)
}

/// Each law stands at the types of the program.
#[test]
fn each_law_holds_at_a_type(_rt: HostRuntime) {
    laws::verdicts_are_outcomes();
    laws::nothing_is_kept();
    laws::kept_goes_on();
    laws::collected_are_kept();
    laws::settled_has_none_in_flight();
}
