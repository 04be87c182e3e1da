//! What a collector of two linked routers answers, offer by offer.

use crate::tests::messages::is_withdrawal;
use crate::tests::networks::{PAIR, network};
use crate::tests::offers::Offered::{Loss, Part};
use crate::tests::offers::{LOSS_OF_2, Offered, offer};
use ranked_policy::Asn;
use snap_collector::{CollectError, Collector, InFlight, Outcome, Taken, Why};
use snap_marker::Offer;
use std::alloc::{AllocError, Global};
use std::process::Abort;
use std::test::*;

type Answer = Result<Taken, CollectError>;

// What is done to a collector, or asked of it.
#[derive(Clone, Copy)]
enum Step {
    // An offer is answered so.
    Offers(Offered, Answer),
    // Why an offer would be refused, if it would.
    Refuses(Offered, Option<CollectError>),
    // An offer is kept, whether it is late or not.
    Records(Offered),
    // The snapshot of a number comes out so.
    ComesOut(u32, Outcome),
    // These numbers are decided.
    Decided(&'static [u32]),
    // Whether the part of a router can be read, of the snapshot of a number.
    HasPart(u32, Asn, bool),
    // The UPDATEs in flight, each to a router from its peer, of the snapshot of a number.
    InFlight(u32, &'static [(Asn, Asn)]),
}

// The calls. These helpers ensure nothing, so that one answer is not carried along to the next.
fn offers(collector: &mut Collector, offer: Result<Offer, AllocError>) -> Answer {
    collector.offer(offer?)
}

fn records(collector: &mut Collector, offer: Result<Offer, AllocError>) -> bool {
    match offer {
        Ok(offer) => collector.record(offer).is_ok(),
        Err(_) => false,
    }
}

fn refuses(
    collector: &Collector,
    offer: Result<Offer, AllocError>,
    refusal: Option<CollectError>,
) -> bool {
    match offer {
        Ok(offer) => collector.refusal(&offer) == refusal,
        Err(_) => false,
    }
}

fn comes_out(collector: &Collector, number: u32, outcome: Outcome) -> bool {
    collector.outcome(number) == outcome
}

fn has_decided(collector: &Collector, numbers: &[u32]) -> bool {
    collector.decided() == numbers
}

fn has_part(collector: &Collector, number: u32, router: Asn) -> bool {
    collector.part(number, router).is_some()
}

// Whether each is a withdrawal to this router from this peer.
fn are_withdrawals(flights: &[InFlight], wanted: &[(Asn, Asn)]) -> bool {
    if flights.len() != wanted.len() {
        return false;
    }
    for (i, flight) in flights.iter().enumerate() {
        if (flight.router, flight.peer) != wanted[i] || !is_withdrawal(&flight.update) {
            return false;
        }
    }
    true
}

fn has_in_flight(collector: &Collector, number: u32, wanted: &[(Asn, Asn)]) -> bool {
    match collector.in_flight(number) {
        Ok(flights) => are_withdrawals(&flights, wanted),
        Err(_) => false,
    }
}

// Whether a step is so.
fn is_so(alloc: Global, collector: &mut Collector, step: Step) -> bool {
    match step {
        Step::Offers(offered, answer) => offers(collector, offer(alloc, offered)) == answer,
        Step::Refuses(offered, refusal) => refuses(collector, offer(alloc, offered), refusal),
        Step::Records(offered) => records(collector, offer(alloc, offered)),
        Step::ComesOut(number, outcome) => comes_out(collector, number, outcome),
        Step::Decided(numbers) => has_decided(collector, numbers),
        Step::HasPart(number, router, wanted) => has_part(collector, number, router) == wanted,
        Step::InFlight(number, wanted) => has_in_flight(collector, number, wanted),
    }
}

fn all_are_so(rt: &impl Abort, alloc: Global, collector: &mut Collector, steps: &[Step]) {
    for (i, step) in steps.iter().enumerate() {
        assert!(rt; is_so(alloc, collector, *step), "step {i}");
    }
}

fn collector(alloc: Global) -> Option<Collector> {
    let net = network(alloc, &PAIR).ok()?;
    Collector::new(alloc, &net).ok()
}

// Takes a collector through these steps.
fn tries(rt: &impl Abort, alloc: Global, steps: &[Step]) -> Result<(), Fail> {
    match collector(alloc) {
        Some(mut collector) => all_are_so(rt, alloc, &mut collector, steps),
        None => return Err("no collector".into()),
    }
    Ok(())
}

// The parts of both routers, with nothing pending and nothing on the way.
const QUIET_1: Offered = Part(1, false, 7, 0);

const QUIET_2: Offered = Part(2, false, 7, 0);

const STRANGER: CollectError = CollectError::Stranger { router: 3 };

const SECOND: CollectError = CollectError::Twice { router: 1 };

// The offer of a number that is no router's is refused, and nothing is kept.
static A_STRANGER: [Step; 2] = [
    Step::Offers(Loss(3, 5), Err(STRANGER)),
    Step::ComesOut(5, Outcome::Waiting),
];

#[test]
fn a_stranger_is_refused(rt: HostRuntime) -> Result<(), Fail> {
    tries(&rt, rt.alloc(), &A_STRANGER)
}

// A second offer of a router is refused while the snapshot waits.
static A_SECOND_OFFER: [Step; 3] = [
    Step::Offers(QUIET_1, Ok(Taken::Kept)),
    Step::Offers(Loss(1, 5), Err(SECOND)),
    Step::Decided(&[]),
];

#[test]
fn a_second_offer_is_refused(rt: HostRuntime) -> Result<(), Fail> {
    tries(&rt, rt.alloc(), &A_SECOND_OFFER)
}

// What would be refused can be asked before it is offered.
static REFUSALS: [Step; 4] = [
    Step::Refuses(Loss(3, 5), Some(STRANGER)),
    Step::Refuses(Loss(1, 5), None),
    Step::Offers(QUIET_1, Ok(Taken::Kept)),
    Step::Refuses(Loss(1, 5), Some(SECOND)),
];

#[test]
fn a_refusal_can_be_asked(rt: HostRuntime) -> Result<(), Fail> {
    tries(&rt, rt.alloc(), &REFUSALS)
}

// No late offer is refused, not even a second one.
static A_LATE_OFFER: [Step; 2] = [
    Step::Offers(Loss(2, 5), Ok(Taken::Decided)),
    Step::Refuses(Loss(2, 5), None),
];

#[test]
fn a_late_offer_is_not_refused(rt: HostRuntime) -> Result<(), Fail> {
    tries(&rt, rt.alloc(), &A_LATE_OFFER)
}

// The last part decides, and it and the others can be read.
static THE_LAST_PART: [Step; 6] = [
    Step::Offers(QUIET_2, Ok(Taken::Kept)),
    Step::Offers(QUIET_1, Ok(Taken::Decided)),
    Step::ComesOut(5, Outcome::Settled),
    Step::Decided(&[5]),
    Step::HasPart(5, 2, true),
    Step::HasPart(5, 3, false),
];

#[test]
fn the_last_part_decides(rt: HostRuntime) -> Result<(), Fail> {
    tries(&rt, rt.alloc(), &THE_LAST_PART)
}

// The first loss decides, and what comes behind it is late.
static THE_FIRST_LOSS: [Step; 4] = [
    Step::Offers(Loss(2, 5), Ok(Taken::Decided)),
    Step::Offers(QUIET_1, Ok(Taken::Late)),
    Step::ComesOut(5, Outcome::Abandoned(LOSS_OF_2)),
    Step::HasPart(5, 1, false),
];

#[test]
fn the_first_loss_decides(rt: HostRuntime) -> Result<(), Fail> {
    tries(&rt, rt.alloc(), &THE_FIRST_LOSS)
}

// An offer that is kept late changes no outcome.
static RECORDED_LATE: [Step; 6] = [
    Step::Records(Loss(2, 5)),
    Step::Records(Loss(1, 5)),
    Step::Records(QUIET_1),
    Step::ComesOut(5, Outcome::Abandoned(LOSS_OF_2)),
    Step::Decided(&[5]),
    Step::HasPart(5, 1, false),
];

#[test]
fn what_is_recorded_late_is_not_heard(rt: HostRuntime) -> Result<(), Fail> {
    tries(&rt, rt.alloc(), &RECORDED_LATE)
}

// The numbers that are decided rise, in whatever order they came.
static NUMBERS: [Step; 4] = [
    Step::Offers(Loss(2, 9), Ok(Taken::Decided)),
    Step::Offers(Loss(2, 4), Ok(Taken::Decided)),
    Step::Offers(Loss(2, 7), Ok(Taken::Decided)),
    Step::Decided(&[4, 7, 9]),
];

#[test]
fn decided_numbers_rise(rt: HostRuntime) -> Result<(), Fail> {
    tries(&rt, rt.alloc(), &NUMBERS)
}

// Two parts that name two incarnations of the link.
static TWO_INCARNATIONS: [Step; 3] = [
    Step::Offers(QUIET_1, Ok(Taken::Kept)),
    Step::Offers(Part(2, false, 8, 0), Ok(Taken::Decided)),
    Step::ComesOut(
        5,
        Outcome::Moving {
            router: 1,
            why: Why::Mismatch(2),
        },
    ),
];

#[test]
fn two_incarnations_are_moving(rt: HostRuntime) -> Result<(), Fail> {
    tries(&rt, rt.alloc(), &TWO_INCARNATIONS)
}

// What the channels of the parts hold is in flight once the snapshot is decided: to 1 first, then to 2.
static ON_THE_WAY: [Step; 5] = [
    Step::Offers(Part(2, false, 7, 1), Ok(Taken::Kept)),
    Step::InFlight(5, &[]),
    Step::Offers(Part(1, false, 7, 2), Ok(Taken::Decided)),
    Step::InFlight(5, &[(1, 2), (1, 2), (2, 1)]),
    Step::InFlight(6, &[]),
];

#[test]
fn updates_are_in_flight(rt: HostRuntime) -> Result<(), Fail> {
    tries(&rt, rt.alloc(), &ON_THE_WAY)
}

// Nothing is in flight of a snapshot that is settled, nor of one that is abandoned.
static NONE_ON_THE_WAY: [Step; 6] = [
    Step::Offers(QUIET_1, Ok(Taken::Kept)),
    Step::Offers(QUIET_2, Ok(Taken::Decided)),
    Step::InFlight(5, &[]),
    Step::Records(Part(1, false, 7, 2)),
    Step::Records(Loss(2, 4)),
    Step::InFlight(4, &[]),
];

#[test]
fn nothing_is_in_flight(rt: HostRuntime) -> Result<(), Fail> {
    tries(&rt, rt.alloc(), &NONE_ON_THE_WAY)
}
