//! What a router decides, and whom it tells.

use super::answers::{DID, NOTHING};
use super::beginnings::{FRESH, FRESH_OF_THREE, FRESH_TWO, READY};
use super::items::Sent::{Dial, Says};
use super::steps::Asked::{Advertise, Decide, Originate, Start};
use super::steps::Named::{Greatest, Least};
use super::steps::Step::{Does, Drains, Fills, Hears, IsDrained, Keeps, Takes, Waits};
use super::steps::{ALIVE, OPEN_OF_TWO};
use super::*;
use router_core::RouterError;

#[rattlefmt::skip]
static CASES: [Case; 5] = [
    // The greatest is originated first.
    Case { name: "the least prefix is decided first", from: FRESH_OF_THREE, script: &[&[
        Does(Originate(Greatest), DID),
        Does(Originate(Least), DID),
        Does(Decide, DID),
        Keeps(Least, &[1]),
        Keeps(Greatest, &[]),
        Does(Decide, DID),
        Keeps(Least, &[1]),
        Keeps(Greatest, &[1]),
        Does(Decide, NOTHING),
    ]] },
    // At 65,536 octets a peer is told nothing more, until some of them were put.
    Case { name: "a full outbox blocks", from: FRESH, script: &[&[
        Does(Start(2), DID),
        Takes(2, 0, Dial(1), DID),
        Hears(2, Says(1, &[OPEN_OF_TWO])),
        Hears(2, Says(1, &[ALIVE])),
        Fills(Greatest),
        Does(Advertise, Err(RouterError::Blocked { peer: 2 })),
        Drains(2),
        Does(Advertise, DID),
    ]] },
    // Router 2 is told first, then router 3, then nobody.
    Case { name: "the least peer is told first", from: READY, script: &[&[
        Does(Advertise, NOTHING),
        Does(Originate(Least), DID),
        Does(Decide, DID),
        IsDrained(2),
        IsDrained(3),
        Does(Advertise, DID),
        Waits(2),
        IsDrained(3),
        Does(Advertise, DID),
        Waits(3),
        Does(Advertise, NOTHING),
    ]] },
    // A prefix is originated once, its path is set once, and nobody is there to be told.
    Case { name: "what is originated is not originated again", from: FRESH, script: &[&[
        Does(Originate(Greatest), DID),
        Does(Originate(Greatest), NOTHING),
        Does(Decide, DID),
        Does(Decide, NOTHING),
        Does(Advertise, NOTHING),
    ]] },
    // Router 2 is not its origin.
    Case { name: "no other router originates it", from: FRESH_TWO, script: &[&[
        Does(Originate(Greatest), Err(RouterError::NotOrigin)),
    ]] },
];

#[test]
fn routers_decide_and_tell(rt: HostRuntime) -> Result<(), Fail> {
    asks(&rt, rt.alloc(), &CASES)
}
