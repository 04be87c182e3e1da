//! Items that no honest peer puts.

use super::answers::{DID, NOTHING};
use super::beginnings::{FRESH, JOINED};
use super::items::Sent::{Dial, Mark, Says, Shut};
use super::offers::Offered;
use super::steps::Asked::{Handle, Start, Tick};
use super::steps::Step::{Does, Hears, IsDrained, Offers, Puts, Seconds, Stays, Takes};
use super::steps::{ALIVE, OPEN_OF_ONE, OPEN_OF_TWO};
use super::*;
use router_core::RouterError;

#[rattlefmt::skip]
static CASES: [Case; 2] = [
    // Octets of an incarnation that was not joined, a marker before the session is Established, and a Dial
    // of an incarnation that is over: each is taken. Nothing waits to be handled, and nothing was recorded. What
    // the router says is its Dial and its OPEN: no marker, no Shut. It waits for the OPEN of its peer, and
    // answers it by a KEEPALIVE.
    Case { name: "stray items do nothing", from: JOINED, script: &[&[
        Takes(2, 0, Says(2, &[ALIVE]), DID),
        Takes(2, 0, Mark(1, 5), DID),
        Takes(2, 0, Dial(0), DID),
        Does(Handle(2), NOTHING),
        Offers(Offered::Nothing),
        Puts(2, Dial(1)),
        Puts(2, Says(1, &[OPEN_OF_ONE])),
        IsDrained(2),
        Hears(2, Says(1, &[OPEN_OF_TWO])),
        Puts(2, Says(1, &[ALIVE])),
    ]] },
    // The peer joins, and leaves, the greatest incarnation. What the router said then: its own Dial, and the
    // last incarnation, with its OPEN. No incarnation is left for the next Dial: the second in which it is due is
    // refused, and nothing changes.
    Case { name: "the last incarnation is not dialled past", from: FRESH, script: &[&[
        Does(Start(2), DID),
        Takes(2, 0, Dial(u32::MAX), DID),
        Takes(2, 0, Shut(u32::MAX), DID),
        Puts(2, Dial(1)),
        Puts(2, Dial(u32::MAX)),
        Puts(2, Says(u32::MAX, &[OPEN_OF_ONE])),
        Puts(2, Shut(u32::MAX)),
        IsDrained(2),
        Seconds(119),
        Stays(Tick, Err(RouterError::EpochEnd)),
        Stays(Tick, Err(RouterError::EpochEnd)),
        IsDrained(2),
    ]] },
];

#[test]
fn stray_items_are_taken(rt: HostRuntime) -> Result<(), Fail> {
    asks(&rt, rt.alloc(), &CASES)
}
