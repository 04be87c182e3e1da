//! What time and a restart bring.

use super::answers::{DID, NOTHING};
use super::beginnings::{ESTABLISHED, FRESH};
use super::items::Sent::{Dial, Says, Shut};
use super::steps::ALIVE;
use super::steps::Asked::{Advertise, Decide, Originate, Restart, Start, Withdraw};
use super::steps::Named::Greatest;
use super::steps::Step::{Does, Drains, IsDrained, Keeps, Puts, Seconds};
use super::*;

// A third of the hold time of 90 seconds passes: 1 says KEEPALIVE.
const SAYS_ALIVE: &[Step<'static>] = &[
    Seconds(29),
    IsDrained(2),
    Seconds(1),
    Puts(2, Says(1, &[ALIVE])),
];

#[rattlefmt::skip]
static CASES: [Case; 4] = [
    Case { name: "a keepalive goes out in time", from: ESTABLISHED, script: &[SAYS_ALIVE] },
    // An UPDATE that is told sets the time again: 1 says KEEPALIVE a third of the hold time behind it (RFC 4271
    // section 8.2.2).
    Case { name: "an update puts the keepalive off", from: ESTABLISHED, script: &[&[
        Does(Originate(Greatest), DID),
        Does(Decide, DID),
        Seconds(20),
        Does(Advertise, DID),
        Drains(2),
    ], SAYS_ALIVE] },
    // 90 seconds without a message: NOTIFICATION 4/0 behind two KEEPALIVEs, and the end of the incarnation.
    Case { name: "a silent peer is left", from: ESTABLISHED, script: &[&[
        Seconds(90),
        Puts(2, Says(1, &[ALIVE, ALIVE, &[0x00, 0x15, 0x03, 0x04, 0x00]])),
        Puts(2, Shut(1)),
    ]] },
    // A router that originates its prefix, keeps its path and dialled incarnation 1; after a restart it keeps and
    // originates nothing, and its next incarnation is 2.
    Case { name: "a restart forgets routes and no incarnation", from: FRESH, script: &[&[
        Does(Originate(Greatest), DID),
        Does(Decide, DID),
        Does(Start(2), DID),
        Does(Restart, DID),
        Keeps(Greatest, &[]),
        Does(Withdraw(Greatest), NOTHING),
        Does(Start(2), DID),
        Puts(2, Dial(1)),
        Puts(2, Shut(1)),
        Puts(2, Dial(2)),
        IsDrained(2),
    ]] },
];

#[test]
fn time_and_restarts_pass(rt: HostRuntime) -> Result<(), Fail> {
    asks(&rt, rt.alloc(), &CASES)
}
