//! Routers of a network whose AS numbers have four octets (RFC 6793).

use super::answers::DID;
use super::beginnings::{WIDE, WIDE_70000};
use super::items::Sent::{Dial, Says, Shut};
use super::steps::Asked::Start;
use super::steps::OPEN_OF_TWO;
use super::steps::Step::{Does, Hears, IsDrained, Puts, Takes};
use super::*;

// The OPEN of router 1, whose capability 65 says its number.
const WIDE_OPEN_OF_ONE: &[u8] = &[
    0x00, 0x25, 0x01, 0x04, 0x00, 0x01, 0x00, 0x5a, 0x0a, 0x00, 0x00, 0x01, 0x08, 0x02, 0x06, 0x41,
    0x04, 0x00, 0x00, 0x00, 0x01,
];

// NOTIFICATION 2/7 with the capability that was wanted, which says the router's own number.
const WANTS_THE_CAPABILITY: &[u8] = &[
    0x00, 0x1b, 0x03, 0x02, 0x07, 0x41, 0x04, 0x00, 0x00, 0x00, 0x01,
];

// The OPEN of router 70000: its field AS is AS_TRANS, and its capability 65 says the number.
const OPEN_OF_70000: &[u8] = &[
    0x00, 0x25, 0x01, 0x04, 0x5b, 0xa0, 0x00, 0x5a, 0x0a, 0x00, 0x00, 0x01, 0x08, 0x02, 0x06, 0x41,
    0x04, 0x00, 0x01, 0x11, 0x70,
];

#[rattlefmt::skip]
static CASES: [Case; 2] = [
    // A peer whose OPEN has no capability 65 is refused; then the session is Idle, where a start dials.
    Case { name: "an open without the capability closes", from: WIDE, script: &[&[
        Does(Start(2), DID),
        Takes(2, 0, Dial(1), DID),
        Hears(2, Says(1, &[OPEN_OF_TWO])),
        Puts(2, Dial(1)),
        Puts(2, Says(1, &[WIDE_OPEN_OF_ONE, WANTS_THE_CAPABILITY])),
        Puts(2, Shut(1)),
        IsDrained(2),
        Does(Start(2), DID),
        Puts(2, Dial(2)),
    ]] },
    Case { name: "an open says a number of four octets", from: WIDE_70000, script: &[&[
        Does(Start(2), DID),
        Takes(2, 0, Dial(1), DID),
        Puts(2, Dial(1)),
        Puts(2, Says(1, &[OPEN_OF_70000])),
        IsDrained(2),
    ]] },
];

#[test]
fn numbers_of_four_octets_are_said(rt: HostRuntime) -> Result<(), Fail> {
    asks(&rt, rt.alloc(), &CASES)
}
