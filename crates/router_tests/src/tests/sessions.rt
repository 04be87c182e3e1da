//! Sessions: how they open, and what closes them.

use super::answers::{DID, NOTHING};
use super::beginnings::{ESTABLISHED, FRESH, FRESH_AT_18, JOINED};
use super::items::Sent::{Dial, Octets, Says, Shut};
use super::steps::Asked::{Handle, Reset, Start, Stop};
use super::steps::Step::{ActedOnNothing, Does, Hears, IsDrained, IsIdle, Puts, PutsAt, Takes};
use super::steps::{ALIVE, OPEN_OF_ONE, OPEN_OF_TWO};
use super::*;
use router_core::RouterError;

// Nineteen octets whose first is no marker.
const NO_HEADER: [u8; 19] = [
    0xfe, 0xff, 0xff, 0xff, 0xff, 0xff, 0xff, 0xff, 0xff, 0xff, 0xff, 0xff, 0xff, 0xff, 0xff, 0xff,
    0xff, 0xff, 0xff,
];

// Nothing follows the Shut, and no UPDATE was acted on. The session is Idle, where a start dials the next incarnation.
const CLOSED: &[Step<'static>] = &[
    Puts(2, Shut(1)),
    IsDrained(2),
    IsIdle(2),
    ActedOnNothing(2),
    Does(Start(2), DID),
    Puts(2, Dial(2)),
];

// An OPEN that names another number than the peer's, 3, with the identifier of the peer.
const OPEN_OF_ANOTHER: &[u8] = &[
    0x00, 0x1d, 0x01, 0x04, 0x00, 0x03, 0x00, 0x5a, 0x0a, 0x00, 0x00, 0x02, 0x00,
];

// An UPDATE whose path begins with another number than the peer's.
const UPDATE_OF_ANOTHER: &[u8] = &[
    0x00, 0x2c, 0x02, 0x00, 0x00, 0x00, 0x12, 0x40, 0x01, 0x01, 0x00, 0x40, 0x02, 0x04, 0x02, 0x01,
    0x00, 0x01, 0x40, 0x03, 0x04, 0x0a, 0x00, 0x00, 0x01, 0x10, 0x0a, 0x01,
];

#[rattlefmt::skip]
static CASES: [Case; 7] = [
    // Both start; 2 takes the Dial of 1, whose stamp is 2. After 1 took the Dial of 2, its next piece is its
    // OPEN.
    Case { name: "sessions open", from: FRESH, script: &[&[
        Does(Start(2), DID),
        Does(Start(3), Err(RouterError::NoSuchPeer)),
        PutsAt(2, 2),
        Takes(2, 0, Dial(1), DID),
        Puts(2, Says(1, &[OPEN_OF_ONE])),
        IsDrained(2),
    ]] },
    // A fault waits, so that nothing more is taken until it is handled. What comes out is Dial, the OPEN with a
    // NOTIFICATION 1/1 in one piece, and Shut.
    Case { name: "a fault in a header closes", from: JOINED, script: &[&[
        Takes(2, 0, Octets(1, &NO_HEADER), DID),
        Takes(2, 0, Dial(2), Err(RouterError::Held { peer: 2 })),
        Does(Handle(2), DID),
        Puts(2, Dial(1)),
        Puts(2, Says(1, &[OPEN_OF_ONE, &[0x00, 0x15, 0x03, 0x01, 0x01]])),
        Puts(2, Shut(1)),
        IsDrained(2),
        Does(Handle(2), NOTHING),
    ]] },
    // NOTIFICATION 2/2.
    Case { name: "an open of another router closes", from: JOINED, script: &[&[
        Hears(2, Says(1, &[OPEN_OF_ANOTHER])),
        Puts(2, Dial(1)),
        Puts(2, Says(1, &[OPEN_OF_ONE, &[0x00, 0x15, 0x03, 0x02, 0x02]])),
    ], CLOSED] },
    // Octets of incarnation 1 are gone in incarnation 2: the OPEN there is read as if nothing had come before
    // it, and answered by a KEEPALIVE.
    Case { name: "octets of an old incarnation are gone", from: JOINED, script: &[&[
        Takes(2, 0, Octets(1, &[0xff]), DID),
        Takes(2, 0, Shut(1), DID),
        Takes(2, 0, Dial(2), DID),
        Hears(2, Says(2, &[OPEN_OF_TWO])),
        Puts(2, Dial(1)),
        Puts(2, Says(1, &[OPEN_OF_ONE])),
        Puts(2, Shut(1)),
        Puts(2, Dial(2)),
        Puts(2, Says(2, &[OPEN_OF_ONE, ALIVE])),
        IsDrained(2),
    ]] },
    // NOTIFICATION 3/11.
    Case { name: "an update of another router closes", from: ESTABLISHED, script: &[&[
        Hears(2, Says(1, &[UPDATE_OF_ANOTHER])),
        Puts(2, Says(1, &[&[0x00, 0x15, 0x03, 0x03, 0x0b]])),
    ], CLOSED] },
    // No stamp passes 2^62.
    Case { name: "no stamp is left", from: FRESH, script: &[&[
        Does(Start(2), DID),
        Takes(2, 0x4000_0000_0000_0000, Dial(1), Err(RouterError::StampEnd)),
        Takes(2, u64::MAX, Dial(1), Err(RouterError::StampEnd)),
        Takes(2, 0x3fff_ffff_ffff_ffff, Dial(1), DID),
        Does(Stop(2), Err(RouterError::StampEnd)),
    ]] },
    // A reset closes the incarnation, and dials the next; a stop closes that.
    Case { name: "a reset dials anew", from: FRESH_AT_18, script: &[&[
        Does(Start(2), DID),
        Does(Reset(2), DID),
        Does(Stop(2), DID),
        Puts(2, Dial(1)),
        Puts(2, Shut(1)),
        Puts(2, Dial(2)),
        Puts(2, Shut(2)),
        IsDrained(2),
    ]] },
];

#[test]
fn sessions_open_and_close(rt: HostRuntime) -> Result<(), Fail> {
    asks(&rt, rt.alloc(), &CASES)
}
