//! Recordings of router 1, which has the peers 2 and 3: how each of them ends (`snap_marker`).

use snap_marker::{Cause, Lost};
use std::test::*;
use steps::Offered::{Loss, Nothing, Numbered, Part};
use steps::Step::{Begins, BeginsDown, Closes, HasLast, Hears, Makes, Marks, Offers, Records};
use steps::{Step, tries};

mod copies;
mod moves;
mod recorded;
mod steps;

// A recording goes on until the marker of each peer has come; an UPDATE counts in a channel that is
// open still.
static THE_LAST_MARKER: [Step; 13] = [
    Begins(4, &[2, 3], Some(2)),
    HasLast(4),
    Hears(2, false),
    Hears(3, true),
    Hears(3, true),
    Marks(3, 3),
    Offers(Nothing),
    Records(true),
    Marks(3, 4),
    Records(false),
    Offers(Part(&[0, 2])),
    Makes,
    Offers(Nothing),
];

#[test]
fn a_recording_ends_with_the_last_marker(rt: HostRuntime) {
    tries(&rt, rt.alloc(), &THE_LAST_MARKER);
}

// A router without links, or whose only peer sent the marker, offers its part at once.
static NOTHING_TO_WAIT_FOR: [Step; 5] = [
    Begins(1, &[], None),
    Begins(2, &[2], Some(2)),
    Offers(Numbered(1)),
    Makes,
    Offers(Numbered(2)),
];

#[test]
fn nothing_to_wait_for(rt: HostRuntime) {
    tries(&rt, rt.alloc(), &NOTHING_TO_WAIT_FOR);
}

const CLOSED: Lost = Lost {
    router: 1,
    number: 1,
    peer: 3,
    epoch: 7,
    cause: Cause::Closed,
};

const NOT_UP: Lost = Lost {
    router: 1,
    number: 2,
    peer: 2,
    epoch: 7,
    cause: Cause::NotUp,
};

const SUPERSEDED: Lost = Lost {
    router: 1,
    number: 3,
    peer: 3,
    epoch: 7,
    cause: Cause::Superseded,
};

const NOT_UP_EITHER: Lost = Lost {
    router: 1,
    number: 5,
    peer: 3,
    epoch: 7,
    cause: Cause::NotUp,
};

// A close, a peer that is not Established, and a greater number each lose the recording, with the
// peer, the incarnation and the cause.
static LOSSES: [Step; 14] = [
    Begins(1, &[2, 3], None),
    Closes(3),
    Offers(Loss(CLOSED)),
    Closes(2),
    Makes,
    Offers(Nothing),
    BeginsDown(2, &[2, 3], 2),
    Offers(Loss(NOT_UP)),
    Makes,
    Begins(3, &[2, 3], Some(2)),
    BeginsDown(5, &[2, 3], 3),
    Offers(Loss(SUPERSEDED)),
    Makes,
    Offers(Loss(NOT_UP_EITHER)),
];

#[test]
fn recordings_are_lost(rt: HostRuntime) {
    tries(&rt, rt.alloc(), &LOSSES);
}
