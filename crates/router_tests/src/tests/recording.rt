//! What a router records of a snapshot, and when (Chandy and Lamport 1985).

use super::answers::DID;
use super::beginnings::{JOINED, READY, TOLD};
use super::items::Sent::{Mark, Says};
use super::offers::Offered;
use super::steps::Asked::{Advertise, Decide, Originate, Snapshot, Withdraw};
use super::steps::Named::Least;
use super::steps::OPEN_OF_TWO;
use super::steps::Step::{
    Does, Hears, IsDrained, Offers, Puts, PutsMarks, PutsSome, RecordsNow, Takes,
};
use super::*;
use router_core::RouterError;
use snap_marker::Cause;

const RECORDS_1: Step<'static> = Does(Snapshot(1), DID);

// Snapshot 1 is recorded to its end, and its part is pending.
const PENDS: &[Step<'static>] = &[
    RECORDS_1,
    Takes(2, 0, Mark(1, 1), DID),
    Takes(3, 0, Mark(1, 1), DID),
    Offers(Offered::Pending(true)),
];

#[rattlefmt::skip]
static CASES: [Case; 10] = [
    // ---- what is recorded, and when

    // Markers of a number go to both peers, and nothing else.
    Case { name: "a command records a greater number", from: READY, script: &[&[
        Does(Snapshot(5), DID),
        PutsMarks(5),
        Does(Snapshot(5), Err(RouterError::OldSnapshot { last: 5 })),
    ]] },
    Case { name: "a marker of a greater number records", from: READY, script: &[&[
        Takes(2, 0, Mark(1, 5), DID),
        PutsMarks(5),
        Takes(3, 0, Mark(1, 5), DID),
        Offers(Offered::Part(5)),
    ]] },
    Case { name: "a marker of another incarnation is not used", from: READY, script: &[&[
        Takes(2, 0, Mark(2, 5), DID),
        IsDrained(2),
        RECORDS_1,
        PutsMarks(1),
    ]] },
    // The OPEN of the peer came, but no KEEPALIVE yet.
    Case { name: "a marker before established is not used", from: JOINED, script: &[&[
        Hears(2, Says(1, &[OPEN_OF_TWO])),
        Takes(2, 0, Mark(1, 5), DID),
        Offers(Offered::Nothing),
        RECORDS_1,
        Offers(Offered::Loss(2, 1, Cause::NotUp)),
    ]] },
    // What comes behind the recording is not in the part.
    Case { name: "a part is the state at its recording", from: TOLD, script: &[&[
        RECORDS_1,
        Does(Withdraw(Least), DID),
        Does(Decide, DID),
        Takes(2, 0, Mark(1, 1), DID),
        Takes(3, 0, Mark(1, 1), DID),
        Offers(Offered::State(Least)),
    ]] },
    Case { name: "the state of now is what would be recorded", from: TOLD, script: &[&[RecordsNow(Least)]] },
    // The next item towards 2 is octets, and then the marker.
    Case { name: "markers go behind what waits", from: TOLD, script: &[&[
        RECORDS_1,
        PutsSome(2, 1),
        Puts(2, Mark(1, 1)),
        IsDrained(2),
    ]] },
    // ---- what is pending

    Case {
        name: "a path that is not the route is pending",
        from: READY,
        script: &[&[Does(Originate(Least), DID)], PENDS],
    },
    Case { name: "a path that was not told is pending", from: READY, script: &[&[
        Does(Originate(Least), DID),
        Does(Decide, DID),
        Does(Advertise, DID),
    ], PENDS] },
    Case { name: "what was told is not pending", from: TOLD, script: &[&[
        RECORDS_1,
        Takes(2, 0, Mark(1, 1), DID),
        Takes(3, 0, Mark(1, 1), DID),
        Offers(Offered::Part(1)),
        Offers(Offered::Pending(false)),
    ]] },
];

#[test]
fn snapshots_are_recorded(rt: HostRuntime) -> Result<(), Fail> {
    asks(&rt, rt.alloc(), &CASES)
}
