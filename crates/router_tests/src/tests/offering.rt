//! How a recording comes to its end: the part of it, or its loss.

use super::answers::DID;
use super::beginnings::{ALONE, READY, UP_TO_THREE};
use super::items::Sent::{Mark, Says};
use super::offers::Offered;
use super::steps::Asked::{Snapshot, Stop};
use super::steps::Step::{Does, Hears, IsDrained, Offers, Puts, PutsMarks, Takes};
use super::steps::{UPDATE_OF_THREE, UPDATE_OF_TWO};
use super::*;
use snap_marker::Cause;

const RECORDS_1: Step<'static> = Does(Snapshot(1), DID);

#[rattlefmt::skip]
static CASES: [Case; 8] = [
    // The session with 2 is down. The markers go out all the same.
    Case { name: "a session that is down loses the recording", from: UP_TO_THREE, script: &[&[
        RECORDS_1,
        Offers(Offered::Loss(2, 0, Cause::NotUp)),
        Puts(3, Mark(1, 1)),
        IsDrained(2),
    ]] },
    // What 2 says behind its marker is not recorded.
    Case { name: "a channel has what came before its marker", from: READY, script: &[&[
        Hears(2, Says(1, &[UPDATE_OF_TWO])),
        RECORDS_1,
        Hears(2, Says(1, &[UPDATE_OF_TWO])),
        Takes(2, 0, Mark(1, 1), DID),
        Hears(2, Says(1, &[UPDATE_OF_TWO])),
        Takes(3, 0, Mark(1, 1), DID),
        Offers(Offered::Updates(1, 0)),
    ]] },
    Case { name: "the channel of the first marker is empty", from: READY, script: &[&[
        Takes(2, 0, Mark(1, 1), DID),
        Hears(2, Says(1, &[UPDATE_OF_TWO])),
        Hears(3, Says(1, &[UPDATE_OF_THREE])),
        Takes(3, 0, Mark(1, 1), DID),
        Offers(Offered::Updates(0, 1)),
    ]] },
    Case { name: "the last marker offers the part", from: READY, script: &[&[
        Does(Snapshot(7), DID),
        Takes(3, 0, Mark(1, 7), DID),
        Offers(Offered::Nothing),
        Takes(2, 0, Mark(1, 7), DID),
        Offers(Offered::Part(7)),
    ]] },
    Case {
        name: "a router without links offers as it records",
        from: ALONE,
        script: &[&[RECORDS_1, Offers(Offered::Part(1))]],
    },
    Case { name: "a close loses the recording", from: READY, script: &[&[
        RECORDS_1,
        Takes(2, 0, Mark(1, 1), DID),
        Does(Stop(3), DID),
        Offers(Offered::Loss(3, 1, Cause::Closed)),
    ]] },
    // The marker of 2 came: that of 3 is the least that is missing.
    Case { name: "a greater number supersedes", from: READY, script: &[&[
        RECORDS_1,
        Takes(2, 0, Mark(1, 1), DID),
        Does(Snapshot(2), DID),
        Offers(Offered::Loss(3, 1, Cause::Superseded)),
    ]] },
    // Nothing goes out, and the recording of 3 goes on.
    Case { name: "a marker of an old number is ignored", from: READY, script: &[&[
        Does(Snapshot(3), DID),
        PutsMarks(3),
        Takes(2, 0, Mark(1, 2), DID),
        Takes(3, 0, Mark(1, 3), DID),
        Offers(Offered::Nothing),
        IsDrained(2),
        Takes(2, 0, Mark(1, 3), DID),
        Offers(Offered::Part(3)),
    ]] },
];

#[test]
fn recordings_come_to_their_ends(rt: HostRuntime) -> Result<(), Fail> {
    asks(&rt, rt.alloc(), &CASES)
}
