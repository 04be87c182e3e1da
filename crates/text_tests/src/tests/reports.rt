//! The lines that a run is reported by, also those of outcomes and refusals that no schedule leads to.

use router_model::RouterError;
use schedule_text::{cut_line, cut_none_line, snapshot_line, stop_line};
use snap_collector::{Outcome, Why};
use snap_marker::{Cause, Lost};
use std::alloc::{AllocError, Global};
use std::test::Fail;
use world_core::StepFault;

// Snapshots that are moving at router 2, and that lost a recording of it.
static OUTCOMES: [(Outcome, &[u8]); 8] = [
    (Outcome::Waiting, b""),
    (Outcome::Settled, b"snapshot 7 settled\n"),
    (
        Outcome::Moving {
            router: 2,
            why: Why::Pending,
        },
        b"snapshot 7 moving 2 pending\n",
    ),
    (
        Outcome::Moving {
            router: 2,
            why: Why::InFlight(1),
        },
        b"snapshot 7 moving 2 inflight 1\n",
    ),
    (
        Outcome::Moving {
            router: 2,
            why: Why::Mismatch(1),
        },
        b"snapshot 7 moving 2 mismatch 1\n",
    ),
    (
        Outcome::Abandoned(Lost {
            router: 2,
            number: 7,
            peer: 1,
            epoch: 3,
            cause: Cause::Closed,
        }),
        b"snapshot 7 abandoned 2 1 closed\n",
    ),
    (
        Outcome::Abandoned(Lost {
            router: 2,
            number: 7,
            peer: 1,
            epoch: 3,
            cause: Cause::NotUp,
        }),
        b"snapshot 7 abandoned 2 1 notup\n",
    ),
    (
        Outcome::Abandoned(Lost {
            router: 2,
            number: 7,
            peer: 1,
            epoch: 3,
            cause: Cause::Superseded,
        }),
        b"snapshot 7 abandoned 2 1 superseded\n",
    ),
];

// Whether this is printed for the outcome of the snapshot 7.
fn is_printed(alloc: Global, outcome: &Outcome, text: &[u8]) -> Result<bool, AllocError> {
    let mut out = b"front\n".to_vec(alloc)?;
    snapshot_line(7, outcome, &mut out)?;
    Ok(out.as_slice().strip_prefix(b"front\n") == Some(text))
}

#[test]
fn each_outcome_has_its_line(rt: HostRuntime) -> Result<(), Fail> {
    for &(outcome, text) in &OUTCOMES {
        assert!(rt; is_printed(rt.alloc(), &outcome, text)?, "{text:?}");
    }
    Ok(())
}

fn put_cuts(out: &mut Vec<u8>) -> Result<(), AllocError> {
    cut_line(1, 31, 36, out)?;
    cut_line(4294967295, 0, 18446744073709551615, out)?;
    cut_none_line(2, out)
}

#[test]
fn a_cut_is_written_with_its_counts(rt: HostRuntime) -> Result<(), Fail> {
    let mut out = b"front\n".to_vec(rt.alloc())?;
    put_cuts(&mut out)?;
    assert!(rt;
        out.as_slice()
            == b"front\ncut 1 after 31 of 36\ncut 4294967295 after 0 of 18446744073709551615\ncut 2 none\n".as_slice()
    );
    Ok(())
}

static FAULTS: [(StepFault, &[u8]); 11] = [
    (StepFault::NoSuchRouter, b"refused 15 V1\n"),
    (StepFault::NoSuchLink, b"refused 15 V2\n"),
    (StepFault::Memory, b"refused 15 V4\n"),
    (
        StepFault::Refused(RouterError::NoSuchPeer),
        b"refused 15 E1\n",
    ),
    (
        StepFault::Refused(RouterError::NotOrigin),
        b"refused 15 E2\n",
    ),
    (
        StepFault::Refused(RouterError::OldSnapshot { last: 1 }),
        b"refused 15 E3\n",
    ),
    (
        StepFault::Refused(RouterError::Blocked { peer: 1 }),
        b"refused 15 E4\n",
    ),
    (
        StepFault::Refused(RouterError::Held { peer: 1 }),
        b"refused 15 E5\n",
    ),
    (
        StepFault::Refused(RouterError::StampEnd),
        b"refused 15 E6\n",
    ),
    (StepFault::Refused(RouterError::Memory), b"refused 15 E7\n"),
    (
        StepFault::Refused(RouterError::EpochEnd),
        b"refused 15 E8\n",
    ),
];

// Whether this is printed for a refusal of the order of line 15.
fn is_stopped(alloc: Global, fault: StepFault, text: &[u8]) -> Result<bool, AllocError> {
    let mut out = Vec::new(alloc);
    stop_line(15, fault, &mut out)?;
    Ok(out.as_slice() == text)
}

#[test]
fn each_refusal_of_a_run(rt: HostRuntime) -> Result<(), Fail> {
    for &(fault, text) in &FAULTS {
        assert!(rt; is_stopped(rt.alloc(), fault, text)?, "{text:?}");
    }
    Ok(())
}
