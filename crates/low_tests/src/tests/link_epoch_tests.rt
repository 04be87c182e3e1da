//! One end of a link: its numbers, and what its peer's signs mean.

use link_epoch::Heard::{Closed, Joined, Offered, Quiet};
use link_epoch::Sign::{Dial, Shut};
use link_epoch::{Dialled, Heard, LinkEnd, LinkError, Phase, Sign};
use std::process::Abort;

/// What happens to an end, with what it is to answer.
enum Step {
    /// It dials, and this is the number, in which both ends are or not, as it said before.
    Dials(u32, bool),
    /// It dials, and no number is left: nothing changes.
    HasNoNumber,
    /// It hangs up, and this is the number that it was in.
    HangsUp(Option<u32>),
    /// It hears a sign.
    Hears(Sign, Heard),
    /// It is in this phase.
    IsIn(Phase),
    /// It has this number, and is in this phase.
    Stands(u32, Phase),
}

/// The own number is 3, and the greatest heard is 2.
const OFFERED: &[Step] = &[
    Step::Hears(Dial(2), Offered(2)),
    Step::Dials(2, true),
    Step::Dials(3, false),
];

const HUNG_UP: &[Step] = &[
    Step::Hears(Dial(2), Offered(2)),
    Step::Dials(2, true),
    Step::Dials(3, false),
    Step::HangsUp(Some(3)),
];

/// Both ends are in 3, after they were in 2.
const JOINED: &[Step] = &[
    Step::Hears(Dial(2), Offered(2)),
    Step::Dials(2, true),
    Step::Dials(3, false),
    Step::Hears(Dial(3), Joined),
];

/// An end that came this way, and what happens to it then.
struct Case {
    name: &'static str,
    way: &'static [Step],
    steps: &'static [Step],
}

#[rattlefmt::skip]
static CASES: [Case; 21] = [
    // An incarnation from its first dial to the dial of the next one.
    Case { name: "an incarnation begins and ends", way: &[], steps: &[
        Step::Stands(0, Phase::Shut),
        Step::HangsUp(None),
        Step::Dials(1, false),
        Step::Stands(1, Phase::Offered),
        Step::Hears(Dial(1), Joined),
        Step::Stands(1, Phase::Joined),
        Step::Hears(Dial(1), Quiet),
        Step::Hears(Shut(1), Closed),
        Step::HangsUp(Some(1)),
        Step::HangsUp(None),
        Step::Stands(1, Phase::Shut),
        Step::Dials(2, false),
    ] },
    // A peer that dials and shuts the greatest number leaves none to dial.
    Case { name: "no number is left to dial", way: &[], steps: &[
        Step::Dials(1, false),
        Step::Hears(Dial(u32::MAX), Offered(u32::MAX)),
        Step::HangsUp(Some(1)),
        Step::Dials(u32::MAX, true),
        Step::Hears(Shut(u32::MAX), Closed),
        Step::HangsUp(Some(u32::MAX)),
        Step::HasNoNumber,
        Step::Stands(u32::MAX, Phase::Shut),
    ] },
    // The number of a dial: the peer's where it waits there, else a new one, as long as there is one.
    Case { name: "the peer waits in 4", way: &[], steps: &[
        Step::Dials(1, false),
        Step::HangsUp(Some(1)),
        Step::Hears(Dial(4), Offered(4)),
        Step::Dials(4, true),
    ] },
    Case { name: "the peer shut 4", way: &[], steps: &[
        Step::Dials(1, false),
        Step::HangsUp(Some(1)),
        Step::Hears(Dial(4), Offered(4)),
        Step::Hears(Shut(4), Quiet),
        Step::Dials(5, false),
    ] },
    Case { name: "the peer waits in 5, and shut 4 before", way: &[], steps: &[
        Step::Hears(Dial(4), Offered(4)),
        Step::Hears(Dial(5), Offered(5)),
        Step::Hears(Shut(4), Quiet),
        Step::Dials(5, true),
    ] },
    Case { name: "the peer waits in 4, and shut a number not heard", way: &[], steps: &[
        Step::Hears(Dial(4), Offered(4)),
        Step::Hears(Shut(5), Quiet),
        Step::Dials(4, true),
    ] },
    Case { name: "the peer is behind", way: &[], steps: &[
        Step::Hears(Dial(1), Offered(1)),
        Step::Dials(1, true),
        Step::Dials(2, false),
        Step::Dials(3, false),
        Step::Dials(4, false),
        Step::HangsUp(Some(4)),
        Step::Dials(5, false),
    ] },
    Case { name: "both were in 4", way: &[], steps: &[
        Step::Hears(Dial(4), Offered(4)),
        Step::Dials(4, true),
        Step::HangsUp(Some(4)),
        Step::Dials(5, false),
    ] },
    Case { name: "the last number", way: &[], steps: &[
        Step::Hears(Dial(u32::MAX - 1), Offered(u32::MAX - 1)),
        Step::Dials(u32::MAX - 1, true),
        Step::HangsUp(Some(u32::MAX - 1)),
        Step::Dials(u32::MAX, false),
    ] },
    Case { name: "no number is left", way: &[], steps: &[
        Step::Hears(Dial(u32::MAX - 1), Offered(u32::MAX - 1)),
        Step::Dials(u32::MAX - 1, true),
        Step::Dials(u32::MAX, false),
        Step::HangsUp(Some(u32::MAX)),
        Step::HasNoNumber,
    ] },
    Case { name: "the peer shut the last number", way: &[], steps: &[
        Step::Hears(Dial(u32::MAX), Offered(u32::MAX)),
        Step::Hears(Shut(u32::MAX), Quiet),
        Step::HasNoNumber,
    ] },
    // What a sign means, and the phase that the end is in then.
    Case { name: "an old dial", way: OFFERED, steps: &[Step::Hears(Dial(2), Quiet), Step::IsIn(Phase::Offered)] },
    Case {
        name: "the number offered",
        way: OFFERED,
        steps: &[Step::Hears(Dial(3), Joined), Step::IsIn(Phase::Joined)],
    },
    Case { name: "a number hung up", way: HUNG_UP, steps: &[Step::Hears(Dial(3), Quiet), Step::IsIn(Phase::Shut)] },
    Case {
        name: "a greater number",
        way: HUNG_UP,
        steps: &[Step::Hears(Dial(4), Offered(4)), Step::IsIn(Phase::Shut)],
    },
    Case {
        name: "a greater number than offered",
        way: OFFERED,
        steps: &[Step::Hears(Dial(4), Offered(4)), Step::IsIn(Phase::Offered)],
    },
    Case {
        name: "a shut of the number offered",
        way: OFFERED,
        steps: &[Step::Hears(Shut(3), Quiet), Step::IsIn(Phase::Offered)],
    },
    Case {
        name: "a greater number while joined",
        way: JOINED,
        steps: &[Step::Hears(Dial(4), Quiet), Step::IsIn(Phase::Joined)],
    },
    Case { name: "no number at all", way: JOINED, steps: &[Step::Hears(Dial(0), Quiet), Step::IsIn(Phase::Joined)] },
    Case {
        name: "a shut of an old number",
        way: JOINED,
        steps: &[Step::Hears(Shut(2), Quiet), Step::IsIn(Phase::Joined)],
    },
    Case {
        name: "a shut of a number not heard",
        way: JOINED,
        steps: &[Step::Hears(Shut(4), Quiet), Step::IsIn(Phase::Joined)],
    },
];

fn dials(rt: &impl Abort, end: &mut LinkEnd, name: &str, epoch: u32, joined: bool) {
    let joins = end.is_joinable();
    assert!(rt;
        end.dial() == Ok(Dialled { epoch, joined }),
        "{name}: dials {epoch}"
    );
    assert!(rt;
        end.epoch() == epoch && joins == joined,
        "{name}: dialled {epoch}"
    );
}

fn has_no_number(rt: &impl Abort, end: &mut LinkEnd, name: &str) {
    let before = *end;
    assert!(rt;
        end.dial() == Err(LinkError::EpochEnd),
        "{name}: has no number"
    );
    assert!(rt; *end == before, "{name}: nothing changes");
}

fn take_all(rt: &impl Abort, end: &mut LinkEnd, name: &str, steps: &[Step]) {
    for (i, step) in steps.iter().enumerate() {
        match step {
            Step::Dials(epoch, joined) => dials(rt, end, name, *epoch, *joined),
            Step::HasNoNumber => has_no_number(rt, end, name),
            Step::HangsUp(number) => assert!(rt; end.hang_up() == *number, "{name}: step {i}"),
            Step::Hears(sign, heard) => {
                assert!(rt; end.hear(*sign) == *heard, "{name}: step {i}");
            }
            Step::IsIn(phase) => assert!(rt; end.phase() == *phase, "{name}: step {i}"),
            Step::Stands(epoch, phase) => {
                assert!(rt;
                    end.epoch() == *epoch && end.phase() == *phase,
                    "{name}: step {i}"
                );
            }
        }
    }
}

#[test]
fn an_end_goes_through_its_incarnations(rt: HostRuntime) {
    assert!(rt; LinkEnd::new() == LinkEnd::default());
    for case in &CASES {
        let mut end = LinkEnd::new();
        take_all(&rt, &mut end, case.name, case.way);
        take_all(&rt, &mut end, case.name, case.steps);
    }
}
