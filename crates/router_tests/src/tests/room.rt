//! Calls whose caller has no room for the event.

use super::answers::{DID, MEMORY, NOTHING};
use super::beginnings::{ESTABLISHED, FRESH};
use super::items::Sent;
use super::steps::Asked::{
    Advertise, Decide, Handle, Originate, Reset, Restart, Snapshot, Start, Stop, Tick, Withdraw,
};
use super::steps::Named::{Greatest, Least};
use super::steps::Step::{
    Does, EitherWay, Fills, IsDrained, Keeps, Takes, TakesWithoutRoom, WithoutRoom,
};
use super::steps::{ALIVE, UPDATE_OF_TWO};
use super::*;
use router_core::RouterError;

#[rattlefmt::skip]
static CASES: [Case; 4] = [
    // A step is refused and changes nothing; any other answer is as it would be.
    Case { name: "steps are refused for want of room", from: FRESH, script: &[&[
        WithoutRoom(Tick, MEMORY),
        WithoutRoom(Handle(2), NOTHING),
        WithoutRoom(Handle(3), Err(RouterError::NoSuchPeer)),
        WithoutRoom(Decide, NOTHING),
        WithoutRoom(Advertise, NOTHING),
        WithoutRoom(Start(2), MEMORY),
        WithoutRoom(Start(3), Err(RouterError::NoSuchPeer)),
        WithoutRoom(Stop(2), MEMORY),
        WithoutRoom(Reset(2), MEMORY),
        WithoutRoom(Originate(Greatest), MEMORY),
        WithoutRoom(Originate(Least), Err(RouterError::NotOrigin)),
        WithoutRoom(Withdraw(Greatest), NOTHING),
        WithoutRoom(Snapshot(1), MEMORY),
        WithoutRoom(Snapshot(0), Err(RouterError::OldSnapshot { last: 0 })),
        WithoutRoom(Restart, MEMORY),
        IsDrained(2),
    ]] },
    Case { name: "with room they are done", from: FRESH, script: &[&[
        EitherWay(Tick),
        EitherWay(Start(2)),
        EitherWay(Start(3)),
        EitherWay(Reset(2)),
        EitherWay(Stop(2)),
        EitherWay(Originate(Greatest)),
        EitherWay(Originate(Greatest)),
        EitherWay(Withdraw(Greatest)),
        EitherWay(Snapshot(1)),
        EitherWay(Snapshot(1)),
        EitherWay(Restart),
    ]] },
    Case { name: "items are refused for want of room", from: ESTABLISHED, script: &[&[
        TakesWithoutRoom(2, 0, Sent::Dial(2), MEMORY),
        TakesWithoutRoom(2, 0, Sent::Shut(1), MEMORY),
        TakesWithoutRoom(2, 0, Sent::Mark(1, 1), MEMORY),
        TakesWithoutRoom(2, 0, Sent::Mark(2, 1), MEMORY),
        TakesWithoutRoom(2, 0, Sent::Says(1, &[ALIVE]), MEMORY),
        TakesWithoutRoom(2, u64::MAX, Sent::Dial(2), Err(RouterError::StampEnd)),
        TakesWithoutRoom(3, u64::MAX, Sent::Dial(2), Err(RouterError::NoSuchPeer)),
        IsDrained(2),
        WithoutRoom(Handle(2), NOTHING),
        Takes(2, 0, Sent::Says(1, &[ALIVE, UPDATE_OF_TWO]), DID),
        TakesWithoutRoom(2, 0, Sent::Dial(2), Err(RouterError::Held { peer: 2 })),
        EitherWay(Handle(2)),
        EitherWay(Handle(2)),
        EitherWay(Handle(2)),
    ]] },
    // What was not decided, or not told, waits.
    Case { name: "routes wait for room", from: ESTABLISHED, script: &[&[
        Does(Originate(Greatest), DID),
        WithoutRoom(Decide, MEMORY),
        Keeps(Greatest, &[]),
        EitherWay(Decide),
        EitherWay(Decide),
        Keeps(Greatest, &[1]),
        WithoutRoom(Advertise, MEMORY),
        IsDrained(2),
        EitherWay(Advertise),
        EitherWay(Advertise),
        Fills(Greatest),
        WithoutRoom(Advertise, Err(RouterError::Blocked { peer: 2 })),
    ]] },
];

#[test]
fn calls_without_room_are_answered(rt: HostRuntime) -> Result<(), Fail> {
    asks(&rt, rt.alloc(), &CASES)
}
