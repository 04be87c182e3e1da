//! Scripts: what a router is asked, step by step, and what is to come of it. One loop plays every table and is
//! proved once; in a function of as many calls each goal has all that the calls before it ensure.

use super::answers::*;
use super::items::{Put, Sent, drains, puts, takes};
use super::offers::{Offered, offers, records_now};
use prefix_lanes::Prefix;
use ranked_policy::Asn;
use router_core::{Call, Command, Router};
use session_fsm::State;
use std::alloc::{AllocError, Global};
use std::mem::forget;

// A prefix that the network names.
#[derive(Clone, Copy)]
pub(super) enum Named {
    // 10.0.0.0/8.
    Least,
    // 10.1.0.0/16.
    Greatest,
}

// A call, as a script has it.
#[derive(Clone, Copy)]
pub(super) enum Asked {
    Start(Asn),
    Stop(Asn),
    Reset(Asn),
    Originate(Named),
    Withdraw(Named),
    Snapshot(u32),
    Restart,
    Tick,
    Handle(Asn),
    Decide,
    Advertise,
}

pub(super) enum Step<'a> {
    // The call is answered so.
    Does(Asked, Answer),
    // The call is answered so, and the stamp stays.
    Stays(Asked, Answer),
    // The call is answered so if its caller has no room, and the stamp stays.
    WithoutRoom(Asked, Answer),
    // The call is answered without room as with it, but that a step is refused; then it is done.
    EitherWay(Asked),
    // An item of a peer with this stamp is answered so.
    Takes(Asn, u64, Sent<'a>, Answer),
    // An item of a peer is taken, and the message that it brings is handled.
    Hears(Asn, Sent<'a>),
    // The next item towards a peer is this one.
    Puts(Asn, Sent<'a>),
    // The next item towards a peer has this stamp.
    PutsAt(Asn, u64),
    // The next item towards a peer is octets of this incarnation.
    PutsSome(Asn, u32),
    // Markers of this number and of incarnation 1 are put to 2 and 3, and nothing else.
    PutsMarks(u32),
    // An item of a peer with this stamp is answered so if the caller has no room.
    TakesWithoutRoom(Asn, u64, Sent<'a>, Answer),
    // A prefix comes and goes until router 2 is told nothing more.
    Fills(Named),
    // What waits towards a peer is put, if it is little.
    Drains(Asn),
    // Nothing waits towards a peer.
    IsDrained(Asn),
    // Something waits towards a peer.
    Waits(Asn),
    // This is the offer in front.
    Offers(Offered),
    // What would be recorded now is not pending, keeps and originates this prefix alone.
    RecordsNow(Named),
    // This path is kept for a prefix.
    Keeps(Named, &'a [Asn]),
    // So many seconds pass.
    Seconds(u32),
    // The session with a peer is Idle.
    IsIdle(Asn),
    // No UPDATE of a peer was acted on.
    ActedOnNothing(Asn),
}

pub(super) fn prefix(named: Named) -> Option<Prefix> {
    match named {
        Named::Least => Prefix::new(0x0a00_0000, 8),
        Named::Greatest => Prefix::new(0x0a01_0000, 16),
    }
}

fn call(asked: Asked) -> Option<Call> {
    let call = match asked {
        Asked::Start(peer) => Call::Obey(Command::Start(peer)),
        Asked::Stop(peer) => Call::Obey(Command::Stop(peer)),
        Asked::Reset(peer) => Call::Obey(Command::Reset(peer)),
        Asked::Originate(named) => Call::Obey(Command::Originate(prefix(named)?)),
        Asked::Withdraw(named) => Call::Obey(Command::Withdraw(prefix(named)?)),
        Asked::Snapshot(number) => Call::Obey(Command::Snapshot(number)),
        Asked::Restart => Call::Obey(Command::Restart),
        Asked::Tick => Call::Tick,
        Asked::Handle(peer) => Call::Handle(peer),
        Asked::Decide => Call::Decide,
        Asked::Advertise => Call::Advertise,
    };
    Some(call)
}

// How a call is to go.
#[derive(Clone, Copy)]
enum Way {
    Does(Answer),
    Stays(Answer),
    WithoutRoom(Answer),
    EitherWay,
}

fn goes_so(one: &mut Router<'_>, call: &Call, way: Way) -> bool {
    let last = stamp(one);
    match way {
        Way::Does(answer) => does(one, call) == answer,
        Way::Stays(answer) => does(one, call) == answer && stamp(one) == last,
        Way::WithoutRoom(answer) => does_without_room(one, call) == answer && stamp(one) == last,
        Way::EitherWay => does_either_way(one, call),
    }
}

fn asked_so(one: &mut Router<'_>, asked: Asked, way: Way) -> bool {
    match call(asked) {
        Some(call) => goes_so(one, &call, way),
        None => false,
    }
}

// Whether a step of a prefix goes as it says.
fn goes_of(one: &mut Router<'_>, prefix: Prefix, step: &Step<'_>) -> bool {
    match step {
        Step::Fills(_) => fills(one, prefix),
        Step::RecordsNow(_) => records_now(one, prefix),
        Step::Keeps(_, path) => keeps(one, &prefix, path),
        _ => false,
    }
}

fn goes_of_named(one: &mut Router<'_>, named: Named, step: &Step<'_>) -> bool {
    match prefix(named) {
        Some(prefix) => goes_of(one, prefix, step),
        None => false,
    }
}

fn acted_on_nothing(alloc: Global, one: &Router<'_>, peer: Asn) -> bool {
    match one.acted(alloc, peer) {
        Some(Ok(told)) => {
            let nothing = told.is_empty();
            forget(told);
            nothing
        }
        Some(Err(_)) | None => false,
    }
}

// Whether markers of this number are all that is put to 2 and 3.
fn puts_marks(alloc: Global, one: &mut Router<'_>, number: u32) -> bool {
    let mark = Sent::Mark(1, number);
    puts(alloc, one, 2, &Put::Item(mark))
        && puts(alloc, one, 3, &Put::Item(mark))
        && waits(one, 2) == Some(false)
        && waits(one, 3) == Some(false)
}

// Whether a step goes as it says.
fn goes(alloc: Global, one: &mut Router<'_>, step: &Step<'_>) -> bool {
    match step {
        Step::Does(asked, answer) => asked_so(one, *asked, Way::Does(*answer)),
        Step::Stays(asked, answer) => asked_so(one, *asked, Way::Stays(*answer)),
        Step::WithoutRoom(asked, answer) => asked_so(one, *asked, Way::WithoutRoom(*answer)),
        Step::EitherWay(asked) => asked_so(one, *asked, Way::EitherWay),
        Step::Takes(peer, stamp, sent, answer) => {
            takes(alloc, one, *peer, *stamp, sent, Ok(()), *answer)
        }
        Step::Hears(peer, sent) => {
            takes(alloc, one, *peer, 0, sent, Ok(()), DID) && does(one, &Call::Handle(*peer)) == DID
        }
        Step::Puts(peer, sent) => puts(alloc, one, *peer, &Put::Item(*sent)),
        Step::PutsAt(peer, stamp) => puts(alloc, one, *peer, &Put::At(*stamp)),
        Step::PutsSome(peer, epoch) => puts(alloc, one, *peer, &Put::Octets(*epoch)),
        Step::PutsMarks(number) => puts_marks(alloc, one, *number),
        Step::TakesWithoutRoom(peer, stamp, sent, answer) => {
            takes(alloc, one, *peer, *stamp, sent, Err(AllocError), *answer)
        }
        Step::Drains(peer) => drains(one, *peer),
        Step::IsDrained(peer) => waits(one, *peer) == Some(false),
        Step::Waits(peer) => waits(one, *peer) == Some(true),
        Step::Offers(offered) => offers(one, offered),
        Step::Fills(named) | Step::RecordsNow(named) | Step::Keeps(named, _) => {
            goes_of_named(one, *named, step)
        }
        Step::Seconds(n) => seconds(one, *n),
        Step::IsIdle(peer) => one.state(*peer) == Some(State::Idle),
        Step::ActedOnNothing(peer) => acted_on_nothing(alloc, one, *peer),
    }
}

// The place of the first step that does not.
fn plays(alloc: Global, one: &mut Router<'_>, script: &[Step<'_>]) -> Option<usize> {
    for (at, step) in script.iter().enumerate() {
        if !goes(alloc, one, step) {
            return Some(at);
        }
    }
    None
}

// The first part of a script with a step that does not, and the place in it.
pub(super) fn plays_all(
    alloc: Global,
    one: &mut Router<'_>,
    script: &[&[Step<'_>]],
) -> Option<(usize, usize)> {
    for (part, steps) in script.iter().enumerate() {
        if let Some(at) = plays(alloc, one, steps) {
            return Some((part, at));
        }
    }
    None
}

// ---- what follows the marker of a message

pub(super) const OPEN_OF_ONE: &[u8] = &[
    0x00, 0x1d, 0x01, 0x04, 0x00, 0x01, 0x00, 0x5a, 0x0a, 0x00, 0x00, 0x01, 0x00,
];

pub(super) const OPEN_OF_TWO: &[u8] = &[
    0x00, 0x1d, 0x01, 0x04, 0x00, 0x02, 0x00, 0x5a, 0x0a, 0x00, 0x00, 0x02, 0x00,
];

pub(super) const OPEN_OF_THREE: &[u8] = &[
    0x00, 0x1d, 0x01, 0x04, 0x00, 0x03, 0x00, 0x5a, 0x0a, 0x00, 0x00, 0x03, 0x00,
];

pub(super) const ALIVE: &[u8] = &[0x00, 0x13, 0x04];

// 10.1.0.0/16 along router 1, 2 or 3 alone.
pub(super) const UPDATE_OF_ONE: &[u8] = &[
    0x00, 0x2c, 0x02, 0x00, 0x00, 0x00, 0x12, 0x40, 0x01, 0x01, 0x00, 0x40, 0x02, 0x04, 0x02, 0x01,
    0x00, 0x01, 0x40, 0x03, 0x04, 0x0a, 0x00, 0x00, 0x01, 0x10, 0x0a, 0x01,
];

pub(super) const UPDATE_OF_TWO: &[u8] = &[
    0x00, 0x2c, 0x02, 0x00, 0x00, 0x00, 0x12, 0x40, 0x01, 0x01, 0x00, 0x40, 0x02, 0x04, 0x02, 0x01,
    0x00, 0x02, 0x40, 0x03, 0x04, 0x0a, 0x00, 0x00, 0x02, 0x10, 0x0a, 0x01,
];

pub(super) const UPDATE_OF_THREE: &[u8] = &[
    0x00, 0x2c, 0x02, 0x00, 0x00, 0x00, 0x12, 0x40, 0x01, 0x01, 0x00, 0x40, 0x02, 0x04, 0x02, 0x01,
    0x00, 0x03, 0x40, 0x03, 0x04, 0x0a, 0x00, 0x00, 0x03, 0x10, 0x0a, 0x01,
];
