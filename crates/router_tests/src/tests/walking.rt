//! Random items and calls: a router answers without room as with it, its stamps rise as they are to, and in
//! the end it keeps what its peer said last.

use super::answers::{
    DID, NOTHING, does, does_either_way, keeps, may_take, puts_next, takes_either_way,
};
use super::beginnings::FRESH;
use super::items::{Sent, made};
use super::offers::epoch;
use super::steps::{ALIVE, OPEN_OF_ONE, UPDATE_OF_ONE};
use super::*;
use prefix_lanes::Prefix;
use router_core::{Call, Command, What};
use router_side::PastUpdate;

// The generator of the walk of router 2, whose peer 1 is the origin of 10.1.0.0/16 (Knuth's multiplier); and
// how much the peer said in its turn in an incarnation.
#[derive(Clone, Copy)]
struct Walk {
    seed: u64,
    epoch: u32,
    said: u32,
}

// A call, or an item with its stamp that is taken.
#[derive(Clone, Copy)]
enum Act {
    Does(Call),
    Takes(u64, Sent<'static>),
}

// The withdrawal of what router 1 originates.
const WITHDRAWAL: &[u8] = &[0x00, 0x1a, 0x02, 0x00, 0x03, 0x10, 0x0a, 0x01, 0x00, 0x00];

// A number below 16.
fn dice(walk: &mut Walk) -> u64 {
    walk.seed = walk
        .seed
        .wrapping_mul(6_364_136_223_846_793_005)
        .wrapping_add(1_442_695_040_888_963_407);
    (walk.seed >> 33) % 16
}

// An incarnation of about this one.
fn about(number: u64, near: u32) -> u32 {
    match number {
        0 => near.saturating_add(1),
        1 => near.saturating_sub(1),
        _ => near,
    }
}

// An item that comes out of turn.
fn stray(number: u64, epoch: u32) -> Sent<'static> {
    match number {
        0 | 1 => Sent::Shut(epoch),
        2 | 3 => Sent::Dial(epoch),
        4 | 5 => Sent::Mark(epoch, 3),
        6 | 7 => Sent::Says(epoch, &[OPEN_OF_ONE]),
        8 | 9 => Sent::Says(epoch, &[ALIVE]),
        10 | 11 => Sent::Says(epoch, &[UPDATE_OF_ONE]),
        12 | 13 => Sent::Says(epoch, &[WITHDRAWAL]),
        _ => Sent::Says(epoch, &[&[0x00]]),
    }
}

// What a peer says in its turn: its Dial, its OPEN, a KEEPALIVE, and then an UPDATE or a KEEPALIVE each time.
fn in_turn(walk: &mut Walk) -> Sent<'static> {
    match walk.said {
        0 => Sent::Dial(walk.epoch),
        1 => Sent::Says(walk.epoch, &[OPEN_OF_ONE]),
        2 => Sent::Says(walk.epoch, &[ALIVE]),
        _ => {
            match dice(walk) {
                0 => Sent::Says(walk.epoch, &[ALIVE]),
                1..=5 => Sent::Says(walk.epoch, &[WITHDRAWAL]),
                _ => Sent::Says(walk.epoch, &[UPDATE_OF_ONE]),
            }
        }
    }
}

// The next item of the peer, one of many out of turn. The peer begins anew in another incarnation; what it says in its
// turn it has said where that may be taken.
fn next_item(two: &mut Router<'_>, walk: &mut Walk) -> Act {
    let near = epoch(two, 1);
    if near != walk.epoch {
        walk.epoch = near;
        walk.said = 0;
    }
    let stamp = dice(walk).wrapping_mul(7);
    if dice(walk) == 0 {
        let epoch = about(dice(walk), walk.epoch);
        return Act::Takes(stamp, stray(dice(walk), epoch));
    }
    let sent = in_turn(walk);
    if may_take(two, 1) {
        walk.said = walk.said.saturating_add(1);
    }
    Act::Takes(stamp, sent)
}

// A command that ends what was begun.
fn seldom(number: u64) -> Command {
    match number {
        0 => Command::Restart,
        1 => Command::Stop(1),
        2 => Command::Reset(1),
        3 => Command::Snapshot(2),
        _ => Command::Start(1),
    }
}

// What comes next.
fn next_act(two: &mut Router<'_>, walk: &mut Walk) -> Act {
    match dice(walk) {
        0 => Act::Does(Call::Tick),
        1 => Act::Does(Call::Decide),
        2 => Act::Does(Call::Advertise),
        3 | 4 | 5 => Act::Does(Call::Handle(1)),
        6 | 7 => Act::Does(Call::Obey(Command::Start(1))),
        8 => Act::Does(Call::Obey(seldom(dice(walk)))),
        _ => next_item(two, walk),
    }
}

fn takes(alloc: Global, two: &mut Router<'_>, stamp: u64, sent: &Sent<'_>) -> bool {
    match made(alloc, stamp, sent) {
        Some(item) => takes_either_way(two, 1, &item),
        None => false,
    }
}

fn steps(alloc: Global, two: &mut Router<'_>, walk: &mut Walk) -> bool {
    match next_act(two, walk) {
        Act::Does(call) => does_either_way(two, &call),
        Act::Takes(stamp, sent) => takes(alloc, two, stamp, &sent),
    }
}

// The incarnation in which its session is Established, where it is: a snapshot sends its marker there, as the last
// item.
fn established_in(two: &mut Router<'_>, number: u32) -> Option<u32> {
    if does(two, &Call::Obey(Command::Snapshot(number))) != DID {
        return None;
    }
    let mut found = None;
    for _ in 0..10_000u32 {
        let Ok(Some(item)) = puts_next(two, 1) else {
            return found;
        };
        found = match &item.what {
            What::Mark(epoch, marked) if *marked == number => Some(*epoch),
            What::Mark(_, _) | What::Dial(_) | What::Piece(_, _) | What::Shut(_) => None,
        };
    }
    found
}

// Whether the last UPDATE of an incarnation that was acted on announces.
fn last_announces(told: &[PastUpdate], epoch: u32) -> bool {
    let mut last = false;
    for told in told {
        if told.epoch == epoch {
            last = !told.update.nlri.as_slice().is_empty();
        }
    }
    last
}

fn announces(alloc: Global, two: &Router<'_>, epoch: Option<u32>) -> Option<bool> {
    let Some(epoch) = epoch else {
        return Some(false);
    };
    match two.acted(alloc, 1) {
        Some(Ok(told)) => {
            let last = last_announces(told.as_slice(), epoch);
            forget(told);
            Some(last)
        }
        Some(Err(_)) => None,
        None => Some(false),
    }
}

// What it keeps once it decided is the path that the peer announced last, where the session is Established.
fn keeps_the_last(alloc: Global, two: &mut Router<'_>, prefix: Prefix, number: u32) -> bool {
    let epoch = established_in(two, number);
    let Some(announced) = announces(alloc, two, epoch) else {
        return false;
    };
    if does(two, &Call::Decide).is_err() {
        return false;
    }
    let wanted: &[Asn] = if announced { &[2, 1] } else { &[] };
    keeps(two, &prefix, wanted) && does(two, &Call::Decide) == NOTHING
}

// Some steps of a walk.
fn goes_on(alloc: Global, two: &mut Router<'_>, walk: &mut Walk) -> bool {
    for _ in 0..60u32 {
        if !steps(alloc, two, walk) {
            return false;
        }
    }
    true
}

// A walk from a seed: some steps, and what is kept then, again and again.
fn walks(alloc: Global, two: &mut Router<'_>, prefix: Prefix, seed: u64) -> bool {
    let mut walk = Walk {
        seed,
        epoch: 0,
        said: 0,
    };
    for number in 100..108u32 {
        if !goes_on(alloc, two, &mut walk) || !keeps_the_last(alloc, two, prefix, number) {
            return false;
        }
    }
    true
}

fn walks_anew(alloc: Global, net: &Network, seed: u64) -> Result<bool, Fail> {
    let prefix = prefix(Named::Greatest).ok_or("a prefix")?;
    let mut two = router(alloc, net, 2)?;
    let outcome = walks(alloc, &mut two, prefix, seed);
    forget(two);
    Ok(outcome)
}

// So many walks go as they are to, each from its seed.
fn walk_each(rt: &impl Abort, alloc: Global, net: &Network, seeds: u64) -> Result<(), Fail> {
    for seed in 1..=seeds {
        assert!(rt; walks_anew(alloc, net, seed)?, "seed {seed}");
    }
    Ok(())
}

#[test]
fn random_items_are_answered_alike_without_room(rt: HostRuntime) -> Result<(), Fail> {
    let net = star(rt.alloc(), &FRESH)?;
    let outcome = walk_each(&rt, rt.alloc(), &net, 32);
    forget(net);
    outcome
}
