//! Workers that sleep, and are woken.

ghost use Rattle.std.specs.Prelude.{◌≡◌, [], IfOk};
ghost use Rattle.std.specs.List.{AllByRecursion};
ghost use Rattle.worker_loop.specs.Script.{given_by};

use super::two_routers;
use net_workers::{Between, Chore, Limits, ScriptGate, Sleepers, WorkerEvent, run_net};
use prefix_lanes::Prefix;
use ranked_policy::{Asn, Network};
use router_model::Command;
use std::alloc::{AllocError, Global};
use std::sync::Wait;
use std::sync::atomic::{AtomicU64, Ordering};
use std::test::*;
use std::thread;
use std::thread::Threads;
use world_core::Event;

// How many pairs of workers pass a token at once, and how often each worker has it.
const PAIRS: usize = 10;

const ROUNDS: u32 = 1000;

// How often a worker looks for what it waits for before it gives up.
const TRIES: u32 = 1_000_000;

fn new_sleepers(alloc: Global) -> Result<Sleepers, Fail> {
    let prefix = Prefix::new(0x0a01_0000, 16).ok_or("a prefix")?;
    let net = two_routers(alloc, prefix)?;
    Ok(Sleepers::new(alloc, &net)?)
}

// A Turn of a worker did nothing, and its chores are Turns up to the last.
fn did_nothing<R: Wait>(rt: &R, sleepers: &Sleepers, router: Asn) {
    let between = Between {
        router,
        done: &[],
        is_blocked: false,
        given: 1,
        turns: 1,
        most: 2,
    };
    sleepers.pause(rt, &between);
}

// A worker put an item towards a peer.
fn did_put<R: Wait>(rt: &R, sleepers: &Sleepers, router: Asn, peer: Asn, given: u32) {
    let entry = WorkerEvent {
        stamp: 1,
        event: Event::Put(router, peer),
    };
    let between = Between {
        router,
        done: &[entry],
        is_blocked: false,
        given,
        turns: 0,
        most: ROUNDS,
    };
    sleepers.pause(rt, &between);
}

// Waits for the token as a worker does; answers whether it came.
fn comes<R: Wait>(rt: &R, sleepers: &Sleepers, own: &AtomicU64, router: Asn) -> bool {
    for _ in 0..TRIES {
        if own.swap(0, Ordering::SeqCst) == 1 {
            return true;
        }
        did_nothing(rt, sleepers, router);
    }
    false
}

// Passes the token on, each time that it comes; answers whether it came each time, and no wake-up was lost.
fn passes<R: Wait>(
    rt: &R,
    sleepers: &Sleepers,
    own: &AtomicU64,
    theirs: &AtomicU64,
    router: Asn,
    peer: Asn,
) -> bool {
    for round in 0..ROUNDS {
        if !comes(rt, sleepers, own, router) {
            return false;
        }
        theirs.store(1, Ordering::SeqCst);
        did_put(rt, sleepers, router, peer, round);
    }
    let rests = sleepers.is_at_rest();
    sleepers.leave();
    rests
}

// Two workers, and whether each had the token each time.
#[derive(Drop)]
struct Pair {
    sleepers: Sleepers,
    passed: bool,
}

fn pass_to_each_other<R: Threads + Wait + Sync>(rt: &R, sleepers: &Sleepers) -> bool {
    let (one, other) = (AtomicU64::new(1), AtomicU64::new(0));
    let (first, second) = thread::join(
        rt,
        || passes(rt, sleepers, &one, &other, 1, 2),
        || passes(rt, sleepers, &other, &one, 2, 1),
    );
    first && second
}

fn let_pass<R: Threads + Wait + Sync>(rt: &R, pair: &mut Pair) {
    let passed = pass_to_each_other(rt, &pair.sleepers);
    pair.passed = passed;
}

fn let_all_pass<R: Threads + Wait + Sync>(rt: &R, pairs: &mut [Pair]) {
    thread::for_each_mut(rt, pairs, PAIRS, &|_, pair: &mut Pair| let_pass(rt, pair));
}

// One of two has the token at any time: where both slept nothing would be to come, and none would sleep from then on.
#[test]
fn two_workers_feed_each_other(rt: HostRuntime) -> Result<(), Fail> {
    let mut pairs = Vec::new(rt.alloc());
    for made in 0..PAIRS {
        let _ = made;
        let sleepers = new_sleepers(rt.alloc())?;
        pairs.push(Pair {
            sleepers,
            passed: false,
        })?;
    }
    let_all_pass(&rt, pairs.as_mut_slice());
    assert!(rt; pairs.iter().all(|pair| pair.passed));
    Ok(())
}

// Ends as soon as the other worker sleeps.
fn ends_beside(sleepers: &Sleepers, other: Asn) -> bool {
    for _ in 0..TRIES {
        if sleepers.sleeps(other) {
            sleepers.leave();
            return true;
        }
        thread::yield_now();
    }
    false
}

// Falls asleep; answers whether it was woken.
fn is_woken<R: Wait>(rt: &R, sleepers: &Sleepers, router: Asn) -> bool {
    did_nothing(rt, sleepers, router);
    did_nothing(rt, sleepers, router);
    !sleepers.sleeps(router) && sleepers.is_at_rest()
}

fn one_ends<R: Threads + Wait + Sync>(rt: &R, sleepers: &Sleepers) -> (bool, bool) {
    thread::join(
        rt,
        || is_woken(rt, sleepers, 1),
        || ends_beside(sleepers, 1),
    )
}

// A worker ends, be it at a Stop or refused, while the other sleeps.
#[test]
fn an_end_wakes_the_other(rt: HostRuntime) -> Result<(), Fail> {
    let sleepers = new_sleepers(rt.alloc())?;
    assert!(rt; one_ends(&rt, &sleepers) == (true, true));
    Ok(())
}

// Where both sleep, nothing is to come: neither is left asleep.
fn both_sleep<R: Threads + Wait + Sync>(rt: &R, sleepers: &Sleepers) -> (bool, bool) {
    thread::join(
        rt,
        || is_woken(rt, sleepers, 1),
        || is_woken(rt, sleepers, 2),
    )
}

#[test]
fn two_that_sleep_go_on_to_their_end(rt: HostRuntime) -> Result<(), Fail> {
    let sleepers = new_sleepers(rt.alloc())?;
    assert!(rt; both_sleep(&rt, &sleepers) != (true, true));
    assert!(rt; !sleepers.is_at_rest() && !sleepers.sleeps(1) && !sleepers.sleeps(2));
    Ok(())
}

// The chores of each worker.
const TURNS: u32 = 20_000;

// Router 1 starts, originates, and takes a snapshot late; router 2 starts, and stops where it is told so.
fn two_gates(alloc: Global, prefix: Prefix, stop: u32) -> Result<Vec<ScriptGate>, AllocError>
    ensures { IfOk result (λ gates. AllByRecursion (λ gate. given_by gate ≡ []) gates.items) }
{
    let one = ScriptGate::new(vec![in alloc;
        (0, Chore::Command(Command::Start(2))),
        (1, Chore::Command(Command::Originate(prefix))),
        (15_000, Chore::Command(Command::Snapshot(1))),
    ]?);
    let other = ScriptGate::new(vec![in alloc;
        (0, Chore::Command(Command::Start(1))),
        (stop, Chore::Stop),
    ]?);
    let mut gates = Vec::new(alloc);
    gates.push(one)?;
    gates.push(other)?;
    Ok(gates)
}

// How many chores two routers did, and whether router 2 keeps the path through router 1.
fn chores_of<R: Threads + Wait + Sync>(
    rt: &R,
    alloc: Global,
    net: &Network,
    prefix: Prefix,
    stop: u32,
) -> Result<(usize, usize, bool), AllocError> {
    let gates = two_gates(alloc, prefix, stop)?;
    match run_net(rt, alloc, net, gates, Limits { turns: TURNS }) {
        Ok(record) => match record.workers.as_slice() {
            [one, other] => Ok((
                one.journal.chores.len(),
                other.journal.chores.len(),
                other.router.kept(&prefix) == [2, 1].as_slice(),
            )),
            _ => Ok((0, 0, false)),
        },
        Err(_) => Ok((0, 0, false)),
    }
}

// A Stop comes once the network is at rest, and then the snapshot; or at once.
#[test]
fn a_stop_while_another_sleeps(rt: HostRuntime) -> Result<(), Fail> {
    let prefix = Prefix::new(0x0a01_0000, 16).ok_or("a prefix")?;
    let net = two_routers(rt.alloc(), prefix)?;
    assert!(rt; chores_of(&rt, rt.alloc(), &net, prefix, 400)? == (20_000, 401, true));
    assert!(rt; chores_of(&rt, rt.alloc(), &net, prefix, 1)? == (20_000, 2, false));
    Ok(())
}
