//! Dealing pipes out to workers, and bringing their ends together again.

ghost use Rattle.std.specs.Prelude.{◌≡◌, ◌≤◌, ◌<◌, ◌++◌, ◌∷◌, [], length, IfOk, IfSome, IfNone, slice_index_or};
ghost use Rattle.std.specs.List.{AllByRecursion, HoldsAt};
ghost use Rattle.ranked_policy.specs.Plans.{IsRouter, numbers};
ghost use Rattle.ruled_pipe.specs.Ends.{left, closed_at};
ghost use Rattle.net_workers.specs.Lanes.{AreNew};
ghost use Rattle.net_workers.specs.Dealt.{lanes_in, lanes_by, with_lane, AreDealt, IsJoined, HavePassed};
ghost use Rattle.net_workers.specs.Ways.{AreWays};

use crate::record::ClosedPipe;
use crate::worker_pipes::{PipePair, WorkerPipes};
use outbox::Item;
use ranked_policy::{Asn, Link, Network};
use ruled_pipe::{PutEnd, TakeEnd, close, with_ends};
use std::alloc::{AllocError, Global};
use std::sync::Wait;

// Makes a pipe, and answers its two ends.
fn pipe(alloc: Global, room: usize) -> Result<(PutEnd<Item>, TakeEnd<Item>), AllocError>
    ensures one_pipe { IfOk result (λ ends. ends.1.pipe ≡ ends.0.pipe) }
    ensures room { IfOk result (λ ends. ends.0.room ≡ room) }
    ensures put { IfOk result (λ ends. ends.0.items ≡ []) }
    ensures take { IfOk result (λ ends. ends.1.items ≡ []) }
{
    match with_ends(alloc, room) {
        Ok(ends) => Ok(ends),
        Err(_) => Err(AllocError),
    }
}

// Empty pairs for each of so many workers.
fn no_pairs(alloc: Global, workers: usize) -> Result<Vec<WorkerPipes>, AllocError>
    ensures many { IfOk result (λ ends. length ends.items ≡ workers) }
    ensures new { IfOk result (λ ends. AllByRecursion AreNew ends.items) }
    ensures none { IfOk result (λ ends. AllByRecursion (λ e. e.pairs.items ≡ []) ends.items) }
{
    let mut ends = Vec::new(alloc);
    for made in 0..workers {
        let _ = made;
        ends.push(WorkerPipes {
            pairs: Vec::new(alloc),
            order: Vec::new(alloc),
        })?;
    }
    Ok(ends)
}

// Adds a pair to those of a worker.
fn add(ends: &mut Vec<WorkerPipes>, at: usize, pair: PipePair) -> Result<(), AllocError>
    requires below { at < length ends.old.items }
    requires put { pair.out.items ≡ [] }
    requires taken { pair.into.items ≡ [] }
    requires new { AllByRecursion AreNew ends.old.items }
    ensures many { length ends.new.items ≡ length ends.old.items }
    ensures new { AllByRecursion AreNew ends.new.items }
    ensures pairs { IfOk result (λ _. lanes_in ends.new.items ≡ with_lane (lanes_in ends.old.items) at pair) }
{
    ends[at].pairs.push(pair)?;
    Ok(())
}

// Joins the routers of a link, which stand at these places, by two pipes, one in each direction.
fn join(
    alloc: Global,
    ends: &mut Vec<WorkerPipes>,
    room: usize,
    link: Link,
    one: usize,
    other: usize,
) -> Result<(), AllocError>
    requires one { one < length ends.old.items }
    requires other { other < length ends.old.items }
    requires new { AllByRecursion AreNew ends.old.items }
    ensures many { length ends.new.items ≡ length ends.old.items }
    ensures new { AllByRecursion AreNew ends.new.items }
    ensures joined { IfOk result
        (λ _. IsJoined room link one other (lanes_in ends.old.items) (lanes_in ends.new.items)) }
{
    let (there, from_one) = pipe(alloc, room)?;
    let (back, from_other) = pipe(alloc, room)?;
    let here = PipePair {
        peer: link.other,
        out: there,
        into: from_other,
    };
    let beyond = PipePair {
        peer: link.one,
        out: back,
        into: from_one,
    };
    add(ends, one, here)?;
    add(ends, other, beyond)?;
    Ok(())
}

// The place of a router of the network.
fn place_of(network: &Network, number: Asn) -> usize
    requires { IsRouter network.now.routers number }
    ensures below { result < length network.now.routers }
    ensures at { HoldsAt (λ r. r.asn ≡ number) network.now.routers result }
{
    let Some(place) = network.place(number) else {
        // Every router has its place.
        unreachable!()
    };
    place
}

/// The pairs of each worker of a network, by rising router.
pub(crate) fn deal(alloc: Global, network: &Network) -> Result<Vec<WorkerPipes>, AllocError>
    ensures many { IfOk result (λ ends. length ends.items ≡ length network.now.routers) }
    ensures new { IfOk result (λ ends. AllByRecursion AreNew ends.items) }
    ensures dealt { IfOk result (λ ends. AreDealt network.now network.now.links ends.items) }
{
    let room = network.settings().pipe;
    let links = network.links();
    let mut ends = no_pairs(alloc, network.routers().len())?;
    let mut left = links.len();
    'links: while left > 0 {
        left -= 1;
        let link = links[left];
        let (one, other) = (place_of(network, link.one), place_of(network, link.other));
        join(alloc, &mut ends, room, link, one, other)?;
    }
    Ok(ends)
}

// Removes the last pair of a worker, and answers it.
fn last_pair(ends: &mut Vec<WorkerPipes>, at: usize) -> Option<PipePair>
    requires below { at < length ends.old.items }
    ensures many { length ends.new.items ≡ length ends.old.items }
    ensures some { IfSome result (λ pair. lanes_in ends.old.items ≡ with_lane (lanes_in ends.new.items) at pair) }
    ensures none { IfNone result (slice_index_or (lanes_in ends.old.items) at [] ≡ []) }
{
    ends[at].pairs.pop()
}

// Closes the pipe from one router to another.
fn closed<R: Wait>(rt: &R, from: Asn, to: Asn, put: PutEnd<Item>, take: TakeEnd<Item>) -> ClosedPipe
    requires one_pipe { put.pipe ≡ take.pipe }
    ensures from { result.from ≡ from }
    ensures to { result.to ≡ to }
    ensures tail { result.tail ≡ closed_at put.pipe put.room put.items take.items }
    ensures left { put.items ≡ take.items ++ left result.tail }
    ensures held { length (left result.tail) ≤ put.room }
{
    ClosedPipe {
        from,
        to,
        tail: close(rt, put, take),
    }
}

/// Closes the pipes of a network: for each link, the one that leads there and the one that leads back.
pub(crate) fn close_all<R: Wait>(
    rt: &R,
    alloc: Global,
    network: &Network,
    ends: Vec<WorkerPipes>,
) -> Result<Vec<ClosedPipe>, AllocError>
    requires many { length ends.items ≡ length network.now.routers }
    requires dealt { AreDealt network.now network.now.links ends.items }
    ensures ways { IfOk result (λ ways. AreWays network.now ways.items) }
    ensures passed { IfOk result
        (λ ways. HavePassed (lanes_by (numbers network.now.routers) (lanes_in ends.items)) ways.items) }
{
    let mut ends = ends;
    let mut ways = Vec::new(alloc);
    for link in network.links() {
        let (one, other) = (place_of(network, link.one), place_of(network, link.other));
        let Some(there) = last_pair(&mut ends, other) else {
            unreachable!()
        };
        let Some(here) = last_pair(&mut ends, one) else {
            unreachable!()
        };
        ways.push(closed(rt, link.one, link.other, here.out, there.into))?;
        ways.push(closed(rt, link.other, link.one, there.out, here.into))?;
    }
    Ok(ways)
}
