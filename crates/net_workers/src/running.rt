//! Workers in threads of their own.

ghost use Rattle.std.specs.Prelude.{◌≡◌, ◌<◌, ℕ, [], length, map, true, All, IfOk, IfNone, IfSome, slice_index_or};
ghost use Rattle.std.specs.List.{AllByRecursion};
ghost use Rattle.ranked_policy.specs.Plans.{IsNetwork, IsRouter, numbers};
ghost use Rattle.worker_loop.specs.Whole.{IsLaterWorker, PipesStand};
ghost use Rattle.net_workers.specs.Lanes.{IsNew, stands_at, wiring_of};
ghost use Rattle.net_workers.specs.Dealt.{AreDealt};
ghost use Rattle.net_workers.specs.Ran.{IsFresh, Ran, Ceased, lines_of};

use crate::board_seat::{Board, BoardSeat};
use crate::dealing::deal;
use crate::worker_pipes::{PipePair, WorkerPipes, order_of};
use ranked_policy::{Asn, Network};
use std::alloc::{AllocError, Global};
use std::sync::Wait;
use std::thread;
use std::thread::Threads;
use worker_loop::{Desk, Gate, Pipes, Worker, WorkerFault};
use world_core::new_router;

/// A worker that has ended, and its fault if it ended before its last chore.
#[derive(Drop)]
pub struct Finished<'a, G> {
    /// The worker.
    pub worker: Worker<'a, WorkerPipes, BoardSeat, G>,
    /// Its fault.
    pub fault: Option<WorkerFault>,
}

// A worker that did nothing yet.
fn new_worker<'a, G: Gate + Drop>(
    alloc: Global,
    network: &'a Network,
    number: Asn,
    pairs: Vec<PipePair>,
    gate: G,
) -> Result<Finished<'a, G>, AllocError>
    requires router { IsRouter network.now.routers number }
    requires pairs { AllByRecursion IsNew pairs.items }
    requires gate { G.given gate ≡ [] }
    ensures fresh { IfOk result (λ ended. IsFresh G.given network.now ended.worker) }
    ensures number { IfOk result (λ ended. ended.worker.router.number ≡ number) }
    ensures pairs { IfOk result (λ ended. (lines_of ended).pairs ≡ pairs) }
    ensures gate { IfOk result (λ ended. ended.worker.gate ≡ gate) }
{
    let router = new_router(alloc, network, number)?;
    let order = order_of(alloc, pairs.as_slice(), network.links_of(number))?;
    let worker = Worker {
        router,
        lines: WorkerPipes { pairs, order },
        desk: BoardSeat {
            made: Vec::new(alloc),
        },
        gate,
        journal: worker_loop::Journal::new(alloc),
    };
    Ok(Finished {
        worker,
        fault: None,
    })
}

/// The workers of a network, by rising router.
pub(crate) fn new_workers<'a, G: Gate + Drop>(
    alloc: Global,
    network: &'a Network,
    gates: Vec<G>,
) -> Result<Vec<Finished<'a, G>>, AllocError>
    requires many { length gates.items ≡ length network.now.routers }
    requires fresh { AllByRecursion (λ gate. G.given gate ≡ []) gates.items }
    ensures numbers { IfOk result (λ made. map (λ e. e.worker.router.number) made.items ≡ numbers network.now.routers) }
    ensures fresh { IfOk result (λ made. AllByRecursion (λ e. IsFresh G.given network.now e.worker) made.items) }
    ensures dealt { IfOk result (λ made. AreDealt network.now network.now.links (map lines_of made.items)) }
    ensures gates { IfOk result (λ made. map (λ e. e.worker.gate) made.items ≡ gates.items) }
    ensures network { IfOk result (λ made. IsNetwork network.now) }
{
    let mut ends = deal(alloc, network)?.into_iter();
    let mut gates = gates.into_iter();
    let mut workers = Vec::new(alloc);
    for router in network.routers() {
        let (Some(lines), Some(gate)) = (ends.next(), gates.next()) else {
            unreachable!()
        };
        workers.push(new_worker(alloc, network, router.asn, lines.pairs, gate)?)?;
    }
    Ok(workers)
}

// Runs one worker.
fn run_one<R: Wait, G: Gate>(rt: &R, board: &Board, turns: u32, ended: &mut Finished<'_, G>)
    requires gate { G.given ended.old.worker.gate ≡ [] }
    requires chores { ended.old.worker.journal.chores.items ≡ [] }
    requires pipes { PipesStand stands_at wiring_of ended.old.worker }
    ensures ran { IfNone ended.new.fault (Ran G.given turns ended.old.worker ended.new.worker) }
    ensures script { G.script ended.new.worker.gate ≡ G.script ended.old.worker.gate }
    ensures same { IsLaterWorker wiring_of ended.old.worker ended.new.worker }
    ensures ended { IfSome ended.new.fault (Ceased G.given turns ended.new.worker) }
{
    ended.fault = ended.worker.work(rt, board, turns).err();
    board.sleepers.leave();
}

/// Runs each worker in a thread of its own, and returns once all have ended. A worker that ends
/// without a fault did what its gate said, and one with a fault ended for it.
pub(crate) fn run_all<'a, R, G>(
    rt: &R,
    board: &Board,
    turns: u32,
    workers: &mut Vec<Finished<'a, G>>,
)
where
    R: Threads + Wait + Sync,
    G: Gate + Send,
    requires gates { All (λ e. G.given e.worker.gate ≡ []) workers.old.items }
    requires chores { All (λ e. e.worker.journal.chores.items ≡ []) workers.old.items }
    requires pipes { All (λ e. PipesStand stands_at wiring_of e.worker) workers.old.items }
    ensures many { length workers.new.items ≡ length workers.old.items }
    ensures ran { (i : ℕ) (d : _) → i < length workers.old.items → IfNone (slice_index_or workers.new.items i d).fault
        (Ran G.given turns (slice_index_or workers.old.items i d).worker
        (slice_index_or workers.new.items i d).worker) }
    ensures script { (i : ℕ) (d : _) → i < length workers.old.items
        → G.script (slice_index_or workers.new.items i d).worker.gate
        ≡ G.script (slice_index_or workers.old.items i d).worker.gate }
    ensures same { (i : ℕ) (d : _) → i < length workers.old.items
        → IsLaterWorker wiring_of (slice_index_or workers.old.items i d).worker
        (slice_index_or workers.new.items i d).worker }
    ensures ended { (i : ℕ) (d : _) → i < length workers.old.items
        → IfSome (slice_index_or workers.new.items i d).fault
        (Ceased G.given turns (slice_index_or workers.new.items i d).worker) }
{
    let workers = workers.as_mut_slice();
    let threads = workers.len();
    if threads == 0 {
        return;
    }
    thread::for_each_mut(
        rt,
        workers,
        threads,
        &|_, ended: &mut Finished<G>| { run_one(rt, board, turns, ended) },
    );
}
