//! Running a network.

ghost use Rattle.std.specs.Prelude.{◌≡◌, ◌≢◌, ◌<◌, ◌↔◌, ℕ, [], length, map, true, None, All, IsTrue, IfOk, IfErr, OnOk, IfNone, IfSome, slice_index_or, MatchOption};
ghost use Rattle.std.specs.List.{AllByRecursion};
ghost use Rattle.ranked_policy.specs.Plans.{IsRouter};
ghost use Rattle.snap_marker.specs.Parts.{router_of};
ghost use Rattle.snap_collector.specs.Collector.{AreMembers, made_for, with_offers};
ghost use Rattle.offer_board.specs.Boards.{offers_in};
ghost use Rattle.net_workers.specs.Faults.{HaveEnded, IsFaultOf, FaultOf, EndedSo};
ghost use Rattle.net_workers.specs.Ran.{first_fault, worked_of, lines_of, passed_by, OffersOf, AreLimits, AreRecord};
ghost use Rattle.net_workers.specs.Handed.{JournalsOf, RecordOf};
ghost use Rattle.net_workers.specs.Runs.{JournalsKeepPromises};
ghost use Rattle.net_workers.specs.Ways.{AreWays, passed_in};

use crate::board_seat::Board;
use crate::dealing::close_all;
use crate::laws::records_are_runs;
use crate::record::{Journals, Limits, MOST_TURNS, Record, RunFault, Worked, WorkerRecord};
use crate::running::{Finished, new_workers, run_all};
use crate::worker_pipes::WorkerPipes;
use offer_board::{BoardState, Made, made_by_same};
use ranked_policy::Network;
use snap_collector::Collector;
use std::alloc::{AllocError, Global};
use std::sync::Wait;
use std::thread::Threads;
use worker_loop::laws::what_follows_is_done;
use worker_loop::{Gate, WorkerFault};

// The fault of the least router that has one.
fn first_fault<G>(workers: &[Finished<'_, G>]) -> Option<RunFault>
    ensures first { result ≡ first_fault workers.now }
    ensures kind { IfSome result (λ why. why ≢ RunFault.BadLimits) }
{
    for ended in workers {
        match ended.fault {
            Some(WorkerFault::Memory) => return Some(RunFault::Memory),
            Some(WorkerFault::Refused) => {
                return Some(RunFault::WorkerRefused {
                    router: ended.worker.router.number(),
                });
            }
            None => {}
        }
    }
    None
}

// Whether the offers that the board has of each router are those that its worker made.
fn agrees<G>(board: &BoardState, workers: &[Finished<'_, G>]) -> bool
    ensures { result ≡ true → AllByRecursion (OffersOf board.now.offers) workers.now }
{
    for ended in workers {
        let own = ended.worker.desk.made.as_slice();
        if !made_by_same(board.offers(), ended.worker.router.number(), own) {
            return false;
        }
    }
    true
}

// Whether the offers are by routers of the network.
fn are_known(network: &Network, offers: &[Made]) -> bool
    ensures { result ≡ true → AllByRecursion (λ o. IsRouter network.now.routers (router_of o.offer)) offers.now }
{
    for made in offers {
        if !network.has_router(made.offer.router()) {
            return false;
        }
    }
    true
}

// The work of the workers, and the ends of pipes that they held.
fn parted<G: Drop>(
    alloc: Global,
    workers: Vec<Finished<'_, G>>,
) -> Result<(Vec<Worked<'_, G>>, Vec<WorkerPipes>), AllocError>
    ensures worked { IfOk result (λ parts. parts.0.items ≡ map worked_of workers.entry.items) }
    ensures ends { IfOk result (λ parts. parts.1.items ≡ map lines_of workers.entry.items) }
{
    let mut done = Vec::new(alloc);
    let mut ends = Vec::new(alloc);
    for ended in workers {
        let worker = ended.worker;
        ends.push(worker.lines)?;
        done.push(Worked {
            router: worker.router,
            journal: WorkerRecord {
                chores: worker.journal.chores,
                events: worker.journal.events,
                offers: worker.desk.made,
            },
            gate: worker.gate,
        })?;
    }
    Ok((done, ends))
}

// The collector of these offers. It is made anew, since nothing is known of a value under a lock but what its type
// says.
fn collect(alloc: Global, network: &Network, offers: Vec<Made>) -> Result<Collector, AllocError>
    ensures made { IfOk result (λ c. made_for c ≡ with_offers (λ s. []) (offers_in offers.items)) }
    ensures members { IfOk result (λ c. AreMembers network.now c.members) }
{
    let mut collector = Collector::new(alloc, network)?;
    for made in offers {
        collector.record(made.offer)?;
    }
    Ok(collector)
}

// Whether a network may run for so many chores, with so many gates.
fn are_limits(network: &Network, turns: u32, gates: usize) -> bool
    ensures { IsTrue result ↔ AreLimits network.now turns gates }
{
    turns > 0 && turns <= MOST_TURNS && gates == network.routers().len()
}

// The workers of a network, each run in a thread of its own to its end.
fn ended_workers<'a, R, G>(
    rt: &R,
    alloc: Global,
    network: &'a Network,
    gates: Vec<G>,
    turns: u32,
    board: &Board,
) -> Result<Vec<Finished<'a, G>>, AllocError>
where
    R: Threads + Wait + Sync,
    G: Gate + Send + Drop,
    requires fresh { AllByRecursion (λ gate. G.given gate ≡ []) gates.items }
    requires many { length gates.items ≡ length network.now.routers }
    ensures ended { IfOk result (λ workers. HaveEnded G.given network.now turns workers.items) }
    ensures script { IfOk result
        (λ workers. map (λ e. G.script e.worker.gate) workers.items ≡ map G.script gates.items) }
{
    let mut workers = new_workers(alloc, network, gates)?;
    run_all(rt, board, turns, &mut workers);
    Ok(workers)
}

/// What workers that have ended did and left.
///
/// Refused with the fault of the least router that has one. If no router has one, refused only with
/// [`RunFault::BoardDiffers`] or [`RunFault::Memory`]. Nothing is handed back then.
///
/// Premise: the workers are those of the network, each begun as one that did nothing and run to its end.
pub fn journals_of<'a, R, G>(
    rt: &R,
    alloc: Global,
    network: &'a Network,
    board: BoardState,
    workers: Vec<Finished<'a, G>>,
) -> Result<Journals<'a, G>, RunFault>
where
    R: Wait,
    G: Gate + Drop,
    requires ended { (turns : ℕ) × HaveEnded G.given network.now turns workers.items }
    // The first fault is answered. Want of memory, or that the board differs, is answered only if there is none.
    ensures fault { IfErr result (IsFaultOf workers.entry.items) }
    ensures none { OnOk result (first_fault workers.entry.items ≡ None) }
    // They are those of these workers, and the collector has the offers of this board.
    ensures worked { IfOk result (λ r. r.workers.items ≡ map worked_of workers.entry.items) }
    ensures passed { IfOk result (λ r. passed_by workers.entry.items ≡ passed_in r.ways.items) }
    ensures collected { IfOk result (λ r. made_for r.collector ≡ with_offers (λ s. []) (offers_in board.offers)) }
    ensures ways { IfOk result (λ r. AreWays network.now r.ways.items) }
    ensures recorded { (turns : ℕ) → HaveEnded G.given network.now turns workers.entry.items
        → IfOk result (λ r. AreRecord G.given network.now turns (passed_in r.ways.items) r.workers.items r.collector) }
    ensures promises { IfOk result
        (λ r. JournalsKeepPromises network.now (passed_in r.ways.items) r.workers.items r.collector) }
{
    what_follows_is_done();
    records_are_runs::<G>();
    match first_fault(workers.as_slice()) {
        Some(fault) => return Err(fault),
        None => {}
    }
    if !are_known(network, board.offers()) || !agrees(&board, workers.as_slice()) {
        return Err(RunFault::BoardDiffers);
    }
    let (workers, ends) = parted(alloc, workers)?;
    let ways = close_all(rt, alloc, network, ends)?;
    let collector = collect(alloc, network, board.into_offers())?;
    Ok(Journals {
        workers,
        ways,
        collector,
    })
}

// Runs a network within its limits.
fn run_within<'a, R, G>(
    rt: &R,
    alloc: Global,
    network: &'a Network,
    gates: Vec<G>,
    turns: u32,
) -> Result<Journals<'a, G>, RunFault>
where
    R: Threads + Wait + Sync,
    G: Gate + Send + Drop,
    requires fresh { AllByRecursion (λ gate. G.given gate ≡ []) gates.items }
    requires limits { AreLimits network.now turns (length gates.items) }
    ensures other { IfErr result (λ why. why ≢ RunFault.BadLimits) }
    ensures fault { IfErr result (FaultOf G.given G.script network.now turns (map G.script gates.items)) }
    ensures ran { IfOk result (JournalsOf G.given G.script network.now turns (map G.script gates.items)) }
    ensures ended { OnOk result (EndedSo G.given G.script network.now turns (map G.script gates.items) None) }
{
    let board = Board::new(alloc, network)?;
    let workers = ended_workers(rt, alloc, network, gates, turns, &board)?;
    journals_of(rt, alloc, network, board.into_state(), workers)
}

/// Runs a network: each router in a thread of its own, at the word of its gate. It returns once all threads have ended.
/// Gates stand by rising router, and have given no chore yet.
///
/// A worker ends at its first Stop, or after so many chores. Refused with [`RunFault::BadLimits`] exactly if the chores
/// are not 1 to [`MOST_TURNS`] or there is not one gate for each router. Refused with [`RunFault::WorkerRefused`] only
/// for the least router that has a fault, if that was a refusal. Refused with [`RunFault::BoardDiffers`] only if no
/// worker has a fault; the clause says this of some workers with these scripts. [`RunFault::Memory`] is a
/// worker's want of memory, or that of the work around them: no clause says when. After a fault the other workers go on
/// to their own end, and nothing is handed back.
///
/// The journals say what the threads did, each router at the word of the gate that was given for it. With their events
/// in one order, by stamp and then by router, they are the record of one run of the network; the pipes hold what was put
/// into them and not taken.
pub fn run_journals<'a, R, G>(
    rt: &R,
    alloc: Global,
    network: &'a Network,
    gates: Vec<G>,
    limits: Limits,
) -> Result<Journals<'a, G>, RunFault>
where
    R: Threads + Wait + Sync,
    G: Gate + Send + Drop,
    requires fresh { AllByRecursion (λ gate. G.given gate ≡ []) gates.items }
    ensures limits { OnOk result (AreLimits network.now limits.turns (length gates.items)) }
    ensures refused { IfErr result
        (λ why. why ≡ RunFault.BadLimits ↔ (AreLimits network.now limits.turns (length gates.items) → ⊥)) }
    // Of some workers with these scripts: the fault is that of the least router that has one; it ended for it, and
    // those before it did their chores.
    ensures fault { IfErr result (FaultOf G.given G.script network.now limits.turns (map G.script gates.items)) }
    ensures ran { IfOk result (JournalsOf G.given G.script network.now limits.turns (map G.script gates.items)) }
    // Some workers with these scripts have ended without a fault.
    ensures ended { OnOk result (EndedSo G.given G.script network.now limits.turns (map G.script gates.items) None) }
{
    if !are_limits(network, limits.turns, gates.len()) {
        return Err(RunFault::BadLimits);
    }
    run_within(rt, alloc, network, gates, limits.turns)
}

/// Does what [`run_journals`] does, is refused as it is, and gathers the events: for want of memory for them it answers
/// [`RunFault::Memory`].
pub fn run_net<'a, R, G>(
    rt: &R,
    alloc: Global,
    network: &'a Network,
    gates: Vec<G>,
    limits: Limits,
) -> Result<Record<'a, G>, RunFault>
where
    R: Threads + Wait + Sync,
    G: Gate + Send + Drop,
    requires fresh { AllByRecursion (λ gate. G.given gate ≡ []) gates.items }
    ensures limits { OnOk result (AreLimits network.now limits.turns (length gates.items)) }
    ensures refused { IfErr result
        (λ why. why ≡ RunFault.BadLimits ↔ (AreLimits network.now limits.turns (length gates.items) → ⊥)) }
    ensures fault { IfErr result (FaultOf G.given G.script network.now limits.turns (map G.script gates.items)) }
    ensures ran { IfOk result (RecordOf G.given G.script network.now limits.turns (map G.script gates.items)) }
{
    let journals = run_journals(rt, alloc, network, gates, limits)?;
    match journals.gather(alloc) {
        Ok(record) => Ok(record),
        Err(_) => Err(RunFault::Memory),
    }
}
