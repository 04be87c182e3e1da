//! The record of a network's threads.

ghost use Rattle.std.specs.Prelude.{◌≡◌};
ghost use Rattle.net_workers.specs.declared.record.RunFault.TheVariants.{Memory};

use offer_board::Made;
use outbox::Item;
use ranked_policy::Asn;
use router_core::Router;
use ruled_pipe::Tail;
use snap_collector::Collector;
use std::alloc::AllocError;
use thiserror::Error;
use worker_loop::{Chore, WorkerEvent};

/// The most chores that a worker may be given.
pub const MOST_TURNS: u32 = 1_000_000;

/// How long a network runs.
#[derive(Clone, Copy, Debug, PartialEq, Eq)]
pub struct Limits {
    /// The most chores of each worker, 1 to [`MOST_TURNS`].
    pub turns: u32,
}

/// Why a run has no record.
#[derive(Clone, Copy, Debug, PartialEq, Eq, Error)]
pub enum RunFault {
    /// A growth was refused.
    #[error("memory")]
    Memory,
    /// A router had no stamp or no incarnation left, or its offer was refused.
    #[error("the worker of {router} was refused")]
    WorkerRefused {
        /// The router: the least, if there are several.
        router: Asn,
    },
    /// The chores are not 1 to [`MOST_TURNS`], or there is not one gate for each router.
    #[error("bad limits")]
    BadLimits,
    /// The offers of the board are not those of the journals.
    #[error("the board differs from the journals")]
    BoardDiffers,
}

/// A worker's chores, events and offers, in its order.
#[derive(Debug, Drop)]
pub struct WorkerRecord {
    /// The chores that its gate gave.
    pub chores: Vec<Chore>,
    /// The events that it did, with their stamps.
    pub events: Vec<WorkerEvent>,
    /// The offers that it made, with their stamps.
    pub offers: Vec<Made>,
}

/// A router, with what its worker did.
#[derive(Drop)]
pub struct Worked<'a, G> {
    /// The router, as it is in the end.
    pub router: Router<'a>,
    /// The chores, events and offers of its worker.
    pub journal: WorkerRecord,
    /// Its gate.
    pub gate: G,
}

/// The pipe from one router to another, closed. Contracts see all items that were put into it and all
/// that were taken out of it.
#[derive(Drop)]
pub struct ClosedPipe {
    /// The router that put.
    pub from: Asn,
    /// The router that took.
    pub to: Asn,
    /// The pipe, with the items that were put and not taken.
    pub tail: Tail<Item>,
}

/// What a network's threads did, journal by journal, and what they left.
#[derive(Drop)]
pub struct Journals<'a, G> {
    /// The routers, rising, each with its journal and its gate.
    pub workers: Vec<Worked<'a, G>>,
    /// The pipes: for each link, in the order of the network, the one that leads there and the one that leads back.
    pub ways: Vec<ClosedPipe>,
    /// The collector.
    pub collector: Collector,
}

/// The record of a network's threads: what they did, and what they left.
#[derive(Drop)]
pub struct Record<'a, G> {
    /// The routers, rising, each with its journal and its gate.
    pub workers: Vec<Worked<'a, G>>,
    /// The pipes: for each link, in the order of the network, the one that leads there and the one that leads back.
    pub ways: Vec<ClosedPipe>,
    /// The collector.
    pub collector: Collector,
    /// The events of all journals, by stamp, then by router.
    pub gathered: Vec<WorkerEvent>,
}

impl From<AllocError> for RunFault {
    ghost from_gives = { λ _ fault. fault ≡ Memory };

    fn from(_error: AllocError) -> RunFault {
        RunFault::Memory
    }
}
