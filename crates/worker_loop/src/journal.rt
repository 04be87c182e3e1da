//! The journal that a worker writes.

ghost use Rattle.std.specs.Prelude.{◌≡◌, []};

use crate::chore::Chore;
use std::alloc::Global;
use world_core::Event;

/// An event that was done, and its stamp.
#[derive(Clone, Copy, Debug, PartialEq, Eq)]
pub struct WorkerEvent {
    /// The stamp.
    pub stamp: u64,
    /// The event.
    pub event: Event,
}

/// The chores that a worker was given, and the events that it did, in their order.
#[derive(Debug, Drop)]
pub struct Journal {
    /// The chores.
    pub chores: Vec<Chore>,
    /// The events, with their stamps.
    pub events: Vec<WorkerEvent>,
}

impl Journal {
    /// An empty journal. It takes no memory.
    pub fn new(alloc: Global) -> Journal
        ensures chores { result.chores.items ≡ [] }
        ensures events { result.events.items ≡ [] }
    {
        Journal {
            chores: Vec::new(alloc),
            events: Vec::new(alloc),
        }
    }
}
