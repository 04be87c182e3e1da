//! The journals of all workers, put into one order.

ghost use Rattle.std.specs.Prelude.{◌≡◌, IfOk};
ghost use Rattle.net_workers.specs.Gathered.{all_events, IsSorted};

use crate::record::{Journals, Record, Worked};
use std::alloc::{AllocError, Global};
use worker_loop::WorkerEvent;

// The events of journals, one journal after another.
fn all_events<G>(alloc: Global, workers: &[Worked<'_, G>]) -> Result<Vec<WorkerEvent>, AllocError>
    ensures { IfOk result (λ all. all.items ≡ all_events workers.now) }
{
    let mut all = Vec::new(alloc);
    for worked in workers {
        all.extend_from_slice(worked.journal.events.as_slice())?;
    }
    Ok(all)
}

// The events of all journals, ordered by stamp; events of one stamp stand as the journals do.
fn gather<G>(alloc: Global, workers: &[Worked<'_, G>]) -> Result<Vec<WorkerEvent>, AllocError>
    ensures { IfOk result (λ gathered. IsSorted (all_events workers.now) gathered.items) }
{
    let mut all = all_events(alloc, workers)?;
    all.sort_by_key(|entry: &WorkerEvent| entry.stamp)?;
    Ok(all)
}

impl<'a, G: Drop> Journals<'a, G> {
    /// Puts the events of all journals into one order: by stamp, then by router. It is refused only for want of memory.
    pub fn gather(self, alloc: Global) -> Result<Record<'a, G>, AllocError>
        ensures workers { IfOk result (λ r. r.workers.items ≡ self.entry.workers.items) }
        ensures ways { IfOk result (λ r. r.ways.items ≡ self.entry.ways.items) }
        ensures collector { IfOk result (λ r. r.collector ≡ self.entry.collector) }
        ensures sorted { IfOk result (λ r. IsSorted (all_events self.entry.workers.items) r.gathered.items) }
    {
        let gathered = gather(alloc, self.workers.as_slice())?;
        let Journals {
            workers,
            ways,
            collector,
        } = self;
        Ok(Record {
            workers,
            ways,
            collector,
            gathered,
        })
    }
}
