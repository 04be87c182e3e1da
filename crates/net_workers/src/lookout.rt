//! Whether a snapshot has settled, as workers see it while they run.
//!
//! No clause says when it is seen, or that it is: a gate that is told so may go on as before. What a run leaves out for
//! it has to be made good behind the joins, where the collector is known.

use ranked_policy::{Network, Origin};
use snap_collector::{Collector, Outcome};
use snap_marker::Part;
use std::alloc::{AllocError, Global};
use std::sync::atomic::{AtomicBool, Ordering};

/// The origins of a network, and whether a snapshot has settled with each of them originating its prefix.
#[derive(Drop)]
pub(crate) struct Lookout {
    origins: Vec<Origin>,
    has_settled: AtomicBool,
}

// Whether an origin originated its prefix as it recorded.
fn originates(part: Option<&Part>, origin: &Origin) -> bool {
    match part {
        Some(part) => part.originated.iter().any(|one| one.equals(&origin.prefix)),
        None => false,
    }
}

// Whether a snapshot came out settled. While it waits for offers, none of them is looked at.
fn is_settled(collector: &Collector, number: u32) -> bool {
    if !collector.is_decided(number) {
        return false;
    }
    match collector.outcome(number) {
        Outcome::Settled => true,
        Outcome::Waiting | Outcome::Abandoned(_) | Outcome::Moving { .. } => false,
    }
}

impl Lookout {
    /// The lookout of a network, before any snapshot. It is refused only for want of memory.
    pub(crate) fn new(alloc: Global, network: &Network) -> Result<Lookout, AllocError> {
        let mut origins = Vec::new(alloc);
        for origin in network.origins() {
            origins.push(Origin {
                prefix: origin.prefix,
                router: origin.router,
            })?;
        }
        Ok(Lookout {
            origins,
            has_settled: AtomicBool::new(false),
        })
    }

    /// Looks how the snapshot of a number came out, of which an offer was made.
    pub(crate) fn look(&self, collector: &Collector, number: u32) {
        if !is_settled(collector, number) {
            return;
        }
        for origin in self.origins.as_slice() {
            if !originates(collector.part(number, origin.router), origin) {
                return;
            }
        }
        self.has_settled.store(true, Ordering::SeqCst);
    }

    /// Whether a snapshot came out settled, with every origin originating its prefix.
    pub(crate) fn has_settled(&self) -> bool {
        self.has_settled.load(Ordering::SeqCst)
    }
}
