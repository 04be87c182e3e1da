//! A worker.

mod calls;
mod chores;
mod offer;
mod passing;
mod pipes;

ghost use Rattle.std.specs.Prelude.{◌≡◌, ◌<◌, ◌++◌, ◌∷◌, [], vec_len, vec_capacity};
ghost use Rattle.worker_loop.specs.Whole.{entry, passing};
ghost use Rattle.worker_loop.specs.declared.worker.WorkerFault.TheVariants.{Memory};

use crate::chore::Chore;
use crate::journal::{Journal, WorkerEvent};
use crate::traits::{Desk, Gate, Pipes};
use router_core::Router;
use router_model::RouterError;
use std::alloc::AllocError;
use std::sync::Wait;
use thiserror::Error;
use world_core::Event;

/// Why a worker ended before its last chore.
#[derive(Clone, Copy, Debug, PartialEq, Eq, Error)]
pub enum WorkerFault {
    /// A growth was refused.
    #[error("memory")]
    Memory,
    /// Its router had no stamp or no incarnation left, or its offer was refused.
    #[error("refused")]
    Refused,
}

/// A router, with the pipes, the desk, the gate and the journal of its worker.
#[derive(Drop)]
pub struct Worker<'a, L, D, G> {
    /// The router.
    pub router: Router<'a>,
    /// The pipes to its peers.
    pub lines: L,
    /// Its place at the board.
    pub desk: D,
    /// The gate that gives its chores.
    pub gate: G,
    /// What it did.
    pub journal: Journal,
}

// The refusal of the router, as a worker sees it: some refusals say only that there is nothing to do.
fn passed_over(error: RouterError) -> Result<(), WorkerFault>
    ensures { result ≡ passing error }
{
    match error {
        RouterError::NoSuchPeer
        | RouterError::NotOrigin
        | RouterError::OldSnapshot { .. }
        | RouterError::Blocked { .. }
        | RouterError::Held { .. } => Ok(()),
        RouterError::StampEnd | RouterError::EpochEnd => Err(WorkerFault::Refused),
        RouterError::Memory => Err(WorkerFault::Memory),
    }
}

// Adds an event to a journal that has room for it.
fn note(events: &mut Vec<WorkerEvent>, stamp: u64, event: Event)
    requires { vec_len events.old < vec_capacity events.old }
    ensures { events.new.items ≡ events.old.items ++ entry stamp event ∷ [] }
{
    events.push_reserved(WorkerEvent { stamp, event });
}

impl<'a, L: Pipes, D: Desk, G: Gate> Worker<'a, L, D, G> {
    ghost use Rattle.std.specs.Prelude.{◌≡◌, IfOk, IfErr};
    ghost use Rattle.worker_loop.specs.Following.{Follows};
    ghost use Rattle.worker_loop.specs.Ending.{EndsFor};
    ghost use Rattle.worker_loop.specs.Whole.{DidSo, IsLaterWorker, IsWhole, PipesStand, peers_of};
    ghost use Rattle.std.specs.Prelude.{[]};

    /// Does the chores that the gate gives: so many, or up to the first Stop. After each chore it tells its desk what
    /// it did, and may wait there if it did nothing. If the desk answers that nothing comes, and the router has nothing
    /// to do, the Turns that the gate gives next together are done without a look at the pipes.
    ///
    /// Refused with [`WorkerFault::Refused`] only if the router, as it is then, has no stamp or incarnation left for a
    /// call of the last chore. Refused with [`WorkerFault::Memory`] only if the next chore was to be written down and
    /// the list of chores has no room left, or if a call of the last chore has a step due. Refused with either if an
    /// offer waits in the router. A refused growth thus ends no turn in which nothing is due. Such a call may be a
    /// Take: its item has left the pipe then, and is lost.
    ///
    /// Premise: the pipes of each peer of its router stand at the place of that peer.
    pub fn work<R: Wait>(&mut self, rt: &R, board: &D::Board, turns: u32) -> Result<(), WorkerFault>
        requires fresh { G.given self.old.gate ≡ [] }
        requires blank { self.old.journal.chores.items ≡ [] }
        requires pipes { PipesStand L.stands L.wiring self.old }
        ensures follows { IfOk result
            (λ _. DidSo L.put_to L.taken_from L.room D.made self.old self.new
            (λ g. Follows g self.old.router.number (peers_of self.old) (G.given self.new.gate))) }
        ensures whole { IfOk result (λ _. IsWhole turns (G.given self.new.gate)) }
        ensures chores { IfOk result (λ _. self.new.journal.chores.items ≡ G.given self.new.gate) }
        ensures same { IsLaterWorker L.wiring self.old self.new }
        ensures script { G.script self.new.gate ≡ G.script self.old.gate }
        ensures ended { IfErr result (EndsFor L.taken_from turns (G.given self.new.gate) self.new) }
    {
        let mut given = 0;
        'chores: while given < turns {
            let chore = self.next_chore(rt, board, given)?;
            given += 1;
            let passes = self.one(rt, board, &chore, given, turns)?;
            if let Chore::Stop = chore {
                return Ok(());
            }
            given += self.pass(passes, given, turns - given);
        }
        Ok(())
    }
}

impl From<AllocError> for WorkerFault {
    ghost from_gives = { λ _ fault. fault ≡ Memory };

    fn from(_error: AllocError) -> WorkerFault {
        WorkerFault::Memory
    }
}
