//! What the router of a worker does alone.

use super::{Worker, WorkerFault, note, passed_over};
use crate::traits::{Desk, Gate, Pipes};
use router_core::Call;
use router_model::Stepped;
use router_model::laws::answers_are_steps;
use world_core::Event;

impl<'a, L: Pipes, D: Desk, G: Gate> Worker<'a, L, D, G> {
    ghost use Rattle.std.specs.Prelude.{◌≡◌, IfOk, IfErr};
    ghost use Rattle.worker_loop.specs.Following.{Calls};
    ghost use Rattle.worker_loop.specs.Whole.{DidSo, IsSameWorker};
    ghost use Rattle.router_core.specs.Calling.{call_of};
    ghost use Rattle.worker_loop.specs.Whole.{IsNamedBy};
    ghost use Rattle.worker_loop.specs.Ending.{EndsCall};

    // Tries a call of the router.
    pub(super) fn try_call(&mut self, call: &Call, event: Event) -> Result<(), WorkerFault>
        requires named { IsNamedBy event self.old.router.number (call_of call.now) }
        ensures done { IfOk result
            (λ _. DidSo L.put_to L.taken_from L.room D.made self.old self.new
            (λ g. Calls g self.old.router.number (call_of call.now))) }
        ensures same { IsSameWorker L.wiring self.old self.new }
        ensures ended { IfErr result (EndsCall self.new (call_of call.now)) }
    {
        answers_are_steps();
        let room = self.journal.events.reserve(1);
        match self.router.perform(call, room) {
            Ok(Stepped::Did) => {
                note(&mut self.journal.events, self.router.stamp(), event);
                Ok(())
            }
            Ok(Stepped::Nothing) => Ok(()),
            Err(error) => passed_over(error),
        }
    }
}
