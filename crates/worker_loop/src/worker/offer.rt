//! The offers of a worker's router.

use super::{Worker, WorkerFault, note};
use crate::traits::{Desk, Gate, Pipes};
use std::sync::Wait;
use world_core::Event;

impl<'a, L: Pipes, D: Desk, G: Gate> Worker<'a, L, D, G> {
    ghost use Rattle.std.specs.Prelude.{◌≡◌, IfOk, IfErr};
    ghost use Rattle.worker_loop.specs.Following.{Offers};
    ghost use Rattle.worker_loop.specs.Whole.{DidSo, IsSameWorker};
    ghost use Rattle.worker_loop.specs.Ending.{EndsOffer};

    // Makes the offer that waits in front, if one does.
    pub(super) fn try_offer<R: Wait>(&mut self, rt: &R, board: &D::Board) -> Result<(), WorkerFault>
        ensures done { IfOk result
            (λ _. DidSo L.put_to L.taken_from L.room D.made self.old self.new (λ g. Offers g self.old.router.number)) }
        ensures same { IsSameWorker L.wiring self.old self.new }
        ensures ended { IfErr result (λ _. EndsOffer self.new) }
    {
        let Some(offer) = self.router.next_offer() else {
            return Ok(());
        };
        let room = self.journal.events.reserve(1);
        let stamp = self
            .desk
            .offer(rt, board, self.router.stamp(), offer, room)?;
        self.router.offer_made(stamp);
        let event = Event::Offer(self.router.number());
        note(&mut self.journal.events, stamp, event);
        Ok(())
    }
}
