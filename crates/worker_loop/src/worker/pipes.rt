//! What the router of a worker puts and takes.

ghost use Rattle.std.specs.Prelude.{◌≡◌, ◌≤◌, length, OnOk, IfErr};
ghost use Rattle.worker_loop.specs.Ending.{lost};

use super::{Worker, WorkerFault, note, passed_over};
use crate::traits::{Desk, Gate, Pipes};
use ranked_policy::Asn;
use router_model::laws::answers_are_steps;
use router_model::{RouterError, Stepped};
use std::sync::Wait;
use world_core::Event;

// Why a worker ends if its router refused an item that was taken out of its pipe.
fn lost(error: RouterError) -> WorkerFault
    ensures { result ≡ lost error }
{
    match error {
        RouterError::Memory => WorkerFault::Memory,
        RouterError::NoSuchPeer
        | RouterError::NotOrigin
        | RouterError::OldSnapshot { .. }
        | RouterError::Blocked { .. }
        | RouterError::Held { .. }
        | RouterError::StampEnd
        | RouterError::EpochEnd => WorkerFault::Refused,
    }
}

// The answer to a put for which memory is wanting: there is nothing to do if the pipe is full, else the worker ends.
fn full_or_ended<L: Pipes>(lines: &mut L, peer_at: usize, peer: Asn) -> Result<(), WorkerFault>
    requires pipes { L.stands (L.wiring lines.old) peer_at peer }
    ensures full { OnOk result (L.room lines.old peer ≤ length (L.put_to lines.old peer)) }
    ensures memory { IfErr result (λ why. why ≡ WorkerFault.Memory) }
    ensures put { L.put_to lines.new ≡ L.put_to lines.old }
    ensures taken { L.taken_from lines.new ≡ L.taken_from lines.old }
    ensures room { L.room lines.new ≡ L.room lines.old }
    ensures wiring { L.wiring lines.new ≡ L.wiring lines.old }
{
    if lines.is_full(peer_at, peer) {
        return Ok(());
    }
    Err(WorkerFault::Memory)
}

impl<'a, L: Pipes, D: Desk, G: Gate> Worker<'a, L, D, G> {
    ghost use Rattle.std.specs.Prelude.{◌≡◌, IfOk, IfErr, Some, slice_get};
    ghost use Rattle.router_model.specs.Calls.{Put, Handle};
    ghost use Rattle.worker_loop.specs.Following.{Puts, Takes, Calls};
    ghost use Rattle.worker_loop.specs.Whole.{DidSo, IsSameWorker, peers_of};
    ghost use Rattle.worker_loop.specs.Ending.{EndsCall, EndsTake};

    // Tries to put the next item towards the peer at a place.
    pub(super) fn try_put<R: Wait>(
        &mut self,
        rt: &R,
        peer_at: usize,
        peer: Asn,
    ) -> Result<(), WorkerFault>
        requires stands { slice_get (peers_of self.old) peer_at ≡ Some peer }
        requires pipes { L.stands (L.wiring self.old.lines) peer_at peer }
        ensures done { IfOk result
            (λ _. DidSo L.put_to L.taken_from L.room D.made self.old self.new
            (λ g. Puts g self.old.router.number peer)) }
        ensures same { IsSameWorker L.wiring self.old self.new }
        ensures ended { IfErr result (EndsCall self.new (Put peer)) }
    {
        answers_are_steps();
        let item = match self.router.next_item_at(peer_at, peer) {
            Ok(Some(item)) => item,
            Ok(None) => return Ok(()),
            Err(RouterError::Memory) => return full_or_ended(&mut self.lines, peer_at, peer),
            Err(error) => return passed_over(error),
        };
        if self.journal.events.reserve(1).is_err() {
            return full_or_ended(&mut self.lines, peer_at, peer);
        }
        match self.lines.put(rt, peer_at, peer, item) {
            Ok(()) => {
                self.router.item_put_at(peer_at, peer);
                let event = Event::Put(self.router.number(), peer);
                note(&mut self.journal.events, self.router.stamp(), event);
                Ok(())
            }
            Err(_) => Ok(()),
        }
    }

    // Tries to take the next item of the peer at a place. Nothing is taken if a message of the peer waits, since the
    // router would refuse the item.
    pub(super) fn try_take<R: Wait>(
        &mut self,
        rt: &R,
        peer_at: usize,
        peer: Asn,
    ) -> Result<(), WorkerFault>
        requires stands { slice_get (peers_of self.old) peer_at ≡ Some peer }
        requires pipes { L.stands (L.wiring self.old.lines) peer_at peer }
        ensures done { IfOk result
            (λ _. DidSo L.put_to L.taken_from L.room D.made self.old self.new
            (λ g. Takes g self.old.router.number peer)) }
        ensures same { IsSameWorker L.wiring self.old self.new }
        ensures ended { IfErr result (EndsTake L.taken_from self.new peer) }
    {
        answers_are_steps();
        if !self.router.may_take_at(peer_at, peer) {
            return Ok(());
        }
        let Some(item) = self.lines.take(rt, peer_at, peer) else {
            return Ok(());
        };
        let room = self.journal.events.reserve(1);
        match self.router.take_at(peer_at, peer, &item, room) {
            Ok(Stepped::Did) => {
                let event = Event::Take(self.router.number(), peer);
                note(&mut self.journal.events, self.router.stamp(), event);
                Ok(())
            }
            Ok(Stepped::Nothing) => Ok(()),
            Err(error) => Err(lost(error)),
        }
    }

    // Tries to handle what waits in front of the peer at a place.
    pub(super) fn try_handle(&mut self, peer_at: usize, peer: Asn) -> Result<(), WorkerFault>
        requires stands { slice_get (peers_of self.old) peer_at ≡ Some peer }
        ensures done { IfOk result
            (λ _. DidSo L.put_to L.taken_from L.room D.made self.old self.new
            (λ g. Calls g self.old.router.number (Handle peer))) }
        ensures same { IsSameWorker L.wiring self.old self.new }
        ensures ended { IfErr result (EndsCall self.new (Handle peer)) }
    {
        answers_are_steps();
        let room = self.journal.events.reserve(1);
        match self.router.handle_at(peer_at, peer, room) {
            Ok(Stepped::Did) => {
                let event = Event::Handle(self.router.number(), peer);
                note(&mut self.journal.events, self.router.stamp(), event);
                Ok(())
            }
            Ok(Stepped::Nothing) => Ok(()),
            Err(error) => passed_over(error),
        }
    }
}
