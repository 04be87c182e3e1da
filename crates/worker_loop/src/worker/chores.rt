//! Doing chores.

ghost use Rattle.std.specs.Prelude.{◌≡◌, ◌<◌, ◌++◌, ◌∷◌, [], vec_len, vec_capacity};

use super::{Worker, WorkerFault};
use crate::chore::Chore;
use crate::traits::{Desk, Gate, Pipes};
use ranked_policy::Asn;
use router_core::Call;
use router_model::Command;
use std::sync::Wait;
use world_core::Event;

// Adds a chore to a journal that has room for it.
fn write_down(chores: &mut Vec<Chore>, chore: &Chore)
    requires { vec_len chores.old < vec_capacity chores.old }
    ensures { chores.new.items ≡ chores.old.items ++ chore.now ∷ [] }
{
    chores.extend_from_slice(&[*chore]).unwrap();
}

impl<'a, L: Pipes, D: Desk, G: Gate> Worker<'a, L, D, G> {
    ghost use Rattle.std.specs.Prelude.{◌≡◌, IfOk, IfErr, OnErr, Some, slice_get};
    ghost use Rattle.worker_loop.specs.Following.{Calls, Each, Meets, Turns, Obeys};
    ghost use Rattle.router_model.specs.Calls as calls;
    ghost use Rattle.worker_loop.specs.Whole.{DidSo, IsSameWorker, IsSameBut, PipesStand, peers_of};
    ghost use Rattle.worker_loop.specs.Ending.{EndsCall, EndsMeet, EndsMeeting, EndsTurn, EndsChore};
    ghost use Rattle.std.specs.Prelude.{◌≤◌, length, vec_capacity, [], ◌∷◌, ◌++◌};

    // Gets the next chore, and writes it down. The gate is told before if a snapshot has settled.
    pub(super) fn next_chore<R: Wait>(
        &mut self,
        rt: &R,
        board: &D::Board,
        turn: u32,
    ) -> Result<Chore, WorkerFault>
        requires turn { turn ≡ length (G.given self.old.gate) }
        ensures given { IfOk result (λ chore. G.given self.new.gate ≡ G.given self.old.gate ++ chore ∷ []) }
        ensures chores { IfOk result
            (λ chore. self.new.journal.chores.items ≡ self.old.journal.chores.items ++ chore ∷ []) }
        ensures rest { IsSameBut self.old self.new }
        ensures script { G.script self.new.gate ≡ G.script self.old.gate }
        ensures why { IfErr result (λ why. why ≡ WorkerFault.Memory) }
        ensures none { OnErr result (G.given self.new.gate ≡ G.given self.old.gate) }
        ensures as_they_were { OnErr result (self.new.journal.chores.items ≡ self.old.journal.chores.items) }
        ensures full { OnErr result (vec_capacity self.new.journal.chores ≤ length self.new.journal.chores.items) }
    {
        self.journal.chores.reserve(1)?;
        if self.desk.has_settled(board) {
            self.gate.on_settled(turn);
        }
        let chore = self.gate.next(rt, turn);
        write_down(&mut self.journal.chores, &chore);
        Ok(chore)
    }

    // Tries one Put, one Take and one Handle with the peer at a place.
    fn meet<R: Wait>(&mut self, rt: &R, peer_at: usize, peer: Asn) -> Result<(), WorkerFault>
        requires stands { slice_get (peers_of self.old) peer_at ≡ Some peer }
        requires pipes { L.stands (L.wiring self.old.lines) peer_at peer }
        ensures done { IfOk result
            (λ _. DidSo L.put_to L.taken_from L.room D.made self.old self.new
            (λ g. Meets g self.old.router.number peer)) }
        ensures same { IsSameWorker L.wiring self.old self.new }
        ensures ended { IfErr result (EndsMeet L.taken_from self.new peer) }
    {
        self.try_put(rt, peer_at, peer)?;
        self.try_take(rt, peer_at, peer)?;
        self.try_handle(peer_at, peer)?;
        Ok(())
    }

    // Tries one Put, one Take and one Handle with each peer, rising.
    fn meet_all<R: Wait>(&mut self, rt: &R) -> Result<(), WorkerFault>
        requires pipes { PipesStand L.stands L.wiring self.old }
        ensures done { IfOk result
            (λ _. DidSo L.put_to L.taken_from L.room D.made self.old self.new
            (λ g. Each (Meets g self.old.router.number) (peers_of self.old))) }
        ensures same { IsSameWorker L.wiring self.old self.new }
        ensures ended { IfErr result (EndsMeeting L.taken_from self.new) }
    {
        for peer_at in 0..self.lines.places() {
            match self.router.peer_at(peer_at) {
                Some(peer) => self.meet(rt, peer_at, peer)?,
                None => return Ok(()),
            }
        }
        Ok(())
    }

    // Does a turn.
    fn turn<R: Wait>(&mut self, rt: &R, board: &D::Board) -> Result<(), WorkerFault>
        requires pipes { PipesStand L.stands L.wiring self.old }
        ensures done { IfOk result
            (λ _. DidSo L.put_to L.taken_from L.room D.made self.old self.new
            (λ g. Turns g self.old.router.number (peers_of self.old))) }
        ensures same { IsSameWorker L.wiring self.old self.new }
        ensures ended { IfErr result (EndsTurn L.taken_from self.new) }
    {
        self.meet_all(rt)?;
        let number = self.router.number();
        self.try_call(&Call::Decide, Event::Decide(number))?;
        self.try_call(&Call::Advertise, Event::Advertise(number))?;
        self.try_offer(rt, board)?;
        Ok(())
    }

    // Obeys a command.
    fn command(&mut self, command: &Command) -> Result<(), WorkerFault>
        ensures done { IfOk result
            (λ _. DidSo L.put_to L.taken_from L.room D.made self.old self.new
            (λ g. Calls g self.old.router.number (calls.Obey command.now))) }
        ensures same { IsSameWorker L.wiring self.old self.new }
        ensures ended { IfErr result (EndsCall self.new (calls.Obey command.now)) }
    {
        let event = Event::Command(self.router.number(), *command);
        self.try_call(&Call::Obey(*command), event)
    }

    // Does one chore.
    pub(super) fn obey<R: Wait>(
        &mut self,
        rt: &R,
        board: &D::Board,
        chore: &Chore,
    ) -> Result<(), WorkerFault>
        requires pipes { PipesStand L.stands L.wiring self.old }
        ensures done { IfOk result
            (λ _. DidSo L.put_to L.taken_from L.room D.made self.old self.new
            (λ g. Obeys g self.old.router.number (peers_of self.old) chore.now)) }
        ensures same { IsSameWorker L.wiring self.old self.new }
        ensures ended { IfErr result (EndsChore L.taken_from self.new chore.now) }
    {
        let number = self.router.number();
        match chore {
            Chore::Turn => self.turn(rt, board),
            Chore::Tick => self.try_call(&Call::Tick, Event::Tick(number)),
            Chore::Command(command) => self.command(command),
            Chore::Stop => Ok(()),
        }
    }
}
