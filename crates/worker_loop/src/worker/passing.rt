//! What a worker does between two chores, and the Turns that it passes over.

use super::{Worker, WorkerFault};
use crate::chore::Chore;
use crate::journal::WorkerEvent;
use crate::traits::{Between, Desk, Gate, Pipes};
use std::sync::Wait;

// The events of a journal behind the first so many.
fn events_behind(events: &[WorkerEvent], before: usize) -> &[WorkerEvent] {
    match events.split_at_checked(before) {
        Some((_, behind)) => behind,
        None => &[],
    }
}

impl<'a, L: Pipes, D: Desk, G: Gate> Worker<'a, L, D, G> {
    ghost use Rattle.std.specs.Prelude.{◌≡◌, ◌<◌, ◌≤◌, ◌++◌, length, replicate, All, IsTrue, IfOk, IfErr};
    ghost use Rattle.worker_loop.specs.Following.{Obeys};
    ghost use Rattle.worker_loop.specs.Whole.{DidSo, MayPass, IsQuiet, IsSameWorker, IsSameBut, PipesStand, peers_of};
    ghost use Rattle.worker_loop.specs.declared.chore.Chore.TheVariants.{Turn};
    ghost use Rattle.worker_loop.specs.Ending.{EndsChore};

    // Whether an item waits to be put towards a peer.
    fn is_blocked(&self) -> bool {
        for peer_at in 0..self.lines.places() {
            match self.router.peer_at(peer_at) {
                Some(peer) => {
                    if !self.router.puts_nothing_at(peer_at, peer) {
                        return true;
                    }
                }
                None => return false,
            }
        }
        false
    }

    // Whether the router has nothing to put towards a peer, and nothing of one to handle.
    fn links_are_idle(&self) -> bool
        requires pipes { PipesStand L.stands L.wiring self.now }
        ensures { IsTrue result → All (IsQuiet self.now.router) (peers_of self.now) }
    {
        for peer_at in 0..self.lines.places() {
            match self.router.peer_at(peer_at) {
                Some(peer) => {
                    if !self.router.link_is_idle_at(peer_at, peer) {
                        return false;
                    }
                }
                None => return true,
            }
        }
        true
    }

    // Whether the router has nothing to put, to handle, to decide, to tell and to offer. A Turn may then do nothing.
    fn has_nothing_to_do(&self) -> bool
        requires pipes { PipesStand L.stands L.wiring self.now }
        ensures { IsTrue result → MayPass L.put_to L.taken_from L.room D.made self.now }
    {
        if !self.links_are_idle() {
            return false;
        }
        self.router.is_idle()
    }

    // Passes over the Turns that the gate gives next, at most so many, if it may, and answers how many. It writes them
    // down: none, if there is no room for them.
    pub(super) fn pass(&mut self, passes: bool, given: u32, most: u32) -> u32
        requires { given ≡ length (G.given self.old.gate) }
        ensures may { 0 < result → IsTrue passes }
        ensures most { result ≤ most }
        ensures given { G.given self.new.gate ≡ G.given self.old.gate ++ replicate result Turn }
        ensures chores { self.new.journal.chores.items ≡ self.old.journal.chores.items ++ replicate result Turn }
        ensures rest { IsSameBut self.old self.new }
        ensures script { G.script self.new.gate ≡ G.script self.old.gate }
    {
        let most = most.min(self.gate.turns_from(given));
        let chores = &mut self.journal.chores;
        if !passes || chores.reserve(most as usize).is_err() {
            return 0;
        }
        let turns = self.gate.next_turns(given, most);
        chores
            .resize(chores.len() + turns as usize, Chore::Turn)
            .unwrap();
        turns
    }

    // Lets others know what was done for the last of so many chores. If that was a Turn and nothing was done, it may
    // wait for them. Answers whether nothing comes before the next chore that is no Turn.
    fn pause<R: Wait>(
        &self,
        rt: &R,
        board: &D::Board,
        chore: &Chore,
        before: usize,
        given: u32,
        most: u32,
    ) -> bool {
        let done = events_behind(self.journal.events.as_slice(), before);
        let is_idle = done.is_empty() && chore.is_turn();
        let between = Between {
            router: self.router.number(),
            done,
            is_blocked: is_idle && self.is_blocked(),
            given,
            turns: if is_idle {
                self.gate.turns_from(given)
            } else {
                0
            },
            most,
        };
        let is_alone = self.desk.pause(rt, board, &between);
        is_idle && is_alone
    }

    // Does the last of so many chores, and then pauses. Answers whether a Turn may be passed over next.
    pub(super) fn one<R: Wait>(
        &mut self,
        rt: &R,
        board: &D::Board,
        chore: &Chore,
        given: u32,
        most: u32,
    ) -> Result<bool, WorkerFault>
        requires pipes { PipesStand L.stands L.wiring self.old }
        ensures done { IfOk result (λ _. DidSo L.put_to L.taken_from L.room D.made self.old self.new
            (λ g. Obeys g self.old.router.number (peers_of self.old) chore.now)) }
        ensures passes { IfOk result (λ passes. IsTrue passes → MayPass L.put_to L.taken_from L.room D.made self.new) }
        ensures same { IsSameWorker L.wiring self.old self.new }
        ensures ended { IfErr result (EndsChore L.taken_from self.new chore.now) }
    {
        let before = self.journal.events.len();
        self.obey(rt, board, chore)?;
        Ok(self.pause(rt, board, chore, before, given, most) && self.has_nothing_to_do())
    }
}
