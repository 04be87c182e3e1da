//! What a worker works with: its gate, its pipes, and the desk at which it makes offers and waits for the others.

ghost use Rattle.std.specs.Prelude.{◌≡◌, ◌<◌, ◌≤◌, ◌++◌, ◌∷◌, [], List, ℕ, length, replicate, OnOk, OnErr, IfErr, IsErr, IsTrue, IfOk, MatchOption};
ghost use Rattle.outbox.specs.declared.item.Item.{Item};
ghost use Rattle.run_model.specs.Stamps.{Collected};
ghost use Rattle.snap_collector.specs.Collecting.{made_by};
ghost use Rattle.snap_marker.specs.Recordings.{MadeOffer};
ghost use Rattle.run_model.specs.declared.stamps.TheConstants.{GREATEST_STAMP};
ghost use Rattle.worker_loop.specs.declared.chore.Chore.{Chore};
ghost use Rattle.worker_loop.specs.declared.chore.Chore.TheVariants.{Turn};
ghost use Rattle.worker_loop.specs.Acts.{grown, with_offer};

use crate::chore::Chore;
use crate::journal::WorkerEvent;
use crate::worker::WorkerFault;
use outbox::Item;
use ranked_policy::Asn;
use snap_marker::Offer;
use std::alloc::AllocError;
use std::sync::Wait;

/// Gives a worker its chores, one after the other. A call may wait.
pub trait Gate {
    /// The script that the gate follows, which no call changes.
    ghost Script: { Type 0 };

    ghost script: { Self → Script };

    /// The chores given so far.
    ghost given: { Self → List Chore };

    /// The next chore of a worker, which was given `turn` chores so far.
    fn next<R: Wait>(&mut self, rt: &R, turn: u32) -> Chore
        requires { turn ≡ length (given self.old) }
        ensures given { given self.new ≡ given self.old ++ result ∷ [] }
        ensures script { script self.new ≡ script self.old };

    /// At least how many of its chores from a turn on are Turns, as far as it can say: for so long its worker may wait
    /// for the others. A gate that waits for another one answers 0.
    fn turns_from(&self, _turn: u32) -> u32 {
        0
    }

    /// Is told that a snapshot has settled, before the next chore of a worker that was given `turn` chores so far. It
    /// gives no chore. A gate without a body of its own goes on as before.
    fn on_settled(&mut self, _turn: u32)
        requires { _turn ≡ length (given self.old) }
        ensures given { given self.new ≡ given self.old }
        ensures script { script self.new ≡ script self.old }
    {}

    /// Gives the next chores of a worker that was given `turn` chores so far, at most so many, as long as they are
    /// Turns, and answers how many it gave. A gate that does not say so gives none: then [`Gate::next`] gives each.
    fn next_turns(&mut self, _turn: u32, _most: u32) -> u32
        requires { _turn ≡ length (given self.old) }
        ensures most { result ≤ _most }
        ensures given { given self.new ≡ given self.old ++ replicate result Turn }
        ensures script { script self.new ≡ script self.old }
    {
        0
    }
}

/// The pipes between a worker and those of its router's peers. Those of each peer stand at a place, counted from 0.
pub trait Pipes {
    /// The items put towards each peer.
    ghost put_to: { Self → ℕ → List Item };

    /// The items taken from each peer.
    ghost taken_from: { Self → ℕ → List Item };

    /// The most items that the pipe to each peer holds; none if there is no pipe.
    ghost room: { Self → ℕ → ℕ };

    /// Which pipes these are, which no call changes.
    ghost Wiring: { Type 0 };

    ghost wiring: { Self → Wiring };

    /// At which place the pipes of which peer stand.
    ghost stands: { Wiring → ℕ → ℕ → Type 0 };

    /// How many places there are: no pipes stand behind them.
    fn places(&self) -> usize
        ensures { (peer_at v : ℕ) → stands (wiring self.now) peer_at v → peer_at < result };

    /// Puts an item towards the peer at a place. It comes back only if as many were put as the pipe holds at most.
    fn put<R: Wait>(&mut self, rt: &R, peer_at: usize, peer: Asn, item: Item) -> Result<(), Item>
        requires stands { stands (wiring self.old) peer_at peer }
        ensures ok { OnOk result (put_to self.new ≡ grown (put_to self.old) peer item) }
        ensures err { OnErr result (put_to self.new ≡ put_to self.old) }
        ensures full { OnErr result (room self.old peer ≤ length (put_to self.old peer)) }
        ensures taken { taken_from self.new ≡ taken_from self.old }
        ensures room { room self.new ≡ room self.old }
        ensures wiring { wiring self.new ≡ wiring self.old };

    /// Whether the pipe to the peer at a place is full, or there is none: only if as many items were put as it holds at
    /// most. Nothing changes.
    fn is_full(&mut self, peer_at: usize, peer: Asn) -> bool
        requires stands { stands (wiring self.old) peer_at peer }
        ensures full { IsTrue result → room self.old peer ≤ length (put_to self.old peer) }
        ensures put { put_to self.new ≡ put_to self.old }
        ensures taken { taken_from self.new ≡ taken_from self.old }
        ensures room { room self.new ≡ room self.old }
        ensures wiring { wiring self.new ≡ wiring self.old };

    /// Takes the next item of the peer at a place, if it finds one.
    fn take<R: Wait>(&mut self, rt: &R, peer_at: usize, peer: Asn) -> Option<Item>
        requires stands { stands (wiring self.old) peer_at peer }
        ensures taken { MatchOption result (taken_from self.new ≡ taken_from self.old)
            (λ item. taken_from self.new ≡ grown (taken_from self.old) peer item) }
        ensures put { put_to self.new ≡ put_to self.old }
        ensures room { room self.new ≡ room self.old }
        ensures wiring { wiring self.new ≡ wiring self.old };
}

/// Where a worker stands between two chores.
#[derive(Clone, Copy)]
pub struct Between<'a> {
    /// Its router.
    pub router: Asn,
    /// The events that it did for the last chore.
    pub done: &'a [WorkerEvent],
    /// Whether an item waits to be put.
    pub is_blocked: bool,
    /// How many chores it was given.
    pub given: u32,
    /// At least how many of the next chores are Turns; 0 if the last chore was none.
    pub turns: u32,
    /// The most chores that it is given.
    pub most: u32,
}

/// The desk where a worker makes its offers, and waits for the others.
pub trait Desk {
    /// What the desks of all workers share.
    type Board;

    /// The offers made here, with their stamps.
    ghost made: { Self → List (Collected MadeOffer) };

    /// Makes an offer of a router whose last event has the given stamp, and answers the offer's stamp.
    ///
    /// `room` says whether the caller has room for the event if the offer is made. Without room, an offer that would be
    /// made is refused with [`WorkerFault::Memory`]; any other answer is as it would be.
    fn offer<R: Wait>(
        &mut self,
        rt: &R,
        board: &Self::Board,
        stamp: u64,
        offer: &Offer,
        room: Result<(), AllocError>,
    ) -> Result<u64, WorkerFault>
        ensures made { IfOk result (λ at. made self.new ≡ with_offer (made self.old) at (made_by offer.now)) }
        ensures later { IfOk result (λ at. stamp < at) }
        ensures few { IfOk result (λ at. at ≤ GREATEST_STAMP) }
        ensures full { OnErr room (IsErr result) };

    /// Lets the workers of its peers know what a worker did for a chore. If it did nothing, and Turns are next, it may
    /// wait for them. Answers whether nothing comes from them before the worker's next chore that is no Turn, as far as
    /// the desk can say: the worker then passes over Turns in which its router has nothing to do. A desk without a body
    /// of its own lets nobody know, never waits, and answers `false`.
    fn pause<R: Wait>(&self, _rt: &R, _board: &Self::Board, _between: &Between<'_>) -> bool {
        false
    }

    /// Whether a snapshot has settled at the board with every origin originating its prefix, as far as the desk can say.
    /// The worker's gate is told so before each chore. A desk without a body of its own answers `false`.
    fn has_settled(&self, _board: &Self::Board) -> bool {
        false
    }
}
