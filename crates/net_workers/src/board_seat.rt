//! A worker's place at the board.

ghost use Rattle.std.specs.Prelude.{◌≡◌, ◌<◌, ◌≤◌, IfOk, OnErr, IsErr};
ghost use Rattle.run_model.specs.declared.stamps.TheConstants.{GREATEST_STAMP};
ghost use Rattle.snap_marker.specs.Parts.{offer_of, router_of};
ghost use Rattle.offer_board.specs.Boards.{collected_in, AreCopies};
ghost use Rattle.net_workers.specs.Offering.{ended_by, HasMade, OffersAt};

use crate::lookout::Lookout;
use crate::sleepers::Sleepers;
use offer_board::{BoardState, CollectError, Made, two_copies};
use ranked_policy::Network;
use snap_marker::Offer;
use std::alloc::{AllocError, Global};
use std::sync::{Mutex, Wait};
use worker_loop::{Between, Desk, WorkerFault};

/// What all workers share: the board, which of them sleep, and whether a snapshot has settled.
#[derive(Drop)]
pub struct Board {
    state: Mutex<BoardState>,
    pub(crate) sleepers: Sleepers,
    lookout: Lookout,
}

impl Board {
    /// A board without an offer, and workers that are awake.
    pub(crate) fn new(alloc: Global, network: &Network) -> Result<Board, AllocError> {
        Ok(Board {
            state: Mutex::new(BoardState::new(alloc, network)?),
            sleepers: Sleepers::new(alloc, network)?,
            lookout: Lookout::new(alloc, network)?,
        })
    }

    /// The board, once no worker has it.
    pub(crate) fn into_state(self) -> BoardState {
        self.state.into_inner()
    }
}

/// A worker's place at the board, with the offers that it made there.
#[derive(Drop)]
pub struct BoardSeat {
    /// The offers, with their stamps.
    pub made: Vec<Made>,
}

// Why a worker ends if its offer was refused.
fn ended_by(error: CollectError) -> WorkerFault
    ensures { result ≡ ended_by error }
{
    match error {
        CollectError::Memory => WorkerFault::Memory,
        CollectError::Stranger { .. } | CollectError::Twice { .. } | CollectError::StampEnd => {
            WorkerFault::Refused
        }
    }
}

// Copies of an offer: one for a worker, and those for its board. They are refused only if a growth was, here or with the
// caller.
fn copies_of(
    alloc: Global,
    offer: &Offer,
    room: Result<(), AllocError>,
) -> Result<(Offer, (Offer, Offer)), AllocError>
    ensures offer { IfOk result (λ copies. offer_of copies.0 ≡ offer_of offer.now) }
    ensures router { IfOk result (λ copies. router_of copies.0 ≡ router_of offer.now) }
    ensures others { IfOk result (λ copies. AreCopies offer.now copies.1) }
    ensures full { OnErr room (IsErr result) }
{
    room?;
    let own = offer.copied(alloc)?;
    let copies = two_copies(alloc, offer)?;
    Ok((own, copies))
}

// What a board answers to an offer of which there are no copies.
fn refused(
    board: &mut BoardState,
    stamp: u64,
    offer: &Offer,
    error: AllocError,
) -> Result<u64, WorkerFault>
    ensures offers { OffersAt board.old board.new stamp offer.now result }
    ensures refused { IsErr result }
{
    match board.keep(stamp, offer, Err(error)) {
        Ok(_) => unreachable!(),
        Err(why) => Err(ended_by(why)),
    }
}

impl BoardSeat {
    // Makes an offer as `offer_at` does, of which copies were made before: no other worker waits at the board for them.
    // If there are none, the board is asked as if there were no room.
    fn offer_copies(
        &mut self,
        board: &mut BoardState,
        stamp: u64,
        offer: &Offer,
        copies: Result<(Offer, (Offer, Offer)), AllocError>,
    ) -> Result<u64, WorkerFault>
        requires offer { IfOk copies (λ copies. offer_of copies.0 ≡ offer_of offer.now) }
        requires router { IfOk copies (λ copies. router_of copies.0 ≡ router_of offer.now) }
        requires others { IfOk copies (λ copies. AreCopies offer.now copies.1) }
        ensures offers { OffersAt board.old board.new stamp offer.now result }
        ensures made { IfOk result (HasMade self.old.made.items offer.now self.new.made.items) }
        ensures later { IfOk result (λ at. stamp < at) }
        ensures few { IfOk result (λ at. at ≤ GREATEST_STAMP) }
        ensures full { OnErr copies (IsErr result) }
    {
        match copies {
            Ok((own, copies)) => {
                if let Err(error) = self.made.reserve(1) {
                    return refused(board, stamp, offer, error);
                }
                match board.keep(stamp, offer, Ok(copies)) {
                    Ok((_taken, stamp)) => {
                        self.made.push_reserved(Made { stamp, offer: own });
                        Ok(stamp)
                    }
                    Err(error) => Err(ended_by(error)),
                }
            }
            Err(error) => refused(board, stamp, offer, error),
        }
    }

    /// Makes an offer at a board, of a router whose last event has the given stamp, and answers the offer's stamp.
    ///
    /// Refused with [`WorkerFault::Memory`] if the board refuses for want of memory, and with [`WorkerFault::Refused`]
    /// if it refuses for another reason, which comes first. `room` is as for [`Desk::offer`]; if no copies can be made
    /// for the worker and the board, the board is asked as if there were no room. A refusal leaves the board as it was.
    pub fn offer_at(
        &mut self,
        board: &mut BoardState,
        stamp: u64,
        offer: &Offer,
        room: Result<(), AllocError>,
    ) -> Result<u64, WorkerFault>
        ensures offers { OffersAt board.old board.new stamp offer.now result }
        ensures made { IfOk result (HasMade self.old.made.items offer.now self.new.made.items) }
        ensures later { IfOk result (λ at. stamp < at) }
        ensures few { IfOk result (λ at. at ≤ GREATEST_STAMP) }
        ensures full { OnErr room (IsErr result) }
    {
        let copies = copies_of(*self.made.allocator(), offer, room);
        self.offer_copies(board, stamp, offer, copies)
    }
}

impl Desk for BoardSeat {
    type Board = Board;

    ghost made = { λ d. collected_in d.made.items };

    fn offer<R: Wait>(
        &mut self,
        rt: &R,
        board: &Board,
        stamp: u64,
        offer: &Offer,
        room: Result<(), AllocError>,
    ) -> Result<u64, WorkerFault> {
        let copies = copies_of(*self.made.allocator(), offer, room);
        let mut state = board.state.lock(rt);
        let answer = self.offer_copies(&mut state, stamp, offer, copies);
        board.lookout.look(state.collector(), offer.number());
        answer
    }

    fn pause<R: Wait>(&self, rt: &R, board: &Board, between: &Between<'_>) -> bool {
        board.sleepers.pause(rt, between)
    }

    fn has_settled(&self, board: &Board) -> bool {
        board.lookout.has_settled()
    }
}
