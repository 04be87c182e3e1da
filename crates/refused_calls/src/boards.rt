//! Offers at a board.

use crate::asking::{Callee, both_are_alike};
use offer_board::BoardState;
use ranked_policy::Network;
use snap_collector::{CollectError, Taken};
use snap_marker::{Cause, Lost, Offer};
use std::alloc::{AllocError, Global};

// Router 1 lost the snapshot of this number, as its session closed.
fn lost(number: u32) -> Offer {
    Offer::Lost(Lost {
        router: 1,
        number,
        peer: 2,
        epoch: 1,
        cause: Cause::Closed,
    })
}

impl Callee for BoardState {
    // The number of a snapshot that is lost.
    type Call = u32;

    type Answer = Result<(Taken, u64), CollectError>;

    const EACH: bool = true;

    fn answer(&mut self, number: &u32) -> Result<(Taken, u64), CollectError> {
        self.offer(u64::from(*number), &lost(*number), Ok(()))
    }

    fn is_refused(answer: &Result<(Taken, u64), CollectError>) -> bool {
        *answer == Err(CollectError::Memory)
    }

    fn said(&mut self, alloc: Global, _network: &Network) -> Result<String, AllocError> {
        let decided = self.collector().decided();
        let outcome = self.collector().outcome(1);
        let (stamp, offers) = (self.stamp(), self.offers());
        format!(in alloc; "stamp {stamp} offers {offers:?} decided {decided:?} {outcome:?}")
    }
}

/// Whether offers are alike, made to two boards.
pub fn are_alike(alloc: Global, network: &Network) -> Result<bool, AllocError> {
    let (one, other) = (
        BoardState::new(alloc, network),
        BoardState::new(alloc, network),
    );
    both_are_alike(alloc, network, one, other, &[1, 2, 3, 4, 5])
}
