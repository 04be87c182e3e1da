//! What a collector answers to an offer.

ghost use Rattle.std.specs.Prelude.{◌≡◌};
ghost use Rattle.snap_collector.specs.declared.answer.CollectError.TheVariants.{Memory};

use ranked_policy::Asn;
use std::alloc::AllocError;
use thiserror::Error;

/// What became of an offer.
#[derive(Clone, Copy, Debug, PartialEq, Eq)]
pub enum Taken {
    /// It is kept, and its snapshot waits for more.
    Kept,
    /// It is kept, and it decided its snapshot.
    Decided,
    /// Its snapshot was decided before: it is not kept.
    Late,
}

/// Why an offer was refused. The collector is as it was.
#[derive(Clone, Copy, Debug, PartialEq, Eq, Error)]
pub enum CollectError {
    /// The offer is not of a router of the network.
    #[error("router {router} is not of the network")]
    Stranger {
        /// Who offers.
        router: Asn,
    },
    /// The router has given an offer for this number before, and the snapshot is not decided.
    #[error("router {router} has offered before")]
    Twice {
        /// Who offers.
        router: Asn,
    },
    /// A growth was refused.
    #[error("out of memory")]
    Memory,
    /// The offer's stamp would pass 2^62. A board answers it, whose offers have stamps; a collector never does.
    #[error("no stamp is left")]
    StampEnd,
}

impl From<AllocError> for CollectError {
    ghost from_gives = { λ _ error. error ≡ Memory };

    fn from(_error: AllocError) -> CollectError {
        CollectError::Memory
    }
}
