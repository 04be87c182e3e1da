//! Why a search refuses.

ghost use Rattle.std.specs.Prelude.{◌≡◌};
ghost use Rattle.stable_search.specs.declared.refusal.SearchError.TheVariants.{Memory};

use ranked_policy::{Asn, NetItems};
use std::alloc::{AllocError, AllocFailed};
use thiserror::Error;

/// Why the stable assignments were not found. What the call was lent is as it was.
#[derive(Debug, Drop, Error)]
pub enum SearchError {
    /// The router may have 64 paths or more, the empty one among them. It permits each other one, which goes on over a
    /// peer. No rule of the router covers the prefix, since a rule lists at most 32 paths.
    #[error("router {router} may have too many paths")]
    TooManyPaths {
        /// The router.
        router: u32,
    },
    /// These routers have more choices than were asked for. Choices are different lists of paths: each router may have
    /// its path, and the paths at the ends of each link between two of them fit.
    #[error("too many choices")]
    TooManyChoices {
        /// The routers, by rising number.
        routers: NetItems<Asn>,
    },
    /// The search of these routers took as many steps as it may.
    #[error("too many steps")]
    TooManySteps {
        /// The routers, by rising number.
        routers: NetItems<Asn>,
    },
    /// A growth was refused.
    #[error("out of memory")]
    Memory,
}

impl From<AllocError> for SearchError {
    ghost from_gives = { λ _ error. error ≡ Memory };

    fn from(_error: AllocError) -> SearchError {
        SearchError::Memory
    }
}

impl<T: Drop> From<AllocFailed<T>> for SearchError {
    ghost from_gives = { λ _ error. error ≡ Memory };

    fn from(_error: AllocFailed<T>) -> SearchError {
        SearchError::Memory
    }
}
