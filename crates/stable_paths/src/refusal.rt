//! Why a call refuses.

ghost use Rattle.std.specs.Prelude.{◌≡◌};
ghost use Rattle.stable_paths.specs.declared.refusal.StableError.TheVariants.{Memory};

use std::alloc::AllocError;
use thiserror::Error;

/// Why an assignment was not judged, or not changed. What the call was lent is as it was.
#[derive(Clone, Copy, Debug, PartialEq, Eq, Error)]
pub enum StableError {
    /// The path of this router, the least such, is not empty and not permitted there.
    #[error("router {router} has a path that it does not permit")]
    NotPermitted {
        /// The router.
        router: u32,
    },
    /// A growth was refused.
    #[error("out of memory")]
    Memory,
}

impl From<AllocError> for StableError {
    ghost from_gives = { λ _ error. error ≡ Memory };

    fn from(_error: AllocError) -> StableError {
        StableError::Memory
    }
}
