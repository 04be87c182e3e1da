//! Why a search for a dispute wheel refuses.

ghost use Rattle.std.specs.Prelude.{◌≡◌};
ghost use Rattle.wheel_search.specs.declared.refusal.WheelError.TheVariants.{Memory};

use std::alloc::{AllocError, AllocFailed};
use thiserror::Error;

/// Why it was not found whether there is a dispute wheel. What the call was lent is as it was.
#[derive(Debug, Drop, Error)]
pub enum WheelError {
    /// The router has no rule for the prefix and is not the origin, and more feasible paths than are listed; another
    /// router has a rule.
    #[error("router {router} has more paths than are listed")]
    UnlistedPaths {
        /// The router.
        router: u32,
    },
    /// A growth was refused.
    #[error("out of memory")]
    Memory,
}

impl From<AllocError> for WheelError {
    ghost from_gives = { λ _ error. error ≡ Memory };

    fn from(_error: AllocError) -> WheelError {
        WheelError::Memory
    }
}

impl<T: Drop> From<AllocFailed<T>> for WheelError {
    ghost from_gives = { λ _ error. error ≡ Memory };

    fn from(_error: AllocFailed<T>) -> WheelError {
        WheelError::Memory
    }
}
