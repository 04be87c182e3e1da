//! Why a pipe could not be made.

use thiserror::Error;

/// Why a pipe could not be made. Nothing was changed.
#[derive(Clone, Copy, Debug, PartialEq, Eq, Error)]
pub enum PipeError {
    /// A growth was refused.
    #[error("no memory for a pipe")]
    Memory,
    /// The capacity is not from 1 to [`MOST_ITEMS`](crate::MOST_ITEMS) items.
    #[error("a pipe holds from 1 to 1024 items")]
    BadCapacity,
}
