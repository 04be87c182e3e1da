//! How far a search may go.

/// How far a search may go.
#[derive(Clone, Copy, Debug, PartialEq, Eq)]
pub struct SearchLimits {
    /// The most choices of a part.
    pub most: usize,
    /// The most steps of a part. A step tries one value for one router.
    pub steps: u64,
}
