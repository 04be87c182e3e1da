//! What a check answers.

use ranked_policy::{Asn, Path};

/// What a check says of an assignment whose paths are permitted.
#[derive(Debug, Drop)]
pub enum Check {
    /// Each router has the best of its choices.
    Stable,
    /// This router, the least such, would move.
    Unstable {
        /// The router.
        router: Asn,
        /// The path that it has.
        has: Path,
        /// The best of its choices, given its peers' paths.
        best: Path,
    },
}

/// A router that would move.
#[derive(Debug, Drop)]
pub struct Mover {
    /// The router.
    pub router: Asn,
    /// The path that it has.
    pub has: Path,
    /// The best of its choices, given its peers' paths.
    pub best: Path,
}
