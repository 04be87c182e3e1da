//! Dispute wheels.

use ranked_policy::{NetItems, Path};

/// A rim of a dispute wheel: a path of a router, and another that it likes better. The better one goes on by the spoke
/// of the next rim, the last by that of the first.
#[derive(Debug, Drop)]
pub struct Rim {
    /// The spoke.
    pub spoke: Path,
    /// The better path.
    pub over: Path,
}

/// Whether there is a dispute wheel.
#[derive(Debug, Drop)]
pub enum Safety {
    /// There is none.
    Safe,
    /// There is this one. The first rim is that of the least router.
    Wheel(NetItems<Rim>),
}
