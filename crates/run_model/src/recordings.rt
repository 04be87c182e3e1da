//! Snapshots that are recorded by markers.
ghost use Rattle.run_model.specs.Recordings.{IsConsistentCut};

/// A finished snapshot is a consistent cut: of each link both routers recorded in one incarnation; what was taken inside
/// was appended inside; and each recorded channel is what was said inside and not used inside.
///
/// Premises: each act is one that `MayAct` allows, and router u has finished its recording. Nothing is asked of the
/// other router. It does not say that a recording ever finishes.
pub fn consistent_cut<M>()
    ensures { IsConsistentCut M }
{}
