//! What stays in the quiet stretch after a recording.
ghost use Rattle.run_model.specs.Quiet.{UnfinishedSnapshotsHold, StaysWhileQuiet, QuietRunsAreFlagged};

/// The invariant of unfinished snapshots. What speaks against a snapshot is something pending, a lost recording, or an
/// UPDATE in a channel. If nothing recorded so far speaks against it, every router that recorded it is as it recorded,
/// and has no UPDATE behind its markers, as long as the run is quiet.
///
/// Premises: links lead both ways, and each event is one that `MayHappen` allows. It says nothing of a router before its
/// own recording.
pub fn unfinished_snapshots_hold<M, P, W>()
    ensures { UnfinishedSnapshotsHold M P W }
{}

/// At every place from a router's own recording on up to which the run is quiet, its kept paths and its routes are
/// those that a settled snapshot recorded (`stays`). A run is quiet if no router, after its own recording, left
/// Established on any link or did a command other than Snapshot. The flag that each router keeps says so (`flag`).
///
/// Premises: links lead both ways, each event is one that `MayHappen` allows, and the snapshot is settled at the end of
/// the run. It says nothing of places behind a close or a command.
pub fn settled_stays<M, P, W>()
    ensures stays { StaysWhileQuiet M P W }
    ensures flag { QuietRunsAreFlagged M P W }
{}
