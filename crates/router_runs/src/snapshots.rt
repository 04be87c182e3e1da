//! The snapshots of every run (Chandy and Lamport 1985). The parts of a snapshot are a consistent cut; the paths of a
//! settled one are a stable path assignment, which stays (Griffin, Shepherd and Wilfong 2002).

ghost use Rattle.router_runs.specs.SnapshotLaws.{SnapshotLaws};
ghost use Rattle.router_runs.specs.Snapshots.{PartsAreOfACut, DecidedHasAllParts, MismatchNeverComes, SettledIsStable, SettledStays, SettledSnapshotsCanBeBelieved, SnapshotsHoldInRuns};

use crate::laws::laws_below;
use bgp_codec::Message;
use prefix_lanes::Prefix;
use ranked_policy::Path;
use run_model::{
    copies_are_a_cut, markers_are_obeyed, offer_runs_are_network_runs, outcome_tells,
    settled_outcome_is_stable_and_stays,
};

/// The laws of network runs on snapshots.
pub(crate) fn snapshot_laws_below()
    ensures { SnapshotLaws }
{
    offer_runs_are_network_runs::<Message, Prefix, Path>();
    copies_are_a_cut::<Message, Prefix, Path>();
    markers_are_obeyed::<Message, Prefix, Path>();
    outcome_tells::<Message, Prefix, Path>();
    settled_outcome_is_stable_and_stays::<Message, Prefix, Path>();
}

/// The snapshots of every run of a network of routers.
///
/// The parts of a snapshot that every router made are those of a consistent cut: of each router, the events up to the
/// one that recorded are inside. Each part is its router's state there. Both ends of each link recorded one
/// incarnation. What was taken inside was appended inside, octet by octet. Each recorded channel is the UPDATEs that
/// were sent inside and not acted on inside (`cut`). A snapshot that is settled or moving has a part of every router
/// (`all`), and none is moving by a mismatch (`mismatch`).
///
/// If the outcome is Settled, the paths of the parts are a stable path assignment for each prefix (`stable`). They are
/// every router's kept paths and routes at every place from its own recording on up to which the run is quiet: no
/// session left Established, and no command but a snapshot came, at a router after its recording (`stays`). All of this
/// together is `believed`, and for one run `hold`.
///
/// Premises: `IsNetwork`, routers choose by rank, the hold time fits an OPEN; each offer is made in its router's order.
/// It does not say that a snapshot is ever decided, nor which stable assignment is found.
pub fn snapshots_of_runs()
    ensures cut { PartsAreOfACut }
    ensures all { DecidedHasAllParts }
    ensures mismatch { MismatchNeverComes }
    ensures stable { SettledIsStable }
    ensures stays { SettledStays }
    ensures believed { SettledSnapshotsCanBeBelieved }
    ensures hold { SnapshotsHoldInRuns }
{
    laws_below();
    snapshot_laws_below();
}
