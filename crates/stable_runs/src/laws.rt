//! Laws of settled snapshots and stable assignments. Each is the contract of a function with no work of its own.

ghost use Rattle.stable_runs.specs.Listing.{RunsSettleInListed, WorldsSettleInListed, RecordsSettleInListed};
ghost use Rattle.stable_runs.specs.Printed.{PrintedSettledAreListed};

use net_workers::Gate;
use net_workers::laws::records_are_runs;
use router_runs::snapshots_of_runs;
use run_cuts::laws::runs_pass_through_snapshots;

/// In every run, the paths of a settled snapshot are among the stable assignments of each prefix that its origin
/// originates: they have one of the choices of each part of the routers (`listed`). If a part has no choice, no
/// snapshot is settled while the origin originates (`none`). If each part has exactly one choice, the snapshot has the
/// paths of the one stable assignment (`one`). This holds of the runs that a world stands at the end of (`worlds`), and
/// of the run of a record of threads (`records`).
///
/// Premises: `IsNetwork`, routers choose by rank, the hold time fits an OPEN; the parts are all stable
/// assignments (`IsEveryStable`). It does not say that a snapshot is ever settled.
pub fn settled_are_listed<G: Gate>()
    ensures runs { RunsSettleInListed }
    ensures worlds { WorldsSettleInListed }
    ensures records { RecordsSettleInListed G.given }
{
    snapshots_of_runs();
    runs_pass_through_snapshots();
    records_are_runs::<G>();
}

/// The routes that `play` prints behind `settled` are among the assignments that `stable` prints of the same network,
/// for each prefix of which all is known and that the origin's part originates.
pub fn printed_are_listed()
    ensures { PrintedSettledAreListed }
{}
