//! The run of the laws of runs beside each run of routers.

ghost use Rattle.router_runs.specs.Mirrors.{EachSettingHasItsModel, RunsAreMirrored, MirrorsGoOn};

use crate::laws::laws_below;
use crate::snapshots::snapshot_laws_below;

/// Each network of routers stands for a network of the laws of runs, with the same routers, links and prefixes
/// (`model`). Every run of routers has a run of that network beside it. Its ends are the sides of the routers, and its
/// routers keep and originate what the routers do. It has as many commands of each router as the router was commanded
/// to originate, to withdraw and to restart, and each leaves what is kept or forgets it (`mirrored`). As the run of
/// routers goes on, so does the other (`goes_on`).
///
/// Premises: `IsNetwork`, routers choose by rank, the hold time fits an OPEN.
pub fn runs_are_mirrored()
    ensures model { EachSettingHasItsModel }
    ensures mirrored { RunsAreMirrored }
    ensures goes_on { MirrorsGoOn }
{
    laws_below();
    snapshot_laws_below();
}
