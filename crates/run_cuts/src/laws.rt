//! Laws of runs that pass through the cuts of their snapshots. Each is the contract of a function with no work of its own.

ghost use Rattle.run_cuts.specs.CutLaws.{CutLaws};
ghost use Rattle.run_cuts.specs.Choices.{ChosenRunsPassThrough};
ghost use Rattle.run_cuts.specs.ThroughSnapshot.{RunsPassThroughSnapshots, DecidedRunsPassThrough, CutsAreOne, InsideByNumber};

use router_model::laws::{
    leaving_loses_the_recording, linked_routers_are_peers, puts_commute, steps_append_what_they_say,
};
use router_runs::{NetworkRouters, runs_keep, snapshots_of_runs};
use run_model::{
    causal_orders_end_alike, offers_stand, parts_are_as_long, runs_are_causal_orders,
    runs_have_their_cuts, runs_pass_through_cuts,
};

/// The laws of the crates below on orders of events, steps of routers and snapshots.
fn laws_below()
    ensures { CutLaws }
{
    runs_are_causal_orders::<NetworkRouters>();
    causal_orders_end_alike::<NetworkRouters>();
    runs_have_their_cuts::<NetworkRouters>();
    runs_pass_through_cuts::<NetworkRouters>();
    offers_stand::<NetworkRouters>();
    parts_are_as_long::<NetworkRouters>();
    puts_commute();
    leaving_loses_the_recording();
    linked_routers_are_peers();
    steps_append_what_they_say();
    runs_keep();
    snapshots_of_runs();
}

/// Every run passes through the cut of each snapshot of which every router made its part (`through`), as of each that
/// is settled or moving in it (`decided`). A run of the same events has two parts. Its first part has what each router
/// did up to its recording, and the puts of what was taken by then; its second part has the rest. Between the two each
/// router is as it recorded, but for those puts, and each channel is what was recorded of it. At the end all is as at
/// the end of the run, but for the order of the offers for other snapshots.
///
/// Premises: `IsNetwork`, routers choose by rank, the hold time fits an OPEN. It does not say that a snapshot is ever
/// decided.
pub fn runs_pass_through_snapshots()
    ensures through { RunsPassThroughSnapshots }
    ensures decided { DecidedRunsPassThrough }
{
    laws_below();
}

/// A run in which each event is what its router's call chooses passes through the cut of a snapshot by such choices. A
/// put that comes early takes what it took, and each UPDATE goes to the peer that it went to.
///
/// Premises: those of `runs_pass_through_snapshots`; each event of the run is what its router's call chooses, and no
/// outbox of the router is full as it comes. If one is full, a call may choose another peer.
pub fn chosen_runs_pass_through()
    ensures { ChosenRunsPassThrough }
{
    laws_below();
}

/// A router records a number by one of its events: the cut of a snapshot is one (`one`). An event is inside exactly
/// where the last number that its router recorded before it is below that of the snapshot (`inside`).
pub fn cuts_are_one()
    ensures one { CutsAreOne }
    ensures inside { InsideByNumber }
{
    laws_below();
}
