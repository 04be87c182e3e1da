//! The laws of a world of routers, for every list of events.

ghost use Rattle.world_core.specs.Answering.{AnswersAreThrough};
ghost use Rattle.world_core.specs.Keeping.{WhatIsPlayedIsARun, WhatIsPlayedIsReplayed, StepsAreReplayed, PlayedWorldsKeepTheirPromises, NothingWhereNoStepIs};
ghost use Rattle.world_core.specs.Loops.{OneMore};
ghost use Rattle.world_core.specs.OneRun.{PlayedRunsAreOne, PlayedCutsAreOne};
ghost use Rattle.world_core.specs.Picking.{NamesAreEnough};
ghost use Rattle.world_core.specs.Replays.{ChosenRunsArePlayed, CalledRunsArePlayed, AnswersAreCalled, WorldsHaveTheirRuns, CutsArePlayed};
ghost use Rattle.world_core.specs.Tested.{TestsTellWhatIsInside};
ghost use Rattle.world_core.specs.Through.{PickedIsThrough};
ghost use Rattle.world_core.specs.Verdicts.{MembersAreOfTheNetwork, CollectorsJudgeTheirRuns, MembersAreTheRouters};

use router_model::laws::{
    answers_are_steps, idle_where_nothing_may_come, linked_routers_are_peers,
};
use router_runs::{
    NetworkRouters, close_loses_the_recording, nothing_is_acted_on_after_the_close,
    snapshots_of_runs, updates_pass_in_order,
};
use run_cuts::laws::{chosen_runs_pass_through, cuts_are_one, runs_pass_through_snapshots};
use run_model::orders::steps_are_takes_in_order;
use snap_collector::laws::{collected_are_kept, verdicts_are_outcomes};

/// The events that a schedule did are a run of the network's routers, and the last state of the run has all that the world
/// holds: routers, pipes and offers.
pub fn what_is_played_is_a_run()
    ensures { WhatIsPlayedIsARun }
{
    answers_are_steps();
}

/// A world that was played comes out again if the events that it did are played alone; none of them is refused.
pub fn what_is_played_is_replayed()
    ensures { WhatIsPlayedIsReplayed }
{}

/// A step from a world that comes out of its own events leads to a world that does too.
pub fn steps_are_replayed()
    ensures { StepsAreReplayed }
{}

/// Every world that was played stands at the end of a run. In it the UPDATEs that each router acted on in an
/// incarnation of a session are a beginning of those that its peer sent in it: in order, once each. For each run that
/// it stands at the end of: octets pass in order, from end to end. Nothing is acted on after a close. A close queues
/// the loss of the snapshot that its router records. The snapshots are consistent cuts; the paths of a settled one are
/// a stable path assignment, which stays while the run is quiet. A run of the same events passes through the cut of
/// each snapshot whose parts all routers made.
pub fn played_worlds_keep_their_promises()
    ensures { PlayedWorldsKeepTheirPromises }
{
    answers_are_steps();
    linked_routers_are_peers();
    updates_pass_in_order();
    nothing_is_acted_on_after_the_close();
    close_loses_the_recording();
    snapshots_of_runs();
    runs_pass_through_snapshots();
}

/// An event answers that there is nothing to do only if no step of the network has its name, or if all outboxes of a
/// router whose peers wait to be told are full.
pub fn nothing_where_no_step_is()
    ensures { NothingWhereNoStepIs }
{
    idle_where_nothing_may_come();
}

/// The members of a collector of a network are its routers, each with its peers, in the network that the laws of runs
/// speak of.
pub fn members_are_of_the_network()
    ensures { MembersAreOfTheNetwork }
{}

/// The members of a collector of a network are its routers with their peers, both rising.
pub fn members_are_the_routers()
    ensures { MembersAreTheRouters }
{
    linked_routers_are_peers();
}

/// The verdict of a world's collector on a snapshot is how the snapshot comes out by all offers of the run that the
/// world stands at the end of, late ones among them.
pub fn collectors_judge_their_runs()
    ensures { CollectorsJudgeTheirRuns }
{
    verdicts_are_outcomes();
    collected_are_kept();
}

/// If each event of a run is what its router's call chooses, and no outbox is full as one comes, the events are played
/// to the end of that run.
///
/// Premises: `IsNetwork`, routers choose by rank, the hold time fits an OPEN; the run has no more events than there
/// are stamps.
pub fn chosen_runs_are_played()
    ensures { ChosenRunsArePlayed }
{
    answers_are_steps();
    linked_routers_are_peers();
}

/// If each event of a run is what its router's call answers, the events are played to the end of that run, whatever
/// waits in the outboxes.
///
/// Premises: `IsNetwork`, routers choose by rank, the hold time fits an OPEN; the run has no more events than
/// there are stamps.
pub fn called_runs_are_played()
    ensures { CalledRunsArePlayed }
{
    answers_are_steps();
    linked_routers_are_peers();
}

/// If the call of a router answers a step, a put takes as much as it may, and an UPDATE goes to the least peer that
/// waits and has room.
pub fn answers_are_called()
    ensures { AnswersAreCalled }
{
    answers_are_steps();
}

/// Each world that was played has its run, in which each event is what its router's call answers.
pub fn worlds_have_their_runs()
    ensures { WorldsHaveTheirRuns }
{
    answers_are_steps();
}

/// A world that was played has one run: one order and one state (`run`). A snapshot has one cut in it: the events that
/// are inside, and the run through the cut (`cut`).
pub fn played_runs_are_one()
    ensures run { PlayedRunsAreOne }
    ensures cut { PlayedCutsAreOne }
{
    steps_are_takes_in_order::<NetworkRouters>();
    cuts_are_one();
}

/// The run through the cut of a snapshot can be played: if no outbox reached the limit, its events lead from a new
/// world to one that stands at the end of that run.
pub fn cuts_are_played()
    ensures { CutsArePlayed }
{
    answers_are_steps();
    linked_routers_are_peers();
    chosen_runs_pass_through();
}

/// Which events of a run come first, and in which part, can be read off their names, and off whether each is inside.
pub fn names_are_enough()
    ensures { NamesAreEnough }
{}

/// A world tells whether each event of its played schedule is inside the cut of a snapshot: the last recorded number of
/// the event's router is below that of the snapshot.
pub fn tests_tell_what_is_inside()
    ensures { TestsTellWhatIsInside }
{
    answers_are_steps();
    cuts_are_one();
}

/// The events picked by names and tests are the run through the cut of a snapshot that is settled or moving. If no
/// outbox ever reached the limit, they are played to its end.
pub fn picked_is_through()
    ensures { PickedIsThrough }
{
    answers_are_steps();
    linked_routers_are_peers();
    runs_pass_through_snapshots();
    chosen_runs_pass_through();
    cuts_are_one();
}

/// The events picked, and a world's tests of events, with one event more: the steps of loops over them.
pub fn one_more()
    ensures { OneMore }
{}

/// The events picked are the answer if a snapshot is settled or moving; else there is none.
pub fn answers_are_through()
    ensures { AnswersAreThrough }
{
    picked_is_through();
}
