//! Laws of networks that are left alone. Each is the contract of a function with no work of its own.

ghost use Rattle.rest_runs.specs.Counted.{CalmRunsAreCounted, BoundedCalmRunsAreCounted};
ghost use Rattle.rest_runs.specs.Examples.{OneDecisionAndRest, SessionAndRest, SumAdds, WorkOfThePair};
ghost use Rattle.rest_runs.specs.Obeyed.{ObeyedRoundsComeToRest};
ghost use Rattle.rest_runs.specs.Resting.{CalmRunsDialNoHigher, CalmRunsChangeOrEnd, CalmRunsEnd};
ghost use Rattle.rest_runs.specs.Rounds.{RoundsComeToRest, RoundsAreCounted, RestIsFound, RestIsStable, RestIsTheOne};

use bgp_codec::Message;
use bgp_codec::laws::header_is_its_front;
use dispute_wheels::laws::safe_have_one_stable;
use link_epoch::signs_mean;
use net_workers::Gate;
use router_model::laws::{answers_are_steps, linked_routers_are_peers, steps_append_what_they_say};
use router_runs::{each_network_has_a_setting, runs_are_mirrored, runs_keep, what_is_said_is_good};
use run_model::passing_appends;
use stable_paths::laws::{one_best, stable_is_the_models};
use wheel_runs::laws::routers_change_seldom;
use world_core::laws::what_is_played_is_a_run;

/// While no command is given and no second passes, no end dials above the greatest incarnation that some end was in
/// (`dials`). From each state of a run there are two numbers: no run goes on from there for more events than the first,
/// and the second for each change of a kept path (`changes`). So a network that is left alone and never rests changes
/// its paths for ever. Such numbers are `work`, which is found from what waits, from the size of the network and from
/// the greatest incarnation and marker, and `cost` (`counted`); they are far greater than what runs do.
///
/// Premises: `IsNetwork`, routers choose by rank, the hold time fits an OPEN. Nothing is asked of the order of events,
/// or of dispute wheels.
pub fn calm_runs_change_paths()
    ensures dials { CalmRunsDialNoHigher }
    ensures counted { CalmRunsAreCounted }
    ensures changes { CalmRunsChangeOrEnd }
{
    header_is_its_front();
    signs_mean();
    linked_routers_are_peers();
    steps_append_what_they_say();
    what_is_said_is_good();
    runs_keep();
}

/// Of a network in which no prefix has a dispute wheel: from each state of a run there is a number of events beyond
/// which no run goes on, whatever was commanded before, as long as no command is given and no second passes (`ends`).
/// `work`, and `cost` times the numbers of a bound of each prefix, is one (`counted`).
///
/// Premises: as those of [`calm_runs_change_paths`], and that no prefix has a dispute wheel; of `counted` that each has
/// a bound, which is the same ([`wheel_runs::laws::safe_have_bounds`]). Nothing is asked of the order of events: it may
/// be unfair.
pub fn calm_runs_end<G: Gate>()
    ensures ends { CalmRunsEnd }
    ensures counted { BoundedCalmRunsAreCounted }
{
    calm_runs_change_paths();
    routers_change_seldom::<G>();
    runs_are_mirrored();
}

/// Of a network in which no prefix has a dispute wheel: for each world that was played there is a number of rounds
/// behind which each event of a round finds nothing to do, if no event of these rounds is refused. Then each further
/// round leaves the world as it is (`rest`). More rounds than the events of [`calm_runs_end`] are enough (`counted`). One
/// of so many rounds does nothing, and `World::obey_watched` answers how many did something before it (`found`).
///
/// Premises: as those of [`calm_runs_end`]. It does not say that sessions are up then: a timer may be what a session
/// waits for.
pub fn rounds_come_to_rest<G: Gate>()
    ensures rest { RoundsComeToRest }
    ensures counted { RoundsAreCounted }
    ensures found { RestIsFound }
{
    calm_runs_end::<G>();
    answers_are_steps();
    what_is_played_is_a_run();
}

/// The same of a world of the code: `World::obey` of so many rounds, if it refuses none of their events, leaves a world
/// in which every turn finds nothing to do, in each setting of the network.
///
/// Premises: `IsNetwork`, no prefix has a dispute wheel, the hold time fits an OPEN, as it does in every network of the
/// code; the world comes out of its own events, as every `World` does.
pub fn obeyed_rounds_come_to_rest<G: Gate>()
    ensures { ObeyedRoundsComeToRest }
{
    rounds_come_to_rest::<G>();
    linked_routers_are_peers();
    one_best();
    runs_are_mirrored();
    each_network_has_a_setting();
}

/// The kept paths of a world at rest are a stable assignment for each prefix of the network (`stable`). Of a network in
/// which no prefix has a dispute wheel they are the one stable assignment of a prefix that is originated (`one`).
///
/// Premises: `IsNetwork`, routers choose by rank, the hold time fits an OPEN; each session is Established. It does not
/// say that a world is ever at rest; without dispute wheels [`rounds_come_to_rest`] does.
pub fn rest_is_stable()
    ensures stable { RestIsStable }
    ensures one { RestIsTheOne }
{
    header_is_its_front();
    what_is_said_is_good();
    passing_appends::<Message>();
    linked_routers_are_peers();
    runs_keep();
    what_is_played_is_a_run();
    stable_is_the_models::<Message>();
    runs_are_mirrored();
    safe_have_one_stable();
}

/// Two routers, one of them the origin, come to rest: without a session behind one round (`alone`), with one behind
/// eight (`session`). What a sum over a list is (`sum`), and what `work` and `cost` are of the two (`work`).
pub fn a_pair_comes_to_rest()
    ensures alone { OneDecisionAndRest }
    ensures session { SessionAndRest }
    ensures sum { SumAdds }
    ensures work { WorkOfThePair }
{}
