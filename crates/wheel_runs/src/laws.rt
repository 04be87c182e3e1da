//! Laws of prefixes without a dispute wheel. Each is the contract of a function with no work of its own.

ghost use Rattle.wheel_runs.specs.Bounds.{SafeHaveBounds, WheelsHaveNoBound};
ghost use Rattle.wheel_runs.specs.Changes.{RunsChangeSeldom, SafeRunsAreBounded};
ghost use Rattle.wheel_runs.specs.Everywhere.{WorldsChangeSeldom, RecordsChangeSeldom, WorldsSettleInOne, RecordsSettleInOne};
ghost use Rattle.wheel_runs.specs.Examples.{DisagreeHasNoBound, PairHasABound};
ghost use Rattle.wheel_runs.specs.Settling.{SafeHaveOneChoice, RunsSettleInOne};
ghost use Rattle.wheel_runs.specs.Turning.{DisagreeTurnsForEver};

use bgp_codec::Message;
use dispute_wheels::laws::{
    safe_have_one_stable, safe_or_wheel, safe_runs_change_seldom, wheels_are_cycles,
};
use net_workers::Gate;
use net_workers::laws::records_are_runs;
use prefix_lanes::Prefix;
use ranked_policy::Path;
use ranked_policy::laws::{each_policy_is_an_order, policies_are_tests};
use router_runs::{runs_are_mirrored, snapshots_of_runs};
use run_model::offer_runs_are_network_runs;
use stable_search::laws::stable_assignments_are_counted;

/// A prefix without a dispute wheel has a bound: numbers for its feasible paths, each at least what is found from the
/// commands to the path's router, from the sessions of its links, and from the numbers of the rest of the path and of
/// the rests of better ones (`bounds`). Where there is a dispute wheel there is none, since around it each number would
/// have to be greater than the next (`none`).
pub fn safe_have_bounds()
    ensures bounds { SafeHaveBounds }
    ensures none { WheelsHaveNoBound }
{
    each_policy_is_an_order();
    policies_are_tests();
    wheels_are_cycles();
}

/// In every run, whatever comes in which order, a feasible path is taken up and given up no more often than its number
/// in the bound says, and a router changes what it keeps no more often than the numbers of its feasible paths together
/// (`runs`). So it is in the runs that a world stands at the end of (`worlds`), and in the run of a record of threads
/// (`records`). Of a prefix without a dispute wheel: where commands and incarnations are no more than given numbers, so
/// are the changes, however long the run is (`bounded`).
///
/// Premises: `IsNetwork`, routers choose by rank, the hold time fits an OPEN. Nothing is asked of the order of events,
/// of links that close or of routers that restart. It does not say when the last change comes.
pub fn routers_change_seldom<G: Gate>()
    ensures runs { RunsChangeSeldom }
    ensures worlds { WorldsChangeSeldom }
    ensures records { RecordsChangeSeldom G.given }
    ensures bounded { SafeRunsAreBounded }
{
    safe_have_bounds();
    each_policy_is_an_order();
    policies_are_tests();
    safe_or_wheel();
    safe_runs_change_seldom::<Message>();
    offer_runs_are_network_runs::<Message, Prefix, Path>();
    runs_are_mirrored();
    records_are_runs::<G>();
}

/// A prefix without a dispute wheel has one stable assignment, so each part of all stable assignments has one choice
/// (`one`). In every run a settled snapshot whose origin's part originates the prefix has its paths (`runs`), so too in
/// the runs that a world stands at the end of (`worlds`) and in the run of a record of threads (`records`).
///
/// Premises: `IsNetwork`, routers choose by rank, the hold time fits an OPEN. It does not say that a snapshot is ever
/// settled.
pub fn safe_settle_in_one<G: Gate>()
    ensures one { SafeHaveOneChoice }
    ensures runs { RunsSettleInOne }
    ensures worlds { WorldsSettleInOne }
    ensures records { RecordsSettleInOne G.given }
{
    safe_have_one_stable();
    stable_assignments_are_counted();
    runs_are_mirrored();
    snapshots_of_runs();
    records_are_runs::<G>();
}

/// In DISAGREE (Griffin, Shepherd and Wilfong 2002), which has a dispute wheel, no numbers are a bound (`none`). Of two
/// routers, one of them the origin, they are (`pair`).
pub fn small_networks_bound()
    ensures none { DisagreeHasNoBound }
    ensures pair { PairHasABound }
{}

/// In DISAGREE a router changes its path as often as one likes, in a run with one command in which each end dials once
/// and no session closes: the premise that there is no dispute wheel is needed.
pub fn disagree_turns_for_ever()
    ensures { DisagreeTurnsForEver }
{}
