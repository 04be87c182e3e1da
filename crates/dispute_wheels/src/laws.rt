//! Laws of dispute wheels: what it means that a network has none.

ghost use Rattle.dispute_wheels.specs.Fewer.{FewerHaveNoMoreWheels};
ghost use Rattle.dispute_wheels.specs.Examples.{DisagreeHangs};
ghost use Rattle.dispute_wheels.specs.RunLaws.{EachNetworkChoosesBest, SafeRunsChangeSeldom, SafeRoutersChangeSeldom, SafeRoutersComeToRest, NoWheelRoutersComeToRest};
ghost use Rattle.dispute_wheels.specs.Promises.{SafeHaveNoWheel, WheelsAreCycles, SafeHaveOneStable, FewerLinksHaveNoMoreWheels, SafeOrWheel, NoWheelOneStable};

use prefix_lanes::Prefix;
use ranked_policy::Path;
use ranked_policy::laws::{each_policy_is_an_order, policies_are_tests, the_longest_rule_is_one};
use run_model::{network_runs_are_link_runs, network_runs_go_on, states_of_runs};
use stable_paths::laws::{best_by_rank_is_best, each_network_has_its_model};

/// Where the feasible paths have numbers that fall along a path and do not rise towards a better one, there is no
/// dispute wheel.
pub fn safe_have_no_wheel()
    ensures { SafeHaveNoWheel }
{}

/// There is a dispute wheel exactly where some feasible paths hang on one another in a circle.
pub fn wheels_are_cycles()
    ensures { WheelsAreCycles }
{}

/// Then exactly one assignment is stable.
pub fn safe_have_one_stable()
    ensures { SafeHaveOneStable }
{
    each_policy_is_an_order();
    best_by_rank_is_best();
}

/// Fewer links have no more wheels.
pub fn fewer_links_have_no_more_wheels()
    ensures { FewerLinksHaveNoMoreWheels }
{}

/// A network has a dispute wheel for a prefix, or its feasible paths have such numbers.
pub fn safe_or_wheel()
    ensures { SafeOrWheel }
{
    each_policy_is_an_order();
    policies_are_tests();
}

/// Without a dispute wheel exactly one assignment is stable (Griffin, Shepherd and Wilfong 2002).
pub fn no_wheel_one_stable()
    ensures { NoWheelOneStable }
{
    each_policy_is_an_order();
    policies_are_tests();
    best_by_rank_is_best();
}

/// In every run of the model of runs, of a network without a dispute wheel, whatever comes in which order: a feasible path
/// comes and goes at its router no more often than a bound, which has the commands and the sessions of the run.
pub fn safe_runs_change_seldom<M>()
    ensures paths { SafeRunsChangeSeldom M }
    ensures routers { SafeRoutersChangeSeldom M }
    ensures rest { SafeRoutersComeToRest M }
    ensures no_wheel { NoWheelRoutersComeToRest M }
{
    each_policy_is_an_order();
    policies_are_tests();
    states_of_runs::<M, Prefix, Path>();
    network_runs_go_on::<M, Prefix, Path>();
    network_runs_are_link_runs::<M, Prefix, Path>();
}

/// The wheel of DISAGREE (Griffin, Shepherd and Wilfong 2002, figure 3), as the tests compute it.
pub fn disagree_hangs()
    ensures { DisagreeHangs }
{}

/// A network with fewer links and fewer permitted paths has no more dispute wheels.
pub fn fewer_have_no_more_wheels()
    ensures { FewerHaveNoMoreWheels }
{
    each_policy_is_an_order();
    the_longest_rule_is_one();
}

/// Each network has a network of the model of runs whose routers choose the best. The premise of
/// [`safe_runs_change_seldom`] can thus be met.
pub fn each_network_chooses_best<M>()
    ensures { EachNetworkChoosesBest M }
{
    best_by_rank_is_best();
    each_network_has_its_model::<M>();
}
