//! Laws of the definitions of stable assignments. Each is the contract of a function without work of its own.

ghost use Rattle.stable_paths.specs.ByRank.{BestByRankIsBest, EachNetworkHasItsModel};
ghost use Rattle.stable_paths.specs.Examples.{DisagreeChooses};
ghost use Rattle.stable_paths.specs.Promises.{OneBest, NoOriginNoPath, StableIsTheModels};

use ranked_policy::laws::{each_policy_is_an_order, policies_are_tests, the_best_is_the_first};

/// A router has at most one best path.
pub fn one_best()
    ensures { OneBest }
{
    each_policy_is_an_order();
}

/// If the origin does not originate the prefix, the one stable assignment gives no router a path.
pub fn no_origin_no_path()
    ensures { NoOriginNoPath }
{}

/// The stable assignments are those of the model of network runs, over any network of it in which
/// routers choose as here.
pub fn stable_is_the_models<M>()
    ensures { StableIsTheModels M }
{
    each_policy_is_an_order();
}

/// In every network one function computes the best of each router's choices, whatever its peers say.
pub fn best_by_rank_is_best()
    ensures { BestByRankIsBest }
{
    policies_are_tests();
    the_best_is_the_first();
}

/// Every network has a network of the model of runs in which routers choose by the function of
/// [`best_by_rank_is_best`]. The premise of [`stable_is_the_models`] can thus be met.
///
/// Premise: each origin of the prefix originates it as the problem says. Which messages are
/// UPDATEs, and what they tell, is a parameter.
pub fn each_network_has_its_model<M>()
    ensures { EachNetworkHasItsModel M }
{
    policies_are_tests();
    the_best_is_the_first();
}

/// What the function of [`best_by_rank_is_best`] computes in DISAGREE (Griffin, Shepherd and Wilfong 2002).
pub fn disagree_chooses()
    ensures { DisagreeChooses }
{}
