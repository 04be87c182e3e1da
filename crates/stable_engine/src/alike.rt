//! Prefixes for which each router has one policy.

ghost use Rattle.std.specs.Prelude.{◌↔◌, IsTrue};
ghost use Rattle.std.specs.List.{Contains};
ghost use Rattle.stable_engine.specs.Alike.{HaveOneRule, Alike};

use prefix_lanes::Prefix;
use ranked_policy::laws::the_longest_rule_is_one;
use ranked_policy::{NetRouter, Network, Origin};

// Whether the router has one rule for both prefixes, or none for both.
fn have_one_rule(network: &Network, router: &NetRouter, one: &Prefix, other: &Prefix) -> bool
    requires { Contains network.now.routers router.now }
    ensures { IsTrue result ↔ HaveOneRule router.now.rules one.now other.now }
{
    the_longest_rule_is_one();
    let _origins = network.origins();
    let Some(rule) = router.rules.longest(one) else {
        return router.rules.longest(other).is_none();
    };
    match router.rules.longest(other) {
        Some(same) => rule.prefix.equals(&same.prefix),
        None => false,
    }
}

/// Whether the prefixes of two origins of a network are alike: one router originates both, and each router has one rule
/// for both, or none. Then each router permits and prefers the same paths for both
/// ([`alike_have_one_policy`](crate::laws::alike_have_one_policy)), and what is stable for one is so for the other.
///
/// Two rules of each router are looked up, as far as to the first router where they are not one. It takes no memory.
pub fn are_alike(network: &Network, one: &Origin, other: &Origin) -> bool
    requires one { Contains network.now.origins one.now }
    requires other { Contains network.now.origins other.now }
    ensures { IsTrue result ↔ Alike network.now one.now.prefix other.now.prefix }
{
    let routers = network.routers();
    if one.router != other.router {
        return false;
    }
    for router in routers {
        if !have_one_rule(network, router, &one.prefix, &other.prefix) {
            return false;
        }
    }
    true
}
