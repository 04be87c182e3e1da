//! Laws of the definitions of policies.

ghost use Rattle.ranked_policy.specs.Promises.{OneRule, EachPolicyIsAnOrder};
ghost use Rattle.ranked_policy.specs.Tests.{PermitsIsATest, PrefersIsATest, BestIsFirst};
ghost use Rattle.std.specs.Prelude.{◌≡◌};
ghost use Rattle.ranked_policy.specs.declared.limits.TheConstants.{MOST_ROUTERS, MOST_LINKS, MOST_PREFIXES, MOST_RULES, MOST_PATHS, LONGEST_PATH, GREATEST_CUT, GREATEST_PIPE};

use prefix_lanes::a_prefix_is_its_bits;

/// Of a router's rules at most one is the longest that covers a prefix.
pub fn the_longest_rule_is_one()
    ensures { OneRule }
{
    a_prefix_is_its_bits();
}

/// For each router and prefix the permitted paths stand in one strict total order.
pub fn each_policy_is_an_order()
    ensures { EachPolicyIsAnOrder }
{
    a_prefix_is_its_bits();
}

/// The functions `permits` and `prefers` of the definitions compute: they decide which paths of a
/// router and prefix are permitted, and which of two is preferred.
pub fn policies_are_tests()
    ensures permits { PermitsIsATest }
    ensures prefers { PrefersIsATest }
{
    a_prefix_is_its_bits();
}

/// The function `best_of` of the definitions computes the best of some choices: the first, in
/// order, of those that are permitted, or the empty path if none is.
pub fn the_best_is_the_first()
    ensures { BestIsFirst }
{
    a_prefix_is_its_bits();
}

/// The limits of a network: routers, links of a router, prefixes; rules of a router, paths of a rule, routers of a path;
/// octets of a piece, items of a pipe.
pub fn constants_are_these()
    ensures networks { (MOST_ROUTERS ≡ 64) × (MOST_LINKS ≡ 16) × (MOST_PREFIXES ≡ 256) }
    ensures rules { (MOST_RULES ≡ 64) × (MOST_PATHS ≡ 32) × (LONGEST_PATH ≡ 16) }
    ensures settings { (GREATEST_CUT ≡ 4096) × (GREATEST_PIPE ≡ 1024) }
{}
