//! The policies of a router.

ghost use Rattle.std.specs.Prelude.{◌≡◌, ◌↔◌, ℕ, List, None, Some, IsTrue, MatchOption};
ghost use Rattle.std.specs.List.{All, Any, Contains};
ghost use Rattle.ranked_policy.specs.Plans.{IsNamed};
ghost use Rattle.ranked_policy.specs.Policies.{IsTable, IsPermitted, IsPreferred, IsOriginOf};
ghost use Rattle.ranked_policy.specs.Choosing.{chosen_permits, chosen_prefers};
ghost use Rattle.ranked_policy.specs.Tests.{rule_for};

use crate::network::{Origin, RankRule};
use crate::path::Asn;
use crate::places::origin_of;
use crate::policy::{Chosen, Only, Ranked, Shortest};
use crate::rules::Rules;
use prefix_lanes::{Prefix, a_prefix_is_its_bits};
use std::marker::Model;

/// The policies of one router, for each prefix.
#[derive(Debug, Drop)]
pub struct PolicyTable<'a> {
    router: Asn,
    rules: &'a Rules,
    origins: &'a [Origin],
}

impl<'a> Model for PolicyTable<'a> {
    ghost use Rattle.ranked_policy.specs.Policies.{Table, IsTable};

    ghost Value = { Table };

    ghost view = { λ t. record { router = t.router; rules = t.rules.now; origins = t.origins.now } };

    ghost invariant = { λ t. IsTable (record { router = t.router; rules = t.rules.now; origins = t.origins.now }) };
}

impl<'a> PolicyTable<'a> {
    /// The table of a router with these rules, where these prefixes are originated. Takes no memory.
    pub(crate) fn new(router: Asn, rules: &'a Rules, origins: &'a [Origin]) -> PolicyTable<'a>
        requires { IsTable (record { router = router; rules = rules.now; origins = origins.now }) }
        ensures { result ≡ record { router = router; rules = rules.now; origins = origins.now } }
    {
        PolicyTable {
            router,
            rules,
            origins,
        }
    }

    /// The router.
    pub fn router(&self) -> Asn
        ensures value { result ≡ self.now.router }
        ensures table { IsTable self.now }
    {
        self.router
    }

    /// The policy for a prefix. If the router originates the prefix, it may use the path of itself alone. Else it may
    /// use the paths of its longest covering rule that end at the origin, or, without such a rule, every route to the
    /// origin. A prefix without an origin has no permitted path.
    pub fn for_prefix(&self, prefix: &Prefix) -> Chosen<'a>
        ensures permits { (path : List ℕ) → (chosen_permits result path ↔ IsPermitted self.now prefix.now path) }
        ensures prefers { (a b : List ℕ) → (chosen_prefers result a b ↔ IsPreferred self.now prefix.now a b) }
    {
        a_prefix_is_its_bits();
        let origin = origin_of(self.origins, prefix);
        if is_at(origin, self.router) {
            return Chosen::Only(Only {
                router: self.router,
            });
        }
        match self.rules.longest(prefix) {
            Some(rule) => Chosen::Ranked(Ranked {
                paths: rule.paths.as_slice(),
                origin,
            }),
            None => Chosen::Shortest(Shortest {
                router: self.router,
                origin,
            }),
        }
    }

    /// The rule whose prefix is the longest that covers this one. `None` if no rule of the router covers it.
    pub fn rule(&self, prefix: &Prefix) -> Option<&'a RankRule>
        ensures { MatchOption result (rule_for self.now.rules prefix.now ≡ None)
            (λ rule. rule_for self.now.rules prefix.now ≡ Some rule.now) }
    {
        a_prefix_is_its_bits();
        self.rules.longest(prefix)
    }
}

// Whether the router is the origin.
fn is_at(origin: Option<Asn>, router: Asn) -> bool
    ensures { IsTrue result ↔ (origin ≡ Some router) }
{
    match origin {
        Some(origin) => origin == router,
        None => false,
    }
}
