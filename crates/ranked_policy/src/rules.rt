//! The rules of a router.

ghost use Rattle.std.specs.Prelude.{◌≡◌, ◌<◌, [], ◌∷◌, ◌++◌, length, OnOk, OnErr, MatchOption};
ghost use Rattle.ranked_policy.specs.Policies.{IsRuleFor, NoRuleFor};
ghost use Rattle.ranked_policy.specs.declared.limits.TheConstants.{MOST_RULES};

use crate::network::RankRule;
use prefix_lanes::{CoverTable, Prefix};
use std::alloc::{AllocError, Global};
use std::marker::Model;

/// The rules of a router, in the order in which they were named. Contracts see the list of them.
#[derive(Debug, Drop)]
pub struct Rules {
    rules: Vec<RankRule>,
    // The prefixes of the rules, in their order.
    prefixes: CoverTable,
}

impl Model for Rules {
    ghost use Rattle.std.specs.Prelude.{◌≡◌, List, map};
    ghost use Rattle.ranked_policy.specs.declared.network.RankRule.{RankRule};

    ghost Value = { List RankRule };

    ghost view = { λ r. r.rules.items };

    ghost invariant = { λ r. r.prefixes ≡ map (λ rule. rule.prefix) r.rules.items };
}

impl Rules {
    /// No rules. Takes no memory.
    pub(crate) fn new(alloc: Global) -> Rules
        ensures { result ≡ [] }
    {
        Rules {
            rules: Vec::new(alloc),
            prefixes: CoverTable::new(alloc),
        }
    }

    /// The rules.
    pub fn as_slice(&self) -> &[RankRule]
        ensures { result.now ≡ self.now }
    {
        self.rules.as_slice()
    }

    /// How many rules there are.
    pub fn len(&self) -> usize
        ensures { result ≡ length self.now }
    {
        self.rules.as_slice().len()
    }

    /// Adds a rule at the end. A refused growth changes nothing.
    pub(crate) fn push(&mut self, rule: RankRule) -> Result<(), AllocError>
        requires { length self.old < MOST_RULES }
        ensures ok { OnOk result (self.new ≡ self.old ++ rule ∷ []) }
        ensures err { OnErr result (self.new ≡ self.old) }
    {
        self.rules.reserve(1)?;
        if let Err(_) = self.prefixes.push(rule.prefix) {
            unreachable!();
        }
        self.rules.push_reserved(rule);
        Ok(())
    }

    /// The rule whose prefix is the longest that covers this one. `None` exactly where none covers it.
    pub fn longest(&self, prefix: &Prefix) -> Option<&RankRule>
        ensures { MatchOption result (NoRuleFor self.now prefix.now) (λ rule. IsRuleFor self.now prefix.now rule.now) }
    {
        match self.prefixes.longest(prefix) {
            Some(place) => Some(&self.rules[place]),
            None => None,
        }
    }
}
