//! Tests of a path before it is made: a router, then the rest of its path.

ghost use Rattle.std.specs.Prelude.{◌≡◌, ◌≢◌, ◌↔◌, ◌∷◌, ℕ, Some, IsTrue};
ghost use Rattle.std.specs.List.{Contains};
ghost use Rattle.ranked_policy.specs.Choices.{IsTaken, IsBetterWay};
ghost use Rattle.ranked_policy.specs.Choosing.{chosen_permits, chosen_prefers};
ghost use Rattle.ranked_policy.specs.Orders.{ComesFirst, IsShorter};
ghost use Rattle.ranked_policy.specs.Paths.{IsSimple, EndsWith};

use crate::limits::LONGEST_PATH;
use crate::path::{Asn, Path};
use crate::policy::{Chosen, ends_at, is_shorter, is_simple};

/// Whether two paths are the same: the same numbers in the same order.
pub fn is_same_path(one: &[Asn], other: &[Asn]) -> bool
    ensures { IsTrue result ↔ (one.now ≡ other.now) }
{
    one == other
}

/// Whether a path is the router and then the rest.
pub fn is_onward(path: &[Asn], router: Asn, rest: &[Asn]) -> bool
    ensures { IsTrue result ↔ (path.now ≡ router ∷ rest.now) }
{
    match path {
        [first, others @ ..] => *first == router && is_same_path(others, rest),
        [] => false,
    }
}

// Whether the path on from the router is one of these.
fn is_listed_onward(paths: &[Path], router: Asn, rest: &[Asn]) -> bool
    ensures { IsTrue result ↔ Contains paths.now (router ∷ rest.now) }
{
    for listed in paths {
        if is_onward(listed.as_slice(), router, rest) {
            return true;
        }
    }
    false
}

// Whether, from the router, the first way on is listed where the second has not come yet.
fn comes_first_onward(paths: &[Path], router: Asn, a: &[Asn], b: &[Asn]) -> bool
    ensures { IsTrue result ↔ ComesFirst paths.now (router ∷ a.now) (router ∷ b.now) }
{
    for listed in paths {
        if is_onward(listed.as_slice(), router, b) {
            return false;
        }
        if is_onward(listed.as_slice(), router, a) {
            return true;
        }
    }
    false
}

// Whether no number is twice in the path on from the router.
fn is_simple_onward(router: Asn, rest: &[Asn]) -> bool
    ensures { IsTrue result ↔ IsSimple (router ∷ rest.now) }
{
    !rest.contains(&router) && is_simple(rest)
}

// Whether the path on from the router ends at the origin, if there is one.
fn ends_onward(origin: Option<Asn>, router: Asn, rest: &[Asn]) -> bool
    ensures { IsTrue result ↔ ((v : ℕ) × (origin ≡ Some v) × EndsWith (router ∷ rest.now) v) }
{
    if !rest.is_empty() {
        return ends_at(origin, rest);
    }
    match origin {
        Some(origin) => router == origin,
        None => false,
    }
}

// Whether, from the router, the first way on is shorter, or as long and earlier in the dictionary.
fn is_shorter_onward(_router: Asn, a: &[Asn], b: &[Asn]) -> bool
    ensures { IsTrue result ↔ IsShorter (_router ∷ a.now) (_router ∷ b.now) }
{
    is_shorter(a, b)
}

impl Chosen<'_> {
    /// Whether the path from a router along these numbers may be used. The path is not made.
    pub fn permits_onward(&self, router: Asn, rest: &[Asn]) -> bool
        ensures { IsTrue result ↔ chosen_permits self.now (router ∷ rest.now) }
    {
        match self {
            Chosen::Only(only) => router == only.router && rest.is_empty(),
            Chosen::Ranked(rule) => {
                is_listed_onward(rule.paths, router, rest) && ends_onward(rule.origin, router, rest)
            }
            Chosen::Shortest(all) => {
                router == all.router
                    && rest.len() < LONGEST_PATH
                    && ends_onward(all.origin, router, rest)
                    && is_simple_onward(router, rest)
            }
        }
    }

    /// Whether, from a router, the first way on is better than the second. No path is made.
    pub fn prefers_onward(&self, router: Asn, a: &[Asn], b: &[Asn]) -> bool
        ensures { IsTrue result ↔ chosen_prefers self.now (router ∷ a.now) (router ∷ b.now) }
    {
        match self {
            Chosen::Only(_only) => false,
            Chosen::Ranked(rule) => comes_first_onward(rule.paths, router, a, b),
            Chosen::Shortest(_all) => is_shorter_onward(router, a, b),
        }
    }

    /// Whether, from a router, the path along a way may be used, and is better than that along the best way so far. An
    /// empty best way is none. No path is made.
    pub fn takes_onward(&self, router: Asn, way: &[Asn], best: &[Asn]) -> bool
        ensures { IsTrue result ↔ IsTaken self.now router way.now best.now }
    {
        (best.is_empty() || self.prefers_onward(router, way, best))
            && self.permits_onward(router, way)
    }

    /// The better of two ways from a router: the new one if it is not empty, its path may be used and is better than
    /// that along the best way so far; else the best way so far, which is empty if there is none. No path is made.
    pub fn better_onward<'p>(&self, router: Asn, way: &'p [Asn], best: &'p [Asn]) -> &'p [Asn]
        ensures { IsBetterWay self.now router way.now best.now result.now }
    {
        if way.is_empty() {
            return best;
        }
        if self.takes_onward(router, way, best) {
            way
        } else {
            best
        }
    }
}
