//! Which paths a router may use, and which it prefers.

ghost use Rattle.std.specs.Prelude.{◌≡◌, ◌↔◌, ◌≤◌, ◌<◌, length, IsTrue, ℕ};
ghost use Rattle.std.specs.List.{Contains};
ghost use Rattle.ranked_policy.specs.Paths.{IsRoute, IsSimple, BeginsWith, EndsWith};
ghost use Rattle.ranked_policy.specs.Orders.{ComesFirst, ComesEarlier, IsShorter};

use crate::limits::LONGEST_PATH;
use crate::path::{Asn, Path};

/// A policy for one prefix. Its law: the permitted paths stand in one strict total order.
pub trait Policy {
    ghost use Rattle.std.specs.Prelude.{ℕ, List};
    ghost use Rattle.ranked_policy.specs.Orders.{IsStrictTotalOrder};

    ghost Permits: { Self → List ℕ → Type 0 };

    ghost Prefers: { Self → List ℕ → List ℕ → Type 0 };

    /// Whether the path may be used.
    fn permits(&self, path: &Path) -> bool
        ensures { IsTrue result ↔ Permits self.now path.now };

    /// Whether the first path is better than the second.
    fn prefers(&self, a: &Path, b: &Path) -> bool
        ensures { IsTrue result ↔ Prefers self.now a.now b.now };

    ghost order: { (policy : Self) → IsStrictTotalOrder (Permits policy) (Prefers policy) };
}

/// The policy of an origin: the path of itself alone.
#[derive(Clone, Copy, Debug)]
pub struct Only {
    /// The origin.
    pub router: Asn,
}

impl Policy for Only {
    ghost use Rattle.std.specs.Prelude.{◌≡◌, [], ◌∷◌};
    ghost use Rattle.ranked_policy.specs.Laws.{one_path_is_an_order};

    ghost Permits = { λ only path. path ≡ only.router ∷ [] };

    ghost Prefers = { λ only a b. ⊥ };

    ghost order = { λ only. one_path_is_an_order (only.router ∷ []) };

    fn permits(&self, path: &Path) -> bool {
        path.as_slice() == [self.router].as_slice()
    }

    fn prefers(&self, _a: &Path, _b: &Path) -> bool {
        false
    }
}

/// The policy of a rule: those of its paths that end at the origin, the best first.
#[derive(Clone, Copy, Debug)]
pub struct Ranked<'a> {
    /// The ranked paths.
    pub paths: &'a [Path],
    /// The origin of the prefix, if it has one.
    pub origin: Option<Asn>,
}

impl Policy for Ranked<'_> {
    ghost use Rattle.std.specs.List.{Contains};
    ghost use Rattle.std.specs.Prelude.{◌≡◌, Some};
    ghost use Rattle.ranked_policy.specs.Paths.{EndsWith};
    ghost use Rattle.ranked_policy.specs.Orders.{ComesFirst};
    ghost use Rattle.ranked_policy.specs.Laws.{listed_paths_are_an_order};
    ghost use Rattle.std.specs.Prelude.{ℕ};

    ghost Permits = { λ rule path. Contains rule.paths.now path
        × ((v : ℕ) × (rule.origin ≡ Some v) × EndsWith path v) };

    ghost Prefers = { λ rule a b. ComesFirst rule.paths.now a b };

    ghost order = { λ rule. listed_paths_are_an_order rule.paths.now
        (λ path. (v : ℕ) × (rule.origin ≡ Some v) × EndsWith path v) };

    fn permits(&self, path: &Path) -> bool {
        is_listed(self.paths, path) && ends_at(self.origin, path.as_slice())
    }

    fn prefers(&self, a: &Path, b: &Path) -> bool {
        comes_first(self.paths, a, b)
    }
}

/// The policy if no rule covers the prefix: every route to the origin, the shorter first, then by the numbers.
#[derive(Clone, Copy, Debug)]
pub struct Shortest {
    /// The router.
    pub router: Asn,
    /// The origin of the prefix, if it has one.
    pub origin: Option<Asn>,
}

impl Policy for Shortest {
    ghost use Rattle.std.specs.Prelude.{◌≡◌, Some};
    ghost use Rattle.ranked_policy.specs.Paths.{IsRoute};
    ghost use Rattle.ranked_policy.specs.Orders.{IsShorter};
    ghost use Rattle.ranked_policy.specs.Laws.{shorter_first_is_an_order};

    ghost Permits = { λ all path. IsRoute all.router (λ v. all.origin ≡ Some v) path };

    ghost Prefers = { λ all a b. IsShorter a b };

    ghost order = { λ all. shorter_first_is_an_order (IsRoute all.router (λ v. all.origin ≡ Some v)) };

    fn permits(&self, path: &Path) -> bool {
        let numbers = path.as_slice();
        begins_with(self.router, numbers)
            && is_simple(numbers)
            && numbers.len() <= LONGEST_PATH
            && ends_at(self.origin, numbers)
    }

    fn prefers(&self, a: &Path, b: &Path) -> bool {
        is_shorter(a.as_slice(), b.as_slice())
    }
}

/// Whether a path is one of these.
pub fn is_listed(paths: &[Path], path: &Path) -> bool
    ensures { IsTrue result ↔ Contains paths.now path.now }
{
    for listed in paths {
        if listed.is(path) {
            return true;
        }
    }
    false
}

// Whether the first path is listed where the second has not come yet.
fn comes_first(paths: &[Path], a: &Path, b: &Path) -> bool
    ensures { IsTrue result ↔ ComesFirst paths.now a.now b.now }
{
    for listed in paths {
        if listed.is(b) {
            return false;
        }
        if listed.is(a) {
            return true;
        }
    }
    false
}

// Whether the path begins with the router.
pub(crate) fn begins_with(router: Asn, path: &[Asn]) -> bool
    ensures { IsTrue result ↔ BeginsWith path.now router }
{
    match path {
        [first, ..] => *first == router,
        [] => false,
    }
}

// Whether the path ends at the origin, if there is one.
pub(crate) fn ends_at(origin: Option<Asn>, path: &[Asn]) -> bool
    ensures { IsTrue result ↔ ((v : ℕ) × (origin ≡ Some v) × EndsWith path.now v) }
{
    match (path, origin) {
        ([.., last], Some(origin)) => *last == origin,
        _ => false,
    }
}

// Whether no number is in the path twice.
pub(crate) fn is_simple(path: &[Asn]) -> bool
    ensures { IsTrue result ↔ IsSimple path.now }
{
    for (i, number) in path.iter().enumerate() {
        let (before, _) = path.split_at(i);
        if before.contains(number) {
            return false;
        }
    }
    true
}

// Whether the first path is shorter, or as long and earlier in the dictionary.
pub(crate) fn is_shorter(a: &[Asn], b: &[Asn]) -> bool
    ensures { IsTrue result ↔ IsShorter a.now b.now }
{
    a.len() < b.len() || a.len() == b.len() && comes_earlier(a, b)
}

// Whether the first path has the smaller number where the two begin to differ.
fn comes_earlier(a: &[Asn], b: &[Asn]) -> bool
    requires { length a.now ≡ length b.now }
    ensures { IsTrue result ↔ ComesEarlier a.now b.now }
{
    for (i, number) in a.iter().enumerate() {
        if *number != b[i] {
            return *number < b[i];
        }
    }
    false
}

/// The policy of a router for one prefix.
#[derive(Clone, Copy, Debug)]
pub enum Chosen<'a> {
    /// The router originates the prefix.
    Only(Only),
    /// A rule names the paths.
    Ranked(Ranked<'a>),
    /// No rule covers the prefix.
    Shortest(Shortest),
}

impl Policy for Chosen<'_> {
    ghost use Rattle.ranked_policy.specs.Choosing.{chosen_permits, chosen_prefers, chosen_is_an_order};

    ghost Permits = { λ chosen path. chosen_permits chosen path };

    ghost Prefers = { λ chosen a b. chosen_prefers chosen a b };

    ghost order = { λ chosen. chosen_is_an_order chosen };

    fn permits(&self, path: &Path) -> bool {
        match self {
            Chosen::Only(only) => only.permits(path),
            Chosen::Ranked(rule) => rule.permits(path),
            Chosen::Shortest(all) => all.permits(path),
        }
    }

    fn prefers(&self, a: &Path, b: &Path) -> bool {
        match self {
            Chosen::Only(only) => only.prefers(a, b),
            Chosen::Ranked(rule) => rule.prefers(a, b),
            Chosen::Shortest(all) => all.prefers(a, b),
        }
    }
}
