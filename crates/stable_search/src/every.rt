//! All stable assignments.

ghost use Rattle.std.specs.Prelude.{◌≡◌, ◌<◌, ◌*◌, ℕ, IfSome, IsSome, length};
ghost use Rattle.stable_search.specs.Every.{choices_of, factor_of, number_of, IsCount, IsPart, IsPathAt};

use ranked_policy::{Asn, NetItems, Path};

/// Routers whose paths depend on each other, and on those of no other router; or a router that follows others.
#[derive(Debug, Drop)]
pub struct Component {
    /// The routers, by rising number.
    pub routers: NetItems<Asn>,
    /// The paths of each of them, in the order of the routers.
    pub values: NetItems<NetItems<Path>>,
    /// Their choices: each has for every router of the part the place of its path among the router's paths, in the order
    /// of the routers.
    pub picks: NetItems<NetItems<u8>>,
    /// Whether it is one router that follows: which of its paths it has depends on the choices of parts that don't
    /// follow, and none of these on its path.
    pub follows: bool,
}

impl Component {
    /// How many choices the part has.
    pub fn choice_count(&self) -> usize
        ensures { result ≡ length (choices_of self.now) }
    {
        self.picks.len()
    }

    /// The path that a choice has for a router: the choice and the router are named by their places, from 0. `None`
    /// exactly where the part, as a search answers it, has no such choice or no such router.
    pub fn path(&self, choice: usize, router: usize) -> Option<&Path>
        ensures path { IfSome result (λ path. IsPathAt self.now choice router path.now) }
        ensures some { IsPart self.now → choice < length (choices_of self.now) → router < length self.now.routers
            → IsSome result }
    {
        let pick = self.picks.as_slice().get(choice)?;
        let place = pick.as_slice().get(router)?;
        let paths = self.values.as_slice().get(router)?;
        paths.as_slice().get(usize::from(*place))
    }
}

/// All stable assignments of an instance: to any combination of one choice from each part that doesn't follow belongs
/// exactly one. Each router is in one part. If a part has no choice, no assignment is stable.
#[derive(Debug, Drop)]
pub struct Every {
    /// The parts, by their least routers.
    pub parts: NetItems<Component>,
}

impl Every {
    /// How many stable assignments there are: the product of the numbers of choices of the parts that don't follow, which
    /// is 0 if a part has none. `None` exactly where the product does not fit 64 bits.
    pub fn count(&self) -> Option<u64>
        ensures { IsCount (number_of self.now.parts) result }
    {
        let mut count = Some(1u64);
        for part in self.parts.as_slice() {
            let choices = factor(part);
            if choices == 0 {
                return Some(0);
            }
            count = times(count, choices);
        }
        count
    }
}

// The number of choices of a part; 1 if it follows.
fn factor(part: &Component) -> u64
    ensures { result ≡ factor_of part.now }
{
    if part.follows {
        1
    } else {
        part.choice_count() as u64
    }
}

// The product of a number, which may not fit 64 bits, and one that is not 0.
fn times(count: Option<u64>, choices: u64) -> Option<u64>
    requires { 0 < choices }
    ensures { (number : ℕ) → IsCount number count → IsCount (number * choices) result }
{
    match count {
        Some(count) => count.checked_mul(choices),
        None => None,
    }
}
