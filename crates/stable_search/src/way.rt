//! Which values of two places fit each other.

ghost use Rattle.std.specs.Prelude.{◌↔◌, ◌<◌, IsTrue};
ghost use Rattle.stable_search.specs.Picks.{Has};

/// What a place asks of another: for each of its values the set of the other's values that fit it, a bit for each.
#[derive(Debug, Drop)]
pub(crate) struct Way {
    /// The place.
    pub(crate) from: usize,
    /// The other.
    pub(crate) to: usize,
    /// The sets, by the values of the first.
    pub(crate) fits: Vec<u64>,
}

/// Whether the value is in the set.
pub(crate) fn has(values: u64, value: usize) -> bool
    requires { value < 64 }
    ensures { IsTrue result ↔ Has values value }
{
    (values >> value) & 1 == 1
}
