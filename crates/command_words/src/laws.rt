//! Which numbers the constants are.

ghost use Rattle.std.specs.Prelude.{◌≡◌};
ghost use Rattle.command_words.specs.declared.words.TheConstants.{TURNS, SNAPSHOTS, MOST_CHOICES, STEPS, MOST_PATHS, MOST_SNAPSHOTS};

/// The numbers of the words that are not named: chores of a router and snapshots of `run`, choices and steps of `stable`,
/// paths of `safe`; and the most snapshots that can be named.
pub fn constants_are_these()
    ensures usual { (TURNS ≡ 20000) × (SNAPSHOTS ≡ 20) × (MOST_CHOICES ≡ 1000) × (STEPS ≡ 10000000) × (MOST_PATHS ≡ 1000) }
    ensures most { MOST_SNAPSHOTS ≡ 1000 }
{}
