//! Which numbers the constants are.

ghost use Rattle.std.specs.Prelude.{◌≡◌};
ghost use Rattle.ruled_pipe.specs.declared.ends.TheConstants.{MOST_ITEMS};

/// A pipe holds at most 1,024 items.
pub fn constants_are_these()
    ensures items { MOST_ITEMS ≡ 1024 }
{}
