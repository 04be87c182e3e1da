//! Which numbers the constants are, and what it means that prefixes are alike.

ghost use Rattle.std.specs.Prelude.{◌≡◌};
ghost use Rattle.stable_engine.specs.Alike.{AlikeHaveOnePolicy};
ghost use Rattle.stable_engine.specs.declared.status.TheConstants.{UNKNOWN};

/// The status of an answer that is not whole is 5, which no other status is.
pub fn constants_are_these()
    ensures unknown { UNKNOWN ≡ 5 }
{}

/// For two prefixes that are alike each router permits the same paths, and prefers the same of two.
pub fn alike_have_one_policy()
    ensures { AlikeHaveOnePolicy }
{}
