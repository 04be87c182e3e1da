//! Which numbers the constants are.

ghost use Rattle.std.specs.Prelude.{◌≡◌};
ghost use Rattle.error_words.specs.declared.showing.TheConstants.{MOST_SHOWN};
ghost use Rattle.error_words.specs.declared.reasons.TheConstants.{MOST_COMPARED};
ghost use Rattle.error_words.specs.declared.ending.TheConstants.{KEPT};
ghost use Rattle.error_words.specs.declared.warnings.TheConstants.{MOST_WARNED};

/// The octets of a line that are shown, those of one that is looked at word by word, those that are kept of an output's
/// end, and how many warnings are named.
pub fn constants_are_these()
    ensures shown { MOST_SHOWN ≡ 60 }
    ensures compared { MOST_COMPARED ≡ 4096 }
    ensures kept { KEPT ≡ 8193 }
    ensures warned { MOST_WARNED ≡ 10 }
{}
