//! Laws of the definitions. Each function here has an empty body, but for the laws below that it
//! rests on; its contract is the law.

ghost use Rattle.schedule_text.specs.Sayings.{LinesAreReadAsTheySay};
ghost use Rattle.std.specs.Prelude.{◌≡◌};
ghost use Rattle.schedule_text.specs.declared.operands.TheConstants.{MOST_COUNT};

use net_text::laws::words_stand_between_blanks;

/// A line is read as the order that its words say, and as no other.
pub fn lines_are_read_as_they_say()
    ensures { LinesAreReadAsTheySay }
{
    words_stand_between_blanks();
}

/// `rounds` and `ticks` take a number of at most 1,000,000.
pub fn constants_are_these()
    ensures counts { MOST_COUNT ≡ 1000000 }
{}
