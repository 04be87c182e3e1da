//! Why the search of a part stops.

ghost use Rattle.std.specs.Prelude.{◌≡◌};
ghost use Rattle.stable_search.specs.declared.stop.Stop.TheVariants.{Memory};

use std::alloc::AllocError;

/// Why the search of a part stopped.
#[derive(Clone, Copy, Debug)]
pub(crate) enum Stop {
    /// There are more choices than were asked for.
    TooManyChoices,
    /// The search took as many steps as it may.
    TooManySteps,
    /// A growth was refused.
    Memory,
}

impl From<AllocError> for Stop {
    ghost from_gives = { λ _ stop. stop ≡ Memory };

    fn from(_error: AllocError) -> Stop {
        Stop::Memory
    }
}
