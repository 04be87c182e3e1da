//! Laws of the chores of a worker. Each is the contract of a function without work of its own.

ghost use Rattle.worker_loop.specs.Laws.{ActsAreJournals, StampsRise, WhatFollowsIsCalled, WhatFollowsIsDone};

use router_model::laws::answers_are_steps;
use world_core::laws::answers_are_called;

/// The events that follow from chores lead the worker's router from one of its states to the other, each by a step of
/// its own and at a later stamp. They are the items that it put and took, the offers that it made, and the lines of its
/// journal.
pub fn what_follows_is_done()
    ensures { WhatFollowsIsDone }
{}

/// Events that lead a router of the network from one of its states to another are a journal of that router, as the
/// laws of runs have it. The journal leads from the first state, with whatever the router ever appended, to the other.
pub fn acts_are_journals()
    ensures { ActsAreJournals }
{}

/// The stamps of events that lead a router on never fall; each event is of that router, and its item fits its stamp.
pub fn stamps_rise()
    ensures { StampsRise }
{}

/// Each event that follows from chores is what the call of its router answers, and is a command only if one of the
/// chores is that command.
///
/// Premise: `IsNetwork`.
pub fn what_follows_is_called()
    ensures { WhatFollowsIsCalled }
{
    answers_are_steps();
    answers_are_called();
}
