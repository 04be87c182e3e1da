//! Laws of verdicts, for every list of offers. Each is the contract of a function without work of its own.

ghost use Rattle.snap_collector.specs.Laws.{CollectedAreKept, KeptGoesOn, NothingIsKept, SettledHasNoneInFlight, VerdictsAreOutcomes};

/// The verdict on the offers that were kept is how the snapshot comes out by all offers that were
/// made, late ones among them.
pub fn verdicts_are_outcomes()
    ensures { VerdictsAreOutcomes }
{}

/// Before any offer nothing is kept.
pub fn nothing_is_kept()
    ensures { NothingIsKept }
{}

/// An offer for another number changes nothing, nor does one that comes late; any other is kept.
pub fn kept_goes_on()
    ensures { KeptGoesOn }
{}

/// A collector keeps the offers for a number up to the first that decides. The other laws speak of
/// these as the offers that were kept.
pub fn collected_are_kept()
    ensures { CollectedAreKept }
{}

/// A settled snapshot has nothing in flight.
pub fn settled_has_none_in_flight()
    ensures { SettledHasNoneInFlight }
{}
