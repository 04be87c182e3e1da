//! What the state of an end says of its history, for every history of dials, hangings up and signs.

ghost use Rattle.link_epoch.specs.Histories.{EpochIsGreatest, HeardIsGreatest, HeardIsShut, HeardIsShutAnywhere, JoinedWhereDialledAndHeard, NumbersRise, JoinsAtItsOwnNumber, OffersAboveTheOwn, ClosesAtItsOwnNumber};

/// `epoch` is the greatest number that the end has dialled, 0 if it has dialled none.
pub fn epoch_is_greatest_dialled()
    ensures { EpochIsGreatest }
{}

/// Each number that an end dials is above all that it has dialled before.
pub fn numbers_dialled_rise()
    ensures { NumbersRise }
{}

/// `heard` is the greatest number that the peer has dialled, as far as the end has heard; 0 at first.
pub fn heard_is_greatest_heard()
    ensures { HeardIsGreatest }
{}

/// The number heard counts as shut exactly where the peer shut it while it was the greatest that the peer had dialled.
/// If the peer shuts no number above those that it has dialled, it counts as shut exactly where the peer shut it at
/// all. Nothing is said of numbers below the one heard.
pub fn heard_is_shut_where_it_was_shut()
    ensures as_the_greatest { HeardIsShut }
    ensures at_all { HeardIsShutAnywhere }
{}

/// An end is joined exactly where it dialled its number, heard it from the peer, and has not hung up since.
pub fn joined_where_dialled_and_heard()
    ensures { JoinedWhereDialledAndHeard }
{}

/// A sign joins, is an offer or closes exactly at the numbers and phases that these clauses name. Every other sign
/// means nothing.
pub fn signs_mean()
    ensures joins { JoinsAtItsOwnNumber }
    ensures offers { OffersAboveTheOwn }
    ensures closes { ClosesAtItsOwnNumber }
{}
