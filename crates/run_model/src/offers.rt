//! What routers offer of a snapshot, and how the snapshot comes out.
ghost use Rattle.run_model.specs.Offers.{OfferRunsGoOn, OffersAside, AtMostOneOffer, RecordedOrOffered, NoOfferBeforeItsRecording, LostIsFinal, FirstCloseIsLost, PartsAreRecorded, NotAbandonedHasAllParts, SettledOutcomeIsSettled, MismatchNeverComes, SettledOutcomeIsStable, SettledOutcomeStays, OutcomeIsOne};

/// A run, and then events that are a run from where it ends, make a longer run (`on`). A run with offers is a run of
/// the network once the offers are left out: every law of links, recordings and routes holds of it (`run`).
///
/// Premises: each event is one that `MayOffer` allows. It says nothing of what the offers are.
pub fn offer_runs_are_network_runs<M, P, W>()
    ensures on { OfferRunsGoOn M P W }
    ensures run { OffersAside M P W }
{}

/// Each router queues at most one offer for each number, and makes at most one (`one`). For a number that it recorded,
/// it still records and has queued no offer, or it has queued one (`recorded`). Before it recorded the number it has
/// queued and made none (`none_before`).
///
/// Premises: each event is one that `MayOffer` allows. It does not say that an offer that is queued is ever made.
pub fn one_offer_a_number<M, P, W>()
    ensures one { AtMostOneOffer M P W }
    ensures recorded { RecordedOrOffered M P W }
    ensures none_before { NoOfferBeforeItsRecording M P W }
{}

/// A Lost that was queued stays the router's one offer for its number (`lost`). A router's window is from its recording
/// until an offer for it is queued. The first close of a session in it queues a Lost with that number, peer and
/// incarnation, and no Part of that number ever follows (`close`).
///
/// Premises: as those of `one_offer_a_number`. It says nothing of a close before the recording or after the offer.
pub fn close_loses_the_recording<M, P, W>()
    ensures lost { LostIsFinal M P W }
    ensures close { FirstCloseIsLost M P W }
{}

/// Each Part that was made says what its router recorded, with the channels of its finished recording (`parts`). A
/// snapshot that is decided and not abandoned has a part of every router (`all`). If its outcome is Settled, it is
/// settled, and the laws of stable paths speak of it (`settled`). No two parts name different incarnations of a link
/// (`mismatch`).
///
/// The shortest beginning of the offers made that decides gives the outcome. Premises: as those of
/// `one_offer_a_number`, and for `mismatch` that links lead both ways. It does not say that a snapshot is decided.
pub fn outcome_tells<M, P, W>()
    ensures parts { PartsAreRecorded M P W }
    ensures all { NotAbandonedHasAllParts M P W }
    ensures settled { SettledOutcomeIsSettled M P W }
    ensures mismatch { MismatchNeverComes M P W }
{}

/// A snapshot comes out in at most one way. Two outcomes of one number by the same offers made are the same: two
/// Abandoned have the same router, peer, incarnation and cause, and two Moving have the same router and fault.
///
/// Premises: none; it holds of any network and of any list of offers, whether a run makes them or not. It does not say
/// that there is an outcome, nor that it is one at two places of a run: a snapshot that is Waiting may come out later.
pub fn outcome_is_one<M, P, W>()
    ensures { OutcomeIsOne M P W }
{}

/// If a snapshot's outcome is Settled, the paths of its parts are a stable assignment for each prefix (`stable`). They
/// are the kept paths and the routes of each router at every place from its own recording on up to which the run is
/// quiet (`stays`).
///
/// Premises: links lead both ways, and each event is one that `MayOffer` allows. It does not say that a snapshot settles,
/// nor which stable assignment is found, and nothing of places behind a close or a command.
pub fn settled_outcome_is_stable_and_stays<M, P, W>()
    ensures stable { SettledOutcomeIsStable M P W }
    ensures stays { SettledOutcomeStays M P W }
{}
