//! First in, first out: what one end of a link uses of what the other says.
ghost use Rattle.run_model.specs.Facts.{EndFactsHold, MovesKeepFacts, NotDialledIsNotShut, ClosingLeaves, PastStaysPast, EntriesAddUp};
ghost use Rattle.run_model.specs.Links.{LinkRunsGoOn, UsedBeginsSaid, ActedBeginsSent, NoneUsedAfterClose, JoinedHeardItsOwn};

/// A run of link ends, and then moves that are a run from where it ends, make a longer run: a program's runs are built
/// event by event.
pub fn link_runs_go_on<M>()
    ensures { LinkRunsGoOn M }
{}

/// In every run, what an end used in an incarnation is a beginning of what its peer said in it (`begins`). The UPDATEs
/// among them are a beginning of the UPDATEs said (`updates`). From a close on, an end uses no more of the incarnation
/// that it left (`none_after_close`).
///
/// Premises: the ends begin with nothing appended, and each move is one that `May` allows. It does not say that anything
/// that was said is ever used.
pub fn first_in_first_out<M>()
    ensures begins { UsedBeginsSaid M }
    ensures updates { ActedBeginsSent M }
    ensures none_after_close { NoneUsedAfterClose M }
{}

/// In every run an end that is joined has heard exactly its own number.
///
/// Premises: as those of `first_in_first_out`. It does not say that the peer is still joined, since it may have hung
/// up.
pub fn joined_heard_its_own<M>()
    ensures { JoinedHeardItsOwn M }
{}

/// In every run, what an end took is a beginning of what its peer appended. Each message has the number that was
/// dialled before it. An end joins only what its peer dialled, and has used what it took of the incarnation that it is
/// joined in.
///
/// Premises: as those of `first_in_first_out`.
pub fn end_facts_hold<M>()
    ensures { EndFactsHold M }
{}

/// The facts of `end_facts_hold` move by move, for a state that is reached in some other way. A move that may be made
/// keeps these facts of both ends (`keeps`). By them a number that was not dialled is not shut (`not_shut`). An end
/// that hangs up is past its incarnation (`closes`); it stays past it, and uses no more of it (`stays_past`).
///
/// Premises: the facts hold of both ends, and the move is one that `May` allows. `closes` and `stays_past` need no
/// facts.
pub fn moves_keep_end_facts<M>()
    ensures keeps { MovesKeepFacts M }
    ensures not_shut { NotDialledIsNotShut M }
    ensures closes { ClosingLeaves M }
    ensures stays_past { PastStaysPast M }
{}

/// For two lists of entries in a row, what was dialled, said and shut, and what passes for them, is that of the first
/// list and then that of the second. No premise.
pub fn entries_add_up<M>()
    ensures { EntriesAddUp M }
{}
