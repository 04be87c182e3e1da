//! Laws on the order in which the events of a network happened.
ghost use Rattle.run_model.specs.CausalOrder.{CausalOrdersAreRuns, CausalOrdersEndAlike, RunsAreCausalOrders, TakesHaveTheirPuts};
ghost use Rattle.run_model.specs.Exchange.{PutsComeEarlier};
ghost use Rattle.run_model.specs.Gathering.{GatheredEventsAreStamped, GatheredIsOne, GatheredStampsRise, GatheringLifts, JournalsCanBeGathered, SortingByStampGathers, SortingByStampThenRouterGathers};
ghost use Rattle.run_model.specs.Network.{Event, StepsAreTakesInOrder};
ghost use Rattle.run_model.specs.Stamps.{StampsChangeNoItem, StampsGiveCausalOrders, StampsGiveTheCollectorsOrder, ThreadsAreARun};
ghost use Rattle.run_model.specs.ThroughCut.{OffersStand, PartsAreAsLong, RunsHaveTheirCuts, RunsPassThroughCuts};
ghost use Rattle.std.specs.Prelude.{ℕ};

/// The routers of a network: their states, what they do alone, the items that they pass, the offers that they make, and
/// how each goes from one state to another by one event.
///
/// All members are for proofs alone: a state may hold functions and histories that no code has. `step` says of a
/// router, its old state, an event and its new state that the event leads from one to the other. It speaks of that
/// router alone; the network says which item a take gets. The `Setting` is what all steps depend on and no step
/// changes, as the links and the rules of the network. Each law speaks for every setting; `Unit {0}` stands for none.
pub trait Routers {
    ghost Setting: { Type 0 };

    ghost State: { Type 0 };

    ghost Own: { Type 0 };

    ghost Item: { Type 0 };

    ghost Offer: { Type 0 };

    ghost step: { Setting → ℕ → State → Event Own Item Offer → State → Type 0 };
}

/// The lines of routers' journals, as far as gathering looks at them: each event's stamp, and its router.
pub trait JournalLines {
    ghost Line: { Type 0 };

    ghost stamp: { Line → ℕ };

    ghost router: { Line → ℕ };
}

/// Lines of routers' journals, and the whole entries behind them: a line may leave something out, as the item of an
/// event.
pub trait WholeLines {
    ghost Whole: { Type 0 };

    ghost Line: { Type 0 };

    ghost line: { Whole → Line };

    ghost stamp: { Line → ℕ };

    ghost router: { Line → ℕ };
}

/// A step of the network is a step of one router; if the step is a take, it gets the item behind those that were taken
/// from its direction before. Each such step of a router is a step of the network.
///
/// Premise: in the old state what was taken from each direction is a beginning of what was put in it, as in each state
/// of a run. It says no more of what a router does than its own relation does.
pub fn steps_are_takes_in_order<Net: Routers>()
    ensures { (setting : Net.Setting) → StepsAreTakesInOrder (Net.step setting) }
{}

/// Every causal order of journals is a run of the network from its opening, and ends in the journals' last states,
/// with all the items that they put and took, and with the offers as they were collected.
///
/// Premises: each router's journal leads it from its first state to its last by its own steps; the order has each
/// router's journal, and nothing else; it is causal; its offers stand in the collector's order. It does not say that
/// journals have a causal order, nor that they have only one.
pub fn causal_orders_are_runs<Net: Routers>()
    ensures { (setting : Net.Setting) → CausalOrdersAreRuns (Net.step setting) }
{}

/// Causal orders of the same journals and offers end in one state, which the journals say: in each direction the items
/// put and taken are those of the two routers' journals.
///
/// No premise but that the order is a causal one of the journals. It does not say that the states between are the same.
pub fn causal_orders_end_alike<Net: Routers>()
    ensures { CausalOrdersEndAlike Net.State Net.Own Net.Item Net.Offer }
{}

/// Every run of the network from its opening is causal. Its routers' events are journals that lead to the routers of
/// its last state. The journals, with the items and offers of the events, give that state.
///
/// No premise but the run. With [`causal_orders_are_runs`] it says that runs are the causal orders of journals, and
/// nothing else.
pub fn runs_are_causal_orders<Net: Routers>()
    ensures { (setting : Net.Setting) → RunsAreCausalOrders (Net.step setting) }
{}

/// An order is causal exactly where each take, the k-th of its direction, has the item of the k-th put of that
/// direction, and stands behind it.
///
/// No premise. It ties the short form of causal, by beginnings of lists, to the usual words.
pub fn takes_have_their_puts<Net: Routers>()
    ensures { TakesHaveTheirPuts Net.Own Net.Item Net.Offer }
{}

/// An order of journals by stamps is causal, also once the items have lost their stamps.
///
/// Premises: the order has each router's journal, and nothing else; no stamp is below an earlier one; an item carries
/// the stamp of its put, and the event that takes it has a greater one; in each direction the journals' takes are the
/// first of its puts, one after another. It does not say who keeps such stamps, and events of one stamp may stand
/// either way.
pub fn stamps_give_causal_orders<Net: Routers>()
    ensures { StampsGiveCausalOrders Net.Own Net.Item Net.Offer }
{}

/// Without stamps a journal puts and takes the same items.
///
/// No premise. It ties the items of a run, which have no stamps, to those of the pipes, which have.
pub fn stamps_change_no_item<Net: Routers>()
    ensures { StampsChangeNoItem Net.Own Net.Item Net.Offer }
{}

/// In an order by stamps the offers stand as they were collected.
///
/// Premises: no stamp of the order is below an earlier one; the collector's stamps rise, each above the one before; of
/// each router the collector has the offers, with their stamps, that the order has. A comparison of the collector's
/// list with the journals can fail only where one has an offer that the other has not, and never by the order.
pub fn stamps_give_the_collectors_order<Net: Routers>()
    ensures { StampsGiveTheCollectorsOrder Net.Own Net.Item Net.Offer }
{}

/// A stable sort by stamp gathers journals that stand one after another, routers rising. The gathered list rises by
/// stamp, and of one stamp by router, and keeps each journal's order.
///
/// Premises: the journals stand in that way; no router's stamps fall in its own journal. It does not say that the list
/// is causal: that depends on what the stamps mean.
pub fn sorting_by_stamp_gathers<Lines: JournalLines>()
    ensures { SortingByStampGathers Lines.stamp Lines.router }
{}

/// A sort by stamp, then router, gathers journals whose lines stand in any order.
///
/// Premises: no router's stamps fall in its own journal; the list rises by stamp, and of one stamp by router; what ties
/// in both stands as it stood.
pub fn sorting_by_stamp_then_router_gathers<Lines: JournalLines>()
    ensures { SortingByStampThenRouterGathers Lines.stamp Lines.router }
{}

/// Journals can be gathered.
///
/// Premise: no router's stamps fall in its own journal.
pub fn journals_can_be_gathered<Lines: JournalLines>()
    ensures { JournalsCanBeGathered Lines.stamp Lines.router }
{}

/// There is one gathered list, ties included.
///
/// No premise but that both lists are gathered from the same journals.
pub fn gathered_is_one<Lines: JournalLines>()
    ensures { GatheredIsOne Lines.stamp Lines.router }
{}

/// No stamp of a gathered list is below an earlier one.
///
/// No premise but that the list is gathered.
pub fn gathered_stamps_rise<Lines: JournalLines>()
    ensures { GatheredStampsRise Lines.stamp Lines.router }
{}

/// Lines may leave something out. If they are gathered, there is a gathered list of the whole entries whose lines they
/// are.
///
/// Premises: no router's stamps fall in its own journal; the lines are gathered. By this law a journal need not keep
/// its items.
pub fn gathering_lifts<Lines: WholeLines>()
    ensures { GatheringLifts Lines.line Lines.stamp Lines.router }
{}

/// Gathered events are an order by stamps of the journals that they were gathered from, as
/// [`stamps_give_causal_orders`] and [`threads_are_a_run`] want it.
///
/// Premises: the events are gathered by stamp, then router; each one's stamp fits its item; in each direction the
/// journals' takes are the first of its puts.
pub fn gathered_events_are_stamped<Net: Routers>()
    ensures { GatheredEventsAreStamped Net.Own Net.Item Net.Offer }
{}

/// The journals of threads, put together, are a run. Journals of each router's own steps, in the order of their stamps,
/// are a causal order with the collector's offers, and a run to the state that they leave.
///
/// Premises: each router's journal, without stamps, leads it from its first state to its last by its own steps; those
/// of [`stamps_give_causal_orders`]; and the offers with their stamps, in the order of the events, are those that the
/// collector has. The last can be had only by comparing the two lists once the threads have ended: what a call did to a
/// value under a lock is known to nobody else. It does not say that two threads ever ran at once, nor when an item
/// arrives.
pub fn threads_are_a_run<Net: Routers>()
    ensures { (setting : Net.Setting) → ThreadsAreARun (Net.step setting) }
{}

/// The exchange: a put may change places with the events of its router before it, and the journal leads to the same
/// state.
///
/// Premises: a put leads to one state, and commutes with each event that could come in its place and puts nothing in
/// its direction; none of the events puts in its direction; the put was possible before them, and so none of them
/// appended what it puts. The first two are met by a router whose puts read what was appended towards that peer and
/// count it, if its other events only append to it and never look at the count. It does not say that a put may pass
/// another one of its direction.
pub fn puts_come_earlier<Net: Routers>()
    ensures { (setting : Net.Setting) → PutsComeEarlier (Net.step setting) }
{}

/// A run has its routers' states at each cut: each router's first events lead it there, and the others lead from there
/// to its last state.
///
/// No premise but the run; the cut is any number of own first events for each router. It does not say that the cut is
/// consistent.
pub fn runs_have_their_cuts<Net: Routers>()
    ensures { (setting : Net.Setting) → RunsHaveTheirCuts (Net.step setting) }
{}

/// Every run passes through each of its consistent cuts, reordered: first the events inside and the early puts, then
/// the rest, each part in the given order.
///
/// An early put is outside, and its item was taken inside. Premises: puts commute, as for [`puts_come_earlier`]; each item
/// that was taken inside was put inside, or could be put at the cut, since it was appended inside. The new order is causal
/// and a run; it ends in the given one's last state, but for the order of the offers; after its first part each router's
/// state is that after its events inside and then its early puts, what was taken is what was taken inside, and what was
/// put is what was put inside and what was taken of the rest. It does not say which cuts are consistent.
pub fn runs_pass_through_cuts<Net: Routers>()
    ensures { (setting : Net.Setting) → RunsPassThroughCuts (Net.step setting) }
{}

/// In the reordered run the offers of a kind that no router made inside stand as they stood.
///
/// Premise: no router's events inside make an offer of that kind, as with the offers of a snapshot whose recordings are
/// the cut. Offers of other kinds may stand otherwise; each router's own keep their order.
pub fn offers_stand<Net: Routers>()
    ensures { OffersStand Net.Own Net.Item Net.Offer }
{}

/// The first part of the reordered run is as long as all events inside, and the early puts; both parts together are as long
/// as the run.
///
/// Premise: the list has each router of the run's events once; others may stand in it. The cut is any number of own first
/// events for each router.
pub fn parts_are_as_long<Net: Routers>()
    ensures { PartsAreAsLong Net.Own Net.Item Net.Offer }
{}
