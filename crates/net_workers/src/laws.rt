//! The threads' events are one run of the network. Each law is the contract of a function without work of its own.

ghost use Rattle.outbox.specs.declared.item.What.{What};
ghost use Rattle.snap_marker.specs.Recordings.{MadeOffer};
ghost use Rattle.router_model.specs.Step as steps;
ghost use Rattle.router_runs.specs.Runs.{Logged};
ghost use Rattle.world_core.specs.Events.{router_of};
ghost use Rattle.worker_loop.specs.Acts.{Act, entry_of};
ghost use Rattle.worker_loop.specs.declared.journal.WorkerEvent.{WorkerEvent};
ghost use Rattle.net_workers.specs.Called.{Orders, called_steps};
ghost use Rattle.net_workers.specs.Gathered.{EventsCanBeSorted};
ghost use Rattle.net_workers.specs.Runs.{RecordsAreRuns, RecordsKeepTheirPromises};
ghost use Rattle.std.specs.Prelude.{◌≡◌, ◌≤◌};
ghost use Rattle.ranked_policy.specs.declared.limits.TheConstants.{GREATEST_PIPE};
ghost use Rattle.ruled_pipe.specs.declared.ends.TheConstants.{MOST_ITEMS};
ghost use Rattle.net_workers.specs.declared.record.TheConstants.{MOST_TURNS};

use router_runs::{
    NetworkRouters, close_loses_the_recording, nothing_is_acted_on_after_the_close,
    snapshots_of_runs, updates_pass_in_order,
};
use run_cuts::laws::runs_pass_through_snapshots;
use run_model::orders::{
    JournalLines, Routers, WholeLines, causal_orders_end_alike, gathered_events_are_stamped,
    gathering_lifts, sorting_by_stamp_gathers, stamps_change_no_item,
    stamps_give_the_collectors_order, threads_are_a_run,
};
use snap_collector::laws::{collected_are_kept, verdicts_are_outcomes};
use worker_loop::Gate;
use worker_loop::laws::{acts_are_journals, stamps_rise, what_follows_is_called};
use world_core::laws::members_are_of_the_network;

/// The routers of a network at the word of their chores: each event is what the call of its router answers, and is a
/// command only if one of the chores is that command. No value of it is made.
struct CalledRouters;

impl Routers for CalledRouters {
    ghost Setting = { Orders };

    ghost State = { Logged };

    ghost Own = { steps.Own };

    ghost Item = { What };

    ghost Offer = { MadeOffer };

    ghost step = { called_steps };
}

/// The lines of journals. No value of it is made.
struct Lines;

impl JournalLines for Lines {
    ghost Line = { WorkerEvent };

    ghost stamp = { λ e. e.stamp };

    ghost router = { λ e. router_of e.event };
}

/// The events of those lines, with their items. No value of it is made.
struct Events;

impl WholeLines for Events {
    ghost Whole = { Act };

    ghost Line = { WorkerEvent };

    ghost line = { entry_of };

    ghost stamp = { λ e. e.stamp };

    ghost router = { λ e. router_of e.event };
}

/// Every record is one of a run of the network: the gathered events are that run, and its last state has the routers,
/// the items that were put and taken, and the offers of the record (`runs`). Each event is what the call of its router
/// answers, and is a command only if one of the router's chores is that command. All promises of runs hold of the
/// record (`promises`). UPDATEs and octets passed in order; none was acted on after a close; a close lost the recording
/// of its router. The collector's verdict on a snapshot is how it comes out in that run. A settled snapshot is a stable
/// path assignment that stays. A run of the same events passes through the cut of each snapshot whose parts all routers
/// made.
///
/// Premises: it is a record ([`crate::run_net`]), and in each direction the items that were taken are the first of
/// those that were put, one after another; `IsNetwork`, routers choose by rank. It does not say that two threads ever
/// ran at once, nor that anything arrives.
pub fn records_are_runs<G: Gate>()
    ensures runs { RecordsAreRuns G.given }
    ensures promises { RecordsKeepTheirPromises G.given }
{
    acts_are_journals();
    stamps_rise();
    sorting_by_stamp_gathers::<Lines>();
    gathering_lifts::<Events>();
    gathered_events_are_stamped::<NetworkRouters>();
    stamps_give_the_collectors_order::<NetworkRouters>();
    threads_are_a_run::<NetworkRouters>();
    threads_are_a_run::<CalledRouters>();
    what_follows_is_called();
    causal_orders_end_alike::<NetworkRouters>();
    stamps_change_no_item::<NetworkRouters>();
    updates_pass_in_order();
    nothing_is_acted_on_after_the_close();
    close_loses_the_recording();
    snapshots_of_runs();
    runs_pass_through_snapshots();
    members_are_of_the_network();
    verdicts_are_outcomes();
    collected_are_kept();
}

/// Events can be sorted by stamp, those of one stamp as they stood: there is a list that [`crate::Journals::gather`]
/// answers, be there room for it or not.
pub fn events_can_be_sorted()
    ensures { EventsCanBeSorted }
{}

/// A worker has at most 1,000,000 chores, and a pipe of this crate can hold what a network may ask of one.
pub fn constants_are_these()
    ensures turns { MOST_TURNS ≡ 1000000 }
    ensures pipes { GREATEST_PIPE ≤ MOST_ITEMS }
{}
