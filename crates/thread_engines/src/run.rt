//! `bgpnet run`: the routes on which a network in threads settles.

ghost use Rattle.std.specs.Prelude.{◌≡◌, ◌⊎◌, ℕ, true, IfOk};
ghost use Rattle.text_engines.specs.Decoding.{output};
ghost use Rattle.thread_engines.specs.Gates.{HaveTakenAll};
ghost use Rattle.thread_engines.specs.Running.{HasSetting, IsFirstWanted, RunGives};

mod settled;

use crate::chores::RunOptions;
use crate::gates::{RunGate, Until};
use crate::network::{fault_output, run_network};
use crate::run::settled::first_wanted;
use bgp_codec::Message;
use net_workers::laws::events_can_be_sorted;
use net_workers::{Journals, RunFault, Worked};
use prefix_lanes::Prefix;
use ranked_policy::{Network, Path};
use router_runs::each_network_has_a_setting;
use run_model::outcome_is_one;
pub use settled::settled_output;
use std::alloc::{AllocError, Global};
use std::sync::Wait;
use std::thread::Threads;
use world_core::laws::members_are_the_routers;

// A network has a setting that chooses by rank, since its hold time is one of two octets.
fn has_setting(network: &Network)
    ensures { HasSetting network.now }
{
    each_network_has_a_setting();
    let _hold = network.settings().hold;
}

// Whether no gate left out a snapshot.
fn have_taken_all(workers: &[Worked<'_, RunGate>]) -> bool
    ensures { result ≡ true → HaveTakenAll workers.now }
{
    for worked in workers {
        if !worked.gate.has_taken_all() {
            return false;
        }
    }
    true
}

// Whether no snapshot is missing: all were taken, or one that was is settled with every origin originating.
fn is_answered(network: &Network, journals: &Journals<'_, RunGate>, last: u32) -> bool
    ensures { result ≡ true → HaveTakenAll journals.now.workers.items
        ⊎ ((s : ℕ) × IsFirstWanted network.now journals.now.collector last s) }
{
    if have_taken_all(journals.workers.as_slice()) {
        return true;
    }
    match first_wanted(network, &journals.collector, last) {
        Some(_) => true,
        None => false,
    }
}

/// Runs a network in threads, and answers what is printed: the routes of the least settled snapshot in which every
/// origin originates, or `unsettled`; or why the run was refused; and the status. It answers an error where memory is
/// refused.
///
/// Snapshots are taken until such a one is seen at the board. If behind the joins none is among the offers, though some
/// were left out for it, the board differs from the journals.
pub fn network_output<R>(
    rt: &R,
    alloc: Global,
    options: &RunOptions,
    network: &Network,
) -> Result<(Vec<u8>, u8), AllocError>
where
    R: Threads + Wait + Sync,
    ensures { IfOk result (λ printed. RunGives options.now network.now (output printed.0.items printed.1)) }
{
    let _ = network.built();
    has_setting(network);
    events_can_be_sorted();
    members_are_the_routers();
    outcome_is_one::<Message, Prefix, Path>();
    match run_network(rt, alloc, options, Until::OneSettled, network) {
        Ok(journals) => {
            if !is_answered(network, &journals, options.snapshots) {
                return fault_output(alloc, RunFault::BoardDiffers);
            }
            settled_output(alloc, network, &journals.collector, options.snapshots)
        }
        Err(fault) => fault_output(alloc, fault),
    }
}
