//! A network that runs in threads as `bgpnet run` and `bgpnet record` have it run, and the text printed where it does
//! not.

ghost use Rattle.std.specs.Prelude.{◌≡◌, ◌≢◌, None, IfOk, IfErr, OnOk};
ghost use Rattle.net_workers.specs.declared.record.RunFault.TheVariants.{Memory};
ghost use Rattle.net_workers.specs.Faults.{EndedSo};
ghost use Rattle.net_workers.specs.Handed.{JournalsOf};
ghost use Rattle.text_engines.specs.Decoding.{output};
ghost use Rattle.thread_engines.specs.Gates.{HasRoom, asked_for, asked_of, given_by};
ghost use Rattle.thread_engines.specs.Records.{EndsIn, IsFaultOfRun, faulty, run_scripts};

use crate::chores::{RunOptions, new_gates, spacing};
use crate::gates::{RunGate, Until};
use net_workers::{Journals, Limits, RunFault, run_journals};
use ranked_policy::Network;
use std::alloc::{AllocError, Global};
use std::sync::Wait;
use std::thread::Threads;
use text_engines::refused_output;

/// Runs a network in threads: each router starts its session with each peer, originates each prefix of which it is
/// the origin, and goes on in turns; the least router takes the snapshots of the options, evenly spaced, until the
/// last or until one has settled.
///
/// Refused with [`RunFault::BadLimits`] if the chores leave no room for the openings and the snapshots, before anything
/// is done; else as [`run_journals`] refuses.
pub fn run_network<'a, R>(
    rt: &R,
    alloc: Global,
    options: &RunOptions,
    until: Until,
    network: &'a Network,
) -> Result<Journals<'a, RunGate>, RunFault>
where
    R: Threads + Wait + Sync,
    ensures room { OnOk result (HasRoom network.now options.now) }
    ensures refused { IfErr result (IsFaultOfRun options.now network.now) }
    // The fault of a worker is that of the least router that has one, of some routers with these scripts.
    ensures fault { IfErr result (EndsIn options.now until network.now) }
    // Router by router, its script is its opening and its turns, and the least router takes the snapshots.
    ensures ran { IfOk result
        (JournalsOf given_by asked_of network.now options.now.turns
        (asked_for until (run_scripts options.now network.now))) }
    // Some workers with these scripts have ended without a fault.
    ensures ended { OnOk result
        (EndedSo given_by asked_of network.now options.now.turns
        (asked_for until (run_scripts options.now network.now)) None) }
{
    let Some(spacing) = spacing(network, options) else {
        return Err(RunFault::BadLimits);
    };
    let gates = new_gates(alloc, network, spacing, options.snapshots, until)?;
    let limits = Limits {
        turns: options.turns,
    };
    run_journals(rt, alloc, network, gates, limits)
}

/// The text printed for a fault of the run, and the exit status. Want of memory is no such fault: it is an error here.
pub(crate) fn fault_output(alloc: Global, fault: RunFault) -> Result<(Vec<u8>, u8), AllocError>
    ensures kind { IfOk result (λ printed. fault ≢ Memory) }
    ensures output { IfOk result (λ printed. output printed.0.items printed.1 ≡ faulty fault) }
{
    match fault {
        RunFault::Memory => Err(AllocError),
        RunFault::WorkerRefused { .. } => refused_output(alloc, 0, b"G2"),
        RunFault::BadLimits => refused_output(alloc, 0, b"G3"),
        RunFault::BoardDiffers => refused_output(alloc, 0, b"G4"),
    }
}
