//! Small networks in threads.

ghost use Rattle.std.specs.Prelude.{◌≡◌, [], IfOk};
ghost use Rattle.std.specs.List.{AllByRecursion};
ghost use Rattle.worker_loop.specs.Script.{given_by};

use super::two_routers;
use net_workers::{Chore, Limits, Record, RunFault, ScriptGate, run_net};
use prefix_lanes::Prefix;
use ranked_policy::Network;
use router_model::Command;
use std::alloc::{AllocError, Global};
use std::sync::Wait;
use std::test::*;
use std::thread::Threads;

// The chores of each worker.
const TURNS: u32 = 2000;

// Router 1 starts, originates, and takes a snapshot late.
fn first_gate(alloc: Global, prefix: Prefix) -> Result<ScriptGate, AllocError>
    ensures { IfOk result (λ gate. given_by gate ≡ []) }
{
    Ok(ScriptGate::new(vec![in alloc;
        (0, Chore::Command(Command::Start(2))),
        (1, Chore::Command(Command::Originate(prefix))),
        (1500, Chore::Command(Command::Snapshot(1))),
    ]?))
}

// Router 2 starts.
fn second_gate(alloc: Global) -> Result<ScriptGate, AllocError>
    ensures { IfOk result (λ gate. given_by gate ≡ []) }
{
    Ok(ScriptGate::new(vec![in alloc; (0, Chore::Command(Command::Start(1)))]?))
}

fn two_gates(alloc: Global, prefix: Prefix) -> Result<Vec<ScriptGate>, AllocError>
    ensures { IfOk result (λ gates. AllByRecursion (λ gate. given_by gate ≡ []) gates.items) }
{
    let mut gates = Vec::new(alloc);
    gates.push(first_gate(alloc, prefix)?)?;
    gates.push(second_gate(alloc)?)?;
    Ok(gates)
}

// Whether two routers did all their chores, the first keeps the path of itself alone, and what both did
// was gathered. Whether they came to rest, the threads decide.
fn did_all<G>(record: &Record<'_, G>, prefix: &Prefix) -> bool {
    match record.workers.as_slice() {
        [one, two] => {
            one.router.kept(prefix) == [1].as_slice()
                && one.journal.chores.len() == TURNS as usize
                && two.journal.chores.len() == TURNS as usize
                && record.gathered.len() >= one.journal.events.len()
                && record.gathered.len() - one.journal.events.len() == two.journal.events.len()
        }
        _ => false,
    }
}

// Whether two routers run.
fn two_run<R: Threads + Wait + Sync>(
    rt: &R,
    alloc: Global,
    net: &Network,
    prefix: Prefix,
) -> Result<bool, AllocError> {
    let gates = two_gates(alloc, prefix)?;
    match run_net(rt, alloc, net, gates, Limits { turns: TURNS }) {
        Ok(record) => Ok(did_all(&record, &prefix)),
        Err(_) => Ok(false),
    }
}

#[test]
fn two_routers_run(rt: HostRuntime) -> Result<(), Fail> {
    let prefix = Prefix::new(0x0a01_0000, 16).ok_or("a prefix")?;
    let net = two_routers(rt.alloc(), prefix)?;
    assert!(rt; two_run(&rt, rt.alloc(), &net, prefix)?);
    Ok(())
}

// Whether no chores, too many, and a gate too few are refused.
fn bad_limits<R: Threads + Wait + Sync>(
    rt: &R,
    alloc: Global,
    net: &Network,
    prefix: Prefix,
    turns: u32,
) -> Result<bool, AllocError> {
    let gates = two_gates(alloc, prefix)?;
    match run_net(rt, alloc, net, gates, Limits { turns }) {
        Ok(_) => Ok(false),
        Err(fault) => Ok(fault == RunFault::BadLimits),
    }
}

#[test]
fn turns_outside_the_limits_are_refused(rt: HostRuntime) -> Result<(), Fail> {
    let prefix = Prefix::new(0x0a01_0000, 16).ok_or("a prefix")?;
    let net = two_routers(rt.alloc(), prefix)?;
    assert!(rt; bad_limits(&rt, rt.alloc(), &net, prefix, 0)?);
    assert!(rt; bad_limits(&rt, rt.alloc(), &net, prefix, 1_000_001)?);
    Ok(())
}
