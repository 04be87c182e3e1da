//! Gates of two routers that hold each other's chores back, and what they show of threads.

ghost use Rattle.std.specs.Prelude.{◌≡◌, ◌++◌, [], replicate, IfOk};
ghost use Rattle.std.specs.List.{AllByRecursion};
ghost use Rattle.worker_loop.specs.declared.chore.Chore.TheVariants.{Stop};
ghost use Rattle.worker_loop.specs.Script.{given_by};

mod through;

use net_text::read_network;
use net_workers::{Chore, Gate, Limits, ScriptGate, run_journals, run_net};
use prefix_lanes::Prefix;
use ranked_policy::Network;
use router_model::Command;
use std::alloc::{AllocError, Global};
use std::sync::Wait;
use std::sync::atomic::{AtomicU64, Ordering};
use std::test::Fail;
use std::thread;
use std::thread::Threads;
use thread_engines::RunOptions;
use thread_engines::run::{network_output, settled_output};

// Two routers and a link; router 1 originates 10.1.0.0/16. Pipes of one item, and of many.
const NARROW: &str =
    "router 1 10.0.0.1\nrouter 2 10.0.0.2\nlink 1 2\norigin 1 10.1.0.0/16\npipe 1\n";

const WIDE: &str = "router 1 10.0.0.1\nrouter 2 10.0.0.2\nlink 1 2\norigin 1 10.1.0.0/16\n";

// Router 2 is the origin of a prefix, which its gate does not have it originate.
const WITHHELD: &str =
    "router 1 10.0.0.1\nrouter 2 10.0.0.2\nlink 1 2\norigin 1 10.1.0.0/16\norigin 2 10.2.0.0/16\n";

// The routes of both.
const BOTH: &str = "route 1 10.1.0.0/16 1\nroute 2 10.1.0.0/16 2-1\n";

// How often a gate looks for the other before it gives up.
const LOOKS: u32 = 1_000_000;

// Which chores a gate holds back until the other has been asked.
#[derive(Clone, Copy, PartialEq, Eq)]
enum Holds {
    // The first, until the other has been asked for its first.
    First,
    // Each, until the other has been asked for the one before.
    Each,
}

// How many chores each of two gates was asked for.
#[derive(Drop)]
struct Asked {
    one: AtomicU64,
    other: AtomicU64,
}

// A gate that holds the chores of a script back until the other gate has been asked, and gives Stop
// from there on where it is not asked in time. It notes whether it is told that a snapshot has settled.
#[derive(Drop)]
struct HeldGate<'a> {
    own: &'a AtomicU64,
    other: &'a AtomicU64,
    holds: Holds,
    script: ScriptGate,
    stops: u64,
    is_told: bool,
}

impl HeldGate<'_> {
    // Whether the other gate is asked in time.
    fn is_met(&self, turn: u32) -> bool {
        let wanted = match self.holds {
            Holds::First => u64::from(turn == 0),
            Holds::Each => u64::from(turn),
        };
        for _ in 0..LOOKS {
            if self.other.load(Ordering::SeqCst) >= wanted {
                return true;
            }
            thread::yield_now();
        }
        false
    }
}

impl Gate for HeldGate<'_> {
    ghost use Rattle.std.specs.Prelude.{List, ℕ};
    ghost use Rattle.worker_loop.specs.declared.chore.Chore.{Chore};

    ghost Script = { List (ℕ × Chore) };

    ghost script = { λ g. g.script.script.items };

    ghost given = { λ g. given_by g.script ++ replicate g.stops Stop };

    fn next<R: Wait>(&mut self, rt: &R, turn: u32) -> Chore {
        self.own.store(u64::from(turn) + 1, Ordering::SeqCst);
        if self.stops > 0 || !self.is_met(turn) {
            self.stops += 1;
            return Chore::Stop;
        }
        self.script.next(rt, turn)
    }

    fn on_settled(&mut self, _turn: u32) {
        self.is_told = true;
    }
}

// The gates of both routers. They start, router 1 originates and takes a snapshot at turn 200, and both
// stop at turn 400.
fn two_gates<'a>(
    alloc: Global,
    asked: &'a Asked,
    holds: Holds,
    prefix: Prefix,
) -> Result<Vec<HeldGate<'a>>, AllocError>
    ensures { IfOk result
        (λ gates. AllByRecursion (λ gate. given_by gate.script ++ replicate gate.stops Stop ≡ []) gates.items) }
{
    let one = ScriptGate::new(vec![in alloc;
        (0, Chore::Command(Command::Start(2))),
        (1, Chore::Command(Command::Originate(prefix))),
        (200, Chore::Command(Command::Snapshot(1))),
        (400, Chore::Stop),
    ]?);
    let other = ScriptGate::new(vec![in alloc;
        (0, Chore::Command(Command::Start(1))),
        (400, Chore::Stop),
    ]?);
    let mut gates = Vec::new(alloc);
    gates.push(HeldGate {
        own: &asked.one,
        other: &asked.other,
        holds,
        script: one,
        stops: 0,
        is_told: false,
    })?;
    gates.push(HeldGate {
        own: &asked.other,
        other: &asked.one,
        holds,
        script: other,
        stops: 0,
        is_told: false,
    })?;
    Ok(gates)
}

fn new_asked() -> Asked {
    Asked {
        one: AtomicU64::new(0),
        other: AtomicU64::new(0),
    }
}

// The network of two routers, and the prefix of router 1.
#[derive(Drop)]
struct Pair {
    network: Network,
    prefix: Prefix,
}

fn read_pair(alloc: Global, text: &str) -> Result<Pair, Fail> {
    let prefix = Prefix::new(0x0a01_0000, 16).ok_or("a prefix")?;
    match read_network(alloc, text.as_bytes()) {
        Ok(network) => Ok(Pair { network, prefix }),
        Err(_) => Err("a network")?,
    }
}

// Whether each of two gates saw the other be asked before it gave its first chore.
fn meet<R: Threads + Wait + Sync>(rt: &R, alloc: Global, pair: &Pair) -> Result<bool, AllocError> {
    let asked = new_asked();
    let gates = two_gates(alloc, &asked, Holds::First, pair.prefix)?;
    match run_net(rt, alloc, &pair.network, gates, Limits { turns: 10 }) {
        Ok(record) => Ok(record.workers.iter().all(|worked| worked.gate.stops == 0)),
        Err(_) => Ok(false),
    }
}

// Two threads ran at once, since each gate saw the other be asked.
#[test]
fn gate_meeting(rt: HostRuntime) -> Result<(), Fail> {
    let pair = read_pair(rt.alloc(), WIDE)?;
    assert!(rt; meet(&rt, rt.alloc(), &pair)?);
    Ok(())
}

// Whether this is printed of a run in lockstep, and its gates were told that a snapshot has settled, or were not.
fn prints_in_lockstep<R: Threads + Wait + Sync>(
    rt: &R,
    alloc: Global,
    pair: &Pair,
    wanted: &str,
    is_told: bool,
) -> Result<bool, AllocError> {
    let asked = new_asked();
    let gates = two_gates(alloc, &asked, Holds::Each, pair.prefix)?;
    let limits = Limits { turns: 1000 };
    match run_journals(rt, alloc, &pair.network, gates, limits) {
        Ok(journals) => {
            for worked in &journals.workers {
                if worked.gate.is_told != is_told {
                    return Ok(false);
                }
            }
            let (text, status) = settled_output(alloc, &pair.network, &journals.collector, 1)?;
            Ok((text.as_slice(), status) == (wanted.as_bytes(), 0))
        }
        Err(_) => Ok(false),
    }
}

// Workers in lockstep take what their peers put, and a snapshot settles, of which their gates are told.
#[test]
fn gate_lockstep(rt: HostRuntime) -> Result<(), Fail> {
    for text in [WIDE, NARROW] {
        let pair = read_pair(rt.alloc(), text)?;
        assert!(rt; prints_in_lockstep(&rt, rt.alloc(), &pair, BOTH, true)?);
    }
    Ok(())
}

// A snapshot settles in which an origin does not originate: no gate is told of it.
#[test]
fn gate_lockstep_without_a_prefix(rt: HostRuntime) -> Result<(), Fail> {
    let pair = read_pair(rt.alloc(), WITHHELD)?;
    assert!(rt; prints_in_lockstep(&rt, rt.alloc(), &pair, "unsettled\n", false)?);
    Ok(())
}

// How often each network is run.
const RUNS: u32 = 10;

// Whether `bgpnet run`, with so many snapshots, prints the routes of both.
fn settles<R: Threads + Wait + Sync>(
    rt: &R,
    alloc: Global,
    network: &Network,
    snapshots: u32,
) -> Result<bool, AllocError> {
    let options = RunOptions {
        turns: 2000,
        snapshots,
    };
    let (text, status) = network_output(rt, alloc, &options, network)?;
    Ok((text.as_slice(), status) == (BOTH.as_bytes(), 0))
}

// A worker without work waits for the other, so that the snapshot finds both at rest, on a busy machine too.
#[test]
fn each_run_settles(rt: HostRuntime) -> Result<(), Fail> {
    for text in [WIDE, NARROW] {
        let pair = read_pair(rt.alloc(), text)?;
        for run in 0..RUNS {
            let snapshots = if run % 2 == 0 { 1 } else { 20 };
            assert!(rt; settles(&rt, rt.alloc(), &pair.network, snapshots)?);
        }
    }
    Ok(())
}
