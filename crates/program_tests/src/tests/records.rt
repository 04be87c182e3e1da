//! Records of networks in threads, played back by a world, and their text.

ghost use Rattle.std.specs.Prelude.{◌≡◌, [], IfOk};
ghost use Rattle.std.specs.List.{AllByRecursion};
ghost use Rattle.worker_loop.specs.Script.{given_by};

use net_text::read_network;
use net_workers::{Chore, Limits, Record, ScriptGate, run_net};
use prefix_lanes::Prefix;
use ranked_policy::Network;
use router_core::Router;
use router_model::{Command, Stepped};
use std::alloc::{AllocError, Global};
use std::sync::Wait;
use std::test::Fail;
use std::thread::Threads;
use text_engines::{INPUT_LIMIT, put_limit};
use thread_engines::record::record_output;
use thread_engines::{RunOptions, Until, run_network};
use world_core::World;

// Two routers and a link; and DISAGREE, where 2 and 3 prefer the way through each other.
static NETWORKS: [&str; 2] = [
    "router 1 10.0.0.1\nrouter 2 10.0.0.2\nlink 1 2\norigin 1 10.1.0.0/16\n",
    "router 1 10.0.0.1\nrouter 2 10.0.0.2\nrouter 3 10.0.0.3\nlink 1 2\nlink 1 3\nlink 2 3\n\
    origin 1 10.1.0.0/16\nrank 2 10.1.0.0/16 2-3-1 2-1\nrank 3 10.1.0.0/16 3-2-1 3-1\n",
];

// Whether two routers keep the same paths, and acted on and sent the same UPDATEs.
fn are_alike(
    alloc: Global,
    network: &Network,
    one: &Router<'_>,
    other: &Router<'_>,
) -> Result<bool, AllocError> {
    for origin in network.origins() {
        if one.kept(&origin.prefix) != other.kept(&origin.prefix) {
            return Ok(false);
        }
    }
    for peer in network.routers() {
        let first = format!(in alloc;
            "{:?} {:?}",
            one.acted(alloc, peer.asn),
            one.sent(alloc, peer.asn)
        )?;
        let second = format!(in alloc;
            "{:?} {:?}",
            other.acted(alloc, peer.asn),
            other.sent(alloc, peer.asn)
        )?;
        if first.as_str() != second.as_str() {
            return Ok(false);
        }
    }
    Ok(true)
}

// Whether a world that plays the gathered events of a record does each, and ends in its routers.
fn plays_back<G>(
    alloc: Global,
    network: &Network,
    record: &Record<'_, G>,
) -> Result<bool, AllocError> {
    let Ok(mut world) = World::new(alloc, network) else {
        return Err(AllocError);
    };
    for entry in &record.gathered {
        if world.step(&entry.event) != Ok(Stepped::Did) {
            return Ok(false);
        }
    }
    for worked in &record.workers {
        match world.router(worked.router.number()) {
            Some(router) => {
                if !are_alike(alloc, network, router, &worked.router)? {
                    return Ok(false);
                }
            }
            None => return Ok(false),
        }
    }
    Ok(true)
}

fn run_plays_back<R: Threads + Wait + Sync>(
    rt: &R,
    alloc: Global,
    network: &Network,
) -> Result<bool, AllocError> {
    let options = RunOptions {
        turns: 1000,
        snapshots: 5,
    };
    match run_network(rt, alloc, &options, Until::Last, network) {
        Ok(journals) => plays_back(alloc, network, &journals.gather(alloc)?),
        Err(_) => Ok(false),
    }
}

#[test]
fn a_record_plays_back(rt: HostRuntime) -> Result<(), Fail> {
    for &text in &NETWORKS {
        match read_network(rt.alloc(), text.as_bytes()) {
            Ok(network) => {
                assert!(rt; run_plays_back(&rt, rt.alloc(), &network)?);
            }
            Err(_) => Err("a network")?,
        }
    }
    Ok(())
}

// What two routers do that hear nothing of each other: both start, router 1 originates, takes a snapshot and has one
// turn; and what they end in: the session was not up as the snapshot was taken, and router 2 has no path.
const DONE: &str =
    "schedule\nstart 1 2\nstart 2 1\noriginate 1 10.1.0.0/16\nsnapshot 1 1\nput 1 2\ndecide 1\noffer 1\n\
    # snapshot 1 abandoned 1 2 notup\n# now\n# route 1 10.1.0.0/16 1\n# route 2 10.1.0.0/16 none\n";

// The gates of both.
fn lone_gates(alloc: Global, prefix: Prefix) -> Result<Vec<ScriptGate>, AllocError>
    ensures { IfOk result (λ gates. AllByRecursion (λ gate. given_by gate ≡ []) gates.items) }
{
    let one = ScriptGate::new(vec![in alloc;
        (0, Chore::Command(Command::Start(2))),
        (1, Chore::Command(Command::Originate(prefix))),
        (2, Chore::Command(Command::Snapshot(1))),
        (4, Chore::Stop),
    ]?);
    let other = ScriptGate::new(vec![in alloc;
        (0, Chore::Command(Command::Start(1))),
        (1, Chore::Stop),
    ]?);
    let mut gates = Vec::new(alloc);
    gates.push(one)?;
    gates.push(other)?;
    Ok(gates)
}

// Whether the text of the record of two such routers is this.
fn has_text<R: Threads + Wait + Sync>(
    rt: &R,
    alloc: Global,
    lines: &str,
    network: &Network,
    gates: Vec<ScriptGate>,
    text: &str,
) -> Result<bool, AllocError>
    requires { AllByRecursion (λ gate. given_by gate ≡ []) gates.items }
{
    match run_net(rt, alloc, network, gates, Limits { turns: 10 }) {
        Ok(record) => {
            let (got, status) = record_output(alloc, lines.as_bytes(), network, &record)?;
            Ok(got.as_slice() == text.as_bytes() && status == 0)
        }
        Err(_) => Ok(false),
    }
}

// By stamp, then by router.
#[test]
fn a_record_is_written_by_stamp_then_by_router(rt: HostRuntime) -> Result<(), Fail> {
    let alloc = rt.alloc();
    let prefix = Prefix::new(0x0a01_0000, 16).ok_or("a prefix")?;
    let lines = NETWORKS[0];
    match read_network(alloc, lines.as_bytes()) {
        Ok(network) => {
            let gates = lone_gates(alloc, prefix)?;
            let text = format!(in alloc; "{lines}{DONE}")?;
            assert!(rt; has_text(&rt, alloc, lines, &network, gates, text.as_str())?);
        }
        Err(_) => Err("a network")?,
    }
    Ok(())
}

// What is said of a text of so many octets more than an input may have.
fn said_of(alloc: Global, more: usize) -> Result<Vec<u8>, AllocError> {
    let block = [b'\n'; 4096];
    let mut text = Vec::new(alloc);
    for _ in 0..INPUT_LIMIT / 4096 {
        text.extend_from_slice(&block)?;
    }
    for _ in 0..more {
        text.extend_from_slice(b"\n")?;
    }
    let len = text.len();
    put_limit(&mut text)?;
    let (_, said) = text.as_slice().split_at(len.min(text.len()));
    said.to_vec(alloc)
}

#[test]
fn a_text_that_is_too_long_says_so(rt: HostRuntime) -> Result<(), Fail> {
    let alloc = rt.alloc();
    assert!(rt; said_of(alloc, 0)?.is_empty());
    let said = b"# too long to be played: an input has at most 16777216 octets\n";
    assert!(rt; said_of(alloc, 1)?.as_slice() == said.as_slice());
    Ok(())
}
