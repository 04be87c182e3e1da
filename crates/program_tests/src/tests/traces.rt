//! A trace passes over what rests in its rounds. What is done, and what is said of it, is the same as where each event
//! is tried by itself: a trace is a schedule of its events, and its own trace says of each what it said.

use command_line::run_with;
use std::alloc::Global;
use std::sync::Wait;
use std::test::Fail;
use std::thread::Threads;
use text_engines::Watched;

// Networks of rings, each router joined to the next, with a chord.
const ROUTERS: u32 = 5;

// What is ordered between rounds.
static ORDERS: [&str; 8] = [
    "stop 2 3",
    "start 2 3\nstart 3 2",
    "reset 1 2",
    "restart 4",
    "originate 3 10.3.0.0/16",
    "withdraw 1 10.1.0.0/16",
    "originate 1 10.1.0.0/16",
    "ticks 40",
];

// What `trace` writes.
fn traced<R: Threads + Wait + Sync>(rt: &R, alloc: Global, input: &[u8]) -> (Vec<u8>, Option<u8>) {
    let mut reader = Watched::new(input);
    let mut writer = Watched::new(Vec::new(alloc));
    let got = run_with(rt, alloc, &["trace"], &mut reader, &mut writer).ok();
    (writer.into_inner(), got)
}

// A network, and a schedule of rounds with orders in between.
fn schedule(alloc: Global, seed: u32) -> Result<String, Fail> {
    let mut text = String::new(alloc);
    for router in 1..=ROUTERS {
        text.push_str(format!(in alloc; "router {router} 10.0.0.{router}\n")?.as_str())?;
    }
    for router in 1..=ROUTERS {
        let next = router % ROUTERS + 1;
        text.push_str(format!(in alloc; "link {router} {next}\n")?.as_str())?;
    }
    text.push_str("link 2 4\norigin 1 10.1.0.0/16\norigin 3 10.3.0.0/16\n")?;
    if seed % 2 == 1 {
        text.push_str("rank 2 10.1.0.0/16 2-3-4-5-1 2-1\nrank 3 10.1.0.0/16 3-2-1 3-4-5-1\n")?;
    }
    text.push_str("schedule\n")?;
    for router in 1..=ROUTERS {
        let next = router % ROUTERS + 1;
        text.push_str(format!(in alloc;
            "start {router} {next}\nstart {next} {router}\n"
        )?.as_str())?;
    }
    text.push_str("start 2 4\nstart 4 2\noriginate 1 10.1.0.0/16\n")?;
    let mut number = seed;
    for step in 1..=6u32 {
        number = number.wrapping_mul(1_664_525).wrapping_add(1_013_904_223);
        let rounds = (number >> 24) % 30 + 1;
        let order = ORDERS[(number >> 16) as usize % ORDERS.len()];
        text.push_str(format!(in alloc;
            "rounds {rounds}\n{order}\nsnapshot 1 {step}\n"
        )?.as_str())?;
    }
    text.push_str("rounds 40\n")?;
    Ok(text)
}

// The lines of a trace that are no comments on an order or on a round.
fn events_of(alloc: Global, trace: &[u8]) -> Result<Vec<u8>, Fail> {
    let mut kept = Vec::new(alloc);
    for line in trace.split(|octet: &u8| *octet == b'\n') {
        if !line.starts_with(b"# line ") && !line.starts_with(b"# round ") {
            kept.extend_from_slice(line)?;
            kept.push(b'\n')?;
        }
    }
    Ok(kept)
}

#[test]
fn rounds_say_what_their_events_say(rt: HostRuntime) -> Result<(), Fail> {
    let alloc = rt.alloc();
    for seed in 0..24u32 {
        let text = schedule(alloc, seed)?;
        let (rounds, got) = traced(&rt, alloc, text.as_bytes());
        assert!(rt; got == Some(0), "seed {seed}");
        let (events, got) = traced(&rt, alloc, rounds.as_slice());
        assert!(rt; got == Some(0), "seed {seed}");
        let (one, other) = (
            events_of(alloc, rounds.as_slice())?,
            events_of(alloc, events.as_slice())?,
        );
        assert!(rt; one.as_slice() == other.as_slice(), "seed {seed}");
    }
    Ok(())
}
