//! `refused_calls`: what a call leaves that is refused for want of memory.
//!
//! Each call is asked of two values that the same calls made. Where it is refused for want of memory, its value is to be as
//! the other by every reader, and the same call again is to answer what it answers of the other. A line for each kind of
//! call says whether it was so; the status is 1 where it was not. `memory` alone, with status 3, says that a growth was
//! refused of what the comparison is made of.
//!
//! With ample memory it shows only that two values go on alike. `sweeps/run` refuses each of its growths in turn.
#![tactic(auto)]

mod asking;
mod boards;
mod messages;
mod readings;
mod routers;
mod worlds;

use net_text::read_network;
use ranked_policy::Network;
use std::alloc::{AllocError, Global};
use std::io;
use std::process::ExitCode;

// Two routers, of which the first originates two prefixes.
const NETWORK: &[u8] = b"router 1 10.0.0.1\nrouter 2 10.0.0.2\nlink 1 2\n\
    origin 1 10.1.0.0/16\norigin 1 10.2.0.0/16\n";

// Of each kind of call whether the values were alike.
#[derive(Clone, Copy)]
struct Alike {
    encode: bool,
    router: bool,
    board: bool,
    world: bool,
}

fn ask_in(alloc: Global, network: &Network) -> Result<Alike, AllocError> {
    Ok(Alike {
        encode: messages::are_alike(alloc)?,
        router: routers::are_alike(alloc, network)?,
        board: boards::are_alike(alloc, network)?,
        world: worlds::are_alike(alloc, network)?,
    })
}

fn ask(alloc: Global) -> Result<Alike, AllocError> {
    match read_network(alloc, NETWORK) {
        Ok(network) => ask_in(alloc, &network),
        Err(_) => Err(AllocError),
    }
}

// Prints how a kind of call went.
fn print_kind(rt: &impl Print, kind: &str, alike: bool) -> io::Result<()> {
    let said = if alike {
        "as it was, and again"
    } else {
        "otherwise"
    };
    println!(rt; "{kind}: {said}")
}

fn print_all(rt: &impl Print, alike: Alike) -> io::Result<ExitCode> {
    print_kind(rt, "encode", alike.encode)?;
    print_kind(rt, "router", alike.router)?;
    print_kind(rt, "board", alike.board)?;
    print_kind(rt, "world", alike.world)?;
    if alike.encode && alike.router && alike.board && alike.world {
        Ok(ExitCode::SUCCESS)
    } else {
        Ok(ExitCode::FAILURE)
    }
}

fn main(rt: HostRuntime) -> io::Result<ExitCode> {
    match ask(rt.alloc()) {
        Ok(alike) => print_all(&rt, alike),
        Err(AllocError) => {
            println!(rt; "memory")?;
            Ok(ExitCode::from(3))
        }
    }
}
