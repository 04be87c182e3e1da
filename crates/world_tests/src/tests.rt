use bgp_values::Width;
use prefix_lanes::Prefix;
use ranked_policy::{NetBuilder, NetError, Network, Settings};
use std::alloc::Global;
use std::test::Fail;

mod pipes;
mod playing;
mod scripts;
mod sleepers;
mod threads;
mod through;
mod watching;

fn push_two_routers(net: &mut NetBuilder, prefix: Prefix) -> Result<(), NetError> {
    net.push_router(1, 0x0a00_0001)?;
    net.push_router(2, 0x0a00_0002)?;
    net.push_link(1, 2)?;
    net.push_origin(1, prefix)
}

fn push_one_router(net: &mut NetBuilder, prefix: Prefix) -> Result<(), NetError> {
    net.push_router(1, 0x0a00_0001)?;
    net.push_origin(1, prefix)
}

fn new_network(alloc: Global) -> Result<NetBuilder, NetError> {
    let settings = Settings {
        hold: 90,
        restart: 0,
        cut: 4096,
        pipe: 64,
        width: Width::Two,
    };
    NetBuilder::new(alloc, settings)
}

fn finished(net: NetBuilder) -> Result<Network, Fail> {
    match net.finish() {
        Ok(net) => Ok(net),
        Err((_, error)) => Err(error.into()),
    }
}

// Routers 1 and 2 of one link, router 1 the origin of 10.1.0.0/16.
fn two_routers(alloc: Global, prefix: Prefix) -> Result<Network, Fail> {
    let mut net = new_network(alloc)?;
    push_two_routers(&mut net, prefix)?;
    finished(net)
}

// Router 1 alone, the origin of 10.1.0.0/16.
fn one_router(alloc: Global, prefix: Prefix) -> Result<Network, Fail> {
    let mut net = new_network(alloc)?;
    push_one_router(&mut net, prefix)?;
    finished(net)
}
