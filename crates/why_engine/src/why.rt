//! The text printed of a router of a world.

ghost use Rattle.std.specs.Prelude.{◌≡◌, ◌++◌, IfOk, OnOk};
ghost use Rattle.ranked_policy.specs.Plans.{IsRouter};
ghost use Rattle.router_core.specs.Views.{plain_of};
ghost use Rattle.text_engines.specs.declared.status.TheConstants.{DONE};
ghost use Rattle.text_engines.specs.Decoding.{output};
ghost use Rattle.why_engine.specs.Explaining.{ArePeers, ExplainsWorld, pipes_to, router_text};
ghost use Rattle.router_model.specs.Settings.{peers};

use crate::lines::put_router_line;
use crate::prefixes::put_prefixes;
use crate::sessions::put_peers;
use net_text::Code;
use ranked_policy::{Asn, Network, Origin, PolicyTable};
use router_core::Router;
use std::alloc::{AllocError, Global};
use text_engines::refused_output;
use text_engines::status::DONE;
use world_core::World;

// Appends a router.
fn put_router(
    alloc: Global,
    world: &World<'_>,
    router: &Router<'_>,
    table: &PolicyTable<'_>,
    peers: &[Asn],
    origins: &[Origin],
    out: &mut Vec<u8>,
) -> Result<(), AllocError>
    requires same { world.now.net ≡ router.now.net }
    requires there { IsRouter router.now.net.routers router.now.number }
    requires peers { ArePeers router.now peers.now }
    requires origins { origins.now ≡ router.now.net.origins }
    ensures { OnOk result
        (out.new.items
        ≡ out.old.items
        ++ router_text router.now.number table.now (plain_of router.now).router
        (pipes_to world.now router.now.number) peers.now origins.now) }
{
    put_router_line(router.number(), out)?;
    put_peers(alloc, world, router, peers, out)?;
    put_prefixes(alloc, router, table, peers, origins, out)
}

// The text printed of a router, and the exit status.
fn router_output(
    alloc: Global,
    network: &Network,
    world: &World<'_>,
    router: &Router<'_>,
    table: &PolicyTable<'_>,
) -> Result<(Vec<u8>, u8), AllocError>
    requires net { router.now.net ≡ network.now }
    requires same { world.now.net ≡ router.now.net }
    requires there { IsRouter router.now.net.routers router.now.number }
    ensures { IfOk result
        (λ printed. output printed.0.items printed.1
        ≡ output
        (router_text router.now.number table.now (plain_of router.now).router
        (pipes_to world.now router.now.number) (peers router.now.net router.now.number)
        router.now.net.origins) DONE) }
{
    let peers = network.peers(alloc, router.number())?.into_vec();
    let mut out = Vec::new(alloc);
    put_router(
        alloc,
        world,
        router,
        table,
        peers.as_slice(),
        network.origins(),
        &mut out,
    )?;
    Ok((out, DONE))
}

/// The text printed of the router of this number, and the exit status: its sessions, and for each prefix the path that
/// it keeps, what its peers said of it, and which peers it told. If the network has no such router, it is a refusal of
/// line 0.
pub fn why_output(
    alloc: Global,
    network: &Network,
    world: &World<'_>,
    number: Asn,
) -> Result<(Vec<u8>, u8), AllocError>
    requires { world.now.net ≡ network.now }
    ensures { IfOk result (λ printed. ExplainsWorld number world.now (output printed.0.items printed.1)) }
{
    match network.policies(number) {
        Some(table) => match world.router(number) {
            Some(router) => router_output(alloc, network, world, router, &table),
            // The world has every router of its network.
            None => unreachable!(),
        },
        None => refused_output(alloc, 0, Code::UnknownRouter.text()),
    }
}
