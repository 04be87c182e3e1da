use ranked_policy::{Asn, NetBuilder, Network, Settings};
use router_core::Router;
use std::alloc::Global;
use std::mem::forget;
use std::process::Abort;
use std::test::Fail;

mod answers;
mod beginnings;
mod carried;
mod choosing;
mod items;
mod offering;
mod offers;
mod places;
mod recording;
mod room;
mod sessions;
mod sides;
mod steps;
mod strays;
mod walking;
mod whole;
mod wide;

use beginnings::Beginning;
use steps::{Named, Step, plays_all, prefix};

// Routers and networks are left, not dropped: each way out of a function that drops them is proved with the drop
// of all that they hold.

fn push_origin(net: &mut NetBuilder, hub: Asn, named: Named) -> Result<(), Fail> {
    Ok(net.push_origin(hub, prefix(named).ok_or("a prefix")?)?)
}

// The hub has identifier 10.0.0.1, router 2 has 10.0.0.2, and so on; a link joins the hub and each other. The hub is
// the origin of 10.1.0.0/16, where it is not alone, and beside 3 of 10.0.0.0/8 too.
fn push_star(net: &mut NetBuilder, hub: Asn, routers: u32) -> Result<(), Fail> {
    net.push_router(hub, 0x0a00_0001)?;
    for number in 2..=routers {
        net.push_router(number, 0x0a00_0000 | number)?;
        net.push_link(hub, number)?;
    }
    if routers == 3 {
        push_origin(net, hub, Named::Least)?;
    }
    if routers > 1 {
        push_origin(net, hub, Named::Greatest)?;
    }
    Ok(())
}

// What was built is the network, where all was pushed.
fn finished(net: NetBuilder, pushed: Result<(), Fail>) -> Result<Network, Fail> {
    if let Err(error) = pushed {
        forget(net);
        return Err(error);
    }
    match net.finish() {
        Ok(net) => Ok(net),
        Err((net, error)) => {
            forget(net);
            Err(error.into())
        }
    }
}

fn star(alloc: Global, from: &Beginning) -> Result<Network, Fail> {
    let settings = Settings {
        hold: 90,
        restart: 0,
        cut: from.cut,
        pipe: 64,
        width: from.width,
    };
    let mut net = NetBuilder::new(alloc, settings)?;
    let pushed = push_star(&mut net, from.hub, from.routers);
    finished(net, pushed)
}

fn router(alloc: Global, net: &Network, number: Asn) -> Result<Router<'_>, Fail> {
    if !net.has_router(number) {
        return Err("the network has that router".into());
    }
    Ok(Router::new(alloc, net, number)?)
}

// A script, in parts, of the router of a beginning.
struct Case {
    name: &'static str,
    from: Beginning,
    script: &'static [&'static [Step<'static>]],
}

// The part of a script, and the place in it, of the first step that does not go as it says; the steps that come first
// have to go.
fn plays_behind(
    alloc: Global,
    router: &mut Router<'_>,
    case: &Case,
) -> Result<Option<(usize, usize)>, Fail> {
    if plays_all(alloc, router, case.from.first).is_some() {
        return Err("what comes before the script goes".into());
    }
    Ok(plays_all(alloc, router, case.script))
}

fn plays_in(alloc: Global, net: &Network, case: &Case) -> Result<Option<(usize, usize)>, Fail> {
    let mut router = router(alloc, net, case.from.number)?;
    let outcome = plays_behind(alloc, &mut router, case);
    forget(router);
    outcome
}

fn plays_from(alloc: Global, case: &Case) -> Result<Option<(usize, usize)>, Fail> {
    let net = star(alloc, &case.from)?;
    let outcome = plays_in(alloc, &net, case);
    forget(net);
    outcome
}

// Each step of each script goes as it says; a failure names the first that does not.
fn asks(rt: &impl Abort, alloc: Global, cases: &[Case]) -> Result<(), Fail> {
    for case in cases {
        let stops = plays_from(alloc, case)?;
        assert!(rt; stops == None, "{}: at {stops:?}", case.name);
    }
    Ok(())
}
