//! The order that a line of a schedule spells.

use net_text::read_network;
use prefix_lanes::Prefix;
use ranked_policy::Network;
use router_model::Command;
use schedule_text::{ScheduledOrder, read_schedule};
use std::alloc::{AllocError, Global};
use std::process::Abort;
use std::test::Fail;
use world_core::{Event, Order};

// Two routers and their link, and a prefix.
const PAIR: &[u8] = b"router 1 10.0.0.1\nrouter 2 10.0.0.2\nlink 1 2\norigin 1 10.1.0.0/16\n";

// A command of router 1.
fn command(command: Command) -> Order {
    Order::One(Event::Command(1, command))
}

// Lines of commands, with their orders.
fn commands(prefix: Prefix) -> [(&'static [u8], Order); 8] {
    [
        (b"start 1 2", command(Command::Start(2))),
        (b"  stop\t01 2 ", command(Command::Stop(2))),
        (b"reset 1 1\r\n", command(Command::Reset(1))),
        (
            b"originate 1 10.1.0.0/16",
            command(Command::Originate(prefix)),
        ),
        (
            b"withdraw 1 10.1.2.3/16",
            command(Command::Withdraw(prefix)),
        ),
        (b"snapshot 1 1", command(Command::Snapshot(1))),
        (
            b"snapshot 1 4294967295",
            command(Command::Snapshot(4_294_967_295)),
        ),
        (b"restart 1\n\n", command(Command::Restart)),
    ]
}

// Lines of other events, and of counts, with their orders.
fn steps() -> [(&'static [u8], Order); 10] {
    [
        (b"tick 2", Order::One(Event::Tick(2))),
        (b"put 1 2", Order::One(Event::Put(1, 2))),
        (b"take 1 2", Order::One(Event::Take(1, 2))),
        (b"handle 1 2", Order::One(Event::Handle(1, 2))),
        (b"decide 2", Order::One(Event::Decide(2))),
        (b"advertise 2", Order::One(Event::Advertise(2))),
        (b"offer 2", Order::One(Event::Offer(2))),
        (b"rounds 1", Order::Rounds(1)),
        (b"rounds 1000000", Order::Rounds(1_000_000)),
        (b"ticks 1000000", Order::Ticks(1_000_000)),
    ]
}

// Whether the line, behind two others, orders this alone.
fn is_ordered(
    alloc: Global,
    network: &Network,
    line: &[u8],
    order: Order,
) -> Result<bool, AllocError> {
    let mut text = b"# \xff\n\t \r\n".to_vec(alloc)?;
    text.extend_from_slice(line)?;
    let wanted = [ScheduledOrder { line: 8, order }];
    Ok(match read_schedule(alloc, text.as_slice(), 5, network) {
        Ok(orders) => orders.as_slice() == wanted.as_slice(),
        Err(_) => false,
    })
}

fn expect_orders(
    rt: &impl Abort,
    alloc: Global,
    network: &Network,
    rows: &[(&[u8], Order)],
) -> Result<(), Fail> {
    for (line, order) in rows {
        assert!(rt; is_ordered(alloc, network, line, *order)?, "{line:?}");
    }
    Ok(())
}

fn each_order_in(
    rt: &impl Abort,
    alloc: Global,
    network: &Network,
    prefix: Prefix,
) -> Result<(), Fail> {
    expect_orders(rt, alloc, network, &commands(prefix))?;
    expect_orders(rt, alloc, network, &steps())
}

#[test]
fn each_order_is_read_as_its_words_say(rt: HostRuntime) -> Result<(), Fail> {
    let prefix = Prefix::new(0x0a01_0000, 16).ok_or("no prefix")?;
    match read_network(rt.alloc(), PAIR) {
        Ok(network) => each_order_in(&rt, rt.alloc(), &network, prefix),
        Err(_) => Err("refused".into()),
    }
}
