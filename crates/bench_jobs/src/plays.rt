//! Schedules of networks without rules: convergence and failures, snapshots, seconds that pass.

use crate::dice::Dice;
use crate::networks::Net;
use std::alloc::{AllocError, Global};

/// The shapes of networks.
#[derive(Clone, Copy)]
pub enum Shape {
    /// Each router is linked with the next one.
    Line,
    /// A line whose ends are linked.
    Ring,
    /// Each router is linked with each.
    Mesh,
    /// Two links a router, at random.
    Random,
}

/// A network without rules, and how much it has to do.
#[derive(Clone, Copy)]
pub struct Plan {
    /// Its shape.
    pub shape: Shape,
    /// How many routers there are.
    pub routers: u32,
    /// How many prefixes there are, at most 256.
    pub prefixes: u32,
    /// The rounds that it plays at first.
    pub rounds: u32,
}

/// The least number of a router that has four octets.
const WIDE: u32 = 65_536;

fn net_of(alloc: Global, dice: &mut Dice, plan: &Plan, least: u32) -> Result<Net, AllocError> {
    let first = least.wrapping_add(dice.below(60_000)).wrapping_add(1);
    let mut net = Net::new(alloc, plan.routers, first);
    match plan.shape {
        Shape::Line => net.join_line(false)?,
        Shape::Ring => net.join_line(true)?,
        Shape::Mesh => net.join_all()?,
        Shape::Random => net.join_at_random(dice)?,
    }
    Ok(net)
}

// A network, and its text behind a head: it comes to rest.
fn started(
    alloc: Global,
    dice: &mut Dice,
    plan: &Plan,
    head: &str,
    least: u32,
) -> Result<(Net, String), AllocError> {
    let net = net_of(alloc, dice, plan, least)?;
    let mut text = String::new(alloc);
    text.push_str(head)?;
    net.push_to(&mut text)?;
    net.push_prefixes(&mut text, "origin", plan.prefixes)?;
    writeln!(&mut text, "schedule")?;
    net.push_starts(&mut text)?;
    net.push_prefixes(&mut text, "originate", plan.prefixes)?;
    let rounds = plan.rounds;
    writeln!(&mut text, "rounds {rounds}")?;
    Ok((net, text))
}

// A link of a network, at random.
fn link_of(net: &Net, dice: &mut Dice) -> (u32, u32) {
    let place = dice.below(net.links.len().min(4096) as u32) as usize;
    match net.links.get(place) {
        Some(link) => *link,
        None => (0, 0),
    }
}

/// A network that comes to rest; then so many sessions fail and come back, and as many prefixes go and come back.
pub fn failures(
    alloc: Global,
    dice: &mut Dice,
    plan: &Plan,
    is_wide: bool,
    count: u32,
) -> Result<String, AllocError> {
    let (head, least) = if is_wide { ("asn 4\n", WIDE) } else { ("", 0) };
    let (net, mut text) = started(alloc, dice, plan, head, least)?;
    for _ in 0..count {
        let link = link_of(&net, dice);
        let one = net.number(link.0);
        let other = net.number(link.1);
        writeln!(&mut text, "reset {one} {other}\nrounds 20")?;
        writeln!(&mut text, "start {other} {one}\nrounds 300")?;
        let prefix = dice.below(plan.prefixes);
        let origin = net.origin(prefix);
        writeln!(&mut text, "withdraw {origin} 10.{prefix}.0.0/16\nrounds 40")?;
        writeln!(
            &mut text,
            "originate {origin} 10.{prefix}.0.0/16\nrounds 40"
        )?;
    }
    Ok(text)
}

/// A network that comes to rest; then so many snapshots, of the router at the first place or of any.
pub fn snapshots(
    alloc: Global,
    dice: &mut Dice,
    plan: &Plan,
    is_first: bool,
    count: u32,
) -> Result<String, AllocError> {
    let (net, mut text) = started(alloc, dice, plan, "", 0)?;
    for number in 1..=count {
        let place = if is_first {
            0
        } else {
            dice.below(plan.routers)
        };
        let router = net.number(place);
        let rounds = plan.routers.saturating_mul(3).saturating_add(dice.below(8));
        writeln!(&mut text, "snapshot {router} {number}\nrounds {rounds}")?;
    }
    Ok(text)
}

/// A network at rest in which KEEPALIVEs pass for so many seconds.
pub fn seconds(
    alloc: Global,
    dice: &mut Dice,
    plan: &Plan,
    count: u32,
) -> Result<String, AllocError> {
    let (net, mut text) = started(alloc, dice, plan, "", 0)?;
    for _ in 0..count {
        let rounds = dice.below(3).wrapping_add(3);
        writeln!(&mut text, "ticks 1\nrounds {rounds}")?;
    }
    Ok(text)
}

/// A network at rest without a hold time, in which so many seconds pass and nothing happens.
pub fn quiet_seconds(
    alloc: Global,
    dice: &mut Dice,
    plan: &Plan,
    count: u32,
) -> Result<String, AllocError> {
    let (net, mut text) = started(alloc, dice, plan, "hold 0\n", 0)?;
    writeln!(&mut text, "ticks {count}")?;
    Ok(text)
}

/// A network in which so many times nothing passes any more until the hold time runs out at each router, and the
/// sessions come back.
pub fn silences(
    alloc: Global,
    dice: &mut Dice,
    plan: &Plan,
    count: u32,
) -> Result<String, AllocError> {
    let (net, mut text) = started(alloc, dice, plan, "hold 30\nrestart 5\n", 0)?;
    for _ in 0..count {
        let ticks = dice.below(10).wrapping_add(31);
        writeln!(&mut text, "ticks {ticks}\nrounds 100\nticks 6\nrounds 200")?;
    }
    Ok(text)
}
