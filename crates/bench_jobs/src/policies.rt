//! Networks whose policies decide what comes out, and the orders that are tried on them.

use crate::dice::Dice;
use crate::networks::{Net, push_number};
use std::alloc::{AllocError, Global};

// What routers prefer of which a network is made: the places of its routers, and for each that has a rule the paths
// that it permits, best first, without itself.
struct Policy {
    routers: u32,
    links: &'static [(u32, u32)],
    rules: &'static [(u32, &'static [&'static [u32]])],
}

// The bad gadget, which never settles; DISAGREE, which settles in one of two ways; and a wedgie (RFC 4264).
static BAD_GADGET: Policy = Policy {
    routers: 4,
    links: &[(0, 1), (0, 2), (0, 3), (1, 2), (2, 3), (1, 3)],
    rules: &[
        (1, &[&[2, 0], &[0]]),
        (2, &[&[3, 0], &[0]]),
        (3, &[&[1, 0], &[0]]),
    ],
};

static DISAGREE: Policy = Policy {
    routers: 3,
    links: &[(0, 1), (0, 2), (1, 2)],
    rules: &[(1, &[&[2, 0], &[0]]), (2, &[&[1, 0], &[0]])],
};

static WEDGIE: Policy = Policy {
    routers: 4,
    links: &[(0, 3), (0, 1), (1, 2), (2, 3)],
    rules: &[
        (1, &[&[2, 3, 0], &[0]]),
        (2, &[&[1, 0], &[3, 0]]),
        (3, &[&[0], &[2, 1, 0]]),
    ],
};

// Appends the rules of a policy for a prefix, whose routers stand from this place on.
fn push_rules(
    text: &mut String,
    net: &Net,
    policy: &Policy,
    from: u32,
    prefix: u32,
) -> Result<(), AllocError> {
    for (place, paths) in policy.rules {
        let owner = net.number(from.wrapping_add(*place));
        write!(text, "rank {owner} 10.{prefix}.0.0/16")?;
        for path in *paths {
            write!(text, " {owner}")?;
            for place in *path {
                let number = net.number(from.wrapping_add(*place));
                write!(text, "-{number}")?;
            }
        }
        writeln!(text, "")?;
    }
    Ok(())
}

// A network of so many copies of a policy, each linked with the next one by their origins.
fn net_of(alloc: Global, policy: &Policy, copies: u32, first: u32) -> Result<Net, AllocError> {
    let mut net = Net::new(alloc, policy.routers.saturating_mul(copies), first);
    for copy in 0..copies {
        let from = policy.routers.wrapping_mul(copy);
        for (low, high) in policy.links {
            net.links
                .push((from.wrapping_add(*low), from.wrapping_add(*high)))?;
        }
        if copy > 0 {
            net.links.push((from.wrapping_sub(policy.routers), from))?;
        }
    }
    Ok(net)
}

// Appends the network, and the orders that start it: each copy originates a prefix of its own.
fn push_copies(
    text: &mut String,
    net: &Net,
    policy: &Policy,
    copies: u32,
) -> Result<(), AllocError> {
    net.push_to(text)?;
    for copy in 0..copies {
        let origin = net.number(policy.routers.wrapping_mul(copy));
        writeln!(text, "origin {origin} 10.{copy}.0.0/16")?;
    }
    for copy in 0..copies {
        push_rules(text, net, policy, policy.routers.wrapping_mul(copy), copy)?;
    }
    writeln!(text, "schedule")?;
    net.push_starts(text)?;
    for copy in 0..copies {
        let origin = net.number(policy.routers.wrapping_mul(copy));
        writeln!(text, "originate {origin} 10.{copy}.0.0/16")?;
    }
    Ok(())
}

/// Bad gadgets side by side, which play so many rounds.
pub fn gadgets(
    alloc: Global,
    dice: &mut Dice,
    copies: u32,
    rounds: u32,
) -> Result<String, AllocError> {
    let net = net_of(
        alloc,
        &BAD_GADGET,
        copies,
        dice.below(60_000).wrapping_add(1),
    )?;
    let mut text = String::new(alloc);
    push_copies(&mut text, &net, &BAD_GADGET, copies)?;
    writeln!(&mut text, "rounds {rounds}")?;
    Ok(text)
}

// Appends a line of a word, a router, and a peer if there is one.
fn push_words(
    text: &mut String,
    word: &str,
    router: u32,
    peer: Option<u32>,
) -> Result<(), AllocError> {
    text.push_str(word)?;
    push_number(text, router)?;
    if let Some(peer) = peer {
        text.push_str(" ")?;
        push_number(text, peer)?;
    }
    text.push_str("\n")
}

// Appends an order of one event, at routers that are linked.
fn push_order(text: &mut String, net: &Net, dice: &mut Dice) -> Result<(), AllocError> {
    let place = dice.below(net.links.len().min(64) as u32) as usize;
    let Some((low, high)) = net.links.get(place) else {
        return Ok(());
    };
    let one = net.number(*low);
    let other = net.number(*high);
    match dice.below(8) {
        0 => push_words(text, "put ", one, Some(other)),
        1 => push_words(text, "put ", other, Some(one)),
        2 => push_words(text, "take ", one, Some(other)),
        3 => push_words(text, "take ", other, Some(one)),
        4 => push_words(text, "handle ", one, Some(other)),
        5 => push_words(text, "handle ", other, Some(one)),
        6 => push_words(text, "decide ", other, None),
        _ => push_words(text, "advertise ", other, None),
    }
}

/// A small world that goes its way by so many orders at random, and then by rounds until a snapshot.
pub fn tried(alloc: Global, dice: &mut Dice, orders: u32) -> Result<String, AllocError> {
    let policy = if dice.below(2) == 0 {
        &DISAGREE
    } else {
        &WEDGIE
    };
    let net = net_of(alloc, policy, 1, dice.below(60_000).wrapping_add(1))?;
    let mut text = String::new(alloc);
    push_copies(&mut text, &net, policy, 1)?;
    writeln!(&mut text, "rounds 8")?;
    for _ in 0..orders {
        push_order(&mut text, &net, dice)?;
    }
    let first = net.first;
    writeln!(&mut text, "rounds 40\nsnapshot {first} 1\nrounds 20")?;
    Ok(text)
}

/// A bad gadget that plays so many rounds, its origin linked with a line of routers that soon rest.
pub fn gadget_among(
    alloc: Global,
    dice: &mut Dice,
    others: u32,
    rounds: u32,
) -> Result<String, AllocError> {
    let mut net = net_of(alloc, &BAD_GADGET, 1, dice.below(60_000).wrapping_add(1))?;
    let inside = net.routers;
    net.routers = inside.saturating_add(others);
    for place in inside..net.routers {
        let before = if place == inside {
            0
        } else {
            place.saturating_sub(1)
        };
        net.links.push((before, place))?;
    }
    let mut text = String::new(alloc);
    push_copies(&mut text, &net, &BAD_GADGET, 1)?;
    writeln!(&mut text, "rounds {rounds}")?;
    Ok(text)
}
