//! Networks with many rules, and an assignment that is stable, as `check` reads them.

use crate::dice::Dice;
use crate::networks::{Net, push_number};
use std::alloc::{AllocError, Global};

// How far a link of the network reaches round its ring of routers.
const REACH: u32 = 8;

/// How many rules a router has, and how many paths each of them at most.
#[derive(Clone, Copy)]
pub struct RuleCounts {
    pub routers: u32,
    pub prefixes: u32,
    pub rules: u32,
    pub paths: u32,
}

// The places, round the ring, of a network whose routers are linked with the next ones on both sides.
#[derive(Drop)]
struct Ring {
    net: Net,
}

impl Ring {
    fn new(alloc: Global, routers: u32, first: u32) -> Result<Ring, AllocError> {
        let mut net = Net::new(alloc, routers, first);
        for place in 0..routers {
            for step in 1..=REACH {
                let other = place.saturating_add(step).checked_rem(routers).unwrap_or(0);
                net.links.push((place, other))?;
            }
        }
        Ok(Ring { net })
    }

    // How far it is from one place forward to another.
    fn ahead(&self, from: u32, to: u32) -> u32 {
        let count = self.net.routers;
        to.saturating_add(count)
            .saturating_sub(from)
            .checked_rem(count)
            .unwrap_or(0)
    }

    // The place so many steps forward.
    fn forward(&self, from: u32, steps: u32) -> u32 {
        from.saturating_add(steps)
            .checked_rem(self.net.routers)
            .unwrap_or(0)
    }

    // The place so many steps backward.
    fn backward(&self, from: u32, steps: u32) -> u32 {
        self.forward(from, self.net.routers.saturating_sub(steps))
    }

    // How many links the shortest way has.
    fn distance(&self, from: u32, to: u32) -> u32 {
        let ahead = self.ahead(from, to);
        ahead.min(self.ahead(to, from)).saturating_add(REACH - 1) / REACH
    }

    // The peer with the least number from which the way is a link shorter.
    fn nearer(&self, from: u32, to: u32) -> u32 {
        let wanted = self.distance(from, to).saturating_sub(1);
        let mut found = to;
        let mut least = self.net.routers;
        for step in 1..=REACH {
            for place in [self.forward(from, step), self.backward(from, step)] {
                if place < least && self.distance(place, to) == wanted {
                    found = place;
                    least = place;
                }
            }
        }
        found
    }

    // The best path, by length and then by the numbers.
    fn best(&self, alloc: Global, from: u32, to: u32) -> Result<Vec<u32>, AllocError> {
        let mut path = Vec::new(alloc);
        path.push(from)?;
        let mut at = from;
        for _ in 0..self.distance(from, to) {
            at = self.nearer(at, to);
            path.push(at)?;
        }
        Ok(path)
    }

    // A longer path, forward round the ring; paths with other first steps are others.
    fn longer(
        &self,
        alloc: Global,
        dice: &mut Dice,
        ends: (u32, u32),
        steps: (u32, u32),
    ) -> Result<Vec<u32>, AllocError> {
        let (from, to) = ends;
        let mut path = Vec::new(alloc);
        let mut at = from;
        path.push(at)?;
        for number in 0..self.net.routers {
            let left = self.ahead(at, to);
            if left == 0 {
                break;
            }
            let step = match number {
                0 => steps.0,
                1 => steps.1,
                _ => dice.below(3).wrapping_add(6),
            };
            at = self.forward(at, step.min(left));
            path.push(at)?;
        }
        Ok(path)
    }

    fn push_path(&self, text: &mut String, path: &[u32]) -> Result<(), AllocError> {
        let mut mark = " ";
        for place in path {
            text.push_str(mark)?;
            push_number(text, self.net.number(*place))?;
            mark = "-";
        }
        Ok(())
    }

    // Appends a rule, whose best path is the best of all.
    fn push_rule(
        &self,
        text: &mut String,
        alloc: Global,
        dice: &mut Dice,
        ends: (u32, u32),
        paths: u32,
    ) -> Result<(), AllocError> {
        let best = self.best(alloc, ends.0, ends.1)?;
        self.push_path(text, best.as_slice())?;
        // (where the origin is near, few paths go forward to it)
        let count = if self.ahead(ends.0, ends.1) > 16 {
            paths
        } else {
            1
        };
        for number in 1..count {
            let steps = (
                (number % 8).wrapping_add(1),
                ((number / 8) % 4).wrapping_add(5),
            );
            let path = self.longer(alloc, dice, ends, steps)?;
            if path.as_slice() != best.as_slice() {
                self.push_path(text, path.as_slice())?;
            }
        }
        Ok(())
    }
}

// Appends the beginning of a line: a word, a router, and a prefix.
fn push_head(text: &mut String, word: &str, owner: u32, prefix: u32) -> Result<(), AllocError> {
    text.push_str(word)?;
    push_number(text, owner)?;
    text.push_str(" 10.")?;
    push_number(text, prefix)?;
    text.push_str(".0.0/16")
}

/// A network with rules, and the assignment in which each router has its best path.
pub fn assigned(alloc: Global, dice: &mut Dice, rules: &RuleCounts) -> Result<String, AllocError> {
    let first = dice.below(60_000).wrapping_add(1);
    let ring = Ring::new(alloc, rules.routers, first)?;
    let mut text = String::new(alloc);
    ring.net.push_to(&mut text)?;
    ring.net.push_prefixes(&mut text, "origin", rules.prefixes)?;
    let between = rules.prefixes.checked_div(rules.rules).unwrap_or(1).max(1);
    for place in 0..rules.routers {
        let owner = ring.net.number(place);
        for number in 0..rules.rules {
            let prefix = number
                .wrapping_mul(between)
                .wrapping_add(dice.below(between));
            let root = prefix.checked_rem(rules.routers).unwrap_or(0);
            push_head(&mut text, "rank ", owner, prefix)?;
            ring.push_rule(&mut text, alloc, dice, (place, root), rules.paths)?;
            text.push_str("\n")?;
        }
    }
    writeln!(&mut text, "assignment")?;
    for place in 0..rules.routers {
        let owner = ring.net.number(place);
        for prefix in 0..rules.prefixes {
            let root = prefix.checked_rem(rules.routers).unwrap_or(0);
            let best = ring.best(alloc, place, root)?;
            push_head(&mut text, "path ", owner, prefix)?;
            ring.push_path(&mut text, best.as_slice())?;
            text.push_str("\n")?;
        }
    }
    Ok(text)
}
