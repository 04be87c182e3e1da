//! Texts of networks: their routers stand at places from 0 on, and have numbers from a first one on.

use crate::dice::Dice;
use itoa::Buffer;
use std::alloc::{AllocError, Global};

/// Appends a number.
pub fn push_number(text: &mut String, number: u32) -> Result<(), AllocError> {
    let mut buffer = Buffer::new();
    text.push_str(buffer.format(number))
}

/// A network.
#[derive(Drop)]
pub struct Net {
    /// How many routers there are.
    pub routers: u32,
    /// The number of the router at place 0.
    pub first: u32,
    /// The two ends of each link.
    pub links: Vec<(u32, u32)>,
}

// The most links that a router gets of a network that is made at random.
const MOST_LINKS: usize = 12;

impl Net {
    /// One of so many routers without a link.
    pub fn new(alloc: Global, routers: u32, first: u32) -> Net {
        Net {
            routers,
            first,
            links: Vec::new(alloc),
        }
    }

    /// The number of the router at a place.
    pub fn number(&self, place: u32) -> u32 {
        self.first.wrapping_add(place)
    }

    fn has_link(&self, low: u32, high: u32) -> bool {
        self.links.iter().any(|link| *link == (low, high))
    }

    fn links_of(&self, place: u32) -> usize {
        let mut found = 0usize;
        for (low, high) in &self.links {
            if *low == place || *high == place {
                found = found.saturating_add(1);
            }
        }
        found
    }

    // Whether a link may join two routers.
    fn has_room(&self, low: u32, high: u32) -> bool {
        low < high
            && !self.has_link(low, high)
            && self.links_of(low) < MOST_LINKS
            && self.links_of(high) < MOST_LINKS
    }

    /// Links each router with the next one, and with `is_ring` the last with the first.
    pub fn join_line(&mut self, is_ring: bool) -> Result<(), AllocError> {
        let count = self.routers;
        for high in 1..count {
            self.links.push((high.saturating_sub(1), high))?;
        }
        if is_ring && count > 2 {
            self.links.push((0, count.saturating_sub(1)))?;
        }
        Ok(())
    }

    /// Links each router with each.
    pub fn join_all(&mut self) -> Result<(), AllocError> {
        for high in 0..self.routers {
            for low in 0..high {
                self.links.push((low, high))?;
            }
        }
        Ok(())
    }

    /// Links each router with one before it, and then some two, up to two links a router.
    pub fn join_at_random(&mut self, dice: &mut Dice) -> Result<(), AllocError> {
        let count = self.routers;
        for high in 1..count {
            let low = dice.below(high);
            let low = if self.has_room(low, high) {
                low
            } else {
                high.saturating_sub(1)
            };
            self.links.push((low, high))?;
        }
        for _ in 0..count.saturating_mul(16) {
            let low = dice.below(count);
            let high = dice.below(count);
            let has_all = self.links.len() >= count.saturating_mul(2) as usize;
            if !has_all && self.has_room(low, high) {
                self.links.push((low, high))?;
            }
        }
        Ok(())
    }

    /// Appends the lines of the routers and of the links.
    pub fn push_to(&self, text: &mut String) -> Result<(), AllocError> {
        for place in 0..self.routers {
            let number = self.number(place);
            let low = place % 250;
            let high = place / 250;
            writeln!(text, "router {number} 10.{high}.{low}.1")?;
        }
        for (low, high) in &self.links {
            let one = self.number(*low);
            let other = self.number(*high);
            writeln!(text, "link {one} {other}")?;
        }
        Ok(())
    }

    /// Appends the orders that start the session of a link.
    pub fn push_start(&self, text: &mut String, link: (u32, u32)) -> Result<(), AllocError> {
        let one = self.number(link.0);
        let other = self.number(link.1);
        writeln!(text, "start {one} {other}")?;
        writeln!(text, "start {other} {one}")
    }

    /// Appends the orders that start every session.
    pub fn push_starts(&self, text: &mut String) -> Result<(), AllocError> {
        for link in &self.links {
            self.push_start(text, *link)?;
        }
        Ok(())
    }

    /// The number of the router that originates the prefix of a number: each has its turn.
    pub fn origin(&self, prefix: u32) -> u32 {
        match prefix.checked_rem(self.routers) {
            Some(place) => self.number(place),
            None => self.first,
        }
    }

    /// Appends so many lines that begin with this word and have a prefix each, behind its origin.
    pub fn push_prefixes(
        &self,
        text: &mut String,
        word: &str,
        prefixes: u32,
    ) -> Result<(), AllocError> {
        for prefix in 0..prefixes {
            let origin = self.origin(prefix);
            writeln!(text, "{word} {origin} 10.{prefix}.0.0/16")?;
        }
        Ok(())
    }
}
