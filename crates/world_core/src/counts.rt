//! How often something was done in each direction between two routers.

ghost use Rattle.std.specs.Prelude.{◌≡◌, ◌<◌, ◌+◌, ◌==◌, ◌&&◌, ℕ, cond, OnOk};
ghost use Rattle.world_core.specs.Counting.{count_of};

use ranked_policy::Asn;
use std::alloc::{AllocError, Global};
use std::collections::BTreeMap;

/// How often something was done from one router to another.
#[derive(Drop)]
pub(crate) struct Counts {
    counts: BTreeMap<(Asn, Asn), usize>,
}

impl Counts {
    /// The counts before anything was done.
    pub fn new(alloc: Global) -> Counts
        ensures { (u v : ℕ) → count_of result u v ≡ 0 }
    {
        Counts {
            counts: BTreeMap::new(alloc),
        }
    }

    /// How often something was done from one router to the other.
    pub fn at(&self, from: Asn, to: Asn) -> usize
        ensures { result ≡ count_of self.now from to }
    {
        match self.counts.get(&(from, to)) {
            Some(&count) => count,
            None => 0,
        }
    }

    /// Counts one more from one router to the other.
    pub fn add(&mut self, from: Asn, to: Asn) -> Result<(), AllocError>
        requires { count_of self.old from to < usize.MAX }
        ensures { OnOk result
            ((u v : ℕ) → count_of self.new u v ≡ count_of self.old u v + cond ((from == u) && (to == v)) 1 0) }
    {
        let count = self.at(from, to);
        self.counts.insert((from, to), count + 1)?;
        Ok(())
    }
}
