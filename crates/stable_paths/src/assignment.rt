//! Assignments: a path for each router.

ghost use Rattle.std.specs.Prelude.{◌≡◌, ◌==◌, ℕ, List, [], ◌<◌, ◌≤◌, ◌≢◌, nat_lt, length, take, drop, slice_index_or, if◌then◌else◌, IfOk, IfErr, MatchOption, OnOk, OnErr};
ghost use Rattle.std.specs.List.{All, AllPairs};
ghost use Rattle.stable_paths.specs.declared.assignment.Assigned.{Assigned};
ghost use Rattle.stable_paths.specs.Stable.{path_of};
ghost use Rattle.stable_paths.specs.Rising.{Rise, StandsAt, BelongsAt};

use ranked_policy::{Asn, Path};
use std::alloc::{AllocError, Global};
use std::marker::Model;

/// A router and its path.
#[derive(Debug, Drop)]
pub struct Assigned {
    /// The router.
    pub router: Asn,
    /// Its path, the router itself first.
    pub path: Path,
}

/// A path for each router, the empty path if none was set.
#[derive(Debug, Drop)]
pub struct Assignment {
    // By rising router, so that each is found by a binary search.
    paths: Vec<Assigned>,
}

impl Model for Assignment {
    ghost use Rattle.std.specs.Prelude.{List};
    ghost use Rattle.stable_paths.specs.declared.assignment.Assigned.{Assigned};
    ghost use Rattle.stable_paths.specs.Rising.{Rise};

    ghost Value = { List Assigned };

    ghost invariant = { λ a. Rise a.paths.items };

    ghost view = { λ a. a.paths.items };
}

// The place of the router, or the place where it belongs.
fn place_of(paths: &[Assigned], router: Asn) -> Result<usize, usize>
    requires { Rise paths.now }
    ensures found { IfOk result (λ place. StandsAt paths.now router place) }
    ensures missing { IfErr result (λ place. BelongsAt paths.now router place) }
{
    let place = paths.partition_point(
        |assigned: &Assigned| -> bool
            ensures { result ≡ nat_lt assigned.now.router router }
        { assigned.router < router },
    );
    if place < paths.len() && paths[place].router == router {
        Ok(place)
    } else {
        Err(place)
    }
}

impl Assignment {
    /// The assignment of no path, which takes no memory.
    pub fn new(alloc: Global) -> Assignment
        ensures { (u : ℕ) → path_of result u ≡ [] }
    {
        Assignment {
            paths: Vec::new(alloc),
        }
    }

    /// The path that was set for a router.
    pub fn get(&self, router: Asn) -> Option<&Path>
        ensures { MatchOption result (path_of self.now router ≡ []) (λ path. path.now ≡ path_of self.now router) }
    {
        let paths = self.paths.as_slice();
        match place_of(paths, router) {
            Ok(place) => Some(&paths[place].path),
            Err(_) => None,
        }
    }

    /// The path of a router.
    pub fn path(&self, router: Asn) -> &[Asn]
        ensures { result.now ≡ path_of self.now router }
    {
        match self.get(router) {
            Some(path) => path.as_slice(),
            None => &[],
        }
    }

    /// Gives a router a path in place of what it had. It is refused only for want of memory, and then changes nothing.
    pub fn set(&mut self, router: Asn, path: Path) -> Result<(), AllocError>
        ensures ok { OnOk result ((u : ℕ) → path_of self.new u ≡ (if router == u then path else path_of self.old u)) }
        ensures err { OnErr result (self.new ≡ self.old) }
    {
        match place_of(self.paths.as_slice(), router) {
            Ok(place) => self.paths[place] = Assigned { router, path },
            Err(place) => self.paths.insert(place, Assigned { router, path })?,
        }
        Ok(())
    }
}
