//! The entries of an assignment text so far.

ghost use Rattle.std.specs.Prelude.{◌≡◌, false, [], ◌∷◌, ◌++◌, OnOk, OnErr};
ghost use Rattle.std.specs.List.{list_any};
ghost use Rattle.net_text.specs.Assignments.{gives};

use crate::assignment::Entry;
use prefix_lanes::Prefix;
use ranked_policy::{Asn, NetItems};
use std::alloc::{AllocError, Global};
use std::collections::BTreeSet;
use std::marker::Model;

/// A router and a prefix that a line gives it a path for.
#[derive(Clone, Copy, Debug, PartialEq, Eq, PartialOrd, Ord)]
pub(crate) struct Key {
    /// The router.
    pub(crate) router: Asn,
    /// The address of the prefix.
    pub(crate) addr: u32,
    /// Its length.
    pub(crate) len: u8,
}

// The key by which the entry for a router and a prefix is found.
fn key_of(router: Asn, prefix: &Prefix) -> Key
    ensures { result ≡ record { router = router; addr = prefix.now.addr; len = prefix.now.len } }
{
    Key {
        router,
        addr: prefix.addr(),
        len: prefix.len(),
    }
}

/// Entries in the order of their lines. Each is found by its router and prefix, in time logarithmic in their number.
#[derive(Drop)]
pub(crate) struct Entries {
    list: Vec<Entry>,
    given: BTreeSet<Key>,
}

impl Model for Entries {
    ghost use Rattle.std.specs.Prelude.{List};
    ghost use Rattle.net_text.specs.declared.assignment.Entry.{Entry};
    ghost use Rattle.net_text.specs.Assignments.{AreGiven};

    ghost Value = { List Entry };

    ghost view = { λ e. e.list.items };

    ghost invariant = { λ e. AreGiven e.given e.list.items };
}

impl Entries {
    /// No entries, which take no memory.
    pub(crate) fn new(alloc: Global) -> Entries
        ensures { result ≡ [] }
    {
        Entries {
            list: Vec::new(alloc),
            given: BTreeSet::new(alloc),
        }
    }

    /// Whether an entry gives the router a path for the prefix.
    pub(crate) fn give(&self, router: Asn, prefix: &Prefix) -> bool
        ensures { result ≡ list_any (gives router prefix.now) self.now }
    {
        self.given.contains(&key_of(router, prefix))
    }

    /// Adds an entry. A refused growth changes nothing.
    pub(crate) fn push(&mut self, entry: Entry) -> Result<(), AllocError>
        ensures ok { OnOk result (self.new ≡ self.old ++ entry ∷ []) }
        ensures err { OnErr result (self.new ≡ self.old) }
    {
        self.list.reserve(1)?;
        self.given.insert(key_of(entry.router, &entry.prefix))?;
        self.list.push_reserved(entry);
        Ok(())
    }

    /// The entries. It takes no memory.
    pub(crate) fn into_items(self) -> NetItems<Entry>
        ensures { result ≡ self }
    {
        NetItems::from_vec(self.list)
    }
}
