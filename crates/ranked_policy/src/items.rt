//! A list of a network's parts. A contract sees its items, and not its capacity.

ghost use Rattle.std.specs.Prelude.{◌≡◌, [], ◌∷◌, ◌++◌, ◌==◌, length, OnOk, OnErr};

use std::alloc::{AllocError, Global};
use std::marker::Model;

/// A list of a network's parts, in their order.
#[derive(Debug, Drop)]
pub struct NetItems<T> {
    items: Vec<T>,
}

impl<T> Model for NetItems<T> {
    ghost use Rattle.std.specs.Prelude.{List};

    ghost Value = { List T };

    ghost view = { λ list. list.items.items };
}

impl<T> NetItems<T> {
    /// The empty list, which takes no memory.
    pub fn new(alloc: Global) -> NetItems<T>
        ensures { result ≡ [] }
    {
        NetItems {
            items: Vec::new(alloc),
        }
    }

    /// The items of a `Vec`, which it keeps. It takes no memory.
    pub fn from_vec(items: Vec<T>) -> NetItems<T>
        ensures { result ≡ items.items }
    {
        NetItems { items }
    }

    /// The `Vec` that holds the items. It takes no memory.
    pub fn into_vec(self) -> Vec<T>
        ensures { result.items ≡ self }
    {
        self.items
    }

    /// The items.
    pub fn as_slice(&self) -> &[T]
        ensures { result.now ≡ self.now }
    {
        self.items.as_slice()
    }

    /// How many items there are.
    pub fn len(&self) -> usize
        ensures { result ≡ length self.now }
    {
        self.items.as_slice().len()
    }

    /// Whether there are none.
    pub fn is_empty(&self) -> bool
        ensures { result ≡ (length self.now == 0) }
    {
        self.items.is_empty()
    }
}

impl<T: Drop> NetItems<T> {
    /// Adds an item at the end. A refused growth changes nothing.
    pub(crate) fn push(&mut self, item: T) -> Result<(), AllocError>
        ensures ok { OnOk result (self.new ≡ self.old ++ item ∷ []) }
        ensures err { OnErr result (self.new ≡ self.old) }
    {
        self.items.push(item)?;
        Ok(())
    }
}
