//! A list of a message's parts. A contract sees its items, wherever they lie in memory.

ghost use Rattle.std.specs.Prelude.{◌≡◌, ◌++◌, ◌∷◌, [], IsTrue, IfOk, OnOk, OnErr};
ghost use Rattle.std.specs.List.Sorted.{IsPermutation, IsNonDecreasingBy};
ghost use Rattle.bgp_codec.specs.Lists.{items_in, IsBlock};
ghost use Rattle.bgp_codec.specs.Gathering.{AreApart};

use crate::attributes::Raw;
use crate::ordering::order;
use std::alloc::{AllocError, Global};
use std::marker::Model;
use std::{mem, slice};

// Where the items of a list lie.
#[derive(Debug, Drop)]
enum Room<T> {
    // One item, in the list itself.
    One([T; 1]),
    // Any number of items, in a block of memory if there are any.
    Block(Vec<T>),
}

impl<T: Drop> Room<T> {
    // Moves an item that stands alone to a block, which gets room for one more.
    fn spill(&mut self, alloc: Global) -> Result<(), AllocError>
        ensures same { items_in self.new ≡ items_in self.old }
        ensures block { OnOk result (IsBlock self.new) }
    {
        if let Room::One(_) = self {
            let mut items = Vec::with_capacity(alloc, 2)?;
            if let Room::One(alone) = mem::replace(self, Room::Block(Vec::new(alloc))) {
                let [item] = alone;
                items.push_reserved(item);
            }
            *self = Room::Block(items);
        }
        Ok(())
    }
}

/// A list of a message's parts, in their order. One item alone stands in the list itself and takes no memory.
#[derive(Debug, Drop)]
pub struct Items<T> {
    room: Room<T>,
}

impl<T> Model for Items<T> {
    ghost use Rattle.std.specs.Prelude.{List};
    ghost use Rattle.bgp_codec.specs.Lists.{items_in};

    ghost Value = { List T };

    ghost view = { λ list. items_in list.room };
}

impl<T> Items<T> {
    /// The empty list, which takes no memory.
    pub fn new(alloc: Global) -> Items<T>
        ensures { result ≡ [] }
    {
        Items::from_vec(Vec::new(alloc))
    }

    /// The list of one item, which takes no memory.
    pub fn one(item: T) -> Items<T>
        ensures { result ≡ item ∷ [] }
    {
        Items {
            room: Room::One([item]),
        }
    }

    /// The items of a `Vec`, which it keeps. It takes no memory.
    pub fn from_vec(items: Vec<T>) -> Items<T>
        ensures { result ≡ items.items }
    {
        Items {
            room: Room::Block(items),
        }
    }

    /// The items.
    pub fn as_slice(&self) -> &[T]
        ensures { result.now ≡ self.now }
    {
        match &self.room {
            Room::One(items) => items.as_slice(),
            Room::Block(items) => items.as_slice(),
        }
    }

    // A list with room for so many items. It takes no memory for one.
    pub(crate) fn with_room(alloc: Global, count: usize) -> Result<Items<T>, AllocError>
        ensures { IfOk result (λ list. list ≡ []) }
    {
        if count < 2 {
            return Ok(Items::new(alloc));
        }
        Ok(Items::from_vec(Vec::with_capacity(alloc, count)?))
    }

    // Whether it has neither an item nor a block.
    fn is_unused(&self) -> bool
        ensures { IsTrue result → self.now ≡ [] }
    {
        match &self.room {
            Room::One(_) => false,
            Room::Block(items) => items.capacity() == 0,
        }
    }
}

impl<T: Drop> Items<T> {
    // Puts an item behind the others. A refused call leaves the list as it was.
    pub(crate) fn push(&mut self, alloc: Global, item: T) -> Result<(), AllocError>
        ensures ok { OnOk result (self.new ≡ self.old ++ item ∷ []) }
        ensures err { OnErr result (self.new ≡ self.old) }
    {
        if self.is_unused() {
            self.room = Room::One([item]);
            return Ok(());
        }
        self.room.spill(alloc)?;
        match &mut self.room {
            Room::Block(items) => Ok(items.push(item)?),
            Room::One(_) => unreachable!(),
        }
    }
}

impl Items<Raw> {
    // Puts attributes of different codes in order of code.
    pub(crate) fn order(&mut self)
        requires { AreApart self.old }
        ensures permutation { IsPermutation self.old self.new }
        ensures order { IsNonDecreasingBy (λ r. r.code) self.new }
    {
        match &mut self.room {
            Room::One(raws) => order(raws.as_mut_slice()),
            Room::Block(raws) => order(raws.as_mut_slice()),
        }
    }
}
