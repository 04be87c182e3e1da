//! The rule of a pipe, and the kinds of step that keep it.
//!
//! Seven kinds of step touch the queue. A push may succeed, or find the queue full. A pop may give an item, or find the
//! queue empty. A call may ask whether the queue is full. The first seat is split in two as the pipe is made. The two
//! seats are joined as it is closed; the join also asks how many items are held. A push that fails, a pop that fails
//! and the question change nothing.

ghost use Rattle.std.specs.Prelude.{◌≡◌, true, false, List, [], ◌∷◌, ◌++◌, ⊤};
ghost use Rattle.ruled_pipe.specs.Rule.{log, Carried, StartsWith};

use crate::log::Log;
use crossbeam_queue::protocol::{Join, Lesson, Outcome, Protocol, Split};

/// What was put is what was taken, followed by what the queue holds.
pub struct FirstInFirstOut;

impl<T> Protocol<T, Log<T>> for FirstInFirstOut {
    ghost holds = { Carried };

    ghost first = { log true true [] [] };
}

/// The two roles at a pipe: a seat with both is split in one that puts and one that takes, and these
/// join in a seat with both.
pub struct Roles;

impl<T> Split<Log<T>> for Roles {
    ghost left = { λ v. log true false v.put [] };

    ghost right = { λ v. log false true [] v.taken };
}

impl<T> Join<Log<T>> for Roles {
    ghost both = { λ v w. log true true v.put w.taken };

    ghost spent = { log false false [] [] };
}

/// An item was put.
pub struct Put;

impl<T> Outcome<T, Log<T>> for Put {
    ghost then = { λ v x w. w ≡ log v.puts v.takes (v.put ++ x ∷ []) v.taken };
}

/// A seat that puts knows that the items held are the last of those that it has put.
impl<T> Lesson<T, Log<T>> for Put {
    ghost fact = { λ v items. (taken : List T) × (v.put ≡ taken ++ items) };
}

/// An item was taken.
pub struct Took;

impl<T> Outcome<T, Log<T>> for Took {
    ghost then = { λ v x w. w ≡ log v.puts v.takes v.put (v.taken ++ x ∷ []) };
}

impl<T> Lesson<T, Log<T>> for Took {
    ghost fact = { λ v items. ⊤ };
}

/// An item was taken by a seat with both roles, which knows that the item is the next of those put.
pub struct Drained;

impl<T> Outcome<T, Log<T>> for Drained {
    ghost then = { λ v x w. (w ≡ log v.puts v.takes v.put (v.taken ++ x ∷ [])) × StartsWith v.put (v.taken ++ x ∷ []) };
}

/// A seat with both roles knows what is held.
impl<T> Lesson<T, Log<T>> for Drained {
    ghost fact = { λ v items. v.put ≡ v.taken ++ items };
}
