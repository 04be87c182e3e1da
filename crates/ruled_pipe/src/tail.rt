//! A pipe whose ends have come together.

ghost use Rattle.std.specs.Prelude.{◌≡◌, ◌≤◌, [], ◌∷◌, ◌++◌, length, MatchOption};
ghost use Rattle.ruled_pipe.specs.Ends.{closed_at, left, with_taken};

use crate::ends::{Line, PutEnd, TakeEnd};
use crate::log::Log;
use crate::rule::{Drained, Roles};
use crossbeam_queue::Pass;
use std::alloc::Global;
use std::marker::Model;
use std::sync::{Arc, Wait};

/// A closed pipe. Contracts see which pipe it is, the most items that it holds, all items that were
/// put into it and all that were taken out of it, oldest first.
#[derive(Drop)]
pub struct Tail<T> {
    line: Arc<Line<T>, Global>,
    seat: Pass<T, Log<T>>,
}

impl<T> Model for Tail<T> {
    ghost use Rattle.std.specs.Prelude.{◌≡◌, true};
    ghost use Rattle.std.specs.Arc.{arc_value};
    ghost use Rattle.crossbeam_queue.specs.Passes.{IsPassOf, ruled_capacity};
    ghost use Rattle.ruled_pipe.specs.Rule.{log, known, StartsWith};
    ghost use Rattle.ruled_pipe.specs.Ends.{Closed, closed_at};

    ghost Value = { Closed T };

    ghost view = { λ e.
        closed_at e.seat.table_id (ruled_capacity (arc_value e.line)) (known e.seat).put (known e.seat).taken };

    ghost invariant = { λ e. IsPassOf (arc_value e.line) e.seat
        × (known e.seat ≡ log true true (known e.seat).put (known e.seat).taken)
        × StartsWith (known e.seat).put (known e.seat).taken };
}

/// Brings the two ends of a pipe together. What was put is what was taken, followed by what is left
/// in the pipe, which is no more than it holds.
pub fn close<T: Drop, R: Wait>(rt: &R, put: PutEnd<T>, take: TakeEnd<T>) -> Tail<T>
    requires one_pipe { put.pipe ≡ take.pipe }
    ensures lists { result ≡ closed_at put.pipe put.room put.items take.items }
    ensures left { put.items ≡ take.items ++ left result }
    ensures held { length (left result) ≤ put.room }
{
    let PutEnd { line, mut seat } = put;
    let TakeEnd {
        line: theirs,
        seat: other,
    } = take;
    drop(theirs);
    line.absorb::<Roles>(&mut seat, other);
    line.len_as::<Drained, R>(rt, &mut seat);
    Tail { line, seat }
}

impl<T: Drop> Tail<T> {
    /// Takes the oldest item that was put and not taken. `None` exactly where nothing is left.
    pub fn next<R: Wait>(&mut self, rt: &R) -> Option<T>
        ensures next { MatchOption result (left self.old ≡ []) (λ item. left self.old ≡ item ∷ left self.new) }
        ensures taken { MatchOption result (self.new ≡ self.old) (λ item. self.new ≡ with_taken self.old item) }
    {
        self.line.pop_as::<Drained, R>(rt, &mut self.seat)
    }
}
