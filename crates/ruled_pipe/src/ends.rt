//! The two ends of a pipe.

ghost use Rattle.std.specs.Prelude.{◌≡◌, ◌≤◌, ◌<◌, [], length, true, false, IsTrue, IfOk, IfErr, OnOk, OnErr, MatchOption};
ghost use Rattle.std.specs.Arc.{arc_value};
ghost use Rattle.crossbeam_queue.specs.Passes.{IsPassOf, ruled_capacity};
ghost use Rattle.ruled_pipe.specs.Ends.{End, end_at, with_item};
ghost use Rattle.ruled_pipe.specs.Refusals.{refusal_of};
ghost use Rattle.ruled_pipe.specs.Rule.{log, known};

use crate::log::Log;
use crate::refusal::PipeError;
use crate::rule::{FirstInFirstOut, Put, Roles, Took};
use crossbeam_queue::{Pass, RuledArrayQueue};
use std::alloc::{AllocError, Global};
use std::marker::Model;
use std::sync::{Arc, Wait};

/// The most items that a pipe may hold.
pub const MOST_ITEMS: usize = 1024;

/// The queue of a pipe, which both ends own.
pub(crate) type Line<T> = RuledArrayQueue<T, Log<T>, FirstInFirstOut>;

/// The end that puts. Contracts see which pipe it is of, how many items that holds at most, and the
/// items that this end has put, oldest first.
#[derive(Drop)]
pub struct PutEnd<T> {
    pub(crate) line: Arc<Line<T>, Global>,
    pub(crate) seat: Pass<T, Log<T>>,
}

/// The end that takes. Contracts see which pipe it is of, how many items that holds at most, and the
/// items that this end has taken, oldest first.
#[derive(Drop)]
pub struct TakeEnd<T> {
    pub(crate) line: Arc<Line<T>, Global>,
    pub(crate) seat: Pass<T, Log<T>>,
}

impl<T> Model for PutEnd<T> {
    ghost Value = { End T };

    ghost view = { λ e. end_at e.seat.table_id (ruled_capacity (arc_value e.line)) (known e.seat).put };

    ghost invariant = { λ e. IsPassOf (arc_value e.line) e.seat
        × (known e.seat ≡ log true false (known e.seat).put []) };
}

impl<T> Model for TakeEnd<T> {
    ghost Value = { End T };

    ghost view = { λ e. end_at e.seat.table_id (ruled_capacity (arc_value e.line)) (known e.seat).taken };

    ghost invariant = { λ e. IsPassOf (arc_value e.line) e.seat
        × (known e.seat ≡ log false true [] (known e.seat).taken) };
}

impl<T: Drop> PutEnd<T> {
    /// Puts an item behind the others. The item comes back, and nothing changes, only if this end had put at least as
    /// many items as the pipe holds. It takes no memory.
    pub fn put<R: Wait>(&mut self, rt: &R, item: T) -> Result<(), T>
        ensures ok { OnOk result (self.new ≡ with_item self.old item) }
        ensures back { IfErr result (λ back. back ≡ item) }
        ensures full { OnErr result (self.old.room ≤ length self.old.items) }
        ensures err { OnErr result (self.new ≡ self.old) }
    {
        self.line.push_as::<Put, R>(rt, &mut self.seat, item)
    }

    /// Whether the pipe is full: only if this end had put at least as many items as the pipe holds. Nothing changes.
    pub fn is_full(&mut self) -> bool
        ensures full { IsTrue result → self.old.room ≤ length self.old.items }
        ensures same { self.new ≡ self.old }
    {
        self.line.is_full_as::<Put>(&mut self.seat)
    }
}

impl<T: Drop> TakeEnd<T> {
    /// Takes the oldest item that the pipe holds. If it finds none, nothing changes.
    pub fn take<R: Wait>(&mut self, rt: &R) -> Option<T>
        ensures taken { MatchOption result (self.new ≡ self.old) (λ item. self.new ≡ with_item self.old item) }
    {
        self.line.pop_as::<Took, R>(rt, &mut self.seat)
    }
}

/// Makes the queue and its two seats.
fn seated<T: Drop>(alloc: Global, capacity: usize) -> Result<(PutEnd<T>, TakeEnd<T>), AllocError>
    requires { 0 < capacity }
    ensures ends { IfOk result
        (λ ends. (ends.0 ≡ end_at ends.0.pipe capacity []) × (ends.1 ≡ end_at ends.0.pipe capacity [])) }
{
    let (line, mut seat) = Line::ruled(alloc, capacity)?;
    let taker = line.another::<Roles>(&mut seat);
    let line = Arc::new(alloc, line)?;
    let theirs = Arc::try_clone(&line)?;
    let put = PutEnd { line, seat };
    let take = TakeEnd {
        line: theirs,
        seat: taker,
    };
    Ok((put, take))
}

/// Makes a pipe that holds at most `capacity` items, and answers its two ends. Refused with [`PipeError::BadCapacity`]
/// exactly if the capacity is not from 1 to [`MOST_ITEMS`], and with [`PipeError::Memory`] only if a growth was
/// refused.
pub fn with_ends<T: Drop>(
    alloc: Global,
    capacity: usize,
) -> Result<(PutEnd<T>, TakeEnd<T>), PipeError>
    ensures one_pipe { IfOk result (λ ends. ends.1.pipe ≡ ends.0.pipe) }
    ensures put { IfOk result (λ ends. ends.0 ≡ end_at ends.0.pipe capacity []) }
    ensures take { IfOk result (λ ends. ends.1 ≡ end_at ends.1.pipe capacity []) }
    ensures capacity { IfOk result (λ _. (0 < capacity) × (capacity ≤ MOST_ITEMS)) }
    ensures refused { IfErr result (λ why. why ≡ refusal_of capacity) }
{
    if capacity == 0 || capacity > MOST_ITEMS {
        return Err(PipeError::BadCapacity);
    }
    seated(alloc, capacity).map_err(|_| PipeError::Memory)
}
