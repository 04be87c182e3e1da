//! The watcher that writes a trace.

ghost use Rattle.std.specs.Prelude.{true};
ghost use Rattle.trace_engine.specs.Tracing.{SaysEvent, round_line};

use crate::comments::put_round;
use crate::notes::Notes;
use crate::noting::put_notes;
use schedule_text::event_line;
use std::alloc::AllocError;
use world_core::{Event, Watch, World};

/// The trace so far, and the notes on an event. Behind an event that was done stands its line, with comments of what it
/// did; behind the events of a round how many they were. The comments have the octets that are sent, or not.
#[derive(Drop)]
pub(crate) struct Tracer<const OCTETS: bool> {
    pub notes: Notes,
    pub out: Vec<u8>,
}

impl<const OCTETS: bool> Watch for Tracer<OCTETS> {
    ghost said = { λ tracer. tracer.out.items };

    ghost saw = { λ _ _ _. Unit {0} };

    ghost says = { SaysEvent OCTETS };

    ghost says_of_round = { round_line };

    ghost may_want = { true };

    fn before_event(&mut self, world: &World<'_>, event: &Event) -> Result<(), AllocError> {
        self.notes.before(world, event)
    }

    fn behind_event(&mut self, world: &World<'_>, event: &Event) -> Result<(), AllocError> {
        self.notes.behind(world, event)?;
        event_line(event, &mut self.out)?;
        put_notes(OCTETS, self.notes.text(), &mut self.out)
    }

    fn behind_round(&mut self, number: u32, count: usize) -> Result<(), AllocError> {
        put_round(number, count, &mut self.out)
    }
}
