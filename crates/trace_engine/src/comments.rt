//! The comments of a trace: what an order orders and how it ended, which events were those of a round, and that an order
//! was refused.

ghost use Rattle.std.specs.Prelude.{◌≡◌, ◌++◌, OnOk};
ghost use Rattle.trace_engine.specs.Tracing.{place_text, head_line, head_text, idle_line, counted_line, ticked_line, tail_text, round_line, stop_comment};

use net_text::{put_decimal, put_len};
use schedule_text::{ScheduledOrder, stop_line};
use std::alloc::AllocError;
use world_core::{Order, StepFault};

// Appends of which line a comment is.
#[tactic(auto, unfolding(crate::specs::Tracing::place_text))]
fn put_place(line: usize, out: &mut Vec<u8>) -> Result<(), AllocError>
    ensures { OnOk result (out.new.items ≡ out.old.items ++ place_text line) }
{
    out.extend_from_slice(b"# line ")?;
    put_len(out, line)?;
    out.extend_from_slice(b": ")
}

#[tactic(auto, unfolding(crate::specs::Tracing::head_line))]
fn put_head_line(line: usize, word: &[u8], times: u32, out: &mut Vec<u8>) -> Result<(), AllocError>
    ensures { OnOk result (out.new.items ≡ out.old.items ++ head_line line word.now times) }
{
    put_place(line, out)?;
    out.extend_from_slice(word)?;
    put_decimal(out, times)?;
    out.extend_from_slice(b"\n")
}

/// Appends what an order orders, if it stands for many events.
pub(crate) fn put_head(scheduled: &ScheduledOrder, out: &mut Vec<u8>) -> Result<(), AllocError>
    ensures { OnOk result (out.new.items ≡ out.old.items ++ head_text scheduled.now.line scheduled.now.order) }
{
    match scheduled.order {
        Order::One(_) => Ok(()),
        Order::Rounds(times) => put_head_line(scheduled.line, b"rounds ", times, out),
        Order::Ticks(times) => put_head_line(scheduled.line, b"ticks ", times, out),
    }
}

#[tactic(auto, unfolding(crate::specs::Tracing::idle_line))]
fn put_idle(line: usize, out: &mut Vec<u8>) -> Result<(), AllocError>
    ensures { OnOk result (out.new.items ≡ out.old.items ++ idle_line line) }
{
    put_place(line, out)?;
    out.extend_from_slice(b"nothing to do\n")
}

// Appends how many events were done, and something of a number of rounds.
#[tactic(auto, unfolding(crate::specs::Tracing::counted_line))]
fn put_counted(
    line: usize,
    count: usize,
    said: &[u8],
    rounds: u32,
    out: &mut Vec<u8>,
) -> Result<(), AllocError>
    ensures { OnOk result (out.new.items ≡ out.old.items ++ counted_line line count said.now rounds) }
{
    put_place(line, out)?;
    put_len(out, count)?;
    out.extend_from_slice(said)?;
    put_decimal(out, rounds)?;
    out.extend_from_slice(b"\n")
}

#[tactic(auto, unfolding(crate::specs::Tracing::ticked_line))]
fn put_ticked(line: usize, count: usize, out: &mut Vec<u8>) -> Result<(), AllocError>
    ensures { OnOk result (out.new.items ≡ out.old.items ++ ticked_line line count) }
{
    put_place(line, out)?;
    put_len(out, count)?;
    out.extend_from_slice(b" events\n")
}

/// Appends how an order ended: how many events were done, and, if a round did nothing, how many of its rounds did
/// something before it.
pub(crate) fn put_tail(
    scheduled: &ScheduledOrder,
    count: usize,
    rest: Option<u32>,
    out: &mut Vec<u8>,
) -> Result<(), AllocError>
    ensures { OnOk result
        (out.new.items ≡ out.old.items ++ tail_text scheduled.now.line scheduled.now.order count rest) }
{
    let line = scheduled.line;
    match scheduled.order {
        Order::One(_) if count == 0 => put_idle(line, out),
        Order::One(_) => Ok(()),
        Order::Rounds(times) => match rest {
            Some(passed) => put_counted(line, count, b" events, rest behind round ", passed, out),
            None => put_counted(line, count, b" events, no rest by round ", times, out),
        },
        Order::Ticks(_) => put_ticked(line, count, out),
    }
}

/// Appends how many events stand above, and that they are those of the round of this number.
#[tactic(auto, unfolding(crate::specs::Tracing::round_line))]
pub(crate) fn put_round(number: u32, count: usize, out: &mut Vec<u8>) -> Result<(), AllocError>
    ensures { OnOk result (out.new.items ≡ out.old.items ++ round_line number count) }
{
    out.extend_from_slice(b"# round ")?;
    put_decimal(out, number)?;
    out.extend_from_slice(b": ")?;
    put_len(out, count)?;
    out.extend_from_slice(b" events\n")
}

/// Appends that an order was refused, as a comment.
pub(crate) fn put_stop(line: usize, why: StepFault, out: &mut Vec<u8>) -> Result<(), AllocError>
    ensures { OnOk result (out.new.items ≡ out.old.items ++ stop_comment line why) }
{
    out.extend_from_slice(b"# ")?;
    stop_line(line, why, out)
}
