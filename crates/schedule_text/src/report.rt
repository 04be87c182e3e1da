//! The lines that a run is reported by. Each call appends a whole line, with its end; a refused call changes nothing.

ghost use Rattle.std.specs.Prelude.{◌≡◌, ◌+◌, ◌++◌, ◌<◌, length, vec_len, vec_capacity, IsOk, OnOk, OnErr};
ghost use Rattle.snap_marker.specs.Parts.{cause_of};
ghost use Rattle.snap_collector.specs.Collecting.{why_of, outcome_of};
ghost use Rattle.schedule_text.specs.Reports.{why_text, cause_text, outcome_text, snapshot_text, snapshot_line, route_line, now_line, cut_line, cut_none_line, stop_line, router_code, fault_code};

use net_text::{TextTail, path_line, refused_line};
use prefix_lanes::Prefix;
use ranked_policy::Asn;
use router_model::RouterError;
use snap_collector::{Outcome, Why};
use snap_marker::{Cause, Lost};
use std::alloc::AllocError;
use world_core::StepFault;

/// An order that was refused.
#[derive(Clone, Copy, PartialEq, Eq)]
pub struct RefusedOrder {
    /// The line that it stands on.
    pub line: usize,
    /// Why it was refused.
    pub why: StepFault,
}

// Writes why a snapshot is moving.
fn put_why(out: &mut TextTail, why: Why) -> Result<(), AllocError>
    ensures text { OnOk result (out.new.text ≡ out.old.text ++ why_text (why_of why)) }
    ensures front { out.new.front ≡ out.old.front }
{
    match why {
        Why::Pending => out.put_text(b"pending"),
        Why::InFlight(peer) => {
            out.put_text(b"inflight ")?;
            out.put_decimal(peer)
        }
        Why::Mismatch(peer) => {
            out.put_text(b"mismatch ")?;
            out.put_decimal(peer)
        }
    }
}

// Why a recording was lost.
fn cause_text(cause: Cause) -> &'static [u8]
    ensures { result.now ≡ cause_text (cause_of cause) }
{
    match cause {
        Cause::NotUp => b"notup",
        Cause::Closed => b"closed",
        Cause::Superseded => b"superseded",
    }
}

// Writes how a snapshot was abandoned.
fn put_lost(out: &mut TextTail, lost: &Lost) -> Result<(), AllocError>
    ensures text { OnOk result (out.new.text ≡ out.old.text ++ outcome_text (outcome_of (Outcome.Abandoned lost.now))) }
    ensures front { out.new.front ≡ out.old.front }
{
    out.put_text(b"abandoned ")?;
    out.put_decimal(lost.router)?;
    out.put_text(b" ")?;
    out.put_decimal(lost.peer)?;
    out.put_text(b" ")?;
    out.put_text(cause_text(lost.cause))
}

// Writes how a snapshot came out.
fn put_outcome(out: &mut TextTail, outcome: &Outcome) -> Result<(), AllocError>
    ensures text { OnOk result (out.new.text ≡ out.old.text ++ outcome_text (outcome_of outcome.now)) }
    ensures front { out.new.front ≡ out.old.front }
{
    match outcome {
        Outcome::Waiting => Ok(()),
        Outcome::Abandoned(lost) => put_lost(out, lost),
        Outcome::Moving { router, why } => {
            out.put_text(b"moving ")?;
            out.put_decimal(*router)?;
            out.put_text(b" ")?;
            put_why(out, *why)
        }
        Outcome::Settled => out.put_text(b"settled"),
    }
}

#[tactic(auto, unfolding(crate::specs::Reports::snapshot_text))]
fn put_snapshot(out: &mut TextTail, number: u32, outcome: &Outcome) -> Result<(), AllocError>
    ensures text { OnOk result (out.new.text ≡ out.old.text ++ snapshot_text number (outcome_of outcome.now)) }
    ensures front { out.new.front ≡ out.old.front }
{
    out.put_text(b"snapshot ")?;
    out.put_decimal(number)?;
    out.put_text(b" ")?;
    put_outcome(out, outcome)?;
    out.put_text(b"\n")
}

#[tactic(auto, unfolding(crate::specs::Reports::cut_line))]
fn put_cut(out: &mut TextTail, number: u32, recorded: usize, all: usize) -> Result<(), AllocError>
    ensures text { OnOk result (out.new.text ≡ out.old.text ++ cut_line number recorded all) }
    ensures front { out.new.front ≡ out.old.front }
{
    out.put_text(b"cut ")?;
    out.put_decimal(number)?;
    out.put_text(b" after ")?;
    out.put_len(recorded)?;
    out.put_text(b" of ")?;
    out.put_len(all)?;
    out.put_text(b"\n")
}

#[tactic(auto, unfolding(crate::specs::Reports::cut_none_line))]
fn put_cut_none(out: &mut TextTail, number: u32) -> Result<(), AllocError>
    ensures text { OnOk result (out.new.text ≡ out.old.text ++ cut_none_line number) }
    ensures front { out.new.front ≡ out.old.front }
{
    out.put_text(b"cut ")?;
    out.put_decimal(number)?;
    out.put_text(b" none\n")
}

/// Appends how a snapshot came out. For an undecided one it appends nothing, and is never refused. It is refused only
/// for want of memory, and then changes nothing.
pub fn snapshot_line(number: u32, outcome: &Outcome, out: &mut Vec<u8>) -> Result<(), AllocError>
    ensures ok { OnOk result (out.new.items ≡ out.old.items ++ snapshot_line number (outcome_of outcome.now)) }
    ensures err { OnErr result (out.new.items ≡ out.old.items) }
    // An undecided snapshot takes no memory.
    ensures undecided { outcome.now ≡ Outcome.Waiting → IsOk result }
{
    if *outcome == Outcome::Waiting {
        return Ok(());
    }
    let mut tail = TextTail::behind(out);
    let result = put_snapshot(&mut tail, number, outcome);
    *out = tail.finish(result.is_ok());
    result
}

/// Appends the path of a router for a prefix, `none` if it is empty. It is refused only for want of memory, and then
/// changes nothing.
#[tactic(auto, unfolding(crate::specs::Reports::route_line, net_text::specs::Printing::routed_line))]
pub fn route_line(
    router: Asn,
    prefix: &Prefix,
    path: &[Asn],
    out: &mut Vec<u8>,
) -> Result<(), AllocError>
    ensures ok { OnOk result (out.new.items ≡ out.old.items ++ route_line router prefix.now path.now) }
    ensures err { OnErr result (out.new.items ≡ out.old.items) }
{
    path_line(b"route ", router, prefix, path, out)
}

/// Appends how many of all events were done up to the recordings of a snapshot. It is refused only for want of memory,
/// and then changes nothing.
pub fn cut_line(
    number: u32,
    recorded: usize,
    all: usize,
    out: &mut Vec<u8>,
) -> Result<(), AllocError>
    ensures ok { OnOk result (out.new.items ≡ out.old.items ++ cut_line number recorded all) }
    ensures err { OnErr result (out.new.items ≡ out.old.items) }
{
    let mut tail = TextTail::behind(out);
    let result = put_cut(&mut tail, number, recorded, all);
    *out = tail.finish(result.is_ok());
    result
}

/// Appends that a snapshot has no cut, since it is undecided or was abandoned. It is refused only for want of memory,
/// and then changes nothing.
pub fn cut_none_line(number: u32, out: &mut Vec<u8>) -> Result<(), AllocError>
    ensures ok { OnOk result (out.new.items ≡ out.old.items ++ cut_none_line number) }
    ensures err { OnErr result (out.new.items ≡ out.old.items) }
{
    let mut tail = TextTail::behind(out);
    let result = put_cut_none(&mut tail, number);
    *out = tail.finish(result.is_ok());
    result
}

/// Appends the line that stands before the routes at the end of a run. It is refused only where the
/// buffer had no room for it and a growth was refused, and then changes nothing.
pub fn now_line(out: &mut Vec<u8>) -> Result<(), AllocError>
    ensures ok { OnOk result (out.new.items ≡ out.old.items ++ now_line) }
    ensures err { OnErr result (out.new.items ≡ out.old.items) }
    // Want of memory is answered only where room was missing.
    ensures only { OnErr result (vec_capacity out.old < vec_len out.old + length now_line) }
{
    out.extend_from_slice(b"now\n")
}

// The code of a router's refusal.
fn router_code(error: RouterError) -> &'static [u8]
    ensures { result.now ≡ router_code error }
{
    match error {
        RouterError::NoSuchPeer => b"E1",
        RouterError::NotOrigin => b"E2",
        RouterError::OldSnapshot { .. } => b"E3",
        RouterError::Blocked { .. } => b"E4",
        RouterError::Held { .. } => b"E5",
        RouterError::StampEnd => b"E6",
        RouterError::Memory => b"E7",
        RouterError::EpochEnd => b"E8",
    }
}

// The code of a refusal of a run: the router's own if a router refused.
fn fault_code(fault: StepFault) -> &'static [u8]
    ensures { result.now ≡ fault_code fault }
{
    match fault {
        StepFault::NoSuchRouter => b"V1",
        StepFault::NoSuchLink => b"V2",
        StepFault::Refused(error) => router_code(error),
        StepFault::Memory => b"V4",
    }
}

/// Appends that a run refused the order of a line, with the code of why. It is refused only for want of memory, and
/// then changes nothing.
pub fn stop_line(line: usize, fault: StepFault, out: &mut Vec<u8>) -> Result<(), AllocError>
    ensures ok { OnOk result (out.new.items ≡ out.old.items ++ stop_line line fault) }
    ensures err { OnErr result (out.new.items ≡ out.old.items) }
{
    refused_line(line, fault_code(fault), out)
}
