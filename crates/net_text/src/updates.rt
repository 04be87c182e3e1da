//! The line of an UPDATE: its path and its next hop as text.

ghost use Rattle.std.specs.Prelude.{◌≡◌, ◌+◌, ◌*◌, ◌≤◌, ◌++◌, length, take, map, OnOk, OnErr};
ghost use Rattle.std.specs.List.{join_with_byte};
ghost use Rattle.net_text.specs.Printing.{line, update_line, flight_line, withdrawn_text, announced_text, route_text, prefix_text, prefixes_text, segment_text, segments_text, path_text};

use crate::tail::TextTail;
use bgp_codec::{Asn, Attrs, Items, Segment, SegmentKind, Update};
use prefix_lanes::Prefix;
use std::alloc::AllocError;

// Appends a segment: a set in braces, with commas, or a sequence, with dashes.
#[tactic(auto, unfolding(crate::specs::Printing::segment_text))]
fn put_segment(out: &mut TextTail, segment: &Segment) -> Result<(), AllocError>
    ensures text { OnOk result (out.new.text ≡ out.old.text ++ segment_text segment.now) }
    ensures front { out.new.front ≡ out.old.front }
{
    match segment.kind {
        SegmentKind::AsSet => {
            out.put_text(b"{")?;
            out.put_joined(segment.numbers.as_slice(), b',')?;
            out.put_text(b"}")
        }
        SegmentKind::AsSequence => out.put_joined(segment.numbers.as_slice(), b'-'),
    }
}

// Appends segments with a dash between them, or that there are none.
#[tactic(auto, unfolding(crate::specs::Printing::segments_text))]
fn put_segments(out: &mut TextTail, segments: &[Segment]) -> Result<(), AllocError>
    ensures text { OnOk result (out.new.text ≡ out.old.text ++ segments_text segments.now) }
    ensures front { out.new.front ≡ out.old.front }
{
    match segments {
        [] => out.put_text(b"none"),
        [first, rest @ ..] => {
            put_segment(out, first)?;
            for segment in rest {
                out.put_text(b"-")?;
                put_segment(out, segment)?;
            }
            Ok(())
        }
    }
}

// Appends a path; an absent one has no segment.
fn put_path(out: &mut TextTail, path: &Option<Items<Segment>>) -> Result<(), AllocError>
    ensures text { OnOk result (out.new.text ≡ out.old.text ++ path_text path.now) }
    ensures front { out.new.front ≡ out.old.front }
{
    match path {
        None => out.put_text(b"none"),
        Some(path) => put_segments(out, path.as_slice()),
    }
}

// Appends the path and the next hop of the routes.
#[tactic(auto, unfolding(crate::specs::Printing::route_text))]
fn put_route(out: &mut TextTail, attrs: &Attrs) -> Result<(), AllocError>
    ensures text { OnOk result (out.new.text ≡ out.old.text ++ route_text attrs.now) }
    ensures front { out.new.front ≡ out.old.front }
{
    out.put_text(b" path ")?;
    put_path(out, &attrs.path)?;
    out.put_text(b" next ")?;
    out.put_address(attrs.next_hop.unwrap_or(0))
}

// Appends the withdrawn prefixes, if there are any.
fn put_withdrawn(out: &mut TextTail, prefixes: &[Prefix]) -> Result<(), AllocError>
    ensures text { OnOk result (out.new.text ≡ out.old.text ++ withdrawn_text prefixes.now) }
    ensures front { out.new.front ≡ out.old.front }
{
    if prefixes.is_empty() {
        return Ok(());
    }
    out.put_text(b" withdraw")?;
    out.put_prefixes(prefixes)
}

// Appends the announced prefixes and their routes, if there are any.
fn put_announced(out: &mut TextTail, attrs: &Attrs, prefixes: &[Prefix]) -> Result<(), AllocError>
    ensures text { OnOk result (out.new.text ≡ out.old.text ++ announced_text attrs.now prefixes.now) }
    ensures front { out.new.front ≡ out.old.front }
{
    if prefixes.is_empty() {
        return Ok(());
    }
    out.put_text(b" announce")?;
    out.put_prefixes(prefixes)?;
    put_route(out, attrs)
}

/// Appends the line of an UPDATE.
#[tactic(auto, unfolding(crate::specs::Printing::update_line))]
#[inline(never)]
pub fn put_update(out: &mut TextTail, message: &Update) -> Result<(), AllocError>
    ensures text { OnOk result (out.new.text ≡ out.old.text ++ line (update_line message.now)) }
    ensures front { out.new.front ≡ out.old.front }
{
    out.put_text(b"update")?;
    put_withdrawn(out, message.withdrawn.as_slice())?;
    put_announced(out, &message.attrs, message.nlri.as_slice())?;
    out.put_text(b"\n")
}

/// Appends the line of an UPDATE that was in flight from one router to another.
#[tactic(auto, unfolding(crate::specs::Printing::flight_line))]
pub fn put_flight(
    out: &mut TextTail,
    from: Asn,
    to: Asn,
    message: &Update,
) -> Result<(), AllocError>
    ensures text { OnOk result (out.new.text ≡ out.old.text ++ flight_line from to message.now) }
    ensures front { out.new.front ≡ out.old.front }
{
    out.put_text(b"flight ")?;
    out.put_joined(&[from, to], b' ')?;
    out.put_text(b" ")?;
    put_update(out, message)
}
