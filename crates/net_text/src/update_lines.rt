//! The line of an UPDATE, from the octets of its parts.

ghost use Rattle.std.specs.Prelude.{◌≡◌, ◌+◌, ◌*◌, ◌≤◌, ◌++◌, Option, length, take, map, decimal, OnOk, OnErr};
ghost use Rattle.std.specs.List.{join_with_byte};
ghost use Rattle.bgp_codec.specs.declared.attributes.Attrs.{Attrs};
ghost use Rattle.bgp_codec.specs.declared.update.Update.{Update};
ghost use Rattle.bgp_codec.specs.Judging.{Shows};
ghost use Rattle.bgp_codec.specs.Parts.{segment, items_of};
ghost use Rattle.net_text.specs.Printing.{line, update_line, withdrawn_text, announced_text, prefixes_text, segment_text, path_text, route_text};

use crate::decimals::write_decimal;
use crate::prefix_texts::write_prefix;
use crate::texts::{write_address, write_mark, write_text};
use bgp_codec::{NumberOctets, PathOctets, PrefixOctets, SegmentKind, UpdateParts};
use std::alloc::AllocError;

// The most octets that may change for a prefix, and for a segment or a number of a path.
const PREFIX_ROOM: usize = 21;

const ITEM_ROOM: usize = 13;

// The most that may change besides: 30 octets of words, 4 of a path that is none, 16 of an address, and the end.
const LINE_ROOM: usize = 64;

// Writes prefixes at a place, and answers the place behind them.
fn write_prefixes(text: &mut [u8], start: usize, prefixes: PrefixOctets<'_>) -> usize
    requires { start + 21 * length prefixes ≤ length text.old }
    ensures end { result ≤ start + 20 * length prefixes.entry }
    ensures text { take result text.new ≡ take start text.old ++ prefixes_text prefixes.entry }
{
    let mut at = start;
    let mut left = prefixes;
    'prefixes: while let Some(prefix) = left.next() {
        at = write_prefix(text, at, &prefix);
    }
    at
}

// Writes numbers with a mark between them, and answers the place behind them.
fn write_numbers(text: &mut [u8], start: usize, numbers: NumberOctets<'_>, mark: u8) -> usize
    requires { start + 13 * length numbers ≤ length text.old }
    ensures end { result ≤ start + 12 * length numbers.entry }
    ensures text { take result text.new ≡ take start text.old ++ join_with_byte mark (map decimal numbers.entry) }
{
    let mut left = numbers;
    let Some(first) = left.next() else {
        return start;
    };
    let mut at = write_decimal(text, start, first);
    'numbers: while let Some(number) = left.next() {
        at = write_mark(text, at, mark);
        at = write_decimal(text, at, number);
    }
    at
}

// Writes a segment: a set in braces, with commas, or a sequence, with dashes.
#[tactic(auto, unfolding(crate::specs::Printing::segment_text))]
fn write_segment(
    text: &mut [u8],
    start: usize,
    kind: SegmentKind,
    numbers: NumberOctets<'_>,
) -> usize
    requires { start + (13 * length numbers + 2) ≤ length text.old }
    ensures end { result ≤ start + (12 * length numbers.entry + 2) }
    ensures text { take result text.new ≡ take start text.old ++ segment_text (segment kind numbers.entry) }
{
    match kind {
        SegmentKind::AsSet => {
            let at = write_mark(text, start, b'{');
            let at = write_numbers(text, at, numbers, b',');
            write_mark(text, at, b'}')
        }
        SegmentKind::AsSequence => write_numbers(text, start, numbers, b'-'),
    }
}

// Writes the segments of a path with a dash between them, or that there is none.
#[tactic(auto, unfolding(crate::specs::Printing::segments_text))]
fn write_path(text: &mut [u8], start: usize, path: Option<PathOctets<'_>>) -> usize
    requires { start + (13 * items_of path + 4) ≤ length text.old }
    ensures end { result ≤ start + (13 * items_of path.entry + 4) }
    ensures text { take result text.new ≡ take start text.old ++ path_text path.entry }
{
    let Some(mut left) = path else {
        return write_text(text, start, b"none");
    };
    let Some((kind, numbers)) = left.next() else {
        return write_text(text, start, b"none");
    };
    let mut at = write_segment(text, start, kind, numbers);
    'segments: while let Some((kind, numbers)) = left.next() {
        at = write_mark(text, at, b'-');
        at = write_segment(text, at, kind, numbers);
    }
    at
}

// Writes the withdrawn prefixes, if there are any.
fn write_withdrawn(text: &mut [u8], start: usize, prefixes: PrefixOctets<'_>) -> usize
    requires { start + (21 * length prefixes + 9) ≤ length text.old }
    ensures end { result ≤ start + (20 * length prefixes.entry + 9) }
    ensures text { take result text.new ≡ take start text.old ++ withdrawn_text prefixes.entry }
{
    if prefixes.len() == 0 {
        return start;
    }
    let at = write_text(text, start, b" withdraw");
    write_prefixes(text, at, prefixes)
}

// Writes the announced prefixes and their routes, if there are any.
#[tactic(auto, unfolding(crate::specs::Printing::route_text))]
fn write_announced(
    text: &mut [u8],
    start: usize,
    prefixes: PrefixOctets<'_>,
    path: Option<PathOctets<'_>>,
    next_hop: Option<u32>,
) -> usize
    requires { start + (21 * length prefixes + (13 * items_of path + 41)) ≤ length text.old }
    ensures end { result ≤ start + (20 * length prefixes.entry + (13 * items_of path.entry + 40)) }
    ensures text { (a : Attrs) → path.entry ≡ a.path → next_hop ≡ a.next_hop
        → take result text.new ≡ take start text.old ++ announced_text a prefixes.entry }
{
    if prefixes.len() == 0 {
        return start;
    }
    let at = write_text(text, start, b" announce");
    let at = write_prefixes(text, at, prefixes);
    let at = write_text(text, at, b" path ");
    let at = write_path(text, at, path);
    let at = write_text(text, at, b" next ");
    write_address(text, at, next_hop.unwrap_or(0))
}

// Writes the line at a place, and answers the place behind it.
#[tactic(auto, unfolding(crate::specs::Printing::update_line))]
fn write_line(text: &mut [u8], start: usize, parts: UpdateParts<'_>) -> usize
    requires { start + (21 * (length parts.withdrawn + length parts.nlri) + (13 * items_of parts.path + 64))
        ≤ length text.old }
    ensures { (u : Update) → Shows parts.entry u → take result text.new ≡ take start text.old ++ line (update_line u) }
{
    let UpdateParts {
        withdrawn,
        path,
        next_hop,
        nlri,
    } = parts;
    let at = write_text(text, start, b"update");
    let at = write_withdrawn(text, at, withdrawn);
    let at = write_announced(text, at, nlri, path, next_hop);
    write_mark(text, at, b'\n')
}

/// Appends the line of an UPDATE whose parts these are. It grows once, by the most that the line can take. It is
/// refused only for want of memory, and then changes nothing.
pub fn parts_line(parts: UpdateParts<'_>, out: &mut Vec<u8>) -> Result<(), AllocError>
    ensures ok { OnOk result
        ((u : Update) → Shows parts.entry u → out.new.items ≡ out.old.items ++ line (update_line u)) }
    ensures err { OnErr result (out.new.items ≡ out.old.items) }
{
    let start = out.len();
    let items = match &parts.path {
        Some(path) => path.most_items(),
        None => 0,
    };
    let room = parts
        .withdrawn
        .len()
        .saturating_add(parts.nlri.len())
        .saturating_mul(PREFIX_ROOM)
        .saturating_add(items.saturating_mul(ITEM_ROOM).saturating_add(LINE_ROOM));
    out.resize(start.saturating_add(room), 0)?;
    let end = write_line(out.as_mut_slice(), start, parts);
    out.truncate(end);
    Ok(())
}
