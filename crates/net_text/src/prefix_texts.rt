//! Prefixes as text, written behind what a buffer has.

ghost use Rattle.std.specs.Prelude.{◌≡◌, ◌+◌, ◌*◌, ◌≤◌, ◌++◌, length, take, OnOk, OnErr};
ghost use Rattle.net_text.specs.Printing.{prefix_text, prefixes_text};

use crate::texts::{write_address, write_mark, write_octet};
use prefix_lanes::Prefix;
use std::alloc::AllocError;

// The most octets that may change where a prefix is written: five numbers, a mark before each, and
// the place behind the last.
const PREFIX_ROOM: usize = 21;

/// Writes a prefix at a place, with a space before it, and answers the place behind it. Twenty-one octets may change.
#[tactic(auto, unfolding(crate::specs::Printing::prefix_text))]
pub fn write_prefix(text: &mut [u8], at: usize, prefix: &Prefix) -> usize
    requires { at + 21 ≤ length text.old }
    ensures end { result ≤ at + 20 }
    ensures text { take result text.new ≡ take at text.old ++ prefix_text prefix.now }
{
    let at = write_mark(text, at, b' ');
    let at = write_address(text, at, prefix.addr());
    let at = write_mark(text, at, b'/');
    write_octet(text, at, prefix.len())
}

// Writes prefixes at a place, and answers the place behind them.
fn write_prefixes(text: &mut [u8], start: usize, prefixes: &[Prefix]) -> usize
    requires { start + PREFIX_ROOM * length prefixes.now ≤ length text.old }
    ensures { take result text.new ≡ take start text.old ++ prefixes_text prefixes.now }
{
    let mut at = start;
    for prefix in prefixes {
        at = write_prefix(text, at, prefix);
    }
    at
}

/// Appends prefixes, a space before each. It grows once, by the most that they can take.
pub fn put_prefixes(out: &mut Vec<u8>, prefixes: &[Prefix]) -> Result<(), AllocError>
    ensures ok { OnOk result (out.new.items ≡ out.old.items ++ prefixes_text prefixes.now) }
    ensures err { OnErr result (out.new.items ≡ out.old.items) }
{
    let start = out.len();
    let room = prefixes.len().saturating_mul(PREFIX_ROOM);
    out.resize(start.saturating_add(room), 0)?;
    let end = write_prefixes(out.as_mut_slice(), start, prefixes);
    out.truncate(end);
    Ok(())
}
