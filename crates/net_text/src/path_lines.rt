//! The line of a path, behind a word, the number of a router and a prefix.

ghost use Rattle.std.specs.Prelude.{◌≡◌, ◌+◌, ◌*◌, ◌≤◌, ◌++◌, length, take, OnOk, OnErr};
ghost use Rattle.net_text.specs.Printing.{routed_line};

use crate::decimals::{write_decimal, write_path};
use crate::prefix_texts::write_prefix;
use crate::texts::{write_mark, write_text};
use prefix_lanes::Prefix;
use ranked_policy::Asn;
use std::alloc::AllocError;

// The most octets that may change where a number of the path is written.
const HOP_ROOM: usize = 13;

// The most octets that may change besides, those of the word aside: a number, a prefix, a space, four
// where there is no path, and the end.
const LINE_ROOM: usize = 37;

// Writes the line at a place, and answers the place behind it.
#[tactic(auto, unfolding(crate::specs::Printing::routed_line))]
fn write_path_line(
    text: &mut [u8],
    at: usize,
    word: &[u8],
    number: Asn,
    prefix: &Prefix,
    path: &[Asn],
) -> usize
    requires { at + (length word.now + (HOP_ROOM * length path.now + LINE_ROOM)) ≤ length text.old }
    ensures { take result text.new ≡ take at text.old ++ routed_line word.now number prefix.now path.now }
{
    let at = write_text(text, at, word);
    let at = write_decimal(text, at, number);
    let at = write_prefix(text, at, prefix);
    let at = write_mark(text, at, b' ');
    let at = write_path(text, at, path);
    write_mark(text, at, b'\n')
}

/// Appends a line of a word, the number of a router, a prefix and a path, `none` where that is empty. It grows once, by
/// the most that the line can take. It is refused only for want of memory, and then changes nothing.
pub fn path_line(
    word: &[u8],
    number: Asn,
    prefix: &Prefix,
    path: &[Asn],
    out: &mut Vec<u8>,
) -> Result<(), AllocError>
    ensures ok { OnOk result (out.new.items ≡ out.old.items ++ routed_line word.now number prefix.now path.now) }
    ensures err { OnErr result (out.new.items ≡ out.old.items) }
{
    let start = out.len();
    let hops = path.len().saturating_mul(HOP_ROOM);
    let room = hops.saturating_add(LINE_ROOM).saturating_add(word.len());
    out.resize(start.saturating_add(room), 0)?;
    let end = write_path_line(out.as_mut_slice(), start, word, number, prefix, path);
    out.truncate(end);
    Ok(())
}
