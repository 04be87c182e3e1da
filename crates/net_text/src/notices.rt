//! The line of a NOTIFICATION.

ghost use Rattle.std.specs.Prelude.{◌≡◌, ◌+◌, ◌*◌, ◌≤◌, ◌++◌, length, take, OnOk, OnErr};
ghost use Rattle.net_text.specs.Printing.{line, notice_line, noticed};

use crate::texts::{write_hex_or_dash, write_mark, write_octet, write_text};
use std::alloc::AllocError;

// The most octets that may change besides two for each octet of data: the word, two codes of four and a space behind
// each, a dash, and the end.
const NOTICE_ROOM: usize = 25;

// Writes the line at a place, and answers the place behind it.
#[tactic(auto, unfolding(crate::specs::Printing::notice_line))]
fn write_notice(text: &mut [u8], at: usize, code: u8, sub: u8, extra: &[u8]) -> usize
    requires { at + (2 * length extra.now + NOTICE_ROOM) ≤ length text.old }
    ensures { take result text.new ≡ take at text.old ++ line (notice_line (noticed code sub extra.now)) }
{
    let at = write_text(text, at, b"notification ");
    let at = write_octet(text, at, code);
    let at = write_mark(text, at, b' ');
    let at = write_octet(text, at, sub);
    let at = write_mark(text, at, b' ');
    let at = write_hex_or_dash(text, at, extra);
    write_mark(text, at, b'\n')
}

/// Appends the line of a NOTIFICATION: its code, its subcode, its data. It grows once, by the most that the line can
/// take. It is refused only for want of memory, and then changes nothing.
pub fn notice_line(code: u8, sub: u8, extra: &[u8], out: &mut Vec<u8>) -> Result<(), AllocError>
    ensures ok { OnOk result (out.new.items ≡ out.old.items ++ line (notice_line (noticed code sub extra.now))) }
    ensures err { OnErr result (out.new.items ≡ out.old.items) }
{
    let start = out.len();
    let room = extra.len().saturating_mul(2).saturating_add(NOTICE_ROOM);
    out.resize(start.saturating_add(room), 0)?;
    let end = write_notice(out.as_mut_slice(), start, code, sub, extra);
    out.truncate(end);
    Ok(())
}
