//! The lines that messages and faults are printed as, and those that a check of an assignment
//! prints. Each call appends whole lines, with their ends; a refused call changes nothing.

ghost use Rattle.std.specs.Prelude.{◌≡◌, ◌+◌, ◌++◌, ◌<◌, ◌≤◌, codes, length, vec_len, vec_capacity, OnOk, OnErr};
ghost use Rattle.bgp_values.specs.declared.messages.TheConstants.{MOST_DATA};
ghost use Rattle.net_text.specs.Printing.{line, message_line, fault_lines, flight_line, truncated_line, refused_line, unstable_line, stable_line};
ghost use Rattle.net_text.specs.Appending.{text_of, IsSendable};

use crate::checks::{put_refused, put_unstable};
use crate::messages::{put_fault, put_open, put_truncated};
use crate::notices::notice_line;
use crate::tail::TextTail;
use crate::updates::{put_flight, put_update};
use bgp_codec::{Fault, Message, Open, Update};
use ranked_policy::Asn;
use std::alloc::{AllocError, Global};

// The parts of a line, or of the two lines of a fault.
#[derive(Clone, Copy)]
enum Line<'a> {
    Open(&'a Open),
    Update(&'a Update),
    // From whom, to whom.
    Flight(Asn, Asn, &'a Update),
    Fault(&'a Fault),
    // How many octets are left.
    Truncated(usize),
    // The line of the text, and the code.
    Refused(usize, &'a [u8]),
    // The router, the path that it has, and its best.
    Unstable(Asn, &'a [Asn], &'a [Asn]),
}

// Writes the line. A refused call may leave a part of it.
fn put_line(alloc: Global, out: &mut TextTail, line: &Line) -> Result<(), AllocError>
    requires { IsSendable line.now }
    ensures text { OnOk result (out.new.text ≡ out.old.text ++ text_of line.now) }
    ensures front { out.new.front ≡ out.old.front }
{
    match line {
        Line::Open(message) => put_open(out, message),
        Line::Update(message) => put_update(out, message),
        Line::Flight(from, to, message) => put_flight(out, *from, *to, message),
        Line::Fault(fault) => put_fault(alloc, out, fault),
        Line::Truncated(len) => put_truncated(out, *len),
        Line::Refused(line, code) => put_refused(out, *line, code),
        Line::Unstable(router, has, best) => put_unstable(out, *router, has, best),
    }
}

// Appends the whole line, or nothing of it.
fn append(out: &mut Vec<u8>, line: &Line) -> Result<(), AllocError>
    requires { IsSendable line.now }
    ensures ok { OnOk result (out.new.items ≡ out.old.items ++ text_of line.now) }
    ensures err { OnErr result (out.new.items ≡ out.old.items) }
{
    let alloc = *out.allocator();
    let mut tail = TextTail::behind(out);
    let result = put_line(alloc, &mut tail, line);
    *out = tail.finish(result.is_ok());
    result
}

/// Appends the line of a message (RFC 4271 section 4): its kind, then what it says. It is refused only for want of
/// memory, and then changes nothing. A KEEPALIVE is refused only where the buffer had no room for its line.
#[tactic(auto, unfolding(crate::specs::Printing::message_line))]
pub fn message_line(message: &Message, out: &mut Vec<u8>) -> Result<(), AllocError>
    ensures ok { OnOk result (out.new.items ≡ out.old.items ++ line (message_line message.now)) }
    ensures err { OnErr result (out.new.items ≡ out.old.items) }
    // Want of memory for a KEEPALIVE is answered only where room was missing.
    ensures only { message.now ≡ Message.AliveMsg
        → OnErr result (vec_capacity out.old < vec_len out.old + length (codes "keepalive\n")) }
{
    match message {
        Message::OpenMsg(message) => append(out, &Line::Open(message)),
        Message::UpdateMsg(message) => append(out, &Line::Update(message)),
        Message::NoticeMsg(notice) => {
            notice_line(notice.code, notice.sub, notice.extra.as_slice(), out)
        }
        Message::AliveMsg => out.extend_from_slice(b"keepalive\n"),
    }
}

/// Appends the line of an UPDATE that was in flight from one router to another. It is refused only
/// for want of memory, and then changes nothing.
pub fn flight_line(from: Asn, to: Asn, update: &Update, out: &mut Vec<u8>) -> Result<(), AllocError>
    ensures ok { OnOk result (out.new.items ≡ out.old.items ++ flight_line from to update.now) }
    ensures err { OnErr result (out.new.items ≡ out.old.items) }
{
    append(out, &Line::Flight(from, to, update))
}

/// Appends the two lines of a fault: its codes, and in hex the NOTIFICATION that tells of it (RFC
/// 4271 section 6). It is refused only for want of memory, and then changes nothing.
pub fn fault_lines(fault: &Fault, out: &mut Vec<u8>) -> Result<(), AllocError>
    requires { length fault.now.extra ≤ MOST_DATA }
    ensures ok { OnOk result (out.new.items ≡ out.old.items ++ fault_lines fault.now) }
    ensures err { OnErr result (out.new.items ≡ out.old.items) }
{
    append(out, &Line::Fault(fault))
}

/// Appends the line of a rest of so many octets that is no whole message. It is refused only for
/// want of memory, and then changes nothing.
pub fn truncated_line(len: usize, out: &mut Vec<u8>) -> Result<(), AllocError>
    ensures ok { OnOk result (out.new.items ≡ out.old.items ++ truncated_line len) }
    ensures err { OnErr result (out.new.items ≡ out.old.items) }
{
    append(out, &Line::Truncated(len))
}

/// Appends the line of a refusal: the line of the text that is refused, and the code of why. It is
/// refused only for want of memory, and then changes nothing.
pub fn refused_line(line: usize, code: &[u8], out: &mut Vec<u8>) -> Result<(), AllocError>
    ensures ok { OnOk result (out.new.items ≡ out.old.items ++ refused_line line code.now) }
    ensures err { OnErr result (out.new.items ≡ out.old.items) }
{
    append(out, &Line::Refused(line, code))
}

/// Appends the line of a router that would move: the path that it has, and its best. It is refused
/// only for want of memory, and then changes nothing.
pub fn unstable_line(
    router: Asn,
    has: &[Asn],
    best: &[Asn],
    out: &mut Vec<u8>,
) -> Result<(), AllocError>
    ensures ok { OnOk result (out.new.items ≡ out.old.items ++ unstable_line router has.now best.now) }
    ensures err { OnErr result (out.new.items ≡ out.old.items) }
{
    append(out, &Line::Unstable(router, has, best))
}

/// Appends the line that no router would move. It is refused only where the buffer had no room for
/// it and a growth was refused, and then changes nothing.
pub fn stable_line(out: &mut Vec<u8>) -> Result<(), AllocError>
    ensures ok { OnOk result (out.new.items ≡ out.old.items ++ stable_line) }
    ensures err { OnErr result (out.new.items ≡ out.old.items) }
    // Want of memory is answered only where room was missing.
    ensures only { OnErr result (vec_capacity out.old < vec_len out.old + length stable_line) }
{
    out.extend_from_slice(b"stable\n")
}
