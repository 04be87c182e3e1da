//! What is printed for a stream of messages.

ghost use Rattle.std.specs.Prelude.{◌≡◌, ◌≤◌, ◌++◌, ℕ, List, None, drop, length, take, IfOk};
ghost use Rattle.bgp_values.specs.declared.messages.TheConstants.{KEEPALIVE, UPDATE};
ghost use Rattle.bgp_codec.specs.Header.{IsFrame, kind_field};
ghost use Rattle.bgp_framing.specs.Frames.{IsPartial};
ghost use Rattle.text_engines.specs.Decoding.{output, StreamGives, Leads, PutsFrame, PutsShort};

use crate::status::{DONE, REFUSED};
use bgp_codec::laws::{fault_fits_a_message, header_fault_is_short};
use bgp_codec::{CodecError, Message, Rule, decode, update_parts};
use bgp_framing::laws::{splits_behind_a_frame, splits_into_nothing, splits_once};
use bgp_framing::{Next, next_message};
use bgp_values::{HEADER_LEN, KEEPALIVE, NOTIFICATION, UPDATE};
use net_text::{fault_lines, message_line, notice_line, parts_line, truncated_line};
use std::alloc::{AllocError, Global};

// Appends what is printed for a frame that is decoded, and answers the status where nothing follows it. A message is
// large, and a function pays for what it may hold as it begins: so this stands apart.
#[inline(never)]
fn put_decoded(
    alloc: Global,
    rule: &Rule,
    frame: &[u8],
    out: &mut Vec<u8>,
) -> Result<Option<u8>, AllocError>
    requires { IsFrame frame.now }
    ensures { IfOk result (PutsFrame rule.now frame.now out.old.items out.new.items) }
{
    fault_fits_a_message();
    match decode(alloc, frame, rule) {
        Ok(message) => {
            message_line(&message, out)?;
            Ok(None)
        }
        Err(CodecError::Fault(fault)) => {
            fault_lines(&fault, out)?;
            Ok(Some(REFUSED))
        }
        Err(CodecError::TooLong | CodecError::Memory) => Err(AllocError),
    }
}

// Appends what is printed for an UPDATE, from its octets, and answers the status where nothing follows it.
fn put_update(
    alloc: Global,
    rule: &Rule,
    frame: &[u8],
    out: &mut Vec<u8>,
) -> Result<Option<u8>, AllocError>
    requires frame { IsFrame frame.now }
    requires kind { kind_field frame.now ≡ UPDATE }
    ensures { IfOk result (PutsFrame rule.now frame.now out.old.items out.new.items) }
{
    fault_fits_a_message();
    match update_parts(alloc, frame, rule) {
        Ok(parts) => {
            parts_line(parts, out)?;
            Ok(None)
        }
        Err(CodecError::Fault(fault)) => {
            fault_lines(&fault, out)?;
            Ok(Some(REFUSED))
        }
        Err(CodecError::TooLong | CodecError::Memory) => Err(AllocError),
    }
}

// Appends what is printed for a frame, and answers the status where nothing follows it. A KEEPALIVE says nothing, and a
// NOTIFICATION has no check of its own: its parts stand behind the header.
#[inline(always)]
fn put_frame(
    alloc: Global,
    rule: &Rule,
    frame: &[u8],
    out: &mut Vec<u8>,
) -> Result<Option<u8>, AllocError>
    requires { IsFrame frame.now }
    ensures { IfOk result (PutsFrame rule.now frame.now out.old.items out.new.items) }
{
    let (_, body) = frame.split_at(HEADER_LEN);
    match (frame[18], body) {
        (KEEPALIVE, _) => message_line(&Message::AliveMsg, out)?,
        (NOTIFICATION, [code, sub, extra @ ..]) => notice_line(*code, *sub, extra, out)?,
        (UPDATE, _) => return put_update(alloc, rule, frame, out),
        _ => return put_decoded(alloc, rule, frame, out),
    }
    Ok(None)
}

// Appends what is printed for a rest that is no whole message, and answers the status.
fn put_rest(out: &mut Vec<u8>, len: usize) -> Result<u8, AllocError>
    ensures { IfOk result (PutsShort len out.old.items out.new.items) }
{
    if len == 0 {
        return Ok(DONE);
    }
    truncated_line(len, out)?;
    Ok(REFUSED)
}

/// Appends what is printed for the whole messages in front. It answers how many octets they have, and the status where
/// nothing is printed for what follows: then these are all octets.
pub fn put_messages(
    alloc: Global,
    rule: &Rule,
    octets: &[u8],
    out: &mut Vec<u8>,
) -> Result<(usize, Option<u8>), AllocError>
    ensures bound { IfOk result (λ put. put.0 ≤ length octets.now) }
    ensures text { IfOk result
        (λ put. (before : List ℕ) → Leads rule.now before out.old.items None
        → Leads rule.now (before ++ take put.0 octets.now) out.new.items put.1) }
    ensures rest { IfOk result (λ put. put.1 ≡ None → IsPartial (drop put.0 octets.now)) }
{
    header_fault_is_short();
    splits_once();
    splits_behind_a_frame();
    splits_into_nothing();
    let mut at = 0usize;
    'front: loop {
        let (_, left) = octets.split_at(at);
        match next_message(alloc, left) {
            Next::Whole(_, end) => {
                let (frame, _) = left.split_at(end);
                if let Some(status) = put_frame(alloc, rule, frame, out)? {
                    return Ok((octets.len(), Some(status)));
                }
                at += end;
            }
            Next::Bad(fault) => {
                fault_lines(&fault, out)?;
                return Ok((octets.len(), Some(REFUSED)));
            }
            Next::More => return Ok((at, None)),
        }
    }
}

/// Appends what is printed for the last octets of a stream, and answers the status.
pub fn put_last(
    alloc: Global,
    rule: &Rule,
    octets: &[u8],
    out: &mut Vec<u8>,
) -> Result<u8, AllocError>
    ensures { IfOk result
        (λ status. (before : List ℕ) → Leads rule.now before out.old.items None
        → StreamGives rule.now (before ++ octets.now) (output out.new.items status)) }
{
    splits_into_nothing();
    match put_messages(alloc, rule, octets, out)? {
        (_, Some(status)) => Ok(status),
        (used, None) => put_rest(out, octets.len() - used),
    }
}
