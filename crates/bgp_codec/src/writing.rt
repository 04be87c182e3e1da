//! From messages to octets.

ghost use Rattle.std.specs.Prelude.{◌≡◌, ◌+◌, ◌-◌, ◌^◌, min, ◌<◌, ◌≤◌, ◌∷◌, [], ◌++◌, ◌⊎◌, ◌↔◌, IfErr, OnOk, OnErr, IsErrOf, IsOk, length, vec_len, vec_capacity};
ghost use Rattle.bgp_codec.specs.declared.writing.TheConstants.{MOST_BODY};
ghost use Rattle.bgp_values.specs.declared.messages.TheConstants.{HEADER_LEN, MESSAGE_LIMIT};
ghost use Rattle.bgp_codec.specs.Spelling.{IsWritable, header_of, kind_of, written_body, written};

use crate::fault::CodecError;
use crate::message::Message;
use crate::notice::put_notice;
use crate::open::{params_len, put_open};
use crate::rule::Rule;
use crate::update::{put_update, update_len};
use bgp_values::{HEADER_LEN, KEEPALIVE, MESSAGE_LIMIT, NOTIFICATION, OPEN, UPDATE, Width};

const MARKER: [u8; 16] = [0xff; 16];

// The most octets of a body.
const MOST_BODY: usize = MESSAGE_LIMIT - HEADER_LEN;

// Appends the header of a message with so many octets behind it, for which there is room.
fn put_header(out: &mut Vec<u8>, kind: u8, body_len: usize)
    requires fits { body_len ≤ MOST_BODY }
    requires room { vec_len out.old + HEADER_LEN ≤ vec_capacity out.old }
    ensures items { out.new.items ≡ out.old.items ++ header_of kind body_len }
    ensures len { vec_len out.new ≡ vec_len out.old + HEADER_LEN }
    ensures capacity { vec_capacity out.old ≤ vec_capacity out.new }
{
    let [high, low] = ((HEADER_LEN + body_len) as u16).to_be_bytes();
    out.extend_from_slice(&MARKER).unwrap();
    out.push_reserved(high);
    out.push_reserved(low);
    out.push_reserved(kind);
}

// How many octets the body has as it is written. The sum stops at `usize::MAX`.
fn body_len(message: &Message, width: Width) -> usize
    ensures { result ≡ min (2 ^ 64 - 1) (length (written_body width message.now)) }
{
    match message {
        Message::OpenMsg(message) => params_len(message.params.as_slice()).saturating_add(10),
        Message::UpdateMsg(message) => update_len(width, message),
        Message::NoticeMsg(notice) => notice.extra.len().saturating_add(2),
        Message::AliveMsg => 0,
    }
}

fn kind_of(message: &Message) -> u8
    ensures { result ≡ kind_of message.now }
{
    match message {
        Message::OpenMsg(_) => OPEN,
        Message::UpdateMsg(_) => UPDATE,
        Message::NoticeMsg(_) => NOTIFICATION,
        Message::AliveMsg => KEEPALIVE,
    }
}

fn put_body(out: &mut Vec<u8>, message: &Message, rule: &Rule)
    requires fit { IsWritable rule.now message.now }
    requires room { vec_len out.old + length (written_body rule.now.width message.now) ≤ vec_capacity out.old }
    ensures items { out.new.items ≡ out.old.items ++ written_body rule.now.width message.now }
    ensures capacity { vec_capacity out.old ≤ vec_capacity out.new }
{
    match message {
        Message::OpenMsg(message) => put_open(out, message),
        Message::UpdateMsg(message) => put_update(out, rule.width, message),
        Message::NoticeMsg(notice) => put_notice(out, notice),
        Message::AliveMsg => {}
    }
}

/// How many octets [`put_message`] and [`encode`] write for a message. The sum stops at `usize::MAX`.
pub fn written_len(message: &Message, width: Width) -> usize
    ensures { result ≡ min (2 ^ 64 - 1) (length (written width message.now)) }
{
    body_len(message, width).saturating_add(HEADER_LEN)
}

/// Appends the one written spelling of a message to a vector that has room for it. It takes no memory and cannot be
/// refused. It never lowers the capacity: if room was reserved for several messages, each can be written in turn.
pub fn put_message(out: &mut Vec<u8>, message: &Message, rule: &Rule)
    requires writable { IsWritable rule.now message.now }
    requires fits { length (written rule.now.width message.now) ≤ MESSAGE_LIMIT }
    requires room { vec_len out.old + length (written rule.now.width message.now) ≤ vec_capacity out.old }
    ensures items { out.new.items ≡ out.old.items ++ written rule.now.width message.now }
    ensures capacity { vec_capacity out.old ≤ vec_capacity out.new }
{
    let len = body_len(message, rule.width);
    put_header(out, kind_of(message), len);
    put_body(out, message, rule);
}

/// Appends the one written spelling of a message.
///
/// It refuses a message of more than 4096 octets with [`CodecError::TooLong`], and with
/// [`CodecError::Memory`] only where the vector had no room and a growth was refused. A refused
/// call leaves the vector and its capacity as they were.
pub fn encode(message: &Message, rule: &Rule, out: &mut Vec<u8>) -> Result<(), CodecError>
    requires { IsWritable rule.now message.now }
    ensures ok { OnOk result (out.new.items ≡ out.old.items ++ written rule.now.width message.now) }
    ensures too_long { IsErrOf result CodecError.TooLong
        ↔ (MESSAGE_LIMIT < length (written rule.now.width message.now)) }
    // Want of memory is answered only where room was missing.
    ensures only { IfErr result
        (λ error. (error ≡ CodecError.TooLong)
        ⊎ ((error ≡ CodecError.Memory)
        × (vec_capacity out.old < vec_len out.old + length (written rule.now.width message.now)))) }
    ensures err { OnErr result ((out.new.items ≡ out.old.items) × (vec_capacity out.new ≡ vec_capacity out.old)) }
{
    let len = body_len(message, rule.width);
    if len > MOST_BODY {
        return Err(CodecError::TooLong);
    }
    out.reserve(HEADER_LEN + len)?;
    put_message(out, message, rule);
    Ok(())
}
