//! From octets to messages.

ghost use Rattle.std.specs.Prelude.{◌≡◌, ◌+◌, ◌⊎◌, ◌≤◌, ◌<◌, length, IsOk, IfOk, IfErr, IfSome, Err};
ghost use Rattle.bgp_values.specs.declared.messages.TheConstants.{KEEPALIVE, NOTIFICATION, UPDATE, LEAST_NOTIFICATION};
ghost use Rattle.bgp_codec.specs.declared.message.Message.TheVariants.{OpenMsg, UpdateMsg};
ghost use Rattle.bgp_codec.specs.Header.{IsFrame, kind_field};
ghost use Rattle.bgp_codec.specs.Reading.{Decodes, Gives, Judges};
ghost use Rattle.bgp_codec.specs.Judging.{ShowsUpdate};
ghost use Rattle.bgp_codec.specs.Spelling.{Spells};
ghost use Rattle.bgp_codec.specs.Opens.{open_reading};
ghost use Rattle.bgp_codec.specs.UpdateReading.{update_reading};
ghost use Rattle.bgp_codec.specs.Faults.{read_as, reading, fault, RefusesAs};

use crate::fault::CodecError;
use crate::judging::{judge_open, judge_update};
use crate::message::Message;
use crate::notice::read_notice;
use crate::open::read_open;
use crate::parts::UpdateParts;
use crate::rule::Rule;
use crate::update::read_update;
use bgp_values::{HEADER_LEN, NOTIFICATION, OPEN, UPDATE};
use prefix_lanes::{a_prefix_is_its_bits, masking_clears_bits};
use std::alloc::Global;

// The OPEN of a body, or its first fault. If reading meets want of memory, the octets are searched for a fault without
// memory.
#[inline(never)]
fn decode_open(alloc: Global, body: &[u8], rule: &Rule) -> Result<Message, CodecError>
    requires { 10 ≤ length body.now }
    ensures { Decodes result (read_as OpenMsg (open_reading rule.now body.now)) }
{
    match read_open(alloc, body, rule) {
        Ok(open) => Ok(Message::OpenMsg(open)),
        Err(CodecError::Memory) => {
            judge_open(alloc, body, rule)?;
            Err(CodecError::Memory)
        }
        Err(error) => Err(error),
    }
}

// The UPDATE of a body, or its first fault. If reading meets want of memory, the octets are searched for a fault
// without memory.
#[inline(never)]
fn decode_update(alloc: Global, body: &[u8], rule: &Rule) -> Result<Message, CodecError>
    requires { 4 ≤ length body.now }
    ensures { Decodes result (read_as UpdateMsg (update_reading rule.now body.now)) }
{
    match read_update(alloc, body, rule) {
        Ok(update) => Ok(Message::UpdateMsg(update)),
        Err(CodecError::Memory) => {
            judge_update(alloc, body, rule)?;
            Err(CodecError::Memory)
        }
        Err(error) => Err(error),
    }
}

// The message that a frame spells, or its first fault, by its type.
#[inline(always)]
#[tactic(auto, unfolding(crate::specs::Faults::reading))]
fn decode_by_type(alloc: Global, frame: &[u8], rule: &Rule) -> Result<Message, CodecError>
    requires { IsFrame frame.now }
    ensures decodes { Decodes result (reading rule.now frame.now) }
    ensures alive { kind_field frame.now ≡ KEEPALIVE → IsOk result }
    ensures short { kind_field frame.now ≡ NOTIFICATION → length frame.now ≤ LEAST_NOTIFICATION + 16 → IsOk result }
{
    let (_, body) = frame.split_at(HEADER_LEN);
    match frame[18] {
        OPEN => decode_open(alloc, body, rule),
        UPDATE => decode_update(alloc, body, rule),
        NOTIFICATION => read_notice(alloc, body),
        _ => Ok(Message::AliveMsg),
    }
}

/// The parts of the UPDATE that a frame spells, or its first fault, as [`decode`] reads them.
///
/// It takes no memory but for a fault's own data of more than sixteen octets: [`CodecError::Memory`] stands in the place
/// of that fault alone.
pub fn update_parts<'a>(
    alloc: Global,
    frame: &'a [u8],
    rule: &Rule,
) -> Result<UpdateParts<'a>, CodecError>
    requires frame { IsFrame frame.now }
    requires kind { kind_field frame.now ≡ UPDATE }
    ensures parts { Judges ShowsUpdate result (reading rule.now frame.now) }
    ensures refused { IfErr result (RefusesAs rule.now frame.now) }
{
    let (_, body) = frame.split_at(HEADER_LEN);
    judge_update(alloc, body, rule)
}

/// The message that a frame spells, or its first fault. A frame is the octets of one message: its header is good, and
/// its Length is their number.
///
/// A frame with faults is refused with the first one (RFC 4271 section 6). [`CodecError::Memory`] stands in its place
/// only if the fault's own data have more than sixteen octets and found no memory. A frame without faults is refused
/// only for want of memory: never a KEEPALIVE, and never a NOTIFICATION of at most sixteen octets of data.
#[inline(always)]
pub fn decode(alloc: Global, frame: &[u8], rule: &Rule) -> Result<Message, CodecError>
    requires { IsFrame frame.now }
    // The frame is a spelling of the message.
    ensures spelt { IfOk result (λ message. Spells rule.now frame.now message) }
    // A frame with a fault is refused with the first one, also where a growth for what stands before it was refused.
    // Only data of more than sixteen octets can themselves meet want of memory.
    ensures fault { IfSome (fault rule.now frame.now)
        (λ first. (result ≡ Err (CodecError.Fault first))
        ⊎ ((result ≡ Err CodecError.Memory) × (16 < length first.extra))) }
    // Which message or refusal it is.
    ensures exact { Gives (λ message. message) result (reading rule.now frame.now) }
    ensures refused { IfErr result (RefusesAs rule.now frame.now) }
    // What takes no memory is never refused for want of it: a KEEPALIVE, and a NOTIFICATION of at most sixteen octets
    // of data. The frame of such a NOTIFICATION has at most sixteen more than the least.
    ensures alive { kind_field frame.now ≡ KEEPALIVE → IsOk result }
    ensures short { kind_field frame.now ≡ NOTIFICATION → length frame.now ≤ LEAST_NOTIFICATION + 16 → IsOk result }
{
    a_prefix_is_its_bits();
    masking_clears_bits();
    decode_by_type(alloc, frame, rule)
}
