//! The message or fault of a frame, and the event that it brings.

ghost use Rattle.std.specs.Prelude.{◌≡◌, Ok, Err, IfOk};
ghost use Rattle.bgp_codec.specs.Faults.{reading};
ghost use Rattle.bgp_codec.specs.Header.{IsFrame};
ghost use Rattle.bgp_codec.specs.declared.message.Message.TheVariants.{NoticeMsg};
ghost use Rattle.router_model.specs.Sides.{event_of, at_hand};
ghost use Rattle.router_side.specs.Drafts.{hand};
ghost use Rattle.router_side.specs.Sayings.{told_of, IsReadAs, IsSayableWhere};

use crate::brought::Brought;
use crate::told_path::ToldPath;
use bgp_codec::laws::{
    fault_fits_a_message, header_is_its_front, open_has_a_hold_time, spelt_is_writable,
    written_has_a_header,
};
use bgp_codec::{CodecError, Fault, Message, Notice, Rule, decode};
use bgp_values::{MESSAGE_HEADER_ERROR, OPEN_MESSAGE_ERROR, UNSUPPORTED_VERSION_NUMBER};
use session_fsm::FsmEvent;
use std::alloc::{AllocError, Global};

/// A message, or the fault of what was to be one.
pub type Decoded = Result<Message, Fault>;

// The message or fault of a frame, decoded.
pub(crate) fn decode_frame(alloc: Global, frame: &[u8], rule: &Rule) -> Result<Decoded, AllocError>
    requires { IsFrame frame.now }
    ensures reads { IfOk result (IsReadAs rule.now (reading rule.now frame.now)) }
    ensures told { IfOk result (λ read. IsSayableWhere rule.now.width (told_of (at_hand read))) }
{
    spelt_is_writable();
    open_has_a_hold_time();
    fault_fits_a_message();
    header_is_its_front();
    written_has_a_header();
    match decode(alloc, frame, rule) {
        Ok(message) => Ok(Ok(message)),
        Err(CodecError::Fault(fault)) => Ok(Err(fault)),
        Err(CodecError::TooLong | CodecError::Memory) => Err(AllocError),
    }
}

/// The message or fault of a frame. If the frame is the one UPDATE that tells a path, the path is read from its octets,
/// and nothing is decoded. It is refused only for want of memory.
pub fn read_frame(alloc: Global, frame: &[u8], rule: &Rule) -> Result<Decoded, AllocError>
    requires { IsFrame frame.now }
    ensures reads { IfOk result (IsReadAs rule.now (reading rule.now frame.now)) }
    ensures told { IfOk result (λ read. IsSayableWhere rule.now.width (told_of (at_hand read))) }
{
    if let Some(peer) = rule.peer {
        if let Some(told) = ToldPath::read(alloc, rule.width, peer, frame)? {
            return Ok(Ok(Message::UpdateMsg(told.into_update(alloc))));
        }
    }
    decode_frame(alloc, frame, rule)
}

fn fault_event(fault: &Fault) -> FsmEvent
    ensures { result ≡ event_of (Err fault.now) }
{
    match fault.code {
        MESSAGE_HEADER_ERROR => FsmEvent::BgpHeaderErr,
        OPEN_MESSAGE_ERROR => FsmEvent::BgpOpenMsgErr,
        _ => FsmEvent::UpdateMsgErr,
    }
}

fn notice_event(notice: &Notice) -> FsmEvent
    ensures { result ≡ event_of (Ok (NoticeMsg notice.now)) }
{
    if notice.code == OPEN_MESSAGE_ERROR && notice.sub == UNSUPPORTED_VERSION_NUMBER {
        FsmEvent::NotifMsgVerErr
    } else {
        FsmEvent::NotifMsg
    }
}

/// The event that a message or fault brings, and what is at hand with it. An UPDATE is moved.
pub fn opened(read: Decoded) -> (FsmEvent, Brought)
    ensures event { result.0 ≡ event_of read }
    ensures given { hand result.1 ≡ at_hand read }
{
    match read {
        Ok(Message::OpenMsg(open)) => (FsmEvent::BgpOpen { hold: open.hold }, Brought::Nothing),
        Ok(Message::UpdateMsg(update)) => (FsmEvent::UpdateMsg, Brought::Update(update)),
        Ok(Message::NoticeMsg(notice)) => (notice_event(&notice), Brought::Nothing),
        Ok(Message::AliveMsg) => (FsmEvent::KeepAliveMsg, Brought::Nothing),
        Err(fault) => {
            let event = fault_event(&fault);
            let notice = Notice {
                code: fault.code,
                sub: fault.sub,
                extra: fault.extra,
            };
            (event, Brought::Fault(notice))
        }
    }
}
