//! NOTIFICATION (RFC 4271 section 4.5): its fields, its reader and its writer.

ghost use Rattle.std.specs.Prelude.{◌≡◌, ◌+◌, ◌≤◌, ◌<◌, ◌⊎◌, ◌++◌, ◌∷◌, IsOk, IfOk, IfErr, Ok, Err, length, vec_len, vec_capacity};
ghost use Rattle.bgp_codec.specs.Spelling.{notice_octets};
ghost use Rattle.bgp_codec.specs.Faults.{notice_reading};

use crate::fault::{CodecError, Fault};
use crate::message::Message;
use crate::octets::Octets;
use std::alloc::Global;

/// What a NOTIFICATION says (RFC 4271 section 4.5).
#[derive(Debug, Drop)]
pub struct Notice {
    /// The error code.
    pub code: u8,
    /// The error subcode.
    pub sub: u8,
    /// The data: whatever stands behind the two codes.
    pub extra: Octets,
}

/// The NOTIFICATION that tells a peer of a fault. It is refused only for want of memory, and never
/// for data of sixteen octets or fewer.
pub fn notice_of(alloc: Global, fault: &Fault) -> Result<Notice, CodecError>
    ensures ok { IfOk result
        (λ notice. (notice.code ≡ fault.now.code) × (notice.sub ≡ fault.now.sub) × (notice.extra ≡ fault.now.extra)) }
    ensures err { IfErr result (λ error. error ≡ CodecError.Memory) }
    ensures short { length fault.now.extra ≤ 16 → IsOk result }
{
    let extra = Octets::from_slice(alloc, fault.extra.as_slice())?;
    Ok(Notice {
        code: fault.code,
        sub: fault.sub,
        extra,
    })
}

// The NOTIFICATION of a body: code at 0, subcode at 1, data from 2. Data of at most sixteen octets take no memory.
pub(crate) fn read_notice(alloc: Global, body: &[u8]) -> Result<Message, CodecError>
    requires { 2 ≤ length body.now }
    ensures { (result ≡ Ok (notice_reading body.now)) ⊎ ((result ≡ Err CodecError.Memory) × (18 < length body.now)) }
{
    let extra = Octets::from_slice(alloc, &body[2..])?;
    Ok(Message::NoticeMsg(Notice {
        code: body[0],
        sub: body[1],
        extra,
    }))
}

// Appends the body of a NOTIFICATION, for which there is room.
pub(crate) fn put_notice(out: &mut Vec<u8>, notice: &Notice)
    requires { vec_len out.old + length (notice_octets notice.now) ≤ vec_capacity out.old }
    ensures items { out.new.items ≡ out.old.items ++ notice_octets notice.now }
    ensures capacity { vec_capacity out.old ≤ vec_capacity out.new }
{
    out.push_reserved(notice.code);
    out.push_reserved(notice.sub);
    out.extend_from_slice(notice.extra.as_slice()).unwrap();
}
