//! What is wrong with a message, and why a call of this crate refuses one.

ghost use Rattle.std.specs.Prelude.{◌≡◌, ◌<◌, ◌⊎◌, length};
ghost use Rattle.bgp_codec.specs.Opens.{open_fault};
ghost use Rattle.bgp_codec.specs.UpdateReading.{update_fault, attr_fault};
ghost use Rattle.bgp_codec.specs.declared.fault.CodecError.TheVariants.{Memory};

use crate::octets::Octets;
use bgp_values::{OPEN_MESSAGE_ERROR, UPDATE_MESSAGE_ERROR};
use std::alloc::{AllocError, AllocFailed, Global};
use thiserror::Error;

/// A fault as a NOTIFICATION names it (RFC 4271 sections 4.5 and 6).
#[derive(Debug, Drop)]
pub struct Fault {
    /// The error code: 1 for a header, 2 for an OPEN, 3 for an UPDATE.
    pub code: u8,
    /// The error subcode.
    pub sub: u8,
    /// The data that section 6 wants beside the two codes, as it stands in the message.
    pub extra: Octets,
}

/// Why a call of this crate refused. What it was lent is unchanged.
#[derive(Debug, Drop, Error)]
pub enum CodecError {
    /// The octets have this fault, the first in the order of checking.
    #[error("fault {} {}", .0.code, .0.sub)]
    Fault(Fault),
    /// The message would be longer than 4096 octets, the most that RFC 4271 section 4.1 allows.
    #[error("a message longer than 4096 octets")]
    TooLong,
    /// A growth was refused.
    #[error("memory")]
    Memory,
}

// The fault of an OPEN with this subcode and no data.
pub(crate) fn open_fault(alloc: Global, sub: u8) -> CodecError
    ensures { result ≡ CodecError.Fault (open_fault sub) }
{
    CodecError::Fault(Fault {
        code: OPEN_MESSAGE_ERROR,
        sub,
        extra: Octets::short(alloc, &[]),
    })
}

// The fault of an UPDATE with this subcode and no data.
pub(crate) fn update_fault(alloc: Global, sub: u8) -> CodecError
    ensures { result ≡ CodecError.Fault (update_fault sub) }
{
    attr_fault(alloc, sub, &[])
}

// The fault of an UPDATE with this subcode and an attribute as its data, or want of memory, which an
// attribute of at most sixteen octets does not meet.
pub(crate) fn attr_fault(alloc: Global, sub: u8, attr: &[u8]) -> CodecError
    ensures { (result ≡ CodecError.Fault (attr_fault sub attr.now))
        ⊎ ((result ≡ CodecError.Memory) × (16 < length attr.now)) }
{
    match Octets::from_slice(alloc, attr) {
        Ok(extra) => CodecError::Fault(Fault {
            code: UPDATE_MESSAGE_ERROR,
            sub,
            extra,
        }),
        Err(_) => CodecError::Memory,
    }
}

impl From<AllocError> for CodecError {
    ghost from_gives = { λ _ error. error ≡ Memory };

    fn from(_error: AllocError) -> CodecError {
        CodecError::Memory
    }
}

impl<T: Drop> From<AllocFailed<T>> for CodecError {
    ghost from_gives = { λ _ error. error ≡ Memory };

    fn from(_error: AllocFailed<T>) -> CodecError {
        CodecError::Memory
    }
}
