//! `encode`, of an UPDATE that announces.

use bgp_codec::{CodecError, Message, NOBODY, decode, encode, is_writable};
use bgp_framing::{Next, next_message};
use std::alloc::{AllocError, Global};

// An UPDATE that announces 10.1.0.0/16.
const UPDATE: &[u8] =
    b"\xff\xff\xff\xff\xff\xff\xff\xff\xff\xff\xff\xff\xff\xff\xff\xff\x00\x2c\x02\x00\x00\x00\x12\
    \x40\x01\x01\x00\x40\x02\x04\x02\x01\x00\x01\x40\x03\x04\x0a\x00\x00\x01\x10\x0a\x01";

// What stands in front of what is written.
const FRONT: &[u8] = b"front";

fn message(alloc: Global) -> Result<Message, AllocError> {
    match next_message(alloc, UPDATE) {
        Next::Whole(_, end) => {
            let (frame, _) = UPDATE.split_at(end);
            decode(alloc, frame, &NOBODY).map_err(|_| AllocError)
        }
        Next::More | Next::Bad(_) => Err(AllocError),
    }
}

// What is answered for a message. It ensures nothing, so that one answer is not carried along to the next.
fn written(message: &Message, out: &mut Vec<u8>) -> Option<CodecError> {
    if !is_writable(message, &NOBODY) {
        return Some(CodecError::TooLong);
    }
    encode(message, &NOBODY, out).err()
}

fn front(alloc: Global) -> Result<Vec<u8>, AllocError> {
    let mut out = Vec::with_capacity(alloc, FRONT.len())?;
    out.extend_from_slice(FRONT)?;
    Ok(out)
}

// Whether the octets and the capacity are the same.
fn is_same(one: &Vec<u8>, other: &Vec<u8>) -> bool {
    one.as_slice() == other.as_slice() && one.capacity() == other.capacity()
}

/// Whether a refused `encode` leaves its vector, and again writes what it writes to another.
pub fn are_alike(alloc: Global) -> Result<bool, AllocError> {
    let message = message(alloc)?;
    let mut one = front(alloc)?;
    let mut other = front(alloc)?;
    let mut got = written(&message, &mut one);
    if matches!(got, Some(CodecError::Memory)) {
        if !is_same(&one, &other) {
            return Ok(false);
        }
        got = written(&message, &mut one);
    }
    let mut wanted = written(&message, &mut other);
    if matches!(wanted, Some(CodecError::Memory)) {
        wanted = written(&message, &mut other);
    }
    Ok(got.is_none() && wanted.is_none() && one.as_slice() == other.as_slice())
}
