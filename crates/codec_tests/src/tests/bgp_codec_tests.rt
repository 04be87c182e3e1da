//! Messages and their octets, and the faults of octets.

use bgp_codec::{
    CodecError, Fault, Items, Message, NOBODY, Notice, Octets, encode, is_writable, notice_of,
};
use std::alloc::{AllocError, Global};
use std::process::Abort;
use std::test::Fail;

mod headers;
mod judging;
mod opens;
mod parts;
mod updates;
mod wide;

// Whether a fault has this code, this subcode and these data.
fn is_fault(fault: &Fault, code: u8, sub: u8, extra: &[u8]) -> bool {
    fault.code == code && fault.sub == sub && fault.extra.as_slice() == extra
}

fn marked(alloc: Global, tail: &[u8]) -> Result<Vec<u8>, AllocError> {
    let mut octets = vec![in alloc; 0xff; 16]?;
    octets.extend_from_slice(tail)?;
    Ok(octets)
}

fn is_encoded_as(out: &mut Vec<u8>, message: &Message, wanted: &[u8]) -> bool {
    is_writable(message, &NOBODY)
        && encode(message, &NOBODY, out).is_ok()
        && out.as_slice() == wanted
}

// Whether a message is writable, and is written as a Marker and these octets.
fn is_written_as(alloc: Global, message: &Message, tail: &[u8]) -> bool {
    match marked(alloc, tail) {
        Ok(wanted) => is_encoded_as(&mut Vec::new(alloc), message, wanted.as_slice()),
        Err(_) => false,
    }
}

// A message that is written behind one octet has so many, or is too long where none are named: then
// the vector is as it was.
fn is_written_behind(rt: &impl Abort, out: &mut Vec<u8>, message: &Message, wanted: Option<usize>) {
    let room = out.capacity();
    assert!(rt; is_writable(message, &NOBODY));
    match encode(message, &NOBODY, out) {
        Ok(()) => assert!(rt; Some(out.len().saturating_sub(1)) == wanted),
        Err(error) => {
            assert!(rt; matches!(error, CodecError::TooLong) && wanted.is_none());
            assert!(rt; out.as_slice() == [7u8].as_slice() && out.capacity() == room);
        }
    }
}

// A fault's NOTIFICATION, written out, is the message of the standard's figure.
#[test]
fn a_fault_is_told(rt: HostRuntime) -> Result<(), Fail> {
    let alloc = rt.alloc();
    let fault = Fault {
        code: 1,
        sub: 3,
        extra: Octets::short(alloc, &[5]),
    };
    let message = Message::NoticeMsg(notice_of(alloc, &fault)?);
    assert!(rt; is_written_as(alloc, &message, b"\x00\x16\x03\x01\x03\x05"));
    Ok(())
}

fn notice_with(alloc: Global, len: usize) -> Result<Message, AllocError> {
    Ok(Message::NoticeMsg(Notice {
        code: 6,
        sub: 0,
        extra: Octets::from_vec(vec![in alloc; 0u8; len]?),
    }))
}

static NOTICES: [(usize, Option<usize>); 2] = [(4075, Some(4096)), (4076, None)];

// The longest NOTIFICATION is written, and one octet more is refused with the vector as it was.
#[test]
fn the_longest_notification_is_written(rt: HostRuntime) -> Result<(), Fail> {
    for &(len, wanted) in &NOTICES {
        let mut out = vec![in rt.alloc(); 7u8]?;
        let message = notice_with(rt.alloc(), len)?;
        is_written_behind(&rt, &mut out, &message, wanted);
    }
    Ok(())
}

#[test]
fn octets_and_items_are_kept(rt: HostRuntime) -> Result<(), Fail> {
    let long = [9u8; 17];
    let octets = Octets::from_slice(rt.alloc(), &long)?;
    assert!(rt; octets.as_slice() == long.as_slice());
    assert!(rt; octets.into_small_vec().as_slice() == long.as_slice());
    assert!(rt; Items::one(7u8).as_slice() == [7u8].as_slice());
    let items = Items::from_vec(vec![in rt.alloc(); 1u8, 2]?);
    assert!(rt; items.as_slice() == [1u8, 2].as_slice());
    Ok(())
}
