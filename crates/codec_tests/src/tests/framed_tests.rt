//! An UPDATE out of a framer: each beginning of it, and each of its octets replaced by `ff`.

use bgp_codec::{CodecError, Message, NOBODY, decode};
use bgp_framing::{Framer, Next};
use std::alloc::{AllocError, Global};
use std::test::Fail;

// An UPDATE that announces 10.1.0.0/16 with the path 1.
static UPDATE: [u8; 44] = [
    0xff, 0xff, 0xff, 0xff, 0xff, 0xff, 0xff, 0xff, 0xff, 0xff, 0xff, 0xff, 0xff, 0xff, 0xff, 0xff,
    0x00, 0x2c, 0x02, 0x00, 0x00, 0x00, 0x12, 0x40, 0x01, 0x01, 0x00, 0x40, 0x02, 0x04, 0x02, 0x01,
    0x00, 0x01, 0x40, 0x03, 0x04, 0x0a, 0x00, 0x00, 0x01, 0x10, 0x0a, 0x01,
];

// What comes out of a framer: the code and the subcode of a fault, or one of these.
type Out = (u8, u8);

// A message.
const MESSAGE: Out = (0, 0);

// Nothing yet.
const MORE: Out = (0, 1);

// Want of memory.
const REFUSED: Out = (0, 2);

fn in_short(read: &Result<Message, CodecError>) -> Out {
    match read {
        Ok(_) => MESSAGE,
        Err(CodecError::Fault(fault)) => (fault.code, fault.sub),
        Err(_) => REFUSED,
    }
}

// What comes out of a new framer that is fed these octets.
fn out(alloc: Global, octets: &[u8]) -> Result<Out, AllocError> {
    let mut framer = Framer::new(alloc)?;
    if framer.is_waiting() || octets.len() > 4096 {
        return Err(AllocError);
    }
    framer.feed(octets);
    match framer.next() {
        Next::Whole(_, end) => {
            let (frame, _) = framer.bytes().split_at(end);
            Ok(in_short(&decode(alloc, frame, &NOBODY)))
        }
        Next::More => Ok(MORE),
        Next::Bad(fault) => Ok((fault.code, fault.sub)),
    }
}

// For each octet of the UPDATE, what comes out if that octet is ff.
static REPLACED: [Out; 44] = [
    // The Marker is all ones as it is.
    MESSAGE,
    MESSAGE,
    MESSAGE,
    MESSAGE,
    MESSAGE,
    MESSAGE,
    MESSAGE,
    MESSAGE,
    MESSAGE,
    MESSAGE,
    MESSAGE,
    MESSAGE,
    MESSAGE,
    MESSAGE,
    MESSAGE,
    MESSAGE,
    // The Length.
    (1, 2),
    MORE,
    // The Type.
    (1, 3),
    // The length of the withdrawn routes.
    (3, 1),
    (3, 1),
    // The length of the path attributes.
    (3, 1),
    (3, 1),
    // ORIGIN.
    (3, 1),
    (3, 2),
    (3, 1),
    (3, 6),
    // AS_PATH.
    (3, 1),
    (3, 2),
    (3, 1),
    (3, 11),
    (3, 11),
    MESSAGE,
    MESSAGE,
    // NEXT_HOP.
    (3, 1),
    (3, 2),
    (3, 1),
    (3, 8),
    MESSAGE,
    MESSAGE,
    MESSAGE,
    // The prefix.
    (3, 10),
    MESSAGE,
    MESSAGE,
];

// The octets with one of them replaced.
fn replaced(at: usize) -> [u8; 44] {
    let mut octets = UPDATE;
    if at < 44 {
        octets[at] = 0xff;
    }
    octets
}

#[test]
fn beginnings_wait_and_faults_come_out(rt: HostRuntime) -> Result<(), Fail> {
    for len in 0..44usize {
        let (front, _) = UPDATE.split_at(len);
        assert!(rt; out(rt.alloc(), front)? == MORE, "{len} octets");
    }
    assert!(rt; out(rt.alloc(), &UPDATE)? == MESSAGE);
    for (at, want) in REPLACED.iter().enumerate() {
        assert!(rt; out(rt.alloc(), &replaced(at))? == *want, "octet {at}");
    }
    Ok(())
}
