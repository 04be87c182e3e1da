//! The first fault of a frame. It is answered whatever growth is refused: these tests take no memory of
//! their own, so `rt try --test --fail-alloc N` refuses the reader's.

use super::is_fault;
use bgp_codec::{CodecError, NOBODY, Rule, decode, update_parts};
use bgp_framing::{Next, next_message};
use bgp_values::UPDATE;
use std::alloc::Global;

// A fault: its code, its subcode and its data.
pub(super) type FirstFault = (u8, u8, &'static [u8]);

// A body of a type, read by a rule, and its first fault, or none.
pub(super) struct Case {
    pub(super) sentence: &'static str,
    pub(super) kind: u8,
    pub(super) rule: Rule,
    pub(super) body: &'static [u8],
    pub(super) fault: Option<FirstFault>,
}

// The frame of a body, and octets behind it. It takes no memory: where a run refuses a growth, that is
// one of the reader's.
pub(super) fn framed(kind: u8, body: &[u8]) -> [u8; 64] {
    let mut octets = [0xff; 64];
    let len = u16::try_from(body.len().saturating_add(19)).unwrap_or(0);
    let [high, low] = len.to_be_bytes();
    octets[16] = high;
    octets[17] = low;
    octets[18] = kind;
    for (place, octet) in octets[19..].iter_mut().zip(body) {
        *place = *octet;
    }
    octets
}

// Whether the answer is this fault, or none where none is named.
fn is_as_wanted<T>(answer: &Result<T, CodecError>, wanted: Option<FirstFault>) -> bool {
    match (answer, wanted) {
        (Ok(_), None) => true,
        (Err(CodecError::Fault(fault)), Some((code, sub, extra))) => {
            is_fault(fault, code, sub, extra)
        }
        _ => false,
    }
}

// Whether the frame of a case is answered as it is to be; of an UPDATE, also where its parts are asked for.
pub(super) fn is_answered(alloc: Global, case: &Case) -> bool {
    let octets = framed(case.kind, case.body);
    match next_message(alloc, &octets) {
        Next::Whole(_, end) => {
            let (frame, _) = octets.split_at(end);
            is_as_wanted(&decode(alloc, frame, &case.rule), case.fault)
                && (frame[18] != UPDATE
                    || is_as_wanted(&update_parts(alloc, frame, &case.rule), case.fault))
        }
        Next::More | Next::Bad(_) => false,
    }
}

// Bodies with their first faults, by RFC 4271 sections 6.2 and 6.3.
static FAULTS: [Case; 26] = [
    Case {
        sentence: "an OPEN of version 3",
        kind: 1,
        rule: NOBODY,
        body: b"\x03\x00\x01\x00\x5a\x0a\x00\x00\x01\x00",
        fault: Some((2, 1, b"\x00\x04")),
    },
    Case {
        sentence: "another speaker than the peer",
        kind: 1,
        rule: Rule {
            peer: Some(2),
            ..NOBODY
        },
        body: b"\x04\x00\x01\x00\x02\x0a\x00\x00\x01\x00",
        fault: Some((2, 2, b"")),
    },
    Case {
        sentence: "a hold time of two seconds",
        kind: 1,
        rule: NOBODY,
        body: b"\x04\x00\x01\x00\x02\xe0\x00\x00\x01\x00",
        fault: Some((2, 6, b"")),
    },
    Case {
        sentence: "an identifier of 224",
        kind: 1,
        rule: NOBODY,
        body: b"\x04\x00\x01\x00\x5a\xe0\x00\x00\x01\x01",
        fault: Some((2, 3, b"")),
    },
    Case {
        sentence: "parameters that are not there",
        kind: 1,
        rule: NOBODY,
        body: b"\x04\x00\x01\x00\x5a\x0a\x00\x00\x01\x01",
        fault: Some((2, 0, b"")),
    },
    Case {
        sentence: "a parameter of kind 3 behind a capability",
        kind: 1,
        rule: NOBODY,
        body: b"\x04\x00\x01\x00\x5a\x0a\x00\x00\x01\x06\x02\x02\x41\x00\x03\x00",
        fault: Some((2, 4, b"")),
    },
    Case {
        sentence: "a capability cut short behind a whole one",
        kind: 1,
        rule: NOBODY,
        body: b"\x04\x00\x01\x00\x5a\x0a\x00\x00\x01\x06\x02\x04\x41\x00\x41\x01",
        fault: Some((2, 0, b"")),
    },
    Case {
        sentence: "withdrawn prefixes beyond the end",
        kind: 2,
        rule: NOBODY,
        body: b"\x00\x01\x00\x00",
        fault: Some((3, 1, b"")),
    },
    Case {
        sentence: "attributes beyond the end",
        kind: 2,
        rule: NOBODY,
        body: b"\x00\x02\x08\x0a\x00\x01",
        fault: Some((3, 1, b"")),
    },
    Case {
        sentence: "a withdrawn prefix of 33 bits behind a good one",
        kind: 2,
        rule: NOBODY,
        body: b"\x00\x08\x08\x0a\x21\x0a\x00\x00\x00\x00\x00\x00",
        fault: Some((3, 10, b"")),
    },
    Case {
        sentence: "a prefix announced without attributes, behind a withdrawn one",
        kind: 2,
        rule: NOBODY,
        body: b"\x00\x02\x08\x0a\x00\x00\x08\x0a",
        fault: Some((3, 3, b"\x01")),
    },
    Case {
        sentence: "a prefix announced without a path",
        kind: 2,
        rule: NOBODY,
        body: b"\x00\x00\x00\x04\x40\x01\x01\x00\x08\x0a",
        fault: Some((3, 3, b"\x02")),
    },
    Case {
        sentence: "a prefix announced without a next hop",
        kind: 2,
        rule: NOBODY,
        body: b"\x00\x00\x00\x0b\x40\x01\x01\x00\x40\x02\x04\x02\x01\x00\x01\x08\x0a",
        fault: Some((3, 3, b"\x03")),
    },
    Case {
        sentence: "a code that comes again, behind a path",
        kind: 2,
        rule: NOBODY,
        body: b"\x00\x00\x00\x0f\x40\x02\x04\x02\x01\x00\x01\x40\x01\x01\x00\x40\x01\x01\x00",
        fault: Some((3, 1, b"")),
    },
    Case {
        sentence: "an unknown code that comes again",
        kind: 2,
        rule: NOBODY,
        body: b"\x00\x00\x00\x08\xc0\xff\x01\x07\xc0\xff\x01\x07",
        fault: Some((3, 1, b"")),
    },
    Case {
        sentence: "an unknown attribute that is not optional, behind a withdrawn prefix",
        kind: 2,
        rule: NOBODY,
        body: b"\x00\x02\x08\x0a\x00\x03\x40\xff\x00",
        fault: Some((3, 2, b"\x40\xff\x00")),
    },
    Case {
        sentence: "an optional ORIGIN of two octets",
        kind: 2,
        rule: NOBODY,
        body: b"\x00\x00\x00\x05\xc0\x01\x02\x00\x00",
        fault: Some((3, 4, b"\xc0\x01\x02\x00\x00")),
    },
    Case {
        sentence: "an ORIGIN of two octets",
        kind: 2,
        rule: NOBODY,
        body: b"\x00\x00\x00\x05\x40\x01\x02\x00\x00",
        fault: Some((3, 5, b"\x40\x01\x02\x00\x00")),
    },
    Case {
        sentence: "an ORIGIN of 3",
        kind: 2,
        rule: NOBODY,
        body: b"\x00\x00\x00\x04\x40\x01\x01\x03",
        fault: Some((3, 6, b"\x40\x01\x01\x03")),
    },
    Case {
        sentence: "a next hop of 224",
        kind: 2,
        rule: NOBODY,
        body: b"\x00\x00\x00\x0e\x40\x02\x04\x02\x01\x00\x01\x40\x03\x04\xe0\x00\x00\x01",
        fault: Some((3, 8, b"\x40\x03\x04\xe0\x00\x00\x01")),
    },
    Case {
        sentence: "a confederation's segment behind a sequence",
        kind: 2,
        rule: NOBODY,
        body: b"\x00\x00\x00\x0b\x40\x02\x08\x02\x01\x00\x01\x03\x01\x00\x01",
        fault: Some((3, 11, b"")),
    },
    Case {
        sentence: "another first number than the peer's",
        kind: 2,
        rule: Rule {
            peer: Some(2),
            ..NOBODY
        },
        body: b"\x00\x00\x00\x12\x40\x01\x01\x00\x40\x02\x04\x02\x01\x00\x01\x40\x03\x04\x0a\x00\x00\x01\x08\x0a",
        fault: Some((3, 11, b"")),
    },
    Case {
        sentence: "an empty path from a peer",
        kind: 2,
        rule: Rule {
            peer: Some(2),
            ..NOBODY
        },
        body: b"\x00\x00\x00\x0e\x40\x01\x01\x00\x40\x02\x00\x40\x03\x04\x0a\x00\x00\x01\x08\x0a",
        fault: Some((3, 11, b"")),
    },
    Case {
        sentence: "an announced prefix of 33 bits from another speaker",
        kind: 2,
        rule: Rule {
            peer: Some(2),
            ..NOBODY
        },
        body: b"\x00\x00\x00\x12\x40\x01\x01\x00\x40\x02\x04\x02\x01\x00\x01\x40\x03\x04\x0a\x00\x00\x01\x21\x0a\x00\x00\x00\x00",
        fault: Some((3, 10, b"")),
    },
    // Its data take memory.
    Case {
        sentence: "an unknown attribute of twenty octets that is not optional",
        kind: 2,
        rule: NOBODY,
        body: b"\x00\x00\x00\x17\x40\xff\x14\x07\x07\x07\x07\x07\x07\x07\x07\x07\x07\x07\x07\x07\x07\x07\x07\x07\x07\x07\x07",
        fault: Some((
            3,
            2,
            b"\x40\xff\x14\x07\x07\x07\x07\x07\x07\x07\x07\x07\x07\x07\x07\x07\x07\x07\x07\x07\x07\x07\x07",
        )),
    },
    // It is answered also where the first growth, which the withdrawn prefixes need, is refused.
    Case {
        sentence: "a prefix announced without attributes, behind two withdrawn ones",
        kind: 2,
        rule: NOBODY,
        body: b"\x00\x04\x08\x0a\x08\x0b\x00\x00\x08\x0a",
        fault: Some((3, 3, b"\x01")),
    },
];

#[test]
fn the_first_fault_is_answered(rt: HostRuntime) {
    for case in &FAULTS {
        assert!(rt; is_answered(rt.alloc(), case), "{}", case.sentence);
    }
}

// Bodies without a fault.
static GOOD: [Case; 4] = [
    Case {
        sentence: "an OPEN without a fault",
        kind: 1,
        rule: Rule {
            peer: Some(1),
            ..NOBODY
        },
        body: b"\x04\x00\x01\x00\x5a\x0a\x00\x00\x01\x04\x02\x02\x41\x00",
        fault: None,
    },
    Case {
        sentence: "an UPDATE without a fault",
        kind: 2,
        rule: Rule {
            peer: Some(1),
            ..NOBODY
        },
        body: b"\x00\x02\x08\x0a\x00\x12\x40\x01\x01\x00\x40\x02\x04\x02\x01\x00\x01\x40\x03\x04\x0a\x00\x00\x01\x08\x0a",
        fault: None,
    },
    Case {
        sentence: "a NOTIFICATION",
        kind: 3,
        rule: NOBODY,
        body: b"\x01\x02\x00\x14",
        fault: None,
    },
    Case {
        sentence: "a KEEPALIVE",
        kind: 4,
        rule: NOBODY,
        body: b"",
        fault: None,
    },
];

#[test]
fn good_messages_have_no_fault(rt: HostRuntime) {
    for case in &GOOD {
        assert!(rt; is_answered(rt.alloc(), case), "{}", case.sentence);
    }
}
