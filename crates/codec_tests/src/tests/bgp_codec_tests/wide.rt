//! Numbers of four octets (RFC 6793): what is read, its first fault, and what is written of it.

use super::judging::{Case, framed, is_answered};
use bgp_codec::{Message, Rule, decode, encode, is_writable};
use bgp_framing::{Next, next_message};
use bgp_values::Width;
use std::alloc::Global;

// Bodies with their first faults. 70000 has the octets 00011170, AS_TRANS 5ba0.
static FAULTS: [Case; 10] = [
    Case {
        sentence: "a field that is neither the peer's number nor AS_TRANS",
        kind: 1,
        rule: Rule {
            width: Width::Four,
            peer: Some(70_000),
            own: Some(1),
        },
        body: b"\x04\x11\x70\x00\x5a\x0a\x00\x00\x01\x08\x02\x06\x41\x04\x00\x01\x11\x70",
        fault: Some((2, 2, b"")),
    },
    Case {
        sentence: "another number than the peer's in the capability",
        kind: 1,
        rule: Rule {
            width: Width::Four,
            peer: Some(70_000),
            own: None,
        },
        body: b"\x04\x5b\xa0\x00\x5a\x0a\x00\x00\x01\x08\x02\x06\x41\x04\x00\x01\x11\x71",
        fault: Some((2, 2, b"")),
    },
    Case {
        sentence: "another number in the first capability, the peer's in the second",
        kind: 1,
        rule: Rule {
            width: Width::Four,
            peer: Some(7),
            own: None,
        },
        body: b"\x04\x00\x07\x00\x5a\x0a\x00\x00\x01\x10\x02\x06\x41\x04\x00\x00\x00\x08\x02\x06\x41\x04\x00\x00\x00\x07",
        fault: Some((2, 2, b"")),
    },
    Case {
        sentence: "AS_TRANS in the capability",
        kind: 1,
        rule: Rule {
            width: Width::Four,
            peer: Some(70_000),
            own: Some(1),
        },
        body: b"\x04\x5b\xa0\x00\x5a\x0a\x00\x00\x01\x08\x02\x06\x41\x04\x00\x00\x5b\xa0",
        fault: Some((2, 2, b"")),
    },
    Case {
        sentence: "no capability",
        kind: 1,
        rule: Rule {
            width: Width::Four,
            peer: Some(2),
            own: Some(1),
        },
        body: b"\x04\x00\x02\x00\x5a\x0a\x00\x00\x02\x00",
        fault: Some((2, 7, b"\x41\x04\x00\x00\x00\x01")),
    },
    Case {
        sentence: "a capability of three octets is none",
        kind: 1,
        rule: Rule {
            width: Width::Four,
            peer: Some(2),
            own: Some(70_000),
        },
        body: b"\x04\x00\x02\x00\x5a\x0a\x00\x00\x02\x07\x02\x05\x41\x03\x00\x00\x02",
        fault: Some((2, 7, b"\x41\x04\x00\x01\x11\x70")),
    },
    Case {
        sentence: "a bad hold time comes before the capability",
        kind: 1,
        rule: Rule {
            width: Width::Four,
            peer: Some(2),
            own: Some(1),
        },
        body: b"\x04\x00\x02\x00\x02\x0a\x00\x00\x02\x00",
        fault: Some((2, 6, b"")),
    },
    Case {
        sentence: "a path of another speaker",
        kind: 2,
        rule: Rule {
            width: Width::Four,
            peer: Some(4_464),
            own: None,
        },
        body: b"\x00\x00\x00\x14\x40\x01\x01\x00\x40\x02\x06\x02\x01\x00\x01\x11\x70\x40\x03\x04\x0a\x00\x00\x01\x10\x0a\x01",
        fault: Some((3, 11, b"")),
    },
    Case {
        sentence: "a path whose numbers have two octets",
        kind: 2,
        rule: Rule {
            width: Width::Four,
            peer: None,
            own: None,
        },
        body: b"\x00\x00\x00\x12\x40\x01\x01\x00\x40\x02\x04\x02\x01\x00\x01\x40\x03\x04\x0a\x00\x00\x01\x10\x0a\x01",
        fault: Some((3, 11, b"")),
    },
    Case {
        sentence: "an AGGREGATOR of six octets",
        kind: 2,
        rule: Rule {
            width: Width::Four,
            peer: None,
            own: None,
        },
        body: b"\x00\x00\x00\x09\xc0\x07\x06\x11\x70\x0a\x00\x00\x01",
        fault: Some((3, 5, b"\xc0\x07\x06\x11\x70\x0a\x00\x00\x01")),
    },
];

// Bodies without a fault, each in the form that is written.
static GOOD: [Case; 6] = [
    Case {
        sentence: "AS_TRANS, and the peer's number in the capability",
        kind: 1,
        rule: Rule {
            width: Width::Four,
            peer: Some(70_000),
            own: Some(1),
        },
        body: b"\x04\x5b\xa0\x00\x5a\x0a\x00\x00\x01\x08\x02\x06\x41\x04\x00\x01\x11\x70",
        fault: None,
    },
    Case {
        sentence: "the peer's number in the first capability, another in the second",
        kind: 1,
        rule: Rule {
            width: Width::Four,
            peer: Some(7),
            own: None,
        },
        body: b"\x04\x00\x07\x00\x5a\x0a\x00\x00\x01\x10\x02\x06\x41\x04\x00\x00\x00\x07\x02\x06\x41\x04\x00\x00\x00\x08",
        fault: None,
    },
    Case {
        sentence: "no capability, and no reader that is named",
        kind: 1,
        rule: Rule {
            width: Width::Four,
            peer: Some(2),
            own: None,
        },
        body: b"\x04\x00\x02\x00\x5a\x0a\x00\x00\x02\x00",
        fault: None,
    },
    Case {
        sentence: "a path of 70000",
        kind: 2,
        rule: Rule {
            width: Width::Four,
            peer: Some(70_000),
            own: None,
        },
        body: b"\x00\x00\x00\x14\x40\x01\x01\x00\x40\x02\x06\x02\x01\x00\x01\x11\x70\x40\x03\x04\x0a\x00\x00\x01\x10\x0a\x01",
        fault: None,
    },
    Case {
        sentence: "an AGGREGATOR of eight octets",
        kind: 2,
        rule: Rule {
            width: Width::Four,
            peer: None,
            own: None,
        },
        body: b"\x00\x00\x00\x0b\xc0\x07\x08\x00\x01\x11\x70\x0a\x00\x00\x01",
        fault: None,
    },
    Case {
        sentence: "a path without numbers",
        kind: 2,
        rule: Rule {
            width: Width::Four,
            peer: None,
            own: None,
        },
        body: b"\x00\x00\x00\x0e\x40\x01\x01\x00\x40\x02\x00\x40\x03\x04\x0a\x00\x00\x01\x08\x0a",
        fault: None,
    },
];

// Whether a message is written as these octets.
fn is_written_as(alloc: Global, message: &Message, rule: &Rule, wanted: &[u8]) -> bool {
    let mut out = Vec::new(alloc);
    is_writable(message, rule)
        && encode(message, rule, &mut out).is_ok()
        && out.as_slice() == wanted
}

// Whether the message that a frame spells is written as that frame.
fn is_written_again(alloc: Global, frame: &[u8], rule: &Rule) -> bool {
    match next_message(alloc, frame) {
        Next::Whole(_, end) => {
            let (frame, _) = frame.split_at(end);
            match decode(alloc, frame, rule) {
                Ok(message) => is_written_as(alloc, &message, rule, frame),
                Err(_) => false,
            }
        }
        Next::More | Next::Bad(_) => false,
    }
}

#[test]
fn the_first_fault_is_answered_at_four_octets(rt: HostRuntime) {
    for case in &FAULTS {
        assert!(rt; is_answered(rt.alloc(), case), "{}", case.sentence);
    }
}

// What is read is written again in the same octets.
#[test]
fn good_messages_have_no_fault_at_four_octets(rt: HostRuntime) {
    for case in &GOOD {
        let frame = framed(case.kind, case.body);
        assert!(rt; is_answered(rt.alloc(), case), "{}", case.sentence);
        assert!(rt;
            is_written_again(rt.alloc(), &frame, &case.rule),
            "{} is written again",
            case.sentence
        );
    }
}
