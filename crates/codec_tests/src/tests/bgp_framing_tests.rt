//! Messages out of a stream, however it is cut.

use bgp_framing::{Framer, Next, next_message};
use std::alloc::Global;
use std::process::Abort;
use std::test::Fail;

static KEEPALIVE: [u8; 19] = [
    0xff, 0xff, 0xff, 0xff, 0xff, 0xff, 0xff, 0xff, 0xff, 0xff, 0xff, 0xff, 0xff, 0xff, 0xff, 0xff,
    0, 19, 4,
];

/// What stands in front, in short.
#[derive(Clone, Copy, PartialEq, Eq)]
enum Seen {
    Whole(usize, usize),
    More,
    Bad,
}

fn in_short(next: &Next) -> Seen {
    match next {
        Next::Whole(from, to) => Seen::Whole(*from, *to),
        Next::More => Seen::More,
        Next::Bad(_) => Seen::Bad,
    }
}

/// What is done to a framer, or asked of it. Its octets are those of one KEEPALIVE after the other.
#[derive(Clone, Copy)]
enum Step {
    /// It is fed these octets, where nothing waits; then this stands in front.
    Feeds(usize, usize, Seen),
    /// It is fed 19 zeros.
    FeedsZeros(Seen),
    /// The message in front is dropped, which leaves so many octets.
    Drops(usize),
    /// This stands in front.
    Fronts(Seen),
    /// It has so many octets.
    Has(usize),
    /// Its octets are those of a KEEPALIVE.
    HasKeepalive,
    Waits,
    Clears,
}

struct Case {
    name: &'static str,
    steps: &'static [Step],
}

#[rattlefmt::skip]
static CASES: [Case; 3] = [
    Case { name: "octet by octet", steps: &[
        Step::Feeds(0, 1, Seen::More),
        Step::Feeds(1, 2, Seen::More),
        Step::Feeds(2, 3, Seen::More),
        Step::Feeds(3, 4, Seen::More),
        Step::Feeds(4, 5, Seen::More),
        Step::Feeds(5, 6, Seen::More),
        Step::Feeds(6, 7, Seen::More),
        Step::Feeds(7, 8, Seen::More),
        Step::Feeds(8, 9, Seen::More),
        Step::Feeds(9, 10, Seen::More),
        Step::Feeds(10, 11, Seen::More),
        Step::Feeds(11, 12, Seen::More),
        Step::Feeds(12, 13, Seen::More),
        Step::Feeds(13, 14, Seen::More),
        Step::Feeds(14, 15, Seen::More),
        Step::Feeds(15, 16, Seen::More),
        Step::Feeds(16, 17, Seen::More),
        Step::Feeds(17, 18, Seen::More),
        Step::Feeds(18, 19, Seen::Whole(0, 19)),
        Step::HasKeepalive,
    ] },
    // Many messages in one piece leave the rest in front of the next piece: two KEEPALIVEs and seven octets of another.
    Case { name: "messages are dropped from the front", steps: &[
        Step::Feeds(0, 45, Seen::Whole(0, 19)),
        Step::Drops(26),
        Step::Drops(7),
        Step::Fronts(Seen::More),
        Step::Feeds(45, 57, Seen::Whole(0, 19)),
        Step::HasKeepalive,
    ] },
    Case { name: "a fault stays until it is cleared", steps: &[
        Step::FeedsZeros(Seen::Bad),
        Step::Fronts(Seen::Bad),
        Step::Waits,
        Step::Clears,
        Step::Fronts(Seen::More),
        Step::Has(0),
    ] },
];

// Three KEEPALIVEs.
static KEEPALIVES: [u8; 57] = [
    0xff, 0xff, 0xff, 0xff, 0xff, 0xff, 0xff, 0xff, 0xff, 0xff, 0xff, 0xff, 0xff, 0xff, 0xff, 0xff,
    0, 19, 4, 0xff, 0xff, 0xff, 0xff, 0xff, 0xff, 0xff, 0xff, 0xff, 0xff, 0xff, 0xff, 0xff, 0xff,
    0xff, 0xff, 0, 19, 4, 0xff, 0xff, 0xff, 0xff, 0xff, 0xff, 0xff, 0xff, 0xff, 0xff, 0xff, 0xff,
    0xff, 0xff, 0xff, 0xff, 0, 19, 4,
];

// Feeds a piece where nothing waits; whether that then stands in front.
fn feeds(framer: &mut Framer, piece: Option<&[u8]>, want: Seen) -> bool {
    let Some(piece) = piece else {
        return false;
    };
    if framer.is_waiting() || piece.len() > 4096 {
        return false;
    }
    framer.feed(piece);
    in_short(&framer.next()) == want
}

fn drops(framer: &mut Framer) -> usize {
    if let Next::Whole(..) = framer.next() {
        framer.drop_front();
    }
    framer.rest_len()
}

// Whether a step is so.
fn is_so(framer: &mut Framer, step: &Step) -> bool {
    match step {
        Step::Feeds(from, to, want) => feeds(framer, KEEPALIVES.get(*from..*to), *want),
        Step::FeedsZeros(want) => feeds(framer, Some(&[0; 19]), *want),
        Step::Drops(left) => drops(framer) == *left,
        Step::Fronts(want) => in_short(&framer.next()) == *want,
        Step::Has(count) => framer.rest_len() == *count,
        Step::HasKeepalive => framer.bytes() == KEEPALIVE.as_slice(),
        Step::Waits => framer.is_waiting(),
        Step::Clears => {
            framer.clear();
            true
        }
    }
}

fn plays(rt: &impl Abort, framer: &mut Framer, name: &str, steps: &[Step]) {
    for (i, step) in steps.iter().enumerate() {
        assert!(rt; is_so(framer, step), "{name}: step {i}");
    }
}

#[test]
fn framers_answer_step_by_step(rt: HostRuntime) -> Result<(), Fail> {
    for case in &CASES {
        let mut framer = Framer::new(rt.alloc())?;
        plays(&rt, &mut framer, case.name, case.steps);
    }
    Ok(())
}

#[test]
fn a_message_is_framed_from_any_two_pieces(rt: HostRuntime) -> Result<(), Fail> {
    for cut in 1..19usize {
        let mut framer = Framer::new(rt.alloc())?;
        let steps = [
            Step::Feeds(0, cut, Seen::More),
            Step::Has(cut),
            Step::Feeds(cut, 19, Seen::Whole(0, 19)),
        ];
        plays(&rt, &mut framer, "two pieces", &steps);
    }
    Ok(())
}

// What stands in front of the first octets of two KEEPALIVEs, one of them changed.
fn in_front(alloc: Global, count: usize, at: usize, octet: u8) -> Seen {
    let mut octets = [0xff; 38];
    for (i, octet) in octets.iter_mut().enumerate() {
        *octet = KEEPALIVE[i % 19];
    }
    if at < 38 {
        octets[at] = octet;
    }
    in_short(&next_message(alloc, octets.split_at(count.min(38)).0))
}

// So many octets, the place and the value of the changed one, and what stands in front.
static WITHOUT_A_FRAMER: [(usize, usize, u8, Seen); 8] = [
    // Fewer than a header has, faulty or not.
    (0, 0, 0xff, Seen::More),
    (18, 0, 0, Seen::More),
    // A message alone, with a part of another behind it, and with a faulty one.
    (19, 0, 0xff, Seen::Whole(0, 19)),
    (30, 0, 0xff, Seen::Whole(0, 19)),
    (38, 19, 0, Seen::Whole(0, 19)),
    // A marker, a length and a type that are faulty.
    (38, 0, 0, Seen::Bad),
    (19, 17, 18, Seen::Bad),
    (19, 18, 5, Seen::Bad),
];

// Octets that no framer holds.
#[test]
fn octets_without_a_framer(rt: HostRuntime) {
    for &(count, at, octet, want) in &WITHOUT_A_FRAMER {
        assert!(rt;
            in_front(rt.alloc(), count, at, octet) == want,
            "{count} {at} {octet}"
        );
    }
}
