//! What is appended towards a peer, and the items in which it is put.

use bgp_codec::laws::written_has_a_header;
use bgp_codec::{Message, NOBODY};
use outbox::{Control, Outbox, PieceOctets, What};
use std::alloc::{AllocError, Global};
use std::process::Abort;
use std::test::Fail;

// A KEEPALIVE (RFC 4271 section 4.4).
static ALIVE: [u8; 19] = [
    0xff, 0xff, 0xff, 0xff, 0xff, 0xff, 0xff, 0xff, 0xff, 0xff, 0xff, 0xff, 0xff, 0xff, 0xff, 0xff,
    0x00, 0x13, 0x04,
];

// Appends a KEEPALIVE.
fn push_alive(outbox: &mut Outbox, epoch: u32) -> Result<(), AllocError> {
    written_has_a_header();
    outbox.reserve(19, 1)?;
    outbox.push_message(epoch, &Message::AliveMsg, &NOBODY);
    Ok(())
}

fn push_control(outbox: &mut Outbox, control: Control) -> Result<(), AllocError> {
    outbox.reserve(0, 1)?;
    outbox.push_control(control);
    Ok(())
}

// Appends the octets of a KEEPALIVE.
fn push_octets(outbox: &mut Outbox, epoch: u32) -> Result<(), AllocError> {
    outbox.reserve(19, 1)?;
    outbox.push_octets(epoch, &ALIVE);
    Ok(())
}

// Appends them in two parts.
fn push_parts(outbox: &mut Outbox, epoch: u32) -> Result<(), AllocError> {
    outbox.reserve(19, 1)?;
    let (front, rest) = ALIVE.split_at(16);
    outbox.push_parts(epoch, front, rest);
    Ok(())
}

// An item in short: the incarnation, and how many octets a piece has.
type Short = (u32, usize);

fn in_short(what: &Option<What>) -> Option<Short> {
    match what {
        Some(What::Piece(epoch, octets)) => Some((*epoch, octets.as_slice().len())),
        Some(What::Dial(epoch) | What::Mark(epoch, _) | What::Shut(epoch)) => Some((*epoch, 0)),
        None => None,
    }
}

// The next item in short, a piece being of so many octets at most.
fn next_in_short(outbox: &Outbox, cut: usize) -> Option<Short> {
    if cut < 1 || cut > 4096 {
        return None;
    }
    match outbox.next_item(cut) {
        Ok(item) => in_short(&item),
        Err(_) => None,
    }
}

// What is appended, and what is put.
enum Step {
    // A KEEPALIVE of an incarnation.
    Alive(u32),
    // The octets of one.
    Octets(u32),
    // The octets of one, in two parts.
    Parts(u32),
    Control(Control),
    // So many octets wait.
    Waits(usize),
    // So many items that are this one are put, in pieces of so many octets at most.
    Puts(u32, usize, Short),
    // This item is the next, in pieces of so many octets at most.
    IsNext(usize, Short),
    // So many items are put, in pieces of 18 octets at most, and all octets that were put are KEEPALIVEs, so
    // many.
    PutsAlive(u32, usize),
    // Two KEEPALIVEs are appended and two items put, 40 times over.
    Rounds,
    // No item is left.
    IsEmpty,
}

struct Case {
    name: &'static str,
    steps: &'static [Step],
}

#[rattlefmt::skip]
static CASES: [Case; 7] = [
    // A piece spans messages of one incarnation, and ends at a control item and at a new incarnation.
    Case { name: "pieces span messages", steps: &[
        Step::Alive(1),
        Step::Alive(1),
        Step::Control(Control::Dial(2)),
        Step::Alive(2),
        Step::Alive(3),
        Step::Control(Control::Mark(3, 7)),
        Step::Control(Control::Shut(3)),
        Step::Waits(76),
        Step::Puts(1, 30, (1, 30)),
        Step::Puts(1, 30, (1, 8)),
        Step::Puts(1, 30, (2, 0)),
        Step::Puts(1, 30, (2, 19)),
        Step::Puts(1, 30, (3, 19)),
        Step::Puts(1, 30, (3, 0)),
        Step::Puts(1, 30, (3, 0)),
        Step::IsEmpty,
        Step::Waits(0),
    ] },
    // Three messages of 19 octets in pieces of 1, 18 and 4096.
    Case { name: "pieces of 1", steps: &[
        Step::Alive(1), Step::Alive(1), Step::Alive(1),
        Step::Puts(57, 1, (1, 1)),
        Step::IsEmpty,
    ] },
    Case { name: "pieces of 18", steps: &[
        Step::Alive(1), Step::Alive(1), Step::Alive(1),
        Step::Puts(3, 18, (1, 18)),
        Step::Puts(1, 18, (1, 3)),
        Step::IsEmpty,
    ] },
    Case { name: "pieces of 4096", steps: &[
        Step::Alive(1), Step::Alive(1), Step::Alive(1),
        Step::Puts(1, 4096, (1, 57)),
        Step::IsEmpty,
    ] },
    // What is put is what was appended, octet by octet, while the buffer is used again and again; the
    // last two rounds' worth is put at the end.
    Case { name: "octets come out as they went in", steps: &[
        Step::Rounds,
        Step::Waits(80),
        Step::PutsAlive(5, 80),
    ] },
    // Octets that are appended join those of a message of the same incarnation.
    Case { name: "octets join a message", steps: &[
        Step::Alive(1),
        Step::Octets(1),
        Step::IsNext(4096, (1, 38)),
        Step::PutsAlive(3, 2),
        Step::IsEmpty,
    ] },
    Case { name: "parts join a message", steps: &[
        Step::Alive(1),
        Step::Parts(1),
        Step::IsNext(4096, (1, 38)),
        Step::PutsAlive(3, 2),
        Step::IsEmpty,
    ] },
];

fn puts(outbox: &mut Outbox, count: u32, cut: usize, want: Short) -> bool {
    for _ in 0..count {
        if !outbox.has_item() || next_in_short(outbox, cut) != Some(want) {
            return false;
        }
        outbox.item_put(cut);
    }
    true
}

// Puts so many items, and appends the octets of their pieces.
fn put_some(outbox: &mut Outbox, items: u32, octets: &mut Vec<u8>) -> Result<(), AllocError> {
    for _ in 0..items {
        if let Some(What::Piece(_, piece)) = outbox.next_item(18)? {
            octets.extend_from_slice(piece.as_slice())?;
        }
        outbox.item_put(18);
    }
    Ok(())
}

fn put_in_rounds(outbox: &mut Outbox, octets: &mut Vec<u8>) -> Result<(), AllocError> {
    for _ in 0..40 {
        push_alive(outbox, 1)?;
        push_alive(outbox, 1)?;
        put_some(outbox, 2, octets)?;
    }
    Ok(())
}

fn are_alive(octets: &[u8], count: usize) -> bool {
    for (i, octet) in octets.iter().enumerate() {
        if *octet != ALIVE[i % 19] {
            return false;
        }
    }
    octets.len() / 19 == count && octets.len() % 19 == 0
}

// Whether a step is so; the octets are those of the pieces that were put.
fn is_so(outbox: &mut Outbox, octets: &mut Vec<u8>, step: &Step) -> bool {
    match step {
        Step::Alive(epoch) => push_alive(outbox, *epoch).is_ok(),
        Step::Octets(epoch) => push_octets(outbox, *epoch).is_ok(),
        Step::Parts(epoch) => push_parts(outbox, *epoch).is_ok(),
        Step::Control(control) => push_control(outbox, *control).is_ok(),
        Step::Waits(count) => outbox.octets_waiting() == *count,
        Step::Puts(count, cut, want) => puts(outbox, *count, *cut, *want),
        Step::IsNext(cut, want) => next_in_short(outbox, *cut) == Some(*want),
        Step::PutsAlive(items, count) => {
            put_some(outbox, *items, octets).is_ok() && are_alive(octets.as_slice(), *count)
        }
        Step::Rounds => put_in_rounds(outbox, octets).is_ok(),
        Step::IsEmpty => !outbox.has_item() && next_in_short(outbox, 30) == None,
    }
}

fn plays(rt: &impl Abort, outbox: &mut Outbox, octets: &mut Vec<u8>, case: &Case) {
    for (i, step) in case.steps.iter().enumerate() {
        assert!(rt; is_so(outbox, octets, step), "{}: step {i}", case.name);
    }
}

#[test]
fn what_is_put_is_what_was_appended(rt: HostRuntime) {
    for case in &CASES {
        let mut outbox = Outbox::new(rt.alloc());
        let mut octets = Vec::new(rt.alloc());
        plays(&rt, &mut outbox, &mut octets, case);
    }
}

static PIECES: [(usize, bool); 4] = [(0, false), (1, true), (4096, true), (4097, false)];

// How many octets the piece of these has, if they are one.
fn piece_len(octets: Vec<u8>) -> Option<usize> {
    match PieceOctets::new(octets) {
        Some(piece) => Some(piece.as_slice().len()),
        None => None,
    }
}

// A piece has 1 to 4096 octets.
#[test]
fn pieces_have_octets(rt: HostRuntime) -> Result<(), Fail> {
    for &(len, fits) in &PIECES {
        let octets = vec![in rt.alloc(); 0u8; len]?;
        let want = if fits { Some(len) } else { None };
        assert!(rt; piece_len(octets) == want);
    }
    Ok(())
}
