//! What is written of an UPDATE.

use super::{is_written_as, is_written_behind};
use bgp_codec::{
    Aggregator, Asn, Attrs, Items, Message, NOBODY, Numbers, Octets, Raw, Rule, Segment,
    SegmentKind, Update, is_writable,
};
use bgp_values::Width;
use prefix_lanes::Prefix;
use std::alloc::{AllocError, Global};
use std::test::Fail;

fn push_segment(
    alloc: Global,
    segments: &mut Vec<Segment>,
    kind: SegmentKind,
    numbers: &[Asn],
) -> Result<(), AllocError> {
    let numbers = Numbers::from_slice(alloc, numbers)?;
    segments
        .push(Segment { kind, numbers })
        .map_err(|_| AllocError)
}

fn push_segments(
    alloc: Global,
    segments: &mut Vec<Segment>,
    numbers: &[Asn],
    set: &[Asn],
) -> Result<(), AllocError> {
    push_segment(alloc, segments, SegmentKind::AsSequence, numbers)?;
    if set.is_empty() {
        return Ok(());
    }
    push_segment(alloc, segments, SegmentKind::AsSet, set)
}

// A path of one AS_SEQUENCE, and of an AS_SET behind it where there are numbers for one.
fn path(alloc: Global, numbers: &[Asn], set: &[Asn]) -> Result<Items<Segment>, AllocError> {
    let mut segments = Vec::new(alloc);
    push_segments(alloc, &mut segments, numbers, set)?;
    Ok(Items::from_vec(segments))
}

fn push_raw(alloc: Global, raws: &mut Vec<Raw>, code: u8, len: usize) -> Result<(), AllocError> {
    let value = Octets::from_vec(vec![in alloc; 7u8; len]?);
    let flags = 0xc0;
    raws.push(Raw { flags, code, value })
        .map_err(|_| AllocError)
}

// Unknown attributes of these codes, each with a value of so many octets.
fn raws(alloc: Global, codes: &[u8], len: usize) -> Result<Items<Raw>, AllocError> {
    let mut raws = Vec::new(alloc);
    for code in codes {
        push_raw(alloc, &mut raws, *code, len)?;
    }
    Ok(Items::from_vec(raws))
}

fn prefixes(alloc: Global, list: &[(u32, u8)]) -> Result<Items<Prefix>, AllocError> {
    let mut prefixes = Vec::new(alloc);
    for (addr, len) in list {
        if let Some(prefix) = Prefix::new(*addr, *len) {
            prefixes.push(prefix)?;
        }
    }
    Ok(Items::from_vec(prefixes))
}

// The attributes of this path, with these unknown ones behind.
fn attrs(path: Items<Segment>, other: Items<Raw>) -> Attrs {
    Attrs {
        origin: Some(0),
        path: Some(path),
        next_hop: Some(0x0a00_0001),
        med: Some(5),
        local_pref: None,
        atomic: true,
        aggregator: Some(Aggregator {
            asn: 7,
            addr: 0x0a00_0002,
            partial: true,
        }),
        other,
    }
}

static WITHDRAWN: [(u32, u8); 1] = [(0x0a01_0000, 16)];

static EVERY_PREFIX: [(u32, u8); 1] = [(0, 0)];

// An UPDATE that withdraws 10.1.0.0/16, with these attributes and announced prefixes.
fn update(alloc: Global, attrs: Attrs, announced: &[(u32, u8)]) -> Result<Message, AllocError> {
    let nlri = prefixes(alloc, announced)?;
    let withdrawn = prefixes(alloc, &WITHDRAWN)?;
    Ok(Message::UpdateMsg(Update {
        withdrawn,
        attrs,
        nlri,
    }))
}

static ANNOUNCED: [(u32, u8); 2] = [(0x0a01_ffff, 17), (0, 0)];

// An UPDATE of RFC 4271 section 4.3: withdrawn prefixes, attributes in rising order of code, the
// announced prefixes with their other bits zero.
#[test]
fn an_update_is_written(rt: HostRuntime) -> Result<(), Fail> {
    let alloc = rt.alloc();
    let path = path(alloc, &[1, 2], &[3])?;
    let other = raws(alloc, &[0, 8], 1)?;
    let message = update(alloc, attrs(path, other), &ANNOUNCED)?;
    let wanted = b"\x00\x52\x02\x00\x03\x10\x0a\x01\x00\x33\
        \xc0\x00\x01\x07\
        \x40\x01\x01\x00\
        \x40\x02\x0a\x02\x02\x00\x01\x00\x02\x01\x01\x00\x03\
        \x40\x03\x04\x0a\x00\x00\x01\
        \x80\x04\x04\x00\x00\x00\x05\
        \x40\x06\x00\
        \xe0\x07\x06\x00\x07\x0a\x00\x00\x02\
        \xc0\x08\x01\x07\
        \x11\x0a\x01\x80\x00";
    assert!(rt; is_written_as(alloc, &message, wanted));
    Ok(())
}

// An UPDATE with a path of this number, so many times, and unknown attributes of these codes, and whether it
// is writable where numbers have so many octets.
struct Writable {
    width: Width,
    asn: Asn,
    count: usize,
    codes: [u8; 2],
    wanted: bool,
}

#[rattlefmt::skip]
static WRITABLE: [Writable; 9] = [
    Writable { width: Width::Two, asn: 9, count: 255, codes: [8, 9], wanted: true },
    Writable { width: Width::Two, asn: 9, count: 256, codes: [8, 9], wanted: false },
    Writable { width: Width::Two, asn: 9, count: 0, codes: [8, 9], wanted: false },
    Writable { width: Width::Two, asn: 65_536, count: 1, codes: [8, 9], wanted: false },
    Writable { width: Width::Four, asn: 65_536, count: 255, codes: [8, 9], wanted: true },
    Writable { width: Width::Four, asn: 65_536, count: 256, codes: [8, 9], wanted: false },
    Writable { width: Width::Two, asn: 9, count: 1, codes: [9, 8], wanted: false },
    Writable { width: Width::Two, asn: 9, count: 1, codes: [8, 8], wanted: false },
    Writable { width: Width::Two, asn: 9, count: 1, codes: [7, 8], wanted: false },
];

fn path_of(alloc: Global, asn: Asn, count: usize) -> Result<Items<Segment>, AllocError> {
    let numbers = vec![in alloc; asn; count]?;
    path(alloc, numbers.as_slice(), &[])
}

fn update_of(alloc: Global, row: &Writable) -> Result<Message, AllocError> {
    let path = path_of(alloc, row.asn, row.count)?;
    let other = raws(alloc, &row.codes, 3)?;
    update(alloc, attrs(path, other), &EVERY_PREFIX)
}

// What cannot be read is not writable: a segment of 256 numbers or of none, a number of three
// octets where numbers have two, unknown attributes out of order or with a known code.
#[test]
fn updates_that_are_not_writable(rt: HostRuntime) -> Result<(), Fail> {
    for row in &WRITABLE {
        let message = update_of(rt.alloc(), row)?;
        let rule = Rule {
            width: row.width,
            ..NOBODY
        };
        assert!(rt;
            is_writable(&message, &rule) == row.wanted,
            "{} {:?}",
            row.count,
            row.codes
        );
    }
    Ok(())
}

// An announcement without a path is not writable.
#[test]
fn an_announcement_has_a_path(rt: HostRuntime) -> Result<(), Fail> {
    let alloc = rt.alloc();
    let mut attrs = attrs(Items::new(alloc), Items::new(alloc));
    attrs.path = None;
    let message = update(alloc, attrs, &EVERY_PREFIX)?;
    assert!(rt; !is_writable(&message, &NOBODY));
    Ok(())
}

// An UPDATE with an unknown attribute of so many octets.
fn update_with(alloc: Global, len: usize) -> Result<Message, AllocError> {
    let other = raws(alloc, &[200], len)?;
    update(alloc, attrs(Items::new(alloc), other), &EVERY_PREFIX)
}

static LONG: [(usize, Option<usize>); 2] = [(4032, Some(4096)), (4033, None)];

// The longest UPDATE is written, and a writable one of an octet more is refused with the vector as
// it was. Its unknown attribute needs Extended Length.
#[test]
fn the_longest_update_is_written(rt: HostRuntime) -> Result<(), Fail> {
    for &(len, wanted) in &LONG {
        let mut out = vec![in rt.alloc(); 7u8]?;
        let message = update_with(rt.alloc(), len)?;
        is_written_behind(&rt, &mut out, &message, wanted);
    }
    Ok(())
}
