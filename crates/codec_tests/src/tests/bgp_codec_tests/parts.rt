//! The parts of an UPDATE, read one after the other from its octets.

ghost use Rattle.std.specs.Prelude.{◌≡◌};
ghost use Rattle.bgp_codec.specs.Header.{IsFrame, kind_field};
ghost use Rattle.bgp_values.specs.declared.messages.TheConstants.{UPDATE};

use super::judging::framed;
use bgp_codec::{
    Asn, NOBODY, NumberOctets, PathOctets, PrefixOctets, SegmentKind, UpdateParts, update_parts,
};
use bgp_framing::{Next, next_message};
use bgp_values::UPDATE;
use std::alloc::Global;
use std::test::Fail;

// Whether these are all the prefixes that are left.
fn are_prefixes(mut prefixes: PrefixOctets<'_>, wanted: &[(u32, u8)]) -> bool {
    if prefixes.len() != wanted.len() {
        return false;
    }
    for (addr, len) in wanted {
        match prefixes.next() {
            Some(prefix) if prefix.addr() == *addr && prefix.len() == *len => {}
            _ => return false,
        }
    }
    prefixes.next().is_none()
}

// Whether these are all the numbers that are left.
fn are_numbers(mut numbers: NumberOctets<'_>, wanted: &[Asn]) -> bool {
    for number in wanted {
        if numbers.next() != Some(*number) {
            return false;
        }
    }
    numbers.next().is_none()
}

// Whether this segment is the next.
fn is_segment(path: &mut PathOctets<'_>, kind: SegmentKind, wanted: &[Asn]) -> bool {
    match path.next() {
        Some((found, numbers)) => found == kind && are_numbers(numbers, wanted),
        None => false,
    }
}

// Whether the path is 1, 2 and then the set of 3.
fn is_path(path: Option<PathOctets<'_>>) -> bool {
    match path {
        Some(mut path) => {
            path.most_items() >= 5
                && is_segment(&mut path, SegmentKind::AsSequence, &[1, 2])
                && is_segment(&mut path, SegmentKind::AsSet, &[3])
                && path.next().is_none()
        }
        None => false,
    }
}

// Whether these are the parts of the UPDATE below.
fn are_parts(parts: UpdateParts<'_>) -> bool {
    let UpdateParts {
        withdrawn,
        path,
        next_hop,
        nlri,
    } = parts;
    are_prefixes(withdrawn, &[(0x0a01_0000, 16)])
        && is_path(path)
        && next_hop == Some(0x0a00_0001)
        && are_prefixes(nlri, &[(0x0a01_8000, 17), (0, 0)])
}

// 10.1.0.0/16 is withdrawn, 10.1.128.0/17 and 0.0.0.0/0 are announced: bits behind a prefix are no part of it.
static BODY: &[u8] = b"\x00\x03\x10\x0a\x01\x00\x18\
    \x40\x01\x01\x00\
    \x40\x03\x04\x0a\x00\x00\x01\
    \x40\x02\x0a\x02\x02\x00\x01\x00\x02\x01\x01\x00\x03\
    \x11\x0a\x01\xff\x00";

// Whether the frame of an UPDATE has these parts.
fn has_parts(alloc: Global, frame: &[u8]) -> bool
    requires frame { IsFrame frame.now }
    requires kind { kind_field frame.now ≡ UPDATE }
{
    match update_parts(alloc, frame, &NOBODY) {
        Ok(parts) => are_parts(parts),
        Err(_error) => false,
    }
}

// Whether the frame of an UPDATE with these parts stands in front of the octets.
fn begins_with_parts(alloc: Global, octets: &[u8]) -> bool {
    match next_message(alloc, octets) {
        Next::Whole(_, end) => {
            let (frame, _) = octets.split_at(end);
            frame[18] == UPDATE && has_parts(alloc, frame)
        }
        Next::More | Next::Bad(_) => false,
    }
}

#[test]
fn an_update_is_read_in_parts(rt: HostRuntime) -> Result<(), Fail> {
    assert!(rt; begins_with_parts(rt.alloc(), &framed(UPDATE, BODY)));
    Ok(())
}
