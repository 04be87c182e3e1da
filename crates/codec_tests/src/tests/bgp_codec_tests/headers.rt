//! Headers, good and faulty.

use super::is_fault;
use bgp_codec::{Header, header};
use std::alloc::Global;

// A header: a Marker, and these octets.
fn header_of(tail: &[u8; 3]) -> [u8; 19] {
    let mut octets = [0xff; 19];
    octets[16] = tail[0];
    octets[17] = tail[1];
    octets[18] = tail[2];
    octets
}

// What is read of a header: the length and the type that it says, or the subcode and the data of the fault's
// NOTIFICATION, whose code is 1.
type Read = Result<(u16, u8), (u8, &'static [u8])>;

fn is_read(alloc: Global, octets: &[u8; 19], wanted: Read) -> bool {
    match (header(alloc, octets), wanted) {
        (Ok(header), Ok((len, kind))) => header == Header { len, kind },
        (Err(fault), Err((sub, extra))) => is_fault(&fault, 1, sub, extra),
        (Ok(_), Err(_)) | (Err(_), Ok(_)) => false,
    }
}

// What stands behind the Marker, and what is read.
static HEADERS: [(&[u8; 3], Read); 13] = [
    // Headers that fail a check of RFC 4271 section 6.1.
    (b"\x00\x12\x04", Err((2, b"\x00\x12"))),
    (b"\x10\x01\x04", Err((2, b"\x10\x01"))),
    (b"\x00\x13\x05", Err((3, b"\x05"))),
    (b"\x00\x13\x00", Err((3, b"\x00"))),
    (b"\x00\x14\x04", Err((2, b"\x00\x14"))),
    (b"\x00\x1c\x01", Err((2, b"\x00\x1c"))),
    (b"\x00\x16\x02", Err((2, b"\x00\x16"))),
    (b"\x00\x14\x03", Err((2, b"\x00\x14"))),
    // Headers that just pass.
    (b"\x00\x13\x04", Ok((19, 4))),
    (b"\x00\x15\x03", Ok((21, 3))),
    (b"\x00\x17\x02", Ok((23, 2))),
    (b"\x00\x1d\x01", Ok((29, 1))),
    (b"\x10\x00\x01", Ok((4096, 1))),
];

// A Marker with another octet at each place comes first.
#[test]
fn headers_are_read_or_refused(rt: HostRuntime) {
    for &(tail, wanted) in &HEADERS {
        assert!(rt; is_read(rt.alloc(), &header_of(tail), wanted), "{tail:?}");
    }
    for at in 0..16usize {
        let mut octets = [0xff; 19];
        octets[at] = 0xfe;
        assert!(rt; is_read(rt.alloc(), &octets, Err((1, &[]))), "octet {at}");
    }
}
