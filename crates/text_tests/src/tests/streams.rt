//! Streams in hex that are made: blanks at every place, every beginning, and long ones.

use bgp_codec::Rule;
use bgp_values::Width;
use std::alloc::{AllocError, Global};
use std::process::Abort;
use std::test::Fail;
use text_engines::{Watched, decode_stream};

// A KEEPALIVE.
pub const KEEPALIVE: &[u8] = b"ffffffffffffffffffffffffffffffff001304";

// What is printed for a route.
pub const ROUTE: &[u8] = b"update announce 10.1.0.0/16 path 1 next 10.0.0.1\n";

// A message of 44 octets that announces it.
pub const MESSAGE: &[u8] =
    b"ffffffffffffffffffffffffffffffff002c020000001240010100400204020100014003040a000001100a01";

// AS numbers of two octets, and nothing known of a peer.
pub fn rule() -> Rule {
    Rule {
        width: Width::Two,
        peer: None,
        own: None,
    }
}

// Whether `decode` writes this text for this input, with this status.
fn is_decoded(alloc: Global, input: &[u8], text: &[u8], status: u8) -> bool {
    let mut reader = Watched::new(input);
    let mut writer = Watched::new(Vec::new(alloc));
    let got = decode_stream(alloc, &rule(), &mut reader, &mut writer).ok();
    let out: Vec<u8> = writer.into_inner();
    out.as_slice() == text && got == Some(status)
}

// So many copies of a text, one behind the other.
pub fn copies(alloc: Global, text: &[u8], count: usize) -> Result<Vec<u8>, AllocError> {
    let mut all = Vec::new(alloc);
    for _ in 0..count {
        all.extend_from_slice(text)?;
    }
    Ok(all)
}

// The texts one behind the other.
pub fn joined(alloc: Global, texts: &[&[u8]]) -> Result<Vec<u8>, AllocError> {
    let mut all = Vec::new(alloc);
    for text in texts {
        all.extend_from_slice(text)?;
    }
    Ok(all)
}

// Whether a text in front of the digit at a place of the digits is answered so.
fn is_decoded_with(
    alloc: Global,
    digits: &[u8],
    at: usize,
    text: &[u8],
    (wanted, status): (&[u8], u8),
) -> Result<bool, AllocError> {
    let (front, back) = digits.split_at(at.min(digits.len()));
    let input = joined(alloc, &[front, text, back])?;
    Ok(is_decoded(alloc, input.as_slice(), wanted, status))
}

static BLANKS: [&[u8]; 5] = [
    b" ",
    b"\t",
    b"\r",
    b"\n",
    b"                                                                      ",
];

fn blanks_change_nothing_in(
    rt: &impl Abort,
    alloc: Global,
    digits: &[u8],
    text: &[u8],
) -> Result<(), Fail> {
    for &blanks in &BLANKS {
        for at in 0..digits.len() + 1 {
            assert!(rt;
                is_decoded_with(alloc, digits, at, blanks, (text, 0))?,
                "{at}"
            );
        }
    }
    Ok(())
}

// A blank of any kind at any place changes nothing, and neither do many that stand together. Eight
// KEEPALIVEs are 304 digits, several times what is looked at together.
#[test]
fn blanks_change_nothing(rt: HostRuntime) -> Result<(), Fail> {
    let digits = copies(rt.alloc(), KEEPALIVE, 8)?;
    let text = copies(rt.alloc(), b"keepalive\n", 8)?;
    blanks_change_nothing_in(&rt, rt.alloc(), digits.as_slice(), text.as_slice())
}

static NO_BLANKS: [u8; 13] = [0, 8, 11, 12, 14, 31, 33, 47, 58, 127, 128, 160, 255];

fn no_other_octet_is_a_blank_in(rt: &impl Abort, alloc: Global, digits: &[u8]) -> Result<(), Fail> {
    for &octet in &NO_BLANKS {
        let text = [octet, b'0'];
        assert!(rt;
            is_decoded_with(alloc, digits, 100, &text, (b"bad hex\n", 1))?,
            "{octet}"
        );
    }
    Ok(())
}

// An octet that is no blank, however near to one, is no digit either.
#[test]
fn no_other_octet_is_a_blank(rt: HostRuntime) -> Result<(), Fail> {
    let digits = copies(rt.alloc(), KEEPALIVE, 8)?;
    no_other_octet_is_a_blank_in(&rt, rt.alloc(), digits.as_slice())
}

// Whether so many octets of the message are answered as a rest.
fn is_truncated(alloc: Global, len: usize) -> Result<bool, AllocError> {
    let text = format!(in alloc; "truncated {len}\n")?;
    let (front, _) = MESSAGE.split_at((2 * len.min(44)).min(MESSAGE.len()));
    Ok(is_decoded(alloc, front, text.as_bytes(), 1))
}

#[test]
fn each_beginning_of_a_message_is_truncated(rt: HostRuntime) -> Result<(), Fail> {
    for len in 1..44usize {
        assert!(rt; is_truncated(rt.alloc(), len)?, "{len}");
    }
    assert!(rt; is_decoded(rt.alloc(), MESSAGE, ROUTE, 0));
    Ok(())
}

// Copies of a text between two others, what is printed for them, in the same way, and the status.
struct Long {
    count: usize,
    input: [&'static [u8]; 3],
    printed: [&'static [u8]; 3],
    status: u8,
}

static LONG: [Long; 3] = [
    // An UPDATE of 4096 octets with 1019 withdrawn prefixes.
    Long {
        count: 1018,
        input: [
            b"ffffffffffffffff ffffffffffffffff 1000 02 0fe9",
            b"18c7ff64",
            b"00 0000",
        ],
        printed: [b"update withdraw", b" 199.255.100.0/24", b" 0.0.0.0/0\n"],
        status: 0,
    },
    // One with an attribute of 4048 octets.
    Long {
        count: 4048,
        input: [
            b"ffffffffffffffff ffffffffffffffff 1000 02 0000 0fe6 \
            40010100 40020402010001 4003040a000001 d0090fd0",
            b"5a",
            b"100a01",
        ],
        printed: [b"", b"", ROUTE],
        status: 0,
    },
    // A stream of more than one piece: 1000 messages of 37 octets, and a rest.
    Long {
        count: 1000,
        input: [
            b"",
            b"ffffffffffffffff ffffffffffffffff 0025 03 0601 000102030405060708090a0b0c0d0e0f\n",
            b"ff ff",
        ],
        printed: [
            b"",
            b"notification 6 1 000102030405060708090a0b0c0d0e0f\n",
            b"truncated 2\n",
        ],
        status: 1,
    },
];

// Copies of the second text between the first and the third.
fn between(alloc: Global, texts: &[&[u8]; 3], count: usize) -> Result<Vec<u8>, AllocError> {
    let middle = copies(alloc, texts[1], count)?;
    joined(alloc, &[texts[0], middle.as_slice(), texts[2]])
}

fn is_decoded_as_said(alloc: Global, long: &Long) -> Result<bool, AllocError> {
    let input = between(alloc, &long.input, long.count)?;
    let text = between(alloc, &long.printed, long.count)?;
    Ok(is_decoded(alloc, input.as_slice(), text.as_slice(), long.status))
}

#[test]
fn long_streams_are_decoded_to_their_end(rt: HostRuntime) -> Result<(), Fail> {
    for long in &LONG {
        assert!(rt; is_decoded_as_said(rt.alloc(), long)?, "{}", long.count);
    }
    Ok(())
}

// The limit of the input is judged before all else.
#[test]
fn an_input_above_its_limit_is_refused(rt: HostRuntime) -> Result<(), Fail> {
    let alloc = rt.alloc();
    let mut input = vec![in alloc; b' '; 16_777_216]?;
    assert!(rt; is_decoded(alloc, input.as_slice(), b"", 0));
    input.push(b'z')?;
    assert!(rt; is_decoded(alloc, input.as_slice(), b"refused 0 N6\n", 1));
    Ok(())
}
