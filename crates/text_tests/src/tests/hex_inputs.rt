//! Texts in hex that are made: of every length, read in pieces, with blanks, and with an octet that is no digit at
//! each place. What they stand for is what the crate `hex` makes of them without their blanks.

use super::streams::{KEEPALIVE, MESSAGE, ROUTE, copies, joined, rule};
use hex::FromHexError;
use std::alloc::{AllocError, Global};
use std::io;
use std::io::Read;
use std::process::Abort;
use std::test::Fail;
use text_engines::{Watched, decode_stream};

// Gives so many octets at a time.
#[derive(Drop)]
struct Pieces<'a> {
    left: &'a [u8],
    step: usize,
}

impl Read for Pieces<'_> {
    fn read(&mut self, buf: &mut [u8]) -> io::Result<usize> {
        let n = self.left.len().min(buf.len()).min(self.step);
        let (front, back) = self.left.split_at(n);
        buf[..n].copy_from_slice(front);
        self.left = back;
        Ok(n)
    }
}

// The octets of a NOTIFICATION before its data: its length is to be put in.
const HEAD: [u8; 21] = [
    255, 255, 255, 255, 255, 255, 255, 255, 255, 255, 255, 255, 255, 255, 255, 255, 0, 0, 3, 6, 2,
];

// A NOTIFICATION with so many octets of data.
fn notification(alloc: Global, count: u8) -> Result<Vec<u8>, AllocError> {
    let mut octets = HEAD.to_vec(alloc)?;
    octets.as_mut_slice()[17] = count.saturating_add(21);
    for i in 0..count {
        octets.push(i.wrapping_mul(37).wrapping_add(11))?;
    }
    Ok(octets)
}

// The digits of one, in lower or upper case, cut to so many.
fn digits_of(alloc: Global, count: u8, is_upper: bool, len: usize) -> Result<Vec<u8>, AllocError> {
    let octets = notification(alloc, count)?;
    let text = if is_upper {
        hex::encode_upper(alloc, octets.as_slice())?
    } else {
        hex::encode(alloc, octets.as_slice())?
    };
    let digits = text.as_bytes();
    let (front, _) = digits.split_at(len.min(digits.len()));
    front.to_vec(alloc)
}

// What is printed for the octets of a NOTIFICATION, or for a few of them.
fn line_of(alloc: Global, octets: &[u8]) -> Result<String, AllocError> {
    let len = octets.len();
    if len == 0 {
        return String::from_str(alloc, "");
    }
    if len < HEAD.len() {
        return format!(in alloc; "truncated {len}\n");
    }
    let (_, extra) = octets.split_at(HEAD.len());
    if extra.is_empty() {
        return String::from_str(alloc, "notification 6 2 -\n");
    }
    let digits = hex::encode(alloc, extra)?;
    format!(in alloc; "notification 6 2 {digits}\n")
}

// What is printed for these digits.
fn wanted(alloc: Global, digits: &[u8]) -> Result<String, AllocError> {
    match hex::decode(alloc, digits) {
        Ok(octets) => line_of(alloc, octets.as_slice()),
        Err(FromHexError::OutOfMemory) => Err(AllocError),
        Err(_) => String::from_str(alloc, "bad hex\n"),
    }
}

// Whether this is printed for a text that is read so many octets at a time.
fn prints(alloc: Global, text: &[u8], step: usize, wanted: &[u8]) -> bool {
    let mut reader = Watched::new(Pieces { left: text, step });
    let mut writer = Watched::new(Vec::new(alloc));
    let got = decode_stream(alloc, &rule(), &mut reader, &mut writer).is_ok();
    let out: Vec<u8> = writer.into_inner();
    got && out.as_slice() == wanted
}

static STEPS: [usize; 6] = [1, 3, 32, 33, 64, 1000];

fn each_step_reads(rt: &impl Abort, alloc: Global, text: &[u8], digits: &[u8]) -> Result<(), Fail> {
    let line = wanted(alloc, digits)?;
    for &step in &STEPS {
        assert!(rt;
            prints(alloc, text, step, line.as_bytes()),
            "{step} of {}",
            text.len()
        );
    }
    Ok(())
}

// The digits of whole NOTIFICATIONs of every length, and those with a digit less.
#[test]
fn every_length_is_read(rt: HostRuntime) -> Result<(), Fail> {
    let alloc = rt.alloc();
    for count in 0..66u8 {
        for is_upper in [false, true] {
            let digits = digits_of(alloc, count, is_upper, 1000)?;
            each_step_reads(&rt, alloc, digits.as_slice(), digits.as_slice())?;
            let (short, _) = digits.as_slice().split_at(digits.len().saturating_sub(1));
            each_step_reads(&rt, alloc, short, short)?;
        }
    }
    Ok(())
}

#[test]
fn every_beginning_is_read(rt: HostRuntime) -> Result<(), Fail> {
    let alloc = rt.alloc();
    for len in 0..42usize {
        for is_upper in [false, true] {
            let digits = digits_of(alloc, 0, is_upper, len)?;
            each_step_reads(&rt, alloc, digits.as_slice(), digits.as_slice())?;
        }
    }
    Ok(())
}

// Blanks that stand together.
static BLANKS: [&[u8]; 7] = [
    b"\n",
    b" ",
    b"\r\n",
    b"\t",
    b"\r",
    b" \t\r\n ",
    b"                                                                 ",
];

static GAPS: [usize; 14] = [1, 2, 3, 4, 15, 16, 17, 32, 48, 60, 63, 64, 65, 80];

// The digits, with blanks behind the first so many and behind each so many more, of these kinds by turns.
fn spaced(
    alloc: Global,
    digits: &[u8],
    kinds: &[&[u8]],
    (first, gap): (usize, usize),
) -> Result<Vec<u8>, AllocError> {
    let mut text = Vec::new(alloc);
    let mut left = first;
    let mut kind = 0usize;
    for digit in digits {
        if left == 0 {
            if kind >= kinds.len() {
                kind = 0;
            }
            if let Some(blanks) = kinds.get(kind) {
                text.extend_from_slice(blanks)?;
            }
            kind = kind.saturating_add(1);
            left = gap;
        }
        text.push(*digit)?;
        left = left.saturating_sub(1);
    }
    Ok(text)
}

fn each_gap_is_skipped(
    rt: &impl Abort,
    alloc: Global,
    digits: &[u8],
    kinds: &[&[u8]],
) -> Result<(), Fail> {
    for &gap in &GAPS {
        for first in [0, 1, gap] {
            let text = spaced(alloc, digits, kinds, (first, gap))?;
            each_step_reads(rt, alloc, text.as_slice(), digits)?;
        }
    }
    Ok(())
}

// Line ends alone, blanks that stand alone, a few together, and many.
#[test]
fn blanks_are_skipped(rt: HostRuntime) -> Result<(), Fail> {
    let alloc = rt.alloc();
    let digits = digits_of(alloc, 200, false, 1000)?;
    for count in [1usize, 3, 5, 7] {
        let (kinds, _) = BLANKS.as_slice().split_at(count);
        each_gap_is_skipped(&rt, alloc, digits.as_slice(), kinds)?;
    }
    Ok(())
}

// What is no digit, and no blank either: some of these are below a space.
static BAD: [u8; 17] = [
    b'g', b'G', b'/', b':', b'@', b'`', 0, 1, 8, 11, 12, 14, 31, 33, 127, 128, 255,
];

// A bad octet in the place of each digit, with a line end behind each so many digits.
fn each_bad_octet_is_seen(
    rt: &impl Abort,
    alloc: Global,
    digits: &mut [u8],
    gap: usize,
) -> Result<(), Fail> {
    for place in 0..digits.len() {
        let good = digits[place];
        digits[place] = BAD[place % 17];
        let text = spaced(alloc, digits, &[b"\n"], (gap, gap))?;
        let line = wanted(alloc, digits)?;
        assert!(rt; line.as_str() == "bad hex\n");
        assert!(rt;
            prints(alloc, text.as_slice(), 1000, line.as_bytes()),
            "{place}"
        );
        assert!(rt;
            prints(alloc, text.as_slice(), 33, line.as_bytes()),
            "{place}"
        );
        digits[place] = good;
    }
    Ok(())
}

#[test]
fn a_bad_octet_is_seen_at_every_place(rt: HostRuntime) -> Result<(), Fail> {
    let alloc = rt.alloc();
    for count in [46u8, 61] {
        for gap in [10usize, 64, 1000] {
            let mut digits = digits_of(alloc, count, true, 1000)?;
            each_bad_octet_is_seen(&rt, alloc, digits.as_mut_slice(), gap)?;
        }
    }
    Ok(())
}

// Several chunks of what is read, with a line end behind each so many digits.
#[test]
fn many_lines_are_read(rt: HostRuntime) -> Result<(), Fail> {
    let alloc = rt.alloc();
    let one = digits_of(alloc, 200, false, 1000)?;
    let line = wanted(alloc, one.as_slice())?;
    let digits = copies(alloc, one.as_slice(), 500)?;
    let lines = copies(alloc, line.as_bytes(), 500)?;
    for gap in [32usize, 48, 63, 64, 65, 80] {
        let text = spaced(alloc, digits.as_slice(), &[b"\n"], (gap, gap))?;
        assert!(rt;
            prints(alloc, text.as_slice(), 100_000, lines.as_slice()),
            "{gap}"
        );
    }
    Ok(())
}

// A NOTIFICATION with data, and what is printed for it.
const CEASE: &[u8] = b"ffffffffffffffffffffffffffffffff00180306020a0b0c";

const CEASED: &[u8] = b"notification 6 2 0a0b0c\n";

// A header of type 9, and what is printed for it.
const UNKNOWN: &[u8] = b"ffffffffffffffffffffffffffffffff001309";

const FAULT: &[u8] = b"fault 1 3\nffffffffffffffffffffffffffffffff001603010309\n";

// An UPDATE that has no NEXT_HOP, and what is printed for it.
const MISSING: &[u8] =
    b"ffffffffffffffffffffffffffffffff00250200000 00b 40010100 40020402010001 100a01";

const MISSED: &[u8] = b"fault 3 3\nffffffffffffffffffffffffffffffff001603030303\n";

fn each_piece_goes_on(
    rt: &impl Abort,
    alloc: Global,
    texts: &[&[u8]],
    lines: &[&[u8]],
) -> Result<(), Fail> {
    let text = joined(alloc, texts)?;
    let wanted = joined(alloc, lines)?;
    for step in 1..150usize {
        assert!(rt;
            prints(alloc, text.as_slice(), step, wanted.as_slice()),
            "{step}"
        );
    }
    Ok(())
}

// A stream is printed as it is read: messages that come in pieces, and what stands behind the first fault.
#[test]
fn pieces_go_on(rt: HostRuntime) -> Result<(), Fail> {
    let alloc = rt.alloc();
    let front = [KEEPALIVE, MESSAGE, CEASE, MESSAGE];
    let lines: [&[u8]; 4] = [b"keepalive\n", ROUTE, CEASED, ROUTE];
    each_piece_goes_on(&rt, alloc, &front, &lines)?;
    for (fault, line) in [(UNKNOWN, FAULT), (MISSING, MISSED)] {
        let texts = [KEEPALIVE, CEASE, MESSAGE, fault, KEEPALIVE, CEASE, b"0a0"];
        let lines = [b"keepalive\n".as_slice(), CEASED, ROUTE, line];
        let (whole, _) = texts.as_slice().split_at(6);
        each_piece_goes_on(&rt, alloc, whole, &lines)?;
        each_piece_goes_on(&rt, alloc, &texts, &[b"bad hex\n"])?;
    }
    each_piece_goes_on(
        &rt,
        alloc,
        &[CEASE, KEEPALIVE, b"ffffffff"],
        &[CEASED, b"keepalive\n", b"truncated 4\n"],
    )
}
