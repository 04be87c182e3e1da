//! What a user may have meant.

ghost use Rattle.std.specs.Prelude.{◌≡◌};
ghost use Rattle.std.specs.List.{list_all};
ghost use Rattle.net_text.specs.Lexing.{words_of};
ghost use Rattle.error_words.specs.Hints.{has, is_marked, is_wide, is_capture, is_message, is_place_octet, is_placed, is_dump, hint_of_line, hint_of_hex, hint_text};

use net_text::lexing::next_word;

/// What a user may have meant whose input is refused.
#[derive(Clone, Copy)]
pub enum Hint {
    /// The input begins with a byte order mark of UTF-8.
    Mark,
    /// The input is UTF-16.
    Wide,
    /// The line has a CR that ends no line.
    Return,
    /// A remark stands behind other words.
    Remark,
    /// The input is a capture.
    Capture,
    /// The input is octets, not hex.
    Octets,
    /// The input is a hexdump, with places and characters.
    Dump,
    /// Remarks stand in hex.
    HexRemark,
}

/// Whether a text has an octet.
pub(crate) fn has(octet: u8, text: &[u8]) -> bool
    ensures { result ≡ has octet text.now }
{
    text.contains(&octet)
}

fn is_marked(input: &[u8]) -> bool
    ensures { result ≡ is_marked input.now }
{
    input.starts_with(b"\xef\xbb\xbf")
}

fn is_wide(input: &[u8]) -> bool
    ensures { result ≡ is_wide input.now }
{
    input.starts_with(b"\xff\xfe") || input.starts_with(b"\xfe\xff")
}

fn is_capture(input: &[u8]) -> bool
    ensures { result ≡ is_capture input.now }
{
    input.starts_with(b"\xd4\xc3\xb2\xa1")
        || input.starts_with(b"\xa1\xb2\xc3\xd4")
        || input.starts_with(b"\x4d\x3c\xb2\xa1")
        || input.starts_with(b"\xa1\xb2\x3c\x4d")
        || input.starts_with(b"\x0a\x0d\x0d\x0a")
}

fn is_message(input: &[u8]) -> bool
    ensures { result ≡ is_message input.now }
{
    input.starts_with(&[255; 16])
}

// Whether an octet is one of a place or a time.
fn is_place_octet(x: u8) -> bool
    ensures { result ≡ is_place_octet x }
{
    match x {
        b'0'..=b':' | b'a'..=b'f' | b'A'..=b'F' | b'x' | b'.' => true,
        _ => false,
    }
}

fn are_place_octets(word: &[u8]) -> bool
    ensures { result ≡ list_all is_place_octet word.now }
{
    word.iter().all(|x| is_place_octet(*x))
}

// Whether a line begins with a place or a time.
fn is_placed(line: &[u8]) -> bool
    ensures { result ≡ is_placed (words_of line.now) }
{
    match next_word(line) {
        Some((word, _)) => has(b':', word) && are_place_octets(word),
        None => false,
    }
}

fn is_dump(line: &[u8]) -> bool
    ensures { result ≡ is_dump line.now }
{
    has(b'|', line) || is_placed(line)
}

/// The hint on an input that is refused for a line, if there is one.
pub(crate) fn hint_of_line(input: &[u8], line: &[u8]) -> Option<Hint>
    ensures { result ≡ hint_of_line input.now line.now }
{
    if is_marked(input) {
        Some(Hint::Mark)
    } else if is_wide(input) {
        Some(Hint::Wide)
    } else if has(b'\r', line) {
        Some(Hint::Return)
    } else if has(b'#', line) {
        Some(Hint::Remark)
    } else {
        None
    }
}

/// The hint on an input that is no hex, by its first line, if there is one.
pub(crate) fn hint_of_hex(input: &[u8], first: &[u8]) -> Option<Hint>
    ensures { result ≡ hint_of_hex input.now first.now }
{
    if is_marked(input) {
        Some(Hint::Mark)
    } else if is_wide(input) {
        Some(Hint::Wide)
    } else if is_capture(input) {
        Some(Hint::Capture)
    } else if is_message(input) {
        Some(Hint::Octets)
    } else if is_dump(first) {
        Some(Hint::Dump)
    } else if has(b'#', input) {
        Some(Hint::HexRemark)
    } else {
        None
    }
}

/// A hint in words.
pub(crate) fn hint_text(hint: Hint) -> &'static [u8]
    ensures { result.now ≡ hint_text hint }
{
    match hint {
        Hint::Mark => b"the input begins with a byte order mark: save it without one",
        Hint::Wide => b"the input is UTF-16: save it as ASCII or UTF-8",
        Hint::Return => b"a CR alone ends no line: save the input with LF behind each line",
        Hint::Remark => b"a remark stands on a line of its own, '#' in front",
        Hint::Capture => {
            b"the input is a capture: tools/streams prints what its sessions say, and their hex"
        }
        Hint::Octets => b"the input is octets: 'xxd -p FILE | bgpnet decode' hands them on as hex",
        Hint::Dump => b"the input is a hexdump: 'xxd -p FILE' writes the digits alone",
        Hint::HexRemark => b"decode reads digits and blanks alone: take the remarks ('#') out",
    }
}
