//! The meanings of the codes of refusals.

ghost use Rattle.std.specs.Prelude.{◌≡◌};
ghost use Rattle.error_words.specs.Meanings.{meaning, whole_meaning, meaning_at};

use crate::tables::found_in;
use net_text::lexing::same;

// Each code of a line, and its meaning.
#[rattlefmt::skip]
static MEANINGS: [(&[u8], &[u8]); 19] = [
    (b"N1", b"an unknown first word, a wrong number of words, or an octet past ASCII"),
    (b"N2", b"a number, address or path that can't be read"),
    (b"N3", b"a router that no earlier line names"),
    (b"N4", b"what came before, or a link of a router with itself"),
    (b"N5", b"the network isn't connected"),
    (b"N6", b"a number or count outside its limit"),
    (b"N7", b"a path that isn't simple, or doesn't begin with its router"),
    (b"N8", b"a prefix that can't be read, or without an origin"),
    (b"S1", b"a path that isn't permitted"),
    (b"E1", b"a session with a router that is no peer"),
    (b"E2", b"a router that is not the prefix's origin"),
    (b"E3", b"a snapshot whose number is not above the router's last"),
    (b"E6", b"a stamp past the greatest number"),
    (b"E8", b"an incarnation past the greatest number"),
    (b"V1", b"no router"),
    (b"V2", b"no link"),
    (b"G2", b"a router had no stamp or no incarnation left, or its offer was refused"),
    (b"G3", b"chores that leave no room for the snapshots, or are not 1 to 1000000"),
    (b"G4", b"the offers on the board are not those that the workers wrote down"),
];

// The meaning of a code of a line.
fn meaning(code: &[u8]) -> &'static [u8]
    ensures { result.now ≡ meaning code.now }
{
    found_in(&MEANINGS, code).unwrap_or(b"docs/TEXTS.md says what it means")
}

// The meaning of a code of the whole input.
fn whole_meaning(code: &[u8]) -> &'static [u8]
    ensures { result.now ≡ whole_meaning code.now }
{
    if same(code, b"N3") {
        return b"the network has no router of this number";
    }
    if same(code, b"N6") {
        return b"no router, or more than 16777216 octets";
    }
    meaning(code)
}

/// The meaning of a code of a line, or of the whole input, whose number is 0.
pub fn meaning_at(line: u64, code: &[u8]) -> &'static [u8]
    ensures { result.now ≡ meaning_at line code.now }
{
    if line == 0 {
        whole_meaning(code)
    } else {
        meaning(code)
    }
}
