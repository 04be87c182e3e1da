//! Where a line stands in an input, and which first words may stand there.

ghost use Rattle.std.specs.Prelude.{◌≡◌, ◌≤◌, ◌∷◌, [], length};
ghost use Rattle.std.specs.Option.{option_copied};
ghost use Rattle.net_text.specs.Lexing.{words_of, lines_of};
ghost use Rattle.error_words.specs.Tables.{found_in, near_in};
ghost use Rattle.error_words.specs.Places.{pairs_clash, more_clash, operands_clash, clashes, before_clash, is_behind, place_of, own_rows};

use crate::tables::{found_in, near_in};
use net_text::lexing::{next_line, next_word, same};

/// Where a line stands.
#[derive(Clone, Copy)]
pub enum Place {
    /// Among the lines of a network.
    Network,
    /// Behind the line `schedule`.
    Schedule,
    /// Behind the line `assignment`.
    Assignment,
}

/// First words of lines of a network, each with its line.
#[rattlefmt::skip]
pub(crate) static NETWORK: [(&[u8], &[u8]); 9] = [
    (b"router", b"router AS IDENTIFIER"),
    (b"link", b"link A B"),
    (b"origin", b"origin AS PREFIX"),
    (b"rank", b"rank AS PREFIX PATH PATH .."),
    (b"asn", b"asn 4"),
    (b"hold", b"hold SECONDS"),
    (b"restart", b"restart SECONDS"),
    (b"cut", b"cut OCTETS"),
    (b"pipe", b"pipe ITEMS"),
];

/// First words of orders, each with its line.
#[rattlefmt::skip]
pub(crate) static ORDERS: [(&[u8], &[u8]); 16] = [
    (b"start", b"start U V"),
    (b"stop", b"stop U V"),
    (b"reset", b"reset U V"),
    (b"originate", b"originate U PREFIX"),
    (b"withdraw", b"withdraw U PREFIX"),
    (b"snapshot", b"snapshot U S"),
    (b"restart", b"restart U"),
    (b"tick", b"tick U"),
    (b"put", b"put U V"),
    (b"take", b"take U V"),
    (b"handle", b"handle U V"),
    (b"decide", b"decide U"),
    (b"advertise", b"advertise U"),
    (b"offer", b"offer U"),
    (b"rounds", b"rounds N"),
    (b"ticks", b"ticks N"),
];

/// The first word of a line of an assignment, with its line.
pub(crate) static PATHS: [(&[u8], &[u8]); 1] = [(b"path", b"path AS PREFIX PATH")];

/// The words that part an input, each with what is said of it.
#[rattlefmt::skip]
pub(crate) static SECTIONS: [(&[u8], &[u8]); 2] = [
    (b"schedule", b"'schedule' stands alone on its line, once, in what play, trace, cut and why read"),
    (b"assignment", b"'assignment' stands alone on its line, once, in what check reads"),
];

fn pairs_clash(name: &[u8], a: &[u8], b: &[u8], c: &[u8], d: &[u8]) -> bool
    ensures { result ≡ pairs_clash name.now a.now b.now c.now d.now }
{
    if same(name, b"router") {
        same(a, c) || same(b, d)
    } else if same(name, b"link") {
        same(a, c) && same(b, d) || same(a, d) && same(b, c)
    } else if same(name, b"origin") {
        same(b, d)
    } else {
        same(a, c) && same(b, d)
    }
}

fn more_clash(name: &[u8], a: &[u8], c: &[u8], words: &[u8], others: &[u8]) -> bool
    ensures { result ≡ more_clash name.now a.now c.now (words_of words.now) (words_of others.now) }
{
    match (next_word(words), next_word(others)) {
        (None, None) => true,
        (Some((b, _)), Some((d, _))) => pairs_clash(name, a, b, c, d),
        (None, Some(_)) | (Some(_), None) => false,
    }
}

fn operands_clash(name: &[u8], words: &[u8], others: &[u8]) -> bool
    ensures { result ≡ operands_clash name.now (words_of words.now) (words_of others.now) }
{
    match (next_word(words), next_word(others)) {
        (None, None) => true,
        (Some((a, words)), Some((c, others))) => more_clash(name, a, c, words, others),
        (None, Some(_)) | (Some(_), None) => false,
    }
}

// Whether the words of one line say again what those of another say.
fn clashes(line: &[u8], other: &[u8]) -> bool
    ensures { result ≡ clashes (words_of line.now) (words_of other.now) }
{
    match (next_word(line), next_word(other)) {
        (Some((name, words)), Some((also, others))) => {
            same(name, also) && operands_clash(name, words, others)
        }
        (None, _) | (Some(_), None) => false,
    }
}

/// How many lines of an input stand before the first that clashes with a line.
pub(crate) fn before_clash(line: &[u8], input: &[u8]) -> u64
    ensures count { result ≡ before_clash (words_of line.now) (lines_of input.now) }
    ensures bound { result ≤ length input.now }
{
    let mut left = input;
    let mut before = 0u64;
    'lines: while !left.is_empty() {
        let (other, rest) = next_line(left);
        if clashes(line, other) {
            return before;
        }
        before += 1;
        left = rest;
    }
    before
}

// Whether the line of a number stands behind the line that is this bare word.
fn is_behind(input: &[u8], name: &[u8], at: u64) -> bool
    requires { words_of name.now ≡ name.now ∷ [] }
    ensures { result ≡ is_behind input.now name.now at }
{
    before_clash(name, input) + 1 < at
}

/// Where the line of a number, counted from 1, stands.
#[tactic(auto, unfolding(crate::specs::Places::place_of))]
pub(crate) fn place_of(input: &[u8], at: u64) -> Place
    ensures { result ≡ place_of input.now at }
{
    if is_behind(input, b"schedule", at) {
        Place::Schedule
    } else if is_behind(input, b"assignment", at) {
        Place::Assignment
    } else {
        Place::Network
    }
}

/// The form of a line that a first word begins at a place.
pub(crate) fn own_form(place: Place, name: &[u8]) -> Option<&'static [u8]>
    ensures { option_copied result ≡ found_in (own_rows place) name.now }
{
    match place {
        Place::Network => found_in(&NETWORK, name),
        Place::Schedule => found_in(&ORDERS, name),
        Place::Assignment => found_in(&PATHS, name),
    }
}

/// The first word that may stand at a place and that a word nearly is.
pub(crate) fn own_near(place: Place, name: &[u8]) -> Option<&'static [u8]>
    ensures { option_copied result ≡ near_in (own_rows place) name.now }
{
    match place {
        Place::Network => near_in(&NETWORK, name),
        Place::Schedule => near_in(&ORDERS, name),
        Place::Assignment => near_in(&PATHS, name),
    }
}
