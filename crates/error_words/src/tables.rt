//! Tables of words: what stands behind each, and which is meant by one that is nearly it.

ghost use Rattle.std.specs.Prelude.{◌≡◌, drop, map};
ghost use Rattle.std.specs.Option.{option_copied};
ghost use Rattle.error_words.specs.Tables.{row_of, found_in, lower, alike, swapped, ends_near, is_near, near_in};

use net_text::lexing::same;

/// What stands behind a word in these rows.
pub(crate) fn found_in(
    rows: &[(&'static [u8], &'static [u8])],
    word: &[u8],
) -> Option<&'static [u8]>
    ensures { option_copied result ≡ found_in (map row_of rows.now) word.now }
{
    for row in rows {
        if same(word, row.0) {
            return Some(row.1);
        }
    }
    None
}

fn lower(x: u8) -> u8
    ensures { result ≡ lower x }
{
    match x {
        b'A'..=b'Z' => x + 32,
        _ => x,
    }
}

fn alike(word: &[u8], name: &[u8]) -> bool
    ensures { result ≡ alike word.now name.now }
{
    let mut left = word;
    let mut wanted = name;
    'octets: while let [x, rest @ ..] = left {
        let [y, others @ ..] = wanted else {
            return false;
        };
        if lower(*x) != *y {
            return false;
        }
        left = rest;
        wanted = others;
    }
    match wanted {
        [] => true,
        [_, ..] => false,
    }
}

fn swapped(word: &[u8], name: &[u8]) -> bool
    ensures { result ≡ swapped word.now name.now }
{
    match (word, name) {
        ([x, z, xs @ ..], [y, w, ys @ ..]) => {
            lower(*x) == *w && lower(*z) == *y && alike(xs, ys)
        }
        _ => false,
    }
}

// The text without its first octet.
fn behind_first(text: &[u8]) -> &[u8]
    ensures { result.now ≡ drop 1 text.now }
{
    match text {
        [_, rest @ ..] => rest,
        [] => text,
    }
}

fn ends_near(word: &[u8], name: &[u8]) -> bool
    ensures { result ≡ ends_near word.now name.now }
{
    let (xs, ys) = (behind_first(word), behind_first(name));
    alike(xs, ys) || alike(word, ys) || alike(xs, name) || swapped(word, name)
}

fn is_near(word: &[u8], name: &[u8]) -> bool
    ensures { result ≡ is_near word.now name.now }
{
    let mut left = word;
    let mut wanted = name;
    'octets: while let ([x, rest @ ..], [y, others @ ..]) = (left, wanted) {
        if lower(*x) != *y {
            break;
        }
        left = rest;
        wanted = others;
    }
    ends_near(left, wanted)
}

/// The first name of these rows that a word nearly is: but for letters large and small, and for one octet.
pub(crate) fn near_in(rows: &[(&'static [u8], &'static [u8])], word: &[u8]) -> Option<&'static [u8]>
    ensures { option_copied result ≡ near_in (map row_of rows.now) word.now }
{
    for row in rows {
        if is_near(word, row.0) {
            return Some(row.0);
        }
    }
    None
}
