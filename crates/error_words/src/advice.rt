//! What to write in place of a line that is refused.

ghost use Rattle.std.specs.Prelude.{◌≡◌, ◌++◌, [], OnOk, if◌then◌else◌};
ghost use Rattle.std.specs.Option.{option_copied, option_or};
ghost use Rattle.net_text.specs.Lexing.{words_of, is_ascii};
ghost use Rattle.error_words.specs.Showing.{remark_text};
ghost use Rattle.error_words.specs.Reasons.{router_of, faulty_of};
ghost use Rattle.error_words.specs.Advice.{near_elsewhere, near_any, near_said, section_said, elsewhere_said, form_said, place_said, first_word_said, words_advice, way_text, turned_said, advice};

use crate::places::{NETWORK, ORDERS, PATHS, Place, SECTIONS, own_form, own_near, place_of};
use crate::reasons::{faulty_of, router_of};
use crate::showing::{put_parted, put_remark, put_shown};
use crate::spelling::{is_turned, put_turned};
use crate::tables::{found_in, near_in};
use net_text::lexing::{is_ascii, next_word, same};
use std::alloc::{AllocError, Global};

// The first of two words, if there is one, else the second.
fn either(first: Option<&'static [u8]>, second: Option<&'static [u8]>) -> Option<&'static [u8]>
    ensures { option_copied result ≡ option_or (option_copied first.entry) (option_copied second.entry) }
{
    match first {
        Some(word) => Some(word),
        None => second,
    }
}

// The first word that a word nearly is, of any place.
fn near_elsewhere(name: &[u8]) -> Option<&'static [u8]>
    ensures { option_copied result ≡ near_elsewhere name.now }
{
    let later = either(near_in(&PATHS, name), near_in(&SECTIONS, name));
    either(
        near_in(&NETWORK, name),
        either(near_in(&ORDERS, name), later),
    )
}

// The first word that a word nearly is, one of a place before others.
fn near_any(place: Place, name: &[u8]) -> Option<&'static [u8]>
    ensures { option_copied result ≡ near_any place name.now }
{
    either(own_near(place, name), near_elsewhere(name))
}

fn put_near(out: &mut Vec<u8>, near: Option<&'static [u8]>) -> Result<(), AllocError>
    ensures { OnOk result (out.new.items ≡ out.old.items ++ near_said (option_copied near.entry)) }
{
    match near {
        Some(name) => put_parted(out, b"the nearest first word is ", name),
        None => Ok(()),
    }
}

// Appends the words on a first word that may not stand at the place of its line.
fn put_elsewhere(
    out: &mut Vec<u8>,
    name: &[u8],
    near: Option<&'static [u8]>,
) -> Result<(), AllocError>
    ensures { OnOk result (out.new.items ≡ out.old.items ++ elsewhere_said name.now (option_copied near.entry)) }
{
    if found_in(&NETWORK, name).is_some() {
        return put_remark(
            out,
            b"routers, links and policies stay as they are: their lines stand above 'schedule' or 'assignment'",
        );
    }
    if found_in(&ORDERS, name).is_some() {
        return put_remark(
            out,
            b"an order stands behind a line 'schedule', in what play, trace, cut and why read",
        );
    }
    if found_in(&PATHS, name).is_some() {
        return put_remark(
            out,
            b"a path stands behind a line 'assignment', in what check reads",
        );
    }
    match found_in(&SECTIONS, name) {
        Some(text) => put_remark(out, text),
        None => put_near(out, near),
    }
}

fn put_form_or(
    out: &mut Vec<u8>,
    form: Option<&'static [u8]>,
    name: &[u8],
    near: Option<&'static [u8]>,
) -> Result<(), AllocError>
    ensures { OnOk result
        (out.new.items ≡ out.old.items
        ++ form_said (option_copied form.entry) (elsewhere_said name.now (option_copied near.entry))) }
{
    match form {
        Some(form) => put_parted(out, b"write: ", form),
        None => put_elsewhere(out, name, near),
    }
}

// Appends the words on the first word of a line at a place.
#[tactic(auto, unfolding(crate::specs::Advice::place_said))]
fn put_at_place(out: &mut Vec<u8>, place: Place, name: &[u8]) -> Result<(), AllocError>
    ensures { OnOk result (out.new.items ≡ out.old.items ++ place_said place name.now) }
{
    put_form_or(out, own_form(place, name), name, near_any(place, name))
}

fn put_first_word(out: &mut Vec<u8>, input: &[u8], at: u64, name: &[u8]) -> Result<(), AllocError>
    ensures { OnOk result (out.new.items ≡ out.old.items ++ first_word_said input.now at name.now) }
{
    put_at_place(out, place_of(input, at), name)
}

// Appends the words on the form of a line.
fn put_form(out: &mut Vec<u8>, input: &[u8], at: u64, line: &[u8]) -> Result<(), AllocError>
    ensures { OnOk result
        (out.new.items ≡ out.old.items ++ (if is_ascii line.now then words_advice input.now at (words_of line.now) else [])) }
{
    if !is_ascii(line) {
        return Ok(());
    }
    match next_word(line) {
        Some((name, _)) => put_first_word(out, input, at, name),
        None => Ok(()),
    }
}

#[tactic(auto, unfolding(crate::specs::Advice::way_text))]
fn put_way(alloc: Global, out: &mut Vec<u8>, router: &[u8], path: &[u8]) -> Result<(), AllocError>
    ensures { OnOk result (out.new.items ≡ out.old.items ++ way_text router.now path.now) }
{
    out.extend_from_slice(b"write it from ")?;
    put_shown(out, router)?;
    out.extend_from_slice(b" to the origin: ")?;
    put_turned(alloc, out, path)
}

// Appends the words on a path that is turned round.
fn put_other_way(
    alloc: Global,
    out: &mut Vec<u8>,
    router: &[u8],
    path: &[u8],
) -> Result<(), AllocError>
    ensures { OnOk result (out.new.items ≡ out.old.items ++ remark_text (way_text router.now path.now)) }
{
    let mut text = Vec::new(alloc);
    put_way(alloc, &mut text, router, path)?;
    put_remark(out, text.as_slice())
}

// Appends the words on the path of a rule that is turned round.
fn put_path(alloc: Global, out: &mut Vec<u8>, line: &[u8]) -> Result<(), AllocError>
    ensures { OnOk result
        (out.new.items ≡ out.old.items ++ turned_said (router_of (words_of line.now)) (faulty_of (words_of line.now))) }
{
    let router = router_of(line);
    match faulty_of(line) {
        Some(path) if is_turned(router, path) => put_other_way(alloc, out, router, path),
        Some(_) | None => Ok(()),
    }
}

/// Appends what to write in place of a line, by its number and the code that it is refused with.
#[tactic(auto, unfolding(crate::specs::Advice::advice))]
pub(crate) fn put_advice(
    alloc: Global,
    out: &mut Vec<u8>,
    input: &[u8],
    at: u64,
    code: &[u8],
    line: &[u8],
) -> Result<(), AllocError>
    ensures { OnOk result (out.new.items ≡ out.old.items ++ advice input.now at code.now line.now) }
{
    if same(code, b"N1") {
        return put_form(out, input, at, line);
    }
    if same(code, b"N7") {
        return put_path(alloc, out, line);
    }
    Ok(())
}
