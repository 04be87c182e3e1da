//! The lines of a prefix, of its disputes and of their choices. Each call appends a whole line, with its end; a refused
//! one may leave a part of it.

ghost use Rattle.std.specs.Prelude.{◌≡◌, ◌<◌, ◌++◌, [], codes, length, slice_index_or, OnOk};
ghost use Rattle.net_text.specs.Printing.{numbers_text};
ghost use Rattle.stable_search.specs.Every.{choices_of, number_of, IsPart};
ghost use Rattle.std.specs.List.{flat_map};
ghost use Rattle.stable_engine.specs.Listing.{count_text, prefix_line, paths_behind, dispute_line, choice_line, follow_line, unknown_line};

use net_text::{put_len, put_marked, put_numbers, put_prefixes};
use prefix_lanes::Prefix;
use ranked_policy::Asn;
use stable_search::{Component, Every};
use std::alloc::AllocError;

// Appends how many assignments are stable.
fn put_count(every: &Every, out: &mut Vec<u8>) -> Result<(), AllocError>
    ensures { OnOk result (out.new.items ≡ out.old.items ++ count_text (number_of every.now.parts)) }
{
    match every.count() {
        Some(count) => put_len(out, count as usize),
        None => out.extend_from_slice(b"many"),
    }
}

/// Appends a prefix, and how many assignments are stable for it.
#[tactic(auto, unfolding(crate::specs::Listing::prefix_line))]
pub(crate) fn put_prefix_line(
    prefix: &Prefix,
    every: &Every,
    out: &mut Vec<u8>,
) -> Result<(), AllocError>
    ensures { OnOk result (out.new.items ≡ out.old.items ++ prefix_line prefix.now (number_of every.now.parts)) }
{
    out.extend_from_slice(b"prefix")?;
    put_prefixes(out, &[*prefix])?;
    out.extend_from_slice(b" stable ")?;
    put_count(every, out)?;
    out.extend_from_slice(b"\n")
}

// Appends a space and the path of a router in a choice.
fn put_path(
    part: &Component,
    choice: usize,
    router: usize,
    out: &mut Vec<u8>,
) -> Result<(), AllocError>
    requires part { IsPart part.now }
    requires choice { choice < length (choices_of part.now) }
    requires router { router < length part.now.routers }
    ensures { OnOk result (out.new.items ≡ out.old.items ++ (codes " " ++ numbers_text
        (slice_index_or (slice_index_or (choices_of part.now) choice []) router []))) }
{
    let Some(path) = part.path(choice, router) else {
        return Ok(());
    };
    out.extend_from_slice(b" ")?;
    put_numbers(out, path.as_slice())
}

// Appends the paths of a choice, a space before each.
fn put_paths(part: &Component, choice: usize, out: &mut Vec<u8>) -> Result<(), AllocError>
    requires part { IsPart part.now }
    requires choice { choice < length (choices_of part.now) }
    ensures { OnOk result
        (out.new.items ≡ out.old.items ++ paths_behind (slice_index_or (choices_of part.now) choice [])) }
{
    for router in 0..part.routers.len() {
        put_path(part, choice, router, out)?;
    }
    Ok(())
}

/// Appends a dispute: its number, how many choices it has, and its routers.
#[tactic(auto, unfolding(crate::specs::Listing::dispute_line))]
pub(crate) fn put_dispute_line(
    number: usize,
    prefix: &Prefix,
    count: usize,
    routers: &[Asn],
    out: &mut Vec<u8>,
) -> Result<(), AllocError>
    ensures { OnOk result (out.new.items ≡ out.old.items ++ dispute_line number prefix.now count routers.now) }
{
    out.extend_from_slice(b"dispute ")?;
    put_len(out, number)?;
    put_prefixes(out, &[*prefix])?;
    out.extend_from_slice(b" stable ")?;
    put_len(out, count)?;
    out.extend_from_slice(b" routers")?;
    put_marked(out, routers, b' ')?;
    out.extend_from_slice(b"\n")
}

/// Appends a choice: the path of each router of a dispute.
#[tactic(auto, unfolding(crate::specs::Listing::choice_line))]
pub(crate) fn put_choice_line(
    part: &Component,
    choice: usize,
    out: &mut Vec<u8>,
) -> Result<(), AllocError>
    requires part { IsPart part.now }
    requires choice { choice < length (choices_of part.now) }
    ensures { OnOk result
        (out.new.items ≡ out.old.items ++ choice_line (slice_index_or (choices_of part.now) choice [])) }
{
    out.extend_from_slice(b"choice")?;
    put_paths(part, choice, out)?;
    out.extend_from_slice(b"\n")
}

// Appends the paths of all choices, a space before each.
fn put_all_paths(part: &Component, out: &mut Vec<u8>) -> Result<(), AllocError>
    requires { IsPart part.now }
    ensures { OnOk result (out.new.items ≡ out.old.items ++ flat_map paths_behind (choices_of part.now)) }
{
    for choice in 0..part.choice_count() {
        put_paths(part, choice, out)?;
    }
    Ok(())
}

/// Appends routers that follow, and the paths that they may have.
#[tactic(auto, unfolding(crate::specs::Listing::follow_line))]
pub(crate) fn put_follow_line(
    prefix: &Prefix,
    part: &Component,
    out: &mut Vec<u8>,
) -> Result<(), AllocError>
    requires { IsPart part.now }
    ensures { OnOk result
        (out.new.items ≡ out.old.items ++ follow_line prefix.now part.now.routers (choices_of part.now)) }
{
    out.extend_from_slice(b"follow")?;
    put_marked(out, part.routers.as_slice(), b' ')?;
    put_prefixes(out, &[*prefix])?;
    put_all_paths(part, out)?;
    out.extend_from_slice(b"\n")
}

/// Appends a prefix of which not all is known, a word that says why, and the routers that it is about.
#[tactic(auto, unfolding(crate::specs::Listing::unknown_line))]
pub fn put_unknown_line(
    prefix: &Prefix,
    why: &[u8],
    routers: &[Asn],
    out: &mut Vec<u8>,
) -> Result<(), AllocError>
    ensures { OnOk result (out.new.items ≡ out.old.items ++ unknown_line prefix.now why.now routers.now) }
{
    out.extend_from_slice(b"prefix")?;
    put_prefixes(out, &[*prefix])?;
    out.extend_from_slice(b" unknown ")?;
    out.extend_from_slice(why)?;
    put_marked(out, routers, b' ')?;
    out.extend_from_slice(b"\n")
}
