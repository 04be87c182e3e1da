//! How octets of an input are shown, and how a remark is said.

ghost use Rattle.std.specs.Prelude.{◌≡◌, ◌++◌, map, OnOk};
ghost use Rattle.error_words.specs.Showing.{shown_octet, shown, remark_text};

use std::alloc::AllocError;

/// How many octets of a line are shown at most.
pub const MOST_SHOWN: usize = 60;

// An octet as it is shown.
fn shown_octet(x: u8) -> u8
    ensures { result ≡ shown_octet x }
{
    match x {
        b' '..=b'~' => x,
        b'\t' => b' ',
        _ => b'?',
    }
}

// Appends octets as they are shown.
fn put_octets(out: &mut Vec<u8>, octets: &[u8]) -> Result<(), AllocError>
    ensures { OnOk result (out.new.items ≡ out.old.items ++ map shown_octet octets.now) }
{
    for x in octets {
        out.extend_from_slice(&[shown_octet(*x)])?;
    }
    Ok(())
}

/// Appends a line as it is shown.
pub(crate) fn put_shown(out: &mut Vec<u8>, line: &[u8]) -> Result<(), AllocError>
    ensures { OnOk result (out.new.items ≡ out.old.items ++ shown line.now) }
{
    if line.len() <= MOST_SHOWN {
        return put_octets(out, line);
    }
    let (front, _) = line.split_at(MOST_SHOWN);
    put_octets(out, front)?;
    out.extend_from_slice(b" ..")
}

/// Appends a remark.
#[tactic(auto, unfolding(crate::specs::Showing::remark_text))]
pub(crate) fn put_remark(out: &mut Vec<u8>, text: &[u8]) -> Result<(), AllocError>
    ensures { OnOk result (out.new.items ≡ out.old.items ++ remark_text text.now) }
{
    out.extend_from_slice(b"bgpnet: ")?;
    out.extend_from_slice(text)?;
    out.extend_from_slice(b"\n")
}

/// Appends a remark of two parts.
#[tactic(auto, unfolding(crate::specs::Showing::remark_text))]
pub(crate) fn put_parted(out: &mut Vec<u8>, lead: &[u8], text: &[u8]) -> Result<(), AllocError>
    ensures { OnOk result (out.new.items ≡ out.old.items ++ remark_text (lead.now ++ text.now)) }
{
    out.extend_from_slice(b"bgpnet: ")?;
    out.extend_from_slice(lead)?;
    out.extend_from_slice(text)?;
    out.extend_from_slice(b"\n")
}
