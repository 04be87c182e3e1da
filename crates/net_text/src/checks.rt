//! The lines of a check of an assignment, written behind what a buffer has.
//!
//! A refused call here may leave a part of its text, but what stood in front stays.

ghost use Rattle.std.specs.Prelude.{◌≡◌, ◌++◌, OnOk};
ghost use Rattle.net_text.specs.Printing.{refused_line, unstable_line};

use crate::tail::TextTail;
use ranked_policy::Asn;
use std::alloc::AllocError;

/// Appends the line of a refusal.
#[tactic(auto, unfolding(crate::specs::Printing::refused_line))]
pub(crate) fn put_refused(out: &mut TextTail, line: usize, code: &[u8]) -> Result<(), AllocError>
    ensures text { OnOk result (out.new.text ≡ out.old.text ++ refused_line line code.now) }
    ensures front { out.new.front ≡ out.old.front }
{
    out.put_text(b"refused ")?;
    out.put_len(line)?;
    out.put_text(b" ")?;
    out.put_text(code)?;
    out.put_text(b"\n")
}

/// Appends the line of a router that would move.
#[tactic(auto, unfolding(crate::specs::Printing::unstable_line))]
pub(crate) fn put_unstable(
    out: &mut TextTail,
    router: Asn,
    has: &[Asn],
    best: &[Asn],
) -> Result<(), AllocError>
    ensures text { OnOk result (out.new.text ≡ out.old.text ++ unstable_line router has.now best.now) }
    ensures front { out.new.front ≡ out.old.front }
{
    out.put_text(b"unstable ")?;
    out.put_decimal(router)?;
    out.put_text(b" has ")?;
    out.put_path(has)?;
    out.put_text(b" best ")?;
    out.put_path(best)?;
    out.put_text(b"\n")
}
