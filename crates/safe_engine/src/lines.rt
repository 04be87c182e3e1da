//! The lines of a prefix and of the rims of its dispute wheel. Each call appends a whole line, with its end; a refused
//! one may leave a part of it.

ghost use Rattle.std.specs.Prelude.{◌≡◌, ◌++◌, OnOk};
ghost use Rattle.safe_engine.specs.Listing.{safe_line, wheel_line, rim_line, rims_text, safety_text};

use net_text::{put_len, put_numbers, put_prefixes};
use prefix_lanes::Prefix;
use std::alloc::AllocError;
use wheel_search::{Rim, Safety};

// Appends a prefix without a dispute wheel.
#[tactic(auto, unfolding(crate::specs::Listing::safe_line))]
fn put_safe_line(prefix: &Prefix, out: &mut Vec<u8>) -> Result<(), AllocError>
    ensures { OnOk result (out.new.items ≡ out.old.items ++ safe_line prefix.now) }
{
    out.extend_from_slice(b"prefix")?;
    put_prefixes(out, &[*prefix])?;
    out.extend_from_slice(b" safe\n")
}

// Appends a prefix, and how many rims its dispute wheel has.
#[tactic(auto, unfolding(crate::specs::Listing::wheel_line))]
fn put_wheel_line(prefix: &Prefix, count: usize, out: &mut Vec<u8>) -> Result<(), AllocError>
    ensures { OnOk result (out.new.items ≡ out.old.items ++ wheel_line prefix.now count) }
{
    out.extend_from_slice(b"prefix")?;
    put_prefixes(out, &[*prefix])?;
    out.extend_from_slice(b" wheel ")?;
    put_len(out, count)?;
    out.extend_from_slice(b"\n")
}

// Appends a rim: the spoke, and the path that its router likes better.
#[tactic(auto, unfolding(crate::specs::Listing::rim_line))]
fn put_rim_line(rim: &Rim, out: &mut Vec<u8>) -> Result<(), AllocError>
    ensures { OnOk result (out.new.items ≡ out.old.items ++ rim_line rim.now) }
{
    out.extend_from_slice(b"rim ")?;
    put_numbers(out, rim.spoke.as_slice())?;
    out.extend_from_slice(b" over ")?;
    put_numbers(out, rim.over.as_slice())?;
    out.extend_from_slice(b"\n")
}

// Appends the rims of a dispute wheel.
fn put_rims(rims: &[Rim], out: &mut Vec<u8>) -> Result<(), AllocError>
    ensures { OnOk result (out.new.items ≡ out.old.items ++ rims_text rims.now) }
{
    for rim in rims {
        put_rim_line(rim, out)?;
    }
    Ok(())
}

/// Appends that there is no dispute wheel for a prefix, or one rim by rim.
pub(crate) fn put_safety(
    prefix: &Prefix,
    safety: &Safety,
    out: &mut Vec<u8>,
) -> Result<(), AllocError>
    ensures { OnOk result (out.new.items ≡ out.old.items ++ safety_text prefix.now safety.now) }
{
    match safety {
        Safety::Safe => put_safe_line(prefix, out),
        Safety::Wheel(rims) => {
            put_wheel_line(prefix, rims.len(), out)?;
            put_rims(rims.as_slice(), out)
        }
    }
}
