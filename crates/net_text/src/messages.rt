//! Messages and faults as text, written behind what a buffer has.
//!
//! A refused call here may leave a part of its text, but what stood in front stays.

ghost use Rattle.std.specs.Prelude.{◌≡◌, ◌++◌, ◌∷◌, [], ◌≤◌, length, IfOk, OnOk};
ghost use Rattle.std.specs.List.{flat_map};
ghost use Rattle.bgp_values.specs.declared.messages.TheConstants.{MOST_DATA};
ghost use Rattle.bgp_values.specs.declared.width.Width.TheVariants.{Two};
ghost use Rattle.bgp_codec.specs.Spelling.{written};
ghost use Rattle.net_text.specs.Printing.{line, open_line, cap_text, param_text, notice_of, fault_lines, truncated_line};

use crate::tail::TextTail;
use bgp_codec::{Cap, Fault, Items, Message, NOBODY, Open, encode, notice_of};
use std::alloc::{AllocError, Global};

// Appends a capability.
#[tactic(auto, unfolding(crate::specs::Printing::cap_text))]
fn put_cap(out: &mut TextTail, cap: &Cap) -> Result<(), AllocError>
    ensures text { OnOk result (out.new.text ≡ out.old.text ++ cap_text cap.now) }
    ensures front { out.new.front ≡ out.old.front }
{
    out.put_text(b" cap ")?;
    out.put_octet(cap.code)?;
    out.put_text(b" ")?;
    out.put_hex_or_dash(cap.value.as_slice())
}

// Appends the capabilities of a parameter.
fn put_param(out: &mut TextTail, caps: &[Cap]) -> Result<(), AllocError>
    ensures text { OnOk result (out.new.text ≡ out.old.text ++ param_text caps.now) }
    ensures front { out.new.front ≡ out.old.front }
{
    for cap in caps {
        put_cap(out, cap)?;
    }
    Ok(())
}

// Appends the capabilities of all parameters.
fn put_params(out: &mut TextTail, params: &[Items<Cap>]) -> Result<(), AllocError>
    ensures text { OnOk result (out.new.text ≡ out.old.text ++ flat_map param_text params.now) }
    ensures front { out.new.front ≡ out.old.front }
{
    for caps in params {
        put_param(out, caps.as_slice())?;
    }
    Ok(())
}

/// Appends the line of an OPEN.
#[tactic(auto, unfolding(crate::specs::Printing::open_line))]
#[inline(never)]
pub fn put_open(out: &mut TextTail, message: &Open) -> Result<(), AllocError>
    ensures text { OnOk result (out.new.text ≡ out.old.text ++ line (open_line message.now)) }
    ensures front { out.new.front ≡ out.old.front }
{
    out.put_text(b"open as ")?;
    out.put_decimal(u32::from(message.asn))?;
    out.put_text(b" hold ")?;
    out.put_decimal(u32::from(message.hold))?;
    out.put_text(b" id ")?;
    out.put_address(message.id)?;
    put_params(out, message.params.as_slice())?;
    out.put_text(b"\n")
}

// The octets of the NOTIFICATION that tells of a fault.
fn notice_octets(alloc: Global, fault: &Fault) -> Result<Vec<u8>, AllocError>
    requires { length fault.now.extra ≤ MOST_DATA }
    ensures { IfOk result (λ octets. octets.items ≡ written Two (notice_of fault.now)) }
{
    let notice = notice_of(alloc, fault).map_err(|_| AllocError)?;
    let mut octets = Vec::new(alloc);
    match encode(&Message::NoticeMsg(notice), &NOBODY, &mut octets) {
        Ok(()) => Ok(octets),
        Err(_) => Err(AllocError),
    }
}

/// Appends the two lines of a fault: its codes, and its NOTIFICATION in hex.
#[tactic(auto, unfolding(crate::specs::Printing::fault_lines))]
#[cold]
pub fn put_fault(alloc: Global, out: &mut TextTail, fault: &Fault) -> Result<(), AllocError>
    requires { length fault.now.extra ≤ MOST_DATA }
    ensures text { OnOk result (out.new.text ≡ out.old.text ++ fault_lines fault.now) }
    ensures front { out.new.front ≡ out.old.front }
{
    let octets = notice_octets(alloc, fault)?;
    out.put_text(b"fault ")?;
    out.put_octet(fault.code)?;
    out.put_text(b" ")?;
    out.put_octet(fault.sub)?;
    out.put_text(b"\n")?;
    out.put_hex(octets.as_slice())?;
    out.put_text(b"\n")
}

/// Appends the line of a rest of so many octets that is no whole message.
#[tactic(auto, unfolding(crate::specs::Printing::truncated_line))]
pub fn put_truncated(out: &mut TextTail, len: usize) -> Result<(), AllocError>
    ensures text { OnOk result (out.new.text ≡ out.old.text ++ truncated_line len) }
    ensures front { out.new.front ≡ out.old.front }
{
    out.put_text(b"truncated ")?;
    out.put_len(len)?;
    out.put_text(b"\n")
}
