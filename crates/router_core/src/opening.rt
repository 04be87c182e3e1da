//! The OPEN and the peers of a router as it starts.

ghost use Rattle.std.specs.Prelude.{◌≡◌, [], map, IfOk};
ghost use Rattle.std.specs.List.{AllByRecursion};
ghost use Rattle.bgp_values.specs.declared.width.Width as widths;
ghost use Rattle.bgp_values.specs.Ranges.{IsHoldTime, IsUnicast};
ghost use Rattle.bgp_codec.specs.declared.message.Message.TheVariants.{OpenMsg};
ghost use Rattle.ranked_policy.specs.Plans.{IsRouter};
ghost use Rattle.router_model.specs.Settings.{peers};
ghost use Rattle.router_model.specs.State.{asn_field, params_of, open_of};
ghost use Rattle.router_side.specs.Sayings.{IsSayable};
ghost use Rattle.router_side.specs.SideOf.{side, side_opening};

use crate::peers::Peer;
use bgp_codec::laws::written_has_a_header;
use bgp_codec::{Cap, Items, Message, Octets, Open};
use bgp_values::{AS_TRANS, FOUR_OCTET_ASN, Width, greatest_asn};
use ranked_policy::{Asn, Network};
use router_side::Side;
use session_fsm::SessionConfig;
use std::alloc::{AllocError, Global};

// The field AS of an OPEN: the number, or AS_TRANS if two octets do not hold it (RFC 6793 section 9).
fn asn_field(number: Asn) -> u16
    ensures { result ≡ asn_field number }
{
    if number > greatest_asn(Width::Two) {
        AS_TRANS
    } else {
        number as u16
    }
}

// The parameters of an OPEN: none, or, if AS numbers have four octets, the capability that says the number (RFC 6793
// section 3). It takes no memory.
fn params(alloc: Global, width: Width, number: Asn) -> Items<Items<Cap>>
    ensures { result ≡ params_of width number }
{
    match width {
        Width::Two => Items::new(alloc),
        Width::Four => Items::one(Items::one(Cap {
            code: FOUR_OCTET_ASN,
            value: Octets::short(alloc, &number.to_be_bytes()),
        })),
    }
}

// The OPEN of this number. Its spelling does not depend on the width.
fn open_message(alloc: Global, width: Width, number: Asn, hold: u16, id: u32) -> Message
    requires hold { IsHoldTime hold }
    requires id { IsUnicast id }
    ensures open { result
        ≡ OpenMsg (record { asn = asn_field number; hold = hold; id = id; params = params_of width number }) }
    ensures sayable { (w : widths.Width) → IsSayable w result }
{
    written_has_a_header();
    Message::OpenMsg(Open {
        asn: asn_field(number),
        hold,
        id,
        params: params(alloc, width, number),
    })
}

/// The OPEN of a router (RFC 4271 section 4.2). It takes no memory.
pub(crate) fn own_open(alloc: Global, network: &Network, number: Asn) -> Message
    requires { IsRouter network.now.routers number }
    ensures open { result ≡ open_of network.now number }
    ensures sayable { (w : widths.Width) → IsSayable w result }
{
    let settings = network.settings();
    let router = network.router(number).unwrap();
    open_message(alloc, settings.width, number, settings.hold, router.id)
}

/// The linked routers by rising number. Nothing was said yet towards any of them.
pub(crate) fn new_peers(
    alloc: Global,
    network: &Network,
    number: Asn,
    config: SessionConfig,
) -> Result<Vec<Peer>, AllocError>
    requires { IsHoldTime config.hold }
    ensures numbers { IfOk result (λ made. map (λ p. p.number) made.items ≡ peers network.now number) }
    ensures sides { IfOk result
        (λ made. AllByRecursion (λ p. side p.side ≡ side_opening config network.now.settings.width) made.items) }
{
    let mut made = Vec::new(alloc);
    for link in network.links_of(number) {
        let side = Side::new(alloc, config, network.settings().width)?;
        made.push(Peer {
            number: link.other,
            side,
        })?;
    }
    Ok(made)
}
