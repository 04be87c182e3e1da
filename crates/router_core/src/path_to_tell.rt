//! The UPDATE that tells a kept path (RFC 4271 sections 4.3 and 5.1).

ghost use Rattle.std.specs.Prelude.{◌≡◌, IfOk};
ghost use Rattle.bgp_codec.specs.declared.message.Message.TheVariants.{UpdateMsg};
ghost use Rattle.ranked_policy.specs.Plans.{IsNetwork, IsRouter, IsNamed};
ghost use Rattle.router_model.specs.Settings.{identifier};
ghost use Rattle.router_model.specs.State.{telling};
ghost use Rattle.router_side.specs.Sayings.{IsSayable};
ghost use Rattle.router_core.specs.Views.{IsTellable};

use prefix_lanes::Prefix;
use ranked_policy::{Asn, Network};
use router_side::ToldPath;
use router_side::laws::told_updates_are_sayable;
use std::alloc::{AllocError, Global};

/// The UPDATE that tells the path that a router of the network keeps for a prefix: an announcement with its identifier
/// as NEXT_HOP, or a withdrawal if the path is empty. It is refused only for want of memory.
pub(crate) fn path_to_tell(
    alloc: Global,
    network: &Network,
    number: Asn,
    prefix: &Prefix,
    path: &[Asn],
) -> Result<ToldPath, AllocError>
    requires network { IsNetwork network.now }
    requires router { IsRouter network.now.routers number }
    requires named { IsNamed network.now.origins prefix.now }
    requires tellable { IsTellable network.now.settings.width path.now }
    ensures update { IfOk result
        (λ told. told ≡ telling (identifier network.now.routers number) prefix.now path.now) }
    ensures sayable { IfOk result (λ told. IsSayable network.now.settings.width (UpdateMsg told)) }
{
    told_updates_are_sayable();
    // a length that was read is known to be at most 32 bits
    let _len = prefix.len();
    let id = network.router(number).unwrap().id;
    ToldPath::new(alloc, id, prefix, path)
}
