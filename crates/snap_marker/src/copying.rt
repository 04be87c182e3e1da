//! Copies of offers, for whoever hands one on while the router still keeps it.

ghost use Rattle.std.specs.Prelude.{◌≡◌, map, IfOk};
ghost use Rattle.snap_marker.specs.Parts.{seen, IsCopy, offer_of, router_of};

use crate::part::{Channel, KeptPath, Offer, Part};
use bgp_codec::Update;
use ranked_policy::Path;
use std::alloc::{AllocError, Global};

fn copied_paths(alloc: Global, kept: &[KeptPath]) -> Result<Vec<KeptPath>, AllocError>
    ensures { IfOk result (λ copy. copy.items ≡ kept.now) }
{
    let mut copy = Vec::new(alloc);
    copy.reserve(kept.len())?;
    for one in kept {
        copy.push(KeptPath {
            prefix: one.prefix,
            path: Path::from_slice(alloc, one.path.as_slice())?,
        })?;
    }
    Ok(copy)
}

fn copied_updates(alloc: Global, updates: &[Update]) -> Result<Vec<Update>, AllocError>
    ensures { IfOk result (λ copy. copy.items ≡ updates.now) }
{
    let mut copy = Vec::new(alloc);
    copy.reserve(updates.len())?;
    for update in updates {
        copy.push(update.copied(alloc)?)?;
    }
    Ok(copy)
}

fn copied_channels(alloc: Global, channels: &[Channel]) -> Result<Vec<Channel>, AllocError>
    ensures { IfOk result (λ copy. map seen copy.items ≡ map seen channels.now) }
{
    let mut copy = Vec::new(alloc);
    copy.reserve(channels.len())?;
    for channel in channels {
        copy.push(Channel {
            peer: channel.peer,
            epoch: channel.epoch,
            is_open: channel.is_open,
            updates: copied_updates(alloc, &channel.updates)?,
        })?;
    }
    Ok(copy)
}

fn copied_part(alloc: Global, part: &Part) -> Result<Part, AllocError>
    ensures { IfOk result (λ copy. IsCopy copy part.now) }
{
    let mut originated = Vec::new(alloc);
    originated.extend_from_slice(&part.originated)?;
    Ok(Part {
        router: part.router,
        number: part.number,
        kept: copied_paths(alloc, &part.kept)?,
        originated,
        pending: part.pending,
        channels: copied_channels(alloc, &part.channels)?,
    })
}

impl Offer {
    /// A copy of the offer, which says the same. It is refused only for want of memory.
    pub fn copied(&self, alloc: Global) -> Result<Offer, AllocError>
        ensures offer { IfOk result (λ copy. offer_of copy ≡ offer_of self.now) }
        ensures router { IfOk result (λ copy. router_of copy ≡ router_of self.now) }
    {
        match self {
            Offer::Part(part) => Ok(Offer::Part(copied_part(alloc, part)?)),
            Offer::Lost(lost) => Ok(Offer::Lost(*lost)),
        }
    }
}
