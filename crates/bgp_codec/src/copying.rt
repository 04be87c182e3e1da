//! Copies of an UPDATE, for whoever keeps it in two places.

ghost use Rattle.std.specs.Prelude.{◌≡◌, IfOk};

use crate::attributes::{Attrs, Raw};
use crate::items::Items;
use crate::octets::Octets;
use crate::path::{Numbers, Segment};
use crate::update::Update;
use std::alloc::{AllocError, Global};

impl<T: Copy> Items<T> {
    // A copy of the list.
    fn copied(&self, alloc: Global) -> Result<Items<T>, AllocError>
        ensures { IfOk result (λ copy. copy ≡ self.now) }
    {
        match self.as_slice() {
            [item] => Ok(Items::one(*item)),
            items => Ok(Items::from_vec(Vec::from_slice(alloc, items)?)),
        }
    }
}

fn copied_path(alloc: Global, path: &Items<Segment>) -> Result<Items<Segment>, AllocError>
    ensures { IfOk result (λ copy. copy ≡ path.now) }
{
    let mut copy = Items::with_room(alloc, path.as_slice().len())?;
    for segment in path.as_slice() {
        let numbers = Numbers::from_slice(alloc, segment.numbers.as_slice())?;
        let kind = segment.kind;
        copy.push(alloc, Segment { kind, numbers })?;
    }
    Ok(copy)
}

fn copied_others(alloc: Global, others: &Items<Raw>) -> Result<Items<Raw>, AllocError>
    ensures { IfOk result (λ copy. copy ≡ others.now) }
{
    let mut copy = Items::with_room(alloc, others.as_slice().len())?;
    for raw in others.as_slice() {
        let value = Octets::from_slice(alloc, raw.value.as_slice())?;
        let (flags, code) = (raw.flags, raw.code);
        copy.push(alloc, Raw { flags, code, value })?;
    }
    Ok(copy)
}

impl Attrs {
    // A copy of the attributes.
    fn copied(&self, alloc: Global) -> Result<Attrs, AllocError>
        ensures { IfOk result (λ copy. copy ≡ self.now) }
    {
        let path = match &self.path {
            None => None,
            Some(path) => Some(copied_path(alloc, path)?),
        };
        Ok(Attrs {
            origin: self.origin,
            path,
            next_hop: self.next_hop,
            med: self.med,
            local_pref: self.local_pref,
            atomic: self.atomic,
            aggregator: self.aggregator,
            other: copied_others(alloc, &self.other)?,
        })
    }
}

impl Update {
    /// A copy of the UPDATE: the same in every part. It is refused only for want of memory.
    pub fn copied(&self, alloc: Global) -> Result<Update, AllocError>
        ensures { IfOk result (λ copy. copy ≡ self.now) }
    {
        Ok(Update {
            withdrawn: self.withdrawn.copied(alloc)?,
            attrs: self.attrs.copied(alloc)?,
            nlri: self.nlri.copied(alloc)?,
        })
    }
}
