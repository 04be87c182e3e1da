//! The tables as plain lists, which each call goes over from one end to the other.

use super::{Along, At, Of, Row};
use prefix_lanes::Prefix;
use ranked_policy::{Asn, Chosen, Network, Path, Policy};
use std::alloc::{AllocError, Global};

// What a peer says of a prefix, or is told of it: a path, where it gives one.
#[derive(Drop)]
struct Said {
    peer: Asn,
    at: At,
    path: Option<Path>,
}

#[derive(Drop)]
struct Kept {
    at: At,
    path: Path,
}

// All mentions, the last one last, and the paths that were kept, the last one last.
#[derive(Drop)]
pub(super) struct Lists<'a> {
    alloc: Global,
    network: &'a Network,
    router: Asn,
    heard: Vec<Said>,
    sent: Vec<Said>,
    established: Vec<Asn>,
    originated: Vec<At>,
    kept: Vec<Kept>,
}

fn last_of<'s>(said: &'s [Said], peer: Asn, at: At) -> Option<&'s Said> {
    for one in said.iter().rev() {
        if one.peer == peer && one.at == at {
            return Some(one);
        }
    }
    None
}

// The path that was said last: the empty path where none was.
fn numbers_of(said: Option<&Said>) -> &[Asn] {
    match said {
        Some(
            Said {
                path: Some(path),
                ..
            },
        ) => path.as_slice(),
        _ => &[],
    }
}

impl<'a> Lists<'a> {
    pub(super) fn new(alloc: Global, network: &'a Network, router: Asn) -> Lists<'a> {
        Lists {
            alloc,
            network,
            router,
            heard: Vec::new(alloc),
            sent: Vec::new(alloc),
            established: Vec::new(alloc),
            originated: Vec::new(alloc),
            kept: Vec::new(alloc),
        }
    }

    fn hear(&mut self, peer: Asn, at: At, along: &Along) -> Result<(), AllocError> {
        let path = match along {
            Along::Path(numbers) => Some(Path::from_slice(self.alloc, numbers)?),
            Along::Nothing | Along::Set(_) | Along::Two(..) => None,
        };
        self.heard.push(Said { peer, at, path })?;
        Ok(())
    }

    // A peer announces prefixes along a path, and withdraws others: the empty path is said of these.
    pub(super) fn hear_all(
        &mut self,
        peer: Asn,
        along: &Along,
        nlri: &[At],
        withdrawn: &[At],
    ) -> Result<(), AllocError> {
        for &at in withdrawn {
            self.hear(peer, at, &Along::Path(&[]))?;
        }
        for &at in nlri {
            self.hear(peer, at, along)?;
        }
        Ok(())
    }

    pub(super) fn heard(&self, peer: Asn, at: At) -> &[Asn] {
        numbers_of(last_of(self.heard.as_slice(), peer, at))
    }

    // Whether the word that was heard last gives no path.
    pub(super) fn has_heard_other(&self, peer: Asn, at: At) -> bool {
        match last_of(self.heard.as_slice(), peer, at) {
            Some(said) => said.path.is_none(),
            None => false,
        }
    }

    pub(super) fn sent(&self, peer: Asn, at: At) -> &[Asn] {
        numbers_of(last_of(self.sent.as_slice(), peer, at))
    }

    fn tell(&mut self, peer: Asn, at: At) -> Result<(), AllocError> {
        let path = Some(Path::from_slice(self.alloc, self.path(at))?);
        self.sent.push(Said { peer, at, path })?;
        Ok(())
    }

    fn forget(&mut self, peer: Asn) {
        self.heard.retain(|one| one.peer != peer);
        self.sent.retain(|one| one.peer != peer);
        self.established.retain(|one| *one != peer);
    }

    fn keep_best(&mut self, at: At) -> Result<(), AllocError> {
        let path = self.best(at)?;
        self.kept.push(Kept { at, path })?;
        Ok(())
    }

    // Whether that was done; a row that asks is none.
    pub(super) fn does(&mut self, row: &Row) -> Result<(), AllocError> {
        match row {
            Row::At(at, Of::Originates) => self.originated.push(*at)?,
            Row::At(at, Of::Withdraws) => self.originated.retain(|one| *one != *at),
            Row::At(at, Of::Tells(peer)) => self.tell(*peer, *at)?,
            Row::ComesUp(peer) => {
                if !self.established.contains(peer) {
                    self.established.push(*peer)?;
                }
            }
            Row::Forgets(peer) => self.forget(*peer),
            Row::Decides(Some(at)) => self.keep_best(*at)?,
            Row::Decides(None) => {}
            Row::Clears => {
                self.kept.clear();
                self.originated.clear();
            }
            _ => return Err(AllocError),
        }
        Ok(())
    }

    pub(super) fn is_originated(&self, at: At) -> bool {
        self.originated.contains(&at)
    }

    pub(super) fn path(&self, at: At) -> &[Asn] {
        for one in self.kept.iter().rev() {
            if one.at == at {
                return one.path.as_slice();
            }
        }
        &[]
    }

    // The best, by paths that are made. There is none where there is no such router.
    pub(super) fn best(&self, at: At) -> Result<Path, AllocError> {
        let Some(prefix) = Prefix::new(at.0, at.1) else {
            return Ok(Path::new(self.alloc));
        };
        if self.network.is_origin(self.router, &prefix) {
            return self.own(at);
        }
        match self.network.policies(self.router) {
            Some(table) => self.chosen(&table.for_prefix(&prefix), at),
            None => Ok(Path::new(self.alloc)),
        }
    }

    fn own(&self, at: At) -> Result<Path, AllocError> {
        if self.is_originated(at) {
            Path::from_slice(self.alloc, &[self.router])
        } else {
            Ok(Path::new(self.alloc))
        }
    }

    fn chosen(&self, policy: &Chosen, at: At) -> Result<Path, AllocError> {
        let mut best: &[Asn] = &[];
        for peer in self.established.as_slice() {
            let rest = self.heard(*peer, at);
            if !rest.is_empty() && self.is_better(policy, rest, best)? {
                best = rest;
            }
        }
        if best.is_empty() {
            return Ok(Path::new(self.alloc));
        }
        Path::from_router(self.alloc, self.router, best)
    }

    // Whether the path along this one is permitted, and better than that along the best so far.
    fn is_better(&self, policy: &Chosen, rest: &[Asn], best: &[Asn]) -> Result<bool, AllocError> {
        let choice = Path::from_router(self.alloc, self.router, rest)?;
        Ok(
            policy.permits(&choice)
                && (best.is_empty() || self.comes_before(policy, &choice, best)?),
        )
    }

    fn comes_before(
        &self,
        policy: &Chosen,
        choice: &Path,
        best: &[Asn],
    ) -> Result<bool, AllocError> {
        let best = Path::from_router(self.alloc, self.router, best)?;
        Ok(policy.prefers(choice, &best))
    }

    fn is_settled(&self, at: At) -> Result<bool, AllocError> {
        let best = self.best(at)?;
        Ok(best.as_slice() == self.path(at))
    }

    pub(super) fn dirty(&self) -> Result<Option<At>, AllocError> {
        for origin in self.network.origins() {
            let at = (origin.prefix.addr(), origin.prefix.len());
            if !self.is_settled(at)? {
                return Ok(Some(at));
            }
        }
        Ok(None)
    }

    pub(super) fn waiting(&self, peer: Asn) -> Option<At> {
        if !self.established.contains(&peer) {
            return None;
        }
        for origin in self.network.origins() {
            let at = (origin.prefix.addr(), origin.prefix.len());
            if self.sent(peer, at) != self.path(at) {
                return Some(at);
            }
        }
        None
    }
}
