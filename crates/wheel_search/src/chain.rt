//! Chains: the places of the paths of a row that have a key in common, the last first.

ghost use Rattle.std.specs.Prelude.{◌≡◌, ◌<◌, IfOk};
ghost use Rattle.wheel_search.specs.declared.chain.TheConstants.{KEYS};
ghost use Rattle.wheel_search.specs.Chains.{path_key, IsChain, AreChains};

use crate::row::Row;
use ranked_policy::{Asn, NetItems, Path};
use std::alloc::{AllocError, Global};

/// How many keys there are.
pub(crate) const KEYS: usize = 32;

/// The key of a path: its length and its second router, as far as they tell most paths of a router apart.
pub(crate) fn key_of(path: &[Asn]) -> usize
    ensures value { result ≡ path_key path.now }
    ensures below { result < KEYS }
{
    let second = if path.len() > 1 { path[1] } else { 0 };
    path.len() % 16 + (second % 16) as usize
}

// The chains of the places of paths.
fn chain_of(alloc: Global, paths: &[Path]) -> Result<NetItems<usize>, AllocError>
    ensures { IfOk result (IsChain paths.now) }
{
    let mut chain = Vec::with_capacity(alloc, paths.len().saturating_add(KEYS))?;
    chain.extend_from_slice(&[0; KEYS])?;
    for (place, path) in paths.iter().enumerate() {
        let key = key_of(path.as_slice());
        let before = chain[key];
        chain.push(before)?;
        chain[key] = place + 1;
    }
    Ok(NetItems::from_vec(chain))
}

/// The chains of the places of each row.
pub(crate) fn all_chains(alloc: Global, rows: &[Row]) -> Result<Vec<NetItems<usize>>, AllocError>
    ensures { IfOk result (λ chains. AreChains rows.now chains.items) }
{
    let mut chains = Vec::with_capacity(alloc, rows.len())?;
    for row in rows {
        chains.push(chain_of(alloc, row.paths())?)?;
    }
    Ok(chains)
}
