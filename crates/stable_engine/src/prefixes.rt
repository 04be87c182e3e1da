//! The answers for the prefixes of a network.

ghost use Rattle.std.specs.Prelude.{◌≡◌, ◌≢◌, ◌++◌, IfErr, IfOk, IfSome, OnOk, is_ok};
ghost use Rattle.std.specs.List.{All, Contains};
ghost use Rattle.stable_search.specs.Every.{IsPart};
ghost use Rattle.stable_search.specs.declared.refusal.SearchError.TheVariants.{Memory};
ghost use Rattle.text_engines.specs.Decoding.{output};
ghost use Rattle.stable_engine.specs.Answers.{found_text, refusal_text, IsSearched, IsLast, PutsAnswers, StablesGive};

use crate::alike::are_alike;
use crate::lines::put_unknown_line;
use crate::parts::put_every;
use crate::status::UNKNOWN;
use prefix_lanes::Prefix;
use ranked_policy::{Network, Origin};
use stable_paths::Instance;
use stable_search::{Every, SearchError, SearchLimits, stable_assignments};
use std::alloc::{AllocError, Global};
use text_engines::status::DONE;

// Appends which limit was met for a prefix.
fn put_refusal(prefix: &Prefix, why: &SearchError, out: &mut Vec<u8>) -> Result<(), AllocError>
    ensures { OnOk result ((why.now ≢ Memory) × (out.new.items ≡ out.old.items ++ refusal_text prefix.now why.now)) }
{
    match why {
        SearchError::TooManyPaths { router } => put_unknown_line(prefix, b"paths", &[*router], out),
        SearchError::TooManyChoices { routers } => put_unknown_line(
            prefix,
            b"choices",
            routers.as_slice(),
            out,
        ),
        SearchError::TooManySteps { routers } => put_unknown_line(
            prefix,
            b"steps",
            routers.as_slice(),
            out,
        ),
        SearchError::Memory => Err(AllocError),
    }
}

// An origin, and what the search answered for its prefix.
#[derive(Drop)]
struct Answered<'a> {
    origin: &'a Origin,
    found: Result<Every, SearchError>,
}

// What the search answers for the prefix of an origin: the last answer, if it is that of a prefix which is alike.
fn found_for(
    alloc: Global,
    network: &Network,
    limits: &SearchLimits,
    last: Option<Answered<'_>>,
    origin: &Origin,
) -> Result<Every, SearchError>
    requires origin { Contains network.now.origins origin.now }
    requires last { IfSome last (IsLast limits.now network.now) }
    ensures { IsSearched limits.now network.now origin.now.prefix result }
{
    if let Some(answered) = last {
        if are_alike(network, answered.origin, origin) {
            return answered.found;
        }
    }
    stable_assignments(alloc, &Instance::new(network, &origin.prefix), limits)
}

// Appends what the search answered for a prefix, and answers whether all is known.
fn put_found(
    network: &Network,
    prefix: &Prefix,
    found: &Result<Every, SearchError>,
    out: &mut Vec<u8>,
) -> Result<bool, AllocError>
    requires { IfOk found.now (λ every. All IsPart every.parts) }
    ensures memory { OnOk result (IfErr found.now (λ why. why ≢ Memory)) }
    ensures text { OnOk result (out.new.items ≡ out.old.items ++ found_text network.now prefix.now found.now) }
    ensures known { IfOk result (λ known. known ≡ is_ok found.now) }
{
    match found {
        Ok(every) => {
            put_every(prefix, network.routers(), every, out)?;
            Ok(true)
        }
        Err(why) => {
            put_refusal(prefix, why, out)?;
            Ok(false)
        }
    }
}

// Appends the answer for the prefix of each origin, and answers whether all is known.
fn put_prefixes(
    alloc: Global,
    network: &Network,
    limits: &SearchLimits,
    out: &mut Vec<u8>,
) -> Result<bool, AllocError>
    ensures { IfOk result
        (λ known. PutsAnswers limits.now network.now network.now.origins out.old.items out.new.items known) }
{
    let mut known = true;
    let mut last = None;
    for origin in network.origins() {
        let found = found_for(alloc, network, limits, last, origin);
        let is_known = put_found(network, &origin.prefix, &found, out)?;
        known = known & is_known;
        last = Some(Answered { origin, found });
    }
    Ok(known)
}

/// The text printed of all stable assignments of a network, and the exit status.
///
/// It answers an error if memory is refused.
pub(crate) fn stables_output(
    alloc: Global,
    network: &Network,
    limits: &SearchLimits,
) -> Result<(Vec<u8>, u8), AllocError>
    ensures { IfOk result (λ printed. StablesGive limits.now network.now (output printed.0.items printed.1)) }
{
    let mut out = Vec::new(alloc);
    let known = put_prefixes(alloc, network, limits, &mut out)?;
    Ok((out, if known { DONE } else { UNKNOWN }))
}
