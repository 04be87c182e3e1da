//! The answers for the prefixes of a network.

ghost use Rattle.std.specs.Prelude.{◌≡◌, ◌≢◌, ◌++◌, IfErr, IfOk, IfSome, OnOk, is_ok};
ghost use Rattle.std.specs.List.{Contains};
ghost use Rattle.text_engines.specs.Decoding.{output};
ghost use Rattle.wheel_search.specs.declared.refusal.WheelError.TheVariants.{Memory};
ghost use Rattle.safe_engine.specs.Answers.{found_text, refusal_text, IsSearched, IsLast, PutsAnswers, SafetyGives};

use crate::lines::put_safety;
use prefix_lanes::Prefix;
use ranked_policy::{Network, Origin};
use stable_engine::laws::alike_have_one_policy;
use stable_engine::status::UNKNOWN;
use stable_engine::{are_alike, put_unknown_line};
use stable_paths::Instance;
use std::alloc::{AllocError, Global};
use text_engines::status::DONE;
use wheel_search::{Safety, WheelError, dispute_wheel};

// Appends which router stood in the way for a prefix.
fn put_refusal(prefix: &Prefix, why: &WheelError, out: &mut Vec<u8>) -> Result<(), AllocError>
    ensures { OnOk result ((why.now ≢ Memory) × (out.new.items ≡ out.old.items ++ refusal_text prefix.now why.now)) }
{
    match why {
        WheelError::UnlistedPaths { router } => put_unknown_line(prefix, b"paths", &[*router], out),
        WheelError::Memory => Err(AllocError),
    }
}

// An origin, and what the search answered for its prefix.
#[derive(Drop)]
struct Answered<'a> {
    origin: &'a Origin,
    found: Result<Safety, WheelError>,
}

// What the search answers for the prefix of an origin: the last answer, if it is that of a prefix which is alike.
fn found_for(
    alloc: Global,
    network: &Network,
    most: usize,
    last: Option<Answered<'_>>,
    origin: &Origin,
) -> Result<Safety, WheelError>
    requires origin { Contains network.now.origins origin.now }
    requires last { IfSome last (IsLast network.now most) }
    ensures { IsSearched network.now most origin.now.prefix result }
{
    alike_have_one_policy();
    if let Some(answered) = last {
        if are_alike(network, answered.origin, origin) {
            return answered.found;
        }
    }
    dispute_wheel(alloc, &Instance::new(network, &origin.prefix), most)
}

// Appends what the search answered for a prefix, and answers whether all is known.
fn put_found(
    prefix: &Prefix,
    found: &Result<Safety, WheelError>,
    out: &mut Vec<u8>,
) -> Result<bool, AllocError>
    ensures memory { OnOk result (IfErr found.now (λ why. why ≢ Memory)) }
    ensures text { OnOk result (out.new.items ≡ out.old.items ++ found_text prefix.now found.now) }
    ensures known { IfOk result (λ known. known ≡ is_ok found.now) }
{
    match found {
        Ok(safety) => {
            put_safety(prefix, safety, out)?;
            Ok(true)
        }
        Err(why) => {
            put_refusal(prefix, why, out)?;
            Ok(false)
        }
    }
}

// Appends the answer for the prefix of each origin, and answers whether all is known.
fn put_prefixes(
    alloc: Global,
    network: &Network,
    most: usize,
    out: &mut Vec<u8>,
) -> Result<bool, AllocError>
    ensures { IfOk result
        (λ known. PutsAnswers network.now most network.now.origins out.old.items out.new.items known) }
{
    let mut known = true;
    let mut last = None;
    for origin in network.origins() {
        let found = found_for(alloc, network, most, last, origin);
        let is_known = put_found(&origin.prefix, &found, out)?;
        known = known & is_known;
        last = Some(Answered { origin, found });
    }
    Ok(known)
}

/// The text printed of the dispute wheels of a network, and the exit status.
///
/// It answers an error if memory is refused.
pub(crate) fn safety_output(
    alloc: Global,
    network: &Network,
    most: usize,
) -> Result<(Vec<u8>, u8), AllocError>
    ensures { IfOk result (λ printed. SafetyGives network.now most (output printed.0.items printed.1)) }
{
    let mut out = Vec::new(alloc);
    let known = put_prefixes(alloc, network, most, &mut out)?;
    Ok((out, if known { DONE } else { UNKNOWN }))
}
