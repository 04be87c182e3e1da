//! The search for a dispute wheel.

ghost use Rattle.std.specs.Prelude.{◌≡◌, ℕ, IfOk, IfErr};
ghost use Rattle.wheel_search.specs.declared.refusal.WheelError.TheVariants.{Memory};
ghost use Rattle.wheel_search.specs.Found.{HasNoRule, HasRule, IsAnswerOf, IsRefusal};
ghost use Rattle.wheel_search.specs.Rows.{AreRows};

use crate::letting::let_all_go;
use crate::listing::levels;
use crate::refusal::WheelError;
use crate::rim::Safety;
use crate::rims::rims;
use crate::row::{Row, longest_rest, rows, seats, some_ranked};
use crate::wait::all_waits;
use dispute_wheels::laws::{safe_or_wheel, wheels_are_cycles};
use ranked_policy::laws::{each_policy_is_an_order, policies_are_tests, the_longest_rule_is_one};
use stable_paths::Instance;
use std::alloc::{AllocError, Global};

// A wheel of these rows, or that there is none.
fn wheel_of(alloc: Global, instance: &Instance, rows: &[Row]) -> Result<Safety, AllocError>
    requires { AreRows instance.now rows.now }
    ensures { IfOk result (IsAnswerOf instance.now) }
{
    each_policy_is_an_order();
    policies_are_tests();
    the_longest_rule_is_one();
    safe_or_wheel();
    wheels_are_cycles();
    let _network = instance.network();
    let waits = all_waits(alloc, instance, rows)?;
    match let_all_go(alloc, waits.as_slice())? {
        None => Ok(Safety::Safe),
        Some((letting, closes)) => {
            let rims = rims(alloc, instance, rows, waits.as_slice(), &letting, closes)?;
            Ok(Safety::Wheel(rims))
        }
    }
}

/// Whether a network has a dispute wheel for a prefix: a wheel, or that there is none. Of a router without a rule at most
/// so many paths are listed.
///
/// It is refused where some router has a rule for the prefix, and another, which is not the origin, has none and more
/// feasible paths than `most`; else for want of memory alone. So it is refused for nothing else where no router has a
/// rule, nor where each has one.
pub fn dispute_wheel(alloc: Global, instance: &Instance, most: usize) -> Result<Safety, WheelError>
    ensures found { IfOk result (IsAnswerOf instance.now) }
    ensures refused { IfErr result (IsRefusal instance.now most) }
    ensures no_rule { ((v : ℕ) → HasRule instance.now v → ⊥) → IfErr result (λ error. error ≡ Memory) }
    ensures each_rule { ((v : ℕ) → HasNoRule instance.now v → ⊥) → IfErr result (λ error. error ≡ Memory) }
{
    each_policy_is_an_order();
    policies_are_tests();
    the_longest_rule_is_one();
    safe_or_wheel();
    wheels_are_cycles();
    let _network = instance.network();
    let seats = seats(alloc, instance)?;
    if !some_ranked(seats.as_slice()) {
        return Ok(Safety::Safe);
    }
    let longest = longest_rest(instance, seats.as_slice());
    let levels = match levels(alloc, instance, seats.as_slice(), longest, most) {
        Ok(levels) => levels,
        Err(why) => return Err(why),
    };
    let rows = rows(alloc, instance, seats.as_slice(), levels.as_slice())?;
    Ok(wheel_of(alloc, instance, rows.as_slice())?)
}
