//! Laws of the definitions of a search for stable assignments. Each is the contract of a function without work of its
//! own.

ghost use Rattle.stable_search.specs.Counting.{StableAreCounted, SeveralHaveNone, NoneWithoutOrigin};
ghost use Rattle.stable_search.specs.Fits.{StableIsFitting};

use stable_paths::laws::{best_by_rank_is_best, no_origin_no_path};

/// An assignment is stable exactly where each router has what it may have, and the two ends of each
/// link fit each other.
pub fn stable_is_fitting()
    ensures { StableIsFitting }
{}

/// The number of stable assignments is the product of the numbers of choices. The combinations of one choice from each
/// part are as many, none twice. Each is what the routers have in a stable assignment, and each stable assignment has
/// one.
pub fn stable_assignments_are_counted()
    ensures { StableAreCounted }
{}

/// A part without a choice has two routers or more: a router by itself has each of the paths that it may have.
pub fn several_have_none()
    ensures { SeveralHaveNone }
{}

/// If the origin does not originate the prefix, an assignment is stable exactly where no router has a path.
pub fn none_without_origin()
    ensures { NoneWithoutOrigin }
{
    no_origin_no_path();
    best_by_rank_is_best();
}
