//! The best path of the tables is the best choice of the definitions.

ghost use Rattle.std.specs.Prelude.{ℕ};
ghost use Rattle.std.specs.List.{Contains};
ghost use Rattle.ranked_policy.specs.Plans.{Linked};
ghost use Rattle.rib_tables.specs.Promises.{BestOverWords};
ghost use Rattle.stable_paths.specs.Promises.{OneBest};

use rib_tables::Rib;
use rib_tables::laws::the_best_is_over_the_words;
use stable_paths::laws::one_best;

/// Shows that Established peers are linked, and that the best over what they said is the one best
/// of the definitions. It does no work.
pub(crate) fn the_best_is_the_best_path(tables: &Rib<'_>)
    ensures linked { (v : ℕ) → Contains tables.now.established v → Linked tables.now.net.links tables.now.router v }
    ensures over { BestOverWords }
    ensures one { OneBest }
{
    the_best_is_over_the_words();
    one_best();
    tables.network();
}
