//! Laws of the definitions of the engines. Each function here does nothing but call the laws that its proof rests on;
//! its contract is the law.

ghost use Rattle.text_engines.specs.Laws.{DecodesToOne, ChecksToOne};
ghost use Rattle.std.specs.Prelude.{◌≡◌};
ghost use Rattle.text_engines.specs.declared.status.TheConstants.{DONE, REFUSED, USAGE, MEMORY, STOPPED};
ghost use Rattle.text_engines.specs.declared.transfer.TheConstants.{INPUT_LIMIT, CHUNK};

use bgp_framing::laws::splits_once;
use net_text::laws::{
    spelt_settings, texts_are_refused_once, texts_spell_one_network, what_is_spelt_is_not_refused,
};
use stable_paths::laws::one_best;

/// The text that `decode` prints, want of memory aside, is a function of what it reads and of the number that it checks
/// against.
pub fn decode_prints_one_text()
    ensures { DecodesToOne }
{
    splits_once();
}

/// The text that `check` prints, want of memory aside, is a function of what it reads.
pub fn check_prints_one_text()
    ensures { ChecksToOne }
{
    texts_spell_one_network();
    spelt_settings();
    what_is_spelt_is_not_refused();
    texts_are_refused_once();
    one_best();
}

/// The statuses that the program ends with, but for that of a search that is not whole; the most octets of an input, and
/// those of a piece that is read at once.
pub fn constants_are_these()
    ensures statuses { (DONE ≡ 0) × (REFUSED ≡ 1) × (USAGE ≡ 2) × (MEMORY ≡ 3) × (STOPPED ≡ 4) }
    ensures input { (INPUT_LIMIT ≡ 16777216) × (CHUNK ≡ 65536) }
{}
