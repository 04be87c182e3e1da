//! Laws of the definitions. The contract of each function is the law.

ghost use Rattle.play_engine.specs.Laws.{PlaysToOne, CutsToOne, WhysToOne};

use bgp_codec::Message;
use net_text::laws::{
    spelt_settings, texts_are_refused_once, texts_spell_one_network, what_is_spelt_is_not_refused,
};
use prefix_lanes::Prefix;
use ranked_policy::Path;
use router_runs::each_network_has_a_setting;
use run_model::outcome_is_one;
use why_engine::laws::each_router_has_one_text;
use world_core::laws::played_runs_are_one;

/// The text that `play` prints, want of memory aside, is a function of what it reads.
pub fn play_prints_one_text()
    ensures { PlaysToOne }
{
    texts_spell_one_network();
    spelt_settings();
    what_is_spelt_is_not_refused();
    texts_are_refused_once();
    each_network_has_a_setting();
}

/// The text that `cut` prints, want of memory aside, is a function of its number and of what it reads. Its count of
/// events up to the recordings is that of [`world_core::through_cut`].
pub fn cut_prints_one_text()
    ensures { CutsToOne }
{
    texts_spell_one_network();
    spelt_settings();
    what_is_spelt_is_not_refused();
    texts_are_refused_once();
    each_network_has_a_setting();
    played_runs_are_one();
    outcome_is_one::<Message, Prefix, Path>();
}

/// The text that `why` prints, want of memory aside, is a function of its number and of what it reads.
pub fn why_prints_one_text()
    ensures { WhysToOne }
{
    texts_spell_one_network();
    spelt_settings();
    what_is_spelt_is_not_refused();
    texts_are_refused_once();
    each_network_has_a_setting();
    each_router_has_one_text();
}
