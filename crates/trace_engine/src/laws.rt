//! Laws of the definitions. The contract of each function is the law.

ghost use Rattle.trace_engine.specs.Laws.{TracesSpellTheirRuns, TracesPlayBack};

use net_text::laws::{
    lines_end_by_line_feeds, texts_spell_one_network, what_is_spelt_is_not_refused,
};
use router_runs::each_network_has_a_setting;
use schedule_text::laws::lines_are_read_as_they_say;
use world_core::laws::what_is_played_is_replayed;

/// The lines that are printed for a schedule have no fault. Those of them that are no comments are the events of its
/// run, each as an order, in the order of the run.
pub fn traces_spell_their_runs()
    ensures { TracesSpellTheirRuns }
{
    lines_end_by_line_feeds();
    lines_are_read_as_they_say();
}

/// A trace within the limit of an input plays back: `play` prints for it what it prints for the input.
pub fn traces_play_back()
    ensures { TracesPlayBack }
{
    lines_end_by_line_feeds();
    lines_are_read_as_they_say();
    texts_spell_one_network();
    what_is_spelt_is_not_refused();
    each_network_has_a_setting();
    what_is_played_is_replayed();
}
