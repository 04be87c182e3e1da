//! Laws of the definitions. The contract of the function is the law.

ghost use Rattle.thread_engines.specs.Laws.{RecordsPlayBack};

use net_text::laws::{
    lines_end_by_line_feeds, spelt_settings, texts_spell_one_network, what_is_spelt_is_not_refused,
};
use router_model::laws::linked_routers_are_peers;
use router_runs::each_network_has_a_setting;
use schedule_text::laws::lines_are_read_as_they_say;
use world_core::laws::{called_runs_are_played, members_are_the_routers};

/// The text printed of a record, within the limit of an input, is played to where the threads ended. The world of
/// `play` does exactly the events of the record, in their order, and its routers are those of the record, with the
/// paths that they keep. `play` prints of the snapshots, and of the routes now, what the comments of the record say.
///
/// It says nothing of want of memory, nor that two runs are alike.
pub fn records_play_back()
    ensures { RecordsPlayBack }
{
    lines_end_by_line_feeds();
    spelt_settings();
    texts_spell_one_network();
    what_is_spelt_is_not_refused();
    linked_routers_are_peers();
    each_network_has_a_setting();
    lines_are_read_as_they_say();
    called_runs_are_played();
    members_are_the_routers();
}
