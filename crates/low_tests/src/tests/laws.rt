//! Calls each law once.

use super::run_model_tests::OneOctet;
use super::run_model_tests::orders::{Counters, Numbered, Pairs};
use link_epoch::{
    epoch_is_greatest_dialled, heard_is_greatest_heard, heard_is_shut_where_it_was_shut,
    joined_where_dialled_and_heard, numbers_dialled_rise, signs_mean,
};
use prefix_lanes::{a_prefix_is_its_bits, masking_clears_bits, the_longest_is_one};
use run_model::{
    causal_orders_are_runs, causal_orders_end_alike, close_loses_the_recording, consistent_cut,
    copies_are_a_cut, end_facts_hold, entries_add_up, first_in_first_out,
    gathered_events_are_stamped, gathered_is_one, gathered_stamps_rise, gathering_lifts,
    joined_heard_its_own, journals_can_be_gathered, link_ends_keep_enough, link_runs_go_on,
    moves_keep_end_facts, network_runs_are_link_runs, network_runs_go_on, no_octet_is_stale,
    octets_are_entries, octets_of_an_incarnation, offer_runs_are_network_runs, offers_stand,
    one_offer_a_number, outcome_is_one, outcome_tells, parts_are_as_long, puts_come_earlier,
    recorded_at_one_event, recordings_make_a_cut, runs_are_causal_orders, runs_have_their_cuts,
    runs_pass_through_cuts, session_events_lead_on, sessions_are_link_runs, settled_is_stable,
    settled_outcome_is_stable_and_stays, settled_stays, sorting_by_stamp_gathers,
    sorting_by_stamp_then_router_gathers, stamps_change_no_item, stamps_give_causal_orders,
    stamps_give_the_collectors_order, states_of_runs, steps_are_takes_in_order,
    takes_have_their_puts, threads_are_a_run, unfinished_snapshots_hold,
};
use session_fsm::{
    each_timer_runs_in_its_states, hold_time_zero_never_expires, hold_timer_expires_after_silence,
    leaving_for_idle_hangs_up, nothing_is_acted_on_after_a_close, restart_waits_for_a_start,
    timers_run_out_in_their_last_second, up_and_down_take_turns, updates_act_in_established_alone,
};

#[test]
fn each_law_holds_at_a_type() {
    a_prefix_is_its_bits();
    masking_clears_bits();
    the_longest_is_one();
    epoch_is_greatest_dialled();
    numbers_dialled_rise();
    heard_is_greatest_heard();
    heard_is_shut_where_it_was_shut();
    joined_where_dialled_and_heard();
    signs_mean();
    updates_act_in_established_alone();
    up_and_down_take_turns();
    nothing_is_acted_on_after_a_close();
    leaving_for_idle_hangs_up();
    hold_time_zero_never_expires();
    hold_timer_expires_after_silence();
    restart_waits_for_a_start();
    each_timer_runs_in_its_states();
    timers_run_out_in_their_last_second();
    link_runs_go_on::<u8>();
    first_in_first_out::<u8>();
    joined_heard_its_own::<u8>();
    end_facts_hold::<u8>();
    moves_keep_end_facts::<u8>();
    entries_add_up::<u8>();
    session_events_lead_on::<u8>();
    octets_of_an_incarnation::<u8>();
    no_octet_is_stale::<u8, OneOctet>();
    octets_are_entries::<u8, OneOctet>();
    sessions_are_link_runs::<u8>();
    consistent_cut::<u8>();
    states_of_runs::<u8, u8, u32>();
    link_ends_keep_enough::<u8, u8, u32>();
    copies_are_a_cut::<u8, u8, u32>();
    network_runs_are_link_runs::<u8, u8, u32>();
    network_runs_go_on::<u8, u8, u32>();
    settled_is_stable::<u8, u8, u32>();
    settled_stays::<u8, u8, u32>();
    recorded_at_one_event::<u8, u8, u32>();
    offer_runs_are_network_runs::<u8, u8, u32>();
    one_offer_a_number::<u8, u8, u32>();
    close_loses_the_recording::<u8, u8, u32>();
    outcome_is_one::<u8, u8, u32>();
    outcome_tells::<u8, u8, u32>();
    settled_outcome_is_stable_and_stays::<u8, u8, u32>();
    recordings_make_a_cut::<u8, u8, u32>();
    unfinished_snapshots_hold::<u8, u8, u32>();
    causal_orders_are_runs::<Counters>();
    causal_orders_end_alike::<Counters>();
    stamps_change_no_item::<Counters>();
    runs_are_causal_orders::<Counters>();
    takes_have_their_puts::<Counters>();
    stamps_give_causal_orders::<Counters>();
    stamps_give_the_collectors_order::<Counters>();
    threads_are_a_run::<Counters>();
    steps_are_takes_in_order::<Counters>();
    puts_come_earlier::<Counters>();
    runs_have_their_cuts::<Counters>();
    runs_pass_through_cuts::<Counters>();
    offers_stand::<Counters>();
    parts_are_as_long::<Counters>();
    sorting_by_stamp_gathers::<Pairs>();
    sorting_by_stamp_then_router_gathers::<Pairs>();
    journals_can_be_gathered::<Pairs>();
    gathered_stamps_rise::<Pairs>();
    gathered_is_one::<Pairs>();
    gathering_lifts::<Numbered>();
    gathered_events_are_stamped::<Counters>();
}
