//! The laws of the engines, of settled snapshots, of rest, and of the number of stable assignments.

use net_workers::ScriptGate;
use play_engine::laws::{cut_prints_one_text, play_prints_one_text, why_prints_one_text};
use rest_runs::laws::{calm_runs_end, obeyed_rounds_come_to_rest, rounds_come_to_rest};
use stable_runs::laws::{printed_are_listed, settled_are_listed};
use stable_search::laws::{none_without_origin, stable_assignments_are_counted};
use text_engines::laws::{check_prints_one_text, decode_prints_one_text};
use thread_engines::laws::records_play_back;
use trace_engine::laws::{traces_play_back, traces_spell_their_runs};
use wheel_runs::laws::{routers_change_seldom, safe_settle_in_one};
use why_engine::laws::each_router_has_one_text;

// Calls each law once.
#[test]
fn each_law_holds_at_a_type() {
    decode_prints_one_text();
    check_prints_one_text();
    each_router_has_one_text();
    play_prints_one_text();
    cut_prints_one_text();
    why_prints_one_text();
    traces_spell_their_runs();
    traces_play_back();
    records_play_back();
    settled_are_listed::<ScriptGate>();
    printed_are_listed();
    routers_change_seldom::<ScriptGate>();
    safe_settle_in_one::<ScriptGate>();
    calm_runs_end::<ScriptGate>();
    rounds_come_to_rest::<ScriptGate>();
    obeyed_rounds_come_to_rest::<ScriptGate>();
    stable_assignments_are_counted();
    none_without_origin();
}
