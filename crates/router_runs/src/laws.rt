//! The laws of runs of a network of routers. Each is the contract of a function with no work of its own.

ghost use Rattle.bgp_codec.specs.Header.{IsFrame};
ghost use Rattle.router_runs.specs.Acts.{QuietStepsAreActs};
ghost use Rattle.router_runs.specs.Existence.{EachNetworkHasASetting};
ghost use Rattle.router_runs.specs.LawsBelow.{LawsBelow};
ghost use Rattle.router_runs.specs.Promises.{NothingIsActedOnAfterTheClose, UpdatesPassInOrder};
ghost use Rattle.router_runs.specs.Said.{RunsKeep, SaidIsGood};
ghost use Rattle.router_runs.specs.Snapshots.{CloseLosesTheRecording};

use bgp_codec::Message;
use bgp_codec::laws::{a_peers_writing_is_read, header_is_its_front, written_has_a_header};
use router_model::laws::{
    drafts_leave_established, leaving_loses_the_recording, linked_routers_are_peers,
    steps_append_what_they_say,
};
use run_model::{
    Framing, end_facts_hold, entries_add_up, joined_heard_its_own, moves_keep_end_facts,
    no_octet_is_stale, octets_are_entries, octets_of_an_incarnation, session_events_lead_on,
    sessions_are_link_runs,
};
use stable_paths::laws::{best_by_rank_is_best, stable_is_the_models};

/// Frames of BGP-4 (RFC 4271 section 4.1): octets with a good header whose Length is their number.
struct Frames;

impl Framing for Frames {
    ghost is_frame = { IsFrame };
}

/// The laws of the crates below on link ends, sessions, octets and the steps of one router.
pub(crate) fn laws_below()
    ensures { LawsBelow }
{
    header_is_its_front();
    written_has_a_header();
    a_peers_writing_is_read();
    end_facts_hold::<Message>();
    moves_keep_end_facts::<Message>();
    entries_add_up::<Message>();
    joined_heard_its_own::<Message>();
    session_events_lead_on::<Message>();
    sessions_are_link_runs::<Message>();
    octets_are_entries::<Message, Frames>();
    no_octet_is_stale::<Message, Frames>();
    octets_of_an_incarnation::<Message>();
    linked_routers_are_peers();
    steps_append_what_they_say();
    drafts_leave_established();
    stable_is_the_models::<Message>();
}

/// Every message that a router may say is written as a frame, and each of its peers reads it back,
/// whether AS numbers have two octets or four.
pub fn what_is_said_is_good()
    ensures { SaidIsGood }
{
    laws_below();
}

/// Every state of a run has what is kept through it. A run of the sessions of the laws of runs leads to the two sides
/// of each link. Octets that were taken are those of messages said. Each message said is good, and each kept path may
/// be kept.
pub fn runs_keep()
    ensures { RunsKeep }
{
    laws_below();
}

/// UPDATEs pass in order. In every run this holds from each router to each peer, for each incarnation: the messages
/// used are a beginning of those said; their octets were taken; what was taken was put; what was put was said. While
/// the peer is joined in the incarnation, it holds what it took behind those octets. The UPDATEs acted on are a
/// beginning of those sent.
///
/// Premises: `IsNetwork`, routers choose by rank, the hold time fits an OPEN. It does not say that anything arrives.
pub fn updates_pass_in_order()
    ensures { UpdatesPassInOrder }
{
    laws_below();
}

/// Nothing is acted on after the close: if an event of a router leaves Established, no later event acts on an UPDATE of
/// that incarnation.
pub fn nothing_is_acted_on_after_the_close()
    ensures { NothingIsActedOnAfterTheClose }
{
    laws_below();
}

/// A close loses the recording. If a session leaves Established while its router records a snapshot, the router queues
/// the loss of that snapshot, by the least such peer of the event and in the incarnation that was left. It never makes
/// a part of that snapshot.
///
/// It does not say that the loss is ever offered.
pub fn close_loses_the_recording()
    ensures { CloseLosesTheRecording }
{
    leaving_loses_the_recording();
}

/// A step of a side that tells no UPDATE and neither sends nor takes a marker is a list of events of the network of the
/// laws of runs. They may come, and leave everything else as it was.
pub fn quiet_steps_are_acts()
    ensures { QuietStepsAreActs }
{
    laws_below();
}

/// Each network has a setting in which every router chooses by rank, by the function of [`best_by_rank_is_best`]. The
/// promises of runs, whose premise is such a setting, thus speak of every network.
///
/// Premise: `IsNetwork`. For the setting of the promises (`IsSetting`) the hold time fits an OPEN; that of every
/// network in the code does, since it is a `u16`.
pub fn each_network_has_a_setting()
    ensures { EachNetworkHasASetting }
{
    best_by_rank_is_best();
}
