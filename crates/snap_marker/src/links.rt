//! The links of a part, by peer.

ghost use Rattle.std.specs.Prelude.{◌≡◌, ◌≤◌, ◌<◌, [], ◌∷◌, ◌++◌, true, false, not, cond, map, Some, None, length, MatchOption, IfOk, OnOk};
ghost use Rattle.bgp_codec.specs.declared.message.Message.TheVariants.{UpdateMsg};
ghost use Rattle.std.specs.List.{find, list_any, position};
ghost use Rattle.snap_marker.specs.Parts.{peers_of, epoch_in, waits_for_marker, channel_in, is_empty, messages, room_in, is_heard_in, seen, with_link, IsAt, leads, leads_to};

use crate::part::Channel;
use bgp_codec::Update;
use ranked_policy::Asn;
use std::alloc::{AllocError, Global};

// The place of the first link to a peer, by its test.
fn position_of(channels: &[Channel], peer: Asn) -> Option<usize>
    ensures { result ≡ position (leads peer) channels.now }
{
    channels.iter().position(|channel| peer == channel.peer)
}

/// The place of the first link to a peer.
pub(crate) fn place_of(channels: &[Channel], peer: Asn) -> Option<usize>
    ensures { MatchOption result (leads_to peer channels.now ≡ false)
        (λ place. (place < length channels.now) × IsAt channels.now peer place) }
{
    position_of(channels, peer)
}

/// Whether a link leads to a peer.
pub(crate) fn leads_to(channels: &[Channel], peer: Asn) -> bool
    ensures { result ≡ leads_to peer channels.now }
{
    channels.iter().any(|channel| peer == channel.peer)
}

/// The incarnation of the link to a peer, 0 if there is none.
pub(crate) fn epoch_in(channels: &[Channel], peer: Asn) -> u32
    ensures { result ≡ epoch_in channels.now peer }
{
    for channel in channels {
        if peer == channel.peer {
            return channel.epoch;
        }
    }
    0
}

/// Whether a peer's marker is still to come; true also for a number that is no peer.
pub(crate) fn waits_for_marker(channels: &[Channel], peer: Asn) -> bool
    ensures { result ≡ waits_for_marker channels.now peer }
{
    for channel in channels {
        if peer == channel.peer {
            return channel.is_open;
        }
    }
    true
}

/// The first of the peers of `channels` whose marker is missing from `recorded`.
pub(crate) fn first_waiting(channels: &[Channel], recorded: &[Channel]) -> Option<Asn>
    ensures { result ≡ find (waits_for_marker recorded.now) (peers_of channels.now) }
{
    for channel in channels {
        if waits_for_marker(recorded, channel.peer) {
            return Some(channel.peer);
        }
    }
    None
}

/// Whether the marker of some peer is missing.
pub(crate) fn is_open(channels: &[Channel]) -> bool
    ensures { result ≡ list_any (waits_for_marker channels.now) (peers_of channels.now) }
{
    for channel in channels {
        if waits_for_marker(channels, channel.peer) {
            return true;
        }
    }
    false
}

/// Whether a peer has a channel, and it is open.
pub(crate) fn is_heard(channels: &[Channel], peer: Asn) -> bool
    ensures { result ≡ is_heard_in channels.now peer }
{
    for channel in channels {
        if peer == channel.peer {
            return channel.is_open;
        }
    }
    false
}

/// Whether the channel of a peer has an UPDATE.
pub(crate) fn has_updates(channels: &[Channel], peer: Asn) -> bool
    ensures { result ≡ not (is_empty (channel_in channels.now peer)) }
{
    for channel in channels {
        if peer == channel.peer {
            return !is_empty(&channel.updates);
        }
    }
    false
}

// Whether there is no UPDATE.
fn is_empty(updates: &[Update]) -> bool
    ensures { result ≡ is_empty (messages updates.now) }
{
    match updates {
        [] => true,
        [_, ..] => false,
    }
}

/// Closes the channel of a peer: its marker has come.
pub(crate) fn close_channel(channels: &mut Vec<Channel>, peer: Asn)
    requires { leads_to peer channels.old.items ≡ true }
    ensures waits { waits_for_marker channels.new.items ≡ with_link peer false (waits_for_marker channels.old.items) }
    ensures epochs { epoch_in channels.new.items ≡ epoch_in channels.old.items }
    ensures channels { channel_in channels.new.items ≡ channel_in channels.old.items }
    ensures peers { peers_of channels.new.items ≡ peers_of channels.old.items }
{
    if let Some(place) = place_of(channels, peer) {
        channels[place].is_open = false;
    }
}

// Makes room for one UPDATE more in the channel of a peer.
fn reserve_update(channels: &mut Vec<Channel>, peer: Asn) -> Result<(), AllocError>
    ensures room { OnOk result (leads_to peer channels.old.items ≡ true → 1 ≤ room_in channels.new.items peer) }
    ensures seen { map seen channels.new.items ≡ map seen channels.old.items }
{
    if let Some(place) = place_of(channels, peer) {
        channels[place].updates.reserve(1)?;
    }
    Ok(())
}

/// A copy of an UPDATE for the channel of a peer, and room for it there, if that channel is open.
pub(crate) fn copy_update(
    alloc: Global,
    channels: &mut Vec<Channel>,
    peer: Asn,
    update: &Update,
) -> Result<Option<Update>, AllocError>
    ensures copy { IfOk result (λ copy. copy ≡ cond (is_heard_in channels.old.items peer) (Some update.now) None) }
    ensures room { OnOk result (is_heard_in channels.new.items peer ≡ true → 1 ≤ room_in channels.new.items peer) }
    ensures seen { map seen channels.new.items ≡ map seen channels.old.items }
{
    if !is_heard(channels, peer) {
        return Ok(None);
    }
    let copy = update.copied(alloc)?;
    reserve_update(channels, peer)?;
    Ok(Some(copy))
}

/// Adds an UPDATE to the channel of a peer, in which there is room.
pub(crate) fn push_update(channels: &mut Vec<Channel>, peer: Asn, update: Update)
    requires link { leads_to peer channels.old.items ≡ true }
    requires room { 1 ≤ room_in channels.old.items peer }
    ensures channels { channel_in channels.new.items
        ≡ with_link peer (channel_in channels.old.items peer ++ UpdateMsg update ∷ []) (channel_in channels.old.items) }
    ensures waits { waits_for_marker channels.new.items ≡ waits_for_marker channels.old.items }
    ensures epochs { epoch_in channels.new.items ≡ epoch_in channels.old.items }
    ensures peers { peers_of channels.new.items ≡ peers_of channels.old.items }
{
    if let Some(place) = place_of(channels, peer) {
        channels[place].updates.push_reserved(update);
    }
}
