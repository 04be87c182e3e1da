//! The notes on an event: what it will send, take, hear, tell or offer, and what changed by it.

use crate::lines::{say_change, say_count, say_fault, say_hex, say_item, say_number, say_path};
use bgp_codec::{Message, Rule};
use bgp_framing::{Next, next_message};
use bgp_values::{HEADER_LEN, MESSAGE_LIMIT};
use net_text::message_line;
use prefix_lanes::Prefix;
use ranked_policy::{Asn, MOST_LINKS, Network};
use router_core::{Command, Offer, Router, RouterError, What};
use router_side::read_frame;
use session_fsm::State;
use std::alloc::{AllocError, Global};
use world_core::{Event, World};

/// The most whole messages in a piece: each has a header at least.
const MOST_IN_A_PIECE: usize = MESSAGE_LIMIT / HEADER_LEN;

/// A session as it was: its peer and its state.
#[derive(Clone, Copy)]
struct Seen {
    peer: Asn,
    state: State,
}

/// The notes on an event.
#[derive(Drop)]
pub(crate) struct Notes {
    // Whether the octets that are sent are said too.
    shows_octets: bool,
    // The text said of the event, line by line.
    text: Vec<u8>,
    // The sessions that it may move, as they were.
    sessions: Vec<Seen>,
    // The last snapshot that its router had recorded.
    snapshot: u32,
    // The prefix that it decides, and the path that was kept for it.
    prefix: Option<Prefix>,
    kept: Vec<Asn>,
}

// The name of a state, as the end of a line.
fn state_name(state: State) -> &'static [u8] {
    match state {
        State::Idle => b" Idle\n",
        State::Connect => b" Connect\n",
        State::Active => b" Active\n",
        State::OpenSent => b" OpenSent\n",
        State::OpenConfirm => b" OpenConfirm\n",
        State::Established => b" Established\n",
    }
}

// The whole message in front of octets, as the peer reads it, and the octets behind it.
fn message_in_front<'a>(
    alloc: Global,
    octets: &'a [u8],
    rule: &Rule,
) -> Result<Option<(Message, &'a [u8])>, AllocError> {
    let Next::Whole(_, end) = next_message(alloc, octets) else {
        return Ok(None);
    };
    let (frame, rest) = octets.split_at(end);
    match read_frame(alloc, frame, rule)? {
        Ok(message) => Ok(Some((message, rest))),
        Err(_) => Ok(None),
    }
}

// Says the message that is sent, or heard.
fn say_message(word: &[u8], message: &Message, text: &mut Vec<u8>) -> Result<(), AllocError> {
    text.extend_from_slice(word)?;
    message_line(message, text)
}

// Says octets in hex, if they are to be said.
fn say_shown(shows_octets: bool, octets: &[u8], text: &mut Vec<u8>) -> Result<(), AllocError> {
    if shows_octets {
        say_hex(octets, text)
    } else {
        Ok(())
    }
}

// Says the contents of a piece: its messages, as far as they are whole, and how many octets stand behind them.
fn say_octets(
    alloc: Global,
    rule: &Rule,
    shows_octets: bool,
    octets: &[u8],
    text: &mut Vec<u8>,
) -> Result<(), AllocError> {
    let mut left = octets;
    for _ in 0..MOST_IN_A_PIECE {
        let Some((message, rest)) = message_in_front(alloc, left, rule)? else {
            break;
        };
        say_message(b"sends ", &message, text)?;
        let (frame, _) = left.split_at(left.len().saturating_sub(rest.len()));
        say_shown(shows_octets, frame, text)?;
        left = rest;
    }
    if left.is_empty() {
        return Ok(());
    }
    say_count(b"sends ", left.len(), text)?;
    say_shown(shows_octets, left, text)
}

// Says the item that is put.
fn say_sent(
    alloc: Global,
    rule: &Rule,
    shows_octets: bool,
    what: &What,
    text: &mut Vec<u8>,
) -> Result<(), AllocError> {
    match what {
        What::Piece(_, octets) => say_octets(alloc, rule, shows_octets, octets.as_slice(), text),
        What::Dial(_) | What::Shut(_) | What::Mark(..) => say_item(b"sends ", what, text),
    }
}

// Says the item that is put next towards a peer, if there is one.
fn say_put(
    network: &Network,
    router: &Router<'_>,
    peer: Asn,
    shows_octets: bool,
    text: &mut Vec<u8>,
) -> Result<(), AllocError> {
    let alloc = *text.allocator();
    let rule = Rule {
        width: network.settings().width,
        peer: Some(router.number()),
        own: Some(peer),
    };
    match router.next_item(peer) {
        Ok(Some(item)) => say_sent(alloc, &rule, shows_octets, &item.what, text),
        Err(RouterError::Memory) => Err(AllocError),
        Ok(None) | Err(_) => Ok(()),
    }
}

// Says the message or fault that is handled next, if there is one.
fn say_heard(router: &Router<'_>, peer: Asn, text: &mut Vec<u8>) -> Result<(), AllocError> {
    let alloc = *text.allocator();
    let Some(read) = router.front(alloc, peer) else {
        return Ok(());
    };
    match read? {
        Ok(message) => say_message(b"hears ", &message, text),
        Err(fault) => say_fault(&fault, text),
    }
}

// Says which peer the router tells next, and which path, if it tells one.
fn say_told(router: &Router<'_>, text: &mut Vec<u8>) -> Result<(), AllocError> {
    match router.next_advertised() {
        Some((peer, prefix)) => say_path(peer, &prefix, router.kept(&prefix), text),
        None => Ok(()),
    }
}

// Says the offer that waits in front, if there is one.
fn say_offer(router: &Router<'_>, text: &mut Vec<u8>) -> Result<(), AllocError> {
    match router.next_offer() {
        Some(Offer::Part(part)) => say_number(b"offers snapshot ", part.number, b"\n", text),
        Some(Offer::Lost(lost)) => say_number(b"offers snapshot ", lost.number, b" lost\n", text),
        None => Ok(()),
    }
}

impl Notes {
    /// Empty notes. `shows_octets` says whether the octets that are sent are to be said too.
    pub fn new(alloc: Global, shows_octets: bool) -> Notes {
        Notes {
            shows_octets,
            text: Vec::new(alloc),
            sessions: Vec::new(alloc),
            snapshot: 0,
            prefix: None,
            kept: Vec::new(alloc),
        }
    }

    /// The text said of the event, line by line.
    pub fn text(&self) -> &[u8] {
        self.text.as_slice()
    }

    // Forgets what was noted.
    fn clear(&mut self) {
        self.text.clear();
        self.sessions.clear();
        self.kept.clear();
        self.prefix = None;
    }

    // Watches the session with a peer.
    fn watch(&mut self, router: &Router<'_>, peer: Asn) -> Result<(), AllocError> {
        match router.state(peer) {
            Some(state) => self.sessions.extend_from_slice(&[Seen { peer, state }]),
            None => Ok(()),
        }
    }

    // Watches the sessions with all peers.
    fn watch_all(&mut self, router: &Router<'_>) -> Result<(), AllocError> {
        for place in 0..MOST_LINKS {
            match router.peer_at(place) {
                Some(peer) => self.watch(router, peer)?,
                None => return Ok(()),
            }
        }
        Ok(())
    }

    // Watches the sessions that a command may move.
    fn watch_command(&mut self, router: &Router<'_>, command: Command) -> Result<(), AllocError> {
        match command {
            Command::Start(peer) | Command::Stop(peer) | Command::Reset(peer) => {
                self.watch(router, peer)
            }
            Command::Restart => self.watch_all(router),
            Command::Originate(_) | Command::Withdraw(_) | Command::Snapshot(_) => Ok(()),
        }
    }

    // Notes which prefix is decided next, and the path that is kept for it.
    fn watch_choice(&mut self, router: &Router<'_>) -> Result<(), AllocError> {
        let Some(prefix) = router.undecided() else {
            return Ok(());
        };
        self.prefix = Some(prefix);
        self.kept.extend_from_slice(router.kept(&prefix))
    }

    /// Notes what an event will do, before it is done. It is refused only for want of memory.
    pub fn before(&mut self, world: &World<'_>, event: &Event) -> Result<(), AllocError> {
        self.clear();
        let Some(router) = world.router(event.router()) else {
            return Ok(());
        };
        self.snapshot = router.last_snapshot();
        match *event {
            Event::Command(_, command) => self.watch_command(router, command),
            Event::Tick(_) => self.watch_all(router),
            Event::Put(_, peer) => {
                let shows_octets = self.shows_octets;
                say_put(world.network(), router, peer, shows_octets, &mut self.text)
            }
            Event::Take(number, peer) => match world.next_to_take(number, peer) {
                Some(item) => {
                    self.watch(router, peer)?;
                    say_item(b"takes ", &item.what, &mut self.text)
                }
                None => Ok(()),
            },
            Event::Handle(_, peer) => {
                self.watch(router, peer)?;
                say_heard(router, peer, &mut self.text)
            }
            Event::Decide(_) => self.watch_choice(router),
            Event::Advertise(_) => say_told(router, &mut self.text),
            Event::Offer(_) => say_offer(router, &mut self.text),
        }
    }

    // Says which of the sessions moved.
    fn say_sessions(&mut self, router: &Router<'_>) -> Result<(), AllocError> {
        for seen in self.sessions.as_slice() {
            if let Some(state) = router.state(seen.peer) {
                if state != seen.state {
                    say_number(b"session ", seen.peer, state_name(state), &mut self.text)?;
                }
            }
        }
        Ok(())
    }

    /// Notes what changed by an event, behind it. It is refused only for want of memory.
    pub fn behind(&mut self, world: &World<'_>, event: &Event) -> Result<(), AllocError> {
        let Some(router) = world.router(event.router()) else {
            return Ok(());
        };
        if let Some(prefix) = self.prefix {
            let now = router.kept(&prefix);
            say_change(&prefix, now, self.kept.as_slice(), &mut self.text)?;
        }
        self.say_sessions(router)?;
        let snapshot = router.last_snapshot();
        if snapshot != self.snapshot {
            say_number(b"records ", snapshot, b"\n", &mut self.text)?;
        }
        Ok(())
    }
}
