//! The end itself: what it dials, what it hears, and how it hangs up.

ghost use Rattle.std.specs.Prelude.{◌≡◌, ◌≤◌, ◌^◌, ◌↔◌, IfOk, OnOk, OnErr, IsErr};
ghost use Rattle.link_epoch.specs.Ends.{LinkView, opening, is_joinable, next_number, dialled, hung_up, heard_by, meaning_of, number_shut};

use std::marker::Model;
use thiserror::Error;

/// Where an end stands.
#[derive(Clone, Copy, Debug, PartialEq, Eq)]
pub enum Phase {
    /// It has dialled nothing, or has hung up since.
    Shut,
    /// It has dialled a number, and has not heard it from the peer.
    Offered,
    /// Both ends have dialled the number: they are in that incarnation.
    Joined,
}

/// What an end hears of its peer.
#[derive(Clone, Copy, Debug, PartialEq, Eq)]
pub enum Sign {
    /// The peer dialled this number.
    Dial(u32),
    /// The peer hung up in this number.
    Shut(u32),
}

/// What a sign means to the session of the link.
#[derive(Clone, Copy, Debug, PartialEq, Eq)]
pub enum Heard {
    /// Nothing.
    Quiet,
    /// The peer dialled the number that this end offers: both are in that incarnation now.
    Joined,
    /// The peer dialled this number, which is above any that this end has dialled. A `dial` answers
    /// it; whether to is the caller's choice.
    Offered(u32),
    /// The peer hung up in the incarnation that both were in. This end has yet to hang up.
    Closed,
}

/// A number that was dialled.
#[derive(Clone, Copy, Debug, PartialEq, Eq)]
pub struct Dialled {
    /// The number, which is the end's `epoch` now.
    pub epoch: u32,
    /// Whether the peer had dialled it before, so that both ends are in it at once.
    pub joined: bool,
}

/// Why an end did not dial. The end is as it was.
#[derive(Clone, Copy, Debug, PartialEq, Eq, Error)]
pub enum LinkError {
    /// The next number would pass 4294967295.
    #[error("no number is left for another incarnation")]
    EpochEnd,
}

/// One end of a link.
#[derive(Clone, Copy, Debug, PartialEq, Eq)]
pub struct LinkEnd {
    epoch: u32,
    heard: u32,
    heard_is_shut: bool,
    phase: Phase,
}

impl Model for LinkEnd {
    ghost use Rattle.link_epoch.specs.Ends.{LinkView};

    ghost Value = { LinkView };

    ghost view = { λ a.
        record { epoch = a.epoch; heard = a.heard; heard_is_shut = a.heard_is_shut; phase = a.phase } };

    ghost inverse = { λ d.
        record { epoch = d.epoch; heard = d.heard; heard_is_shut = d.heard_is_shut; phase = d.phase } };
}

impl LinkEnd {
    /// An end that has dialled and heard nothing.
    pub fn new() -> LinkEnd
        ensures { result ≡ opening }
    {
        LinkEnd {
            epoch: 0,
            heard: 0,
            heard_is_shut: false,
            phase: Phase::Shut,
        }
    }

    /// The last number dialled here, 0 at first.
    pub fn epoch(&self) -> u32
        ensures { result ≡ self.now.epoch }
    {
        self.epoch
    }

    /// Whether the peer waits in a number that this end can join: one above its own that is not
    /// shut. A `dial` joins exactly then.
    pub fn is_joinable(&self) -> bool
        ensures { result ≡ is_joinable self.now }
    {
        self.epoch < self.heard && !self.heard_is_shut
    }

    /// Where the end stands.
    pub fn phase(&self) -> Phase
        ensures { result ≡ self.now.phase }
    {
        self.phase
    }

    /// Dials the peer's number if the peer waits there, else the least number above all that this
    /// end has dialled and heard. Refused with [`LinkError::EpochEnd`] exactly if that number would
    /// pass 4294967295; the end is then as it was.
    pub fn dial(&mut self) -> Result<Dialled, LinkError>
        ensures number { IfOk result (λ d. d ≡ record { epoch = next_number self.old; joined = is_joinable self.old }) }
        ensures ok { OnOk result (self.new ≡ dialled self.old) }
        ensures used_up { IsErr result ↔ (2 ^ 32 ≤ next_number self.old) }
        ensures err { OnErr result (self.new ≡ self.old) }
    {
        let heard = self.heard;
        let joined = self.is_joinable();
        let epoch = if joined {
            heard
        } else {
            self.epoch
                .max(heard)
                .checked_add(1)
                .ok_or(LinkError::EpochEnd)?
        };
        self.epoch = epoch;
        self.phase = if joined {
            Phase::Joined
        } else {
            Phase::Offered
        };
        Ok(Dialled { epoch, joined })
    }

    /// Hangs up, and answers the number that the peer is to be told is shut. `None` if the end is
    /// in phase `Shut` already.
    pub fn hang_up(&mut self) -> Option<u32>
        ensures number { result ≡ number_shut self.old }
        ensures after { self.new ≡ hung_up self.old }
    {
        match self.phase {
            Phase::Shut => None,
            Phase::Offered | Phase::Joined => {
                self.phase = Phase::Shut;
                Some(self.epoch)
            }
        }
    }

    /// Hears a sign of the peer, and answers what it means to the session.
    pub fn hear(&mut self, sign: Sign) -> Heard
        ensures meaning { result ≡ meaning_of self.old sign }
        ensures after { self.new ≡ heard_by self.old sign }
    {
        match sign {
            Sign::Dial(number) => self.hear_dial(number),
            Sign::Shut(number) => self.hear_shut(number),
        }
    }

    fn hear_dial(&mut self, number: u32) -> Heard
        ensures meaning { result ≡ meaning_of self.old (Sign.Dial number) }
        ensures after { self.new ≡ heard_by self.old (Sign.Dial number) }
    {
        if number <= self.heard {
            return Heard::Quiet;
        }
        self.heard = number;
        self.heard_is_shut = false;
        match self.phase {
            Phase::Offered if number == self.epoch => {
                self.phase = Phase::Joined;
                Heard::Joined
            }
            Phase::Shut | Phase::Offered if number > self.epoch => Heard::Offered(number),
            Phase::Shut | Phase::Offered | Phase::Joined => Heard::Quiet,
        }
    }

    fn hear_shut(&mut self, number: u32) -> Heard
        ensures meaning { result ≡ meaning_of self.old (Sign.Shut number) }
        ensures after { self.new ≡ heard_by self.old (Sign.Shut number) }
    {
        if number != self.heard {
            return Heard::Quiet;
        }
        self.heard_is_shut = true;
        match self.phase {
            Phase::Joined if number == self.epoch => Heard::Closed,
            Phase::Shut | Phase::Offered | Phase::Joined => Heard::Quiet,
        }
    }
}

impl Default for LinkEnd {
    ghost is_default = { λ a. a ≡ opening };

    fn default() -> LinkEnd {
        LinkEnd::new()
    }
}
