//! The first words of schedule lines.

ghost use Rattle.std.specs.Prelude.{◌≡◌};
ghost use Rattle.schedule_text.specs.Keywords.{keyword_of};

use net_text::lexing::same;

/// The first word of a line of a schedule.
#[derive(Clone, Copy, PartialEq, Eq)]
pub(crate) enum Keyword {
    /// `start U V`
    Start,
    /// `stop U V`
    Stop,
    /// `reset U V`
    Reset,
    /// `originate U PREFIX`
    Originate,
    /// `withdraw U PREFIX`
    Withdraw,
    /// `snapshot U S`
    Snapshot,
    /// `restart U`
    Restart,
    /// `tick U`
    Tick,
    /// `put U V`
    Put,
    /// `take U V`
    Take,
    /// `handle U V`
    Handle,
    /// `decide U`
    Decide,
    /// `advertise U`
    Advertise,
    /// `offer U`
    Offer,
    /// `rounds N`
    Rounds,
    /// `ticks N`
    Ticks,
}

/// The keyword that a word is. Its first octet leaves at most three.
pub(crate) fn keyword_of(name: &[u8]) -> Option<Keyword>
    ensures { result ≡ keyword_of name.now }
{
    let [first, ..] = name else {
        return None;
    };
    match *first {
        b'a' if same(name, b"advertise") => Some(Keyword::Advertise),
        b'd' if same(name, b"decide") => Some(Keyword::Decide),
        b'h' if same(name, b"handle") => Some(Keyword::Handle),
        b'o' if same(name, b"originate") => Some(Keyword::Originate),
        b'o' if same(name, b"offer") => Some(Keyword::Offer),
        b'p' if same(name, b"put") => Some(Keyword::Put),
        b'r' if same(name, b"reset") => Some(Keyword::Reset),
        b'r' if same(name, b"restart") => Some(Keyword::Restart),
        b'r' if same(name, b"rounds") => Some(Keyword::Rounds),
        b's' if same(name, b"start") => Some(Keyword::Start),
        b's' if same(name, b"stop") => Some(Keyword::Stop),
        b's' if same(name, b"snapshot") => Some(Keyword::Snapshot),
        b't' if same(name, b"tick") => Some(Keyword::Tick),
        b't' if same(name, b"take") => Some(Keyword::Take),
        b't' if same(name, b"ticks") => Some(Keyword::Ticks),
        b'w' if same(name, b"withdraw") => Some(Keyword::Withdraw),
        _ => None,
    }
}
