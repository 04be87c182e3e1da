//! The lines of settings: what every router of a network is told.

ghost use Rattle.std.specs.Prelude.{◌≡◌, IsTrue, true};
ghost use Rattle.ranked_policy.specs.Plans.{IsSettings};
ghost use Rattle.net_text.specs.Lexing.{lines_of, words_of};
ghost use Rattle.net_text.specs.Words.{number_word};
ghost use Rattle.net_text.specs.Lines.{setting_of, in_range, set_to, was_named, naming, width_named, told, settings_of};

use crate::code::Code;
use crate::lexing::{next_line, next_word, same};
use crate::words::number_of;
use bgp_values::{Width, is_hold_time};
use ranked_policy::{GREATEST_CUT, GREATEST_PIPE, Settings};

/// The greatest hold time, and the greatest wait before a session starts again, in seconds: an OPEN has two
/// octets for the first (RFC 4271 section 4.2).
pub(crate) const MOST_SECONDS: u16 = 65_535;

/// The hold time where no line names one, in seconds (RFC 4271 section 10).
pub(crate) const USUAL_HOLD: u16 = 90;

/// The seconds before a session starts again where no line names them.
pub(crate) const USUAL_RESTART: u16 = 0;

/// The items of a pipe where no line names them.
pub(crate) const USUAL_PIPE: usize = 64;

/// What a line may set.
#[derive(Clone, Copy, PartialEq, Eq)]
pub(crate) enum Setting {
    /// The hold time, in seconds.
    Hold,
    /// The seconds until a session starts again.
    Restart,
    /// The octets of a piece.
    Cut,
    /// The items of a pipe.
    Pipe,
    /// The octets of an AS number.
    Octets,
}

/// Which settings lines have named.
#[derive(Clone, Copy, PartialEq, Eq)]
pub(crate) struct Named {
    /// The hold time.
    pub(crate) hold: bool,
    /// The seconds until a session starts again.
    pub(crate) restart: bool,
    /// The octets of a piece.
    pub(crate) cut: bool,
    /// The items of a pipe.
    pub(crate) pipe: bool,
    /// The octets of an AS number.
    pub(crate) octets: bool,
}

// The setting that a first word names.
pub(crate) fn setting_of(word: &[u8]) -> Option<Setting>
    ensures { result ≡ setting_of word.now }
{
    if same(word, b"hold") {
        Some(Setting::Hold)
    } else if same(word, b"restart") {
        Some(Setting::Restart)
    } else if same(word, b"cut") {
        Some(Setting::Cut)
    } else if same(word, b"pipe") {
        Some(Setting::Pipe)
    } else if same(word, b"asn") {
        Some(Setting::Octets)
    } else {
        None
    }
}

// Whether the setting can have this value (for the hold time RFC 4271 section 4.2).
fn in_range(setting: Setting, number: u64) -> bool
    ensures { result ≡ in_range setting number }
{
    match setting {
        Setting::Hold => number <= u64::from(MOST_SECONDS) && is_hold_time(number as u16),
        Setting::Restart => number <= u64::from(MOST_SECONDS),
        Setting::Cut => 1 <= number && number <= GREATEST_CUT as u64,
        Setting::Pipe => 1 <= number && number <= GREATEST_PIPE as u64,
        Setting::Octets => number == 4,
    }
}

// Judges the word that a setting is set to.
pub(crate) fn judge_setting(setting: Setting, word: &[u8]) -> Result<u64, Code>
    ensures { result ≡ number_word (in_range setting) word.now }
{
    let Some(number) = number_of(word) else {
        return Err(Code::Unreadable);
    };
    if !in_range(setting, number) {
        return Err(Code::OutOfLimit);
    }
    Ok(number)
}

pub(crate) fn was_named(setting: Setting, named: Named) -> bool
    ensures { result ≡ was_named setting named }
{
    match setting {
        Setting::Hold => named.hold,
        Setting::Restart => named.restart,
        Setting::Cut => named.cut,
        Setting::Pipe => named.pipe,
        Setting::Octets => named.octets,
    }
}

pub(crate) fn naming(setting: Setting, named: Named) -> Named
    ensures { result ≡ naming setting named }
{
    match setting {
        Setting::Hold => Named {
            hold: true,
            ..named
        },
        Setting::Restart => Named {
            restart: true,
            ..named
        },
        Setting::Cut => Named { cut: true, ..named },
        Setting::Pipe => Named {
            pipe: true,
            ..named
        },
        Setting::Octets => Named {
            octets: true,
            ..named
        },
    }
}

// How many octets AS numbers have by the settings that lines have named: two until a line says four.
pub(crate) fn width_named(named: Named) -> Width
    ensures { result ≡ width_named named }
{
    if named.octets {
        Width::Four
    } else {
        Width::Two
    }
}

fn set_to(setting: Setting, number: u64, settings: Settings) -> Settings
    requires { in_range setting number ≡ true }
    ensures value { result ≡ set_to setting number settings }
    ensures range { IsSettings settings → IsSettings result }
{
    let mut settings = settings;
    match setting {
        Setting::Hold => settings.hold = number as u16,
        Setting::Restart => settings.restart = number as u16,
        Setting::Cut => settings.cut = number as usize,
        Setting::Pipe => settings.pipe = number as usize,
        Setting::Octets => settings.width = Width::Four,
    }
    settings
}

// The settings as a line leaves them.
fn set_by(line: &[u8], settings: Settings) -> Settings
    ensures value { result ≡ told (words_of line.now) settings }
    ensures range { IsSettings settings → IsSettings result }
{
    let Some((name, words)) = next_word(line) else {
        return settings;
    };
    let Some((word, words)) = next_word(words) else {
        return settings;
    };
    if let Some(_) = next_word(words) {
        return settings;
    }
    let Some(setting) = setting_of(name) else {
        return settings;
    };
    match judge_setting(setting, word) {
        Ok(number) => set_to(setting, number, settings),
        Err(_) => settings,
    }
}

// The settings that the lines of a text name, and the usual ones where none does.
pub(crate) fn settings_of(text: &[u8]) -> Settings
    ensures value { result ≡ settings_of (lines_of text.now) }
    ensures range { IsSettings result }
{
    let mut settings = Settings {
        hold: USUAL_HOLD,
        restart: USUAL_RESTART,
        cut: GREATEST_CUT,
        pipe: USUAL_PIPE,
        width: Width::Two,
    };
    let mut left = text;
    'lines: while !left.is_empty() {
        let (line, rest) = next_line(left);
        settings = set_by(line, settings);
        left = rest;
    }
    settings
}
