//! Laws of the definitions of texts. Each function here has an empty body; its contract is the law.

ghost use Rattle.net_text.specs.Declaring.{NetworksHaveWhatIsNamed};
ghost use Rattle.net_text.specs.Layout.{WordsStandBetweenBlanks, LinesEndByLineFeeds};
ghost use Rattle.net_text.specs.Laws.{FirstFaultDecidesNetworks, FirstFaultDecidesAssignments, OneNetwork, SettingsAreNamed, HoldTimesFit, SpeltIsNotRefused, OneRefusal};
ghost use Rattle.std.specs.Prelude.{◌≡◌};
ghost use Rattle.net_text.specs.declared.settings.TheConstants.{MOST_SECONDS, USUAL_HOLD, USUAL_RESTART, USUAL_PIPE};

/// A network text is refused at a line exactly where that line has the fault and no line before it has one.
pub fn first_fault_decides_networks()
    ensures { FirstFaultDecidesNetworks }
{}

/// An assignment text is refused at a line exactly where that line has the fault and no line before it has one.
pub fn first_fault_decides_assignments()
    ensures { FirstFaultDecidesAssignments }
{}

/// The words of a line are those that stand between its blanks, in their order, and no others.
pub fn words_stand_between_blanks()
    ensures { WordsStandBetweenBlanks }
{}

/// A line goes up to an LF, without one CR before it; a last line needs no LF.
pub fn lines_end_by_line_feeds()
    ensures { LinesEndByLineFeeds }
{}

/// The network that a text spells has the routers, the links and the origins that its lines name, and no others.
pub fn networks_have_what_is_named()
    ensures { NetworksHaveWhatIsNamed }
{}

/// A network text spells one network at most.
pub fn texts_spell_one_network()
    ensures { OneNetwork }
{}

/// The settings of a network that a text spells are those that its lines name, and the usual ones where
/// none does; its hold time has two octets.
pub fn spelt_settings()
    ensures named { SettingsAreNamed }
    ensures hold { HoldTimesFit }
{}

/// A network text that spells a network is refused only for want of memory.
pub fn what_is_spelt_is_not_refused()
    ensures { SpeltIsNotRefused }
{}

/// A network text is refused at one line and with one code, want of memory aside.
pub fn texts_are_refused_once()
    ensures { OneRefusal }
{}

/// What settings are where no line names them, in seconds and items, and the greatest number of seconds of one that is
/// named. A usual piece has [`ranked_policy::GREATEST_CUT`] octets.
pub fn constants_are_these()
    ensures usual { (USUAL_HOLD ≡ 90) × (USUAL_RESTART ≡ 0) × (USUAL_PIPE ≡ 64) }
    ensures most { MOST_SECONDS ≡ 65535 }
{}
