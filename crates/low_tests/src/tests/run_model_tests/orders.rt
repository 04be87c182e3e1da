//! Each law at a concrete type, and small networks of which it is known what holds.
ghost use Rattle.run_model.specs.CausalOrder.{CausalOrdersAreRuns};
ghost use Rattle.run_model.specs.ThroughCut.{RunsPassThroughCuts};
ghost use Rattle.std.specs.Prelude.{ℕ, Bool};
ghost use Rattle.low_tests.specs.Speakers.{LinkedCounterStep, Speaker, SpeakerStep, Word, CountersDoNotCommute, ForetoldIsNoRun, NotAllOffersStand, NotByRouters, NotThroughAnyCut, NotWhateverIsCollected, SpeakersPutsCommute, TiesAreNotTurned, ToldIsARun, ToldThroughTheCut, TwoJournalsGathered};

use run_model::*;

/// Routers that add up what they take, and send their totals to those that they are linked with.
pub(crate) struct Counters;

impl Routers for Counters {
    ghost Setting = { ℕ → ℕ → Bool };

    ghost State = { ℕ };

    ghost Own = { ℕ };

    ghost Item = { ℕ };

    ghost Offer = { ℕ };

    ghost step = { LinkedCounterStep };
}

/// Routers that append numbers and put them later.
struct Speakers;

impl Routers for Speakers {
    ghost Setting = { Unit {0} };

    ghost State = { Speaker };

    ghost Own = { Word };

    ghost Item = { ℕ };

    ghost Offer = { ℕ };

    ghost step = { λ setting. SpeakerStep };
}

/// Lines of journals as pairs of stamp and router.
pub(crate) struct Pairs;

impl JournalLines for Pairs {
    ghost Line = { ℕ × ℕ };

    ghost stamp = { λ l. l.0 };

    ghost router = { λ l. l.1 };
}

/// Pairs with a number beside them, of which they are the lines.
pub(crate) struct Numbered;

impl WholeLines for Numbered {
    ghost Whole = { (ℕ × ℕ) × ℕ };

    ghost Line = { ℕ × ℕ };

    ghost line = { λ w. w.0 };

    ghost stamp = { λ l. l.0 };

    ghost router = { λ l. l.1 };
}

/// The premise on puts can be met, and not by every router.
fn puts_of_speakers_commute()
    ensures speakers { SpeakersPutsCommute }
    ensures counters { CountersDoNotCommute }
{}

/// The laws at states that no type of the code has.
fn laws_of_speakers()
    ensures runs { CausalOrdersAreRuns SpeakerStep }
    ensures cuts { RunsPassThroughCuts SpeakerStep }
{
    causal_orders_are_runs::<Speakers>();
    runs_pass_through_cuts::<Speakers>();
}

/// A law at a network that is a variable.
fn law_of_linked_counters()
    ensures { (linked : ℕ → ℕ → Bool) → CausalOrdersAreRuns (LinkedCounterStep linked) }
{
    causal_orders_are_runs::<Counters>();
}

/// A small run, and its order is causal.
fn told_is_a_run()
    ensures { ToldIsARun }
{
    steps_are_takes_in_order::<Speakers>();
    runs_are_causal_orders::<Speakers>();
}

/// The order `foretold` has the same journals, and is neither causal nor a run.
fn foretold_is_no_run()
    ensures { ForetoldIsNoRun }
{
    runs_are_causal_orders::<Speakers>();
}

/// The small run through a cut: its two parts computed, and the law without consistency, which fails.
fn told_through_a_cut()
    ensures parts { ToldThroughTheCut }
    ensures any { NotThroughAnyCut }
{
    steps_are_takes_in_order::<Speakers>();
}

/// Two journals gathered; a tie turned round, which is not; and an order by router numbers, which is not causal.
fn journals_are_gathered_by_stamp_then_router()
    ensures gathered { TwoJournalsGathered }
    ensures ties { TiesAreNotTurned }
    ensures routers { NotByRouters }
{}

/// Two laws on offers without their premises, which fail.
fn offers_are_collected_in_order()
    ensures collected { NotWhateverIsCollected }
    ensures inside { NotAllOffersStand }
{}

#[test]
fn examples_and_wrong_twins_hold() {
    puts_of_speakers_commute();
    laws_of_speakers();
    law_of_linked_counters();
    told_is_a_run();
    foretold_is_no_run();
    told_through_a_cut();
    journals_are_gathered_by_stamp_then_router();
    offers_are_collected_in_order();
}
