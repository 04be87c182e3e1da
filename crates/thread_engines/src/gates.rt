//! The gate of a router of `bgpnet run` and `bgpnet record`.

ghost use Rattle.std.specs.Prelude.{◌≡◌, ℕ, ◌+◌, ◌-◌, ◌/◌, ◌<◌, ◌≤◌, [], true};
ghost use Rattle.worker_loop.specs.declared.chore.Chore.TheVariants.{Turn};
ghost use Rattle.thread_engines.specs.Gates.{AreChores, HasTakenAll, asked_of, chore_at, later_chore, given_by, script_of, taken_by};

use net_workers::{Chore, Gate};
use router_model::Command;
use std::sync::Wait;

/// Until when a router takes the snapshots that it is asked for.
#[derive(Clone, Copy, Debug, PartialEq, Eq)]
pub enum Until {
    /// Until the last.
    Last,
    /// Until its desk says that one has settled, or else until the last.
    OneSettled,
}

/// A gate that gives the chores of an opening and then Turns. Each `spacing` chores behind the opening, it gives the
/// snapshot of the next number instead, from 1 to the last. If these are taken until one has settled, it gives Turns alone
/// once it is told so.
#[derive(Drop)]
pub struct RunGate {
    opening: Vec<Chore>,
    spacing: u32,
    snapshots: u32,
    until: Until,
    // No snapshot above it is taken, if one has settled.
    last: u32,
    count: u64,
}

impl RunGate {
    /// A gate that has given nothing yet: with the chores of its opening, the number of chores from each snapshot to
    /// the next, the number of the last snapshot, 0 for none, and until when they are taken. It takes no memory.
    pub fn new(opening: Vec<Chore>, spacing: u32, snapshots: u32, until: Until) -> RunGate
        requires { 0 < spacing }
        ensures nothing { given_by result ≡ [] }
        ensures asked { asked_of result ≡ record {
          script = record { opening = opening.items; spacing = spacing; snapshots = snapshots };
          until = until;
        } }
        ensures script { script_of result
            ≡ record { opening = opening.items; spacing = spacing; snapshots = snapshots } }
        ensures chores { AreChores (script_of result) (chore_at (script_of result)) }
    {
        RunGate {
            opening,
            spacing,
            snapshots,
            until,
            last: snapshots,
            count: 0,
        }
    }

    // The number of the last snapshot that it gives, by what it was told.
    fn taken(&self) -> u32
        ensures { result ≡ taken_by self.now }
    {
        match self.until {
            Until::Last => self.snapshots,
            Until::OneSettled => self.snapshots.min(self.last),
        }
    }

    /// Whether each snapshot that it was asked for is given in its turn: none is left out for one that has settled.
    pub fn has_taken_all(&self) -> bool
        ensures { result ≡ true → HasTakenAll self.now }
    {
        self.taken() == self.snapshots
    }
}

// The chore that stands so far behind the opening.
fn later_chore(spacing: u32, snapshots: u32, behind: u32) -> Chore
    ensures { result ≡ later_chore spacing snapshots behind }
{
    if spacing == 0 || behind % spacing != 0 {
        return Chore::Turn;
    }
    let number = behind / spacing;
    if number == 0 || snapshots < number {
        Chore::Turn
    } else {
        Chore::Command(Command::Snapshot(number))
    }
}

// The chore of a turn.
fn chore_at(opening: &[Chore], spacing: u32, snapshots: u32, turn: u32) -> Chore
    ensures { result ≡ chore_at (record { opening = opening.now; spacing = spacing; snapshots = snapshots }) turn }
{
    let at = turn as usize;
    if at < opening.len() {
        opening[at]
    } else {
        later_chore(spacing, snapshots, (at - opening.len()) as u32)
    }
}

// At least how many chores from so far behind the opening on are Turns: all up to the next snapshot, if one comes.
fn turns_from(spacing: u32, snapshots: u32, behind: u32) -> u32
    ensures { (i : ℕ) → i < result → later_chore spacing snapshots (behind + i) ≡ Turn }
{
    if spacing == 0 {
        return u32::MAX;
    }
    if !later_chore(spacing, snapshots, behind).is_turn() {
        return 0;
    }
    let number = behind / spacing;
    if number >= snapshots {
        return u32::MAX;
    }
    spacing - behind % spacing
}

// The greatest number that a snapshot before a turn can have. An opening has so many chores.
fn greatest_before(opening: usize, spacing: u32, turn: u32) -> u32
    ensures { (i : ℕ) → i < turn → opening ≤ i → 0 < spacing → (i - opening) / spacing ≤ result }
{
    let at = turn as usize;
    if spacing == 0 || at <= opening {
        return 0;
    }
    (at - opening - 1) as u32 / spacing
}

impl Gate for RunGate {
    ghost use Rattle.thread_engines.specs.Gates.{Asked};

    ghost Script = { Asked };

    ghost script = { asked_of };

    ghost given = { given_by };

    fn next<R: Wait>(&mut self, _rt: &R, turn: u32) -> Chore {
        self.count = u64::from(turn) + 1;
        chore_at(self.opening.as_slice(), self.spacing, self.taken(), turn)
    }

    fn on_settled(&mut self, turn: u32) {
        let last = greatest_before(self.opening.len(), self.spacing, turn);
        if last < self.last {
            self.last = last;
        }
    }

    fn next_turns(&mut self, turn: u32, most: u32) -> u32 {
        let given = most.min(self.turns_from(turn));
        self.count = u64::from(turn) + u64::from(given);
        given
    }

    fn turns_from(&self, turn: u32) -> u32
        ensures { (i : ℕ) → i < result → chore_at (script_of self.now) (turn + i) ≡ Turn }
    {
        let at = turn as usize;
        let opening = self.opening.len();
        if at < opening {
            return 0;
        }
        turns_from(self.spacing, self.taken(), (at - opening) as u32)
    }
}
