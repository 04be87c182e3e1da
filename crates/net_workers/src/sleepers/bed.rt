//! What others know of a worker that may sleep, and how many workers count as awake.

ghost use Rattle.std.specs.Prelude.{◌≡◌, ◌<◌};
ghost use Rattle.net_workers.specs.Sleeping.{code_of, MayBecome};

use crossbeam_utils::CachePadded;
use std::sync::atomic::{AtomicBool, AtomicIn, AtomicU64, Ordering, Rule};
use std::thread::Parker;

/// The due place of a worker for which nothing is due: its chores are Turns up to its last.
pub(super) const NEVER: u64 = u64::MAX;

/// What a worker does, as others see it.
#[derive(Clone, Copy, PartialEq, Eq)]
pub(super) enum Rest {
    /// It has work.
    Awake,
    /// It found none, and looks once more.
    Drowsy,
    /// It sleeps.
    Asleep,
    /// It goes on to what is due.
    Going,
}

impl Rest {
    // The number that stands for it in a word.
    fn code(self) -> u64
        ensures code { result ≡ code_of self }
        ensures few { result < 4 }
    {
        match self {
            Rest::Awake => 0,
            Rest::Drowsy => 1,
            Rest::Asleep => 2,
            Rest::Going => 3,
        }
    }
}

// What a number stands for.
fn rest_of(code: u64) -> Rest
    requires { code < 4 }
    ensures { code_of result ≡ code }
{
    match code {
        0 => Rest::Awake,
        1 => Rest::Drowsy,
        2 => Rest::Asleep,
        _ => Rest::Going,
    }
}

// A word that has the number of what a worker does.
struct RestWord;

impl Rule for RestWord {
    ghost invariant = { λ n. n < 4 };
}

/// One of the workers that count as awake. It is never copied or dropped. A worker that does not sleep has one: its own
/// comes out as it falls asleep, and who wakes it brings one along, so that it counts before it is awake.
pub(super) struct One;

impl One {
    /// That of a worker that has ended.
    pub fn ended() -> One {
        One
    }

    /// Stays counted.
    pub fn stay(self) {
        let One = self;
    }
}

/// How many workers count as awake.
#[derive(Drop)]
pub(super) struct Count {
    awake: CachePadded<AtomicU64>,
}

impl Count {
    /// So many.
    pub fn new(workers: u64) -> Count {
        Count {
            awake: CachePadded::new(AtomicU64::new(workers)),
        }
    }

    /// Counts one more.
    pub fn more(&self) -> One {
        self.awake.fetch_add(1, Ordering::SeqCst);
        One
    }

    /// Counts one less, and answers whether it was the last.
    pub fn less(&self, one: One) -> bool {
        let One = one;
        self.awake.fetch_sub(1, Ordering::SeqCst) == 1
    }
}

/// What others know of a worker. What it writes for each chore stands on cache lines of its own, since peers read the
/// rest.
#[derive(Drop)]
pub(super) struct Bed {
    rest: AtomicIn<RestWord>,
    /// Whether it waited for room in a pipe as it fell asleep.
    pub is_blocked: AtomicBool,
    /// How many chores stood in front of its next that is no Turn, as it fell asleep.
    pub due: AtomicU64,
    pub parker: Parker,
    /// How many chores it was given as it last did something.
    pub given: CachePadded<AtomicU64>,
}

impl Bed {
    /// That of a worker that is awake.
    pub fn new() -> Bed {
        Bed {
            rest: AtomicIn::new(Rest::Awake.code()),
            is_blocked: AtomicBool::new(false),
            due: AtomicU64::new(NEVER),
            parker: Parker::new(),
            given: CachePadded::new(AtomicU64::new(0)),
        }
    }

    /// What its worker does.
    pub fn rest(&self) -> Rest {
        rest_of(self.rest.load(Ordering::SeqCst))
    }

    // Lets its worker do one thing in place of another, if it does that, and answers whether it did.
    fn change(&self, from: Rest, to: Rest) -> bool
        requires { MayBecome from to }
    {
        let (from, to) = (from.code(), to.code());
        let was = self
            .rest
            .compare_exchange(from, to, Ordering::SeqCst, Ordering::SeqCst);
        was.is_ok()
    }

    /// Makes its worker drowsy, if it is awake.
    pub fn nod(&self) {
        self.change(Rest::Awake, Rest::Drowsy);
    }

    /// Lets its worker fall asleep, if it is drowsy. It counts no longer then: its own comes out.
    pub fn fall_asleep(&self) -> Option<One> {
        if self.change(Rest::Drowsy, Rest::Asleep) {
            Some(One)
        } else {
            None
        }
    }

    /// Makes its worker awake, which has work. The worker itself asks for it, so it does not sleep.
    pub fn go_on(&self) {
        self.rest.store(Rest::Awake.code(), Ordering::SeqCst);
    }

    /// Makes its worker awake, whatever it does. What counts for it comes back if it did not sleep.
    pub fn wake(&self, one: One) -> Option<One> {
        let was = self.rest.swap(Rest::Awake.code(), Ordering::SeqCst);
        self.handed_over(one, rest_of(was) == Rest::Asleep)
    }

    /// Lets its worker go on to what is due, if it sleeps. Else what counts for it comes back.
    pub fn let_go(&self, one: One) -> Option<One> {
        let slept = self.change(Rest::Asleep, Rest::Going);
        self.handed_over(one, slept)
    }

    // Hands one over to its worker, which slept; or gives it back.
    fn handed_over(&self, one: One, slept: bool) -> Option<One> {
        if slept {
            one.stay();
            self.parker.unpark();
            return None;
        }
        Some(one)
    }
}
