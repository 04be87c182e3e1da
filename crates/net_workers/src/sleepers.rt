//! Which workers sleep, and who wakes them.
//!
//! A worker is awake as it begins. If a Turn did nothing, it is drowsy. If the next Turn did nothing either, it falls
//! asleep, until one of these comes:
//! - a peer has put an item towards it, or has taken one of a pipe for whose room it waits
//! - a worker has ended
//! - all workers sleep: then each that has a chore before it which is no Turn goes on, through its Turns to that chore;
//!   if none has one nothing is to come, and all go on to their last chore
//! - another worker did something behind as many chores as stand in front of that chore
//! - no worker did anything for a second: from then on none sleeps
//!
//! No clause says that one of these comes, or when: a worker that sleeps does nothing, and what it does later is what its
//! chores say. What a state may lead to, and that a worker counts before it is awake, is said in `bed.rt`; naps are
//! finitely many, since each loop here has a bound.

ghost use Rattle.std.specs.Prelude.{◌≡◌, ◌≢◌, ◌≤◌, ◌<◌, ◌+◌};
ghost use Rattle.net_workers.specs.declared.sleepers.bed.TheConstants.{NEVER};

mod bed;

use bed::{Bed, Count, NEVER, One, Rest};
use crossbeam_utils::{Backoff, CachePadded};
use ranked_policy::{Asn, Network};
use std::alloc::{AllocError, Global};
use std::sync::Wait;
use std::sync::atomic::{AtomicIn, Ordering, Rule};
use std::thread;
use std::time::Duration;
use worker_loop::{Between, WorkerEvent};
use world_core::Event;

// What workers do that find no work.
#[derive(Clone, Copy, PartialEq, Eq)]
enum Mode {
    // They sleep.
    Resting,
    // They yield, since it was not worth waiting.
    Hurried,
    // They go on, since nothing is to come.
    Over,
}

impl Mode {
    // The number that stands for it in a word.
    fn code(self) -> u64
        ensures { result < 3 }
    {
        match self {
            Mode::Resting => 0,
            Mode::Hurried => 1,
            Mode::Over => 2,
        }
    }
}

// A word that has the number of a mode.
struct ModeWord;

impl Rule for ModeWord {
    ghost invariant = { λ n. n < 3 };
}

// How often a worker that fell asleep looks whether it was woken, before its first nap. It takes some microseconds, in
// which it does not leave its processor.
const LOOKS: u32 = 7;

// How long a nap is, in milliseconds, and how many are taken while no worker does anything.
const NAP: u64 = 4;

const NAPS: u32 = 250;

// How many chores stand in front of the next that is no Turn, if one comes.
fn due_of(between: &Between<'_>) -> u64
    ensures turns { result ≢ NEVER → result ≡ between.now.given + between.now.turns }
    ensures most { result ≢ NEVER → result < between.now.most }
    ensures never { result ≡ NEVER → between.now.most ≤ between.now.given + between.now.turns }
{
    let due = u64::from(between.given) + u64::from(between.turns);
    if due < u64::from(between.most) {
        due
    } else {
        NEVER
    }
}

fn yield_where(idle: bool) {
    if idle {
        thread::yield_now();
    }
}

/// The workers of a network, and which of them sleep.
#[derive(Drop)]
pub struct Sleepers {
    // The numbers of the routers, rising, and what others know of their workers.
    routers: Vec<Asn>,
    beds: Vec<CachePadded<Bed>>,
    // How many workers have not ended and do not sleep.
    awake: Count,
    mode: AtomicIn<ModeWord>,
}

impl Sleepers {
    /// The workers of a network, each awake.
    pub fn new(alloc: Global, network: &Network) -> Result<Sleepers, AllocError> {
        let mut routers = Vec::new(alloc);
        let mut beds = Vec::new(alloc);
        for router in network.routers() {
            routers.push(router.asn)?;
            beds.push(CachePadded::new(Bed::new()))?;
        }
        let awake = Count::new(beds.len() as u64);
        Ok(Sleepers {
            routers,
            beds,
            awake,
            mode: AtomicIn::new(Mode::Resting.code()),
        })
    }

    fn bed(&self, router: Asn) -> Option<&Bed> {
        let place = self.routers.as_slice().binary_search(&router).ok()?;
        let bed = self.beds.as_slice().get(place)?;
        Some(bed)
    }

    fn mode(&self) -> Mode {
        match self.mode.load(Ordering::SeqCst) {
            0 => Mode::Resting,
            1 => Mode::Hurried,
            _ => Mode::Over,
        }
    }

    /// Whether workers still sleep if they find no work.
    pub fn is_at_rest(&self) -> bool {
        self.mode() == Mode::Resting
    }

    /// Whether a router's worker sleeps.
    pub fn sleeps(&self, router: Asn) -> bool {
        match self.bed(router) {
            Some(bed) => bed.rest() == Rest::Asleep,
            None => false,
        }
    }

    // Makes a worker awake, whatever it does. It counts the worker before, and takes it off the count again if it did not
    // sleep: the count is never less than the number of those that are awake.
    fn wake(&self, bed: &Bed) {
        if let Some(one) = bed.wake(self.awake.more()) {
            self.awake.less(one);
        }
    }

    // Lets a worker that sleeps go on to what is due, and answers whether it slept. It counts as `wake` does.
    fn let_go(&self, bed: &Bed) -> bool {
        match bed.let_go(self.awake.more()) {
            Some(one) => {
                self.awake.less(one);
                false
            }
            None => true,
        }
    }

    // Lets all workers go on for which something is due, and answers whether there was any.
    fn let_go_to_due(&self) -> bool {
        let mut any = false;
        for bed in self.beds.as_slice() {
            if bed.due.load(Ordering::SeqCst) != NEVER && self.let_go(bed) {
                any = true;
            }
        }
        any
    }

    // From here on no worker sleeps.
    fn end_rest(&self, mode: Mode) {
        self.mode.store(mode.code(), Ordering::SeqCst);
        for bed in self.beds.as_slice() {
            self.let_go(bed);
        }
    }

    // Takes a worker off the count of those awake. The last one lets others go on; it counts while it does, so that no
    // other worker does so meanwhile. If nothing is due, it stays counted: from then on no worker sleeps.
    fn one_less(&self, one: One) {
        let mut own = one;
        for _ in 0..u32::MAX {
            if !self.awake.less(own) {
                return;
            }
            own = self.awake.more();
            if !self.let_go_to_due() {
                self.end_rest(Mode::Over);
                break;
            }
        }
        own.stay();
    }

    // Wakes the worker that an event may have given work: an item was put towards it, or it has room for one.
    fn wake_for(&self, event: &Event) {
        let (router, is_put) = match *event {
            Event::Put(_, peer) => (peer, true),
            Event::Take(_, peer) => (peer, false),
            Event::Command(_, _)
            | Event::Tick(_)
            | Event::Handle(_, _)
            | Event::Decide(_)
            | Event::Advertise(_)
            | Event::Offer(_) => return,
        };
        let Some(bed) = self.bed(router) else {
            return;
        };
        if bed.rest() == Rest::Awake {
            return;
        }
        if is_put || bed.is_blocked.load(Ordering::SeqCst) {
            self.wake(bed);
        }
    }

    // The chores given to all workers, each as it last did something.
    fn given_in_all(&self) -> u64 {
        let mut all = 0u64;
        for bed in self.beds.as_slice() {
            all = all.wrapping_add(bed.given.load(Ordering::SeqCst));
        }
        all
    }

    // Whether a worker did something behind as many chores.
    fn is_passed(&self, due: u64) -> bool {
        let mut beds = self.beds.iter();
        due != NEVER && beds.any(|bed| bed.given.load(Ordering::SeqCst) >= due)
    }

    // Whether a worker that fell asleep sleeps on.
    fn is_asleep(&self, bed: &Bed) -> bool {
        bed.rest() == Rest::Asleep && self.is_at_rest()
    }

    // Naps until it is woken, or another worker has done something between two naps, and answers whether it sleeps on.
    // If no worker does anything, it ends the rest of all.
    fn naps<R: Wait>(&self, rt: &R, bed: &Bed, due: u64) -> bool {
        let mut before = NEVER;
        for _ in 0..NAPS {
            if !self.is_asleep(bed) || self.is_passed(due) {
                return false;
            }
            bed.parker.park_timeout(rt, Duration::from_millis(NAP));
            if !self.is_asleep(bed) {
                return false;
            }
            let given = self.given_in_all();
            if before != NEVER && given != before {
                return true;
            }
            before = given;
        }
        self.end_rest(Mode::Hurried);
        false
    }

    fn sleep<R: Wait>(&self, rt: &R, bed: &Bed, due: u64) {
        let backoff = Backoff::new();
        for _ in 0..LOOKS {
            if !self.is_asleep(bed) {
                return;
            }
            backoff.snooze();
        }
        for _ in 0..u32::MAX {
            if !self.naps(rt, bed, due) {
                return;
            }
        }
    }

    // A drowsy worker falls asleep, unless it was woken meanwhile, and is awake again as the call returns.
    fn fall_asleep<R: Wait>(&self, rt: &R, bed: &Bed, due: u64) {
        bed.due.store(due, Ordering::SeqCst);
        if let Some(own) = bed.fall_asleep() {
            self.one_less(own);
            self.sleep(rt, bed, due);
            self.let_go(bed);
        }
    }

    // Takes note of a Turn that did nothing, with Turns next. Answers whether the worker goes on to what is due.
    fn rest<R: Wait>(&self, rt: &R, bed: &Bed, between: &Between<'_>) -> bool {
        match bed.rest() {
            Rest::Awake => {
                bed.is_blocked.store(between.is_blocked, Ordering::SeqCst);
                bed.nod();
                false
            }
            Rest::Drowsy => {
                self.fall_asleep(rt, bed, due_of(between));
                bed.rest() == Rest::Going
            }
            Rest::Asleep | Rest::Going => true,
        }
    }

    // Takes note that the worker did something, or that the next chore may be no Turn.
    fn go_on(&self, bed: &Bed, between: &Between<'_>) {
        bed.given.store(u64::from(between.given), Ordering::SeqCst);
        if bed.rest() != Rest::Awake {
            bed.go_on();
        }
        yield_where(between.done.is_empty());
    }

    /// Is called between two chores of a worker. It wakes those to whom the last chore may have given work. It waits if
    /// that chore did nothing and Turns are next. Answers whether nothing comes before the worker's next chore that is no
    /// Turn: the worker was let go to that chore, or nothing is to come at all.
    pub fn pause<R: Wait>(&self, rt: &R, between: &Between<'_>) -> bool {
        match self.mode() {
            Mode::Resting => {}
            Mode::Hurried => {
                yield_where(between.done.is_empty());
                return false;
            }
            Mode::Over => return true,
        }
        for entry in between.done {
            self.wake_for(&entry.event);
        }
        let Some(bed) = self.bed(between.router) else {
            return false;
        };
        if between.turns > 0 {
            return self.rest(rt, bed, between);
        }
        self.go_on(bed, between);
        false
    }

    /// Takes note that a worker has ended: it wakes the others, and is awake no longer.
    pub fn leave(&self) {
        if !self.is_at_rest() {
            return;
        }
        for bed in self.beds.as_slice() {
            if bed.rest() != Rest::Awake {
                self.wake(bed);
            }
        }
        self.one_less(One::ended());
    }
}
