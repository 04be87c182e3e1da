//! Makes the same random calls on the tables and on plain lists.

use super::lists::Lists;
use super::*;

const STEPS: u32 = 1500;

const ROUTER: Asn = 4;

/// 10.0.0.0/8; its origin is 5.
const EIGHT: At = (0x0a00_0000, 8);

/// A ring with a chord, prefixes of three origins, and a rule that ranks two paths for one of them.
static MESH: Plan = Plan {
    routers: 5,
    links: &[(1, 2), (2, 4), (4, 3), (3, 1), (4, 5), (5, 1)],
    origins: &[(4, FAR), (1, LONG), (1, SHORT), (5, EIGHT)],
    rules: &[(ROUTER, LONG, &[&[4, 3, 1], &[4, 2, 1]])],
};

/// What is asked of; nobody originates the last.
static PREFIXES: [At; 5] = [EIGHT, SHORT, LONG, FAR, STRAY];

/// What is told.
static TOLD: [At; 3] = [SHORT, LONG, FAR];

struct Peer {
    asn: Asn,
    /// Its AS_PATHs: mostly one AS_SEQUENCE, some of them long or through the router itself.
    along: &'static [Along<'static>],
}

#[rattlefmt::skip]
static PEERS: [Peer; 3] = [
    Peer { asn: 2, along: &[
        Along::Nothing, Along::Set(&[2, 1]), Along::Two(&[2], &[1]), Along::Path(&[2, 4, 1]),
        Along::Path(&[2, 9, 8, 7, 6, 10, 11, 12, 1]), Along::Path(&[2, 9, 1]), Along::Path(&[5]),
        Along::Path(&[2, 1]), Along::Path(&[2, 1]), Along::Path(&[2, 1]),
    ] },
    Peer { asn: 3, along: &[
        Along::Nothing, Along::Set(&[3, 1]), Along::Two(&[3], &[1]), Along::Path(&[3, 4, 1]),
        Along::Path(&[3, 9, 8, 7, 6, 10, 11, 12, 1]), Along::Path(&[3, 9, 1]), Along::Path(&[5]),
        Along::Path(&[3, 1]), Along::Path(&[3, 1]), Along::Path(&[3, 1]),
    ] },
    Peer { asn: 5, along: &[
        Along::Nothing, Along::Set(&[5, 1]), Along::Two(&[5], &[1]), Along::Path(&[5, 4, 1]),
        Along::Path(&[5, 9, 8, 7, 6, 10, 11, 12, 1]), Along::Path(&[5, 9, 1]), Along::Path(&[5]),
        Along::Path(&[5, 1]), Along::Path(&[5, 1]), Along::Path(&[5, 1]),
    ] },
];

// Numbers that look random, from a seed (Knuth's MMIX generator).
#[derive(Drop)]
struct Dice {
    state: u64,
}

impl Dice {
    // A number below `sides`.
    fn roll(&mut self, sides: u32) -> u32 {
        self.state = self
            .state
            .wrapping_mul(6364136223846793005)
            .wrapping_add(1442695040888963407);
        u32::try_from(self.state >> 33)
            .unwrap_or(0)
            .checked_rem(sides)
            .unwrap_or(0)
    }
}

// Some of the prefixes.
fn some_of(alloc: Global, dice: &mut Dice) -> Result<Vec<At>, AllocError> {
    let mut some = Vec::new(alloc);
    for at in &PREFIXES {
        if dice.roll(3) == 0 {
            some.push(*at)?;
        }
    }
    Ok(some)
}

// Does it on both, and whether both did. It ensures nothing, so that one call is not carried along to the next.
fn both(alloc: Global, rib: &mut Rib, lists: &mut Lists, row: &Row) -> bool {
    is_so(alloc, rib, row) && lists.does(row).is_ok()
}

fn both_hear(
    alloc: Global,
    rib: &mut Rib,
    lists: &mut Lists,
    peer: Asn,
    along: &Along,
    nlri: &[At],
    withdrawn: &[At],
) -> bool {
    says(rib, peer, false, updates(alloc, along, nlri, withdrawn))
        && lists.hear_all(peer, along, nlri, withdrawn).is_ok()
}

// A peer withdraws some prefixes and announces some on both.
fn both_hear_some(
    alloc: Global,
    dice: &mut Dice,
    rib: &mut Rib,
    lists: &mut Lists,
    peer: &Peer,
) -> Result<bool, AllocError> {
    let withdrawn = some_of(alloc, dice)?;
    let along = peer.along.get(dice.roll(10) as usize).ok_or(AllocError)?;
    let nlri = some_of(alloc, dice)?;
    Ok(both_hear(alloc, rib, lists, peer.asn, along, &nlri, &withdrawn))
}

// One random call on both; none where there is no such peer or prefix, or no memory.
fn step(alloc: Global, dice: &mut Dice, rib: &mut Rib, lists: &mut Lists) -> Option<bool> {
    let peer = PEERS.get(dice.roll(3) as usize)?;
    let at = *TOLD.get(dice.roll(3) as usize)?;
    let row = match dice.roll(40) {
        0..=13 => return both_hear_some(alloc, dice, rib, lists, peer).ok(),
        14..=21 => Row::At(at, Of::Tells(peer.asn)),
        22..=24 => Row::ComesUp(peer.asn),
        25 | 26 => Row::Forgets(peer.asn),
        27 | 28 => Row::At(FAR, Of::Originates),
        29 => Row::At(FAR, Of::Withdraws),
        30 => Row::Clears,
        _ => Row::Decides(lists.dirty().ok()?),
    };
    Some(both(alloc, rib, lists, &row))
}

// Both say the same of a peer and a prefix.
fn same_words(rt: &impl Abort, alloc: Global, rib: &mut Rib, lists: &Lists, peer: Asn, at: At) {
    if at == STRAY {
        assert!(rt; is_so(alloc, rib, &Row::At(at, Of::Unheard(peer))));
        return;
    }
    let heard = Of::Heard(peer, lists.heard(peer, at));
    let sent = Of::Sent(peer, lists.sent(peer, at));
    let other = is_so(alloc, rib, &Row::At(at, Of::HeardOther(peer)));
    assert!(rt; is_so(alloc, rib, &Row::At(at, heard)));
    assert!(rt; other == lists.has_heard_other(peer, at));
    assert!(rt; is_so(alloc, rib, &Row::At(at, sent)));
}

// Both say the same of a prefix.
fn same_of_prefix(rt: &impl Abort, alloc: Global, rib: &mut Rib, lists: &Lists, at: At) {
    let originated = Of::Originated(lists.is_originated(at));
    assert!(rt; is_so(alloc, rib, &Row::At(at, Of::Kept(lists.path(at)))));
    assert!(rt; is_so(alloc, rib, &Row::At(at, originated)));
    assert!(rt; at == STRAY || same_best(alloc, rib, lists, at));
    for peer in &PEERS {
        same_words(rt, alloc, rib, lists, peer.asn, at);
    }
}

fn same_best(alloc: Global, rib: &mut Rib, lists: &Lists, at: At) -> bool {
    match lists.best(at) {
        Ok(path) => is_so(alloc, rib, &Row::At(at, Of::Best(path.as_slice()))),
        Err(_) => false,
    }
}

// Whether some peer waits, each for the same.
fn same_waiting(rt: &impl Abort, alloc: Global, rib: &mut Rib, lists: &Lists) -> bool {
    let mut awaited = false;
    for peer in &PEERS {
        let waits = lists.waiting(peer.asn);
        assert!(rt; is_so(alloc, rib, &Row::Waits(peer.asn, waits)));
        awaited = awaited || waits.is_some();
    }
    awaited
}

// Both say the same of what is to be done.
fn same_to_do(rt: &impl Abort, alloc: Global, rib: &mut Rib, lists: &Lists) {
    let awaited = same_waiting(rt, alloc, rib, lists);
    let Ok(dirty) = lists.dirty() else {
        panic!(rt; "no memory");
    };
    assert!(rt; is_so(alloc, rib, &Row::Awaited(awaited)));
    assert!(rt; is_so(alloc, rib, &Row::Pending(awaited || dirty.is_some())));
    assert!(rt; is_so(alloc, rib, &Row::Dirty(dirty)));
}

// How often a path was kept for one of the prefixes, of so many random calls.
fn play(rt: &impl Abort, alloc: Global, rib: &mut Rib, lists: &mut Lists) -> u32 {
    let mut dice = Dice { state: 7 };
    let mut decided = 0u32;
    for n in 0..STEPS {
        assert!(rt;
            step(alloc, &mut dice, rib, lists) == Some(true),
            "step {n}"
        );
        for at in &PREFIXES {
            same_of_prefix(rt, alloc, rib, lists, *at);
        }
        same_to_do(rt, alloc, rib, lists);
        if !is_so(alloc, rib, &Row::At(LONG, Of::Kept(&[]))) {
            decided = decided.saturating_add(1);
        }
    }
    decided
}

// None where there are no tables.
fn play_in(rt: &impl Abort, alloc: Global, net: &Network) -> Option<u32> {
    let mut rib = tables(alloc, net, ROUTER)?;
    let mut lists = Lists::new(alloc, net, ROUTER);
    Some(play(rt, alloc, &mut rib, &mut lists))
}

#[test]
fn random_calls_answer_as_plain_lists_do(rt: HostRuntime) -> Result<(), Fail> {
    let net = network(rt.alloc(), &MESH)?;
    assert!(rt; play_in(&rt, rt.alloc(), &net) > Some(100));
    Ok(())
}
