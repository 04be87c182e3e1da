//! How scripts begin.

use super::answers::DID;
use super::items::Sent::{Dial, Says};
use super::steps::Asked::{Advertise, Decide, Originate, Start};
use super::steps::Named::Least;
use super::steps::Step::{Does, Drains, Hears, Puts, Takes};
use super::steps::{ALIVE, OPEN_OF_ONE, OPEN_OF_THREE, OPEN_OF_TWO, Step};
use bgp_values::Width;
use ranked_policy::Asn;

// A network, the router of it that plays, and the steps that come before its script, part by part.
#[derive(Clone, Copy)]
pub(super) struct Beginning {
    pub(super) cut: usize,
    // How many octets a number has.
    pub(super) width: Width,
    // The number of the router to which each other is linked, how many routers there are, and which plays.
    pub(super) hub: Asn,
    pub(super) routers: u32,
    pub(super) number: Asn,
    pub(super) first: &'static [&'static [Step<'static>]],
}

// Router 1 of two, of which nothing was asked; each other beginning says in what it differs.
const NEW: Beginning = Beginning {
    cut: 4096,
    width: Width::Two,
    hub: 1,
    routers: 2,
    number: 1,
    first: &[],
};

pub(super) const FRESH: Beginning = NEW;

// Router 2 of two.
pub(super) const FRESH_TWO: Beginning = Beginning { number: 2, ..NEW };

// It puts pieces of at most 18 octets.
pub(super) const FRESH_AT_18: Beginning = Beginning { cut: 18, ..NEW };

// It puts one octet at a time.
pub(super) const FRESH_AT_1: Beginning = Beginning { cut: 1, ..NEW };

// Router 1 of three.
pub(super) const FRESH_OF_THREE: Beginning = Beginning { routers: 3, ..NEW };

pub(super) const ALONE: Beginning = Beginning { routers: 1, ..NEW };

// Router 1 of two, whose numbers have four octets.
pub(super) const WIDE: Beginning = Beginning {
    width: Width::Four,
    ..NEW
};

// Router 70000, with identifier 10.0.0.1, which is linked with router 2.
pub(super) const WIDE_70000: Beginning = Beginning {
    width: Width::Four,
    hub: 70_000,
    number: 70_000,
    ..NEW
};

const JOINS_TWO: &[Step<'static>] = &[Does(Start(2), DID), Takes(2, 0, Dial(1), DID)];

const HEARS_TWO: &[Step<'static>] = &[
    Hears(2, Says(1, &[OPEN_OF_TWO])),
    Hears(2, Says(1, &[ALIVE])),
];

const MEETS_THREE: &[Step<'static>] = &[
    Does(Start(3), DID),
    Takes(3, 0, Dial(1), DID),
    Hears(3, Says(1, &[OPEN_OF_THREE])),
    Hears(3, Says(1, &[ALIVE])),
];

const DRAINS_BOTH: &[Step<'static>] = &[Drains(2), Drains(3)];

const TELLS_BOTH: &[Step<'static>] = &[
    Does(Originate(Least), DID),
    Does(Decide, DID),
    Does(Advertise, DID),
    Does(Advertise, DID),
];

// The session with 2 started, and its Dial of 1 was answered.
pub(super) const JOINED: Beginning = Beginning {
    first: &[JOINS_TWO],
    ..NEW
};

// Then came the OPEN and the KEEPALIVE of 2, and the KEEPALIVE that answers was put behind the OPEN.
pub(super) const ESTABLISHED: Beginning = Beginning {
    first: &[
        JOINS_TWO,
        HEARS_TWO,
        &[Puts(2, Dial(1)), Puts(2, Says(1, &[OPEN_OF_ONE, ALIVE]))],
    ],
    ..NEW
};

// Router 1 of three, whose session with 3 alone is Established, and which was put all that it said there.
pub(super) const UP_TO_THREE: Beginning = Beginning {
    routers: 3,
    first: &[MEETS_THREE, &[Drains(3)]],
    ..NEW
};

// Router 1 of three, whose sessions with 2 and 3 are Established, and which was put all that it said.
pub(super) const READY: Beginning = Beginning {
    routers: 3,
    first: &[JOINS_TWO, HEARS_TWO, MEETS_THREE, DRAINS_BOTH],
    ..NEW
};

// Then it originated 10.0.0.0/8, kept its path, and told it to both.
pub(super) const TOLD: Beginning = Beginning {
    routers: 3,
    first: &[JOINS_TWO, HEARS_TWO, MEETS_THREE, DRAINS_BOTH, TELLS_BOTH],
    ..NEW
};
