//! Copies of offers.

use super::steps::Step::{Begins, Hears, Marks};
use super::steps::{Step, have_updates, plays};
use crate::tests::networks::prefix;
use snap_marker::{MarkState, Offer, Part};
use std::alloc::{AllocError, Global};
use std::process::Abort;
use std::test::*;

pub(super) static ONE_UPDATE: [Step; 3] = [Begins(1, &[2], None), Hears(2, true), Marks(2, 1)];

pub(super) fn is_recorded(part: &Part) -> bool {
    part.pending && have_updates(&part.channels, &[1]) && has_originated(part) && keeps_first(part)
}

// 10.1.0.0/16 alone.
fn has_originated(part: &Part) -> bool {
    match (prefix(), part.originated.as_slice()) {
        (Some(prefix), [only]) => *only == prefix,
        _ => false,
    }
}

// The path of router 1 alone.
fn keeps_first(part: &Part) -> bool {
    match part.kept.as_slice() {
        [only] => only.path.as_slice() == [1].as_slice(),
        _ => false,
    }
}

fn is_copied(copy: Result<Offer, AllocError>) -> bool {
    match copy {
        Ok(Offer::Part(part)) => is_recorded(&part),
        _ => false,
    }
}

fn copies(alloc: Global, marks: &MarkState) -> bool {
    match marks.next_offer() {
        Some(offer) => is_copied(offer.copied(alloc)),
        None => false,
    }
}

fn offers_are_copied_in(rt: &impl Abort, alloc: Global, marks: &mut MarkState) {
    plays(rt, alloc, marks, &ONE_UPDATE);
    assert!(rt; copies(alloc, marks));
}

/// A copy of an offer has what the offer has.
#[test]
fn offers_are_copied(rt: HostRuntime) {
    let mut marks = MarkState::new(rt.alloc());
    offers_are_copied_in(&rt, rt.alloc(), &mut marks);
}
