//! Verdicts on the offers of a line of many routers, which a table finds.

use super::has_verdict;
use ranked_policy::{Asn, NetItems};
use snap_collector::{Member, Outcome, Why};
use snap_marker::{Channel, Offer, Part};
use std::alloc::{AllocError, Global};
use std::process::Abort;
use std::test::*;

// The neighbours of a router in the line from 1 to that number.
fn neighbours(alloc: Global, router: Asn, count: u32) -> Result<Vec<Asn>, AllocError> {
    let mut peers = Vec::new(alloc);
    if router > 1 {
        peers.push(router.wrapping_sub(1))?;
    }
    if router < count {
        peers.push(router.wrapping_add(1))?;
    }
    Ok(peers)
}

fn line(alloc: Global, count: u32) -> Result<Vec<Member>, AllocError> {
    let mut members = Vec::new(alloc);
    for before in 0..count {
        let router = before.wrapping_add(1);
        let peers = NetItems::from_vec(neighbours(alloc, router, count)?);
        members.push(Member { router, peers })?;
    }
    Ok(members)
}

// The part of a router, all of whose links are of this incarnation.
fn part(alloc: Global, router: Asn, count: u32, epoch: u32) -> Result<Offer, AllocError> {
    let mut channels = Vec::new(alloc);
    for peer in &neighbours(alloc, router, count)? {
        channels.push(Channel {
            peer: *peer,
            epoch,
            is_open: false,
            updates: Vec::new(alloc),
        })?;
    }
    Ok(Offer::Part(Part {
        router,
        number: 5,
        kept: Vec::new(alloc),
        originated: Vec::new(alloc),
        pending: false,
        channels,
    }))
}

// A router of the line for each place, in no order: each once, where 7 does not divide the number behind the last.
fn shuffled(place: u32, count: u32) -> Asn {
    place
        .wrapping_add(1)
        .wrapping_mul(7)
        .checked_rem(count.wrapping_add(1))
        .unwrap_or(0)
}

// A part of each router, with the incarnation 8 that of one, with 7 all others. Of two routers that are named, the
// first is silent, and the second offers in its place.
fn parts(
    alloc: Global,
    count: u32,
    other: Asn,
    twice: Option<(Asn, Asn)>,
) -> Result<Vec<Offer>, AllocError> {
    let mut offers = Vec::new(alloc);
    for place in 0..count {
        let mut router = shuffled(place, count);
        if let Some((silent, loud)) = twice {
            if router == silent {
                router = loud;
            }
        }
        let epoch = if router == other { 8 } else { 7 };
        offers.push(part(alloc, router, count, epoch)?)?;
    }
    Ok(offers)
}

// A part of each router, those of one with another incarnation; where one router is silent another has offered twice.
fn comes_out(
    alloc: Global,
    count: u32,
    other: Asn,
    twice: Option<(Asn, Asn)>,
    outcome: Outcome,
) -> bool {
    match (line(alloc, count), parts(alloc, count, other, twice)) {
        (Ok(members), Ok(offers)) => has_verdict(&members, &offers, outcome),
        (_, _) => false,
    }
}

// Numbers of routers: fewer and more than the table has, its least and its most.
static COUNTS: [u32; 4] = [7, 8, 64, 65];

#[test]
fn a_line_is_settled(rt: HostRuntime) -> Result<(), Fail> {
    for count in &COUNTS {
        assert!(rt;
            comes_out(rt.alloc(), *count, 0, None, Outcome::Settled),
            "{count}"
        );
    }
    Ok(())
}

#[test]
fn the_first_of_a_line_that_differs(rt: HostRuntime) -> Result<(), Fail> {
    let outcome = Outcome::Moving {
        router: 5,
        why: Why::Mismatch(6),
    };
    for count in &COUNTS {
        assert!(rt; comes_out(rt.alloc(), *count, 6, None, outcome), "{count}");
    }
    Ok(())
}

#[test]
fn a_second_part_stands_for_no_other_router(rt: HostRuntime) -> Result<(), Fail> {
    for count in &COUNTS {
        assert!(rt;
            comes_out(rt.alloc(), *count, 0, Some((3, 6)), Outcome::Waiting),
            "{count}"
        );
    }
    Ok(())
}
