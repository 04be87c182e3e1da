//! A table of where the offers of routers stand: a router's offer is found without a pass over all of them.
//!
//! A search leads from a router to its place in the table, the same one each time. If the routers of all offers lead to
//! places of their own, no two offers are of one router, and the first part of a router is its only one. Nothing else
//! is taken from the table: the offer at the place that it names is looked at.

ghost use Rattle.std.specs.Prelude.{◌≡◌, ◌+◌, ◌≤◌, ◌<◌, Bool, IfSome, MatchOption, length, map, take};
ghost use Rattle.ranked_policy.specs.declared.limits.TheConstants.{MOST_ROUTERS};
ghost use Rattle.snap_marker.specs.Parts.{part_of};
ghost use Rattle.snap_marker.specs.Recordings.{RouterPart};
ghost use Rattle.snap_collector.specs.Collecting.{made_in};
ghost use Rattle.snap_collector.specs.Places.{LeadTo, slot_of, stepped};
ghost use Rattle.snap_collector.specs.Verdicts.{has_part};

use crate::members::Member;
use ranked_policy::{Asn, MOST_ROUTERS};
use snap_marker::{Offer, Part};

// With fewer routers than this, a pass over the offers is faster.
const FEW_ROUTERS: usize = 8;

// The place that stands for no offer.
const NOWHERE: u8 = 255;

/// The places of some offers, no two of which are of one router.
#[derive(Drop)]
pub(crate) struct PartIndex {
    // The routers that are searched: the members', and behind them the greatest number.
    routers: [Asn; MOST_ROUTERS],
    // For each slot that the search finds, the place of the offer whose router leads to it.
    places: [u8; MOST_ROUTERS],
}

// A step of the search: `step` slots on, unless the router there is greater.
fn stepped(routers: &[Asn; MOST_ROUTERS], router: Asn, slot: usize, step: usize) -> usize
    requires { slot + step < MOST_ROUTERS }
    ensures value { result ≡ stepped routers.now router slot step }
    ensures most { result ≤ slot + step }
{
    if routers[slot + step] <= router {
        slot + step
    } else {
        slot
    }
}

// The slot of a router: where the routers rise, the last that is not greater.
fn slot_of(routers: &[Asn; MOST_ROUTERS], router: Asn) -> usize
    ensures value { result ≡ slot_of routers.now router }
    ensures inside { result < MOST_ROUTERS }
{
    let slot = stepped(routers, router, 0, 32);
    let slot = stepped(routers, router, slot, 16);
    let slot = stepped(routers, router, slot, 8);
    let slot = stepped(routers, router, slot, 4);
    let slot = stepped(routers, router, slot, 2);
    stepped(routers, router, slot, 1)
}

// The routers of members, the greatest number behind them.
fn routers_of(members: &[Member]) -> [Asn; MOST_ROUTERS]
    requires few { length members.now ≤ MOST_ROUTERS }
    ensures { take (length members.now) result ≡ map (λ member. member.router) members.now }
{
    let mut routers = [Asn::MAX; MOST_ROUTERS];
    for (slot, member) in members.iter().enumerate() {
        routers[slot] = member.router;
    }
    routers
}

/// The places of the offers, one for each member. `None` if two offers lead to one slot, and if the members are few, or
/// more than a network may have.
pub(crate) fn places_of(members: &[Member], offers: &[Offer]) -> Option<PartIndex>
    ensures { IfSome result (λ places. LeadTo places.routers places.places offers.now) }
{
    let count = offers.len();
    if count != members.len() || count < FEW_ROUTERS || count > MOST_ROUTERS {
        return None;
    }
    let routers = routers_of(members);
    let mut places = [NOWHERE; MOST_ROUTERS];
    let mut place = 0;
    while place < count {
        let slot = slot_of(&routers, offers[place].router());
        if places[slot] != NOWHERE {
            return None;
        }
        places[slot] = place as u8;
        place += 1;
    }
    Some(PartIndex { routers, places })
}

impl PartIndex {
    /// The part of a router, if it stands at the place of this slot. It is then the router's only part.
    pub(crate) fn part_at<'o>(
        &self,
        offers: &'o [Offer],
        slot: usize,
        router: Asn,
    ) -> Option<&'o Part>
        requires { LeadTo self.now.routers self.now.places offers.now }
        ensures { MatchOption result (Unit {0})
            (λ part. (holds : RouterPart → Bool)
            → has_part (made_in offers.now) router holds ≡ holds (part_of part.now)) }
    {
        if slot >= MOST_ROUTERS {
            return None;
        }
        let place = self.places[slot] as usize;
        if place >= offers.len() {
            return None;
        }
        if let Offer::Part(part) = &offers[place] {
            if router == part.router {
                return Some(part);
            }
        }
        None
    }

    /// The part of a router, if the search finds it. It is then the router's only part.
    pub(crate) fn part<'o>(&self, offers: &'o [Offer], router: Asn) -> Option<&'o Part>
        requires { LeadTo self.now.routers self.now.places offers.now }
        ensures { MatchOption result (Unit {0})
            (λ part. (holds : RouterPart → Bool)
            → has_part (made_in offers.now) router holds ≡ holds (part_of part.now)) }
    {
        self.part_at(offers, slot_of(&self.routers, router), router)
    }
}
