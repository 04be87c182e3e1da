//! What the offers for one snapshot show.

ghost use Rattle.std.specs.Prelude.{◌≡◌, map, Bool, true, false, not, ◌==◌, Option, Some, None, IfSome, MatchOption, option_copied};
ghost use Rattle.std.specs.List.{find};
ghost use Rattle.std.specs.Option.{option_map};
ghost use Rattle.snap_marker.specs.Parts.{part_of, cause_of, is_empty};
ghost use Rattle.snap_marker.specs.Recordings.{RouterPart};
ghost use Rattle.run_model.specs.Offers.{Abandoned};
ghost use Rattle.run_model.specs.Offers as model;
ghost use Rattle.snap_collector.specs.Verdicts.{any_lost, abandoned_or, all_parts, decides, has_part, pending, in_flight, mismatch, fault_at, first_fault, moving_or_settled, verdict};
ghost use Rattle.snap_collector.specs.Collector.{first_part};
ghost use Rattle.snap_collector.specs.Places.{LeadTo};
ghost use Rattle.snap_collector.specs.Collecting.{member_of, made_in, why_of, outcome_of, has_offered};

use crate::members::Member;
use crate::outcome::{Outcome, Why};
use crate::part_index::{PartIndex, places_of};
use ranked_policy::Asn;
use snap_marker::{Lost, Offer, Part};

/// Whether one of the offers is the router's.
pub fn has_offered(offers: &[Offer], router: Asn) -> bool
    ensures { result ≡ has_offered (made_in offers.now) router }
{
    for offer in offers {
        if router == offer.router() {
            return true;
        }
    }
    false
}

/// The first recording that was lost.
fn first_lost(offers: &[Offer]) -> Option<&Lost>
    ensures { MatchOption result
        ((any_lost (made_in offers.now) ≡ false)
        × ((other : model.Outcome) → abandoned_or (made_in offers.now) other ≡ other))
        (λ lost. (any_lost (made_in offers.now) ≡ true)
        × ((other : model.Outcome) → abandoned_or (made_in offers.now) other
        ≡ Abandoned lost.now.router lost.now.peer lost.now.epoch (cause_of lost.now.cause))) }
{
    for offer in offers {
        match offer {
            Offer::Part(_part) => {}
            Offer::Lost(lost) => return Some(lost),
        }
    }
    None
}

/// The first part of a router.
pub(crate) fn first_part(offers: &[Offer], router: Asn) -> Option<&Part>
    ensures { option_copied result ≡ first_part offers.now router }
{
    for offer in offers {
        match offer {
            Offer::Part(part) => {
                if router == part.router {
                    return Some(part);
                }
            }
            Offer::Lost(_lost) => {}
        }
    }
    None
}

/// Whether the router has offered a part.
pub(crate) fn has_part(offers: &[Offer], router: Asn) -> bool
    ensures { result ≡ has_part (made_in offers.now) router (λ part. true) }
{
    for offer in offers {
        match offer {
            Offer::Part(part) => {
                if router == part.router {
                    return true;
                }
            }
            Offer::Lost(_lost) => {}
        }
    }
    false
}

/// The part of a router in the slot of a member, if the places lead to it. It is then the router's only part.
fn found_part<'o>(
    offers: &'o [Offer],
    places: Option<&PartIndex>,
    slot: usize,
    router: Asn,
) -> Option<&'o Part>
    requires { IfSome places (λ p. LeadTo p.now.routers p.now.places offers.now) }
    ensures { MatchOption result (Unit {0})
        (λ part. (holds : RouterPart → Bool) → has_part (made_in offers.now) router holds ≡ holds (part_of part.now)) }
{
    match places {
        Some(places) => places.part_at(offers, slot, router),
        None => None,
    }
}

/// Whether the router of the member in this slot has offered a part.
fn has_part_at(offers: &[Offer], places: Option<&PartIndex>, slot: usize, router: Asn) -> bool
    requires { IfSome places (λ p. LeadTo p.now.routers p.now.places offers.now) }
    ensures { result ≡ has_part (made_in offers.now) router (λ part. true) }
{
    match found_part(offers, places, slot, router) {
        Some(_part) => true,
        None => has_part(offers, router),
    }
}

/// Whether every router has offered a part.
fn all_parts(members: &[Member], offers: &[Offer], places: Option<&PartIndex>) -> bool
    requires { IfSome places (λ p. LeadTo p.now.routers p.now.places offers.now) }
    ensures { result ≡ all_parts (map member_of members.now) (made_in offers.now) }
{
    for (slot, member) in members.iter().enumerate() {
        if !has_part_at(offers, places, slot, member.router) {
            return false;
        }
    }
    true
}

/// Whether the offers for one number decide their snapshot: one is a loss, or every router has
/// offered a part. It takes no memory.
pub fn decides(members: &[Member], offers: &[Offer]) -> bool
    ensures { result ≡ decides (map member_of members.now) (made_in offers.now) }
{
    match first_lost(offers) {
        Some(_lost) => true,
        None => all_parts(members, offers, None),
    }
}

/// Whether a part of the router is pending.
fn pending(offers: &[Offer], router: Asn) -> bool
    ensures { result ≡ pending (made_in offers.now) router }
{
    for offer in offers {
        match offer {
            Offer::Part(part) => {
                if router == part.router && part.pending {
                    return true;
                }
            }
            Offer::Lost(_lost) => {}
        }
    }
    false
}

/// Whether the channel from a peer has an UPDATE, in a part of the router.
fn in_flight(offers: &[Offer], router: Asn, peer: Asn) -> bool
    ensures { result ≡ in_flight (made_in offers.now) router peer }
{
    for offer in offers {
        match offer {
            Offer::Part(part) => {
                if router == part.router && part.is_in_flight(peer) {
                    return true;
                }
            }
            Offer::Lost(_lost) => {}
        }
    }
    false
}

/// Whether a part of the peer names another incarnation of its link to the router than this.
fn names_another(offers: &[Offer], peer: Asn, router: Asn, epoch: u32) -> bool
    ensures { result ≡ has_part (made_in offers.now) peer (λ other. not (epoch == other.incarnation router)) }
{
    for offer in offers {
        match offer {
            Offer::Part(part) => {
                if peer == part.router && epoch != part.epoch(router) {
                    return true;
                }
            }
            Offer::Lost(_lost) => {}
        }
    }
    false
}

/// Whether parts of the router and of the peer name two incarnations of their link.
fn mismatch(offers: &[Offer], router: Asn, peer: Asn) -> bool
    ensures { result ≡ mismatch (made_in offers.now) router peer }
{
    for offer in offers {
        match offer {
            Offer::Part(part) => {
                if router == part.router && names_another(offers, peer, router, part.epoch(peer)) {
                    return true;
                }
            }
            Offer::Lost(_lost) => {}
        }
    }
    false
}

/// The least peer whose channel to the router has an UPDATE.
fn first_in_flight(offers: &[Offer], router: Asn, peers: &[Asn]) -> Option<Asn>
    ensures { result ≡ find (in_flight (made_in offers.now) router) peers.now }
{
    peers
        .iter()
        .copied()
        .find(|peer| in_flight(offers, router, *peer))
}

/// The least peer whose part names another incarnation of the link than the router's.
fn first_mismatch(offers: &[Offer], router: Asn, peers: &[Asn]) -> Option<Asn>
    ensures { result ≡ find (mismatch (made_in offers.now) router) peers.now }
{
    peers
        .iter()
        .copied()
        .find(|peer| mismatch(offers, router, *peer))
}

/// The part of a router, if the router offered exactly one.
fn sole_part(offers: &[Offer], router: Asn) -> Option<&Part>
    ensures { MatchOption result (Unit {0})
        (λ part. (holds : RouterPart → Bool) → has_part (made_in offers.now) router holds ≡ holds (part_of part.now)) }
{
    let mut place = 0;
    while place < offers.len() {
        if let Offer::Part(part) = &offers[place] {
            if router == part.router {
                if has_part(&offers[place + 1..], router) {
                    return None;
                }
                return Some(part);
            }
        }
        place += 1;
    }
    None
}

/// The least peer whose channel in the part has an UPDATE.
fn flight_of(part: &Part, peers: &[Asn]) -> Option<Asn>
    ensures { result ≡ find (λ v. not (is_empty ((part_of part.now).channel v))) peers.now }
{
    peers.iter().copied().find(|peer| part.is_in_flight(*peer))
}

/// Whether a part of the peer names another incarnation of its link to the router than this part of the router.
fn differs(
    offers: &[Offer],
    places: Option<&PartIndex>,
    router: Asn,
    part: &Part,
    peer: Asn,
) -> bool
    requires { IfSome places (λ p. LeadTo p.now.routers p.now.places offers.now) }
    ensures { result
        ≡ has_part (made_in offers.now) peer
        (λ other. not ((part_of part.now).incarnation peer == other.incarnation router)) }
{
    let epoch = part.epoch(peer);
    if let Some(places) = places {
        if let Some(other) = places.part(offers, peer) {
            return epoch != other.epoch(router);
        }
    }
    names_another(offers, peer, router, epoch)
}

/// The least peer whose part names another incarnation of the link than this part of the router.
fn mismatch_of(
    offers: &[Offer],
    places: Option<&PartIndex>,
    router: Asn,
    part: &Part,
    peers: &[Asn],
) -> Option<Asn>
    requires { IfSome places (λ p. LeadTo p.now.routers p.now.places offers.now) }
    ensures { result
        ≡ find
        (λ v. has_part (made_in offers.now) v
        (λ other. not ((part_of part.now).incarnation v == other.incarnation router))) peers.now }
{
    peers
        .iter()
        .copied()
        .find(|peer| differs(offers, places, router, part, *peer))
}

/// The first fault of a router by its only part. The other offers are looked at only for mismatches.
fn sole_fault(
    offers: &[Offer],
    places: Option<&PartIndex>,
    member: &Member,
    part: &Part,
) -> Option<Why>
    requires led { IfSome places (λ p. LeadTo p.now.routers p.now.places offers.now) }
    requires sole { (holds : RouterPart → Bool)
        → has_part (made_in offers.now) member.now.router holds ≡ holds (part_of part.now) }
    ensures { option_map why_of result ≡ fault_at (made_in offers.now) (member_of member.now) }
{
    if part.pending {
        return Some(Why::Pending);
    }
    let peers = member.peers.as_slice();
    match flight_of(part, peers) {
        Some(peer) => Some(Why::InFlight(peer)),
        None => match mismatch_of(offers, places, member.router, part, peers) {
            Some(peer) => Some(Why::Mismatch(peer)),
            None => None,
        },
    }
}

/// The first fault of a router's parts. The member stands in this slot.
fn fault_at(
    offers: &[Offer],
    places: Option<&PartIndex>,
    slot: usize,
    member: &Member,
) -> Option<Why>
    requires { IfSome places (λ p. LeadTo p.now.routers p.now.places offers.now) }
    ensures { option_map why_of result ≡ fault_at (made_in offers.now) (member_of member.now) }
{
    if let Some(part) = found_part(offers, places, slot, member.router) {
        return sole_fault(offers, places, member, part);
    }
    if let Some(part) = sole_part(offers, member.router) {
        return sole_fault(offers, places, member, part);
    }
    if pending(offers, member.router) {
        return Some(Why::Pending);
    }
    match first_in_flight(offers, member.router, member.peers.as_slice()) {
        Some(peer) => Some(Why::InFlight(peer)),
        None => match first_mismatch(offers, member.router, member.peers.as_slice()) {
            Some(peer) => Some(Why::Mismatch(peer)),
            None => None,
        },
    }
}

/// The outcome of parts of every router: the first fault of them, or settled.
fn faults(members: &[Member], offers: &[Offer], places: Option<&PartIndex>) -> Outcome
    requires { IfSome places (λ p. LeadTo p.now.routers p.now.places offers.now) }
    ensures { outcome_of result ≡ moving_or_settled (first_fault (map member_of members.now) (made_in offers.now)) }
{
    for (slot, member) in members.iter().enumerate() {
        if let Some(why) = fault_at(offers, places, slot, member) {
            return Outcome::Moving {
                router: member.router,
                why,
            };
        }
    }
    Outcome::Settled
}

/// The verdict on the offers for one number, in the order in which they came, none of them behind
/// the one that decided. It takes no memory.
pub fn verdict(members: &[Member], offers: &[Offer]) -> Outcome
    ensures { outcome_of result ≡ verdict (map member_of members.now) (made_in offers.now) }
{
    match first_lost(offers) {
        Some(lost) => Outcome::Abandoned(*lost),
        None => {
            let places = places_of(members, offers);
            if all_parts(members, offers, places.as_ref()) {
                faults(members, offers, places.as_ref())
            } else {
                Outcome::Waiting
            }
        }
    }
}
