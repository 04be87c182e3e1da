//! The offers for one number, and how many of them are kept.
//!
//! A count of the routers that are awaited tells with each offer whether it decides. From then on
//! the number of offers kept stays: no offer is looked at again.

ghost use Rattle.std.specs.Prelude.{◌≡◌, ◌++◌, [], ◌∷◌, ◌<◌, ◌≤◌, false, List, length, map, vec_len, vec_capacity, OnOk};
ghost use Rattle.snap_collector.specs.Booking.{IsBook, missing_parts, missing, times};
ghost use Rattle.snap_collector.specs.Collecting.{made_by, made_in, member_of};
ghost use Rattle.snap_collector.specs.Verdicts.{Member as member, any_lost};

use crate::members::Member;
use crate::verdicts::has_part;
use ranked_policy::Asn;
use snap_marker::Offer;
use std::alloc::{AllocError, Global};

/// The offers for one number.
#[derive(Drop)]
pub(crate) struct Book {
    // In the order in which they came.
    pub(crate) offers: Vec<Offer>,
    // How many of them are kept: those up to the first that decides.
    pub(crate) kept: usize,
    // How many routers have offered no part; 0 if the offers decide.
    pub(crate) awaited: usize,
}

// How often a router is among the members.
fn times(members: &[Member], router: Asn) -> usize
    ensures { result ≡ times (map member_of members.now) router }
{
    let mut count = 0;
    for member in members {
        if member.router == router {
            count += 1;
        }
    }
    count
}

// How many routers are awaited after one more offer, if `awaited` were awaited before it.
fn missing_with(members: &[Member], offers: &[Offer], awaited: usize, offer: &Offer) -> usize
    requires unlost { any_lost (made_in offers.now) ≡ false }
    requires awaited { awaited ≡ missing (map member_of members.now) (made_in offers.now) }
    ensures { result ≡ missing_parts (map member_of members.now) (made_in offers.now ++ made_by offer.now ∷ []) }
{
    match offer {
        Offer::Part(part) => {
            if has_part(offers, part.router) {
                awaited
            } else {
                awaited - times(members, part.router)
            }
        }
        Offer::Lost(_lost) => 0,
    }
}

impl Book {
    /// The book before any offer.
    pub(crate) fn new(alloc: Global, members: &[Member]) -> Book
        ensures items { result.offers.items ≡ [] }
        ensures book { IsBook (map member_of members.now) result }
    {
        Book {
            offers: Vec::new(alloc),
            kept: 0,
            awaited: members.len(),
        }
    }

    /// Makes room for one more offer. If a growth is refused, the offers stay as they were.
    pub(crate) fn make_room(&mut self) -> Result<(), AllocError>
        ensures room { OnOk result (vec_len self.new.offers < vec_capacity self.new.offers) }
        ensures items { self.new.offers.items ≡ self.old.offers.items }
        ensures book { (members : List member) → IsBook members self.old → IsBook members self.new }
    {
        self.offers.reserve(1)
    }

    /// Puts an offer, for which there is room, behind the others.
    pub(crate) fn put(&mut self, members: &[Member], offer: Offer)
        requires book { IsBook (map member_of members.now) self.old }
        requires room { vec_len self.old.offers < vec_capacity self.old.offers }
        ensures items { self.new.offers.items ≡ self.old.offers.items ++ offer ∷ [] }
        ensures book { IsBook (map member_of members.now) self.new }
    {
        if self.awaited == 0 {
            self.offers.push_reserved(offer);
            return;
        }
        let awaited = missing_with(members, self.offers.as_slice(), self.awaited, &offer);
        self.offers.push_reserved(offer);
        self.kept = self.offers.len();
        self.awaited = awaited;
    }
}
