//! The collector: it keeps the offers of the routers of a network.

ghost use Rattle.std.specs.Prelude.{◌≡◌, ◌≢◌, ℕ, ◌<◌, ◌≤◌, ◌↔◌, length, [], ◌∷◌, map, take, vec_len, vec_capacity, IfSome, IfOk, IfErr, OnOk, OnErr, option_copied, slice_get};
ghost use Rattle.std.specs.List.{AllPairs, Contains};
ghost use mathlib.Core.Logic.{◌⊎◌};
ghost use Rattle.snap_marker.specs.Parts.{AreOf, number_of, snapshots_of};
ghost use Rattle.snap_marker.specs.Recordings.{without_first};
ghost use Rattle.snap_collector.specs.Booking.{AreBooks, HasRoom, entry_of};
ghost use Rattle.snap_collector.specs.Collecting.{made_by, member_of, outcome_of};
ghost use Rattle.snap_collector.specs.Collector.{made_at, made_for, offers_at, with_offers, first_part, AreDecided, AreKept, AreMembers, IsPartOf, kept_of};
ghost use Rattle.snap_collector.specs.Flights.{flight_of, in_flight_of};
ghost use Rattle.snap_collector.specs.Taking.{Takes, refusal_of};
ghost use Rattle.snap_collector.specs.Verdicts.{verdict, decides};

use crate::answer::{CollectError, Taken};
use crate::book::Book;
use crate::flights::{InFlight, flights_to};
use crate::members::{Member, is_member};
use crate::outcome::Outcome;
use crate::verdicts::{first_part, has_offered, verdict};
use ranked_policy::{Asn, Network};
use snap_marker::{MarkState, Offer, Part};
use std::alloc::{AllocError, Global};
use std::collections::BTreeMap;
use std::marker::Model;

/// The offers of the routers of a network.
#[derive(Drop)]
pub struct Collector {
    members: Vec<Member>,
    // By the number of the snapshot.
    offers: BTreeMap<u32, Book>,
    // The numbers whose offers decide, rising.
    decided: Vec<u32>,
}

impl Model for Collector {
    ghost use Rattle.std.specs.Prelude.{map};
    ghost use Rattle.snap_collector.specs.Collector.{CollectorView, AreDecided};
    ghost use Rattle.snap_collector.specs.Booking.{AreBooks, entry_of};
    ghost use Rattle.snap_collector.specs.Collecting.{member_of};

    ghost Value = { CollectorView };

    ghost view = { λ c.
        record { members = c.members.items; offers = map entry_of c.offers.entries; decided = c.decided.items } };

    ghost invariant = { λ c.
        AreDecided (record { members = c.members.items; offers = map entry_of c.offers.entries; decided = c.decided.items })
        c.decided.items
        × AreBooks (map member_of c.members.items) c.offers.entries };
}

// The routers of a network with their peers, rising.
fn members_of(alloc: Global, network: &Network) -> Result<Vec<Member>, AllocError>
    ensures { IfOk result (λ members. AreMembers network.now members.items) }
{
    let mut members = Vec::new(alloc);
    for router in network.routers() {
        members.push(Member {
            router: router.asn,
            peers: network.peers(alloc, router.asn)?,
        })?;
    }
    Ok(members)
}

// The offers for a number, in the order in which they came.
fn offers_for(offers: &BTreeMap<u32, Book>, number: u32) -> &[Offer]
    ensures { result.now ≡ offers_at (map entry_of offers.now.entries) number }
{
    match offers.get(&number) {
        Some(book) => book.offers.as_slice(),
        None => &[],
    }
}

// Whether the offers for a number decide its snapshot.
fn has_decided(members: &[Member], offers: &BTreeMap<u32, Book>, number: u32) -> bool
    requires { AreBooks (map member_of members.now) offers.now.entries }
    ensures { result ≡ decides (map member_of members.now) (made_at (map entry_of offers.now.entries) number) }
{
    match offers.get(&number) {
        Some(book) => book.awaited == 0,
        None => members.is_empty(),
    }
}

// Puts a number in its place among rising ones, which have room for it. A number that stands there already is not put
// again.
fn note(numbers: &mut Vec<u32>, number: u32)
    requires room { vec_len numbers.old < vec_capacity numbers.old }
    requires rising { AllPairs (λ s t. s < t) numbers.old.items }
    ensures rising { AllPairs (λ s t. s < t) numbers.new.items }
    ensures more { (s : ℕ) → Contains numbers.new.items s ↔ (Contains numbers.old.items s ⊎ (s ≡ number)) }
{
    if let Err(at) = numbers.binary_search(&number) {
        numbers.insert(at, number).unwrap();
    }
}

// Makes room for one more offer for a number: in its book, which exists from then on, and among the decided numbers.
// The caller puts the offer next. If a growth is refused, the offers stay as they were.
fn make_room(
    alloc: Global,
    members: &[Member],
    offers: &mut BTreeMap<u32, Book>,
    decided: &mut Vec<u32>,
    number: u32,
) -> Result<(), AllocError>
    requires { AreBooks (map member_of members.now) offers.old.entries }
    ensures room { OnOk result (HasRoom offers.new.entries number) }
    ensures noted { OnOk result (vec_len decided.new < vec_capacity decided.new) }
    ensures made { OnOk result (made_at (map entry_of offers.new.entries) ≡ made_at (map entry_of offers.old.entries)) }
    ensures err { OnErr result (map entry_of offers.new.entries ≡ map entry_of offers.old.entries) }
    ensures decided { decided.new.items ≡ decided.old.items }
    ensures books { AreBooks (map member_of members.now) offers.new.entries }
{
    decided.reserve(1)?;
    match offers.get_mut(&number) {
        Some(book) => {
            book.make_room()?;
        }
        None => {
            let mut book = Book::new(alloc, members);
            book.make_room()?;
            offers.insert(number, book)?;
        }
    }
    Ok(())
}

// Puts an offer, for which there is room, behind those of its number.
fn keep(members: &[Member], offers: &mut BTreeMap<u32, Book>, offer: Offer)
    requires books { AreBooks (map member_of members.now) offers.old.entries }
    requires room { HasRoom offers.old.entries (number_of offer) }
    ensures made { made_at (map entry_of offers.new.entries)
        ≡ with_offers (made_at (map entry_of offers.old.entries)) (made_by offer ∷ []) }
    ensures books { AreBooks (map member_of members.now) offers.new.entries }
{
    let number = offer.number();
    let book = offers.get_mut(&number).unwrap();
    book.put(members, offer);
}

// Keeps an offer, for which there is room, and notes its number if the number is decided then.
fn put(members: &[Member], offers: &mut BTreeMap<u32, Book>, decided: &mut Vec<u32>, offer: Offer)
    requires books { AreBooks (map member_of members.now) offers.old.entries }
    requires decided { AreDecided
        (record { members = members.now; offers = map entry_of offers.old.entries; decided = decided.old.items })
        decided.old.items }
    requires room { HasRoom offers.old.entries (number_of offer) }
    requires noted { vec_len decided.old < vec_capacity decided.old }
    ensures made { made_at (map entry_of offers.new.entries)
        ≡ with_offers (made_at (map entry_of offers.old.entries)) (made_by offer ∷ []) }
    ensures decided { AreDecided
        (record { members = members.now; offers = map entry_of offers.new.entries; decided = decided.new.items })
        decided.new.items }
    ensures books { AreBooks (map member_of members.now) offers.new.entries }
{
    let number = offer.number();
    keep(members, offers, offer);
    if has_decided(members, offers, number) {
        note(decided, number);
    }
}

impl Collector {
    /// The collector of a network, with nothing offered. It is refused only for want of memory.
    pub fn new(alloc: Global, network: &Network) -> Result<Collector, AllocError>
        ensures nothing { IfOk result (λ c. made_for c ≡ (λ s. [])) }
        ensures members { IfOk result (λ c. AreMembers network.now c.members) }
    {
        let _ = network.built();
        Ok(Collector {
            members: members_of(alloc, network)?,
            offers: BTreeMap::new(alloc),
            decided: Vec::new(alloc),
        })
    }

    /// Keeps an offer behind those for its number, even one that comes late. If a growth is refused, the collector
    /// stays as it was.
    pub fn record(&mut self, offer: Offer) -> Result<(), AllocError>
        ensures ok { OnOk result (made_for self.new ≡ with_offers (made_for self.old) (made_by offer ∷ [])) }
        ensures err { OnErr result (self.new ≡ self.old) }
        ensures members { self.new.members ≡ self.old.members }
    {
        let alloc = *self.members.allocator();
        let members = self.members.as_slice();
        make_room(
            alloc,
            members,
            &mut self.offers,
            &mut self.decided,
            offer.number(),
        )?;
        put(members, &mut self.offers, &mut self.decided, offer);
        Ok(())
    }

    /// Moves the first offer that waits at a router to the collector, which keeps it as [`Collector::record`] does. If
    /// a growth is refused, both stay as they were.
    pub fn record_from(&mut self, marks: &mut MarkState) -> Result<(), AllocError>
        requires waits { marks.old.queue ≢ [] }
        ensures ok { OnOk result
            (IfSome (slice_get marks.old.queue 0)
            (λ offer. made_for self.new ≡ with_offers (made_for self.old) (made_by offer ∷ []))) }
        ensures made { OnOk result (snapshots_of marks.new ≡ without_first (snapshots_of marks.old)) }
        ensures err { OnErr result (self.new ≡ self.old) }
        ensures waiting { OnErr result (marks.new ≡ marks.old) }
        ensures members { self.new.members ≡ self.old.members }
        ensures unfinished { marks.new.unfinished ≡ marks.old.unfinished }
        ensures router { (u : ℕ) → AreOf u marks.old → AreOf u marks.new }
    {
        let number = marks.next_offer().unwrap().number();
        let alloc = *self.members.allocator();
        let members = self.members.as_slice();
        make_room(alloc, members, &mut self.offers, &mut self.decided, number)?;
        let offer = marks.take_offer().unwrap();
        put(members, &mut self.offers, &mut self.decided, offer);
        Ok(())
    }

    /// Takes an offer of a router. It stands behind the offers for its number, and the answer says whether it decided
    /// its snapshot. An offer for a snapshot that was decided before is late, and changes nothing. Refused with
    /// [`CollectError::Stranger`] if the offer is not of a router of the network, with [`CollectError::Twice`] if the
    /// router has offered for this number before and the snapshot waits, and with [`CollectError::Memory`] if a growth
    /// is refused. A refusal changes nothing.
    pub fn offer(&mut self, offer: Offer) -> Result<Taken, CollectError>
        ensures { Takes self.old self.new offer result }
    {
        if let Some(error) = self.refusal(&offer) {
            return Err(error);
        }
        let number = offer.number();
        if self.is_decided(number) {
            return Ok(Taken::Late);
        }
        self.record(offer)?;
        if self.is_decided(number) {
            Ok(Taken::Decided)
        } else {
            Ok(Taken::Kept)
        }
    }

    /// Why [`Collector::offer`] refuses this offer whatever memory there is: [`CollectError::Stranger`] or
    /// [`CollectError::Twice`]. `None` if it takes the offer, unless a growth is refused. It takes no memory.
    pub fn refusal(&self, offer: &Offer) -> Option<CollectError>
        ensures { result ≡ refusal_of self.now offer.now }
    {
        let router = offer.router();
        let number = offer.number();
        if !is_member(self.members.as_slice(), router) {
            return Some(CollectError::Stranger { router });
        }
        if self.is_decided(number) {
            return None;
        }
        if has_offered(offers_for(&self.offers, number), router) {
            return Some(CollectError::Twice { router });
        }
        None
    }

    /// The numbers of the snapshots that are decided, rising.
    pub fn decided(&self) -> &[u32]
        ensures value { result.now ≡ self.now.decided }
        ensures decided { AreDecided self.now result.now }
    {
        self.decided.as_slice()
    }

    /// Whether the offers for a number decide its snapshot.
    pub fn is_decided(&self, number: u32) -> bool
        ensures { result ≡ decides (map member_of self.now.members) (made_for self.now number) }
    {
        has_decided(self.members.as_slice(), &self.offers, number)
    }

    // The offers for a number that are kept: those up to the first that decides.
    fn kept(&self, number: u32) -> &[Offer]
        ensures { AreKept self.now number result.now }
    {
        match self.offers.get(&number) {
            Some(book) => &book.offers[..book.kept],
            None => &[],
        }
    }

    /// How the snapshot of a number comes out, by the offers for it that are kept: those up to the first that decides.
    pub fn outcome(&self, number: u32) -> Outcome
        ensures { outcome_of result
            ≡ verdict (map member_of self.now.members)
            (kept_of (map member_of self.now.members) (made_for self.now number)) }
    {
        verdict(self.members.as_slice(), self.kept(number))
    }

    /// What a router recorded of the snapshot of a number: its first part among the offers that are kept.
    pub fn part(&self, number: u32, router: Asn) -> Option<&Part>
        ensures { IsPartOf self.now number router (option_copied result) }
    {
        first_part(self.kept(number), router)
    }

    /// The UPDATEs that were in flight as the snapshot of a number was recorded, by router, then peer, in the order
    /// acted on: those of the channels of its parts. A snapshot that is neither settled nor moving has none. Refused
    /// with [`CollectError::Memory`] if a growth is refused.
    pub fn in_flight(&self, number: u32) -> Result<Vec<InFlight>, CollectError>
        ensures ok { IfOk result
            (λ flights. map flight_of flights.items
            ≡ in_flight_of (map member_of self.now.members)
            (kept_of (map member_of self.now.members) (made_for self.now number))) }
        ensures err { IfErr result (λ why. why ≡ CollectError.Memory) }
    {
        let alloc = *self.members.allocator();
        let kept = self.kept(number);
        match verdict(self.members.as_slice(), kept) {
            Outcome::Waiting | Outcome::Abandoned(_) => Ok(Vec::new(alloc)),
            Outcome::Moving { .. } | Outcome::Settled => {
                Ok(flights_to(alloc, self.members.as_slice(), kept)?)
            }
        }
    }
}
