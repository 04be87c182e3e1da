//! The board under its lock: the collector, and every offer that was made.

ghost use Rattle.std.specs.Prelude.{◌≡◌, [], IfOk, OnErr, IsErr};
ghost use Rattle.snap_collector.specs.Collector.{AreMembers};
ghost use Rattle.offer_board.specs.Boards.{BoardView, IsBoard, AreCopies, Offers};

use ranked_policy::Network;
use run_model::GREATEST_STAMP;
use snap_collector::laws::{kept_goes_on, nothing_is_kept};
use snap_collector::{CollectError, Collector, Taken};
use snap_marker::Offer;
use std::alloc::{AllocError, Global};
use std::marker::Model;

/// An offer that was made, and the stamp of the event that made it.
#[derive(Debug, Drop)]
pub struct Made {
    /// The stamp.
    pub stamp: u64,
    /// What was offered.
    pub offer: Offer,
}

/// A collector, every offer made to it with its stamp, late ones too, and the last stamp.
#[derive(Drop)]
pub struct BoardState {
    collector: Collector,
    offers: Vec<Made>,
    stamp: u64,
}

impl Model for BoardState {
    ghost use Rattle.offer_board.specs.Boards.{BoardView, IsBoard};

    ghost Value = { BoardView };

    ghost view = { λ b. record { collector = b.collector; offers = b.offers.items; stamp = b.stamp } };

    ghost invariant = { λ b. IsBoard (record { collector = b.collector; offers = b.offers.items; stamp = b.stamp }) };
}

/// Two copies of an offer, as [`BoardState::keep`] takes them. It is refused only for want of memory.
pub fn two_copies(alloc: Global, offer: &Offer) -> Result<(Offer, Offer), AllocError>
    ensures { IfOk result (AreCopies offer.now) }
{
    Ok((offer.copied(alloc)?, offer.copied(alloc)?))
}

impl BoardState {
    /// The board of a network, with nothing offered. It is refused only for want of memory.
    pub fn new(alloc: Global, network: &Network) -> Result<BoardState, AllocError>
        ensures nothing { IfOk result (λ board. board.offers ≡ []) }
        ensures stamp { IfOk result (λ board. board.stamp ≡ 0) }
        ensures members { IfOk result (λ board. AreMembers network.now board.collector.members) }
    {
        kept_goes_on();
        nothing_is_kept();
        Ok(BoardState {
            collector: Collector::new(alloc, network)?,
            offers: Vec::new(alloc),
            stamp: 0,
        })
    }

    /// Takes an offer of a router whose last event has the given stamp. It answers what the collector made of the
    /// offer, and the offer's stamp, one above the router's last and the board's. The board keeps copies.
    ///
    /// `room` says whether the caller has room for the offer if it is taken. Refused if the collector has a
    /// [refusal](Collector::refusal) for it; else with [`CollectError::StampEnd`] if that stamp would pass 2^62; else
    /// with [`CollectError::Memory`], which is answered only if neither holds, and always then if the caller has no
    /// room. The board is then as it was.
    pub fn offer(
        &mut self,
        stamp: u64,
        offer: &Offer,
        room: Result<(), AllocError>,
    ) -> Result<(Taken, u64), CollectError>
        ensures offers { Offers self.old self.new stamp offer.now result }
        ensures full { OnErr room (IsErr result) }
        ensures members { self.new.collector.members ≡ self.old.collector.members }
    {
        let alloc = *self.offers.allocator();
        let copies = room.and_then(|()| two_copies(alloc, offer));
        self.keep(stamp, offer, copies)
    }

    /// Takes an offer as [`BoardState::offer`] does, and keeps these copies of it, so that whoever waits for the board
    /// does not wait for them to be made. Refused as there; `copies` stands for the room too.
    pub fn keep(
        &mut self,
        stamp: u64,
        offer: &Offer,
        copies: Result<(Offer, Offer), AllocError>,
    ) -> Result<(Taken, u64), CollectError>
        requires { IfOk copies (AreCopies offer.now) }
        ensures offers { Offers self.old self.new stamp offer.now result }
        ensures full { OnErr copies (IsErr result) }
        ensures members { self.new.collector.members ≡ self.old.collector.members }
    {
        kept_goes_on();
        if let Some(error) = self.collector.refusal(offer) {
            return Err(error);
        }
        let stamp = self.stamp.max(stamp).saturating_add(1);
        if stamp > GREATEST_STAMP {
            return Err(CollectError::StampEnd);
        }
        let (copy, collected) = copies?;
        self.offers.reserve(1)?;
        let taken = self.collector.offer(collected)?;
        self.offers.push_reserved(Made { stamp, offer: copy });
        self.stamp = stamp;
        Ok((taken, stamp))
    }

    /// Every offer that was made, in order, the first first. Their stamps rise.
    pub fn offers(&self) -> &[Made]
        ensures value { result.now ≡ self.now.offers }
        ensures board { IsBoard self.now }
    {
        self.offers.as_slice()
    }

    /// The stamp of the last offer, 0 at first.
    pub fn stamp(&self) -> u64
        ensures { result ≡ self.now.stamp }
    {
        self.stamp
    }

    /// The collector.
    pub fn collector(&self) -> &Collector
        ensures { result.now ≡ self.now.collector }
    {
        &self.collector
    }

    /// The offers alone, the first first.
    pub fn into_offers(self) -> Vec<Made>
        ensures value { result.items ≡ self.offers }
        ensures board { IsBoard self }
    {
        self.offers
    }
}
