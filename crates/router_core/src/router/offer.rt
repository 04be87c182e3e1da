//! The offers that a router makes of its recordings, and whether it has nothing to do alone.

ghost use Rattle.std.specs.Prelude.{◌≡◌, ◌≤◌, ◌<◌, true, [], ◌∷◌, Ok, None, IfSome, OnOk, OnErr, MatchOption};
ghost use Rattle.run_model.specs.Offers.{made_of};
ghost use Rattle.snap_collector.specs.Collector.{made_for, with_offers};
ghost use Rattle.router_model.specs.declared.refusal.Stepped.TheVariants.{Nothing};
ghost use Rattle.router_model.specs.Step.{next_offer};
ghost use Rattle.router_model.specs.Calls.{Decide, Advertise, offer_made};
ghost use Rattle.run_model.specs.declared.stamps.TheConstants.{GREATEST_STAMP};
ghost use Rattle.router_core.specs.Views.{plain_of, Answers, IsOffered, HasOffer, IsSame};

use super::Router;
use crate::best_path::the_best_is_the_best_path;
use snap_collector::Collector;
use snap_marker::Offer;
use std::alloc::AllocError;

impl Router<'_> {
    /// The offer that waits in front, if one does.
    pub fn next_offer(&self) -> Option<&Offer>
        ensures { MatchOption result (next_offer (plain_of self.now).router ≡ None)
            (λ offer. IsOffered self.now offer.now) }
    {
        self.marks.next_offer()
    }

    /// Whether it shows, without a look at any path, that the router has nothing to decide, nobody to tell and nothing to
    /// offer. `false` says nothing. It takes no memory.
    pub fn is_idle(&self) -> bool
        ensures decide { result ≡ true → Answers (Ok Nothing) self.now Decide self.now }
        ensures advertise { result ≡ true → Answers (Ok Nothing) self.now Advertise self.now }
        ensures offer { result ≡ true → next_offer (plain_of self.now).router ≡ None }
    {
        the_best_is_the_best_path(&self.tables);
        self.tables.has_nothing_to_do() && self.next_offer().is_none()
    }

    /// Makes the offer in front, by an event with this stamp. It takes no memory, and cannot be refused.
    pub fn offer_made(&mut self, stamp: u64)
        requires waits { HasOffer self.old }
        requires later { self.old.stamp < stamp }
        requires few { stamp ≤ GREATEST_STAMP }
        ensures made { plain_of self.new ≡ offer_made (plain_of self.old) stamp }
        ensures same { IsSame self.old self.new }
    {
        self.marks.offer_made();
        self.stamp = stamp;
    }

    /// Makes the offer in front to a collector, by an event with this stamp: the offer moves there. If a growth is
    /// refused, the router and the collector stay as they were.
    pub fn offer_to(&mut self, collector: &mut Collector, stamp: u64) -> Result<(), AllocError>
        requires waits { HasOffer self.old }
        requires later { self.old.stamp < stamp }
        requires few { stamp ≤ GREATEST_STAMP }
        ensures made { OnOk result (plain_of self.new ≡ offer_made (plain_of self.old) stamp) }
        ensures kept { OnOk result
            (IfSome (next_offer (plain_of self.old).router)
            (λ offer. made_for collector.new
            ≡ with_offers (made_for collector.old) (made_of self.old.number offer ∷ []))) }
        ensures err { OnErr result (self.new ≡ self.old) }
        ensures unkept { OnErr result (collector.new ≡ collector.old) }
        ensures members { collector.new.members ≡ collector.old.members }
        ensures same { IsSame self.old self.new }
    {
        collector.record_from(&mut self.marks)?;
        self.stamp = stamp;
        Ok(())
    }
}
