//! A network that is built line by line.

ghost use Rattle.std.specs.Prelude.{◌≡◌, ◌≢◌, ◌<◌, ◌↔◌, ℕ, [], map, IsTrue, IsSome, IfSome, IfOk, OnOk, IfErr, OnErr, MatchResult};
ghost use Rattle.std.specs.List.{All, AllPairs, Any, Contains};
ghost use Rattle.ranked_policy.specs.Plans.{IsPlan, IsNetwork, IsRouter, IsOrigin, IsNamed, Linked};
ghost use Rattle.ranked_policy.specs.Adding.{IsRefused, MeetsAll, SettingsMeet, RouterMeets, LinkMeets, OriginMeets, RuleMeets, NetworkMeets, AddsRouter, AddsOrigin, AddsRule, empty_plan, with_link};
ghost use Rattle.ranked_policy.specs.Peers.{peers};
ghost use Rattle.ranked_policy.specs.Ways.{HasWay};

use crate::admission::{is_settings, judge_link, judge_origin, judge_router, judge_rule};
use crate::connected::is_connected;
use crate::items::NetItems;
use crate::network::{Link, NetRouter, Network, Origin, RankRule, Settings};
use crate::path::{Asn, Path};
use crate::places::{
    find_prefix, find_router, is_origin, place_of_prefix, place_of_router, router_of,
};
use crate::refusal::NetError;
use crate::rules::Rules;
use crate::ways::Ways;
use prefix_lanes::Prefix;
use std::alloc::Global;
use std::marker::Model;

/// A network so far. What it holds is within the limits and names only its own routers; a refused
/// call leaves it as it was.
#[derive(Debug, Drop)]
pub struct NetBuilder {
    settings: Settings,
    routers: Vec<NetRouter>,
    links: Vec<Link>,
    origins: Vec<Origin>,
    // The links from either end.
    ways: Ways,
}

impl Model for NetBuilder {
    ghost use Rattle.ranked_policy.specs.Plans.{Plan, IsPlan};
    ghost use Rattle.ranked_policy.specs.Ways.{AreWays};

    ghost Value = { Plan };

    ghost view = { λ b.
        record { settings = b.settings; routers = b.routers.items; links = b.links.items; origins = b.origins.items } };

    ghost invariant = { λ b.
        IsPlan (record { settings = b.settings; routers = b.routers.items; links = b.links.items; origins = b.origins.items })
        × AreWays b.links.items b.ways };
}

impl NetBuilder {
    /// A network without routers. It takes no memory. Refused `BadNumber` exactly where a setting is outside its range.
    pub fn new(alloc: Global, settings: Settings) -> Result<NetBuilder, NetError>
        ensures ok { IfOk result (λ net. net ≡ empty_plan settings) }
        ensures met { OnOk result (MeetsAll (SettingsMeet settings)) }
        ensures refused { IfErr result (λ e. (e ≢ NetError.Memory) × IsRefused (SettingsMeet settings) e) }
    {
        if !is_settings(&settings) {
            return Err(NetError::BadNumber);
        }
        Ok(NetBuilder {
            settings,
            routers: Vec::new(alloc),
            links: Vec::new(alloc),
            origins: Vec::new(alloc),
            ways: Ways::new(alloc),
        })
    }

    /// Adds a router, with no link and no rule.
    pub fn push_router(&mut self, asn: Asn, id: u32) -> Result<(), NetError>
        ensures ok { OnOk result (AddsRouter self.old self.new asn id) }
        ensures met { OnOk result (MeetsAll (RouterMeets self.old.settings.width self.old.routers asn id)) }
        ensures err { OnErr result (self.new ≡ self.old) }
        ensures refused { IfErr result (IsRefused (RouterMeets self.old.settings.width self.old.routers asn id)) }
    {
        if let Err(error) = judge_router(self.settings.width, self.routers.as_slice(), asn, id) {
            return Err(error);
        }
        let Err(place) = place_of_router(self.routers.as_slice(), asn) else {
            return Err(NetError::Repeated);
        };
        let rules = Rules::new(*self.routers.allocator());
        if let Err(_) = self.routers.insert(place, NetRouter { asn, id, rules }) {
            return Err(NetError::Memory);
        }
        Ok(())
    }

    /// Adds a link between two routers.
    pub fn push_link(&mut self, a: Asn, b: Asn) -> Result<(), NetError>
        ensures ok { OnOk result (self.new ≡ with_link self.old a b) }
        ensures met { OnOk result (MeetsAll (LinkMeets self.old.routers self.old.links a b)) }
        ensures err { OnErr result (self.new ≡ self.old) }
        ensures refused { IfErr result (IsRefused (LinkMeets self.old.routers self.old.links a b)) }
    {
        let judged = judge_link(
            self.routers.as_slice(),
            self.links.as_slice(),
            &self.ways,
            a,
            b,
        );
        if let Err(error) = judged {
            return Err(error);
        }
        if let Err(_) = self.links.reserve(1) {
            return Err(NetError::Memory);
        }
        if let Err(_) = self.ways.join(a, b) {
            return Err(NetError::Memory);
        }
        self.links.push_reserved(Link { one: a, other: b });
        Ok(())
    }

    /// Names the origin of a prefix. A prefix has no more than one.
    pub fn push_origin(&mut self, asn: Asn, prefix: Prefix) -> Result<(), NetError>
        ensures ok { OnOk result (AddsOrigin self.old self.new asn prefix) }
        ensures met { OnOk result (MeetsAll (OriginMeets self.old.routers self.old.origins asn prefix)) }
        ensures err { OnErr result (self.new ≡ self.old) }
        ensures refused { IfErr result (IsRefused (OriginMeets self.old.routers self.old.origins asn prefix)) }
    {
        let _bits = prefix.len();
        if let Err(error) = judge_origin(
            self.routers.as_slice(),
            self.origins.as_slice(),
            asn,
            &prefix,
        ) {
            return Err(error);
        }
        let Err(place) = place_of_prefix(self.origins.as_slice(), &prefix) else {
            return Err(NetError::Repeated);
        };
        let router = asn;
        if let Err(_) = self.origins.insert(place, Origin { prefix, router }) {
            return Err(NetError::Memory);
        }
        Ok(())
    }

    /// Gives a router the ranked paths, best first, for the prefixes that this one covers.
    pub fn push_rule(&mut self, asn: Asn, prefix: Prefix, paths: Vec<Path>) -> Result<(), NetError>
        ensures ok { OnOk result (AddsRule self.old self.new asn prefix paths.items) }
        ensures met { OnOk result (MeetsAll (RuleMeets self.old.routers asn prefix paths.items)) }
        ensures err { OnErr result (self.new ≡ self.old) }
        ensures refused { IfErr result (IsRefused (RuleMeets self.old.routers asn prefix paths.items)) }
    {
        let _bits = prefix.len();
        if let Err(error) = judge_rule(self.routers.as_slice(), asn, &prefix, paths.as_slice()) {
            return Err(error);
        }
        let Ok(place) = place_of_router(self.routers.as_slice(), asn) else {
            return Err(NetError::UnknownRouter);
        };
        let paths = NetItems::from_vec(paths);
        if let Err(_) = self.routers[place].rules.push(RankRule { prefix, paths }) {
            return Err(NetError::Memory);
        }
        Ok(())
    }

    /// Makes the network. Refused with `Limit` if it has no router, and with `NotConnected` if links do not lead from
    /// each router to each other one. It takes no memory. A refusal gives the builder back.
    pub fn finish(self) -> Result<Network, (NetBuilder, NetError)>
        ensures ok { IfOk result (λ net. net ≡ self) }
        ensures network { IfOk result IsNetwork }
        ensures err { IfErr result (λ refused. refused.0 ≡ self) }
        ensures refused { IfErr result
            (λ refused. (refused.1 ≢ NetError.Memory) × IsRefused (NetworkMeets self.routers self.links) refused.1) }
    {
        if self.routers.as_slice().is_empty() {
            return Err((self, NetError::Limit));
        }
        if !is_connected(self.routers.as_slice(), self.links.as_slice()) {
            return Err((self, NetError::NotConnected));
        }
        Ok(Network::from_builder(self))
    }

    /// The settings.
    pub fn settings(&self) -> Settings
        ensures value { result ≡ self.now.settings }
        ensures plan { IsPlan self.now }
    {
        self.settings
    }

    /// The routers, by rising number.
    pub fn routers(&self) -> &[NetRouter]
        ensures value { result.now ≡ self.now.routers }
        ensures plan { IsPlan self.now }
    {
        self.routers.as_slice()
    }

    /// The links, in the order in which they were named.
    pub fn links(&self) -> &[Link]
        ensures value { result.now ≡ self.now.links }
        ensures plan { IsPlan self.now }
    {
        self.links.as_slice()
    }

    /// The links of a router, each from it to a peer, by rising peer.
    pub fn links_of(&self, asn: Asn) -> &[Link]
        ensures from { All (λ link. link.one ≡ asn) result.now }
        ensures rising { AllPairs (λ link later. link.other < later.other) result.now }
        ensures exact { (v : ℕ) → (HasWay result.now asn v ↔ Linked self.now.links asn v) }
        ensures peers { map (λ link. link.other) result.now ≡ peers self.now asn }
    {
        self.ways.of(asn)
    }

    /// The prefixes with their origins, by address, then by length; each prefix once.
    pub fn origins(&self) -> &[Origin]
        ensures value { result.now ≡ self.now.origins }
        ensures plan { IsPlan self.now }
    {
        self.origins.as_slice()
    }

    /// Whether a router has the number.
    pub fn has_router(&self, asn: Asn) -> bool
        ensures { IsTrue result ↔ IsRouter self.now.routers asn }
    {
        find_router(self.routers.as_slice(), asn).is_some()
    }

    /// Whether a link joins the two.
    pub fn linked(&self, a: Asn, b: Asn) -> bool
        ensures { IsTrue result ↔ Linked self.now.links a b }
    {
        self.ways.has(a, b)
    }

    /// Whether the router is the origin of the prefix.
    pub fn is_origin(&self, asn: Asn, prefix: &Prefix) -> bool
        ensures { IsTrue result ↔ IsOrigin self.now.origins asn prefix.now }
    {
        is_origin(self.origins.as_slice(), asn, prefix)
    }

    /// Whether the prefix has an origin.
    pub fn names(&self, prefix: &Prefix) -> bool
        ensures { IsTrue result ↔ IsNamed self.now.origins prefix.now }
    {
        find_prefix(self.origins.as_slice(), prefix).is_some()
    }

    /// The router with this number.
    pub fn router(&self, asn: Asn) -> Option<&NetRouter>
        ensures some { IsSome result ↔ IsRouter self.now.routers asn }
        ensures value { IfSome result (λ router. (router.now.asn ≡ asn) × Contains self.now.routers router.now) }
    {
        router_of(self.routers.as_slice(), asn)
    }
}
