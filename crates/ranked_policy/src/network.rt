//! Networks as they are kept.

use crate::builder::NetBuilder;
use crate::items::NetItems;
use crate::path::{Asn, Path};
use crate::peers::peers_of;
use crate::places::{find_prefix, find_router};
use crate::rules::Rules;
use crate::table::PolicyTable;
use bgp_values::Width;
use prefix_lanes::Prefix;
use std::alloc::{AllocError, Global};
use std::marker::Model;

/// What every router of a network is told.
#[derive(Clone, Copy, Debug, PartialEq, Eq)]
pub struct Settings {
    /// The hold time that each OPEN proposes, in seconds: 0, or 3 and more (RFC 4271 section 4.2).
    pub hold: u16,
    /// Seconds until a session that closed starts again by itself, 0 for never.
    pub restart: u16,
    /// The most octets that pass over a link in one piece, 1 to [`GREATEST_CUT`](crate::GREATEST_CUT).
    pub cut: usize,
    /// How many items a one-way pipe of a link holds, 1 to [`GREATEST_PIPE`](crate::GREATEST_PIPE).
    pub pipe: usize,
    /// How many octets an AS number has in messages. Each router's number fits them.
    pub width: Width,
}

/// The paths that a router may use for the prefixes that a prefix covers, the best first.
#[derive(Debug, Drop)]
pub struct RankRule {
    /// The prefix that covers those prefixes.
    pub prefix: Prefix,
    /// Its ranked paths.
    pub paths: NetItems<Path>,
}

/// A router.
#[derive(Debug, Drop)]
pub struct NetRouter {
    /// Its number.
    pub asn: Asn,
    /// Its identifier, an address (RFC 4271 section 4.2).
    pub id: u32,
    /// Its rules, in the order in which they were named.
    pub rules: Rules,
}

/// Two routers that are peers of each other.
#[derive(Clone, Copy, Debug, PartialEq, Eq)]
pub struct Link {
    /// One of them.
    pub one: Asn,
    /// The other.
    pub other: Asn,
}

/// A prefix, and the router that originates it.
#[derive(Debug, Drop)]
pub struct Origin {
    /// The prefix.
    pub prefix: Prefix,
    /// Its origin.
    pub router: Asn,
}

/// A network: it has a router, and links lead from each router to each other one. It does not change.
#[derive(Debug, Drop)]
pub struct Network {
    built: NetBuilder,
}

impl Model for Network {
    ghost use Rattle.ranked_policy.specs.Plans.{Plan, IsNetwork};

    ghost Value = { Plan };

    ghost view = { λ n. n.built };

    ghost invariant = { λ n. IsNetwork n.built };
}

impl Network {
    ghost use Rattle.std.specs.Prelude.{◌≡◌, ◌<◌, ◌↔◌, ℕ, Some, IsTrue, IsSome, IfSome, IfOk, length, map, slice_get};
    ghost use Rattle.std.specs.List.{All, AllPairs, Contains, HoldsAt};
    ghost use Rattle.ranked_policy.specs.Plans.{IsNetwork, IsRouter, IsOrigin, IsNamed, Linked};
    ghost use Rattle.ranked_policy.specs.Policies.{IsTable, IsTableOf};
    ghost use Rattle.ranked_policy.specs.Peers.{peers};
    ghost use Rattle.ranked_policy.specs.Ways.{HasWay};

    /// The network that was built.
    pub(crate) fn from_builder(built: NetBuilder) -> Network
        requires { IsNetwork built }
        ensures { result ≡ built }
    {
        Network { built }
    }

    /// The builder that made the network: its readers answer for the network.
    pub fn built(&self) -> &NetBuilder
        ensures value { result.now ≡ self.now }
        ensures network { IsNetwork self.now }
    {
        &self.built
    }

    /// The settings.
    pub fn settings(&self) -> Settings
        ensures value { result ≡ self.now.settings }
        ensures network { IsNetwork self.now }
    {
        self.built.settings()
    }

    /// The routers, by rising number.
    pub fn routers(&self) -> &[NetRouter]
        ensures value { result.now ≡ self.now.routers }
        ensures network { IsNetwork self.now }
    {
        self.built.routers()
    }

    /// The links, in the order in which they were named.
    pub fn links(&self) -> &[Link]
        ensures value { result.now ≡ self.now.links }
        ensures network { IsNetwork self.now }
    {
        self.built.links()
    }

    /// The links of a router, each from it to a peer, by rising peer; none if there is no such
    /// router. They are found by a binary search, and take no memory.
    pub fn links_of(&self, asn: Asn) -> &[Link]
        ensures from { All (λ link. link.one ≡ asn) result.now }
        ensures rising { AllPairs (λ link later. link.other < later.other) result.now }
        ensures exact { (v : ℕ) → (HasWay result.now asn v ↔ Linked self.now.links asn v) }
        ensures peers { map (λ link. link.other) result.now ≡ peers self.now asn }
    {
        self.built.links_of(asn)
    }

    /// The prefixes with their origins, by address, then by length; each prefix once.
    pub fn origins(&self) -> &[Origin]
        ensures value { result.now ≡ self.now.origins }
        ensures network { IsNetwork self.now }
    {
        self.built.origins()
    }

    /// Whether a router has the number.
    pub fn has_router(&self, asn: Asn) -> bool
        ensures { IsTrue result ↔ IsRouter self.now.routers asn }
    {
        self.built.has_router(asn)
    }

    /// The place of the router with this number among [`Network::routers`].
    pub fn place(&self, asn: Asn) -> Option<usize>
        ensures some { IsSome result ↔ IsRouter self.now.routers asn }
        ensures value { IfSome result
            (λ i. (i < length self.now.routers) × HoldsAt (λ r. r.asn ≡ asn) self.now.routers i) }
    {
        find_router(self.routers(), asn)
    }

    /// The place of the prefix among [`Network::origins`].
    pub fn prefix_place(&self, prefix: &Prefix) -> Option<usize>
        ensures some { IsSome result ↔ IsNamed self.now.origins prefix.now }
        ensures value { IfSome result
            (λ i. (i < length self.now.origins) × HoldsAt (λ origin. origin.prefix ≡ prefix.now) self.now.origins i) }
        ensures stands { IfSome result
            (λ i. slice_get (map (λ origin. origin.prefix) self.now.origins) i ≡ Some prefix.now) }
    {
        find_prefix(self.origins(), prefix)
    }

    /// Whether a link joins the two.
    pub fn linked(&self, a: Asn, b: Asn) -> bool
        ensures { IsTrue result ↔ Linked self.now.links a b }
    {
        self.built.linked(a, b)
    }

    /// Whether the router is the origin of the prefix.
    pub fn is_origin(&self, asn: Asn, prefix: &Prefix) -> bool
        ensures { IsTrue result ↔ IsOrigin self.now.origins asn prefix.now }
    {
        self.built.is_origin(asn, prefix)
    }

    /// Whether the prefix has an origin.
    pub fn names(&self, prefix: &Prefix) -> bool
        ensures { IsTrue result ↔ IsNamed self.now.origins prefix.now }
    {
        self.built.names(prefix)
    }

    /// The router with this number.
    pub fn router(&self, asn: Asn) -> Option<&NetRouter>
        ensures some { IsSome result ↔ IsRouter self.now.routers asn }
        ensures value { IfSome result (λ router. (router.now.asn ≡ asn) × Contains self.now.routers router.now) }
    {
        self.built.router(asn)
    }

    /// The numbers of a router's peers, rising. It is refused only for want of memory.
    pub fn peers(&self, alloc: Global, asn: Asn) -> Result<NetItems<Asn>, AllocError>
        ensures rising { IfOk result (λ peers. AllPairs (λ u v. u < v) peers) }
        ensures exact { IfOk result (λ peers. (v : ℕ) → (Contains peers v ↔ Linked self.now.links asn v)) }
        ensures peers { IfOk result (λ numbers. numbers ≡ peers self.now asn) }
    {
        peers_of(alloc, self.links_of(asn))
    }

    /// The policies of a router.
    pub fn policies(&self, asn: Asn) -> Option<PolicyTable<'_>>
        ensures some { IsSome result ↔ IsRouter self.now.routers asn }
        ensures value { IfSome result (λ table. IsTableOf self.now asn table) }
        ensures table { IfSome result IsTable }
    {
        match self.router(asn) {
            Some(router) => Some(PolicyTable::new(asn, &router.rules, self.origins())),
            None => None,
        }
    }
}
