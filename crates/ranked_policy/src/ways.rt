//! Links as they are seen from either end, so that those of one router lie side by side.

ghost use Rattle.std.specs.Prelude.{◌≡◌, ◌≤◌, ◌<◌, ◌+◌, ◌==◌, ◌↔◌, ◌⊎◌, nat_lt, IsTrue, ℕ, [], length, take, drop, IfOk, IfErr, OnOk, OnErr, vec_len, vec_capacity};
ghost use Rattle.std.specs.List.{All, AllPairs};
ghost use Rattle.ranked_policy.specs.Plans.{Joins};
ghost use Rattle.ranked_policy.specs.Ways.{IsEarlier, HasWay, AreFrom};

use crate::network::Link;
use crate::path::Asn;
use std::alloc::{AllocError, Global};
use std::marker::Model;

/// Each link twice, once from each of its ends. Ways are ordered by the end that they lead from, then by the other.
#[derive(Debug, Drop)]
pub(crate) struct Ways {
    ways: Vec<Link>,
}

impl Model for Ways {
    ghost use Rattle.std.specs.Prelude.{List};
    ghost use Rattle.std.specs.List.{AllPairs};
    ghost use Rattle.ranked_policy.specs.declared.network.Link.{Link};
    ghost use Rattle.ranked_policy.specs.Ways.{IsEarlier};

    ghost Value = { List Link };

    ghost view = { λ w. w.ways.items };

    ghost invariant = { λ w. AllPairs IsEarlier w.ways.items };
}

// The place of the way from one to the other, or the place where it belongs.
fn place_of(ways: &[Link], one: Asn, other: Asn) -> Result<usize, usize>
    requires { AllPairs IsEarlier ways.now }
    ensures found { IfOk result (λ i. HasWay ways.now one other) }
    ensures bound { IfErr result (λ i. i ≤ length ways.now) }
    ensures before { IfErr result
        (λ i. All (λ way. IsEarlier way (record { one = one; other = other })) (take i ways.now)) }
    ensures behind { IfErr result
        (λ i. All (λ way. IsEarlier (record { one = one; other = other }) way) (drop i ways.now)) }
{
    ways.binary_search_by_key(&(one, other), |way| (way.one, way.other))
}

// Adds the way from one to the other, if it is missing.
fn add(ways: &mut Vec<Link>, one: Asn, other: Asn)
    requires rising { AllPairs IsEarlier ways.old.items }
    requires room { vec_len ways.old < vec_capacity ways.old }
    ensures rising { AllPairs IsEarlier ways.new.items }
    ensures adds { (u v : ℕ) → (HasWay ways.new.items u v ↔ (HasWay ways.old.items u v ⊎ ((one ≡ u) × (other ≡ v)))) }
    ensures len { vec_len ways.new ≤ vec_len ways.old + 1 }
    ensures capacity { vec_capacity ways.old ≤ vec_capacity ways.new }
{
    if let Err(place) = place_of(ways.as_slice(), one, other) {
        ways.insert(place, Link { one, other }).unwrap();
    }
}

// The ways from this router.
fn ways_from(ways: &[Link], asn: Asn) -> &[Link]
    requires { AllPairs IsEarlier ways.now }
    ensures { AreFrom asn ways.now result.now }
{
    let start = ways.partition_point(
        |way: &Link| -> bool
            ensures { result ≡ nat_lt way.now.one asn }
        { way.one < asn },
    );
    let (_, behind) = ways.split_at(start);
    let count = behind.partition_point(
        |way: &Link| -> bool
            ensures { result ≡ (way.now.one == asn) }
        { way.one == asn },
    );
    let (here, _) = behind.split_at(count);
    here
}

impl Ways {
    /// The empty list of ways.
    pub(crate) fn new(alloc: Global) -> Ways
        ensures { result ≡ [] }
    {
        Ways {
            ways: Vec::new(alloc),
        }
    }

    /// Adds a link in both directions. A refused growth changes nothing.
    pub(crate) fn join(&mut self, a: Asn, b: Asn) -> Result<(), AllocError>
        ensures joins { OnOk result
            ((u v : ℕ) → (HasWay self.new u v ↔ (HasWay self.old u v ⊎ Joins (record { one = a; other = b }) u v))) }
        ensures err { OnErr result (self.new ≡ self.old) }
    {
        self.ways.reserve(2)?;
        add(&mut self.ways, a, b);
        add(&mut self.ways, b, a);
        Ok(())
    }

    /// Whether a way leads from one to the other.
    pub(crate) fn has(&self, one: Asn, other: Asn) -> bool
        ensures { IsTrue result ↔ HasWay self.now one other }
    {
        place_of(self.ways.as_slice(), one, other).is_ok()
    }

    /// The ways from this router, by the peers to which they lead, rising.
    pub(crate) fn of(&self, asn: Asn) -> &[Link]
        ensures from { All (λ way. way.one ≡ asn) result.now }
        ensures rising { AllPairs (λ way later. way.other < later.other) result.now }
        ensures exact { (v : ℕ) → (HasWay result.now asn v ↔ HasWay self.now asn v) }
    {
        ways_from(self.ways.as_slice(), asn)
    }
}
