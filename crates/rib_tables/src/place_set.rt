//! Sets of places, for as many prefixes as a network may name.

ghost use Rattle.std.specs.Prelude.{◌≡◌, ◌≢◌, ◌<◌, ℕ, true, false, MatchOption};
ghost use Rattle.rib_tables.specs.Places.{has};

use ranked_policy::MOST_PREFIXES;

/// A set of places below [`MOST_PREFIXES`], a bit for each.
#[derive(Clone, Copy, Debug, PartialEq, Eq)]
pub struct PlaceSet {
    words: [u64; 4],
}

impl PlaceSet {
    // The empty set.
    pub(crate) fn new() -> PlaceSet
        ensures { (place : ℕ) → has result place ≡ false }
    {
        PlaceSet { words: [0; 4] }
    }

    // Whether the place is in the set.
    pub(crate) fn has(&self, place: usize) -> bool
        requires { place < MOST_PREFIXES }
        ensures { result ≡ has self.now place }
    {
        (self.words[place / 64] >> (place % 64)) & 1 == 1
    }

    // Whether no place is in the set.
    pub(crate) fn is_empty(&self) -> bool
        ensures { result ≡ true → (place : ℕ) → has self.now place ≡ false }
    {
        let [first, second, third, last] = self.words;
        first | second | third | last == 0
    }

    // Adds the place to the set.
    pub(crate) fn put(&mut self, place: usize)
        requires { place < MOST_PREFIXES }
        ensures here { has self.new place ≡ true }
        ensures others { (other : ℕ) → other ≢ place → has self.new other ≡ has self.old other }
    {
        self.words[place / 64] |= 1 << (place % 64);
    }

    // Removes the place from the set.
    pub(crate) fn take_out(&mut self, place: usize)
        requires { place < MOST_PREFIXES }
        ensures here { has self.new place ≡ false }
        ensures others { (other : ℕ) → other ≢ place → has self.new other ≡ has self.old other }
    {
        self.words[place / 64] &= !(1 << (place % 64));
    }

    // The least place of the set.
    pub(crate) fn first(&self) -> Option<usize>
        ensures { MatchOption result
            ((place : ℕ) → has self.now place ≡ false)
            (λ first. (first < MOST_PREFIXES) × (has self.now first ≡ true)
            × ((place : ℕ) → place < first → has self.now place ≡ false)) }
    {
        for (index, word) in self.words.iter().enumerate() {
            if *word != 0 {
                return Some(64 * index + word.trailing_zeros() as usize);
            }
        }
        None
    }

    // Whether the set has a place below `places`.
    pub(crate) fn has_below(&self, places: usize) -> bool
        ensures some { result ≡ true → (place : ℕ) × (place < places) × (has self.now place ≡ true) }
        ensures none { result ≡ false → (place : ℕ) → place < places → has self.now place ≡ false }
    {
        if self.is_empty() {
            return false;
        }
        match self.first() {
            Some(place) => place < places,
            None => false,
        }
    }
}
