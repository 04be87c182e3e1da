//! Changes of rows, each for every row at once.

ghost use Rattle.std.specs.Prelude.{◌≡◌, ◌≢◌, ◌<◌, ◌≤◌, ◌↔◌, ◌∷◌, [], ℕ, true, false, length, map, slice_get, slice_index_or, slice_set, Some, IsTrue, IfOk, OnOk, OnErr, MatchOption};
ghost use Rattle.std.specs.List.{All};
ghost use Rattle.prefix_lanes.specs.Bits.{PrefixView, is_prefix};
ghost use Rattle.rib_tables.specs.declared.row.Peer.{Peer};
ghost use Rattle.rib_tables.specs.declared.row.Row.{Row};
ghost use Rattle.rib_tables.specs.declared.word.Word.TheVariants.{Sequence};
ghost use Rattle.rib_tables.specs.declared.place_set.PlaceSet.{PlaceSet};
ghost use Rattle.bgp_codec.specs.declared.update.Update.{Update};
ghost use Rattle.rib_tables.specs.Words.{announced_word, nothing};
ghost use Rattle.rib_tables.specs.Places.{has};
ghost use Rattle.rib_tables.specs.Rows.{AreFit, AreWaiting, BestStays, IsWaiting, MarksSpeaking, StaysDecided, on, hearing, hearing_all, hearing_update, telling, keeping, originating, forgetting, clearing};

use crate::place_set::PlaceSet;
use crate::row::{Peer, Row, stays_best};
use crate::word::{Word, announced};
use bgp_codec::Update;
use indexmap::IndexSet;
use prefix_lanes::Prefix;
use ranked_policy::{Asn, MOST_PREFIXES, Path};
use std::alloc::{AllocError, Global};

// The place of a prefix.
pub(crate) fn place_of(keys: &IndexSet<Prefix>, prefix: &Prefix) -> Option<usize>
    ensures { MatchOption result
        ((i : ℕ) (q : PrefixView) → slice_get keys.now.keys i ≡ Some q → is_prefix prefix.now q ≡ false)
        (λ i. slice_get keys.now.keys i ≡ Some prefix.now) }
{
    keys.get_index_of(prefix)
}

// The place of a peer.
pub(crate) fn place_of_peer(peers: &[Peer], asn: Asn) -> Option<usize>
    ensures { MatchOption result
        ((k : ℕ) (p : Peer) → slice_get peers.now k ≡ Some p → p.asn ≡ asn → ⊥)
        (λ k. (p : Peer) × (slice_get peers.now k ≡ Some p) × (p.asn ≡ asn)) }
{
    for (peer_at, peer) in peers.iter().enumerate() {
        if peer.asn == asn {
            return Some(peer_at);
        }
    }
    None
}

// The words that an UPDATE announces, one for each prefix. All memory that an UPDATE needs is taken here.
fn announced_words(alloc: Global, update: &Update) -> Result<Vec<Word>, AllocError>
    ensures len { IfOk result (λ words. length words.items ≡ length update.now.nlri) }
    ensures same { IfOk result (λ words. All (λ word. word ≡ announced_word update.now.attrs) words.items) }
{
    let count = update.nlri.as_slice().len();
    let mut words = Vec::with_capacity(alloc, count)?;
    for _ in 0..count {
        words.push(announced(alloc, &update.attrs)?)?;
    }
    Ok(words)
}

// Marks a place as undecided, unless its kept path is known to stay the best when a peer says this word.
fn mark_heard(
    router: Asn,
    row: &Row,
    peer: usize,
    word: &Word,
    prefix_at: usize,
    dirty: &mut PlaceSet,
)
    requires peer { peer < length row.now.heard }
    requires place { prefix_at < MOST_PREFIXES }
    ensures here { has dirty.new prefix_at ≡ false
        → (has dirty.old prefix_at ≡ false) × BestStays router row.now peer word.now }
    ensures others { (other : ℕ) → other ≢ prefix_at → has dirty.new other ≡ has dirty.old other }
{
    if !dirty.has(prefix_at) && !stays_best(router, row, peer, word) {
        dirty.put(prefix_at);
    }
}

// A router that hears a peer: its number, the prefix of each of its rows, and the place of the peer.
#[derive(Drop)]
pub(crate) struct Listener<'a> {
    pub(crate) router: Asn,
    pub(crate) keys: &'a IndexSet<Prefix>,
    pub(crate) peer: usize,
}

// Takes a word of the peer for a prefix, if the network names the prefix.
pub(crate) fn hear_one(
    by: &Listener,
    rows: &mut Vec<Row>,
    dirty: &mut PlaceSet,
    prefix: &Prefix,
    word: Word,
)
    requires { (peers : ℕ) × AreFit by.now.keys.now.keys peers rows.old.items × (by.now.peer < peers) }
    ensures rows { rows.new.items ≡ map (on prefix.now (hearing by.now.peer word)) rows.old.items }
    ensures dirty { StaysDecided by.now.router rows.old.items rows.new.items dirty.old dirty.new }
{
    if let Some(prefix_at) = place_of(by.keys, prefix) {
        let row = &mut rows[prefix_at];
        mark_heard(by.router, row, by.peer, &word, prefix_at, dirty);
        row.heard.set(by.peer, word);
    }
}

// Takes what an UPDATE of the peer withdraws: the empty path for each prefix that the network names.
fn hear_withdrawn(
    alloc: Global,
    by: &Listener,
    rows: &mut Vec<Row>,
    dirty: &mut PlaceSet,
    update: &Update,
)
    requires { (peers : ℕ) × AreFit by.now.keys.now.keys peers rows.old.items × (by.now.peer < peers) }
    ensures rows { rows.new.items ≡ map (hearing_all update.now.withdrawn by.now.peer nothing) rows.old.items }
    ensures dirty { StaysDecided by.now.router rows.old.items rows.new.items dirty.old dirty.new }
{
    for prefix in update.withdrawn.as_slice() {
        let word = Word::Sequence(Path::new(alloc));
        hear_one(by, rows, dirty, prefix, word);
    }
}

// Takes the words that the peer announces, for the prefixes that the network names.
fn hear_announced(
    by: &Listener,
    rows: &mut Vec<Row>,
    dirty: &mut PlaceSet,
    update: &Update,
    words: Vec<Word>,
)
    requires fit { (peers : ℕ) × AreFit by.now.keys.now.keys peers rows.old.items × (by.now.peer < peers) }
    requires len { length words.items ≡ length update.now.nlri }
    requires same { All (λ one. one ≡ announced_word update.now.attrs) words.items }
    ensures rows { rows.new.items
        ≡ map (hearing_all update.now.nlri by.now.peer (announced_word update.now.attrs)) rows.old.items }
    ensures dirty { StaysDecided by.now.router rows.old.items rows.new.items dirty.old dirty.new }
{
    let mut words = words;
    for prefix in update.nlri.as_slice() {
        let word = words.pop().unwrap();
        hear_one(by, rows, dirty, prefix, word);
    }
}

// Takes an UPDATE of the peer. A refusal leaves all as it was.
pub(crate) fn hear_update(
    alloc: Global,
    by: &Listener,
    rows: &mut Vec<Row>,
    dirty: &mut PlaceSet,
    update: &Update,
) -> Result<(), AllocError>
    requires { (peers : ℕ) × AreFit by.now.keys.now.keys peers rows.old.items × (by.now.peer < peers) }
    ensures rows { OnOk result (rows.new.items ≡ map (hearing_update by.now.peer update.now) rows.old.items) }
    ensures dirty { OnOk result (StaysDecided by.now.router rows.old.items rows.new.items dirty.old dirty.new) }
    ensures same_rows { OnErr result (rows.new.items ≡ rows.old.items) }
    ensures same_dirty { OnErr result (dirty.new ≡ dirty.old) }
{
    if let [prefix] = update.nlri.as_slice() {
        let word = announced(alloc, &update.attrs)?;
        hear_withdrawn(alloc, by, rows, dirty, update);
        hear_one(by, rows, dirty, prefix, word);
    } else {
        let words = announced_words(alloc, update)?;
        hear_withdrawn(alloc, by, rows, dirty, update);
        hear_announced(by, rows, dirty, update, words);
    }
    Ok(())
}

// Removes all words of a peer. It takes no memory.
pub(crate) fn forget_words(alloc: Global, rows: &mut [Row], dirty: &mut PlaceSet, peer: usize)
    requires few { length rows.old ≤ MOST_PREFIXES }
    requires words { (i : ℕ) (r : Row) → slice_get rows.old i ≡ Some r
        → (peer < length r.heard) × (peer < length r.sent) }
    ensures rows { rows.new ≡ map (forgetting peer) rows.old }
    ensures dirty { MarksSpeaking peer rows.old dirty.old dirty.new }
{
    for prefix_at in 0..rows.len() {
        let row = &mut rows[prefix_at];
        if !row.heard.as_slice()[peer].path().is_empty() {
            dirty.put(prefix_at);
        }
        row.heard.set(peer, Word::Sequence(Path::new(alloc)));
        row.sent.set(peer, Word::Sequence(Path::new(alloc)));
    }
}

// Marks each place where a peer said a path. It takes no memory.
pub(crate) fn mark_words(rows: &[Row], dirty: &mut PlaceSet, peer: usize)
    requires few { length rows.now ≤ MOST_PREFIXES }
    requires words { (i : ℕ) (r : Row) → slice_get rows.now i ≡ Some r → peer < length r.heard }
    ensures { MarksSpeaking peer rows.now dirty.old dirty.new }
{
    for (prefix_at, row) in rows.iter().enumerate() {
        if !row.heard.as_slice()[peer].path().is_empty() {
            dirty.put(prefix_at);
        }
    }
}

// The places whose kept path is not the last word sent to a peer.
pub(crate) fn unadvertised(rows: &[Row], peer: usize) -> PlaceSet
    requires few { length rows.now ≤ MOST_PREFIXES }
    requires words { (i : ℕ) (r : Row) → slice_get rows.now i ≡ Some r → peer < length r.sent }
    ensures { (i : ℕ) (r : Row) → slice_get rows.now i ≡ Some r
        → (has result i ≡ true ↔ (slice_get r.sent peer ≢ Some (Sequence r.kept))) }
{
    let mut waiting = PlaceSet::new();
    for (prefix_at, row) in rows.iter().enumerate() {
        if !row.sent.as_slice()[peer].tells(row.kept.as_slice()) {
            waiting.put(prefix_at);
        }
    }
    waiting
}

// Sets which peers wait for one place, after a change of its row.
fn wait_anew(peers: &[Peer], row: &Row, prefix_at: usize, waits: &mut [PlaceSet])
    requires place { prefix_at < MOST_PREFIXES }
    requires len { length waits.old ≡ length peers.now }
    requires sent { length row.now.sent ≡ length peers.now }
    ensures len { length waits.new ≡ length waits.old }
    ensures here { (k : ℕ) (p : Peer) (w : PlaceSet) → slice_get peers.now k ≡ Some p → slice_get waits.new k ≡ Some w
        → (has w prefix_at ≡ true ↔ ((p.up ≡ true) × (slice_get row.now.sent k ≢ Some (Sequence row.now.kept)))) }
    ensures others { (k : ℕ) (w : PlaceSet) → slice_get waits.new k ≡ Some w
        → (v : PlaceSet) × (slice_get waits.old k ≡ Some v) × ((i : ℕ) → i ≢ prefix_at → has w i ≡ has v i) }
{
    for (k, peer) in peers.iter().enumerate() {
        let waiting = &mut waits[k];
        if peer.up && !row.sent.as_slice()[k].tells(row.kept.as_slice()) {
            waiting.put(prefix_at);
        } else {
            waiting.take_out(prefix_at);
        }
    }
}

// Does what `forget_words` does, for a `Vec`, whose loop is not proved by itself.
pub(crate) fn forget_all(alloc: Global, rows: &mut Vec<Row>, dirty: &mut PlaceSet, peer: usize)
    requires few { length rows.old.items ≤ MOST_PREFIXES }
    requires words { (i : ℕ) (r : Row) → slice_get rows.old.items i ≡ Some r
        → (peer < length r.heard) × (peer < length r.sent) }
    ensures rows { rows.new.items ≡ map (forgetting peer) rows.old.items }
    ensures dirty { MarksSpeaking peer rows.old.items dirty.old dirty.new }
{
    forget_words(alloc, rows.as_mut_slice(), dirty, peer);
}

// Sets whether the session with the peer at a place is Established.
pub(crate) fn set_up(peers: &mut Vec<Peer>, peer_at: usize, up: bool)
    requires { peer_at < length peers.old.items }
    ensures { (p : Peer) → slice_get peers.old.items peer_at ≡ Some p
        → peers.new.items ≡ slice_set peers.old.items peer_at (record { asn = p.asn; up = up }) }
{
    peers[peer_at].up = up;
}

// Keeps a path for the prefix at a place, and sets which peers wait for it. Answers the prefix.
pub(crate) fn keep_at(
    peers: &[Peer],
    rows: &mut Vec<Row>,
    waits: &mut Vec<PlaceSet>,
    prefix_at: usize,
    path: Path,
) -> Prefix
    requires within { prefix_at < length rows.old.items }
    requires place { prefix_at < MOST_PREFIXES }
    requires len { length waits.old.items ≡ length peers.now }
    requires sent { (r : Row) → slice_get rows.old.items prefix_at ≡ Some r → length r.sent ≡ length peers.now }
    ensures prefix { (r : Row) → slice_get rows.old.items prefix_at ≡ Some r → result ≡ r.prefix }
    ensures rows { (r : Row) → slice_get rows.old.items prefix_at ≡ Some r
        → rows.new.items ≡ slice_set rows.old.items prefix_at (keeping path r) }
    ensures len { length waits.new.items ≡ length waits.old.items }
    ensures here { (r : Row) (k : ℕ) (p : Peer) (w : PlaceSet) → slice_get rows.old.items prefix_at ≡ Some r
        → slice_get peers.now k ≡ Some p → slice_get waits.new.items k ≡ Some w
        → (has w prefix_at ≡ true ↔ ((p.up ≡ true) × (slice_get r.sent k ≢ Some (Sequence path)))) }
    ensures others { (k : ℕ) (w : PlaceSet) → slice_get waits.new.items k ≡ Some w
        → (v : PlaceSet) × (slice_get waits.old.items k ≡ Some v) × ((i : ℕ) → i ≢ prefix_at → has w i ≡ has v i) }
{
    let row = &mut rows[prefix_at];
    row.kept = path;
    wait_anew(peers, row, prefix_at, waits.as_mut_slice());
    row.prefix
}

// Records the word sent to a peer for the prefix at a place.
pub(crate) fn tell_at(rows: &mut Vec<Row>, prefix_at: usize, peer: usize, word: Word)
    requires within { prefix_at < length rows.old.items }
    requires words { (r : Row) → slice_get rows.old.items prefix_at ≡ Some r → peer < length r.sent }
    ensures { (r : Row) → slice_get rows.old.items prefix_at ≡ Some r
        → rows.new.items ≡ slice_set rows.old.items prefix_at (telling peer word r) }
{
    let row = &mut rows[prefix_at];
    row.sent.set(peer, word);
}

// Sets whether the router originates the prefix at a place.
pub(crate) fn originate_at(rows: &mut Vec<Row>, prefix_at: usize, now: bool)
    requires { prefix_at < length rows.old.items }
    ensures { (r : Row) → slice_get rows.old.items prefix_at ≡ Some r
        → rows.new.items ≡ slice_set rows.old.items prefix_at (originating now r) }
{
    let row = &mut rows[prefix_at];
    row.originated = now;
}

// Keeps no path for any prefix, and originates none. It takes no memory.
pub(crate) fn clear_all(alloc: Global, rows: &mut Vec<Row>, dirty: &mut PlaceSet)
    requires { length rows.old.items ≤ MOST_PREFIXES }
    ensures rows { rows.new.items ≡ map clearing rows.old.items }
    ensures dirty { (i : ℕ) → i < length rows.old.items → has dirty.new i ≡ true }
{
    for prefix_at in 0..rows.len() {
        let row = &mut rows[prefix_at];
        row.kept = Path::new(alloc);
        row.originated = false;
        dirty.put(prefix_at);
    }
}

// The places that a peer waits for. It takes no memory.
fn waiting_now(peer: &Peer, rows: &[Row], peer_at: usize) -> PlaceSet
    requires few { length rows.now ≤ MOST_PREFIXES }
    requires words { (i : ℕ) (r : Row) → slice_get rows.now i ≡ Some r → peer_at < length r.sent }
    ensures { IsWaiting peer_at peer.now rows.now result }
{
    if peer.up {
        unadvertised(rows, peer_at)
    } else {
        PlaceSet::new()
    }
}

// Sets what each peer waits for, after a change of all rows. It takes no memory.
pub(crate) fn wait_after_all(peers: &[Peer], rows: &[Row], waits: &mut Vec<PlaceSet>)
    requires few { length rows.now ≤ MOST_PREFIXES }
    requires words { (i : ℕ) (r : Row) → slice_get rows.now i ≡ Some r → length r.sent ≡ length peers.now }
    requires len { length waits.old.items ≡ length peers.now }
    ensures { AreWaiting peers.now rows.now waits.new.items }
{
    for (peer_at, peer) in peers.iter().enumerate() {
        waits[peer_at] = waiting_now(peer, rows, peer_at);
    }
}
