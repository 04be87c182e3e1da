//! Prefixes, masks of many addresses, and the table that finds the longest that covers.

ghost use Rattle.std.specs.Prelude.{◌≤◌};

use prefix_lanes::{CAPACITY, CoverError, CoverTable, Prefix, mask_all};
use std::process::Abort;

/// The mask of each length, as network masks are usually written.
#[rattlefmt::skip]
static MASKS: [u32; 33] = [
    0x0000_0000,
    0x8000_0000, 0xc000_0000, 0xe000_0000, 0xf000_0000, 0xf800_0000, 0xfc00_0000, 0xfe00_0000, 0xff00_0000,
    0xff80_0000, 0xffc0_0000, 0xffe0_0000, 0xfff0_0000, 0xfff8_0000, 0xfffc_0000, 0xfffe_0000, 0xffff_0000,
    0xffff_8000, 0xffff_c000, 0xffff_e000, 0xffff_f000, 0xffff_f800, 0xffff_fc00, 0xffff_fe00, 0xffff_ff00,
    0xffff_ff80, 0xffff_ffc0, 0xffff_ffe0, 0xffff_fff0, 0xffff_fff8, 0xffff_fffc, 0xffff_fffe, 0xffff_ffff,
];

// Whether the prefix of this address and length has that address, and the length.
fn becomes(addr: u32, len: u8, want: u32) -> bool {
    match Prefix::new(addr, len) {
        Some(prefix) => {
            prefix.addr() == want && prefix.len() == len && prefix.is_empty() == (len == 0)
        }
        None => false,
    }
}

fn is_same(one: (u32, u8), other: (u32, u8)) -> bool {
    match (Prefix::new(one.0, one.1), Prefix::new(other.0, other.1)) {
        (Some(one), Some(other)) => one == other,
        _ => false,
    }
}

/// Each length keeps its first bits and clears the others.
#[test]
fn each_length_keeps_its_first_bits(rt: HostRuntime) {
    for len in 0..33u8 {
        let mask = MASKS[usize::from(len)];
        let some = 0xa5a5_a5a5 & mask;
        assert!(rt; becomes(u32::MAX, len, mask), "at {len}");
        assert!(rt; becomes(0, len, 0), "at {len}");
        assert!(rt; becomes(0xa5a5_a5a5, len, some), "at {len}");
        assert!(rt; is_same((some, len), (0xa5a5_a5a5, len)), "at {len}");
    }
    assert!(rt; Prefix::new(0, 33) == None);
    assert!(rt; Prefix::new(u32::MAX, 255) == None);
}

/// How two prefixes stand to each other.
enum Relation {
    Same(bool),
    /// The first comes before the second.
    ComesBefore,
    /// Whether the first covers the second.
    Covers(bool),
}

/// Two prefixes, and how they stand to each other.
struct Pair {
    name: &'static str,
    one: (u32, u8),
    other: (u32, u8),
    relation: Relation,
}

#[rattlefmt::skip]
static PAIRS: [Pair; 13] = [
    Pair {
        name: "bits past the length are cleared",
        one: (0x0a01_ff00, 17),
        other: (0x0a01_8000, 17),
        relation: Relation::Same(true),
    },
    Pair { name: "another length", one: (0x0a01_8000, 17), other: (0x0a01_8000, 18), relation: Relation::Same(false) },
    Pair {
        name: "the lesser address first",
        one: (0x0a00_0000, 16),
        other: (0x0a01_0000, 8 + 8),
        relation: Relation::ComesBefore,
    },
    Pair {
        name: "then the lesser length",
        one: (0x0a00_0000, 8),
        other: (0x0a00_0000, 16),
        relation: Relation::ComesBefore,
    },
    // What a prefix covers.
    Pair { name: "a longer one", one: (0x0a00_0000, 8), other: (0x0a01_0000, 16), relation: Relation::Covers(true) },
    Pair { name: "itself", one: (0x0a01_0000, 16), other: (0x0a01_0000, 16), relation: Relation::Covers(true) },
    Pair { name: "a shorter one", one: (0x0a01_0000, 16), other: (0x0a00_0000, 8), relation: Relation::Covers(false) },
    Pair {
        name: "one that begins otherwise",
        one: (0x0a00_0000, 8),
        other: (0x0b00_0000, 8),
        relation: Relation::Covers(false),
    },
    Pair {
        name: "one that differs in the last bit",
        one: (0x0a00_0000, 32),
        other: (0x0a00_0001, 32),
        relation: Relation::Covers(false),
    },
    Pair {
        name: "one that differs behind the bits",
        one: (0x0a00_0000, 31),
        other: (0x0a00_0001, 32),
        relation: Relation::Covers(true),
    },
    Pair {
        name: "one that differs in the eighth bit",
        one: (0x0a00_0000, 8),
        other: (0x0b00_0000, 16),
        relation: Relation::Covers(false),
    },
    Pair { name: "all, having no bits", one: (0, 0), other: (0xffff_ffff, 32), relation: Relation::Covers(true) },
    Pair { name: "none with bits by none", one: (0x8000_0000, 1), other: (0, 0), relation: Relation::Covers(false) },
];

fn stand_so(pair: &Pair) -> bool {
    match (
        Prefix::new(pair.one.0, pair.one.1),
        Prefix::new(pair.other.0, pair.other.1),
    ) {
        (Some(one), Some(other)) => match pair.relation {
            Relation::Same(are) => (one == other) == are,
            Relation::ComesBefore => one < other,
            Relation::Covers(does) => one.covers(&other) == does,
        },
        _ => false,
    }
}

#[test]
fn prefixes_stand_to_each_other(rt: HostRuntime) {
    for pair in &PAIRS {
        assert!(rt; stand_so(pair), "{}", pair.name);
    }
}

// Masks addresses, each by a length that is one of a prefix.
fn mask(rt: &impl Abort, words: &mut [u32], lens: &[u8]) {
    assert!(rt; words.len() == lens.len());
    assert!(rt; lens.iter().all(|len| *len <= 32));
    mask_all(words, lens);
}

#[test]
fn each_address_is_masked_by_its_length(rt: HostRuntime) {
    let mut words = [0xa5a5_a5a5; 33];
    let mut lens = [0; 33];
    let mut want = [0; 33];
    for i in 0..33usize {
        lens[i] = i as u8;
        want[i] = 0xa5a5_a5a5 & MASKS[i];
    }
    mask(&rt, &mut words, &lens);
    assert!(rt; words == want);
    mask(&rt, &mut [], &[]);
}

// One address at a time.
fn plain_mask_all(words: &mut [u32], lens: &[u8]) {
    for (word, len) in words.iter_mut().zip(lens) {
        if let Some(prefix) = Prefix::new(*word, *len) {
            *word = prefix.addr();
        }
    }
}

// Eight at a time leaves what one at a time leaves.
fn masks_alike(rt: &impl Abort, words: &mut [u32], others: &mut [u32], lens: &[u8]) {
    mask(rt, words, lens);
    plain_mask_all(others, lens);
    assert!(rt; *words == *others, "{} addresses", lens.len());
}

// Lengths that begin at this one.
fn lens_from(first: usize) -> [u8; 40]
    requires { first ≤ 32 }
{
    let mut lens = [0; 40];
    for i in 0..40usize {
        lens[i] = ((first + 7 * i) % 33) as u8;
    }
    lens
}

// So many addresses, with lengths that begin at each of 0 to 32.
fn masks_of_count(rt: &impl Abort, count: usize)
    requires { count ≤ 40 }
{
    for first in 0..33usize {
        let mut words = [0xa5a5_a5a5; 40];
        let mut others = [0xa5a5_a5a5; 40];
        let lens = lens_from(first);
        masks_alike(
            rt,
            &mut words[..count],
            &mut others[..count],
            &lens[..count],
        );
    }
}

/// Each count of addresses 0 to 40.
#[test]
fn masks_of_each_count_are_made(rt: HostRuntime) {
    for count in 0..=40usize {
        masks_of_count(&rt, count);
    }
}

/// What is done to a table, or asked of it.
enum Step {
    /// It takes the prefix of this address and length.
    Takes(u32, u8),
    /// It takes 0.0.0.0/24, 0.0.1.0/24 and so on, so many.
    TakesMany(u32),
    /// It refuses the prefix, since it is full.
    IsFullFor(u32, u8),
    /// It finds this place for the prefix.
    Finds(u32, u8, Option<usize>),
    Has(usize),
}

struct Case {
    name: &'static str,
    steps: &'static [Step],
}

/// The longest that covers, the first among equals. 64 entries fit; a further one is refused and changes nothing.
#[rattlefmt::skip]
static CASES: [Case; 4] = [
    Case { name: "two entries", steps: &[
        Step::Takes(0x0a00_0000, 8),
        Step::Takes(0x0a01_0000, 16),
        Step::Has(2),
        Step::Finds(0x0a01_0200, 24, Some(1)),
        Step::Finds(0x0a02_0000, 16, Some(0)),
        Step::Finds(0x0a00_0000, 7, None),
        Step::Finds(0x0b00_0000, 8, None),
    ] },
    Case { name: "equal entries", steps: &[
        Step::Takes(0, 0),
        Step::Takes(0x0a01_0000, 16),
        Step::Takes(0x0a00_0000, 8),
        Step::Takes(0x0a01_0000, 16),
        Step::Takes(0x0a02_0000, 16),
        Step::Finds(0x0a01_0000, 16, Some(1)),
        Step::Finds(0x0b00_0000, 8, Some(0)),
    ] },
    Case { name: "no entry", steps: &[Step::Finds(0, 0, None)] },
    Case { name: "an entry past the 64th is refused", steps: &[
        Step::TakesMany(64),
        Step::IsFullFor(0, 0),
        Step::Has(CAPACITY),
        Step::Finds(63 << 8, 32, Some(63)),
        Step::Finds(64 << 8, 24, None),
    ] },
];

// Whether the table took the prefix.
fn takes(table: &mut CoverTable, addr: u32, len: u8) -> bool {
    match Prefix::new(addr, len) {
        Some(prefix) => table.push(prefix) == Ok(()),
        None => false,
    }
}

fn takes_many(table: &mut CoverTable, count: u32) -> bool {
    for i in 0..count {
        if !takes(table, i << 8, 24) {
            return false;
        }
    }
    true
}

// Whether a step of a prefix is so.
fn is_so_of(table: &mut CoverTable, prefix: Prefix, step: &Step) -> bool {
    match step {
        Step::Takes(..) => table.push(prefix) == Ok(()),
        Step::IsFullFor(..) => table.push(prefix) == Err(CoverError::TableFull),
        Step::Finds(_, _, want) => table.longest(&prefix) == *want,
        _ => false,
    }
}

fn is_so(table: &mut CoverTable, step: &Step) -> bool {
    match step {
        Step::Takes(addr, len) | Step::IsFullFor(addr, len) | Step::Finds(addr, len, _) => {
            match Prefix::new(*addr, *len) {
                Some(prefix) => is_so_of(table, prefix, step),
                None => false,
            }
        }
        Step::TakesMany(count) => takes_many(table, *count),
        Step::Has(count) => table.as_slice().len() == *count,
    }
}

fn all_are_so(rt: &impl Abort, table: &mut CoverTable, case: &Case) {
    for (i, step) in case.steps.iter().enumerate() {
        assert!(rt; is_so(table, step), "{}: step {i}", case.name);
    }
}

#[test]
fn tables_find_the_longest_that_covers(rt: HostRuntime) {
    for case in &CASES {
        let mut table = CoverTable::new(rt.alloc());
        all_are_so(&rt, &mut table, case);
    }
}

// One entry at a time.
fn plain_longest(entries: &[Prefix], prefix: &Prefix) -> Option<usize> {
    let mut best = None;
    let mut len = 0;
    for (place, entry) in entries.iter().enumerate() {
        if entry.covers(prefix) && (best.is_none() || len < entry.len()) {
            best = Some(place);
            len = entry.len();
        }
    }
    best
}

static ADDRESSES: [u32; 6] = [
    0x0a01_0203,
    0x0a01_8000,
    0x0a02_0000,
    0x0b00_0000,
    0,
    u32::MAX,
];

// What the table answers for prefixes of this address is what one entry at a time answers.
fn answers_alike_at(rt: &impl Abort, table: &CoverTable, addr: u32) {
    for len in 0..33u8 {
        if let Some(asked) = Prefix::new(addr, len) {
            let want = plain_longest(table.as_slice(), &asked);
            assert!(rt; table.longest(&asked) == want, "{addr:x}/{len}");
        }
    }
}

fn answers_alike(rt: &impl Abort, table: &CoverTable) {
    for &addr in &ADDRESSES {
        answers_alike_at(rt, table, addr);
    }
}

/// Each count of entries 0 to 64: the lengths repeat, so that the first among equals stands before,
/// in and behind the eight of a longer one.
#[test]
fn the_longest_of_each_count_is_found(rt: HostRuntime) {
    let mut table = CoverTable::new(rt.alloc());
    answers_alike(&rt, &table);
    for i in 0..64u32 {
        let addr = if i % 5 == 3 { 0x0a02_0000 } else { 0x0a01_0203 };
        let len = (i * 13 % 33) as u8;
        assert!(rt; takes(&mut table, addr, len), "at {i}");
        answers_alike(&rt, &table);
    }
}
