//! A path that a router tells of a prefix, and the octets of the UPDATE that tells it (RFC 4271 sections
//! 4.3 and 5.1).
//!
//! Such an UPDATE has one of two shapes. What stands before the numbers of the path, and what stands behind them, is
//! known by their counts. Its octets are put from the path, and no message is made and measured first.

ghost use Rattle.std.specs.Prelude.{◌≡◌, ◌+◌, ◌≤◌, ◌*◌, ◌++◌, length, ℕ, true, IfOk, IfSome, IsOk, MatchOption, vec_len, vec_capacity};
ghost use Rattle.std.specs.List.{AllByRecursion};
ghost use Rattle.bgp_values.specs.declared.width.Width as widths;
ghost use Rattle.bgp_codec.specs.declared.message.Message.TheVariants.{UpdateMsg};
ghost use Rattle.bgp_codec.specs.AsNumbers.{asn_size, numbers_of, AsnFits};
ghost use Rattle.bgp_codec.specs.Updates.{octet_count, begins_with};
ghost use Rattle.bgp_codec.specs.Header.{IsFrame};
ghost use Rattle.bgp_codec.specs.Spelling.{written};
ghost use Rattle.prefix_lanes.specs.Bits.{IsCanonical};
ghost use Rattle.router_model.specs.State.{withdrawal, announcement, telling};
ghost use Rattle.router_side.specs.Histories.{spelt_by, PutsBehind};
ghost use Rattle.router_side.specs.Layout.{address, announcement_hop, announcement_start, withdrawal_front, IsAnnouncement, IsWithdrawal};
ghost use Rattle.router_side.specs.Acting.{IsToldBy};
ghost use Rattle.router_side.specs.Sayings.{IsSayable};
ghost use Rattle.router_side.specs.declared.told_path.TheConstants.{MOST_NUMBERS};

use crate::laws::told_updates_are_sayable;
use bgp_codec::laws::{a_peers_writing_is_read, header_is_its_front};
use bgp_codec::{
    Asn, Attrs, Items, Numbers, Segment, SegmentKind, Update, asn_size, octet_count, put_numbers,
    read_numbers,
};
use bgp_values::{
    AS_PATH, AS_SEQUENCE, HEADER_LEN, IGP, NEXT_HOP, ORIGIN, TRANSITIVE, UPDATE, Width, is_unicast,
};
use prefix_lanes::Prefix;
use std::alloc::{AllocError, Global};
use std::marker::Model;

/// The most numbers of a told path. The length of AS_PATH then has one octet, whatever the width of the numbers.
pub const MOST_NUMBERS: usize = 63;

// The octets of an announcement in front of the length of its AS_PATH.
pub(crate) const FRONT: usize = 29;

// The octets of an announcement but for its path and its prefix: ORIGIN, AS_PATH with its segment, NEXT_HOP.
const FIXED_ATTRS: usize = 4 + (3 + 2) + 7;

/// A path that is told of a prefix: the UPDATE that tells it, as a value of few octets.
#[derive(Debug, Drop)]
pub struct ToldPath {
    id: u32,
    prefix: Prefix,
    path: Numbers,
}

impl Model for ToldPath {
    ghost use Rattle.std.specs.Prelude.{◌≤◌, length};
    ghost use Rattle.bgp_codec.specs.declared.update.Update.{Update};
    ghost use Rattle.router_model.specs.State.{telling};
    ghost use Rattle.router_side.specs.declared.told_path.TheConstants.{MOST_NUMBERS};

    ghost Value = { Update };

    ghost view = { λ r. telling r.id r.prefix r.path };

    ghost invariant = { λ r. length r.path ≤ MOST_NUMBERS };
}

// The octets of a withdrawal before those of its prefix, of which there are `count`.
fn withdrawal_front(len: u8, count: usize) -> [u8; 22]
    requires { count ≤ 4 }
    ensures { result ≡ withdrawal_front len count }
{
    let [high, low] = ((HEADER_LEN + 5 + count) as u16).to_be_bytes();
    let [upper, lower] = ((1 + count) as u16).to_be_bytes();
    [
        0xff, 0xff, 0xff, 0xff, 0xff, 0xff, 0xff, 0xff, 0xff, 0xff, 0xff, 0xff, 0xff, 0xff, 0xff,
        0xff, high, low, UPDATE, upper, lower, len,
    ]
}

// The octets of an announcement of `len` octets from its Marker on, up to the length of its AS_PATH, `path_len`, which
// comes next.
pub(crate) fn announcement_start(len: u16, path_len: u8) -> [u8; FRONT]
    ensures { result ≡ announcement_start len path_len }
{
    let [high, low] = len.to_be_bytes();
    let [upper, lower] = ((FIXED_ATTRS - 2 + path_len as usize) as u16).to_be_bytes();
    [
        0xff, 0xff, 0xff, 0xff, 0xff, 0xff, 0xff, 0xff, 0xff, 0xff, 0xff, 0xff, 0xff, 0xff, 0xff,
        0xff, high, low, UPDATE, 0, 0, upper, lower, TRANSITIVE, ORIGIN, 1, IGP, TRANSITIVE,
        AS_PATH,
    ]
}

// Whether a frame begins as `announcement_start` has it, and what stands behind that; else the whole frame.
pub(crate) fn shortened(frame: &[u8]) -> (bool, &[u8])
    requires { IsFrame frame.now }
    ensures spells { spelt_by result.0 (length frame.now) result.1.now ≡ frame.now }
    ensures len { length result.1.now ≤ length frame.now }
{
    header_is_its_front();
    if let Some((front, rest)) = frame.split_at_checked(FRONT) {
        if let [path_len, ..] = rest {
            if are(front, &announcement_start(frame.len() as u16, *path_len)) {
                return (true, rest);
            }
        }
    }
    (false, frame)
}

// The octets of an announcement behind the numbers of its path, before those of its prefix.
fn announcement_hop(id: u32, len: u8) -> [u8; 8]
    ensures { result ≡ announcement_hop id len }
{
    let [a, b, c, d] = id.to_be_bytes();
    [TRANSITIVE, NEXT_HOP, 4, a, b, c, d, len]
}

// Appends the UPDATE that withdraws a prefix, for which there is room.
fn put_withdrawal(out: &mut Vec<u8>, prefix: &Prefix)
    requires room { vec_len out.old + (24 + octet_count prefix.now.len) ≤ vec_capacity out.old }
    ensures { (w : widths.Width) → out.new.items ≡ out.old.items ++ written w (UpdateMsg (withdrawal prefix.now)) }
{
    let (len, address) = (prefix.len(), prefix.addr().to_be_bytes());
    let count = octet_count(len);
    out.extend_from_slice(&withdrawal_front(len, count))
        .unwrap();
    out.extend_from_slice(&address[..count]).unwrap();
    out.extend_from_slice(&[0, 0]).unwrap();
}

// Appends the octets of the UPDATE that announces a path, from the length of its AS_PATH on. There is room for them.
// Answers what stands in front of them.
fn put_announcement(
    out: &mut Vec<u8>,
    width: Width,
    id: u32,
    prefix: &Prefix,
    path: &[Asn],
) -> [u8; FRONT]
    requires fit { AllByRecursion (AsnFits width) path.now }
    requires few { length path.now ≤ MOST_NUMBERS }
    requires room { vec_len out.old + (40 + asn_size width * length path.now + octet_count prefix.now.len)
        ≤ vec_capacity out.old }
    ensures { PutsBehind result (written width (UpdateMsg (announcement id prefix.now path.now))) out.old.items
        out.new.items }
{
    let (len, address) = (prefix.len(), prefix.addr().to_be_bytes());
    let count = octet_count(len);
    let size = asn_size(width) * path.len();
    let path_len = (2 + size) as u8;
    out.extend_from_slice(&[path_len, AS_SEQUENCE, path.len() as u8])
        .unwrap();
    put_numbers(out, width, path);
    out.extend_from_slice(&announcement_hop(id, len)).unwrap();
    out.extend_from_slice(&address[..count]).unwrap();
    announcement_start(
        (HEADER_LEN + 5 + FIXED_ATTRS + size + count) as u16,
        path_len,
    )
}

// The prefix of so many bits that has these octets.
fn prefix_of(len: u8, octets: &[u8]) -> Option<Prefix>
    ensures len { IfSome result (λ prefix. prefix.len ≡ len) }
    ensures octets { IfSome result (λ prefix. octets.now ≡ address prefix) }
    ensures canonical { IfSome result IsCanonical }
{
    let count = octet_count(len);
    if octets.len() != count || count > 4 {
        return None;
    }
    let mut address = [0; 4];
    address[..count].copy_from_slice(octets);
    let prefix = Prefix::new(u32::from_be_bytes(address), len)?;
    let written = prefix.addr().to_be_bytes();
    if octets == &written[..count] {
        Some(prefix)
    } else {
        None
    }
}

// Whether two lists of octets are the same.
fn are(octets: &[u8], these: &[u8]) -> bool
    ensures { result ≡ true → octets.now ≡ these.now }
{
    octets == these
}

// Whether octets of AS numbers begin with this one.
fn begin_with(width: Width, octets: &[u8], asn: Asn) -> bool
    ensures { result ≡ begins_with asn (numbers_of width octets.now) }
{
    match width {
        Width::Two => match octets {
            [high, low, ..] => Asn::from(u16::from_be_bytes([*high, *low])) == asn,
            _ => false,
        },
        Width::Four => match octets {
            [a, b, c, d, ..] => u32::from_be_bytes([*a, *b, *c, *d]) == asn,
            _ => false,
        },
    }
}

// The prefix that a frame withdraws, if the frame is what `put_withdrawal` puts for it.
fn withdrawn(frame: &[u8]) -> Option<Prefix>
    ensures { IfSome result (λ prefix. IsCanonical prefix × IsWithdrawal frame.now prefix) }
{
    let (front, rest) = frame.split_at_checked(22)?;
    let (address, end) = rest.split_at_checked(rest.len().checked_sub(2)?)?;
    let prefix = prefix_of(front[21], address)?;
    if are(front, &withdrawal_front(prefix.len(), address.len())) && are(end, &[0, 0]) {
        Some(prefix)
    } else {
        None
    }
}

// The parts of an announcement: the NEXT_HOP, the prefix, and the octets of the numbers of the path.
#[derive(Drop)]
struct Announcement<'a> {
    id: u32,
    prefix: Prefix,
    numbers: &'a [u8],
}

// The parts of the announcement that a frame is, if it is what `put_announcement` puts for them.
#[inline(always)]
fn announced(width: Width, frame: &[u8]) -> Option<Announcement<'_>>
    ensures { IfSome result
        (λ told. IsCanonical told.prefix × IsAnnouncement width frame.now told.id told.prefix told.numbers.now) }
{
    let (start, rest) = frame.split_at_checked(FRONT + 3)?;
    let (front, segment) = start.split_at(FRONT);
    let count = segment[2] as usize;
    let size = asn_size(width) * count;
    let (numbers, rest) = rest.split_at_checked(size)?;
    let (hop, address) = rest.split_at_checked(8)?;
    let id = u32::from_be_bytes([hop[3], hop[4], hop[5], hop[6]]);
    let prefix = prefix_of(hop[7], address)?;
    if 1 <= count
        && count <= MOST_NUMBERS
        && is_unicast(id)
        && are(
            front,
            &announcement_start(
                (HEADER_LEN + 5 + FIXED_ATTRS + size + address.len()) as u16,
                (2 + size) as u8,
            ),
        )
        && are(segment, &[(2 + size) as u8, AS_SEQUENCE, count as u8])
        && are(hop, &announcement_hop(id, prefix.len()))
    {
        Some(Announcement {
            id,
            prefix,
            numbers,
        })
    } else {
        None
    }
}

impl ToldPath {
    /// The path that a router with this identifier tells of a prefix; the empty path is told by a withdrawal. It is
    /// refused only for want of memory, and never for eight numbers or fewer.
    pub fn new(
        alloc: Global,
        id: u32,
        prefix: &Prefix,
        path: &[Asn],
    ) -> Result<ToldPath, AllocError>
        requires { length path.now ≤ MOST_NUMBERS }
        ensures ok { IfOk result (λ told. told ≡ telling id prefix.now path.now) }
        ensures short { length path.now ≤ 8 → IsOk result }
    {
        Ok(ToldPath {
            id,
            prefix: *prefix,
            path: Numbers::from_slice(alloc, path)?,
        })
    }

    /// The path that a frame of a peer tells, if the frame is the one UPDATE that tells it, and a path that is
    /// announced begins with the peer. It is refused only for want of memory.
    #[inline(always)]
    pub fn read(
        alloc: Global,
        width: Width,
        peer: Asn,
        frame: &[u8],
    ) -> Result<Option<ToldPath>, AllocError>
        ensures { IfOk result (λ found. IfSome found (IsToldBy width peer frame.now)) }
    {
        a_peers_writing_is_read();
        told_updates_are_sayable();
        if let Some(told) = announced(width, frame) {
            // a path that does not begin with the peer is faulty, whatever memory there is
            if !begin_with(width, told.numbers, peer) {
                return Ok(None);
            }
            let path = read_numbers(alloc, width, told.numbers)?;
            let (id, prefix) = (told.id, told.prefix);
            return Ok(Some(ToldPath { id, prefix, path }));
        }
        match withdrawn(frame) {
            Some(prefix) => Ok(Some(ToldPath::new(alloc, 0, &prefix, &[])?)),
            None => Ok(None),
        }
    }

    /// The prefix, and the path that is told of it; the empty path if the prefix is withdrawn.
    pub fn prefix_and_path(&self) -> (&Prefix, &[Asn])
        ensures { (id : ℕ) × (self.now ≡ telling id result.0.now result.1.now) }
    {
        (&self.prefix, self.path.as_slice())
    }

    // The UPDATE, as a message has it. It takes no memory.
    pub(crate) fn into_update(self, alloc: Global) -> Update
        ensures { result ≡ self }
    {
        if self.path.as_slice().is_empty() {
            return Update {
                withdrawn: Items::one(self.prefix),
                attrs: Attrs::none(alloc),
                nlri: Items::new(alloc),
            };
        }
        let segment = Segment {
            kind: SegmentKind::AsSequence,
            numbers: self.path,
        };
        let mut attrs = Attrs::none(alloc);
        attrs.origin = Some(IGP);
        attrs.path = Some(Items::one(segment));
        attrs.next_hop = Some(self.id);
        Update {
            withdrawn: Items::new(alloc),
            attrs,
            nlri: Items::one(self.prefix),
        }
    }

    // How many octets the UPDATE has.
    pub(crate) fn len(&self, width: Width) -> usize
        ensures { result ≡ length (written width (UpdateMsg self.now)) }
    {
        let path = self.path.as_slice();
        let count = octet_count(self.prefix.len());
        if path.is_empty() {
            HEADER_LEN + 5 + count
        } else {
            HEADER_LEN + 5 + FIXED_ATTRS + asn_size(width) * path.len() + count
        }
    }

    // Appends the octets of the UPDATE, for which there is room. Of one that announces a path, it appends those behind
    // the front, and answers the front.
    pub(crate) fn put(&self, width: Width, out: &mut Vec<u8>) -> Option<[u8; FRONT]>
        requires sayable { IsSayable width (UpdateMsg self.now) }
        requires room { vec_len out.old + length (written width (UpdateMsg self.now)) ≤ vec_capacity out.old }
        ensures { MatchOption result (out.new.items ≡ out.old.items ++ written width (UpdateMsg self.now))
            (λ front. PutsBehind front (written width (UpdateMsg self.now)) out.old.items out.new.items) }
    {
        let path = self.path.as_slice();
        // a length that was read is known to be at most 32 bits
        let _len = self.prefix.len();
        if path.is_empty() {
            put_withdrawal(out, &self.prefix);
            return None;
        }
        Some(put_announcement(out, width, self.id, &self.prefix, path))
    }
}
