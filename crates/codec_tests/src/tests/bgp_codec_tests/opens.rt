//! What is written of an OPEN.

use super::is_written_as;
use bgp_codec::{Cap, Items, Message, NOBODY, Octets, Open, is_writable};
use std::alloc::{AllocError, Global};
use std::test::Fail;

// The parameters of an OPEN: one with one capability, and one with none.
fn two_parameters(alloc: Global, cap: Cap) -> Result<Items<Items<Cap>>, AllocError> {
    let params = vec![in alloc; Items::one(cap), Items::new(alloc)]?;
    Ok(Items::from_vec(params))
}

// An OPEN of RFC 4271 section 4.2 with a capability of RFC 5492: what is written is the standard's
// layout.
#[test]
fn an_open_is_written(rt: HostRuntime) -> Result<(), Fail> {
    let alloc = rt.alloc();
    let four_octets = Cap {
        code: 65,
        value: Octets::short(alloc, &[0, 0, 253, 233]),
    };
    let message = Message::OpenMsg(Open {
        asn: 65001,
        hold: 90,
        id: 0x0a00_0001,
        params: two_parameters(alloc, four_octets)?,
    });
    let wanted =
        b"\x00\x27\x01\x04\xfd\xe9\x00\x5a\x0a\x00\x00\x01\x0a\x02\x06\x41\x04\x00\x00\xfd\xe9\x02\x00";
    assert!(rt; is_written_as(alloc, &message, wanted));
    Ok(())
}

// An OPEN with this hold time, this identifier, and two parameters: a capability whose value has so
// many octets, and none.
fn open_with(alloc: Global, hold: u16, id: u32, value_len: usize) -> Result<Message, AllocError> {
    let cap = Cap {
        code: 1,
        value: Octets::from_vec(vec![in alloc; 7u8; value_len]?),
    };
    Ok(Message::OpenMsg(Open {
        asn: 1,
        hold,
        id,
        params: two_parameters(alloc, cap)?,
    }))
}

// A hold time, an identifier, the octets of a value, and whether an OPEN with them is writable.
static OPENS: [(u16, u32, usize, bool); 5] = [
    (90, 0x0a00_0001, 249, true),
    (1, 0x0a00_0001, 0, false),
    (90, 0xe000_0001, 0, false),
    (90, 0x0a00_0001, 250, false),
    (90, 0x0a00_0001, 256, false),
];

// What cannot be read is not writable: a hold time of 1, an identifier of a network of the future,
// a value of 256 octets, parameters of 256 octets.
#[test]
fn opens_that_are_not_writable(rt: HostRuntime) -> Result<(), Fail> {
    for &(hold, id, value_len, wanted) in &OPENS {
        let message = open_with(rt.alloc(), hold, id, value_len)?;
        assert!(rt;
            is_writable(&message, &NOBODY) == wanted,
            "{hold} {id} {value_len}"
        );
    }
    Ok(())
}
