//! Lines that are appended.

use bgp_codec::{Attrs, Fault, Items, Message, Notice, Octets, Update};
use net_text::{
    fault_lines, flight_line, message_line, refused_line, stable_line, truncated_line,
    unstable_line,
};
use prefix_lanes::Prefix;
use std::alloc::{AllocError, Global};
use std::test::Fail;

#[test]
fn lines_stand_behind_what_was_there(rt: HostRuntime) -> Result<(), Fail> {
    let mut out = b"front\n".to_vec(rt.alloc())?;
    put_lines(rt.alloc(), &mut out)?;
    assert!(rt;
        out.as_slice()
            == b"front\nkeepalive\nnotification 1 2 0014\nfault 1 2\nffffffffffffffffffffffffffffffff00170301021001\ntruncated 18\nrefused 7 N1\nunstable 2 has none best 2-65535\nstable\n".as_slice()
    );
    Ok(())
}

fn put_lines(alloc: Global, out: &mut Vec<u8>) -> Result<(), AllocError> {
    message_line(&Message::AliveMsg, out)?;
    put_notice(alloc, out)?;
    put_fault(alloc, out)?;
    truncated_line(18, out)?;
    refused_line(7, b"N1", out)?;
    unstable_line(2, &[], &[2, 65535], out)?;
    stable_line(out)
}

fn put_notice(alloc: Global, out: &mut Vec<u8>) -> Result<(), AllocError> {
    let notice = Message::NoticeMsg(Notice {
        code: 1,
        sub: 2,
        extra: Octets::from_slice(alloc, &[0, 20])?,
    });
    message_line(&notice, out)
}

fn put_fault(alloc: Global, out: &mut Vec<u8>) -> Result<(), AllocError> {
    let fault = Fault {
        code: 1,
        sub: 2,
        extra: Octets::short(alloc, &[0x10, 0x01]),
    };
    fault_lines(&fault, out)
}

fn put_flight(alloc: Global, out: &mut Vec<u8>) -> Result<(), AllocError> {
    let withdrawal = Update {
        withdrawn: Items::one(Prefix::new(0x0a01_0000, 16).ok_or(AllocError)?),
        attrs: Attrs::none(alloc),
        nlri: Items::new(alloc),
    };
    flight_line(1, 2, &withdrawal, out)
}

// The line of an UPDATE in flight names both routers before the UPDATE, and ends once.
#[test]
fn a_flight_is_one_line(rt: HostRuntime) -> Result<(), Fail> {
    let mut out = b"front\n".to_vec(rt.alloc())?;
    put_flight(rt.alloc(), &mut out)?;
    assert!(rt; out.as_slice() == b"front\nflight 1 2 update withdraw 10.1.0.0/16\n".as_slice());
    Ok(())
}

// A line that is refused leaves what stood there; one that is not, all of it.
#[test]
fn a_refused_line_leaves_nothing(rt: HostRuntime) -> Result<(), Fail> {
    let alloc = rt.alloc();
    let mut out = vec![in alloc; 7u8; 3]?;
    match unstable_line(1, &[1, 2], &[1, 3], &mut out) {
        Ok(()) => assert!(rt; out.len() == 3 + b"unstable 1 has 1-2 best 1-3\n".len()),
        Err(_) => assert!(rt; out.as_slice() == [7, 7, 7].as_slice()),
    }
    Ok(())
}
