//! Offers that move into a collector.

use super::copies::{ONE_UPDATE, is_recorded};
use super::steps::plays;
use crate::tests::networks::{PAIR, network};
use snap_collector::Collector;
use snap_marker::MarkState;
use std::alloc::Global;
use std::process::Abort;
use std::test::*;

fn collector(alloc: Global) -> Option<Collector> {
    let net = network(alloc, &PAIR).ok()?;
    Collector::new(alloc, &net).ok()
}

// Whether the offer in front moves, and waits no more.
fn moves(collector: &mut Collector, marks: &mut MarkState) -> bool {
    if marks.next_offer().is_none() {
        return false;
    }
    collector.record_from(marks).is_ok() && marks.next_offer().is_none()
}

fn has_part(collector: &Collector) -> bool {
    match collector.part(1, 1) {
        Some(part) => is_recorded(part),
        None => false,
    }
}

fn offers_move_in(
    rt: &impl Abort,
    alloc: Global,
    collector: &mut Collector,
    marks: &mut MarkState,
) {
    plays(rt, alloc, marks, &ONE_UPDATE);
    assert!(rt; moves(collector, marks));
    assert!(rt; has_part(collector));
}

/// What has moved is what was recorded.
#[test]
fn offers_move_as_they_were_recorded(rt: HostRuntime) -> Result<(), Fail> {
    let mut marks = MarkState::new(rt.alloc());
    match collector(rt.alloc()) {
        Some(mut collector) => offers_move_in(&rt, rt.alloc(), &mut collector, &mut marks),
        None => return Err("no collector".into()),
    }
    Ok(())
}
