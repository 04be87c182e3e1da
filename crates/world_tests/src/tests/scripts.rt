//! What a script gives.

use std::alloc::{AllocError, Global};
use std::sync::Wait;
use std::test::*;
use worker_loop::{Chore, Gate, ScriptGate};

// The first two chores of a script that lists one for the second turn.
fn first_two<R: Wait>(rt: &R, alloc: Global) -> Result<(Chore, Chore), AllocError> {
    let mut gate = ScriptGate::new(vec![in alloc; (1, Chore::Tick)]?);
    let first = gate.next(rt, 0);
    let second = gate.next(rt, 1);
    Ok((first, second))
}

#[test]
fn what_is_not_listed_is_a_turn(rt: HostRuntime) -> Result<(), Fail> {
    let chores = first_two(&rt, rt.alloc())?;
    assert!(rt; chores == (Chore::Turn, Chore::Tick));
    Ok(())
}
