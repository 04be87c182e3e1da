//! What a board of two linked routers answers, offer by offer (`offer_board`).

use super::networks::{PAIR, network};
use super::offers::Offered::{Loss, Part};
use super::offers::{Offered, offer};
use offer_board::BoardState;
use snap_collector::{CollectError, Taken};
use snap_marker::Offer;
use std::alloc::{AllocError, Global};
use std::process::Abort;
use std::test::*;

type Answer = Result<(Taken, u64), CollectError>;

// The stamp of a router's last event, what it offers, and what the board answers.
type Row = (u64, Offered, Answer);

// This call ensures nothing, so that one answer is not carried along to the next.
fn answers(board: &mut BoardState, stamp: u64, offer: Result<Offer, AllocError>) -> Answer {
    board.offer(stamp, &offer?, Ok(()))
}

fn is_answered(alloc: Global, board: &mut BoardState, row: &Row) -> bool {
    let (stamp, offered, answer) = *row;
    answers(board, stamp, offer(alloc, offered)) == answer
}

fn are_answered(rt: &impl Abort, alloc: Global, board: &mut BoardState, rows: &[Row], kept: usize) {
    for (i, row) in rows.iter().enumerate() {
        assert!(rt; is_answered(alloc, board, row), "row {i}");
    }
    assert!(rt; board.offers().len() == kept);
}

fn board(alloc: Global) -> Option<BoardState> {
    let net = network(alloc, &PAIR).ok()?;
    BoardState::new(alloc, &net).ok()
}

// Each offer is answered so, and in the end the board has so many.
fn tries(rt: &impl Abort, alloc: Global, rows: &[Row], kept: usize) -> Result<(), Fail> {
    match board(alloc) {
        Some(mut board) => are_answered(rt, alloc, &mut board, rows, kept),
        None => return Err("no board".into()),
    }
    Ok(())
}

#[test]
fn stamps_rise(rt: HostRuntime) -> Result<(), Fail> {
    static ROWS: [Row; 2] = [
        (7, Loss(1, 1), Ok((Taken::Decided, 8))),
        (3, Loss(1, 1), Ok((Taken::Late, 9))),
    ];
    tries(&rt, rt.alloc(), &ROWS, 2)
}

// The greatest stamp, above which there is none.
const LAST: u64 = 0x4000_0000_0000_0000;

// A stranger's offer and a second one are refused as such, also where no stamp is left.
#[test]
fn no_stamp_is_left(rt: HostRuntime) -> Result<(), Fail> {
    static ROWS: [Row; 5] = [
        (LAST, Loss(3, 1), Err(CollectError::Stranger { router: 3 })),
        (LAST, Part(1, false, 1, 0), Err(CollectError::StampEnd)),
        (LAST - 1, Part(1, false, 1, 0), Ok((Taken::Kept, LAST))),
        (0, Loss(1, 5), Err(CollectError::Twice { router: 1 })),
        (0, Part(2, false, 1, 0), Err(CollectError::StampEnd)),
    ];
    tries(&rt, rt.alloc(), &ROWS, 1)
}

#[test]
fn a_stranger_changes_nothing(rt: HostRuntime) -> Result<(), Fail> {
    static ROWS: [Row; 1] = [(0, Loss(3, 1), Err(CollectError::Stranger { router: 3 }))];
    tries(&rt, rt.alloc(), &ROWS, 0)
}

#[test]
fn a_second_offer_changes_nothing(rt: HostRuntime) -> Result<(), Fail> {
    static ROWS: [Row; 2] = [
        (0, Part(1, false, 1, 0), Ok((Taken::Kept, 1))),
        (0, Loss(1, 5), Err(CollectError::Twice { router: 1 })),
    ];
    tries(&rt, rt.alloc(), &ROWS, 1)
}
