//! A pipe of one item by hand, capacities that are refused, and two threads at the ends of a pipe.

ghost use Rattle.std.specs.Prelude.{◌≡◌, IfOk};

use ruled_pipe::{MOST_ITEMS, PipeError, PutEnd, Tail, TakeEnd, close, with_ends};
use std::alloc::{AllocError, Global};
use std::sync::Wait;
use std::test::*;
use std::thread;
use std::thread::Threads;

/// How often an end tries again before it gives up.
const TRIES: u32 = 1_000_000;

/// The items that are put, 1 to this number.
const ITEMS: u64 = 1000;

fn pipe<T: Drop>(alloc: Global, capacity: usize) -> Result<(PutEnd<T>, TakeEnd<T>), AllocError>
    ensures { IfOk result (λ ends. ends.0.pipe ≡ ends.1.pipe) }
{
    with_ends(alloc, capacity).map_err(|_| AllocError)
}

/// A full pipe gives an item back, an empty one has none, and what is left comes out in order.
#[test]
fn a_full_pipe_gives_the_item_back(rt: HostRuntime) -> Result<(), Fail> {
    let (mut put, mut take) = pipe(rt.alloc(), 1)?;
    assert!(rt; put.put(&rt, 7u8) == Ok(()));
    assert!(rt; put.put(&rt, 8) == Err(8));
    assert!(rt; take.take(&rt) == Some(7));
    assert!(rt; take.take(&rt) == None);
    assert!(rt; put.put(&rt, 9) == Ok(()));
    let mut tail = close(&rt, put, take);
    assert!(rt; tail.next(&rt) == Some(9));
    assert!(rt; tail.next(&rt) == None);
    Ok(())
}

/// A pipe that has room takes each item: as many as it holds, and then no more.
#[test]
fn a_pipe_takes_as_many_as_it_holds(rt: HostRuntime) -> Result<(), Fail> {
    let (mut put, take) = pipe(rt.alloc(), 3)?;
    for item in 1..4u8 {
        assert!(rt; put.put(&rt, item) == Ok(()));
    }
    assert!(rt; put.put(&rt, 4) == Err(4));
    let mut tail = close(&rt, put, take);
    for item in 1..4u8 {
        assert!(rt; tail.next(&rt) == Some(item));
    }
    assert!(rt; tail.next(&rt) == None);
    Ok(())
}

/// Why no pipe of this capacity is made, where none is.
fn refusal(alloc: Global, capacity: usize) -> Option<PipeError> {
    let ends: Result<(PutEnd<u8>, TakeEnd<u8>), PipeError> = with_ends(alloc, capacity);
    ends.err()
}

/// Nothing, and one more than the most, are no capacities; the most is one.
#[test]
fn capacities_outside_the_limits_are_refused(rt: HostRuntime) {
    assert!(rt; refusal(rt.alloc(), 0) == Some(PipeError::BadCapacity));
    assert!(rt; refusal(rt.alloc(), MOST_ITEMS + 1) == Some(PipeError::BadCapacity));
    assert!(rt; refusal(rt.alloc(), MOST_ITEMS) == None);
}

/// Tries to put an item, with a yield after each refusal.
fn put_one<R: Wait>(rt: &R, end: &mut PutEnd<Vec<u64>>, item: Vec<u64>) -> bool
    ensures { end.new.pipe ≡ end.old.pipe }
{
    let mut item = item;
    for _ in 0..TRIES {
        match end.put(rt, item) {
            Ok(()) => return true,
            Err(back) => {
                item = back;
                thread::yield_now();
            }
        }
    }
    false
}

/// Puts the items in order, as far as it gets; answers the last one put.
fn put_all<R: Wait>(rt: &R, mut end: PutEnd<Vec<u64>>, alloc: Global) -> (PutEnd<Vec<u64>>, u64)
    ensures { result.0.pipe ≡ end.pipe }
{
    let mut last = 0;
    for number in 1..ITEMS + 1 {
        let mut item = Vec::new(alloc);
        if item.push(number).is_err() || !put_one(rt, &mut end, item) {
            break;
        }
        last = number;
    }
    (end, last)
}

/// Tries to take an item, with a yield after each time that there is none.
fn take_one<R: Wait>(rt: &R, end: &mut TakeEnd<Vec<u64>>) -> Option<Vec<u64>>
    ensures { end.new.pipe ≡ end.old.pipe }
{
    for _ in 0..TRIES {
        match end.take(rt) {
            Some(item) => return Some(item),
            None => thread::yield_now(),
        }
    }
    None
}

/// Takes the items as far as they come; answers how many came, each the number that is next, or
/// nothing where one was another.
fn take_all<R: Wait>(rt: &R, mut end: TakeEnd<Vec<u64>>) -> (TakeEnd<Vec<u64>>, Option<u64>)
    ensures { result.0.pipe ≡ end.pipe }
{
    let mut last = 0;
    for number in 1..ITEMS + 1 {
        let Some(item) = take_one(rt, &mut end) else {
            break;
        };
        if item.as_slice() != [number].as_slice() {
            return (end, None);
        }
        last = number;
    }
    (end, Some(last))
}

/// The number of the last item of the tail, where it begins behind `last` and leaves none out.
fn last_of_tail<R: Wait>(rt: &R, mut tail: Tail<Vec<u64>>, last: u64) -> Option<u64> {
    let mut number = last;
    for _ in 0..MOST_ITEMS + 1 {
        let Some(item) = tail.next(rt) else {
            return Some(number);
        };
        number = number.wrapping_add(1);
        if item.as_slice() != [number].as_slice() {
            return None;
        }
    }
    None
}

/// One thread puts, another takes: the last number put, and the last number found in order, first
/// among the items taken and then in the tail.
fn two_threads<R: Threads + Wait + Sync>(
    rt: &R,
    alloc: Global,
    capacity: usize,
) -> Result<(u64, Option<u64>), AllocError> {
    let (put, take) = pipe::<Vec<u64>>(alloc, capacity)?;
    let ((put, done), (take, taken)) = thread::join(
        rt,
        move || put_all(rt, put, alloc),
        move || take_all(rt, take),
    );
    let tail = close(rt, put, take);
    let found = match taken {
        Some(last) => last_of_tail(rt, tail, last),
        None => None,
    };
    Ok((done, found))
}

fn is_in_order<R: Threads + Wait + Sync>(
    rt: &R,
    alloc: Global,
    capacity: usize,
) -> Result<bool, AllocError> {
    let (done, found) = two_threads(rt, alloc, capacity)?;
    Ok(found == Some(done))
}

/// What was taken, then the tail, are the items put, in order, through the least pipe and the
/// greatest.
#[test]
fn items_pass_between_threads_in_order(rt: HostRuntime) -> Result<(), Fail> {
    assert!(rt; is_in_order(&rt, rt.alloc(), 1)?);
    assert!(rt; is_in_order(&rt, rt.alloc(), MOST_ITEMS)?);
    Ok(())
}
