//! Whether a call that is refused for want of memory leaves its value as another that the same calls made, and is
//! answered again as by that.

use ranked_policy::Network;
use std::alloc::{AllocError, Global};
use std::mem::forget;

/// A value that answers calls. Nothing is ensured of its answers, so that one is not carried along to the next.
pub trait Callee {
    type Call;

    type Answer: Copy + PartialEq;

    /// Whether two are compared behind each call, and not behind the last alone.
    const EACH: bool;

    fn answer(&mut self, call: &Self::Call) -> Self::Answer;

    /// Whether memory was refused.
    fn is_refused(answer: &Self::Answer) -> bool;

    /// What its readers say.
    fn said(&mut self, alloc: Global, network: &Network) -> Result<String, AllocError>;

    /// Whether another did the same, where its readers do not say what it did.
    fn did_the_same(&self, _other: &Self) -> bool {
        true
    }
}

// Whether two did the same and say the same.
fn is_same<T: Callee>(
    alloc: Global,
    network: &Network,
    one: &mut T,
    other: &mut T,
) -> Result<bool, AllocError> {
    let first = one.said(alloc, network)?;
    let second = other.said(alloc, network)?;
    Ok(one.did_the_same(other) && first.as_str() == second.as_str())
}

// What the call answers, asked again where memory was refused.
fn at_last<T: Callee>(it: &mut T, call: &T::Call) -> T::Answer {
    let got = it.answer(call);
    if T::is_refused(&got) {
        return it.answer(call);
    }
    got
}

// Whether the call is answered alike by both, and leaves the first as the second where memory was refused.
fn call_is_alike<T: Callee>(
    alloc: Global,
    network: &Network,
    one: &mut T,
    other: &mut T,
    call: &T::Call,
) -> Result<bool, AllocError> {
    let mut got = one.answer(call);
    if T::is_refused(&got) {
        if !is_same(alloc, network, one, other)? {
            return Ok(false);
        }
        got = one.answer(call);
    }
    let wanted = at_last(other, call);
    Ok(got == wanted && (!T::EACH || is_same(alloc, network, one, other)?))
}

fn calls_are_alike<T: Callee>(
    alloc: Global,
    network: &Network,
    one: &mut T,
    other: &mut T,
    calls: &[T::Call],
) -> Result<bool, AllocError> {
    for call in calls {
        if !call_is_alike(alloc, network, one, other, call)? {
            return Ok(false);
        }
    }
    is_same(alloc, network, one, other)
}

/// Whether each refused call leaves the first of two values, and again answers what it answers of the second.
///
/// The values are left, not dropped.
pub fn both_are_alike<T: Callee + Drop>(
    alloc: Global,
    network: &Network,
    one: Result<T, AllocError>,
    other: Result<T, AllocError>,
    calls: &[T::Call],
) -> Result<bool, AllocError> {
    match (one, other) {
        (Ok(mut one), Ok(mut other)) => {
            let alike = calls_are_alike(alloc, network, &mut one, &mut other, calls);
            forget(one);
            forget(other);
            alike
        }
        (Ok(left), Err(AllocError)) | (Err(AllocError), Ok(left)) => {
            forget(left);
            Err(AllocError)
        }
        (Err(AllocError), Err(AllocError)) => Err(AllocError),
    }
}
