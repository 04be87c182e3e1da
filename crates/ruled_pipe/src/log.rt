//! What a seat at a pipe knows.

use std::collections::LinkedList;

/// What a seat may do, and the items that it has put and taken, oldest first. Only proofs speak of
/// it: no value of it is made.
pub struct Log<T> {
    /// Whether the seat may put.
    pub puts: bool,
    /// Whether the seat may take.
    pub takes: bool,
    /// The items that it has put.
    pub put: LinkedList<T>,
    /// The items that it has taken.
    pub taken: LinkedList<T>,
}
