//! Marks of routers by their places: which of them rest.

ghost use Rattle.std.specs.Prelude.{◌≡◌, ◌≢◌, ◌↔◌, ℕ, IsTrue, true, slice_get, Some};

use std::alloc::Global;

/// Room for a mark of each of so many routers, and no mark. If memory is refused, no mark can be made.
pub(crate) fn no_marks(alloc: Global, routers: usize) -> Vec<bool>
    ensures { (i : ℕ) → slice_get result.items i ≡ Some true → ⊥ }
{
    let mut marks = Vec::new(alloc);
    let _ = marks.resize(routers, false);
    marks
}

/// Whether the router at a place has a mark.
pub(crate) fn is_marked(marks: &[bool], router_at: usize) -> bool
    ensures { IsTrue result ↔ (slice_get marks.now router_at ≡ Some true) }
{
    match marks.get(router_at) {
        Some(mark) => *mark,
        None => false,
    }
}

/// Marks the router at a place if there is room for it, or takes its mark away.
pub(crate) fn mark(marks: &mut Vec<bool>, router_at: usize, rests: bool)
    ensures here { slice_get marks.new.items router_at ≡ Some true → rests ≡ true }
    ensures others { (other : ℕ) → other ≢ router_at → slice_get marks.new.items other ≡ slice_get marks.old.items other }
{
    if router_at < marks.len() {
        marks[router_at] = rests;
    }
}
