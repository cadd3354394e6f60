//! What a turn by moves leaves as it is.

ghost use Rattle.std.specs.Prelude.{◌≡◌, [], List, ℕ, map, slice_index_or, IsTrue};
ghost use Rattle.std.specs.List.{AllByRecursion};
ghost use Rattle.pushed_keys.specs.Moves.{AreMovedTo, unmoved};
ghost use Rattle.pushed_keys.specs.Packed.{marks_of};
ghost use Rattle.pushed_keys.specs.Passed.{IsKept, IsUndue};
ghost use Rattle.pushed_keys.specs.Turns.{AreQuiet, ChangesNothing, no_table};

use crate::change::{Turn, is_held, is_written};
use crate::marks::Packed;
use crate::parts::Part;
use crate::turning::told_at;
use crate::{Moved, Pushed, ToldTable};

/// Whether no mark of a part is dropped, if none of its keys moved: the life of no key that isn't
/// in the set has gone by.
#[inline]
pub fn keeps_all(part: &Part, pushed: &Pushed, turn: Turn) -> bool
    ensures { IsTrue result → AllByRecursion (λ mark. IsKept pushed.now turn mark) part.now }
{
    match part.least().of_left {
        None => true,
        Some(least) => is_held(pushed, turn, least),
    }
}

/// Whether no key of a part is due, if none moved.
#[inline]
pub fn is_undue(part: &Part, pushed: &Pushed, turn: Turn) -> bool
    ensures { IsTrue result → AllByRecursion (λ mark. IsUndue pushed.now turn mark) part.now }
{
    match part.least().of_set {
        None => true,
        Some(least) => !is_written(pushed, turn, Some(least)),
    }
}

/// Whether a turn by moves writes nothing and leaves each table as it is: no key moved, none is
/// due, and no mark is dropped.
pub fn are_idle(turn: Turn, pushed: &[Pushed], moves: &[Vec<Moved<'_>>], told: &[ToldTable]) -> bool
    ensures { IsTrue result → (sets : List (List (List ℕ)))
        → AreMovedTo pushed.now (map (λ ms. ms.items) moves.now) told.now sets
        → ChangesNothing turn sets told.now pushed.now }
{
    if told.len() != pushed.len() {
        return false;
    }
    for (before, table) in pushed.iter().enumerate() {
        if !is_idle_at(turn, before, table, moves, told) {
            return false;
        }
    }
    true
}

// Whether no key of a table moved, by its place, none is due, and no mark is dropped.
fn is_idle_at(
    turn: Turn,
    place: usize,
    pushed: &Pushed,
    moves: &[Vec<Moved<'_>>],
    told: &[ToldTable],
) -> bool
    ensures none { IsTrue result
        → slice_index_or (map (λ ms. ms.items) moves.now) place [] ≡ [] }
    ensures quiet { IsTrue result → AreQuiet pushed.now turn
        (map unmoved (slice_index_or told.now place no_table).marks)
        (slice_index_or told.now place no_table).marks }
{
    let (_, marks) = told_at(told, place);
    match moves.get(place) {
        None => is_idle(turn, pushed, marks),
        Some(moves) => moves.is_empty() && is_idle(turn, pushed, marks),
    }
}

// Whether none of these keys is due, and no mark is dropped, if none of them moved.
fn is_idle(turn: Turn, pushed: &Pushed, marks: Packed<'_>) -> bool
    ensures { IsTrue result → AreQuiet pushed.now turn
        (map unmoved (marks_of marks.entry)) (marks_of marks.entry) }
{
    let mut left = marks;
    while let Some((part, behind)) = left.split_part() {
        if !keeps_all(part, pushed, turn) || !is_undue(part, pushed, turn) {
            return false;
        }
        left = behind;
    }
    left.split_first().is_none()
}
