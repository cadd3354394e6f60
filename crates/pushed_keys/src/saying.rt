//! What a turn does about tables of which it is given what moved.

ghost use Rattle.std.specs.Prelude.{◌≡◌, [], List, ℕ, map};
ghost use Rattle.std.specs.Prelude.{slice_index_or, IfOk};
ghost use Rattle.pushed_keys.specs.Moves.{AreMovedTo, BringsTo};
ghost use Rattle.pushed_keys.specs.Packed.{marks_of};
ghost use Rattle.pushed_keys.specs.Turns.{no_table, told_table, told_tables, unsaid_table};
ghost use Rattle.pushed_keys.specs.Turns.{unsaid_tables};

use crate::change::Turn;
use crate::marks::Packed;
use crate::moving::tell_moves;
use crate::ordered::in_order;
use crate::turning::told_at;
use crate::{Moved, Pushed, ToldTable, UnsaidTable};
use agg_types::{Items, NoMemory};
use std::alloc::Global;

/// Takes down of each table what has changed by its moves: what is to be written, and what is told
/// of it behind that.
pub fn tell_all_moved(
    alloc: Global,
    turn: Turn,
    pushed: &[Pushed],
    moves: &[Vec<Moved<'_>>],
    told: &[ToldTable],
) -> Result<(Vec<UnsaidTable>, Items<ToldTable>), NoMemory>
    ensures unsaid { IfOk result (λ tables. (sets : List (List (List ℕ)))
        → AreMovedTo pushed.now (map (λ ms. ms.items) moves.now) told.now sets
        → tables.0.items ≡ unsaid_tables turn sets told.now 0 pushed.now) }
    ensures told { IfOk result (λ tables. (sets : List (List (List ℕ)))
        → AreMovedTo pushed.now (map (λ ms. ms.items) moves.now) told.now sets
        → tables.1 ≡ told_tables turn sets told.now 0 pushed.now) }
{
    let mut unsaid = Vec::new(alloc);
    let mut tables = Vec::new(alloc);
    for (before, table) in pushed.iter().enumerate() {
        let (left, after) = tell_moved_at(alloc, turn, before, table, moves, told)?;
        unsaid.push(left)?;
        tables.push(after)?;
    }
    Ok((unsaid, Items::from_vec(tables)))
}

// Takes down of a table, by its place, what has changed by its moves.
fn tell_moved_at(
    alloc: Global,
    turn: Turn,
    place: usize,
    pushed: &Pushed,
    moves: &[Vec<Moved<'_>>],
    told: &[ToldTable],
) -> Result<(UnsaidTable, ToldTable), NoMemory>
    ensures unsaid { IfOk result (λ tables. (set : List (List ℕ)) → BringsTo
        (slice_index_or (map (λ ms. ms.items) moves.now) place [])
        (slice_index_or told.now place no_table).marks set
        → tables.0 ≡ unsaid_table turn pushed.now set (slice_index_or told.now place no_table)) }
    ensures told { IfOk result (λ tables. (set : List (List ℕ)) → BringsTo
        (slice_index_or (map (λ ms. ms.items) moves.now) place [])
        (slice_index_or told.now place no_table).marks set
        → tables.1 ≡ told_table turn pushed.now set (slice_index_or told.now place no_table)) }
{
    let (last, marks) = told_at(told, place);
    match moves.get(place) {
        None => tell_moved(alloc, turn, pushed, &[], last, marks),
        Some(moves) => tell_moved(alloc, turn, pushed, moves.as_slice(), last, marks),
    }
}

// Takes down of a table what has changed by moves in any order.
fn tell_moved(
    alloc: Global,
    turn: Turn,
    pushed: &Pushed,
    moves: &[Moved<'_>],
    last: u32,
    marks: Packed<'_>,
) -> Result<(UnsaidTable, ToldTable), NoMemory>
    ensures unsaid { IfOk result (λ tables. (set : List (List ℕ))
        → BringsTo moves.now (marks_of marks.entry) set
        → tables.0 ≡ unsaid_table turn pushed.now set
        (record { last = last; marks = marks_of marks.entry })) }
    ensures told { IfOk result (λ tables. (set : List (List ℕ))
        → BringsTo moves.now (marks_of marks.entry) set
        → tables.1 ≡ told_table turn pushed.now set
        (record { last = last; marks = marks_of marks.entry })) }
{
    let ordered = in_order(alloc, moves)?;
    tell_moves(alloc, turn, pushed, ordered.as_slice(), last, marks)
}
