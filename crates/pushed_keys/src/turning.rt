//! What a turn does about tables.

ghost use Rattle.std.specs.Prelude.{◌≡◌, []};
ghost use Rattle.std.specs.Prelude.{ℕ, map, slice_index_or, IfOk};
ghost use Rattle.std.specs.Prelude.{IfSome, IsTrue};
ghost use Rattle.pushed_keys.specs.Packed.{marks_of};
ghost use Rattle.pushed_keys.specs.Passed.{AreAbove, IsBehindQuiet};
ghost use Rattle.pushed_keys.specs.Rules.{IsStillFrom};
ghost use Rattle.pushed_keys.specs.Stands.{stands};
ghost use Rattle.pushed_keys.specs.Turns.{AreQuiet, ChangesNothing, no_table, told_table};
ghost use Rattle.pushed_keys.specs.Turns.{told_tables, unsaid_table, unsaid_tables};

use crate::change::{Turn, is_held, still_from};
use crate::done::Done;
use crate::marks::Packed;
use crate::stands::Stands;
use crate::{Pushed, ToldTable, UnsaidTable};
use agg_types::{Items, Key, NoMemory};
use std::alloc::Global;
use std::cmp::Ordering;

/// Takes down of each table what has changed of its set: what is to be written, and what is told of
/// it behind that.
pub fn tell_all(
    alloc: Global,
    turn: Turn,
    pushed: &[Pushed],
    sets: &[Vec<&Key>],
    told: &[ToldTable],
) -> Result<(Vec<UnsaidTable>, Items<ToldTable>), NoMemory>
    ensures unsaid { IfOk result (λ tables. tables.0.items ≡ unsaid_tables turn
        (map (λ set. map (λ key. key.now) set.items) sets.now) told.now 0 pushed.now) }
    ensures told { IfOk result (λ tables. tables.1 ≡ told_tables turn
        (map (λ set. map (λ key. key.now) set.items) sets.now) told.now 0 pushed.now) }
{
    let mut unsaid = Vec::new(alloc);
    let mut tables = Vec::new(alloc);
    for (before, table) in pushed.iter().enumerate() {
        let (left, after) = tell_at(alloc, turn, before, table, sets, told)?;
        unsaid.push(left)?;
        tables.push(after)?;
    }
    Ok((unsaid, Items::from_vec(tables)))
}

// Takes down of a table, by its place, what has changed of its set.
fn tell_at(
    alloc: Global,
    turn: Turn,
    place: usize,
    pushed: &Pushed,
    sets: &[Vec<&Key>],
    told: &[ToldTable],
) -> Result<(UnsaidTable, ToldTable), NoMemory>
    ensures unsaid { IfOk result (λ tables. tables.0 ≡ unsaid_table turn pushed.now
        (slice_index_or (map (λ set. map (λ key. key.now) set.items) sets.now) place [])
        (slice_index_or told.now place no_table)) }
    ensures told { IfOk result (λ tables. tables.1 ≡ told_table turn pushed.now
        (slice_index_or (map (λ set. map (λ key. key.now) set.items) sets.now) place [])
        (slice_index_or told.now place no_table)) }
{
    let (last, marks) = told_at(told, place);
    match sets.get(place) {
        None => tell(alloc, turn, pushed, &[], last, marks),
        Some(set) => tell(alloc, turn, pushed, set.as_slice(), last, marks),
    }
}

/// The last id of a table and its marks, by its place.
pub fn told_at(told: &[ToldTable], place: usize) -> (u32, Packed<'_>)
    ensures last { result.0 ≡ (slice_index_or told.now place no_table).last }
    ensures marks { marks_of result.1 ≡ (slice_index_or told.now place no_table).marks }
{
    let Some(table) = told.get(place) else {
        return (0, Packed::none());
    };
    (table.last, table.marks.lend())
}

// Takes down of a table what has changed of its set.
fn tell(
    alloc: Global,
    turn: Turn,
    pushed: &Pushed,
    set: &[&Key],
    last: u32,
    marks: Packed<'_>,
) -> Result<(UnsaidTable, ToldTable), NoMemory>
    ensures unsaid { IfOk result (λ tables. tables.0 ≡ unsaid_table turn pushed.now
        (map (λ key. key.now) set.now) (record { last = last; marks = marks_of marks.entry })) }
    ensures told { IfOk result (λ tables. tables.1 ≡ told_table turn pushed.now
        (map (λ key. key.now) set.now) (record { last = last; marks = marks_of marks.entry })) }
{
    let mut done = Done::new(alloc);
    for standing in Stands::new(set, marks) {
        done.tell(turn, pushed, standing)?;
    }
    done.finish(last)
}

/// Whether a turn writes nothing about these tables and leaves each as it is.
pub fn are_quiet(turn: Turn, pushed: &[Pushed], sets: &[Vec<&Key>], told: &[ToldTable]) -> bool
    ensures { IsTrue result → ChangesNothing turn
        (map (λ set. map (λ key. key.now) set.items) sets.now) told.now pushed.now }
{
    if told.len() != pushed.len() {
        return false;
    }
    for (before, table) in pushed.iter().enumerate() {
        if !is_quiet_at(turn, before, table, sets, told) {
            return false;
        }
    }
    true
}

// Whether a turn writes nothing about a table, by its place, and leaves its marks as they are.
fn is_quiet_at(
    turn: Turn,
    place: usize,
    pushed: &Pushed,
    sets: &[Vec<&Key>],
    told: &[ToldTable],
) -> bool
    ensures { IsTrue result → AreQuiet pushed.now turn (stands
        (slice_index_or (map (λ set. map (λ key. key.now) set.items) sets.now) place [])
        (slice_index_or told.now place no_table).marks)
        (slice_index_or told.now place no_table).marks }
{
    let (_, marks) = told_at(told, place);
    match sets.get(place) {
        None => is_quiet(turn, pushed, &[], marks),
        Some(set) => is_quiet(turn, pushed, set.as_slice(), marks),
    }
}

// Whether a turn writes nothing about a table and leaves its marks as they are.
fn is_quiet(turn: Turn, pushed: &Pushed, set: &[&Key], marks: Packed<'_>) -> bool
    ensures { IsTrue result → AreQuiet pushed.now turn
        (stands (map (λ key. key.now) set.now) (marks_of marks.entry)) (marks_of marks.entry) }
{
    let Some(from) = still_from(pushed, turn) else {
        return false;
    };
    let mut left = (set, marks);
    while let Some(behind) = behind_quiet(pushed, turn, from, left.0, left.1) {
        left = behind;
    }
    left.0.is_empty() && left.1.split_first().is_none()
}

// What is left of a set and of marks behind the first mark, if a turn writes nothing of its key and
// leaves it as it is. Keys of the set that were put at a moment, in ms, or later aren't due.
#[inline]
fn behind_quiet<'a>(
    pushed: &Pushed,
    turn: Turn,
    from: u64,
    set: &'a [&'a Key],
    marks: Packed<'a>,
) -> Option<(&'a [&'a Key], Packed<'a>)>
    requires { IsStillFrom pushed.now turn from }
    ensures { IfSome result (λ left. IsBehindQuiet pushed.now turn
        (stands (map (λ key. key.now) set.now) (marks_of marks.entry))
        (stands (map (λ key. key.now) left.0.now) (marks_of left.1))
        (marks_of marks.entry) (marks_of left.1)) }
{
    let (mark, rest) = marks.split_first()?;
    if !mark.is_in {
        return if is_held(pushed, turn, mark.put) && are_above(mark.key, set) {
            Some((set, rest))
        } else {
            None
        };
    }
    let [key, others @ ..] = set else {
        return None;
    };
    let key: &Key = key;
    if from <= mark.put && key.as_slice() == mark.key {
        Some((others, rest))
    } else {
        None
    }
}

// Whether the first key of a set, if it has one, is above a key.
#[inline]
fn are_above(key: &[u8], set: &[&Key]) -> bool
    ensures { IsTrue result → AreAbove key.now (map (λ key. key.now) set.now) }
{
    let [first, ..] = set else {
        return true;
    };
    let first: &Key = first;
    first.as_slice().cmp(&key) == Ordering::Greater
}
