//! What a turn by moves does about parts in which no key moved.

ghost use Rattle.std.specs.Prelude.{◌≡◌, ◌++◌, ◌<◌, length, map, IfOk, IfSome, IsTrue, OnOk};
ghost use Rattle.std.specs.Arc.{arc_value};
ghost use Rattle.std.specs.List.{AllByRecursion};
ghost use Rattle.pushed_keys.specs.Moves.{unmoved};
ghost use Rattle.pushed_keys.specs.Packed.{marks_of};
ghost use Rattle.pushed_keys.specs.Passed.{AreBelow, ArePassed, IsDone, IsKept};

use crate::change::{Turn, put_again};
use crate::done::{Done, say};
use crate::idle::{is_undue, keeps_all};
use crate::least::Least;
use crate::marks::{Packed, Packing};
use crate::moving::standing_on;
use crate::parts::Part;
use crate::{Moved, Pushed};
use agg_types::NoMemory;
use std::alloc::Global;
use std::cmp::Ordering;
use std::sync::Arc;

/// Tells the parts at the front of these marks in which no key moved, and gives the marks behind
/// these parts.
pub fn pass_parts<'a>(
    alloc: Global,
    done: &mut Done,
    turn: Turn,
    pushed: &Pushed,
    moves: &[Moved<'_>],
    marks: Packed<'a>,
) -> Result<Packed<'a>, NoMemory>
    ensures { IfOk result (λ after. ArePassed pushed.now turn moves.now (marks_of marks.entry)
        (marks_of after) done.old done.new) }
{
    let mut left = marks;
    while let Some((part, behind)) = whole_part(&done.kept, moves, left) {
        pass_part(alloc, done, turn, pushed, part)?;
        left = behind;
    }
    Ok(left)
}

// The first part of these marks, if no key of it moved, and what stands behind it.
#[inline]
fn whole_part<'a>(
    kept: &Packing,
    moves: &[Moved<'_>],
    marks: Packed<'a>,
) -> Option<(&'a Arc<Part>, Packed<'a>)>
    ensures below { IfSome result (λ found. AreBelow (arc_value found.0.now) moves.now) }
    ensures marks { IfSome result (λ found. marks_of marks.entry
        ≡ arc_value found.0.now ++ marks_of found.1) }
    ensures fewer { IfSome result (λ found. length found.1.parts.now
        < length marks.entry.parts.now) }
{
    let (part, behind) = marks.split_part()?;
    if is_below(part, moves) && kept.is_apart(part) {
        Some((part, behind))
    } else {
        None
    }
}

// Whether the last key of a part is below the first of these moves.
fn is_below(part: &Part, moves: &[Moved<'_>]) -> bool
    ensures { IsTrue result → AreBelow part.now moves.now }
{
    match moves {
        [] => true,
        [first, ..] => part.last_key().cmp(&first.key) == Ordering::Less,
    }
}

// Tells a part in which no key moved. Where none of its keys is due, and none of its marks is
// dropped, it is taken over.
fn pass_part(
    alloc: Global,
    done: &mut Done,
    turn: Turn,
    pushed: &Pushed,
    part: &Arc<Part>,
) -> Result<(), NoMemory>
    ensures { OnOk result (IsDone pushed.now turn done.old (map unmoved (arc_value part.now))
        done.new) }
{
    if !keeps_all(part, pushed, turn) {
        return tell_marks(done, turn, pushed, part);
    }
    if !is_undue(part, pushed, turn) {
        if !part.has_room(turn.now) {
            return tell_marks(done, turn, pushed, part);
        }
        return tell_part(alloc, done, turn, pushed, part);
    }
    done.kept.take_over(part)
}

// Tells a part in which no key moved, key by key.
fn tell_marks(done: &mut Done, turn: Turn, pushed: &Pushed, part: &Part) -> Result<(), NoMemory>
    ensures { OnOk result (IsDone pushed.now turn done.old (map unmoved part.now) done.new) }
{
    let mut left = part.lend();
    while let Some((mark, rest)) = left.split_first() {
        done.tell(turn, pushed, standing_on(mark))?;
        left = rest;
    }
    Ok(())
}

// Tells a part in which no key moved and no mark is dropped.
fn tell_part(
    alloc: Global,
    done: &mut Done,
    turn: Turn,
    pushed: &Pushed,
    part: &Part,
) -> Result<(), NoMemory>
    requires { AllByRecursion (λ mark. IsKept pushed.now turn mark) part.now }
    ensures { OnOk result (IsDone pushed.now turn done.old (map unmoved part.now) done.new) }
{
    let mut least = Least::NONE;
    let mut puts = Vec::with_capacity(alloc, part.len())?;
    let mut left = part.lend();
    while let Some((mark, rest)) = left.split_first() {
        say(&mut done.changes, turn, pushed, standing_on(mark))?;
        let put = put_again(pushed, turn, mark.is_in, mark.put);
        puts.push(put)?;
        least = least.with(mark.is_in, put);
        left = rest;
    }
    done.kept.add(part.renewed(puts.as_slice(), least)?)
}
