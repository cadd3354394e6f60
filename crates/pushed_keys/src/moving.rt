//! What a turn does about a table of which it is given what moved.

ghost use Rattle.std.specs.Prelude.{◌≡◌, ◌+◌, ◌∷◌, ◌<◌, [], length};
ghost use Rattle.std.specs.Prelude.{IfOk, IfSome, MatchOption};
ghost use Rattle.pushed_keys.specs.Moves.{AreInOrder, marked, moved_stands, moved_to, unmoved};
ghost use Rattle.pushed_keys.specs.Packed.{lent, marks_of};
ghost use Rattle.pushed_keys.specs.Stands.{shown};
ghost use Rattle.pushed_keys.specs.Turns.{changes, last_after, marks_after};

use crate::change::Turn;
use crate::done::Done;
use crate::marks::Packed;
use crate::parts::Lent;
use crate::passing::pass_parts;
use crate::stands::Standing;
use crate::{Moved, Pushed, ToldTable, UnsaidTable};
use agg_types::NoMemory;
use std::alloc::Global;
use std::cmp::Ordering;

/// What is left of moves and of marks.
#[derive(Clone, Copy)]
pub struct Moving<'a> {
    moves: &'a [Moved<'a>],
    marks: Packed<'a>,
}

/// Takes down of a table, behind the update with this id, what has changed by these moves: what is
/// to be written, and what is told of it behind that. The moves are in the order of their keys,
/// each once.
pub fn tell_moves(
    alloc: Global,
    turn: Turn,
    pushed: &Pushed,
    moves: &[Moved<'_>],
    last: u32,
    marks: Packed<'_>,
) -> Result<(UnsaidTable, ToldTable), NoMemory>
    ensures unsaid { IfOk result (λ tables. AreInOrder (marked (marks_of marks.entry))
        → tables.0 ≡ record {
          last = last;
          changes = changes pushed.now turn (moved_stands moves.now (marks_of marks.entry));
        }) }
    ensures told { IfOk result (λ tables. AreInOrder (marked (marks_of marks.entry))
        → tables.1 ≡ record {
          last = last_after last
              (changes pushed.now turn (moved_stands moves.now (marks_of marks.entry)));
          marks = marks_after pushed.now turn (moved_stands moves.now (marks_of marks.entry));
        }) }
{
    let mut done = Done::new(alloc);
    let marks = pass_parts(alloc, &mut done, turn, pushed, moves, marks)?;
    let mut left = Moving { moves, marks };
    while let Some((standing, behind)) = first_moved(left.moves, left.marks) {
        done.tell(turn, pushed, standing)?;
        let moves = behind.moves;
        let marks = pass_parts(alloc, &mut done, turn, pushed, moves, behind.marks)?;
        left = Moving { moves, marks };
    }
    done.finish(last)
}

// The first key of moves and of marks, and what is left of both behind it.
#[inline]
#[tactic(auto, unfolding(crate::specs::Moves::moved_stands))]
fn first_moved<'a>(moves: &'a [Moved<'a>], marks: Packed<'a>) -> Option<(Standing<'a>, Moving<'a>)>
    ensures stands { MatchOption result (moved_stands moves.now (marks_of marks.entry) ≡ [])
        (λ found. moved_stands moves.now (marks_of marks.entry)
        ≡ shown found.0 ∷ moved_stands found.1.moves.now (marks_of found.1.marks)) }
    ensures order { IfSome result (λ found. AreInOrder (marked (marks_of marks.entry))
        → AreInOrder (marked (marks_of found.1.marks))) }
    ensures fewer { IfSome result (λ found.
        length found.1.moves.now + length (marks_of found.1.marks)
        < length moves.now + length (marks_of marks.entry)) }
{
    let [first, others @ ..] = moves else {
        let (mark, rest) = marks.split_first()?;
        return Some((standing_on(mark), Moving { moves, marks: rest }));
    };
    Some(first_beside(first, others, moves, marks))
}

// The first key of moves, of which there is one, and of marks, and what is left of both behind it.
#[inline]
#[tactic(auto, unfolding(crate::specs::Moves::moved_stands))]
fn first_beside<'a>(
    first: &'a Moved<'a>,
    others: &'a [Moved<'a>],
    moves: &'a [Moved<'a>],
    marks: Packed<'a>,
) -> (Standing<'a>, Moving<'a>)
    requires { moves.now ≡ first.now ∷ others.now }
    ensures stands { moved_stands (first.now ∷ others.now) (marks_of marks.entry)
        ≡ shown result.0 ∷ moved_stands result.1.moves.now (marks_of result.1.marks) }
    ensures order { AreInOrder (marked (marks_of marks.entry))
        → AreInOrder (marked (marks_of result.1.marks)) }
    ensures fewer { length result.1.moves.now + length (marks_of result.1.marks)
        < length (first.now ∷ others.now) + length (marks_of marks.entry) }
{
    let behind = Moving {
        moves: others,
        marks,
    };
    let Some((mark, rest)) = marks.split_first() else {
        return (moved(first, None), behind);
    };
    match first.key.cmp(&mark.key) {
        Ordering::Less => (moved(first, None), behind),
        Ordering::Equal => (
            moved(first, Some(mark.put)),
            Moving {
                moves: others,
                marks: rest,
            },
        ),
        Ordering::Greater => (standing_on(mark), Moving { moves, marks: rest }),
    }
}

// A key that moved.
fn moved<'a>(moved: &Moved<'a>, put: Option<u64>) -> Standing<'a>
    ensures { shown result ≡ moved_to moved.now put }
{
    Standing {
        key: moved.key,
        is_in: moved.is_in,
        put,
    }
}

/// A key that didn't move.
pub fn standing_on(mark: Lent<'_>) -> Standing<'_>
    ensures { shown result ≡ unmoved (lent mark.entry) }
{
    Standing {
        key: mark.key,
        is_in: mark.is_in,
        put: Some(mark.put),
    }
}
