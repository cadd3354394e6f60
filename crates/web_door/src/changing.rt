//! What changed of a filter's set, over a look.

ghost use Rattle.std.specs.Prelude.{◌≡◌, true, IfOk, IfSome};
ghost use Rattle.hub.specs.Trailed.{trail_to};
ghost use Rattle.web_door.specs.Changing.{MovesBehind};

use crate::asking::{ListFault, place_of};
use agg_types::NoMemory;
use hub::Look;
use set_moves::{Moved, what_moved};
use std::alloc::Global;
use web_lists::{MOST_CHANGES, MOST_TOLD, Span, change_list};

/// What moved in a filter's set behind the first so many events of a look's list, or the set where
/// that isn't known.
pub fn changes_of(
    alloc: Global,
    look: &Look<'_>,
    name: &[u8],
    since: Option<u64>,
) -> Result<Vec<u8>, ListFault>
    requires { look.now.lens.now.inside ≡ true }
{
    let book = look.book();
    let place = place_of(&book.config().filters, name)?;
    let to = look.receipt().len();
    let moved = known_moves(alloc, look, place, since, to)?;
    let span = Span { since, to };
    Ok(change_list(alloc, book, place, span, moved.as_ref(), MOST_TOLD)?)
}

// What moved in the set of the filter at a place since a number of events, if one was asked for of
// a list of so many.
fn known_moves(
    alloc: Global,
    look: &Look<'_>,
    place: usize,
    since: Option<u64>,
    to: u64,
) -> Result<Option<Moved>, NoMemory>
    requires { look.now.lens.now.inside ≡ true }
{
    match since {
        Some(since) if since <= to => moves_behind(alloc, look, place, since),
        _ => Ok(None),
    }
}

// What moved in the set of the filter at a place behind the first so many events of a look's list.
// None where that isn't known any more, or more changed than is gone through.
fn moves_behind(
    alloc: Global,
    look: &Look<'_>,
    place: usize,
    since: u64,
) -> Result<Option<Moved>, NoMemory>
    requires { look.now.lens.now.inside ≡ true }
    ensures { IfOk result (λ found. IfSome found (λ moved. MovesBehind
        (trail_to look.now.lens.now.seen) place since moved.entered.keys moved.left.keys)) }
{
    let Some(changes) = look.changes(place, since)? else {
        return Ok(None);
    };
    if changes.len() > MOST_CHANGES {
        return Ok(None);
    }
    Ok(Some(what_moved(alloc, changes.as_slice())?))
}
