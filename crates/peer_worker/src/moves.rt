//! What came into the sets of the pushed tables and what left them since a session's last turn.

ghost use Rattle.std.specs.Prelude.{◌≡◌, true, map, IfOk, IfSome};
ghost use Rattle.agg_types.specs.Naming.{place_of};
ghost use Rattle.peer_worker.specs.Gathering.{AreMoves, AreSince, Each, IsMovedSince};

use agg_types::NoMemory;
use book::Book;
use hub::{Change, Look};
use pushed_keys::{Moved, Pushed};
use std::alloc::Global;

/// What moved in each pushed table behind the list of so many first events; none where that isn't
/// known of one of them any more.
pub(crate) fn moves_since<'a>(
    alloc: Global,
    look: &'a Look<'_>,
    pushed: &[Pushed],
    number: u64,
) -> Result<Option<Vec<Vec<Moved<'a>>>>, NoMemory>
    requires { look.now.lens.now.inside ≡ true }
    ensures { IfOk result (λ found. IfSome found (λ all.
        Each (λ table moves. IsMovedSince number look.now.lens.now.seen table moves)
        pushed.now (map (λ moves. moves.items) all.items))) }
{
    let mut all = Vec::new(alloc);
    for table in pushed {
        let Some(moves) = moves_in(alloc, look, table, number)? else {
            return Ok(None);
        };
        all.push(moves)?;
    }
    Ok(Some(all))
}

// The same of one table.
fn moves_in<'a>(
    alloc: Global,
    look: &'a Look<'_>,
    table: &Pushed,
    number: u64,
) -> Result<Option<Vec<Moved<'a>>>, NoMemory>
    requires { look.now.lens.now.inside ≡ true }
    ensures { IfOk result (λ found. IfSome found (λ moves.
        IsMovedSince number look.now.lens.now.seen table.now moves.items)) }
{
    let Some(changes) = changes_of(look, table, number)? else {
        return Ok(None);
    };
    Ok(Some(moves_of(alloc, changes.as_slice())?))
}

// What came into the set of a table and what left it behind the list of so many first events; none
// where that isn't known any more.
fn changes_of<'a>(
    look: &'a Look<'_>,
    table: &Pushed,
    number: u64,
) -> Result<Option<Vec<&'a Change>>, NoMemory>
    requires { look.now.lens.now.inside ≡ true }
    ensures { IfOk result (λ found. IfSome found (λ changes.
        AreSince table.now number look.now.lens.now.seen
        (map (λ change. change.now) changes.items))) }
{
    let Some(place) = place_in(look.book(), table) else {
        return Ok(None);
    };
    let Some(changes) = look.changes(place, number)? else {
        return Ok(None);
    };
    Ok(Some(changes))
}

// The place of the filter that a table is pushed for.
fn place_in(book: &Book, table: &Pushed) -> Option<usize>
    ensures { result
        ≡ place_of (λ filter. filter.name) book.now.config.filters table.now.name }
{
    book.config().filters.position(table.name.as_slice())
}

// Changes, as a turn is given them.
fn moves_of<'a>(alloc: Global, changes: &[&'a Change]) -> Result<Vec<Moved<'a>>, NoMemory>
    ensures { IfOk result (λ moves. AreMoves moves.items
        (map (λ change. change.now) changes.now)) }
{
    let mut moves = Vec::new(alloc);
    for change in changes {
        let change: &'a Change = *change;
        moves.push(Moved {
            key: change.key.as_slice(),
            is_in: change.is_in,
        })?;
    }
    Ok(moves)
}
