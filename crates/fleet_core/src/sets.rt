//! The sets of the pushed tables.

ghost use Rattle.std.specs.Prelude.{◌≡◌, map, IfOk};
ghost use Rattle.fleet_core.specs.Telling.{sets_of};

use crate::Book;
use agg_types::{Key, NoMemory};
use book::keys_named;
use pushed_keys::Pushed;
use std::alloc::Global;

/// The keys that the filters of the pushed tables hold at the book's moment, in the order of the
/// tables; none where there is no filter of a name.
pub fn sets_of<'a>(
    alloc: Global,
    book: &'a Book,
    pushed: &[Pushed],
) -> Result<Vec<Vec<&'a Key>>, NoMemory>
    ensures { IfOk result (λ sets. map (λ set. map (λ key. key.now) set.items) sets.items
        ≡ sets_of book.now pushed.now) }
{
    let mut sets = Vec::new(alloc);
    for table in pushed {
        sets.push(keys_named(alloc, book, table.name.as_slice())?)?;
    }
    Ok(sets)
}
