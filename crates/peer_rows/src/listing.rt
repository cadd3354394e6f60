//! The keys of a table in order, for one listing.
ghost use Rattle.std.specs.Prelude.{◌≡◌, IfOk};
ghost use Rattle.std.specs.Option.{option_map};
ghost use Rattle.std.specs.Ordering.{nat_cmp};
ghost use Rattle.std.specs.Cmp.Lexicographic.{slice_cmp};
ghost use Rattle.place_index.specs.Places.{item_at, in_order};
ghost use Rattle.peer_rows.specs.Places.{by_place, one_shown, shown};

use crate::index::Index;
use crate::key_rows::KeyRows;
use agg_types::{Key, NoMemory};
use std::alloc::Global;
use std::cmp::Ordering;

/// A key with its rows, lent.
pub(crate) type Lent<'a> = (&'a Key, &'a KeyRows);

// What lies in a place.
fn lent(index: &Index, at: usize) -> Option<Lent<'_>>
    ensures { option_map one_shown result ≡ item_at index.now.places at }
{
    let key = index.key(at)?;
    let rows = index.value(at)?;
    Some((key, rows))
}

// The keys as they stand by place.
fn listed(alloc: Global, index: &Index) -> Result<Vec<Lent<'_>>, NoMemory>
    ensures { IfOk result (λ keys. shown keys.items ≡ by_place index.now.places) }
{
    let mut keys = Vec::with_capacity(alloc, index.count())?;
    for at in 0..index.places() {
        if let Some(item) = lent(index, at) {
            keys.push(item)?;
        }
    }
    Ok(keys)
}

/// The keys in order, in memory of their own.
pub(crate) fn sorted(alloc: Global, index: &Index) -> Result<Vec<Lent<'_>>, NoMemory>
    ensures { IfOk result (λ keys. shown keys.items ≡ in_order index.now.places) }
{
    let _count = index.count();
    let mut keys = listed(alloc, index)?;
    keys.sort_unstable_by(
        |a: &Lent<'_>, b: &Lent<'_>| -> Ordering
            ensures { result ≡ slice_cmp nat_cmp a.now.0.now b.now.0.now }
        { a.0.cmp(b.0) },
    );
    Ok(keys)
}
