//! The summed rows of a table, one after the other.

ghost use Rattle.std.specs.Prelude.{◌≡◌, length, filter, IfOk};
ghost use Rattle.std.specs.Iterator.{at_most};
ghost use Rattle.std.specs.Map.Iter.{TakesFirst};
ghost use Rattle.book_frame.specs.Lent.{key_and_sums};
ghost use Rattle.book_rows.specs.Listing.{AreMeeting, ListsMeeting, rows_meet, summed_up};

use crate::listed::{Listed, sort};
use crate::store::Store;
use crate::values::found_meets;
use agg_types::{Col, Cond, Key, NoMemory};
use fleet_model::Summed;
use peer_rows::EachKey;
use std::alloc::Global;
use std::marker::Model;
use std::vec::IntoIter;

/// Lends keys of a table, each with its summed row, in the order of their bytes. A row is summed up
/// as it is lent. Takes no memory.
///
/// Contracts see the list of what it has left.
pub struct BookRows<'a> {
    keys: IntoIter<Listed<'a>>,
    cols: &'a [(Col, u32)],
    t: u64,
}

// By hand, so that what drops it elsewhere proves nothing of its parts.
impl Drop for BookRows<'_> {
    fn drop(self) {
        let BookRows {
            keys: _,
            cols: _,
            t: _,
        } = self;
    }
}

impl<'a> Model for BookRows<'a> {
    ghost use Rattle.std.specs.Prelude.{List, ℕ};
    ghost use Rattle.std.specs.Vec.Iter.{into_iter_items};
    ghost use Rattle.fleet_model.specs.declared.summed.Summed.{Summed};
    ghost use Rattle.book_rows.specs.Listing.{summed_up};

    ghost Value = { List (List ℕ × Summed) };

    ghost view = { λ listing. summed_up listing.cols.now listing.t
        (into_iter_items listing.keys) };
}

impl<'a> BookRows<'a> {
    /// The rows of these keys, summed up at a moment.
    pub(crate) fn new(keys: Vec<Listed<'a>>, cols: &'a [(Col, u32)], t: u64) -> BookRows<'a>
        ensures { result ≡ summed_up cols.now t keys.entry.items }
    {
        BookRows {
            keys: keys.into_iter(),
            cols,
            t,
        }
    }
}

impl<'a> Iterator for BookRows<'a> {
    type Item = (&'a Key, Summed);

    ghost next_gives = { TakesFirst key_and_sums };

    ghost remaining = { λ rows. at_most (length rows) };

    fn next(&mut self) -> Option<(&'a Key, Summed)> {
        let listed = self.keys.next()?;
        Some((listed.key(), listed.sums(self.cols, self.t)))
    }
}

/// The keys of a table whose values meet all conditions at a moment, each with its summed row, in
/// order. One walk of the rows as they lie, and then a sort of the keys that are kept.
pub fn meeting<'a>(
    alloc: Global,
    store: &'a Store,
    cols: &'a [(Col, u32)],
    table: usize,
    conds: &[Cond],
    t: u64,
) -> Result<BookRows<'a>, NoMemory>
    ensures { IfOk result (λ rows. ListsMeeting store.now.rows table cols.now conds.now t rows) }
{
    let mut keys = found(alloc, store, cols, table, conds, t)?;
    sort(&mut keys);
    Ok(BookRows::new(keys, cols, t))
}

// These keys, in no order.
fn found<'a>(
    alloc: Global,
    store: &'a Store,
    cols: &[(Col, u32)],
    table: usize,
    conds: &[Cond],
    t: u64,
) -> Result<Vec<Listed<'a>>, NoMemory>
    ensures { IfOk result
        (λ keys. AreMeeting store.now.rows table cols.now conds.now t keys.items) }
{
    match store.each_key(table) {
        None => Ok(Vec::new(alloc)),
        Some(walk) => kept(alloc, walk, cols, conds, t),
    }
}

// The keys whose rows meet all conditions, each with its rows.
fn kept<'a>(
    alloc: Global,
    walk: EachKey<'a>,
    cols: &[(Col, u32)],
    conds: &[Cond],
    t: u64,
) -> Result<Vec<Listed<'a>>, NoMemory>
    ensures { IfOk result (λ keys. keys.items
        ≡ filter (λ e. rows_meet cols.now conds.now t e.1) walk.entry) }
{
    let mut keys = Vec::new(alloc);
    for (key, rows) in walk {
        let _few = rows.len();
        if found_meets(Some(&rows), cols, t, conds) {
            keys.push(Listed::new(key, rows))?;
        }
    }
    Ok(keys)
}
