//! The first keys of a table, of those that are sought. They are kept as the rows are walked: so
//! memory is taken for as many as are wanted, and not for all that meet the conditions.

ghost use Rattle.std.specs.Prelude.{◌≡◌, ◌<◌, ◌^◌, length, filter, IfOk, OnOk};
ghost use Rattle.std.specs.Option.{option_copied};
ghost use Rattle.book_rows.specs.First.{AreFirst, AreOnce, HoldsOn, IsCut, IsLastOf, ListsFirst};
ghost use Rattle.book_rows.specs.First.{SeeksOn, is_behind, is_sought, stays_out};
ghost use Rattle.book_rows.specs.Listing.{summed_up};

use crate::listed::{Listed, sort};
use crate::listing::BookRows;
use crate::store::Store;
use crate::values::found_meets;
use agg_types::{Col, Cond, Key, NoMemory};
use peer_rows::{EachKey, OfKey};
use std::alloc::Global;

/// What is sought of a table: keys whose values meet all conditions, in the order of their bytes.
#[derive(Clone, Copy, Debug)]
pub struct Sought<'a> {
    /// The conditions.
    pub conds: &'a [Cond],
    /// The key behind which they stand, if there is one.
    pub after: Option<&'a Key>,
    /// How many at most: the first ones.
    pub most: usize,
}

impl Sought<'_> {
    // Whether a key with these rows is sought.
    fn takes(self, key: &Key, rows: &OfKey<'_>, cols: &[(Col, u32)], t: u64) -> bool
        requires { length rows.now < 2 ^ 64 }
        ensures { result ≡ is_sought cols.now t self.entry (key.now, rows.now) }
    {
        is_behind(self.after, key) && found_meets(Some(rows), cols, t, self.conds)
    }
}

// Whether a key stands behind another one, or behind none.
fn is_behind(after: Option<&Key>, key: &Key) -> bool
    ensures { result ≡ is_behind (option_copied after.entry) key.now }
{
    match after {
        None => true,
        Some(after) => *after < *key,
    }
}

// The first of the keys that came so far, and others: at most twice as many as are wanted.
#[derive(Drop)]
struct First<'a> {
    keys: Vec<Listed<'a>>,
    // The last of the first keys when they were last put in order: what stands behind it is none
    // of them.
    last: Option<&'a Key>,
    most: usize,
}

impl<'a> First<'a> {
    // Whether a key is known to be none of the first.
    fn leaves(&self, key: &Key) -> bool
        ensures { result ≡ stays_out (option_copied self.now.last) key.now }
    {
        match self.last {
            None => false,
            Some(last) => *last < *key,
        }
    }

    // Takes a key with its rows, if it is sought and may be one of the first.
    fn offer(
        &mut self,
        key: &'a Key,
        rows: OfKey<'a>,
        cols: &[(Col, u32)],
        t: u64,
        sought: Sought<'_>,
    ) -> Result<(), NoMemory>
        requires { length rows < 2 ^ 64 }
        ensures most { self.new.most ≡ self.old.most }
        ensures holds { OnOk result (SeeksOn (is_sought cols.now t sought.entry) self.old.most
            self.old.keys.items (option_copied self.old.last) (key.now, rows.entry)
            self.new.keys.items (option_copied self.new.last)) }
    {
        if self.leaves(key) {
            return Ok(());
        }
        if sought.takes(key, &rows, cols, t) {
            return self.take(key, rows);
        }
        Ok(())
    }

    // Takes a key with its rows.
    fn take(&mut self, key: &'a Key, rows: OfKey<'a>) -> Result<(), NoMemory>
        ensures most { self.new.most ≡ self.old.most }
        ensures holds { OnOk result (HoldsOn self.old.most self.old.keys.items
            (option_copied self.old.last) (key.now, rows.entry) self.new.keys.items
            (option_copied self.new.last)) }
    {
        self.keys.push(Listed::new(key, rows))?;
        if self.keys.len() / 2 < self.most {
            return Ok(());
        }
        cut(&mut self.keys, self.most);
        self.last = last_of(self.keys.as_slice());
        Ok(())
    }
}

// Keeps the first so many keys, in order.
fn cut(keys: &mut Vec<Listed<'_>>, most: usize)
    ensures { IsCut most keys.old.items keys.new.items }
{
    sort(keys);
    keys.truncate(most);
}

// The last key, if there is one.
fn last_of<'a>(keys: &[Listed<'a>]) -> Option<&'a Key>
    ensures { IsLastOf (option_copied result) keys.now }
{
    match keys.last() {
        None => None,
        Some(last) => Some(last.key()),
    }
}

/// The first keys of a table that are sought at a moment, each with its summed row: one walk of
/// the rows as they lie.
pub fn first_meeting<'a>(
    alloc: Global,
    store: &'a Store,
    cols: &'a [(Col, u32)],
    table: usize,
    t: u64,
    sought: Sought<'_>,
) -> Result<BookRows<'a>, NoMemory>
    ensures { IfOk result
        (λ rows. ListsFirst store.now.rows table cols.now t sought.entry rows) }
{
    let keys = found(alloc, store, cols, table, t, sought)?;
    Ok(BookRows::new(keys, cols, t))
}

// These keys, in order.
fn found<'a>(
    alloc: Global,
    store: &'a Store,
    cols: &[(Col, u32)],
    table: usize,
    t: u64,
    sought: Sought<'_>,
) -> Result<Vec<Listed<'a>>, NoMemory>
    ensures { IfOk result (λ keys. ListsFirst store.now.rows table cols.now t sought.entry
        (summed_up cols.now t keys.items)) }
{
    match store.each_key(table) {
        None => Ok(Vec::new(alloc)),
        Some(walk) => first_of(alloc, walk, cols, t, sought),
    }
}

// The first keys of a walk that are sought, in order.
fn first_of<'a>(
    alloc: Global,
    walk: EachKey<'a>,
    cols: &[(Col, u32)],
    t: u64,
    sought: Sought<'_>,
) -> Result<Vec<Listed<'a>>, NoMemory>
    requires once { AreOnce walk }
    ensures { IfOk result (λ keys. AreFirst sought.entry.most
        (filter (is_sought cols.now t sought.entry) walk.entry) keys.items) }
{
    if sought.most == 0 {
        return Ok(Vec::new(alloc));
    }
    let mut first = First {
        keys: Vec::new(alloc),
        last: None,
        most: sought.most,
    };
    for (key, rows) in walk {
        let _few = rows.len();
        first.offer(key, rows, cols, t, sought)?;
    }
    let First { mut keys, .. } = first;
    cut(&mut keys, sought.most);
    Ok(keys)
}
