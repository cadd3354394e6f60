//! What two books answer, compared.

use agg_types::NoMemory;
use book::{Book, BookRows, Keys};
use std::alloc::Global;

/// How many answers of two books were compared: rows, keys of filters, and changes of filters that
/// come.
#[derive(Clone, Copy)]
pub struct Seen {
    pub rows: u64,
    pub keys: u64,
    pub changes: u64,
}

/// Nothing yet.
pub const NOTHING: Seen = Seen {
    rows: 0,
    keys: 0,
    changes: 0,
};

/// How many answers of two books differ: of each table the rows and how many updates it didn't
/// take, of each filter the keys and the next change.
pub fn differences(
    alloc: Global,
    one: &Book,
    other: &Book,
    seen: &mut Seen,
) -> Result<u64, NoMemory> {
    let mut differ = u64::from(one.moment() != other.moment());
    for table in 0..one.config().tables.len() {
        differ = differ.saturating_add(drops_differ(one, other, table));
        let rows = one.rows(alloc, table)?;
        if !are_same_rows(rows, other.rows(alloc, table)?, seen) {
            differ = differ.saturating_add(1);
        }
    }
    for filter in 0..one.config().filters.len() {
        differ = differ.saturating_add(filter_differs(one, other, filter, seen));
    }
    Ok(differ)
}

/// Of how many peers the counts of updates differ that a table didn't take.
fn drops_differ(one: &Book, other: &Book, table: usize) -> u64 {
    let mut differ = 0u64;
    for peer in 0..one.config().peers.len() {
        if one.dropped(table, peer) != other.dropped(table, peer) {
            differ = differ.saturating_add(1);
        }
    }
    differ
}

fn are_same_rows(rows: BookRows<'_>, others: BookRows<'_>, seen: &mut Seen) -> bool {
    let mut others = others;
    for (key, sums) in rows {
        let Some((other, other_sums)) = others.next() else {
            return false;
        };
        if *key != *other || sums != other_sums {
            return false;
        }
        seen.rows = seen.rows.saturating_add(1);
    }
    others.next().is_none()
}

/// How many answers on a filter differ.
fn filter_differs(one: &Book, other: &Book, filter: usize, seen: &mut Seen) -> u64 {
    if filter >= one.config().filters.len() || filter >= other.config().filters.len() {
        return 1;
    }
    let keys = one.filter_keys(filter);
    let mut differ = u64::from(!are_same_keys(keys, other.filter_keys(filter), seen));
    let change = one.next_change(filter);
    if change != other.next_change(filter) {
        differ = differ.saturating_add(1);
    }
    if change.is_some() {
        seen.changes = seen.changes.saturating_add(1);
    }
    differ
}

fn are_same_keys(keys: Keys<'_>, others: Keys<'_>, seen: &mut Seen) -> bool {
    let mut others = others;
    for key in keys {
        let Some(other) = others.next() else {
            return false;
        };
        if *key != *other {
            return false;
        }
        seen.keys = seen.keys.saturating_add(1);
    }
    others.next().is_none()
}
