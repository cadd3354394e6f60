//! What is answered of the rows.

ghost use Rattle.std.specs.Prelude.{◌≡◌, ◌<◌, ◌^◌, ◌&&◌, [], length, map, filter, IfOk};
ghost use Rattle.std.specs.List.{dedup};
ghost use Rattle.agg_types.specs.Col.{all_cols};
ghost use Rattle.fleet_model.specs.Answers.{left_of, tally};
ghost use Rattle.fleet_model.specs.Keys.{key_rows, sum_of};
ghost use Rattle.fleet_model.specs.Moments.{is_live};
ghost use Rattle.fleet_model.specs.Values.{live_keys, same_key};
ghost use Rattle.book_rows.specs.Shown.{as_arrival, of_peer, rows_worth};

use crate::row::is_live;
use crate::store::Store;
use crate::values::worth;
use agg_types::{COLUMNS, Col, Key, NoMemory};
use book_frame::keys::{is_other, longer};
use fleet_model::Summed;
use peer_rows::{ByKey, OfKey, Row};
use std::alloc::Global;

/// The keys of a table with a row that lives at a moment, in order, each once.
pub fn live_keys(alloc: Global, store: &Store, table: usize, t: u64) -> Result<Vec<&Key>, NoMemory>
    ensures { IfOk result (λ keys. map (λ key. key.now) keys.items
        ≡ live_keys store.now.rows table t) }
{
    let found = store.by_key(table)?;
    match found {
        None => Ok(Vec::new(alloc)),
        Some(rows) => distinct_keys(alloc, rows, t),
    }
}

// The keys of rows that live at a moment, each once.
fn distinct_keys<'a>(alloc: Global, rows: ByKey<'a>, t: u64) -> Result<Vec<&'a Key>, NoMemory>
    ensures { IfOk result (λ keys. map (λ key. key.now) keys.items
        ≡ dedup same_key (map (λ s. s.0.0)
        (filter (λ s. is_live t (as_arrival s.1)) rows.entry))) }
{
    let mut keys = Vec::new(alloc);
    let mut last: Option<&Key> = None;
    for (key, _, row) in rows {
        let live = is_live(t, row);
        if live && is_other(last, key) {
            if let Some(key) = last {
                keys.push(key)?;
            }
            last = Some(key);
        }
    }
    if let Some(key) = last {
        keys.push(key)?;
    }
    Ok(keys)
}

/// What the rows of a key sum up to at a moment, or none where the key has none: one search.
pub fn summed(store: &Store, cols: &[(Col, u32)], table: usize, key: &Key, t: u64) -> Option<Summed>
    ensures { result ≡ sum_of cols.now (key_rows store.now.rows table key.now) t }
{
    let rows = store.of_key(table, key)?;
    let (peers, left) = tally(rows.duplicate(), t)?;
    Some(Summed {
        peers,
        left,
        values: values(&rows, cols, t),
    })
}

/// How many rows there are, and the longest life left of them.
pub(crate) fn tally(rows: OfKey<'_>, t: u64) -> Option<(usize, Option<u64>)>
    requires { length rows < 2 ^ 64 }
    ensures { result ≡ tally t (map (of_peer 0 []) rows.entry) }
{
    let mut so_far: Option<(usize, Option<u64>)> = None;
    for (_, row) in rows {
        so_far = match so_far {
            None => Some((1, left_of(t, row))),
            Some((peers, left)) => Some((peers + 1, longer(left, left_of(t, row)))),
        };
    }
    so_far
}

/// How long a row has left, in ms, or none where it never ends.
pub fn left_of(t: u64, row: &Row) -> Option<u64>
    ensures { result ≡ left_of t (as_arrival row.now) }
{
    let ends = row.ends()?;
    let life = ends.saturating_sub(row.arrived());
    Some(life.saturating_sub(t.saturating_sub(row.arrived())))
}

/// What rows of one key sum up to, by column: nothing in those that the table doesn't store.
pub(crate) fn values(rows: &OfKey<'_>, cols: &[(Col, u32)], t: u64) -> [u128; COLUMNS]
    requires { length rows.now < 2 ^ 64 }
    ensures { result ≡ map (λ col. rows_worth cols.now col t rows.now) all_cols }
{
    let mut values = [0; COLUMNS];
    for stored in cols {
        let col = stored.0;
        values[col.place()] = worth(rows, cols, col, t);
    }
    values
}
