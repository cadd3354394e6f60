//! The rows of one key, each as the peer that holds it tells it.

ghost use Rattle.std.specs.Prelude.{◌≡◌, length, map};
ghost use Rattle.std.specs.Iterator.{at_most};
ghost use Rattle.std.specs.Map.Iter.{TakesFirst};
ghost use Rattle.agg_types.specs.Col.{all_cols};
ghost use Rattle.fleet_model.specs.Keys.{key_rows, row_worth};
ghost use Rattle.fleet_model.specs.Values.{cols_of};
ghost use Rattle.book.specs.ByPeer.{kept_row, kept_rows, peer_row};
ghost use Rattle.book_rows.specs.Shown.{as_arrival};

use agg_types::{COLUMNS, Col, Key};
use book_frame::standing::cols_of;
use book_machine::Machine;
use book_rows::queries::left_of;
use book_rows::values::{found_in, row_worth};
use fleet_model::Summed;
use peer_rows::{OfKey, Row};
use std::marker::Model;

/// A peer's row of a key, as it stands at a moment.
#[derive(Clone, Copy, Debug, PartialEq, Eq)]
pub struct PeerRow {
    /// The position of the peer that holds it.
    pub peer: usize,
    /// How long ago it arrived, in ms.
    pub age: u64,
    /// What it says: the summed row of the key if no other peer held one.
    pub sums: Summed,
}

/// Lends the rows of one key, each as it stands at a moment, by peer. Takes no memory.
///
/// Contracts see the list of what it has left.
pub struct PeerRows<'a> {
    rows: Option<OfKey<'a>>,
    cols: &'a [(Col, u32)],
    t: u64,
}

// By hand, so that what drops it elsewhere proves nothing of its parts.
impl Drop for PeerRows<'_> {
    fn drop(self) {
        let PeerRows {
            rows: _,
            cols: _,
            t: _,
        } = self;
    }
}

impl<'a> Model for PeerRows<'a> {
    ghost use Rattle.std.specs.Prelude.{List};
    ghost use Rattle.book.specs.ByPeer.{kept_rows};
    ghost use Rattle.book.specs.declared.by_peer.PeerRow.{PeerRow};

    ghost Value = { List PeerRow };

    ghost view = { λ left. kept_rows left.cols.now left.t left.rows };
}

impl<'a> PeerRows<'a> {
    // These rows, as they stand at a moment.
    fn new(rows: Option<OfKey<'a>>, cols: &'a [(Col, u32)], t: u64) -> PeerRows<'a>
        ensures { result ≡ kept_rows cols.now t rows.entry }
    {
        PeerRows { rows, cols, t }
    }

    /// The rows of a key of a machine, as they stand now.
    pub(crate) fn of(machine: &'a Machine, table: usize, key: &Key) -> PeerRows<'a>
        ensures { result ≡ map (peer_row (cols_of machine.now.config.tables table)
            machine.now.moment) (key_rows machine.now.rows table key.now) }
    {
        let cols = cols_of(machine.config.tables.as_slice(), table);
        PeerRows::new(machine.rows.of_key(table, key), cols, machine.moment)
    }

    /// How many rows are left.
    #[tactic(auto, using(crate::proofs::ByPeer::count_told))]
    pub fn len(&self) -> usize
        ensures { result ≡ length self.now }
    {
        match &self.rows {
            None => 0,
            Some(rows) => rows.len(),
        }
    }

    /// Whether no row is left.
    pub fn is_empty(&self) -> bool {
        self.len() == 0
    }
}

impl<'a> Iterator for PeerRows<'a> {
    type Item = PeerRow;

    ghost next_gives = { TakesFirst (λ row. row) };

    ghost remaining = { λ rows. at_most (length rows) };

    fn next(&mut self) -> Option<PeerRow> {
        let Some(rows) = &mut self.rows else {
            return None;
        };
        let (peer, row) = rows.next()?;
        Some(told(self.cols, self.t, peer, row))
    }
}

// What a peer's row says at a moment.
fn told(cols: &[(Col, u32)], t: u64, peer: usize, row: &Row) -> PeerRow
    ensures { result ≡ kept_row cols.now t (peer, row.now) }
{
    PeerRow {
        peer,
        age: t.saturating_sub(row.arrived()),
        sums: Summed {
            peers: 1,
            left: left_of(t, row),
            values: row_values(cols, t, row),
        },
    }
}

// What a row is worth, by column: nothing in those that the table doesn't store.
fn row_values(cols: &[(Col, u32)], t: u64, row: &Row) -> [u128; COLUMNS]
    ensures { result ≡ map (λ col. row_worth cols.now col t (as_arrival row.now)) all_cols }
{
    let mut values = [0; COLUMNS];
    for stored in cols {
        let col = stored.0;
        values[col.place()] = worth_alone(cols, col, t, row);
    }
    values
}

// What a row is worth in a column.
fn worth_alone(cols: &[(Col, u32)], col: Col, t: u64, row: &Row) -> u128
    ensures { result ≡ row_worth cols.now col t (as_arrival row.now) }
{
    u128::from(row_worth(found_in(cols, col), t, row))
}
