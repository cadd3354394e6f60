//! The values of one key whose rows are found already.

ghost use Rattle.std.specs.Prelude.{◌≡◌, ◌<◌, ◌^◌, length, Some};
ghost use Rattle.book.specs.OneKey.{key_of};
ghost use Rattle.book_rows.specs.Store.{AreRowsOf};

use agg_types::{Col, Key};
use book_frame::standing::{cols_of, longest_period};
use book_machine::{Machine, found_drop, found_fewer, found_flat, found_likely, found_live};
use book_rows::values::{found_below, found_most, found_worth};
use crossing::Values;
use peer_rows::{OfKey, Spot};
use std::marker::Model;

/// The values of one key of a machine, for who asks often: its rows and the columns of its table
/// were found once. Whichever table and key it is asked for, it answers for this one, so that no
/// key is compared.
///
/// Contracts see the machine's state, the table and the key.
#[derive(Drop)]
pub(crate) struct OneKey<'a> {
    // Only contracts look at these three.
    machine: &'a Machine,
    table: usize,
    key: &'a Key,
    cols: &'a [(Col, u32)],
    rows: Option<OfKey<'a>>,
}

impl<'a> Model for OneKey<'a> {
    ghost use Rattle.std.specs.Prelude.{◌≡◌, ◌<◌, ◌^◌, length, IfSome};
    ghost use Rattle.fleet_model.specs.Values.{cols_of};
    ghost use Rattle.book.specs.OneKey.{KeyOf};
    ghost use Rattle.book_rows.specs.Store.{AreRowsOf};

    ghost Value = { KeyOf };

    ghost view = { λ v. record { state = v.machine.now; table = v.table; key = v.key.now } };

    ghost invariant = { λ v. AreRowsOf v.machine.now.rows v.table v.key.now v.rows
        × IfSome v.rows (λ rows. length rows < 2 ^ 64)
        × (v.cols.now ≡ cols_of v.machine.now.config.tables v.table) };
}

impl<'a> OneKey<'a> {
    /// The values of a key, with its rows found, whatever the hint.
    pub(crate) fn new(
        machine: &'a Machine,
        hint: Option<Spot>,
        table: usize,
        key: &'a Key,
    ) -> OneKey<'a>
        ensures { result ≡ key_of machine.entry.now table key.entry.now }
    {
        OneKey {
            machine,
            table,
            key,
            cols: cols_of(machine.config.tables.as_slice(), table),
            rows: machine.rows.of_key_at(hint, table, key),
        }
    }

    /// The values of a key, where these are its rows.
    pub(crate) fn of_rows(
        machine: &'a Machine,
        table: usize,
        key: &'a Key,
        rows: OfKey<'a>,
    ) -> OneKey<'a>
        requires { AreRowsOf machine.now.rows table key.now (Some rows) }
        ensures { result ≡ key_of machine.entry.now table key.entry.now }
    {
        let _few = rows.len();
        OneKey {
            machine,
            table,
            key,
            cols: cols_of(machine.config.tables.as_slice(), table),
            rows: Some(rows),
        }
    }
}

/// The values of the key as the clock goes on, in ms, whichever table and key are asked for.
impl<'a> Values for OneKey<'a> {
    ghost use Rattle.fleet_model.specs.Keys.{key_rows};
    ghost use Rattle.fleet_model.specs.Values.{cols_of};
    ghost use Rattle.book_machine.specs.Foreseen.{flat_within, living_within, worth_within};
    ghost use Rattle.book_machine.specs.Flatness.{living_falls, living_stays, worth_falls};
    ghost use Rattle.book_machine.specs.Flatness.{worth_stays};
    ghost use Rattle.book.specs.OneKey.{flat_of, living_of_key, sums_of};

    ghost summed = { λ v table key. sums_of v };

    ghost living = { λ v table key. living_of_key v };

    ghost flat = { λ v table key. flat_of v };

    fn value(&self, _table: usize, _key: &Key, col: Col, t: u64) -> u128 {
        found_worth(self.rows.as_ref(), self.cols, col, t)
    }

    fn is_below(&self, _table: usize, _key: &Key, col: Col, t: u64, bound: u128) -> bool {
        found_below(self.rows.as_ref(), self.cols, col, t, bound)
    }

    fn most(&self, _table: usize, _key: &Key, col: Col) -> Option<u128> {
        found_most(self.rows.as_ref(), self.cols, col)
    }

    fn live(&self, _table: usize, _key: &Key, t: u64) -> usize {
        found_live(self.rows.as_ref(), t)
    }

    fn are_fewer(&self, _table: usize, _key: &Key, t: u64, bound: u128) -> bool {
        found_fewer(self.rows.as_ref(), t, bound)
    }

    fn flat_from(&self, _table: usize, _key: &Key) -> u64 {
        found_flat(self.rows.as_ref(), longest_period(self.cols))
    }

    fn likely(&self, _table: usize, _key: &Key, col: Col, from: u64, bound: u128) -> Option<u64> {
        found_likely(self.rows.as_ref(), self.cols, col, from, bound)
    }

    fn known_drop(
        &self,
        _table: usize,
        _key: &Key,
        col: Col,
        from: u64,
        bound: u128,
    ) -> Option<u64> {
        found_drop(self.rows.as_ref(), self.cols, col, from, bound)
    }

    ghost sums_fall = { λ v table key col t later. worth_falls
        (cols_of v.state.config.tables v.table) v.state.rows v.table v.key col t later };

    ghost rows_end = { λ v table key t later.
        living_falls (key_rows v.state.rows v.table v.key) t later };

    ghost sums_stay = { λ v table key col t. worth_stays (cols_of v.state.config.tables v.table)
        (key_rows v.state.rows v.table v.key) col t };

    ghost rows_stay = { λ v table key t. living_stays (cols_of v.state.config.tables v.table)
        (key_rows v.state.rows v.table v.key) t };
}
