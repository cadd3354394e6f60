//! The values of keys as the clock goes on.

ghost use Rattle.std.specs.Prelude.{◌≡◌, ◌<◌, ◌^◌, ◌-◌, ℕ, List, length, map, min};
ghost use Rattle.std.specs.Prelude.{IfSome, nat_lt};
ghost use Rattle.fleet_model.specs.Keys.{key_rows, worth_of};
ghost use Rattle.fleet_model.specs.Next.{flat_moment};
ghost use Rattle.fleet_model.specs.Values.{cols_of};
ghost use Rattle.book_machine.specs.Foreseen.{flat_within, living_of};
ghost use Rattle.book_rows.specs.Shown.{of_peer};
ghost use Rattle.book_rows.specs.Store.{IfFound};

use crate::likely::found_likely;
use crate::machine::Machine;
use crate::next::flat_from;
use agg_types::{Col, Key};
use book_frame::standing::{cols_of, longest_period};
use book_rows::values::value;
use book_rows::{Store, is_live};
use crossing::Values;
use peer_rows::OfKey;

/// The values of keys as the clock goes on, in ms.
impl Values for Machine {
    ghost use Rattle.fleet_model.specs.Keys.{key_rows};
    ghost use Rattle.fleet_model.specs.Values.{cols_of};
    ghost use Rattle.book_machine.specs.Foreseen.{flat_within, living_within, worth_within};
    ghost use Rattle.book_machine.specs.Flatness.{living_falls, living_stays, worth_falls};
    ghost use Rattle.book_machine.specs.Flatness.{worth_stays};

    ghost summed = { λ v table key col t. worth_within (cols_of v.config.tables table)
        (key_rows v.rows table key) col t };

    ghost living = { λ v table key t. living_within (key_rows v.rows table key) t };

    ghost flat = { λ v table key. flat_within (cols_of v.config.tables table)
        (key_rows v.rows table key) };

    fn value(&self, table: usize, key: &Key, col: Col, t: u64) -> u128 {
        self.worth(table, key, col, t)
    }

    fn live(&self, table: usize, key: &Key, t: u64) -> usize {
        self.living(table, key, t)
    }

    fn flat_from(&self, table: usize, key: &Key) -> u64 {
        self.key_flat(table, key)
    }

    fn likely(&self, table: usize, key: &Key, col: Col, from: u64, bound: u128) -> Option<u64> {
        let cols = cols_of(self.config.tables.as_slice(), table);
        found_likely(
            self.rows.of_key(table, key).as_ref(),
            cols,
            col,
            from,
            bound,
        )
    }

    ghost sums_fall = { λ v table key col t later.
        worth_falls (cols_of v.config.tables table) v.rows table key col t later };

    ghost rows_end = { λ v table key t later.
        living_falls (key_rows v.rows table key) t later };

    ghost sums_stay = { λ v table key col t.
        worth_stays (cols_of v.config.tables table) (key_rows v.rows table key) col t };

    ghost rows_stay = { λ v table key t.
        living_stays (cols_of v.config.tables table) (key_rows v.rows table key) t };
}

impl Machine {
    // What a key's rows sum up to in a column at a moment.
    fn worth(&self, table: usize, key: &Key, col: Col, t: u64) -> u128
        ensures { result ≡ worth_of (cols_of self.now.config.tables table)
            (key_rows self.now.rows table key.now) col t }
    {
        let cols = cols_of(self.config.tables.as_slice(), table);
        worth_at(&self.rows, cols, table, key, col, t)
    }

    // How many rows of a key live at a moment.
    fn living(&self, table: usize, key: &Key, t: u64) -> usize
        ensures { result ≡ living_of (key_rows self.now.rows table key.now) t }
    {
        live_rows(&self.rows, table, key, t)
    }

    // The moment from which the clock changes nothing of a key, or the last one of all.
    fn key_flat(&self, table: usize, key: &Key) -> u64
        ensures { result ≡ flat_within (cols_of self.now.config.tables table)
            (key_rows self.now.rows table key.now) }
    {
        let cols = cols_of(self.config.tables.as_slice(), table);
        key_flat(&self.rows, table, key, longest_period(cols))
    }
}

// What a key's rows sum up to in a column at a moment.
fn worth_at(store: &Store, cols: &[(Col, u32)], table: usize, key: &Key, col: Col, t: u64) -> u128
    ensures { result ≡ worth_of cols.now (key_rows store.now.rows table key.now) col t }
{
    fleet_model::laws::keys::a_key_answers_by_its_rows();
    value(store, cols, table, key, col, t)
}

/// How many rows of a key live at a moment.
pub fn live_rows(store: &Store, table: usize, key: &Key, t: u64) -> usize
    ensures { result ≡ living_of (key_rows store.now.rows table key.now) t }
{
    found_live(store.of_key(table, key).as_ref(), t)
}

/// How many rows of a key that were found live at a moment.
pub fn found_live(rows: Option<&OfKey<'_>>, t: u64) -> usize
    requires { IfSome rows (λ rows. length rows.now < 2 ^ 64) }
    ensures { IfFound rows.entry (λ own. result ≡ living_of own t) }
{
    match rows {
        None => 0,
        Some(rows) => count_live(rows.duplicate(), t),
    }
}

fn count_live(rows: OfKey<'_>, t: u64) -> usize
    requires { length rows < 2 ^ 64 }
    ensures { (table : ℕ) (key : List ℕ)
        → result ≡ living_of (map (of_peer table key) rows.entry) t }
{
    let mut live = 0usize;
    for (_, row) in rows {
        if is_live(t, row) {
            live += 1;
        }
    }
    live
}

/// Whether fewer rows of a key that were found than a bound live at a moment: no more of them are
/// looked at than it takes to reach the bound.
pub fn found_fewer(rows: Option<&OfKey<'_>>, t: u64, bound: u128) -> bool
    requires { IfSome rows (λ rows. length rows.now < 2 ^ 64) }
    ensures { IfFound rows.entry (λ own. result ≡ nat_lt (living_of own t) bound) }
{
    match rows {
        None => bound > 0,
        Some(rows) => are_fewer(rows.duplicate(), t, bound),
    }
}

fn are_fewer(rows: OfKey<'_>, t: u64, bound: u128) -> bool
    requires { length rows < 2 ^ 64 }
    ensures { (table : ℕ) (key : List ℕ)
        → result ≡ nat_lt (living_of (map (of_peer table key) rows.entry) t) bound }
{
    let mut live = 0u128;
    for (_, row) in rows {
        if is_live(t, row) {
            live += 1;
        }
        if live >= bound {
            return false;
        }
    }
    live < bound
}

// The moment from which the clock changes nothing of a key, or the last one of all.
fn key_flat(store: &Store, table: usize, key: &Key, longest: u32) -> u64
    ensures { result ≡ min (flat_moment longest (key_rows store.now.rows table key.now))
        (2 ^ 64 - 1) }
{
    found_flat(store.of_key(table, key).as_ref(), longest)
}

/// The moment from which the clock changes nothing of the rows of a key that were found, or the
/// last one of all.
pub fn found_flat(rows: Option<&OfKey<'_>>, longest: u32) -> u64
    ensures { IfFound rows.entry
        (λ own. result ≡ min (flat_moment longest own) (2 ^ 64 - 1)) }
{
    match rows {
        None => 0,
        Some(rows) => rows_flat(rows.duplicate(), longest),
    }
}

fn rows_flat(rows: OfKey<'_>, longest: u32) -> u64
    ensures { (table : ℕ) (key : List ℕ)
        → result ≡ min (flat_moment longest (map (of_peer table key) rows.entry)) (2 ^ 64 - 1) }
{
    let mut flat = 0u64;
    for (_, row) in rows {
        flat = flat.max(flat_from(longest, row));
    }
    flat
}
