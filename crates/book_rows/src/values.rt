//! The values of a key, by adding up over its rows.

ghost use Rattle.std.specs.Prelude.{◌≡◌, ◌+◌, ◌-◌, ◌*◌, ◌<◌, ◌≤◌, ◌^◌, ℕ, List, length, nat_lt};
ghost use Rattle.std.specs.Prelude.{IfSome};
ghost use Rattle.std.specs.List.{list_all, position, position_or_len};
ghost use Rattle.agg_types.specs.Col.{same_col};
ghost use Rattle.agg_types.specs.Op.{op_holds};
ghost use Rattle.agg_types.specs.Whats.{lent_cells};
ghost use Rattle.agg_types.specs.declared.column.Col.{Col as ColName};
ghost use Rattle.fleet_model.specs.Keys.{row_worth, worth_of};
ghost use Rattle.fleet_model.specs.Values.{cell_worth, column_worth, value};
ghost use Rattle.book_rows.specs.Placed.{found_in};
ghost use Rattle.book_rows.specs.Shown.{AreWorthAtMost, IsWorthByCell, as_arrival, cell_of};
ghost use Rattle.book_rows.specs.Shown.{found_worth, rows_worth};
ghost use Rattle.book_rows.specs.Store.{IfFound};

use crate::row::is_live;
use crate::store::Store;
use agg_types::{Cell, Col, Cond, Key, LentCells};
use peer_rows::{Held, OfKey, Row};
use period_rate::Rate;
use standing_filters::fails_for_good;

// What the sum of a bound and a cell still fits beside.
const LARGEST_BOUND: u128 = u128::MAX - (1 << 64);

// What a cell is worth so many ms after it arrived.
#[tactic(auto, unfolding(fleet_model::specs::Values::cell_worth))]
fn cell_worth(period: u32, arrived: u64, since: u64, held: Held) -> u64
    ensures { result ≡ cell_worth period since (cell_of arrived held) }
{
    match held {
        Held::Count(count) => count,
        Held::Rate(rate) => {
            let [own, _, _, cur, prev] = rate.to_words();
            let over = 2 * u64::from(own) + 1;
            let elapsed = over.saturating_sub(rate.zero_at().saturating_sub(arrived));
            Rate::arrive(period, elapsed, cur, prev, 0).at(since)
        }
    }
}

/// Where the rows of a table hold a column: its position and its period, if it is stored.
pub fn found_in(cols: &[(Col, u32)], col: Col) -> Option<(usize, u32)>
    ensures place { result ≡ found_in cols.now col }
    ensures inside { IfSome result (λ place. place.0 < length cols.now) }
{
    for place in 0..cols.len() {
        let (stored, period) = cols[place];
        if stored.id() == col.id() {
            return Some((place, period));
        }
    }
    None
}

/// What the cell of a column is worth as it arrives.
pub(crate) fn arriving_worth(col: Col, cols: &[(Col, u32)], cells: LentCells<'_>) -> u64
    ensures { result ≡ column_worth col 0 cols.now (lent_cells cells.entry) }
{
    let Some((place, period)) = found_in(cols, col) else {
        return 0;
    };
    match cells.get(place) {
        None => 0,
        Some(cell) => arriving_cell(period, cell),
    }
}

#[tactic(auto, unfolding(fleet_model::specs::Values::cell_worth))]
fn arriving_cell(period: u32, cell: Cell) -> u64
    ensures { result ≡ cell_worth period 0 cell }
{
    match cell {
        Cell::Count(count) => count,
        Cell::Rate { elapsed, cur, prev } => Rate::arrive(period, elapsed, cur, prev, 0).at(0),
    }
}

/// What a row is worth at a moment in a column that lies at a place.
pub fn row_worth(found: Option<(usize, u32)>, t: u64, row: &Row) -> u64
    ensures { (cols : List (ColName × ℕ)) (col : ColName) → found ≡ found_in cols col
        → result ≡ row_worth cols col t (as_arrival row.now) }
{
    if !is_live(t, row) {
        return 0;
    }
    match found {
        None => 0,
        Some((place, period)) => match row.get(place) {
            None => 0,
            Some(held) => cell_worth(period, row.arrived(), t.saturating_sub(row.arrived()), held),
        },
    }
}

/// The same of a row by the cell that it holds there, for a column that is stored.
pub fn held_worth(period: u32, t: u64, row: &Row, held: Held) -> u64
    ensures { IsWorthByCell period t row.now held result }
{
    if !is_live(t, row) {
        return 0;
    }
    cell_worth(period, row.arrived(), t.saturating_sub(row.arrived()), held)
}

/// What rows of one key sum up to in a column at a moment.
pub fn worth(rows: &OfKey<'_>, cols: &[(Col, u32)], col: Col, t: u64) -> u128
    requires { length rows.now < 2 ^ 64 }
    ensures exact { result ≡ rows_worth cols.now col t rows.now }
    ensures small { result + 2 ^ 64 ≤ 2 ^ 128 }
{
    let found = found_in(cols, col);
    let mut total = 0u128;
    for (_, row) in rows.duplicate() {
        total += u128::from(row_worth(found, t, row));
    }
    total
}

/// Whether rows of one key sum up to less than a bound in a column at a moment: no more of them are
/// looked at than it takes to reach the bound.
pub(crate) fn is_below(rows: &OfKey<'_>, cols: &[(Col, u32)], col: Col, t: u64, bound: u128) -> bool
    requires { length rows.now < 2 ^ 64 }
    ensures { result ≡ nat_lt (rows_worth cols.now col t rows.now) bound }
{
    let found = found_in(cols, col);
    let mut total = 0u128;
    for (_, row) in rows.duplicate() {
        total += u128::from(row_worth(found, t, row));
        if total >= bound {
            return false;
        }
    }
    total < bound
}

/// Whether the rows of a key that were found sum up to less than a bound.
pub fn found_below(
    rows: Option<&OfKey<'_>>,
    cols: &[(Col, u32)],
    col: Col,
    t: u64,
    bound: u128,
) -> bool
    requires { IfSome rows (λ rows. length rows.now < 2 ^ 64) }
    ensures { IfFound rows.entry
        (λ own. result ≡ nat_lt (worth_of cols.now own col t) bound) }
{
    match rows {
        None => bound > 0,
        Some(rows) => is_below(rows, cols, col, t, bound),
    }
}

/// What the rows of a key that were found sum up to: nothing where none were.
pub fn found_worth(rows: Option<&OfKey<'_>>, cols: &[(Col, u32)], col: Col, t: u64) -> u128
    requires { IfSome rows (λ rows. length rows.now < 2 ^ 64) }
    ensures exact { result ≡ found_worth cols.now col t rows.entry }
    ensures of_key { IfFound rows.entry (λ own. result ≡ worth_of cols.now own col t) }
    ensures small { result + 2 ^ 64 ≤ 2 ^ 128 }
{
    match rows {
        None => 0,
        Some(rows) => worth(rows, cols, col, t),
    }
}

/// Where a table stores a column, if it does.
pub fn stored_at(cols: &[(Col, u32)], col: Col) -> Option<usize>
    ensures { result ≡ position (λ stored. same_col stored.0 col) cols.now }
{
    cols.iter().position(|stored| stored.0.id() == col.id())
}

// Where the cell of a column lies: behind the last where the column isn't stored.
fn place_of(cols: &[(Col, u32)], col: Col) -> usize
    ensures { result ≡ position_or_len (λ stored. same_col stored.0 col) cols.now }
{
    match stored_at(cols, col) {
        None => cols.len(),
        Some(place) => place,
    }
}

/// The most that the rows of a key that were found are worth in a column at any moment, where that
/// is at hand.
pub fn found_most(rows: Option<&OfKey<'_>>, cols: &[(Col, u32)], col: Col) -> Option<u128>
    ensures { IfSome result (AreWorthAtMost cols.now col rows.entry) }
{
    match rows {
        None => Some(0),
        Some(rows) => rows.most(place_of(cols, col)),
    }
}

/// At least what the rows of a key that were found are worth at a moment. Of more than one row the
/// most that they are ever worth, where that is at hand.
pub(crate) fn found_bound(rows: Option<&OfKey<'_>>, cols: &[(Col, u32)], col: Col, t: u64) -> u128
    requires { IfSome rows (λ rows. length rows.now < 2 ^ 64) }
    ensures bound { found_worth cols.now col t rows.entry ≤ result }
    ensures small { result + 2 ^ 64 ≤ 2 ^ 128 }
{
    if has_several(rows) {
        if let Some(most) = found_most(rows, cols, col) {
            if most <= LARGEST_BOUND {
                return most;
            }
        }
    }
    found_worth(rows, cols, col, t)
}

// Whether several rows were found.
fn has_several(rows: Option<&OfKey<'_>>) -> bool {
    match rows {
        None => false,
        Some(rows) => rows.len() > 1,
    }
}

/// A key's value of a column at a moment: one search, and then its rows.
pub fn value(store: &Store, cols: &[(Col, u32)], table: usize, key: &Key, col: Col, t: u64) -> u128
    ensures exact { result ≡ value cols.now store.now.rows table key.now col t }
    ensures small { result + 2 ^ 64 ≤ 2 ^ 128 }
{
    fleet_model::laws::keys::a_key_answers_by_its_rows();
    found_worth(store.of_key(table, key).as_ref(), cols, col, t)
}

/// Whether all conditions hold of what the rows of the key that were found sum up to.
pub fn found_meets(rows: Option<&OfKey<'_>>, cols: &[(Col, u32)], t: u64, conds: &[Cond]) -> bool
    requires { IfSome rows (λ rows. length rows.now < 2 ^ 64) }
    ensures { result ≡ list_all
        (λ cond. op_holds cond.op (found_worth cols.now cond.col t rows.entry) cond.bound)
        conds.now }
{
    conds.iter().all(|cond| found_holds(rows, cols, t, cond))
}

// Whether a condition holds of what the rows of the key that were found sum up to. No value is
// worked out where the most that they are ever worth is at hand and fails it.
fn found_holds(rows: Option<&OfKey<'_>>, cols: &[(Col, u32)], t: u64, cond: &Cond) -> bool
    requires { IfSome rows (λ rows. length rows.now < 2 ^ 64) }
    ensures { result ≡ op_holds cond.now.op
        (found_worth cols.now cond.now.col t rows.entry) cond.now.bound }
{
    if let Some(most) = found_most(rows, cols, cond.col) {
        if fails_for_good(cond.op, most, cond.bound) {
            return false;
        }
    }
    cond.op
        .holds(found_worth(rows, cols, cond.col, t), cond.bound)
}
