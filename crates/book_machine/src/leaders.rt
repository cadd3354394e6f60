//! Bounds on the values of keys, by which ranked lists are found: each key with a row has one of at
//! least its value in each list of its table.
//!
//! A bound is made before its row is put, of at least what the key is worth before and after, so
//! that a failed allocation leaves bounds that hold. A key whose last row goes takes its bounds
//! with it.

ghost use Rattle.std.specs.Prelude.{◌≡◌, ◌<◌, ◌≤◌, ℕ, Option, length, filter, OnOk};
ghost use Rattle.std.specs.Prelude.{OnErr};
ghost use Rattle.agg_types.specs.Whats.{lent_cells};
ghost use Rattle.agg_types.specs.declared.limits.TheConstants.{LAST_MOMENT};
ghost use Rattle.fleet_model.specs.Keys.{AreInOrder};
ghost use Rattle.fleet_model.specs.Machine.{with_row};
ghost use Rattle.fleet_model.specs.Moments.{is_live};
ghost use Rattle.fleet_model.specs.Rows.{arrival_of};
ghost use Rattle.book_machine.specs.Leading.{AreLed, IsKeyDropped, IsTableDropped, StaysLed};
ghost use Rattle.book_rows.specs.Planned.{IsInside, IsShort, place_at};
ghost use Rattle.book_machine.specs.Uses.{has_list};

use crate::foreseen::live_rows;
use agg_types::{Config, Key, LentCells, NoMemory, Rank, Shape};
use book_frame::standing::cols_of;
use book_rows::{At, Store};
use peer_rows::Spot;
use ranked::Leaders;

/// Sees to it that bounds hold of a key as a row of it arrives, before and after.
pub fn lead(
    leaders: &mut Leaders,
    tables: &[Shape],
    ranks: &[Rank],
    rows: &Store,
    t: u64,
    at: At<'_>,
    cells: LentCells<'_>,
) -> Result<(), NoMemory>
    requires ordered { AreInOrder rows.now.rows }
    requires led { AreLed tables.now ranks.now rows.now.rows t leaders.old }
    ensures led { AreLed tables.now ranks.now rows.now.rows t leaders.new }
    ensures put { OnOk result ((life : Option ℕ) → AreLed tables.now ranks.now
        (with_row t rows.now.rows (place_at at.entry)
        (arrival_of tables.now at.entry.table t life (lent_cells cells.entry))) t leaders.new) }
{
    let cols = cols_of(tables, at.table);
    // Bounds take keys and let them go as rows do, so a key mostly lies in the same place in both.
    let place = at.spot.map(Spot::place);
    for (list, rank) in ranks.iter().enumerate() {
        if rank.table == at.table {
            let bound = rows.worth_with(cols, rank.col, t, at, cells);
            leaders.touch(list, place, at.key, bound)?;
        }
    }
    Ok(())
}

/// Puts a row that arrives at a moment, in ms, with bounds that hold before and after, and answers
/// where the rows of its key lay, if that was seen.
#[inline(always)]
pub fn put_led(
    rows: &mut Store,
    leaders: &mut Leaders,
    config: &Config,
    t: u64,
    at: At<'_>,
    life: Option<u64>,
    cells: LentCells<'_>,
) -> Result<Option<Spot>, NoMemory>
    requires in_range { t ≤ LAST_MOMENT }
    requires inside { IsInside rows.old.peers rows.old.tables (place_at at) }
    requires short { IsShort life }
    requires ordered { AreInOrder rows.old.rows }
    requires ranked { at.is_ranked ≡ has_list config.now at.table }
    requires led { AreLed config.now.tables config.now.ranks rows.old.rows t leaders.old }
    ensures ok { OnOk result (rows.new ≡ record rows.old {
      rows = with_row t rows.old.rows (place_at at.entry)
          (arrival_of config.now.tables at.entry.table t life (lent_cells cells.entry));
    }) }
    ensures err { OnErr result (rows.new ≡ rows.old) }
    ensures led { AreLed config.now.tables config.now.ranks rows.new.rows t leaders.new }
{
    if at.is_ranked {
        return put_ranked(rows, leaders, config, t, at, life, cells);
    }
    let cols = cols_of(config.tables.as_slice(), at.table);
    rows.put(t, at, life, cols, cells)
}

// The same of a table that has a ranked list.
#[inline(never)]
fn put_ranked(
    rows: &mut Store,
    leaders: &mut Leaders,
    config: &Config,
    t: u64,
    at: At<'_>,
    life: Option<u64>,
    cells: LentCells<'_>,
) -> Result<Option<Spot>, NoMemory>
    requires in_range { t ≤ LAST_MOMENT }
    requires inside { IsInside rows.old.peers rows.old.tables (place_at at) }
    requires short { IsShort life }
    requires ordered { AreInOrder rows.old.rows }
    requires led { AreLed config.now.tables config.now.ranks rows.old.rows t leaders.old }
    ensures ok { OnOk result (rows.new ≡ record rows.old {
      rows = with_row t rows.old.rows (place_at at.entry)
          (arrival_of config.now.tables at.entry.table t life (lent_cells cells.entry));
    }) }
    ensures err { OnErr result (rows.new ≡ rows.old) }
    ensures led { AreLed config.now.tables config.now.ranks rows.new.rows t leaders.new }
{
    let ranks = config.ranks.as_slice();
    let put = lead_and_put(rows, leaders, config, t, at, life, cells);
    if put.is_err() || life == Some(0) {
        drop_gone(leaders, ranks, rows, t, at.table, at.key);
    }
    put
}

// Puts a row once bounds hold of its key; where that was refused, bounds may be left of a key that
// has no row.
fn lead_and_put(
    rows: &mut Store,
    leaders: &mut Leaders,
    config: &Config,
    t: u64,
    at: At<'_>,
    life: Option<u64>,
    cells: LentCells<'_>,
) -> Result<Option<Spot>, NoMemory>
    requires in_range { t ≤ LAST_MOMENT }
    requires inside { IsInside rows.old.peers rows.old.tables (place_at at) }
    requires short { IsShort life }
    requires ordered { AreInOrder rows.old.rows }
    requires led { AreLed config.now.tables config.now.ranks rows.old.rows t leaders.old }
    ensures ok { OnOk result (rows.new ≡ record rows.old {
      rows = with_row t rows.old.rows (place_at at.entry)
          (arrival_of config.now.tables at.entry.table t life (lent_cells cells.entry));
    }) }
    ensures err { OnErr result (rows.new ≡ rows.old) }
    ensures led { AreLed config.now.tables config.now.ranks rows.new.rows t leaders.new }
{
    let tables = config.tables.as_slice();
    lead(leaders, tables, config.ranks.as_slice(), rows, t, at, cells)?;
    rows.put(t, at, life, cols_of(tables, at.table), cells)
}

/// Takes away the rows that have ended as the clock goes on to a moment, in ms, and the bounds of
/// keys that have none left.
pub fn go_on(rows: &mut Store, leaders: &mut Leaders, config: &Config, now: u64, later: u64)
    requires up { now ≤ later }
    requires led { AreLed config.now.tables config.now.ranks rows.old.rows now leaders.old }
    ensures rows { rows.new
        ≡ record rows.old { rows = filter (λ row. is_live later row.1) rows.old.rows } }
    ensures led { AreLed config.now.tables config.now.ranks rows.new.rows later leaders.new }
{
    // Nobody else asks which keys are gone. Bounds stand in the order of their keys: so what is
    // read for one is near when the next one is taken away.
    let mut gone = rows.end_rows(later, !config.ranks.is_empty());
    gone.sort_unstable();
    drop_ended(
        leaders,
        config.ranks.as_slice(),
        rows,
        later,
        gone.as_slice(),
    );
}

/// Takes the bounds of a key away.
pub fn drop_bounds(leaders: &mut Leaders, ranks: &[Rank], table: usize, key: &Key)
    requires { length ranks.now ≤ length leaders.old }
    ensures { IsKeyDropped ranks.now table key.now leaders.old leaders.new }
{
    for (list, rank) in ranks.iter().enumerate() {
        if rank.table == table {
            leaders.drop_key(list, key);
        }
    }
}

/// Takes the bounds of all keys of a table away.
pub fn drop_table_bounds(leaders: &mut Leaders, ranks: &[Rank], table: usize)
    requires { length ranks.now ≤ length leaders.old }
    ensures { IsTableDropped ranks.now table leaders.old leaders.new }
{
    for (list, rank) in ranks.iter().enumerate() {
        if rank.table == table {
            leaders.clear(list);
        }
    }
}

/// Takes the bounds of a key away, if it has no row that lives at a moment.
pub fn drop_gone(
    leaders: &mut Leaders,
    ranks: &[Rank],
    rows: &Store,
    t: u64,
    table: usize,
    key: &Key,
)
    requires { length ranks.now ≤ length leaders.old }
    ensures count { length leaders.new ≡ length leaders.old }
    ensures led { StaysLed ranks.now rows.now.rows t leaders.old rows.now.rows t leaders.new }
{
    let is_ranked = ranks.iter().any(|rank| rank.table == table);
    if is_ranked && live_rows(rows, table, key, t) == 0 {
        drop_bounds(leaders, ranks, table, key);
    }
}

/// Takes the bounds of those of these keys away that have no row that lives at a moment.
pub fn drop_ended(
    leaders: &mut Leaders,
    ranks: &[Rank],
    rows: &Store,
    t: u64,
    gone: &[(usize, Key)],
)
    requires { length ranks.now ≤ length leaders.old }
    ensures { StaysLed ranks.now rows.now.rows t leaders.old rows.now.rows t leaders.new }
{
    for (table, key) in gone {
        drop_gone(leaders, ranks, rows, t, *table, key);
    }
}
