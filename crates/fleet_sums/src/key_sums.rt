ghost use Rattle.std.specs.Prelude.{◌≡◌, ◌+◌, ◌-◌, ◌*◌, ◌^◌, ◌<◌, ◌≤◌, ℕ, length, replicate};
ghost use Rattle.std.specs.Prelude.{slice_index, IfOk};
ghost use Rattle.peer_rows.specs.Counted.{counted_at};
ghost use Rattle.fleet_sums.specs.Totals.{totals_by};

use crate::total::Total;
use agg_types::NoMemory;
use peer_rows::Row;
use std::alloc::Global;
use std::marker::Model;

/// The sums of one key: how many rows it has, and for each column the total of their counts.
#[derive(Debug, Drop)]
pub(crate) struct KeySums {
    rows: u64,
    totals: Vec<Total>,
}

impl Model for KeySums {
    ghost use Rattle.fleet_sums.specs.Totals.{KeyTotals, IsBounded};

    ghost Value = { KeyTotals };

    ghost view = { λ sums. record { rows = sums.rows; totals = sums.totals.items } };

    ghost invariant = { λ sums. IsBounded (record {
      rows = sums.rows;
      totals = sums.totals.items;
    }) };
}

impl KeySums {
    ghost use Rattle.fleet_sums.specs.Totals.{no_sums, with_row, with_row_less};
    ghost use Rattle.fleet_sums.specs.Sums.{CanDrop};

    /// The sums of no row.
    pub(crate) fn new(alloc: Global, width: usize) -> Result<KeySums, NoMemory>
        ensures { IfOk result (λ sums. sums ≡ no_sums width) }
    {
        Ok(KeySums {
            rows: 0,
            totals: no_totals(alloc, width)?,
        })
    }

    /// How many rows the key has.
    pub(crate) fn rows(&self) -> u64
        ensures { result ≡ self.now.rows }
    {
        self.rows
    }

    /// The total of a column.
    pub(crate) fn total(&self, col: usize) -> u128
        requires { col < length self.now.totals }
        ensures { result ≡ slice_index self.now.totals col }
    {
        self.totals[col].value()
    }

    /// Adds a row.
    pub(crate) fn add(&mut self, row: &Row)
        requires width { length row.now.cells ≡ length self.old.totals }
        requires few { self.old.rows < 2 ^ 32 }
        ensures { self.new ≡ with_row self.old row.now.cells }
    {
        add_counts(&mut self.totals, row);
        self.rows += 1;
    }

    /// Takes a row away.
    pub(crate) fn drop_row(&mut self, row: &Row)
        requires width { length row.now.cells ≡ length self.old.totals }
        requires some { 1 ≤ self.old.rows }
        requires enough { (col : ℕ) → counted_at row.now.cells col
            ≤ slice_index self.old.totals col }
        requires left { (col : ℕ) → slice_index self.old.totals col - counted_at row.now.cells col
            ≤ (self.old.rows - 1) * (2 ^ 64 - 1) }
        ensures { self.new ≡ with_row_less self.old row.now.cells }
    {
        take_counts(&mut self.totals, row);
        self.rows -= 1;
    }

    /// Puts a row in the place of another.
    pub(crate) fn replace_row(&mut self, old: &Row, new: &Row)
        requires old_width { length old.now.cells ≡ length self.old.totals }
        requires new_width { length new.now.cells ≡ length self.old.totals }
        requires can { CanDrop self.old old.now.cells }
        ensures { self.new ≡ with_row (with_row_less self.old old.now.cells) new.now.cells }
    {
        replace_counts(&mut self.totals, old, new);
    }
}

// So many totals of 0.
fn no_totals(alloc: Global, width: usize) -> Result<Vec<Total>, NoMemory>
    ensures { IfOk result (λ totals. totals.items ≡ replicate width 0) }
{
    let mut totals = Vec::with_capacity(alloc, width)?;
    for _col in 0..width {
        totals.push(Total::new(0))?;
    }
    Ok(totals)
}

fn add_counts(totals: &mut [Total], row: &Row)
    requires width { length row.now.cells ≡ length totals.old }
    requires room { (col : ℕ) → slice_index totals.old col + (2 ^ 64 - 1) < 2 ^ 96 }
    ensures sums { totals.new ≡ totals_by (λ t n. t + n) totals.old row.now.cells }
    ensures bound { (col : ℕ) → slice_index totals.new col
        ≤ slice_index totals.old col + (2 ^ 64 - 1) }
{
    for col in 0..totals.len() {
        totals[col].add(row.count(col));
    }
}

fn take_counts(totals: &mut [Total], row: &Row)
    requires width { length row.now.cells ≡ length totals.old }
    requires enough { (col : ℕ) → counted_at row.now.cells col ≤ slice_index totals.old col }
    ensures { totals.new ≡ totals_by (λ t n. t - n) totals.old row.now.cells }
{
    for col in 0..totals.len() {
        totals[col].take(row.count(col));
    }
}

fn replace_counts(totals: &mut [Total], old: &Row, new: &Row)
    requires old_width { length old.now.cells ≡ length totals.old }
    requires new_width { length new.now.cells ≡ length totals.old }
    requires enough { (col : ℕ) → counted_at old.now.cells col ≤ slice_index totals.old col }
    requires room { (col : ℕ) → slice_index totals.old col - counted_at old.now.cells col
        + (2 ^ 64 - 1) < 2 ^ 96 }
    ensures sums { totals.new ≡ totals_by (λ t n. t + n)
        (totals_by (λ t n. t - n) totals.old old.now.cells) new.now.cells }
    ensures bound { (col : ℕ) → slice_index totals.new col
        ≤ slice_index totals.old col - counted_at old.now.cells col + (2 ^ 64 - 1) }
{
    take_counts(totals, old);
    add_counts(totals, new);
}
