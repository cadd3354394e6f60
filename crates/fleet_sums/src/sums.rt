ghost use Rattle.std.specs.Prelude.{◌≡◌, ◌<◌, ◌^◌, [], length, map, slice_index, IsOk, IfOk, OnOk};
ghost use Rattle.std.specs.Prelude.{OnErr};

use crate::Keys;
use crate::table_sums::Table;
use agg_types::{Key, NoMemory, Shape};
use peer_rows::Row;
use std::alloc::Global;
use std::marker::Model;

/// The running sums of a fleet: for each table and key the number of rows that were added and not
/// dropped, and for each column the total of their counts.
///
/// Tables and columns are named by their positions. A column of rates has the total 0. A key has at
/// most 2^32 rows, so a total is below 2^96 and can't overflow.
#[derive(Debug)]
pub struct Sums {
    tables: Vec<Table>,
}

// By hand, so that what drops it elsewhere proves nothing of its parts.
impl Drop for Sums {
    fn drop(self) {
        let Sums { tables: _ } = self;
    }
}

impl Model for Sums {
    ghost use Rattle.std.specs.Prelude.{map};
    ghost use Rattle.fleet_sums.specs.Sums.{SumMap, placed};

    ghost Value = { SumMap };

    ghost view = { λ sums. record {
      widths = map (λ t. t.width) sums.tables.items;
      entries = placed
          sums.tables.items;
    } };
}

impl Sums {
    ghost use Rattle.fleet_sums.specs.Sums.{sums_of, keys_in, HasRow, CanDrop, added, dropped};
    ghost use Rattle.fleet_sums.specs.Sums.{replaced};

    /// The sums of no row, for tables of these columns.
    pub fn new(alloc: Global, tables: &[Shape]) -> Result<Sums, NoMemory>
        ensures { IfOk result (λ sums. sums
            ≡ record { widths = map (λ shape. length shape.cols) tables.now; entries = [] }) }
    {
        let mut empty = Vec::with_capacity(alloc, tables.len())?;
        for shape in tables {
            empty.push(Table::new(alloc, shape.cols.len()))?;
        }
        Ok(Sums { tables: empty })
    }

    /// Adds a row of a table and key. The row has a cell for each column of the table.
    ///
    /// Takes no memory where the key has a row. After `NoMemory` no sum has changed.
    pub fn add_row(&mut self, table: usize, key: &Key, row: &Row) -> Result<(), NoMemory>
        requires table_in { table < length self.old.widths }
        requires width { length row.now.cells ≡ slice_index self.old.widths table }
        requires few { (sums_of self.old table key.now).rows < 2 ^ 32 }
        ensures ok { OnOk result (self.new ≡ added self.old table key.now row.now.cells) }
        ensures held { HasRow self.old table key.now → IsOk result }
        ensures err { OnErr result (self.new ≡ self.old) }
    {
        self.tables[table].add(key, row)
    }

    /// Takes a row of a table and key away that was added before. Takes no memory.
    pub fn drop_row(&mut self, table: usize, key: &Key, row: &Row)
        requires table_in { table < length self.old.widths }
        requires width { length row.now.cells ≡ slice_index self.old.widths table }
        requires there { HasRow self.old table key.now }
        requires can { CanDrop (sums_of self.old table key.now) row.now.cells }
        ensures { self.new ≡ dropped self.old table key.now row.now.cells }
    {
        self.tables[table].drop_row(key, row)
    }

    /// Puts a row of a table and key in the place of one that was added before. Takes no memory.
    pub fn replace_row(&mut self, table: usize, key: &Key, old: &Row, new: &Row)
        requires table_in { table < length self.old.widths }
        requires old_width { length old.now.cells ≡ slice_index self.old.widths table }
        requires new_width { length new.now.cells ≡ slice_index self.old.widths table }
        requires there { HasRow self.old table key.now }
        requires can { CanDrop (sums_of self.old table key.now) old.now.cells }
        ensures { self.new ≡ replaced self.old table key.now old.now.cells new.now.cells }
    {
        self.tables[table].replace_row(key, old, new)
    }

    /// How many rows of a table and key stand. Takes no memory.
    pub fn rows_of(&self, table: usize, key: &Key) -> u64
        requires { table < length self.now.widths }
        ensures { result ≡ (sums_of self.now table key.now).rows }
    {
        self.tables[table].rows_of(key)
    }

    /// The total of a column over the rows of a table and key, 0 without a row. Takes no memory.
    pub fn count_of(&self, table: usize, key: &Key, col: usize) -> u128
        requires table_in { table < length self.now.widths }
        requires col_in { col < slice_index self.now.widths table }
        ensures { result ≡ slice_index (sums_of self.now table key.now).totals col }
    {
        self.tables[table].count_of(key, col)
    }

    /// Lends the keys of a table that have a row, in order. Takes no memory.
    pub fn keys(&self, table: usize) -> Keys<'_>
        requires { table < length self.now.widths }
        ensures { result ≡ keys_in self.now table }
    {
        self.tables[table].keys()
    }
}
