ghost use Rattle.std.specs.Prelude.{◌≡◌, ◌<◌, ◌^◌, [], length, slice_index, IsOk, IsSome, IfOk};
ghost use Rattle.std.specs.Prelude.{OnOk, OnErr};
ghost use Rattle.std.specs.Cmp.Lexicographic.{slice_cmp};
ghost use Rattle.std.specs.Ordering.{nat_cmp};
ghost use Rattle.std.specs.Map.{keys_of, lookup, remove_entry};
ghost use Rattle.std.specs.BTreeMap.{insert_entry, is_at, IsOrdered};

use crate::Keys;
use crate::key_sums::KeySums;
use agg_types::{Key, NoMemory};
use peer_rows::Row;
use std::alloc::Global;
use std::collections::BTreeMap;
use std::marker::Model;

/// The sums of a table's keys.
#[derive(Debug, Drop)]
pub(crate) struct Table {
    width: usize,
    alloc: Global,
    keys: BTreeMap<Key, KeySums>,
}

impl Model for Table {
    ghost use Rattle.fleet_sums.specs.Sums.{TableSums, IsTable};

    ghost Value = { TableSums };

    ghost view = { λ table. record { width = table.width; entries = table.keys.entries } };

    ghost invariant = { λ table. IsTable (record
        { width = table.width; entries = table.keys.entries }) };
}

impl Table {
    ghost use Rattle.fleet_sums.specs.Sums.{sums_of_key, put_or_take, CanDrop};
    ghost use Rattle.fleet_sums.specs.Totals.{with_row, with_row_less, without_row};

    /// A table of this many columns, without a row.
    pub(crate) fn new(alloc: Global, width: usize) -> Table
        ensures { result ≡ record { width = width; entries = [] } }
    {
        Table {
            width,
            alloc,
            keys: BTreeMap::new(alloc),
        }
    }

    /// Adds a row of a key.
    pub(crate) fn add(&mut self, key: &Key, row: &Row) -> Result<(), NoMemory>
        requires width { length row.now.cells ≡ self.old.width }
        requires few { (sums_of_key self.old key.now).rows < 2 ^ 32 }
        ensures ok { OnOk result (self.new
            ≡ record self.old {
              entries = insert_entry (slice_cmp nat_cmp) self.old.entries key.now
                  (with_row (sums_of_key self.old key.now) row.now.cells);
            }) }
        ensures held { IsSome (lookup (is_at (slice_cmp nat_cmp key.now)) self.old.entries)
            → IsOk result }
        ensures err { OnErr result (self.new ≡ self.old) }
    {
        if let Some(sums) = self.keys.get_mut(key) {
            sums.add(row);
            return Ok(());
        }
        let mut sums = KeySums::new(self.alloc, self.width)?;
        sums.add(row);
        self.keys.insert(key.duplicate(self.alloc)?, sums)?;
        Ok(())
    }

    /// Takes a row of a key away, and the key with its last row.
    pub(crate) fn drop_row(&mut self, key: &Key, row: &Row)
        requires width { length row.now.cells ≡ self.old.width }
        requires there { IsSome (lookup (is_at (slice_cmp nat_cmp key.now)) self.old.entries) }
        requires can { CanDrop (sums_of_key self.old key.now) row.now.cells }
        ensures { self.new ≡ record self.old {
          entries = put_or_take (slice_cmp nat_cmp) self.old.entries key.now
              (without_row (sums_of_key self.old key.now) row.now.cells);
        } }
    {
        let Some(sums) = self.keys.get_mut(key) else {
            return;
        };
        if sums.rows() == 1 {
            forget(&mut self.keys, key);
        } else {
            sums.drop_row(row);
        }
    }

    /// Puts a row of a key in the place of another.
    pub(crate) fn replace_row(&mut self, key: &Key, old: &Row, new: &Row)
        requires old_width { length old.now.cells ≡ self.old.width }
        requires new_width { length new.now.cells ≡ self.old.width }
        requires there { IsSome (lookup (is_at (slice_cmp nat_cmp key.now)) self.old.entries) }
        requires can { CanDrop (sums_of_key self.old key.now) old.now.cells }
        ensures { self.new ≡ record self.old {
          entries = insert_entry (slice_cmp nat_cmp) self.old.entries key.now
              (with_row (with_row_less (sums_of_key self.old key.now) old.now.cells) new.now.cells);
        } }
    {
        let Some(sums) = self.keys.get_mut(key) else {
            return;
        };
        sums.replace_row(old, new);
    }

    /// How many rows a key has.
    pub(crate) fn rows_of(&self, key: &Key) -> u64
        ensures { result ≡ (sums_of_key self.now key.now).rows }
    {
        match self.keys.get(key) {
            Some(sums) => sums.rows(),
            None => 0,
        }
    }

    /// The total of a column of a key.
    pub(crate) fn count_of(&self, key: &Key, col: usize) -> u128
        requires { col < self.now.width }
        ensures { result ≡ slice_index (sums_of_key self.now key.now).totals col }
    {
        match self.keys.get(key) {
            Some(sums) => sums.total(col),
            None => 0,
        }
    }

    /// The keys with a row, in order.
    pub(crate) fn keys(&self) -> Keys<'_>
        ensures { result ≡ keys_of self.now.entries }
    {
        Keys::new(self.keys.keys())
    }
}

// Takes a key and its sums out.
fn forget(keys: &mut BTreeMap<Key, KeySums>, key: &Key)
    ensures entries { keys.new.entries ≡ remove_entry (is_at (slice_cmp nat_cmp key.now))
        keys.old.entries }
    ensures ordered { IsOrdered (slice_cmp nat_cmp) keys.new }
{
    keys.remove(key);
}
