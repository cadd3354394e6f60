//! The rows in force.

ghost use Rattle.std.specs.Prelude.{◌≡◌, ◌<◌, ◌≤◌, ℕ, List, [], Option, ◌==◌, ◌&&◌, not};
ghost use Rattle.std.specs.Prelude.{length, filter, IfSome, IfOk, OnOk};
ghost use Rattle.std.specs.Prelude.{OnErr, unwrap_or};
ghost use Rattle.agg_types.specs.Whats.{lent_cells};
ghost use Rattle.agg_types.specs.declared.column.Col.{Col as ColName};
ghost use Rattle.agg_types.specs.declared.event.Cell.{Cell as CellValue};
ghost use Rattle.agg_types.specs.declared.limits.TheConstants.{LAST_MOMENT};
ghost use Rattle.fleet_model.specs.Machine.{with_row};
ghost use Rattle.std.specs.List.{list_any};
ghost use Rattle.fleet_model.specs.Moments.{is_live};
ghost use Rattle.fleet_model.specs.Values.{same_key, same_place};
ghost use Rattle.fleet_model.specs.Keys.{AreInOrder, held_rows, key_rows, worth_of};
ghost use Rattle.book_rows.specs.Planned.{IsInside, IsShort, place_at};
ghost use Rattle.book_rows.specs.Store.{AreRowsOf, IsEachKeyOf, IsWalk, put_arrival, row_keys};
ghost use Rattle.book_rows.specs.Store.{with_arrived};

use crate::at::At;
use crate::puts::{arrive, drop_key, drop_row, drop_table, lay_row, set_row, short};
use crate::values::{arriving_worth, found_bound};
use agg_types::{Col, Key, LentCells, NoMemory};
use peer_rows::{Arrival, ByKey, EachKey, OfKey, Row, Rows, Spot, Trace};
use std::alloc::Global;
use std::marker::Model;

/// How many peers and tables a book has.
#[derive(Clone, Copy, Debug)]
pub struct Size {
    /// The peers.
    pub peers: usize,
    /// The tables.
    pub tables: usize,
}

/// The rows in force. Contracts see them by place, and how many peers and tables there are.
#[derive(Drop)]
pub struct Store {
    alloc: Global,
    pub(crate) size: Size,
    rows: Rows,
}

impl Model for Store {
    ghost use Rattle.book_rows.specs.Planned.{AreRows};
    ghost use Rattle.book_rows.specs.Shown.{arrivals};
    ghost use Rattle.book_rows.specs.Store.{InForce};

    ghost Value = { InForce };

    ghost view = { λ s. record {
      peers = s.size.peers;
      tables = s.size.tables;
      rows = arrivals s.rows.entries;
    } };

    ghost invariant = { λ s. AreRows s.size.peers s.size.tables s.rows };
}

impl Store {
    /// No rows, for so many peers and tables.
    pub fn new(alloc: Global, size: Size) -> Result<Store, NoMemory>
        ensures { IfOk result (λ store. store
            ≡ record { peers = size.peers; tables = size.tables; rows = [] }) }
    {
        Ok(Store {
            alloc,
            size,
            rows: Rows::new(alloc, size.peers, size.tables)?,
        })
    }

    /// Takes away the rows that have ended at a moment: what is due then is looked at, and no more.
    /// Answers, if they are to be told, the keys that have no row left, each with the position of
    /// its table, as far as there is memory for them.
    pub fn end_rows(&mut self, t: u64, told: bool) -> Vec<(usize, Key)>
        ensures { self.new
            ≡ record self.old { rows = filter (λ row. is_live t row.1) self.old.rows } }
    {
        self.rows.end_rows(t, told)
    }

    /// A moment up to `t` by which few keys of each table are looked at: so many, or those of one
    /// moment.
    pub fn few_by(&self, t: u64, most: usize) -> u64
        ensures { result ≤ t }
    {
        self.rows.few_by(t, most)
    }

    /// Where the rows of a key may lie, for the calls that take an `At`: what the hint says. Where
    /// there is none, they are searched for if they are read before one is put.
    #[inline(always)]
    pub fn spot_for(
        &self,
        hint: Option<Spot>,
        are_read: bool,
        table: usize,
        key: &Key,
    ) -> Option<Spot>
        requires { table < self.now.tables }
    {
        if are_read && hint.is_none() {
            return self.rows.spot_near(None, table, key);
        }
        hint
    }

    /// Where a key is looked for, by its hash alone. Reads no memory but the key's.
    pub fn trace(&self, table: usize, key: &Key) -> Option<Trace> {
        if table < self.size.tables {
            Some(self.rows.trace(table, key))
        } else {
            None
        }
    }

    /// The trace with a first look at what it leads to.
    pub fn touch(&self, table: usize, trace: Trace) -> Trace {
        if table < self.size.tables {
            self.rows.touch(table, trace)
        } else {
            trace
        }
    }

    /// Where the rows of a trace's key may lie, without a look there.
    pub fn guess(&self, table: usize, trace: Trace) -> Option<Spot> {
        if table < self.size.tables {
            self.rows.guess(table, trace)
        } else {
            None
        }
    }

    /// The spot, if the rows of the key lie there.
    pub fn confirm(&self, spot: Spot, table: usize, key: &Key) -> Option<Spot> {
        if table < self.size.tables {
            self.rows.confirm(spot, table, key)
        } else {
            None
        }
    }

    /// The spot with a first look at where a peer's row of the table lies there.
    pub fn touch_row(&self, spot: Spot, table: usize, peer: usize) -> Option<Spot> {
        if table < self.size.tables {
            self.rows.touch_row(spot, table, peer)
        } else {
            None
        }
    }

    /// How many rows a table has, over all peers, in a time by their number. No clause says it.
    pub fn rows_of(&self, table: usize) -> usize {
        if table < self.size.tables {
            self.rows.count_all(table)
        } else {
            0
        }
    }

    /// Puts a row that arrives at a moment, in ms, in the place of the one that stood there, and
    /// answers where the rows of its key lay, if that was seen. One whose life is over takes the
    /// row away.
    #[inline(always)]
    #[tactic(auto, unfolding(fleet_model::specs::Machine::with_row))]
    pub fn put(
        &mut self,
        t: u64,
        at: At<'_>,
        life: Option<u64>,
        cols: &[(Col, u32)],
        cells: LentCells<'_>,
    ) -> Result<Option<Spot>, NoMemory>
        requires in_range { t ≤ LAST_MOMENT }
        requires inside { IsInside self.old.peers self.old.tables (place_at at) }
        requires short { IsShort life }
        ensures ok { OnOk result (self.new ≡ record self.old {
          rows = with_row t self.old.rows (place_at at.entry)
              (put_arrival t life cols.now (lent_cells cells.entry));
        }) }
        ensures err { OnErr result (self.new ≡ self.old) }
    {
        if is_over(life) {
            drop_row(&mut self.rows, self.size, at);
            return Ok(at.spot);
        }
        self.put_living(t, at, life, cols, cells)
    }

    // The same of a row whose life isn't over.
    #[inline(always)]
    fn put_living(
        &mut self,
        t: u64,
        at: At<'_>,
        life: Option<u64>,
        cols: &[(Col, u32)],
        cells: LentCells<'_>,
    ) -> Result<Option<Spot>, NoMemory>
        requires in_range { t ≤ LAST_MOMENT }
        requires inside { IsInside self.old.peers self.old.tables (place_at at) }
        requires short { IsShort life }
        ensures ok { OnOk result
            (self.new ≡ with_arrived self.old t at.entry life cols.now cells.entry) }
        ensures err { OnErr result (self.new ≡ self.old) }
    {
        let LentCells::Packed(packed) = cells else {
            return self.put_laid(t, at, life, cols, cells);
        };
        let arrival = Arrival {
            cells: packed,
            cols,
            t,
            life: short(life),
        };
        let arriving = arrive(&mut self.rows, self.size, at, &arrival)?;
        if arriving.is_done {
            return Ok(arriving.spot);
        }
        let at = At {
            spot: arriving.spot,
            ..at
        };
        self.put_laid(t, at, life, cols, cells)
    }

    // The same of a row that is made before it is laid down.
    #[inline(never)]
    fn put_laid(
        &mut self,
        t: u64,
        at: At<'_>,
        life: Option<u64>,
        cols: &[(Col, u32)],
        cells: LentCells<'_>,
    ) -> Result<Option<Spot>, NoMemory>
        requires in_range { t ≤ LAST_MOMENT }
        requires inside { IsInside self.old.peers self.old.tables (place_at at) }
        requires short { IsShort life }
        ensures ok { OnOk result
            (self.new ≡ with_arrived self.old t at.entry life cols.now cells.entry) }
        ensures err { OnErr result (self.new ≡ self.old) }
    {
        let mut row = Row::blank();
        lay_row(&mut row, self.alloc, t, life, cols, cells)?;
        Ok(set_row(&mut self.rows, self.size, at, &mut row)?)
    }

    /// The rows of a key, by peer: one search. None where there is no such table.
    pub fn of_key(&self, table: usize, key: &Key) -> Option<OfKey<'_>>
        ensures value { AreRowsOf self.now.rows table key.now result }
        ensures few { IfSome result (λ rows. length rows ≤ self.now.peers) }
    {
        self.of_key_at(None, table, key)
    }

    /// What `of_key` answers, whatever the hint: one that fits saves the search.
    pub fn of_key_at(&self, hint: Option<Spot>, table: usize, key: &Key) -> Option<OfKey<'_>>
        ensures value { AreRowsOf self.now.rows table key.now result }
        ensures few { IfSome result (λ rows. length rows ≤ self.now.peers) }
    {
        if table < self.size.tables {
            Some(self.rows.of_key_at(hint, table, key))
        } else {
            None
        }
    }

    /// The rows of a table, by key, then by peer. None where there is no such table.
    pub(crate) fn by_key(&self, table: usize) -> Result<Option<ByKey<'_>>, NoMemory>
        ensures { IfOk result (λ found. IsWalk self.now.rows table found) }
    {
        if table < self.size.tables {
            Ok(Some(self.rows.by_key(table)?))
        } else {
            Ok(None)
        }
    }

    /// The keys of a table, each once with its rows, in no order. None where there is no such
    /// table.
    pub fn each_key(&self, table: usize) -> Option<EachKey<'_>>
        ensures { IsEachKeyOf self.now.rows table (unwrap_or result []) }
    {
        if table < self.size.tables {
            Some(self.rows.each_key(table))
        } else {
            None
        }
    }

    /// How many keys of a table have a row, in constant time.
    pub fn used(&self, table: usize) -> usize
        ensures { result ≡ length (row_keys self.now.rows table) }
    {
        if table < self.size.tables {
            self.rows.used(table)
        } else {
            0
        }
    }

    /// How many rows a peer holds of a table, in constant time.
    #[inline(always)]
    pub fn held(&self, table: usize, peer: usize) -> usize
        requires table_in { table < self.now.tables }
        requires peer_in { peer < self.now.peers }
        ensures count { result ≡ held_rows self.now.rows table peer }
        ensures ordered { AreInOrder self.now.rows }
    {
        self.rows.count(peer, table)
    }

    /// Whether there is a row at a place.
    #[inline(never)]
    pub(crate) fn has_row(&self, at: At<'_>) -> bool
        requires { IsInside self.now.peers self.now.tables (place_at at) }
        ensures { result ≡ list_any (λ row. same_place (place_at at.entry) row.0) self.now.rows }
    {
        self.rows
            .get_at(at.spot, at.peer, at.table, at.key)
            .is_some()
    }

    /// At least what a key is worth in a column as a row of it arrives at a moment, before it and
    /// after it.
    pub fn worth_with(
        &self,
        cols: &[(Col, u32)],
        col: Col,
        t: u64,
        at: At<'_>,
        cells: LentCells<'_>,
    ) -> u128
        requires { AreInOrder self.now.rows }
        ensures before { worth_of cols.now
            (key_rows self.now.rows at.entry.table at.entry.key.now) col t ≤ result }
        ensures after { (life : Option ℕ) → worth_of cols.now
            (key_rows (with_row t self.now.rows (place_at at.entry)
            (put_arrival t life cols.now (lent_cells cells.entry))) at.entry.table at.entry.key.now)
            col t ≤ result }
    {
        let found = self.of_key_at(at.spot, at.table, at.key);
        let standing = found_bound(found.as_ref(), cols, col, t);
        standing + u128::from(arriving_worth(col, cols, cells))
    }

    /// Takes away the rows of a table.
    pub fn clear_table(&mut self, table: usize)
        ensures { self.new ≡ record self.old {
          rows = filter (λ row. not (row.0.table == table)) self.old.rows;
        } }
    {
        if table < self.size.tables {
            drop_table(&mut self.rows, self.size, table);
        }
    }

    /// Takes away the rows of a key, over all peers.
    pub fn clear_key(&mut self, table: usize, key: &Key)
        ensures { self.new ≡ record self.old {
          rows = filter
              (λ row. not ((row.0.table == table) && same_key key.now row.0.key)) self.old.rows;
        } }
    {
        if table < self.size.tables {
            drop_key(&mut self.rows, self.size, table, key);
        }
    }
}

// Whether a life is over as it begins.
fn is_over(life: Option<u64>) -> bool
    ensures { (t : ℕ) (cols : List (ColName × ℕ)) (cells : List CellValue)
        → is_live t (put_arrival t life cols cells) ≡ not result }
{
    life == Some(0)
}
