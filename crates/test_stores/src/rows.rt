//! Rows of two peers in one table.
ghost use Rattle.std.specs.Prelude.{◌≡◌, ◌<◌};

use agg_types::{Key, NoMemory};
use anyhow::Result;
use peer_rows::{Held, Row, RowCells, Rows};
use period_rate::Rate;
use std::alloc::Global;

#[derive(Drop)]
struct Fleet {
    rows: Rows,
    alloc: Global,
    ghost peers: { rows.peers ≡ 2 },
    ghost tables: { rows.tables ≡ 1 },
}

// The key 10.0.0.last.
fn key(alloc: Global, last: u8) -> Result<Key, NoMemory> {
    Key::copy(alloc, &[10, 0, 0, last])
}

// The last byte of a key.
fn last(key: &Key) -> u8 {
    key.as_slice().last().copied().unwrap_or(0)
}

// A row of a count and a rate.
fn row(alloc: Global, count: u64) -> Result<Row, NoMemory> {
    let held = [
        Held::Count(count),
        Held::Rate(Rate::arrive(1000, 0, 3, 1, 0)),
    ];
    Row::new(RowCells::copy(alloc, &held)?, 7, None)
}

fn print_row(rt: &HostRuntime, last: u8, peer: usize, count: u64) -> Result<()> {
    println!(rt; "key {last} peer {peer} first {count}")?;
    Ok(())
}

// What is held of a row's first columns.
fn print_cells(rt: &HostRuntime, peer: usize, row: &Row) -> Result<()> {
    let cells = (row.get(0), row.get(1), row.get(2));
    println!(rt; "peer {peer} arrived {} cells {cells:?}", row.arrived())?;
    Ok(())
}

fn print_put(rt: &HostRuntime, peer: usize, last: u8, stood: bool) -> Result<()> {
    println!(rt; "put peer {peer} key {last}: stood {stood}")?;
    Ok(())
}

impl Fleet {
    fn new(alloc: Global) -> Result<Fleet, NoMemory> {
        Ok(Fleet {
            rows: Rows::new(alloc, 2, 1)?,
            alloc,
        })
    }

    // Puts a row of a key, and says whether one stood there.
    fn try_put(&mut self, peer: usize, last: u8, count: u64) -> Result<bool, NoMemory>
        requires { peer < 2 }
    {
        let key = key(self.alloc, last)?;
        let row = row(self.alloc, count)?;
        let old = self.rows.put(peer, 0, key, row)?;
        Ok(old.is_some())
    }

    // The same, with a hint at where the key lies.
    fn try_put_there(&mut self, peer: usize, last: u8, count: u64) -> Result<bool, NoMemory>
        requires { peer < 2 }
    {
        let key = key(self.alloc, last)?;
        let row = row(self.alloc, count)?;
        let spot = self.rows.spot_near(None, 0, &key);
        let old = self.rows.put_at(spot, peer, 0, &key, row)?;
        Ok(old.is_some())
    }

    fn put(&mut self, rt: &HostRuntime, peer: usize, last: u8, count: u64) -> Result<()>
        requires { peer < 2 }
    {
        let before = (self.rows.count(peer, 0), self.rows.used(0));
        let first = self.try_put(peer, last, count);
        if first.is_err() && before != (self.rows.count(peer, 0), self.rows.used(0)) {
            println!(rt; "changed where an allocation failed")?;
        }
        let stood = match first {
            Ok(stood) => stood,
            Err(NoMemory) => self.try_put_there(peer, last, count)?,
        };
        print_put(rt, peer, last, stood)
    }

    // Prints a line for each row, and how many there are.
    fn show(&self, rt: &HostRuntime) -> Result<()> {
        for (key, peer, row) in self.rows.by_key(0)? {
            print_row(rt, last(key), peer, row.count(0))?;
        }
        let counts = (self.rows.count(0, 0), self.rows.count(1, 0));
        println!(rt; "rows {counts:?} keys {}", self.rows.used(0))?;
        Ok(())
    }

    // The sum of a column's counts over the rows of a key.
    fn sum(&self, key: &Key, column: usize) -> u64 {
        let mut sum = 0u64;
        for (_, row) in self.rows.of_key(0, key) {
            sum = sum.saturating_add(row.count(column));
        }
        sum
    }

    // Prints what is held of a key.
    fn show_key(&self, rt: &HostRuntime, last: u8) -> Result<()> {
        let key = key(self.alloc, last)?;
        let rows = self.rows.of_key(0, &key);
        println!(rt; "key {last}: {} rows", rows.len())?;
        for (peer, row) in rows {
            print_cells(rt, peer, row)?;
        }
        let sums = (self.sum(&key, 0), self.sum(&key, 1), self.sum(&key, 2));
        println!(rt; "counts {sums:?}")?;
        Ok(())
    }

    fn take(&mut self, rt: &HostRuntime, last: u8) -> Result<()> {
        let key = key(self.alloc, last)?;
        let found = self.rows.get(0, 0, &key).is_some();
        let taken = self.rows.take(0, 0, &key).map(|row| row.width());
        println!(rt; "take key {last}: found {found}, cells taken {taken:?}")?;
        Ok(())
    }

    fn clear(&mut self, rt: &HostRuntime, last: u8) -> Result<()> {
        let key = key(self.alloc, last)?;
        println!(rt; "clear key {last}: {} rows", self.rows.clear_key(0, &key))?;
        Ok(())
    }
}

pub fn run(rt: &HostRuntime) -> Result<()> {
    let mut fleet = Fleet::new(rt.alloc())?;
    for (peer, last) in [(1, 2), (0, 3), (1, 1), (0, 1), (0, 1)] {
        fleet.put(rt, peer, last, 5)?;
    }
    fleet.show(rt)?;
    fleet.show_key(rt, 1)?;
    fleet.clear(rt, 1)?;
    for last in [1, 3] {
        fleet.take(rt, last)?;
    }
    fleet.show(rt)
}
