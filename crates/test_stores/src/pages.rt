//! Rows of one key that many peers hold: one, several side by side, and many in pages.
ghost use Rattle.std.specs.Prelude.{◌≡◌, ◌<◌};

use agg_types::{Key, NoMemory};
use anyhow::Result;
use peer_rows::{Held, Row, RowCells, Rows};
use std::alloc::Global;

/// How many peers there are.
const PEERS: usize = 100;

/// What is said after so many rows came: one, the last without sums and the first with them, a full
/// block, the first row of a page, and all.
const SAID_AT: [usize; 6] = [1, 4, 5, 32, 33, PEERS];

#[derive(Drop)]
struct Fleet {
    rows: Rows,
    key: Key,
    alloc: Global,
    ghost peers: { rows.peers ≡ 100 },
    ghost tables: { rows.tables ≡ 1 },
}

// A row of a count, which ends at 57 where the count is even.
fn row(alloc: Global, count: u64) -> Result<Row, NoMemory> {
    let life = if count % 2 == 0 { Some(50) } else { None };
    Row::new(RowCells::copy(alloc, &[Held::Count(count)])?, 7, life)
}

impl Fleet {
    fn new(alloc: Global) -> Result<Fleet, NoMemory> {
        Ok(Fleet {
            rows: Rows::new(alloc, PEERS, 1)?,
            key: Key::copy(alloc, &[10, 0, 0, 1])?,
            alloc,
        })
    }

    // Puts a peer's row of a count, once more where an allocation failed. Whether one stood there.
    fn put(&mut self, peer: usize, count: u64) -> Result<bool, NoMemory>
        requires { peer < 100 }
    {
        let first = row(self.alloc, count)?;
        let old = match self.rows.put_at(None, peer, 0, &self.key, first) {
            Ok(old) => old,
            Err(NoMemory) => {
                let again = row(self.alloc, count)?;
                self.rows.put_at(None, peer, 0, &self.key, again)?
            }
        };
        Ok(old.is_some())
    }

    // Exchanges a peer's row for one of a count. Whether it was there.
    fn exchange(&mut self, peer: usize, count: u64) -> Result<bool, NoMemory>
        requires { peer < 100 }
    {
        let mut row = row(self.alloc, count)?;
        Ok(self.rows.exchange_at(None, peer, 0, &self.key, &mut row))
    }

    // Clears the key, and says how many rows it had.
    fn clear(&mut self) -> usize {
        self.rows.clear_key(0, &self.key)
    }

    // Says how many rows there are, what they count, and what they are worth at most.
    fn tell(&self, rt: &HostRuntime, what: &str) -> Result<()> {
        let rows = self.rows.of_key(0, &self.key);
        let (len, most) = (rows.len(), rows.most(0));
        let mut counts = 0u64;
        let mut peers = 0;
        let mut are_in_order = true;
        for (peer, row) in rows {
            counts = counts.saturating_add(row.count(0));
            are_in_order = are_in_order && peer >= peers;
            peers = peer;
        }
        println!(rt;
            "{what}: {len} rows, counts {counts}, at most {most:?}, by peer {are_in_order}"
        )?;
        Ok(())
    }
}

// The peers come in a scattered order.
fn fill(rt: &HostRuntime, fleet: &mut Fleet) -> Result<()> {
    for number in 0..PEERS {
        let peer = number * 37 % PEERS;
        if fleet.put(peer, peer as u64 + 1)? {
            println!(rt; "peer {peer} had a row")?;
        }
        if SAID_AT.contains(&(number + 1)) {
            fleet.tell(rt, "put")?;
        }
    }
    Ok(())
}

// Each third peer's row is exchanged, and each fifth's put anew.
fn change(rt: &HostRuntime, fleet: &mut Fleet) -> Result<()> {
    let mut changed = 0u32;
    for peer in 0..PEERS {
        if peer % 3 == 0 && fleet.exchange(peer, 1_000)? {
            changed = changed.saturating_add(1);
        }
        if peer % 5 == 0 && fleet.put(peer, 2_001)? {
            changed = changed.saturating_add(1);
        }
    }
    println!(rt; "{changed} rows changed")?;
    fleet.tell(rt, "changed")
}

// Each seventh peer's row is taken out, twice.
fn thin(rt: &HostRuntime, fleet: &mut Fleet) -> Result<()> {
    let mut taken = 0u32;
    for number in 0..2 * PEERS {
        let peer = number % PEERS;
        if peer % 7 == 0 && fleet.rows.take(peer, 0, &fleet.key).is_some() {
            taken = taken.saturating_add(1);
        }
    }
    println!(rt; "{taken} rows taken")?;
    fleet.tell(rt, "taken")
}

/// Puts the rows of many peers, exchanges some, takes some out, and lets some end.
pub fn run(rt: &HostRuntime) -> Result<()> {
    let mut fleet = Fleet::new(rt.alloc())?;
    fill(rt, &mut fleet)?;
    change(rt, &mut fleet)?;
    thin(rt, &mut fleet)?;
    for moment in [56, 57] {
        let _keys = fleet.rows.end_rows(moment, false);
        println!(rt; "at {moment}")?;
        fleet.tell(rt, "live")?;
    }
    println!(rt; "{} rows cleared", fleet.clear())?;
    fleet.tell(rt, "cleared")
}
