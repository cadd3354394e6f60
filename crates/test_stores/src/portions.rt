//! Rows that end in portions: the moments by which few do.

ghost use Rattle.std.specs.Prelude.{◌≡◌};

use agg_types::{Key, NoMemory};
use anyhow::Result;
use peer_rows::{Held, Row, RowCells, Rows};
use std::alloc::Global;
use std::io::Print;

/// When rows end, in ms, each of a key of its own.
const ENDS: [u32; 5] = [50, 50, 50, 60, 70];

/// How many keys may be looked at, and up to which moment.
const ASKED: [(usize, u64); 8] = [
    (1, 40),
    (2, 50),
    (2, 100),
    (3, 100),
    (4, 100),
    (4, 65),
    (5, 100),
    (0, 49),
];

/// The rows of one peer in one table.
#[derive(Drop)]
struct Ending {
    rows: Rows,
    alloc: Global,
    ghost peers: { rows.peers ≡ 1 },
    ghost tables: { rows.tables ≡ 1 },
}

impl Ending {
    fn new(alloc: Global) -> Result<Ending, NoMemory> {
        Ok(Ending {
            rows: Rows::new(alloc, 1, 1)?,
            alloc,
        })
    }

    // Puts a row that arrives at 0.
    fn put(&mut self, last: u8, life: u32) -> Result<(), NoMemory> {
        let key = Key::copy(self.alloc, &[10, 0, 0, last])?;
        let cells = RowCells::copy(self.alloc, &[Held::Count(1)])?;
        let row = Row::new(cells, 0, Some(life))?;
        let _none = self.rows.put(0, 0, key, row)?;
        Ok(())
    }

    // The clock goes on by at most so many keys: prints up to which moment, and how many are left.
    fn go_on(&mut self, rt: &impl Print, most: usize) -> Result<()> {
        let moment = self.rows.few_by(100, most);
        let _untold = self.rows.end_rows(moment, false);
        println!(rt; "at {moment}: {} keys", self.rows.used(0))?;
        Ok(())
    }
}

/// Asks by which moments few rows end, and ends them in portions.
pub fn run(rt: &impl Print, alloc: Global) -> Result<()> {
    let mut ending = Ending::new(alloc)?;
    let mut last = 0u8;
    for life in ENDS {
        ending.put(last, life)?;
        last = last.saturating_add(1);
    }
    for (most, t) in ASKED {
        println!(rt; "at most {most} up to {t}: {}", ending.rows.few_by(t, most))?;
    }
    for most in [2, 1, 1] {
        ending.go_on(rt, most)?;
    }
    Ok(())
}
