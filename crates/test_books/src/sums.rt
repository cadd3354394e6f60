//! Sums of one table of a count and a rate.
ghost use Rattle.std.specs.Prelude.{◌≡◌, ◌∷◌, [], IfOk};

use agg_types::{Col, Items, Key, KeyKind, Name, NoMemory, Shape};
use anyhow::Result;
use fleet_sums::Sums;
use peer_rows::{Held, Row, RowCells};
use period_rate::Rate;
use std::alloc::Global;

#[derive(Drop)]
struct Summed {
    sums: Sums,
    alloc: Global,
    ghost widths: { sums.widths ≡ 2 ∷ [] },
}

fn new_sums(alloc: Global) -> Result<Sums, NoMemory>
    ensures { IfOk result (λ sums. sums ≡ record { widths = 2 ∷ []; entries = [] }) }
{
    let shape = Shape {
        name: Name::copy(alloc, b"t")?,
        kind: KeyKind::Ip,
        size: 100,
        keep: None,
        cols: Items::copy(alloc, &[(Col::Gpc0, 0), (Col::HttpReqRate, 1000)])?,
    };
    Sums::new(alloc, &[shape])
}

// A row of a count and a rate.
fn row(alloc: Global, count: u64) -> Result<Row, NoMemory>
    ensures { IfOk result (λ row. (rate : Rate)
        × (row.cells ≡ Held.Count count ∷ Held.Rate rate ∷ [])) }
{
    let rate = Rate::arrive(1000, 0, 3, 1, 0);
    let cells = RowCells::copy(alloc, &[Held::Count(count), Held::Rate(rate)])?;
    Row::new(cells, 0, None)
}

impl Summed {
    // Adds a row of the key 10.0.0.last, and says whether there was room for it.
    fn try_add(&mut self, last: u8, count: u64) -> Result<bool, NoMemory> {
        let key = Key::copy(self.alloc, &[10, 0, 0, last])?;
        let row = row(self.alloc, count)?;
        if self.sums.rows_of(0, &key) >= 10 {
            return Ok(false);
        }
        self.sums.add_row(0, &key, &row)?;
        Ok(true)
    }

    fn add(&mut self, rt: &HostRuntime, last: u8, count: u64) -> Result<()> {
        let keys = self.sums.keys(0).count();
        let first = self.try_add(last, count);
        if first.is_err() && keys != self.sums.keys(0).count() {
            println!(rt; "changed where an allocation failed")?;
        }
        let added = match first {
            Ok(added) => added,
            Err(NoMemory) => self.try_add(last, count)?,
        };
        println!(rt; "add {count} to key {last}: {added}")?;
        Ok(())
    }

    fn show(&self, rt: &HostRuntime, last: u8) -> Result<()> {
        let key = Key::copy(self.alloc, &[10, 0, 0, last])?;
        let rows = self.sums.rows_of(0, &key);
        let totals = (
            self.sums.count_of(0, &key, 0),
            self.sums.count_of(0, &key, 1),
        );
        println!(rt; "key {last}: {rows} rows, totals {totals:?}")?;
        Ok(())
    }
}

impl Summed {
    fn add_all(&mut self, rt: &HostRuntime, rows: &[(u8, u64)]) -> Result<()> {
        for (last, count) in rows {
            self.add(rt, *last, *count)?;
        }
        println!(rt; "{} keys", self.sums.keys(0).count())?;
        Ok(())
    }
}

pub fn run(rt: &HostRuntime) -> Result<()> {
    let mut summed = Summed {
        sums: new_sums(rt.alloc())?,
        alloc: rt.alloc(),
    };
    summed.add_all(rt, &[(1, 5), (2, 9), (1, 7)])?;
    summed.show(rt, 1)?;
    summed.show(rt, 3)
}
