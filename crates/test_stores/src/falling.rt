//! Touches a key whose value falls under a standing filter as the clock goes on. Prints what the
//! filter holds, when that changes next, and how many values were read.
//!
//! It shows what no contract says: that these calls succeed while there is memory, how few values
//! they read, and that these are all that the values were asked for.

ghost use Rattle.std.specs.Prelude.{◌≤◌, length, IfOk};
ghost use Rattle.std.specs.List.{All};

mod cases;
mod pair;

use crate::falling::cases::{CASES, Case};
use crate::falling::pair::{Counted, Pair};
use agg_types::{Cond, Config, Declared, Filter, Items, Key, Name, NoMemory};
use anyhow::{Result, ensure};
use crossing::Meter;
use period_rate::Rate;
use standing_filters::{Flips, Standing};
use std::alloc::Global;
use std::io::Print;

/// Prints what a filter says of one key in each case.
pub fn run<R: Print>(rt: &R, alloc: Global) -> Result<()> {
    for case in CASES {
        play(rt, alloc, &case)?;
    }
    Ok(())
}

// Two rates of 3 events in the period before, which fall to 0 within the next one. The second
// period began so many ms before the moment 0.
fn counted(second: u64, ends: u64) -> Counted {
    Counted::new(Pair {
        first: Rate::arrive(1000, 0, 0, 3, 0),
        second: Rate::arrive(1000, second, 0, 3, 0),
        ends,
    })
}

// A filter on the first table.
fn filter(alloc: Global, conds: &[Cond]) -> Result<Filter, NoMemory>
    requires { length conds.now ≤ 4 }
    ensures { IfOk result (λ filter. length filter.conds ≤ 4) }
{
    Ok(Filter {
        name: Name::copy(alloc, b"f")?,
        table: 0,
        conds: Items::copy(alloc, conds)?,
    })
}

// A configuration of this filter.
fn config(alloc: Global, filters: Declared<Filter>) -> Result<Config, NoMemory>
    requires { All (λ filter. length filter.conds ≤ 4) filters }
    ensures { IfOk result (λ config. All (λ filter. length filter.conds ≤ 4) config.filters) }
{
    let me = Name::copy(alloc, b"agg")?;
    Ok(Config {
        me,
        peers: Declared::new(alloc),
        tables: Declared::new(alloc),
        filters,
        ranks: Declared::new(alloc),
        pushes: Declared::new(alloc),
        rows: None,
        logs: Declared::new(alloc),
        ignored: Declared::new(alloc),
    })
}

// One standing filter on the first table.
fn standing(alloc: Global, conds: &[Cond]) -> Result<Standing>
    requires { length conds.now ≤ 4 }
{
    let mut filters = Declared::new(alloc);
    filters.push(filter(alloc, conds)?)?;
    let config = config(alloc, filters)?;
    Ok(Standing::new(alloc, &config)?)
}

// Prints what the filter says of the case's key at each moment.
fn play<R: Print>(rt: &R, alloc: Global, case: &Case) -> Result<()> {
    println!(rt; "{}", case.name)?;
    ensure!(case.conds.len() <= 4, "too many conditions");
    let mut standing = standing(alloc, case.conds)?;
    judge(rt, alloc, &mut standing, case)
}

fn judge<R: Print>(rt: &R, alloc: Global, standing: &mut Standing, case: &Case) -> Result<()> {
    let key = Key::copy(alloc, b"k")?;
    let values = counted(case.second, case.ends);
    let mut flips = Flips::unknown(alloc);
    if case.touched {
        return touch_each(rt, standing, &key, &values, case.moments, &mut flips);
    }
    touch_once(rt, standing, &key, &values, case.moments, &mut flips)
}

// Touches a key at 0, and then lets the clock go on.
fn touch_once<R: Print>(
    rt: &R,
    standing: &mut Standing,
    key: &Key,
    values: &Counted,
    moments: &[u64],
    flips: &mut Flips,
) -> Result<()> {
    let mut meter = Meter::new();
    standing.touch(0, key, values, 0, &mut meter, flips)?;
    show(rt, standing, 0, values, meter)?;
    go_on(rt, standing, values, moments, meter, flips)
}

// Touches a key at each moment.
fn touch_each<R: Print>(
    rt: &R,
    standing: &mut Standing,
    key: &Key,
    values: &Counted,
    moments: &[u64],
    flips: &mut Flips,
) -> Result<()> {
    let mut meter = Meter::new();
    for t in moments {
        standing.touch(0, key, values, *t, &mut meter, flips)?;
        show(rt, standing, *t, values, meter)?;
    }
    Ok(())
}

// Lets the clock go on to each moment.
fn go_on<R: Print>(
    rt: &R,
    standing: &mut Standing,
    values: &Counted,
    moments: &[u64],
    before: Meter,
    flips: &mut Flips,
) -> Result<()> {
    let mut meter = before;
    for t in moments {
        standing.moment(values, *t, &mut meter, flips)?;
        show(rt, standing, *t, values, meter)?;
    }
    Ok(())
}

fn print_shown<R: Print>(
    rt: &R,
    t: u64,
    held: bool,
    next: Option<u64>,
    evals: u64,
    reads: u64,
) -> Result<()> {
    println!(rt; "at {t}: held:{held} next:{next:?} evals:{evals} reads:{reads}")?;
    Ok(())
}

fn show<R: Print>(
    rt: &R,
    standing: &Standing,
    t: u64,
    values: &Counted,
    meter: Meter,
) -> Result<()> {
    if standing.len() == 0 {
        return Ok(());
    }
    let held = standing.keys(0).next().is_some();
    let next = standing.next_change(0);
    print_shown(rt, t, held, next, meter.evals, values.reads())
}
