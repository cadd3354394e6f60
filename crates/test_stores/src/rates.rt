//! Rates, at the moments at which they change.

use anyhow::Result;
use crossing::{Meter, first_below};
use period_rate::Rate;
use std::io::Print;

/// Prints a rate at each of these moments, in ms.
fn show(rt: &impl Print, name: &str, rate: Rate, moments: &[u64]) -> Result<()> {
    for t in moments {
        println!(rt; "{name}: {} at {t}", rate.at(*t))?;
    }
    println!(rt; "{name}: 0 from {} on", rate.zero_at())?;
    Ok(())
}

/// What came in a period that began so many ms before its row arrived, and what in the one before;
/// and the moments at which the rate is looked at.
#[derive(Clone, Copy)]
struct Case {
    name: &'static str,
    period: u32,
    elapsed: u64,
    cur: u32,
    prev: u32,
    arrived: u64,
    moments: &'static [u64],
}

/// Rates of periods that run, that ended, and of lone events.
const CASES: [Case; 5] = [
    Case {
        name: "shared",
        period: 10_000,
        elapsed: 0,
        cur: 30,
        prev: 100,
        arrived: 0,
        moments: &[0, 2500, 2900, 2901, 10_000, 10_001, 19_666, 19_667, 20_000],
    },
    Case {
        name: "one event before",
        period: 1000,
        elapsed: 0,
        cur: 0,
        prev: 1,
        arrived: 0,
        moments: &[0, 1000, 1001],
    },
    Case {
        name: "one event",
        period: 1000,
        elapsed: 0,
        cur: 1,
        prev: 0,
        arrived: 0,
        moments: &[1000, 2000, 2001],
    },
    Case {
        name: "half gone",
        period: 1000,
        elapsed: 500,
        cur: 3,
        prev: 1,
        arrived: 7,
        moments: &[7, 508, 1507],
    },
    Case {
        name: "long over",
        period: 1000,
        elapsed: 9000,
        cur: 3,
        prev: 1,
        arrived: 7,
        moments: &[7],
    },
];

fn show_case(rt: &impl Print, case: &Case) -> Result<()> {
    let arrived = case.arrived.min(1 << 62);
    let rate = Rate::arrive(case.period, case.elapsed, case.cur, case.prev, arrived);
    show(rt, case.name, rate, case.moments)
}

/// Since when the shared rate is below these bounds.
fn show_bounds(rt: &impl Print) -> Result<()> {
    let rate = Rate::arrive(10_000, 0, 30, 100, 0);
    for bound in [101, 1, 0] {
        let first = first_below(&rate, 0, bound, &mut Meter::new());
        println!(rt; "shared: below {bound} from {first:?} on")?;
    }
    Ok(())
}

fn show_words(rt: &impl Print) -> Result<()> {
    let far = Rate::arrive(1, 0, 2, 3, (1 << 33) + 5);
    let again = Rate::from_words(far.to_words());
    println!(rt; "its words make the same rate: {}", again == far)?;
    Ok(())
}

/// Shows each.
pub fn run(rt: &impl Print) -> Result<()> {
    for case in CASES {
        show_case(rt, &case)?;
    }
    show_bounds(rt)?;
    show_words(rt)
}
