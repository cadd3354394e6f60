//! Both kinds of due index, on the same entries.

use agg_types::NoMemory;
use anyhow::{Result, anyhow};
use expiry_wheel::{Due, DueEntry, DueIndex, OrderedDue, Wheel};
use std::alloc::Global;
use std::io::Print;

fn plan<D: DueIndex<u32>>(index: &mut D, at: u64, item: u32) -> Result<()> {
    match index.plan(at, item) {
        Ok(()) => Ok(()),
        Err(NoMemory) => Err(anyhow!("no memory for a plan")),
    }
}

/// An ordered index and a wheel that counts from a moment, side by side.
#[derive(Drop)]
struct Both {
    ordered: OrderedDue<u32>,
    wheel: Wheel<u32>,
    differences: u32,
}

impl Both {
    fn new(alloc: Global, now: u64) -> Result<Both> {
        Ok(Both {
            ordered: OrderedDue::new(alloc),
            wheel: Wheel::new(alloc, now)?,
            differences: 0,
        })
    }

    fn plan(&mut self, at: u64, item: u32) -> Result<()> {
        plan(&mut self.ordered, at, item)?;
        plan(&mut self.wheel, at, item)
    }

    fn note(&mut self, alike: bool) {
        if !alike {
            self.differences = self.differences.saturating_add(1);
        }
    }

    fn take_due(&mut self, t: u64) -> Option<(u64, u32)> {
        let taken = self.wheel.take_due(t);
        let other = self.ordered.take_due(t);
        self.note(taken == other);
        taken
    }

    fn cancel(&mut self, at: u64, item: u32) -> bool {
        let found = self.wheel.cancel(at, &item);
        let other = self.ordered.cancel(at, &item);
        self.note(found == other);
        found
    }
}

/// A call of both, or of what they answer.
#[derive(Clone, Copy)]
enum Call {
    Plan(u64, u32),
    /// What is due at a moment is taken, and printed.
    Take(u64),
    /// Whether an entry was there to be cancelled is printed.
    Cancel(u64, u32),
    /// The next moment is printed.
    Next,
}

/// The least comes first, and of one moment the lesser item.
const LEAST_FIRST: &[Call] = &[
    Call::Plan(5, 1),
    Call::Plan(3, 2),
    Call::Plan(5, 3),
    Call::Plan(5, 1),
    Call::Take(4),
    Call::Take(4),
    Call::Take(5),
    Call::Take(5),
    Call::Take(5),
];

/// Moments at both ends of each level of a wheel.
const LEVELS: &[Call] = &[
    Call::Plan(0, 0),
    Call::Plan(63, 1),
    Call::Plan(64, 2),
    Call::Plan(255, 3),
    Call::Plan(256, 4),
    Call::Plan(4095, 5),
    Call::Plan(4096, 6),
    Call::Plan(65_535, 7),
    Call::Plan(65_536, 8),
    Call::Plan(1 << 62, 9),
    Call::Take(64),
    Call::Take(64),
    Call::Take(64),
    Call::Take(64),
    Call::Take(256),
    Call::Take(256),
    Call::Take(256),
    Call::Next,
    Call::Take(4096),
    Call::Take(4096),
    Call::Take(u64::MAX),
    Call::Take(u64::MAX),
    Call::Take(u64::MAX),
    Call::Take(u64::MAX),
];

const ONE_MOMENT: &[Call] = &[
    Call::Plan(7, 30),
    Call::Plan(7, 20),
    Call::Plan(7, 40),
    Call::Plan(7, 10),
    Call::Plan(7, 20),
    Call::Cancel(7, 5),
    Call::Cancel(7, 10),
    Call::Cancel(7, 30),
    Call::Take(7),
    Call::Take(7),
    Call::Take(7),
];

/// Prints what was due at a moment.
fn print_taken(rt: &impl Print, t: u64, taken: Option<(u64, u32)>) -> Result<()> {
    match taken {
        Some((at, item)) => println!(rt; "due at {t}: {item} of {at}")?,
        None => println!(rt; "due at {t}: nothing")?,
    }
    Ok(())
}

fn print_next(rt: &impl Print, next: Option<u64>) -> Result<()> {
    match next {
        Some(at) => println!(rt; "next at {at}")?,
        None => println!(rt; "nothing is next")?,
    }
    Ok(())
}

fn print_cancelled(rt: &impl Print, item: u32, found: bool) -> Result<()> {
    println!(rt; "cancelled {item}: {found}")?;
    Ok(())
}

fn make(rt: &impl Print, both: &mut Both, call: Call) -> Result<()> {
    match call {
        Call::Plan(at, item) => both.plan(at, item),
        Call::Take(t) => print_taken(rt, t, both.take_due(t)),
        Call::Cancel(at, item) => print_cancelled(rt, item, both.cancel(at, item)),
        Call::Next => print_next(rt, both.wheel.next_at()),
    }
}

fn make_all(rt: &impl Print, both: &mut Both, calls: &[Call]) -> Result<()> {
    for call in calls {
        make(rt, both, *call)?;
    }
    Ok(())
}

fn print_end(rt: &impl Print, title: &str, both: &Both) -> Result<()> {
    println!(rt; "{title}: {} differences", both.differences)?;
    Ok(())
}

/// Makes these calls of indexes that count from a moment.
fn play(rt: &impl Print, alloc: Global, title: &str, now: u64, calls: &[Call]) -> Result<()> {
    let mut both = Both::new(alloc, now)?;
    make_all(rt, &mut both, calls)?;
    print_end(rt, title, &both)
}

/// An ordered index of two entries.
fn firsts(alloc: Global) -> Result<OrderedDue<u32>> {
    let mut firsts = OrderedDue::new(alloc);
    plan(&mut firsts, 5, 1)?;
    plan(&mut firsts, 7, 2)?;
    Ok(firsts)
}

/// A wheel of two entries.
fn seconds(alloc: Global) -> Result<Wheel<u32>> {
    let mut seconds = Wheel::new(alloc, 0)?;
    plan(&mut seconds, 6, 4)?;
    plan(&mut seconds, 5, 3)?;
    Ok(seconds)
}

fn print_entry(rt: &impl Print, whose: &str, at: u64, item: u32) -> Result<()> {
    println!(rt; "{whose}'s {item} at {at}")?;
    Ok(())
}

/// Prints the entries of both indexes, the least first.
fn print_merged(rt: &impl Print, firsts: &OrderedDue<u32>, seconds: &Wheel<u32>) -> Result<()> {
    for entry in Due::new(firsts, seconds) {
        match entry {
            DueEntry::First(at, item) => print_entry(rt, "first", at, *item)?,
            DueEntry::Second(at, item) => print_entry(rt, "second", at, *item)?,
        }
    }
    Ok(())
}

/// Shows that both kinds of due index answer alike, and what.
pub fn run(rt: &impl Print, alloc: Global) -> Result<()> {
    play(rt, alloc, "from 0", 0, LEAST_FIRST)?;
    play(rt, alloc, "from 1000000", 1_000_000, LEAST_FIRST)?;
    play(rt, alloc, "levels", 0, LEVELS)?;
    play(rt, alloc, "one moment", 0, ONE_MOMENT)?;
    print_merged(rt, &firsts(alloc)?, &seconds(alloc)?)
}
