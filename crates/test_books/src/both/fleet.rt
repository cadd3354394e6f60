//! Two books of one fleet, to which the same happens: to one event by event, to the other in runs.

use crate::both::answers::{NOTHING, Seen, differences};
use crate::both::deeds::{Deed, add, seat_of, what};
use agg_types::{NUMBERS_END, NoMemory, What, Whats};
use anyhow::{Result, ensure};
use book::{Book, Flips, Taken};
use std::alloc::Global;
use std::marker::Model;
use test_support::config;

/// How many peers there are.
pub const PEERS: usize = 3;

/// Three peers, a table of addresses that holds so many rows of each and one of strings, and
/// further lines.
macro_rules! of_three {
    ($size:literal, $lines:literal) => {
        concat!(
            "name agg\npeer lb1\npeer lb2\npeer lb3\ntable addresses type ip size ",
            $size,
            " store gpc0,http_req_rate(10)
table strings type string len 64 size 100 store gpc0,http_req_rate(10)
filter standing addresses data.gpc0 gt 40
rank counts addresses gpc0 3
rank rates strings http_req_rate 3
",
            $lines
        )
    };
}

/// The first table holds a million rows.
pub const MANY: &str = of_three!("1000000", "");

/// It holds six rows.
pub const FEW: &str = of_three!("6", "");

/// It holds six rows, and all tables five together.
pub const BOUNDED: &str = of_three!("6", "rows 5\n");

/// A fleet whose rates are of a second, with a filter on them.
pub const OF_SECONDS: &str = "name agg
peer lb1
peer lb2
table addresses type ip size 6 store gpc0,http_req_rate(1000)
filter standing addresses data.http_req_rate ge 3
";

// What happens, made once more where an allocation failed.
fn made(alloc: Global, deed: Deed) -> Result<What, NoMemory> {
    match what(alloc, deed) {
        Err(NoMemory) => what(alloc, deed),
        made => made,
    }
}

// A fleet's book, begun once more where an allocation failed.
fn opened(alloc: Global, fleet: &str) -> Result<Book> {
    match begun(alloc, fleet) {
        Err(_) => begun(alloc, fleet),
        begun => begun,
    }
}

fn begun(alloc: Global, fleet: &str) -> Result<Book> {
    Ok(Book::new(alloc, config(alloc, fleet.as_bytes())?, 0)?)
}

/// Events of one seat that follow one another, under its numbers from a first one on.
#[derive(Drop)]
struct Run {
    seat: u64,
    first: u64,
    batch: Whats,
}

impl Run {
    // Whether an event under this number goes on with it.
    fn goes_on(&self, seat: u64, number: u64) -> bool {
        seat == self.seat && number == self.first.saturating_add(self.batch.len() as u64)
    }

    // Begins anew.
    fn begin(&mut self, seat: u64, first: u64) {
        self.seat = seat;
        self.first = first;
        self.batch.clear();
    }

    // Adds what happens, once more where an allocation failed.
    fn add(&mut self, alloc: Global, deed: Deed) -> Result<(), NoMemory> {
        match add(alloc, &mut self.batch, deed) {
            Err(NoMemory) => add(alloc, &mut self.batch, deed),
            added => added,
        }
    }

    // Has a book take it. Where an allocation failed, it goes on at that place once more.
    fn apply(&self, alloc: Global, book: &mut Book, flips: &mut Flips) -> Result<()> {
        let end = u128::from(self.first) + self.batch.len() as u128;
        ensure!(end < u128::from(NUMBERS_END), "too long a run");
        let mut hints = Vec::new(alloc);
        let done = book.step_run(self.seat, self.first, &self.batch, 0, &mut hints, flips);
        if done == self.batch.len() {
            return Ok(());
        }
        let mut hints = Vec::new(alloc);
        let done = book.step_run(self.seat, self.first, &self.batch, done, &mut hints, flips);
        ensure!(done == self.batch.len(), "a run was refused twice");
        Ok(())
    }
}

/// How many runs and events there were, of how many runs the flips were known and how many these
/// were, and what the events read and what wasn't taken for want of room.
#[derive(Clone, Copy)]
pub struct Counts {
    pub events: u64,
    pub runs: u64,
    pub told: u64,
    pub flips: u64,
    /// How many values the first book read, for all events and for the last one.
    pub read: u64,
    pub last_read: u64,
    pub dropped: u64,
}

/// Both books. Contracts see nothing of them.
#[derive(Drop)]
pub struct Pair {
    single: Book,
    by_runs: Book,
    run: Run,
    flips: Flips,
    often: bool,
    pub counts: Counts,
    pub seen: Seen,
    /// How many answers differed.
    pub differ: u64,
}

impl Model for Pair {
    ghost Value = { Unit {0} };

    ghost view = { λ _. tt };
}

impl Pair {
    /// Two books to which nothing has happened, of a fleet whose configuration is told. They are
    /// compared behind each run, or only when that is asked for.
    pub fn of(alloc: Global, fleet: &str, often: bool) -> Result<Pair> {
        Ok(Pair {
            single: opened(alloc, fleet)?,
            by_runs: opened(alloc, fleet)?,
            run: Run {
                seat: 0,
                first: 0,
                batch: Whats::new(alloc),
            },
            flips: Flips::new(alloc),
            often,
            counts: Counts {
                events: 0,
                runs: 0,
                told: 0,
                flips: 0,
                read: 0,
                last_read: 0,
                dropped: 0,
            },
            seen: NOTHING,
            differ: 0,
        })
    }

    /// The moment, in ms.
    pub fn moment(&self) -> u64 {
        self.single.moment()
    }

    /// Lets something happen under the next number of its seat: at once to the first book, and to
    /// the second with the run that it belongs to.
    pub fn happen(&mut self, alloc: Global, deed: Deed) -> Result<()> {
        let seat = seat_of(deed);
        let number = self.single.next_seq(seat).unwrap_or(0);
        if !self.run.goes_on(seat, number) {
            self.end_run(alloc)?;
            self.run.begin(seat, number);
        }
        self.step(alloc, seat, number, &made(alloc, deed)?)?;
        self.run.add(alloc, deed)?;
        self.counts.events = self.counts.events.saturating_add(1);
        Ok(())
    }

    // The first book takes an event. Where an allocation failed, it has to answer what the second
    // does, to which it hasn't happened yet, and takes it once more.
    fn step(&mut self, alloc: Global, seat: u64, number: u64, what: &What) -> Result<()> {
        let taken = match self.single.apply_at(seat, number, what, None) {
            Ok(taken) => taken,
            Err(_) => {
                self.end_run(alloc)?;
                self.run.begin(seat, number);
                self.compare(alloc)?;
                self.single.apply_at(seat, number, what, None)?
            }
        };
        self.note(taken);
        Ok(())
    }

    // Notes what was read.
    fn note(&mut self, taken: Taken) {
        let counts = &mut self.counts;
        counts.last_read = taken.read;
        counts.read = counts.read.saturating_add(taken.read);
        if taken.dropped {
            counts.dropped = counts.dropped.saturating_add(1);
        }
    }

    // The second book takes the run that waits, and is compared where that is to be done often.
    fn end_run(&mut self, alloc: Global) -> Result<()> {
        if self.run.batch.is_empty() {
            return Ok(());
        }
        self.flips.begin();
        self.run.apply(alloc, &mut self.by_runs, &mut self.flips)?;
        self.run.batch.clear();
        self.note_run();
        if self.often {
            self.compare(alloc)?;
        }
        Ok(())
    }

    // Notes a run, and what its flips tell.
    fn note_run(&mut self) {
        let counts = &mut self.counts;
        counts.runs = counts.runs.saturating_add(1);
        if let Some(flips) = self.flips.known() {
            counts.told = counts.told.saturating_add(1);
            counts.flips = counts.flips.saturating_add(flips.len() as u64);
        }
    }

    /// Ends the run that waits, and compares all that both answer.
    pub fn end(&mut self, alloc: Global) -> Result<()> {
        self.end_run(alloc)?;
        self.compare(alloc)?;
        if self.drops() != self.counts.dropped {
            self.differ = self.differ.saturating_add(1);
        }
        Ok(())
    }

    // Compares what both answer, once more where an allocation failed.
    fn compare(&mut self, alloc: Global) -> Result<()> {
        let (found, seen) = match self.differences(alloc) {
            Err(NoMemory) => self.differences(alloc)?,
            Ok(found) => found,
        };
        self.differ = self.differ.saturating_add(found);
        self.seen = seen;
        Ok(())
    }

    // How many answers differ, and what was compared so far.
    fn differences(&self, alloc: Global) -> Result<(u64, Seen), NoMemory> {
        let mut seen = self.seen;
        let found = differences(alloc, &self.single, &self.by_runs, &mut seen)?;
        Ok((found, seen))
    }

    // How many updates the first book didn't take for want of room, as it counts them itself.
    fn drops(&self) -> u64 {
        let mut dropped = 0u64;
        for table in 0..self.single.config().tables.len() {
            for peer in 0..self.single.config().peers.len() {
                dropped = dropped.saturating_add(self.single.dropped(table, peer));
            }
        }
        dropped
    }
}
