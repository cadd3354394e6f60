//! How many updates came in each of the last seconds.

use agg_types::NoMemory;
use std::alloc::Global;
use std::sync::{Mutex, Wait};

/// How many seconds are kept: ten minutes.
const MOST_SECONDS: usize = 600;

/// A second, in ms.
const SECOND: u64 = 1000;

/// Whole seconds so far.
#[derive(Drop)]
struct Seconds {
    // which second is under way
    second: u64,
    // how many updates there were before it
    before: u64,
    counts: Vec<u64>,
}

impl Seconds {
    // Adds a second with so many updates, and forgets the oldest where there are too many.
    fn add(&mut self, updates: u64) {
        if self.counts.len() >= MOST_SECONDS {
            self.counts.remove(0);
        }
        let _ = self.counts.push(updates);
    }

    // So many updates came up to a moment in this second. What came in several seconds that weren't
    // counted apart is counted for the first of them.
    fn count(&mut self, second: u64, updates: u64) {
        let passed = second.saturating_sub(self.second);
        let mut came = updates.saturating_sub(self.before);
        for _ in 0..passed.min(MOST_SECONDS as u64) {
            self.add(came);
            came = 0;
        }
        if passed > 0 {
            self.second = second;
            self.before = updates;
        }
    }
}

/// How many updates came in each of the last seconds.
#[derive(Drop)]
pub struct Rates {
    seconds: Mutex<Seconds>,
}

impl Rates {
    /// No second has passed.
    pub fn new(alloc: Global) -> Rates {
        Rates {
            seconds: Mutex::new(Seconds {
                second: 0,
                before: 0,
                counts: Vec::new(alloc),
            }),
        }
    }

    /// So many updates came up to this moment, in ms.
    pub fn count<R: Wait>(&self, rt: &R, now: u64, updates: u64) {
        let mut guard = self.seconds.lock(rt);
        let seconds = &mut *guard;
        seconds.count(now / SECOND, updates);
    }

    /// How many came in each of the last seconds, the oldest first.
    pub fn so_far<R: Wait>(&self, rt: &R, alloc: Global) -> Result<Vec<u64>, NoMemory> {
        let guard = self.seconds.lock(rt);
        Ok(Vec::from_slice(alloc, guard.counts.as_slice())?)
    }
}
