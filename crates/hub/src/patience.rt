//! How long a call waits for its list.

use std::time::Duration;

/// How long a thread that watches a look sleeps first, in ms, and how long at most.
const FIRST_STEP: u64 = 1;

const LONGEST_STEP: u64 = 20;

/// What is left of a time limit, and how long to sleep before looking again.
pub struct Patience {
    left: Duration,
    // In ms.
    step: u64,
}

impl Drop for Patience {
    fn drop(self) {
        let Patience { left: _, step: _ } = self;
    }
}

impl Patience {
    /// A limit of which nothing is used up.
    pub fn new(limit: Duration) -> Patience {
        Patience {
            left: limit,
            step: 0,
        }
    }

    /// Whether the time is up.
    pub fn is_over(&self) -> bool {
        self.left.is_zero()
    }

    /// How long to sleep until somebody rings: all that is left.
    pub fn rest(&self) -> Duration {
        self.left
    }

    /// How long to sleep before looking again: not at all first, then 1 ms, twice as long each time
    /// up to 20 ms, and no longer than is left.
    pub fn step(&mut self) -> Duration {
        let step = Duration::from_millis(self.step);
        self.step = next_step(self.step);
        if step < self.left { step } else { self.left }
    }

    /// So long was slept.
    pub fn slept(&mut self, time: Duration) {
        self.left = self.left.saturating_sub(time);
    }
}

fn next_step(step: u64) -> u64 {
    if step == 0 {
        1
    } else if step >= LONGEST_STEP / 2 {
        LONGEST_STEP
    } else {
        2 * step
    }
}
