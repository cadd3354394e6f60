//! The clock of the machine, as workers see it.

use std::time::{Clock, Duration, Instant};

/// The time between two moments, in ms.
const REST: u64 = 100;

/// The least time between two tellings of what was counted, in s.
const TELLING: u64 = 1;

/// Whether what was counted is to be told: it was told a second ago or longer, or never.
pub fn is_due(rt: &impl Clock, told_at: Option<Instant>) -> bool {
    match told_at {
        None => true,
        Some(told_at) => has_passed(rt, told_at, TELLING),
    }
}

/// Whether so many seconds have passed since a time. A clock that fails says so.
pub fn has_passed(rt: &impl Clock, since: Instant, seconds: u64) -> bool {
    match since.elapsed(rt) {
        Ok(passed) => passed.as_secs() >= seconds,
        Err(_) => true,
    }
}

/// The moments since the start.
#[derive(Drop)]
pub struct Ticks<R> {
    pub rt: R,
    pub start: Instant,
}

impl<R: Clock> Ticks<R> {
    /// The time since the start, in ms. A clock that fails gives 0.
    pub fn moment(&self) -> u64 {
        match self.start.elapsed(&self.rt) {
            Ok(passed) => u64::try_from(passed.as_millis()).unwrap_or(u64::MAX),
            Err(_) => 0,
        }
    }
}

impl<R: Clock> serve::Clock for Ticks<R> {
    ghost gives = { λ clock moment. Unit {0} };

    fn now(&self) -> u64 {
        self.moment()
    }

    fn rest(&self) {
        self.rt.sleep(Duration::from_millis(REST));
    }

    fn pause(&self, time: u64) {
        self.rt.sleep(Duration::from_millis(time));
    }
}
