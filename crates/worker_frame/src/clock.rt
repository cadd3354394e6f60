//! The moments of a collector.

ghost use Rattle.std.specs.Prelude.{ℕ};
ghost use Rattle.worker_frame.specs.Moments.{WasTimed};

use crate::served::{Faulted, Served};

/// Rows that end by one moment: 50 ms or so of work for each copy of the book.
const PORTION: usize = 20_000;

/// A clock that several workers share.
pub trait Clock {
    // the moments that it can give
    ghost gives: { Self → ℕ → Type 0 };

    /// The moment, in ms.
    fn now(&self) -> u64
        ensures { gives self.now result };

    /// Waits a while: the time between two moments of the timer.
    fn rest(&self);

    /// Waits so many ms, where a worker has had its share. Here it doesn't wait.
    fn pause(&self, _time: u64) {}

    /// How many rows of a table the timer lets end by one moment, at most, and of how many keys of
    /// a filter the verdicts change; more only where that is so at a single moment.
    fn portion(&self) -> usize {
        PORTION
    }

    /// Takes back a timer that has ended. What it told is what `run_timer` promises.
    fn part_timer(&self, _ended: Result<Served, Faulted>)
        requires { WasTimed (gives self.now) _ended }
    {}
}
