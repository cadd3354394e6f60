//! Which looks the next publication would wait for: counts that are a hint and no more.
//!
//! No clause rests on them. A wrong count costs time, and never what a look shows: the two copies
//! tell by themselves which readers are inside.

use crossbeam_utils::Backoff;
use std::sync::atomic::{AtomicU64, Ordering};

/// How often a pause looks again: some microseconds.
const PAUSES: u32 = 11;

/// How many looks last, by whether they began before the newest turn or behind it. A turn is made
/// once another copy is shown, and the next publication waits for looks that began before it alone.
pub struct Looks {
    turns: AtomicU64,
    // Looks that began behind an even number of turns, and behind an odd one.
    even: AtomicU64,
    odd: AtomicU64,
}

impl Drop for Looks {
    fn drop(self) {
        let Looks {
            turns: _,
            even: _,
            odd: _,
        } = self;
    }
}

impl Looks {
    /// Nobody looks.
    pub fn new() -> Looks {
        Looks {
            turns: AtomicU64::new(0),
            even: AtomicU64::new(0),
            odd: AtomicU64::new(0),
        }
    }

    fn count(&self, turn: u64) -> &AtomicU64 {
        if turn % 2 == 0 { &self.even } else { &self.odd }
    }

    /// A look begins: to be called before a copy is entered. Answers the turn to end it with.
    pub fn begin(&self) -> u64 {
        let turn = self.turns.load(Ordering::SeqCst);
        self.count(turn).fetch_add(1, Ordering::SeqCst);
        turn
    }

    /// A look has ended, which began at this turn.
    pub fn end(&self, turn: u64) {
        self.count(turn).fetch_sub(1, Ordering::SeqCst);
    }

    /// Where another copy is shown, looks that begin from now on aren't waited for next.
    pub fn turn(&self, showed: bool) {
        if showed {
            self.turns.fetch_add(1, Ordering::SeqCst);
        }
    }

    /// Whether the next publication would wait for a look.
    pub fn hold(&self) -> bool {
        let before = self.turns.load(Ordering::SeqCst).wrapping_sub(1);
        self.count(before).load(Ordering::SeqCst) != 0
    }

    /// Lets a short look end: some microseconds.
    pub fn pause(&self) {
        let backoff = Backoff::new();
        for _ in 0..PAUSES {
            if !self.hold() {
                return;
            }
            backoff.snooze();
        }
    }
}
