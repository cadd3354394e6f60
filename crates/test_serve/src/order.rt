//! Who goes next: workers in threads of their own go one at a time, in an order that is known
//! before.

use std::sync::Wait;
use std::sync::atomic::{AtomicUsize, Ordering};
use std::thread;

/// A worker of the order.
#[derive(Clone, Copy, PartialEq, Eq)]
pub enum Who {
    First,
    Second,
    Third,
    Admin,
    Timer,
}

/// Who goes when, and the first turn that finds the gate closed.
#[derive(Clone, Copy)]
pub struct Course {
    pub title: &'static str,
    pub turns: &'static [Who],
    pub open: usize,
    /// Whether others have all seats.
    pub is_full: bool,
}

/// How many workers there are.
const ALL: usize = 5;

/// An order of turns, and how many of them are over. None begins before all workers are here.
#[derive(Drop)]
pub struct Order {
    course: Course,
    here: AtomicUsize,
    over: AtomicUsize,
}

impl Order {
    /// An order of which no turn is over.
    pub fn new(course: Course) -> Order {
        Order {
            course,
            here: AtomicUsize::new(0),
            over: AtomicUsize::new(0),
        }
    }

    /// How many turns are over.
    pub fn place(&self) -> usize {
        self.over.load(Ordering::SeqCst)
    }

    /// Whether all turns are over.
    pub fn is_over(&self) -> bool {
        self.place() >= self.course.turns.len()
    }

    /// Whether the gate is closed.
    pub fn is_closed(&self) -> bool {
        self.place() >= self.course.open
    }

    /// A worker is here, and has its seat.
    pub fn come(&self) {
        self.here.fetch_add(1, Ordering::SeqCst);
    }

    // Whether all are here, and it is this worker's turn or all turns are over.
    fn is_at(&self, who: Who) -> bool {
        if self.here.load(Ordering::SeqCst) < ALL {
            return false;
        }
        match self.course.turns.get(self.place()) {
            None => true,
            Some(turn) => *turn == who,
        }
    }

    /// Waits for this worker's turn.
    pub fn wait<R: Wait>(&self, rt: &R, who: Who) {
        for _ in rt.forever() {
            if self.is_at(who) {
                break;
            }
            thread::yield_now();
        }
    }

    /// Ends a turn.
    pub fn pass(&self) {
        self.over.fetch_add(1, Ordering::SeqCst);
    }
}
