//! How the looks of operators leave time to those who push.

use crate::connections::Connections;
use crate::ticks::Ticks;
use std::sync::{Mutex, Wait};
use std::time::{Clock, Duration};

/// How long an answer may take to make without a rest behind it, in ms.
const SHORT: u64 = 5;

/// The longest time that is rested, in ms.
const LONGEST: u64 = 5_000;

/// How long is rested at a time, in ms.
const NAP: u64 = 20;

/// From which moment on operators may look again.
///
/// An answer is made from a copy of the book, which can't be changed meanwhile. So behind one that
/// took long to make the next one, of whichever operator, is begun no sooner than as long after it
/// and a quarter, but at the latest 5 s after it. So all of them together hold a copy for less than
/// half of the time, as long as no answer takes more than 4 s.
#[derive(Drop)]
pub(crate) struct Turns {
    free: Mutex<u64>,
}

impl Turns {
    /// Nobody looked.
    pub fn new() -> Turns {
        Turns {
            free: Mutex::new(0),
        }
    }

    /// An answer was made from one moment to another, in ms.
    pub fn looked<R: Wait>(&self, rt: &R, begun: u64, ended: u64) {
        let lasted = ended.saturating_sub(begun);
        if lasted < SHORT {
            return;
        }
        // (behind a look others first make up for it, so half of the time takes a little more)
        let rest = lasted.saturating_add(lasted / 4);
        let mut guard = self.free.lock(rt);
        let free = &mut *guard;
        let next = (*free).max(ended).saturating_add(rest);
        *free = next.min(ended.saturating_add(LONGEST));
    }

    // How long is to be rested at a moment, in ms.
    fn left<R: Wait>(&self, rt: &R, now: u64) -> u64 {
        let guard = self.free.lock(rt);
        guard.saturating_sub(now)
    }

    /// Waits until an operator may look, but no longer than the longest rest. At once where the
    /// doors are closed.
    pub fn wait<R: Clock + Wait>(&self, clock: &Ticks<R>, connections: &Connections) {
        for _ in 0..LONGEST / NAP {
            let left = self.left(&clock.rt, clock.moment());
            if left == 0 || connections.are_closed() {
                return;
            }
            clock.rt.sleep(Duration::from_millis(left.min(NAP)));
        }
    }
}
