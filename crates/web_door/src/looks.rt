//! What bounds the answers of all connections.

ghost use Rattle.std.specs.Prelude.{◌≡◌};

use crate::budget::{Budget, freshness};
use hub::{Naming, Receipt};
use std::alloc::Global;
use std::marker::PhantomData;
use std::sync::atomic::{AtomicU64, Ordering};
use std::sync::{Arc, Mutex, MutexGuard, Wait};
use web_text::Summary;

/// How many answers are made at once.
const MOST_ANSWERS: u64 = 4;

/// A summary with the moment at which its look ended and how long that took, in µs, and a receipt
/// for the list of its book, which is one of the hub of this name.
#[derive(Drop)]
pub struct Shared<J: Naming> {
    pub at: u64,
    pub took: u64,
    pub summary: Arc<Summary, Global>,
    pub receipt: Receipt,
    pub hub: PhantomData<J>,
    pub ghost of: { receipt.of ≡ J.book },
}

impl<J: Naming> Shared<J> {
    /// Whether it may be used at a moment, in µs, by a lens that has seen so many events.
    pub fn is_fresh(&self, now: u64, seen: u64) -> bool {
        now.saturating_sub(self.at) < freshness(self.took) && self.receipt.len() >= seen
    }
}

/// What bounds the answers of all connections to a hub, and the look that they share.
#[derive(Drop)]
pub struct Looks<J: Naming> {
    budget: Mutex<Budget>,
    shared: Mutex<Option<Shared<J>>>,
    answers: AtomicU64,
}

impl<J: Naming> Looks<J> {
    /// No look was made yet. Takes no memory.
    pub fn new() -> Looks<J> {
        Looks {
            budget: Mutex::new(Budget::new()),
            shared: Mutex::new(None),
            answers: AtomicU64::new(0),
        }
    }

    /// Whether one more answer may be made now. If so, `end` follows.
    pub fn begin(&self) -> bool {
        if self.answers.fetch_add(1, Ordering::SeqCst) < MOST_ANSWERS {
            return true;
        }
        self.end();
        false
    }

    /// An answer was made.
    pub fn end(&self) {
        self.answers.fetch_sub(1, Ordering::SeqCst);
    }

    /// Whether a look may begin at a moment, in µs. If so, `spend` follows.
    pub(crate) fn allow<R: Wait>(&self, rt: &R, now: u64) -> bool {
        let budget = self.budget.lock(rt);
        budget.allows(now)
    }

    /// A look was made from one moment to another, both in µs.
    pub(crate) fn spend<R: Wait>(&self, rt: &R, begun: u64, ended: u64) {
        let mut budget = self.budget.lock(rt);
        budget.spend(ended, ended.saturating_sub(begun));
    }

    /// The look that is shared.
    pub(crate) fn share<R: Wait>(&self, rt: &R) -> MutexGuard<'_, Option<Shared<J>>> {
        self.shared.lock(rt)
    }
}
