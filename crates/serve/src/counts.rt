//! How many connections ended, and how far the start of all workers has got.

use std::sync::Wait;
use std::sync::atomic::{AtomicU64, Ordering};
use std::thread;

/// How many admin connections are served at once.
pub const ADMINS: u64 = 4;

/// How far the start has got: nothing is known yet; the timer has its seat, and the doors serve; or
/// a thread or that seat was refused, and all end.
const WAITS: u64 = 0;

const SERVES: u64 = 1;

const GIVES_UP: u64 = 2;

/// How many connections ended.
#[derive(Clone, Copy, Debug, PartialEq, Eq)]
pub struct Ended {
    /// By themselves, or because the gate said so.
    pub ended: u64,
    /// With a fault.
    pub faulted: u64,
    /// Before they were served, for want of a thread, a seat, a lens or memory.
    pub refused: u64,
}

/// The counts of `Ended`, which all workers share.
#[derive(Drop)]
pub struct Counts {
    ended: AtomicU64,
    faulted: AtomicU64,
    refused: AtomicU64,
    // how many threads have found their door closed: one for peers, and each that serves admins
    closed: AtomicU64,
    // how many connections of peers are being served
    serving: AtomicU64,
    // how far the start has got
    begun: AtomicU64,
}

impl Counts {
    /// No connection has ended, and nothing is known of the start.
    pub fn new() -> Counts {
        Counts {
            ended: AtomicU64::new(0),
            faulted: AtomicU64::new(0),
            refused: AtomicU64::new(0),
            closed: AtomicU64::new(0),
            serving: AtomicU64::new(0),
            begun: AtomicU64::new(WAITS),
        }
    }

    /// A connection that was served ended: by itself, or with a fault.
    pub fn count(&self, is_ok: bool) {
        let counter = if is_ok { &self.ended } else { &self.faulted };
        counter.fetch_add(1, Ordering::SeqCst);
    }

    /// A connection ended before it was served.
    pub fn refuse(&self) {
        self.refused.fetch_add(1, Ordering::SeqCst);
    }

    /// A thread has found its door closed.
    pub fn close(&self) {
        self.closed.fetch_add(1, Ordering::SeqCst);
    }

    /// The timer has its seat. Nothing is served all the same where all have given up.
    pub fn begin_to_serve(&self) {
        let _ = self
            .begun
            .compare_exchange(WAITS, SERVES, Ordering::SeqCst, Ordering::SeqCst);
    }

    /// Nothing is served, for want of a thread or a seat: all threads end.
    pub fn give_up(&self) {
        self.refuse();
        self.begun.store(GIVES_UP, Ordering::SeqCst);
    }

    /// Whether all have given up.
    pub fn has_given_up(&self) -> bool {
        self.begun.load(Ordering::SeqCst) == GIVES_UP
    }

    /// Waits until the timer has its seat, or all have given up. Whether connections are served.
    pub fn are_served<R: Wait>(&self, rt: &R) -> bool {
        for _ in rt.forever() {
            let begun = self.begun.load(Ordering::SeqCst);
            if begun != WAITS {
                return begun == SERVES;
            }
            thread::yield_now();
        }
        unreachable!()
    }

    /// A connection of a peer is about to be served, or was.
    pub fn begin(&self) {
        self.serving.fetch_add(1, Ordering::SeqCst);
    }

    /// A connection of a peer that was begun is no longer served.
    pub fn end(&self) {
        self.serving.fetch_sub(1, Ordering::SeqCst);
    }

    /// Whether all have given up, or both doors have closed and their workers have ended.
    pub fn are_done(&self) -> bool {
        let have_ended = self.closed.load(Ordering::SeqCst) > ADMINS
            && self.serving.load(Ordering::SeqCst) == 0;
        have_ended || self.has_given_up()
    }

    /// How many connections have ended so far.
    pub fn so_far(&self) -> Ended {
        Ended {
            ended: self.ended.load(Ordering::SeqCst),
            faulted: self.faulted.load(Ordering::SeqCst),
            refused: self.refused.load(Ordering::SeqCst),
        }
    }
}
