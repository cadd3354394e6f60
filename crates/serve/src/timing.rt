//! The timers of a collector, one behind the other.

ghost use Rattle.std.specs.Prelude.{◌≡◌, IfSome};
ghost use Rattle.hub.specs.Posts.{Follows, SitsDown};

use crate::counts::Counts;
use crate::timer::run_timer;
use agg_types::NoMemory;
use book::Book;
use hub::{Hub, Naming, Pass, PostFault};
use std::alloc::Global;
use std::sync::Wait;
use std::sync::atomic::{AtomicU64, Ordering};
use worker_frame::{Cause, Clock, Context, Faulted, Gate, News, Place, Served, Status};

/// How many timers there are at most, and how often a seat is tried for.
const MOST_TRIES: u64 = 1 << 40;

/// The gate of a timer, which also ends once both doors have closed. It tells that a moment was
/// posted.
#[derive(Drop)]
struct TimerGate<'a, G> {
    gate: &'a G,
    counts: &'a Counts,
    // how many turns the timer has made
    turns: AtomicU64,
}

impl<'a, G: Gate> Gate for TimerGate<'a, G> {
    // A timer comes to another turn only behind a post at Ok.
    fn turn(&self, place: Place) {
        if self.turns.fetch_add(1, Ordering::SeqCst) > 0 {
            self.gate.tell(place, News::Ticked);
        }
        self.gate.turn(place);
    }

    fn stop(&self) -> bool {
        self.gate.stop() || self.counts.are_done()
    }

    fn tell(&self, place: Place, news: News<'_>) {
        self.gate.tell(place, news);
    }

    fn status(&self, book: &Book, status: Status, out: &mut Vec<u8>) -> Result<(), NoMemory> {
        self.gate.status(book, status, out)
    }
}

/// What makes time pass in a collector, until both doors have closed.
#[derive(Drop)]
pub(crate) struct Timing<'a, J: Naming, H: Wait + Drop, C, G> {
    pub alloc: Global,
    pub hub: &'a Hub<J, H>,
    pub clock: &'a C,
    pub gate: &'a G,
    pub counts: &'a Counts,
    /// Whether another timer is begun behind one for which memory was lacking.
    pub goes_on: bool,
}

// Whether a timer ended since memory was lacking, its own or that of what it showed.
fn lacked_memory(ended: &Result<Served, Faulted>) -> bool {
    match ended {
        Ok(_) => false,
        Err(faulted) => matches!(
            faulted.cause,
            Cause::Post(PostFault::NoMemory(_)) | Cause::Post(PostFault::Pending)
        ),
    }
}

impl<'a, J: Naming, H: Wait + Drop, C: Clock, G: Gate> Timing<'a, J, H, C, G> {
    // Whether nothing is to be posted any more.
    fn is_over(&self) -> bool {
        self.gate.stop() || self.counts.are_done()
    }

    // Runs a timer that has this seat: whether another one is to be begun behind it.
    #[tactic(auto, using(crate::proofs::Timed::was_timed))]
    fn run_one<R: Wait>(&self, rt: &R, pass: Pass) -> bool
        requires pass { SitsDown pass × Follows self.now.hub.now pass.seen }
    {
        let gate = TimerGate {
            gate: self.gate,
            counts: self.counts,
            turns: AtomicU64::new(0),
        };
        let context = Context {
            rt,
            alloc: self.alloc,
            hub: self.hub,
            clock: self.clock,
            gate: &gate,
        };
        let ended = run_timer(&context, pass);
        let is_next = self.goes_on && lacked_memory(&ended);
        if is_next {
            self.gate.tell(Place::Timer, News::Left);
        }
        self.clock.part_timer(ended);
        is_next
    }

    // A seat for another timer, which is tried for after each rest. None once all is over.
    fn next_seat<R: Wait>(&self, rt: &R) -> Option<Pass>
        ensures { IfSome result (λ p. SitsDown p × Follows self.now.hub.now p.seen) }
    {
        for _ in 0..MOST_TRIES {
            self.clock.rest();
            if self.is_over() {
                return None;
            }
            if let Ok(pass) = self.hub.seat(rt) {
                self.gate.tell(Place::Timer, News::Sat);
                return Some(pass);
            }
        }
        None
    }

    /// Posts moments by a timer that has this seat. Where another one is to be begun behind it,
    /// that has a seat of its own, which is taken once the one before is free.
    pub fn run<R: Wait>(&self, rt: &R, pass: Pass)
        requires pass { SitsDown pass × Follows self.now.hub.now pass.seen }
    {
        if !self.run_one(rt, pass) {
            return;
        }
        for _ in 0..MOST_TRIES {
            let Some(pass) = self.next_seat(rt) else {
                return;
            };
            if !self.run_one(rt, pass) {
                return;
            }
        }
    }
}
