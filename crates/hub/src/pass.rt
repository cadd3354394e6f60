ghost use Rattle.std.specs.Prelude.{◌≡◌, ◌<◌, ◌≤◌, ◌+◌, [], length, Some, MatchOption};
ghost use Rattle.std.specs.Prelude.{IfSome, MatchResult};
ghost use Rattle.std.specs.BTreeMap.{is_at};
ghost use Rattle.std.specs.List.{All};
ghost use Rattle.std.specs.Map.{lookup};
ghost use Rattle.std.specs.Ordering.{nat_cmp};
ghost use Rattle.std.specs.VecDeque.{deque_len, deque_capacity};
ghost use Rattle.agg_types.specs.declared.limits.TheConstants.{NUMBERS_END};
ghost use Rattle.hub.specs.Batches.{events_in};
ghost use Rattle.hub.specs.Copied.{Stores};
ghost use Rattle.hub.specs.History.{longer_by, own};
ghost use Rattle.hub.specs.Posts.{FindsReplaced, NoneReplaced, advanced};
ghost use Rattle.hub.specs.Roll.{IsCountOf, MayPost};
ghost use Rattle.hub.specs.Sitting.{Recalls};
ghost use Rattle.hub.specs.Views.{Learns};

use crate::batch::Run;
use crate::copies::Logged;
use crate::last_batches::LastBatches;
use crate::log::{Front, Log};
use crate::receipt::Receipt;
use crate::roll::Roll;
use crate::sitting::Sitting;
use crate::store::{hang, store_all};
use agg_types::Whats;
use std::collections::VecDeque;
use std::marker::Model;
use std::sync::Wait;

/// The right to post at a seat. Contracts see its seat, the number of its next event, and the list
/// that it has seen. It keeps another owner of each of its last two batches, whose room comes back
/// by `take_back`.
pub struct Pass {
    sitting: Sitting,
    // All that was stored of its seat stands here.
    stored: Front,
    front: Front,
    // What comes back of what it posted.
    lasts: LastBatches,
}

impl Drop for Pass {
    fn drop(self) {
        let Pass {
            sitting: _,
            stored: _,
            front: _,
            lasts: _,
        } = self;
    }
}

impl Model for Pass {
    ghost use Rattle.std.specs.Prelude.{◌≡◌};
    ghost use Rattle.hub.specs.Posts.{Seated};
    ghost use Rattle.hub.specs.Sitting.{Recalls};

    ghost Value = { Seated };

    ghost view = { λ p.
        record { seat = p.sitting.seat; number = p.sitting.number; seen = p.front } };

    ghost invariant = { λ p. Recalls p.sitting p.stored × (p.stored.of ≡ p.front.of) };
}

impl Pass {
    pub(crate) fn new(sitting: Sitting, front: Front) -> Pass
        requires { Recalls sitting front }
        ensures { result ≡ record { seat = sitting.seat; number = sitting.number; seen = front } }
    {
        Pass {
            sitting,
            stored: front.again(),
            front,
            lasts: LastBatches::new(),
        }
    }

    /// The number of its seat.
    pub fn seat(&self) -> u64
        ensures { result ≡ self.now.seat }
    {
        self.sitting.seat()
    }

    pub(crate) fn number(&self) -> u64
        ensures { result ≡ self.now.number }
    {
        self.sitting.number()
    }

    pub(crate) fn front(&self) -> &Front
        ensures { result.now ≡ self.now.seen }
    {
        &self.front
    }

    /// Learns the list of a receipt, as `Hub::post` does; for what was appended and awaited. Of
    /// this list and its own the longer is then what it has seen, so a pass is never set back.
    pub fn see(&mut self, receipt: &Receipt)
        requires { receipt.now.of ≡ self.old.seen.of }
        ensures same { self.new ≡ record self.old { seen = self.new.seen } }
        ensures learns { Learns self.old.seen receipt.now self.new.seen }
    {
        if self.front.compare(receipt.front()) {
            self.front = receipt.front().again();
        }
    }

    /// The list of the older of its last two batches, empty and with its room: for what it posts
    /// next. None while a copy of the book still is to take that batch.
    pub fn take_back(&mut self) -> Option<Whats>
        ensures same { self.new ≡ self.old }
        ensures empty { IfSome result (λ whats. whats ≡ []) }
    {
        self.lasts.take_back()
    }

    /// Lets go of the batches that it still keeps, and of their room.
    pub fn forget(&mut self)
        ensures { self.new ≡ self.old }
    {
        self.lasts = LastBatches::new();
    }

    // The seat that opened the peer of a posted Put after this seat did, behind all that happened.
    #[tactic(auto, using(crate::proofs::Replacing::none_all))]
    pub(crate) fn replaced<R: Wait>(
        &self,
        rt: &R,
        front: &Front,
        roll: &Roll,
        whats: &Whats,
    ) -> Option<u64>
        requires of { front.now.of ≡ self.now.seen.of }
        requires counted { IsCountOf roll.now front.now }
        requires owns { length (own self.now.seat front.now.events) ≡ self.now.number }
        ensures { MatchOption result (NoneReplaced self.now front.now.events whats.now)
            (FindsReplaced self.now front.now.events whats.now) }
    {
        if !self.stored.compare(front) {
            hang(rt);
            unreachable!();
        }
        for place in 0..whats.len() {
            let what = whats.at(place);
            if let Some(by) = self.sitting.replacer_at(roll, whats, place, what) {
                return Some(by);
            }
        }
        None
    }

    // A batch of its next posts. Without memory they come back.
    pub(crate) fn batch(&self, whats: Whats) -> Result<Run, Whats>
        requires last { self.now.number + length whats < NUMBERS_END }
        ensures { MatchResult result (λ run. run ≡ record {
          seat = self.now.seat;
          first = self.now.number;
          whats = whats;
        }) (λ back. back ≡ whats) }
    {
        Run::new(self.seat(), self.number(), whats)
    }

    // Adds a batch of its next posts to the history, and goes on behind it.
    pub(crate) fn store<R: Wait>(
        &mut self,
        rt: &R,
        log: &Log,
        front: &mut Front,
        queue: &mut VecDeque<Logged>,
        roll: &mut Roll,
        run: Run,
    )
        requires log { log.now ≡ front.old.of }
        requires of { front.old.of ≡ self.old.seen.of }
        requires counted { IsCountOf roll.old front.old }
        requires owns { length (own self.old.seat front.old.events) ≡ self.old.number }
        requires seat { run.seat ≡ self.old.seat }
        requires first { run.first ≡ self.old.number }
        requires fits { All (MayPost front.old.config) run.whats }
        requires due { lookup (is_at (nat_cmp self.old.seat)) roll.old.seats
            ≡ Some self.old.number }
        requires room { deque_len queue.old + 2 ≤ deque_capacity queue.old }
        ensures front { front.new ≡ longer_by front.old (events_in run) }
        ensures stored { Stores queue.old.items front.old queue.new.items front.new }
        ensures counted { IsCountOf roll.new front.new }
        ensures len { deque_len queue.new ≡ deque_len queue.old + 2 }
        ensures capacity { deque_capacity queue.new ≡ deque_capacity queue.old }
        ensures pass { self.new ≡ advanced self.old (length run.whats) }
    {
        if !self.stored.compare(front) {
            hang(rt);
            unreachable!();
        }
        let shared = run.share();
        store_all(rt, log, front, queue, roll, &mut self.sitting, run);
        self.stored = front.again();
        self.lasts.keep(shared);
    }
}
