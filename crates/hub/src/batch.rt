//! Batches: what seats post as one.

ghost use Rattle.std.specs.Prelude.{◌≡◌, ◌<◌, ◌≤◌, ◌+◌, [], ◌∷◌, drop, fold, length};
ghost use Rattle.std.specs.Prelude.{IfSome, MatchResult};
ghost use Rattle.std.specs.Arc.{arc_value};
ghost use Rattle.agg_types.specs.declared.limits.TheConstants.{NUMBERS_END};
ghost use Rattle.book.specs.Flips.{TellsAllIfKnown};
ghost use Rattle.fleet_model.specs.Machine.{after};
ghost use Rattle.hub.specs.Batches.{IsApplied, events_in, left_of, part_of};

use agg_types::{LentWhat, Whats};
use book::{Book, Flips, Spot};
use std::cell::Cell;
use std::marker::Model;
use std::sync::Arc;

/// What happened at a seat, under its number. Contracts see the event.
#[derive(Drop)]
pub struct Posting<'a> {
    pub seat: u64,
    pub seq: u64,
    pub what: LentWhat<'a>,
}

impl<'a> Model for Posting<'a> {
    ghost use Rattle.agg_types.specs.Whats.{as_what};
    ghost use Rattle.agg_types.specs.declared.event.Event.{Event};

    ghost Value = { Event };

    ghost view = { λ p. record { seat = p.seat; seq = p.seq; what = as_what p.what } };
}

/// What a seat posts as one, under its numbers from a first one on.
#[derive(Drop)]
pub struct Batch {
    seat: u64,
    first: u64,
    whats: Whats,
}

impl Model for Batch {
    ghost use Rattle.std.specs.Prelude.{◌<◌, ◌+◌, length};
    ghost use Rattle.agg_types.specs.declared.limits.TheConstants.{NUMBERS_END};
    ghost use Rattle.hub.specs.Batches.{Batched};

    ghost Value = { Batched };

    ghost view = { λ b. record { seat = b.seat; first = b.first; whats = b.whats } };

    ghost invariant = { λ b. b.first + length b.whats < NUMBERS_END };
}

impl Batch {
    /// How much happened.
    pub fn len(&self) -> usize
        ensures count { result ≡ length self.now.whats }
        ensures last { self.now.first + length self.now.whats < NUMBERS_END }
    {
        self.whats.len()
    }

    /// The number of what happened first.
    pub fn first(&self) -> u64
        ensures { result ≡ self.now.first }
    {
        self.first
    }

    /// What happened at a place.
    pub fn at(&self, place: usize) -> Posting<'_>
        requires { place < length self.now.whats }
        ensures parts { (result.seat ≡ self.now.seat) × (result.seq ≡ self.now.first + place)
            × (drop place self.now.whats ≡ result.what ∷ drop (place + 1) self.now.whats) }
        ensures event { left_of self.now place ≡ result ∷ left_of self.now (place + 1) }
    {
        Posting {
            seat: self.seat,
            seq: self.first + place as u64,
            what: self.whats.at(place),
        }
    }

    /// Applies to a book what happened from a place on, up to the first for which an allocation
    /// fails, and answers the place that it came to. The hints are where another book found the
    /// rows of keys, by place, or, where there are none, take up where this one finds them. The
    /// flips tell what came into the filters' sets on the way and what left them.
    pub fn apply(
        &self,
        book: &mut Book,
        from: usize,
        hints: &mut Vec<Option<Spot>>,
        flips: &mut Flips,
    ) -> usize
        requires { from ≤ length self.now.whats }
        ensures within { result ≤ length self.now.whats }
        ensures applied { IsApplied self.now from result book.old book.new }
        ensures brings { fold after book.new (left_of self.now result)
            ≡ fold after book.old (left_of self.now from) }
        ensures flips { TellsAllIfKnown book.old (part_of self.now from result)
            flips.old flips.new }
    {
        book.step_run(self.seat, self.first, &self.whats, from, hints, flips)
    }

    /// Applies what is left of it from a place on, as `apply` does, without hints.
    pub fn go_on(&self, book: &mut Book, from: usize, flips: &mut Flips) -> usize
        requires { from ≤ length self.now.whats }
        ensures within { result ≤ length self.now.whats }
        ensures applied { IsApplied self.now from result book.old book.new }
        ensures brings { fold after book.new (left_of self.now result)
            ≡ fold after book.old (left_of self.now from) }
        ensures flips { TellsAllIfKnown book.old (part_of self.now from result)
            flips.old flips.new }
    {
        let mut hints = Vec::new(self.whats.alloc());
        self.apply(book, from, &mut hints, flips)
    }

    /// Its list with nothing in it, and with its room.
    pub fn emptied(self) -> Whats
        ensures { result ≡ [] }
    {
        let Batch { mut whats, .. } = self;
        whats.clear();
        whats
    }
}

/// A batch on its way into both copies of the book.
pub struct Run {
    batch: Arc<Batch>,
    // Where the first copy found the rows of each key, for the second, which looks there.
    hints: Cell<Vec<Option<Spot>>>,
}

impl Drop for Run {
    fn drop(self) {
        let Run { batch: _, hints: _ } = self;
    }
}

impl Model for Run {
    ghost use Rattle.std.specs.Arc.{arc_value};
    ghost use Rattle.hub.specs.Batches.{Batched};

    ghost Value = { Batched };

    ghost view = { λ r. arc_value r.batch };
}

impl Run {
    /// A batch of a seat, under its numbers from `first` on. Without memory what was to be posted
    /// comes back.
    pub fn new(seat: u64, first: u64, whats: Whats) -> Result<Run, Whats>
        requires { first + length whats < NUMBERS_END }
        ensures { MatchResult result
            (λ run. run ≡ record { seat = seat; first = first; whats = whats })
            (λ back. back ≡ whats) }
    {
        let alloc = whats.alloc();
        match Arc::new(alloc, Batch { seat, first, whats }) {
            Ok(batch) => Ok(Run {
                batch,
                hints: Cell::new(Vec::new(alloc)),
            }),
            Err(failed) => {
                let Batch { whats, .. } = failed.value;
                Err(whats)
            }
        }
    }

    /// The batch.
    pub fn batch(&self) -> &Batch
        ensures { result.now ≡ self.now }
    {
        &self.batch
    }

    /// Another owner of the batch.
    pub fn share(&self) -> Option<Arc<Batch>>
        ensures { IfSome result (λ batch. arc_value batch ≡ self.now) }
    {
        Arc::try_clone(&self.batch).ok()
    }

    /// Applies it to a book, as `Batch::apply` does, with the hints that are kept.
    pub fn apply(&self, book: &mut Book, flips: &mut Flips) -> usize
        ensures within { result ≤ length self.now.whats }
        ensures applied { IsApplied self.now 0 result book.old book.new }
        ensures brings { fold after book.new (left_of self.now result)
            ≡ fold after book.old (events_in self.now) }
        ensures flips { TellsAllIfKnown book.old (part_of self.now 0 result)
            flips.old flips.new }
    {
        let alloc = self.batch.whats.alloc();
        let mut hints = self.hints.replace(Vec::new(alloc));
        let done = self.batch.apply(book, 0, &mut hints, flips);
        self.hints.set(hints);
        done
    }
}
