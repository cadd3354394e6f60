//! The two copies of the book that readers enter, and the rule over the copy that is shown.

ghost use Rattle.std.specs.Prelude.{◌≡◌, ◌∷◌, ◌++◌, [], List, true, false, length, map};
ghost use Rattle.std.specs.Prelude.{IfOk, IfSome, OnOk, OnErr};
ghost use Rattle.agg_types.specs.declared.event.Event.{Event};
ghost use Rattle.set_changes.specs.Numbered.{AreChangesOf, FlipsSay, Sets};
ghost use Rattle.standing_filters.specs.Flips.{none_yet};
ghost use Rattle.hub.specs.Batches.{events_in};
ghost use Rattle.hub.specs.Changing.{SayBehind};
ghost use Rattle.fleet_model.specs.Machine.{opened};
ghost use Rattle.hub.specs.Copied.{taken, whole};

use crate::batch::{Batch, Run};
use crate::log::Front;
use crate::trail::Trail;
use agg_types::{Event, NoMemory};
use atomic_table::{Join, Split};
use book::{Book, Flips};
use crossbeam_utils::rule::{Outcome, Protocol};
use left_right::Absorb;
use set_changes::{Change, Changes};
use std::alloc::{AllocError, Global};
use std::marker::Model;
use std::sync::Arc;

/// What both copies have in common once they took the same. No value of it is made.
pub struct Whole {
    book: Book,
    at: Front,
    trail: Trail,
}

impl Drop for Whole {
    fn drop(self) {
        let Whole {
            book: _,
            at: _,
            trail: _,
        } = self;
    }
}

impl Model for Whole {
    ghost use Rattle.hub.specs.Copied.{Copied};

    ghost Value = { Copied };

    ghost view = { λ w. record { at = w.at; state = w.book; took = w.trail } };
}

/// A copy of the book, with the beginning of the history that it has taken, and with the trail of
/// its events, from which the book can be recomputed. It keeps what these changed in the filters'
/// sets; nothing of that can fail it.
///
/// Where an allocation failed in the middle of a batch, the rest of the batch is kept, and taken
/// before anything else. Contracts see the book and the trail as the rest brings them on, and
/// whether there is a rest: while there is, nobody reads the book.
#[derive(Drop)]
pub struct Shown {
    book: Book,
    pub at: Front,
    rest: Option<Rest>,
    trail: Trail,
    // What the book tells of its filters' sets while it takes something.
    flips: Flips,
    // What it told of the trail, of every filter. None behind more events than are counted.
    changes: Option<Changes>,
}

/// A batch of which a book has so much.
pub struct Rest {
    batch: Arc<Batch>,
    done: usize,
}

impl Drop for Rest {
    fn drop(self) {
        let Rest { batch: _, done: _ } = self;
    }
}

impl Model for Shown {
    ghost use Rattle.std.specs.Prelude.{◌≤◌, length, is_some, IfSome};
    ghost use Rattle.std.specs.Arc.{arc_value};
    ghost use Rattle.hub.specs.Begun.{brought_on, took_on};
    ghost use Rattle.hub.specs.Changing.{AreKeptOf};
    ghost use Rattle.hub.specs.Copied.{Copy};
    ghost use Rattle.hub.specs.Trailed.{StandsAt};

    ghost Value = { Copy };

    ghost view = { λ s. record {
      copied = record {
        at = s.at;
        state = brought_on s.book s.rest;
        took = took_on s.trail s.rest;
      };
      part = is_some s.rest;
    } };

    ghost invariant = { λ s. IfSome s.rest (λ r. r.done ≤ length (arc_value r.batch).whats)
        × StandsAt s.book s.trail × AreKeptOf s.changes s.trail };
}

impl Shown {
    /// A copy of the book as it was opened.
    pub fn new(alloc: Global, book: Book, at: Front) -> Shown
        requires opened { book ≡ opened at.config at.opening }
        requires empty { at.events ≡ [] }
        ensures { result ≡ record { copied = whole at; part = false } }
    {
        let trail = Trail::open(&book);
        let changes = Changes::new(alloc);
        Shown {
            book,
            at,
            rest: None,
            trail,
            flips: Flips::new(alloc),
            changes: Some(changes),
        }
    }

    /// Whether the rest of a batch is still to be taken.
    pub fn has_part(&self) -> bool
        ensures { result ≡ self.now.part }
    {
        self.rest.is_some()
    }

    /// The book, where it has all of each batch.
    pub fn book(&self) -> &Book
        requires { self.now.part ≡ false }
        ensures { result.now ≡ self.now.copied.state }
    {
        &self.book
    }

    /// What came into the set of the filter at a place and what left it, behind the list of so many
    /// first events, in order; none where that isn't known any more.
    pub fn changes(&self, filter: usize, since: u64) -> Result<Option<Vec<&Change>>, NoMemory>
        requires { self.now.part ≡ false }
        ensures { IfOk result (λ found. IfSome found (λ changes. SayBehind self.now.copied.took
            filter since (map (λ change. change.now) changes.items))) }
    {
        match &self.changes {
            None => Ok(None),
            Some(changes) => changes.since(filter, since),
        }
    }

    // Takes the rest of the batch that was begun, and says whether it has all of it.
    fn finish(&mut self) -> bool
        ensures whole { result ≡ true → self.new.part ≡ false }
        ensures same { self.new.copied ≡ self.old.copied }
    {
        let Some(mut rest) = self.rest.take() else {
            return true;
        };
        begin_flips(&self.changes, &mut self.flips);
        let done = rest.batch.go_on(&mut self.book, rest.done, &mut self.flips);
        note_changes(&mut self.changes, &self.flips, (done - rest.done) as u64);
        self.trail.add_part(&rest.batch, rest.done, done);
        if done == rest.batch.len() {
            return true;
        }
        rest.done = done;
        self.rest = Some(rest);
        false
    }

    // Takes an event, and then has this beginning.
    fn take_event(&mut self, event: &Event, at: &Front) -> Result<(), NoMemory>
        requires { self.old.part ≡ false }
        ensures ok { OnOk result (self.new.copied
            ≡ taken self.old.copied (record { events = event.now ∷ []; at = at.now })) }
        ensures err { OnErr result (self.new.copied ≡ self.old.copied) }
    {
        begin_flips(&self.changes, &mut self.flips);
        self.book.step_telling(event, &mut self.flips)?;
        note_changes(&mut self.changes, &self.flips, 1);
        self.trail.add(event);
        self.at = at.again();
        Ok(())
    }

    // Takes a batch, or begins to and keeps the rest, and then has this beginning.
    fn take_batch(&mut self, run: &Run, at: &Front) -> Result<(), NoMemory>
        requires { self.old.part ≡ false }
        ensures ok { OnOk result (self.new.copied
            ≡ taken self.old.copied (record { events = events_in run.now; at = at.now })) }
        ensures err { OnErr result (self.new.copied ≡ self.old.copied) }
    {
        let Some(batch) = run.share() else {
            return Err(NoMemory);
        };
        begin_flips(&self.changes, &mut self.flips);
        let done = run.apply(&mut self.book, &mut self.flips);
        note_changes(&mut self.changes, &self.flips, done as u64);
        self.trail.add_part(run.batch(), 0, done);
        self.at = at.again();
        if done < run.batch().len() {
            self.rest = Some(Rest { batch, done });
        }
        Ok(())
    }
}

// Has a book tell anew what changes in the sets, or nothing where no changes are kept.
fn begin_flips(changes: &Option<Changes>, flips: &mut Flips)
    ensures { flips.new.lost ≡ false → flips.new ≡ none_yet }
{
    if changes.is_none() {
        flips.lose();
    } else {
        flips.begin();
    }
}

// Notes what a book told of so many events more, unless there are more than are counted.
fn note_changes(changes: &mut Option<Changes>, flips: &Flips, events: u64)
    ensures { (sets : Sets) (early late : List Event)
        → IfSome changes.old (λ n. AreChangesOf n sets early) → length late ≡ events
        → (flips.now.lost ≡ false → FlipsSay sets flips.now.flips early late)
        → IfSome changes.new (λ n. AreChangesOf n sets (early ++ late)) }
{
    let Some(kept) = changes else {
        return;
    };
    if kept.count().checked_add(events).is_none() {
        *changes = None;
        return;
    }
    kept.note_all(flips, events);
}

/// What a seat posted as one, on its way into both copies, with the beginning that it ends.
pub struct Logged {
    posted: Posted,
    at: Front,
}

impl Drop for Logged {
    fn drop(self) {
        let Logged { posted: _, at: _ } = self;
    }
}

/// What is on its way into a copy. An event and an end take no memory on that way; a batch lies on
/// the heap, where both copies share it. What a copy makes of them may take memory.
#[derive(Drop)]
pub enum Posted {
    /// A single event.
    Event(Event),
    /// A batch, which both copies share. A copy may keep a rest of it.
    Batch(Run),
    /// The end of a batch, at which a copy has all of it.
    End,
}

impl Model for Logged {
    ghost use Rattle.hub.specs.Copied.{Brought};
    ghost use Rattle.hub.specs.Begun.{events_of};

    ghost Value = { Brought };

    ghost view = { λ o. record { events = events_of o.posted; at = o.at } };
}

impl Logged {
    /// A single event.
    pub fn event(event: Event, at: Front) -> Logged
        ensures { result ≡ record { events = event ∷ []; at = at } }
    {
        Logged {
            posted: Posted::Event(event),
            at,
        }
    }

    /// A batch.
    pub fn batch(run: Run, at: Front) -> Logged
        ensures { result ≡ record { events = events_in run; at = at } }
    {
        Logged {
            posted: Posted::Batch(run),
            at,
        }
    }

    /// The end of a batch.
    pub fn end(at: Front) -> Logged
        ensures { result ≡ record { events = []; at = at } }
    {
        Logged {
            posted: Posted::End,
            at,
        }
    }
}

impl Absorb<Logged> for Shown {
    ghost use Rattle.hub.specs.Copied.{taken};

    type State = Whole;

    ghost state = { λ s. s.copied };

    ghost applied = { taken };

    fn absorb_first(&mut self, operation: &Logged, _other: &Shown) -> Result<(), AllocError> {
        if !self.finish() {
            return Err(AllocError);
        }
        let taken = match &operation.posted {
            Posted::Event(event) => self.take_event(event, &operation.at),
            Posted::Batch(run) => self.take_batch(run, &operation.at),
            Posted::End => {
                self.at = operation.at.again();
                Ok(())
            }
        };
        taken.map_err(|_| AllocError)
    }
}

/// The rule over the copy that is shown. A view is which log a thread was told of, if any.
pub struct Published;

impl Protocol<Shown, Option<Front>> for Published {
    ghost use Rattle.std.specs.Prelude.{None};
    ghost use Rattle.hub.specs.Copied.{Keeps};

    ghost holds = { Keeps };

    ghost first = { None };
}

/// A copy is entered, or shown.
pub struct Sight;

impl Outcome<Shown, Option<Front>> for Sight {
    ghost use Rattle.hub.specs.Copied.{Sees};

    ghost then = { Sees };
}

/// What the writer tells a new reader.
pub struct Note;

impl Split<Option<Front>> for Note {
    ghost left = { λ v. v };

    ghost right = { λ v. v };
}

impl Join<Option<Front>> for Note {
    ghost use Rattle.std.specs.Prelude.{None};

    ghost both = { λ v w. w };

    ghost spent = { None };
}
