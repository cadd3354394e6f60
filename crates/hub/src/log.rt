//! The log of a fleet's history, and the beginnings of it that were seen. Neither keeps a list: the
//! events stand in proofs alone.

ghost use Rattle.std.specs.Prelude.{◌≡◌, ◌<◌, ◌+◌, ◌^◌, ◌++◌, ◌∷◌, [], length, true, MatchBool};
ghost use mathlib.Core.List.{IsPrefix};
ghost use Rattle.fleet_model.specs.Machine.{counts_now, opened};
ghost use Rattle.fleet_model.specs.State.{state_of};
ghost use Rattle.hub.specs.Batches.{events_in};
ghost use Rattle.hub.specs.History.{AllCount, IsLonger, all_count};

use crate::batch::{Batch, Posting};
use crate::entry::Entry;
use book::Book;
use logbook::{Gain, Offer, Opening, Plain, Play, Rule, Seen, Start, Word};
use std::marker::Model;

/// The rule of the log.
pub struct Law;

impl Rule<Entry, u64> for Law {
    ghost use Rattle.std.specs.Prelude.{[]};
    ghost use base.Fml.{ftrue};
    ghost use Rattle.hub.specs.Law.{IsKept};

    ghost holds = { λ cells log. IsKept cells log };

    ghost first = { [] };

    ghost hinted = { λ n log. Unit {0} };

    ghost shows = { λ log. [] };

    ghost keeps = { λ names log. ftrue };

    ghost moves = { λ ask before after answer. Unit {0} };
}

/// Callers trade nothing.
pub struct Nothing;

impl Gain<Entry, u64> for Nothing {
    ghost use base.Fml.{ftrue};

    ghost after = { λ names about answer. ftrue };
}

/// The log begins with how a book was opened.
pub struct Begin;

impl Opening<Book, Entry> for Begin {
    ghost use Rattle.std.specs.Prelude.{[], ◌∷◌};
    ghost use Rattle.hub.specs.declared.entry.Entry.TheVariants.{Opened};

    ghost log = { λ count book. Opened book.config book.moment ∷ [] };
}

/// A step that adds what happened: an event, or a batch as one.
pub struct Add;

impl Play<Entry, u64> for Add {
    ghost use Rattle.hub.specs.Law.{Adds};

    ghost then = { Adds };
}

/// What a step asks for: the event.
impl<'a> Plain<Posting<'a>, Entry, u64> for Add {
    ghost use Rattle.std.specs.Prelude.{None, [], ◌∷◌};
    ghost use Rattle.hub.specs.declared.entry.Entry.TheVariants.{Happened};

    ghost ask = { λ event. Happened (event ∷ []) };

    ghost state = { λ event. None };
}

/// What a step asks for: the events of the batch.
impl Plain<Batch, Entry, u64> for Add {
    ghost use Rattle.std.specs.Prelude.{None};
    ghost use Rattle.hub.specs.Batches.{events_in};
    ghost use Rattle.hub.specs.declared.entry.Entry.TheVariants.{Happened};

    ghost ask = { λ batch. Happened (events_in batch) };

    ghost state = { λ batch. None };
}

/// The word that all threads share: how many events the history has.
#[derive(Drop)]
pub struct Log {
    head: Word<Entry, u64, Law>,
}

impl Model for Log {
    ghost use Rattle.std.specs.Prelude.{◌≡◌};
    ghost use Rattle.logbook.specs.Pages.{Book};
    ghost use Rattle.hub.specs.Law.{head_of};

    ghost Value = { Book };

    ghost view = { λ l. l.head.book };

    ghost invariant = { λ l. l.head ≡ head_of l.head.book };
}

/// A beginning of the history that was seen. Contracts see it as its events.
#[derive(Drop)]
pub struct Front {
    count: u64,
    seen: Seen<Entry, u64, Law>,
}

impl Model for Front {
    ghost use Rattle.std.specs.Prelude.{◌≡◌, length};
    ghost use Rattle.hub.specs.History.{Beginning};
    ghost use Rattle.hub.specs.Law.{IsHistory, begun, events_of};

    ghost Value = { Beginning };

    ghost view = { λ f. begun f.seen.book f.seen.log };

    ghost invariant = { λ f. (f.count ≡ length (events_of f.seen.log)) × IsHistory f.seen.log };
}

impl Log {
    /// The log of a fleet that was just opened, and the beginning with no event.
    pub fn open(book: &Book) -> (Log, Front)
        requires { book.now ≡ opened book.now.config book.now.moment }
        ensures log { result.0 ≡ result.1.of }
        ensures fleet { (result.1.config ≡ book.now.config) × (result.1.opening ≡ book.now.moment) }
        ensures empty { result.1.events ≡ [] }
    {
        let (seen, mut pens) = Seen::open_row::<Book, Begin>(book, Start::alone(), 1);
        let log = Log {
            head: Word::tracked(0, &mut pens.take()),
        };
        (log, Front { count: 0, seen })
    }
}

impl Front {
    /// How many events it has. They all count.
    pub fn len(&self) -> u64
        ensures length { result ≡ length self.now.events }
        ensures legal { AllCount self.now.config self.now.opening self.now.events }
    {
        self.count
    }

    /// A copy.
    pub fn again(&self) -> Front
        ensures { result ≡ self.now }
    {
        Front {
            count: self.count,
            seen: self.seen.again(),
        }
    }

    /// Of two beginnings of one history one begins the other. Whether this one does.
    pub fn compare(&self, other: &Front) -> bool
        requires { other.now.of ≡ self.now.of }
        ensures fleet { (other.now.config ≡ self.now.config)
            × (other.now.opening ≡ self.now.opening) }
        ensures order { MatchBool result (IsPrefix self.now.events other.now.events)
            (IsLonger other.now.events self.now.events) }
    {
        let mut both = self.seen.again();
        both.learn(&other.seen);
        self.count <= other.count
    }

    /// Whether two beginnings of one history are the same.
    pub fn is(&self, other: &Front) -> bool
        requires { other.now.of ≡ self.now.of }
        ensures { result ≡ true → other.now ≡ self.now }
    {
        if !self.compare(other) {
            return false;
        }
        other.compare(self)
    }

    /// Adds an event to all that was seen, and says whether it did. It did not where the history is
    /// longer.
    pub fn add(&mut self, log: &Log, event: &Posting<'_>) -> bool
        requires log { log.now ≡ self.old.of }
        requires room { length self.old.events < 2 ^ 63 }
        requires counts { counts_now (state_of self.old.config self.old.opening self.old.events)
            event.now ≡ true }
        ensures fleet { (self.new.of ≡ self.old.of) × (self.new.config ≡ self.old.config)
            × (self.new.opening ≡ self.old.opening) }
        ensures added { MatchBool result (self.new.events ≡ self.old.events ++ event.now ∷ [])
            (IsLonger self.old.events self.new.events) }
    {
        let mut offer: Offer<Entry, u64, Law, Nothing> = self
            .seen
            .plain::<Nothing, Posting<'_>, Add>(event);
        let mut pen = self.seen.no_pen();
        let count = self.count;
        let found = log
            .head
            .compare_exchange::<Add, Nothing>(
                count,
                count + 1,
                &mut self.seen,
                &mut offer,
                &mut pen,
            );
        self.count = if found == count { count + 1 } else { found };
        found == count
    }

    /// Adds a batch to all that was seen, as one, and says whether it did. It did not where the
    /// history is longer.
    pub fn add_all(&mut self, log: &Log, batch: &Batch) -> bool
        requires log { log.now ≡ self.old.of }
        requires room { length self.old.events < 2 ^ 63 }
        requires counts { all_count (state_of self.old.config self.old.opening self.old.events)
            (events_in batch.now) ≡ true }
        ensures fleet { (self.new.of ≡ self.old.of) × (self.new.config ≡ self.old.config)
            × (self.new.opening ≡ self.old.opening) }
        ensures added { MatchBool result (self.new.events ≡ self.old.events ++ events_in batch.now)
            (IsLonger self.old.events self.new.events) }
    {
        let mut offer: Offer<Entry, u64, Law, Nothing> = self
            .seen
            .plain::<Nothing, Batch, Add>(batch);
        let mut pen = self.seen.no_pen();
        let count = self.count;
        let later = count + batch.len() as u64;
        let found = log
            .head
            .compare_exchange::<Add, Nothing>(count, later, &mut self.seen, &mut offer, &mut pen);
        self.count = if found == count { later } else { found };
        found == count
    }
}
