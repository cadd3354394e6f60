//! The events that a copy of the book took. No list is kept: they stand in proofs alone.
//!
//! A trail takes no bytes, and a step of it does nothing. It is the token of a log that nobody
//! shares, and a step opens another one that has more events.

ghost use Rattle.std.specs.Prelude.{◌≡◌, ◌∷◌, []};
ghost use Rattle.hub.specs.Batches.{part_of};
ghost use Rattle.hub.specs.Trailed.{further};

use crate::batch::Batch;
use agg_types::{Config, Event, Items};
use book::Book;
use logbook::{Opening, Rule, Seen, Start};
use std::marker::Model;

/// What a trail notes: how a book was opened, and the events since. No value of it is made.
pub struct Noted {
    config: Config,
    opening: u64,
    events: Items<Event>,
}

impl Model for Noted {
    ghost use Rattle.hub.specs.Trailed.{Trailed};

    ghost Value = { Trailed };

    ghost view = { λ n. record { config = n.config; opening = n.opening; events = n.events } };
}

/// A trail's log has no rule.
pub struct Any;

impl Rule<Noted, u64> for Any {
    ghost use Rattle.std.specs.Prelude.{[]};
    ghost use base.Fml.{ftrue};

    ghost holds = { λ cells log. Unit {0} };

    ghost first = { [] };

    ghost hinted = { λ n log. Unit {0} };

    ghost shows = { λ log. [] };

    ghost keeps = { λ names log. ftrue };

    ghost moves = { λ ask before after answer. Unit {0} };
}

/// The events that a copy took since its book was opened. Contracts see these and how it was.
#[derive(Drop)]
pub struct Trail {
    seen: Seen<Noted, u64, Any>,
}

impl Model for Trail {
    ghost use Rattle.hub.specs.Trailed.{Trailed, last_note};

    ghost Value = { Trailed };

    ghost view = { λ t. last_note t.seen.log };
}

/// An event behind a trail.
#[derive(Drop)]
struct One<'a> {
    trail: &'a Trail,
    event: &'a Event,
}

/// A part of a batch behind a trail, from one place to another.
#[derive(Drop)]
struct Part<'a> {
    trail: &'a Trail,
    batch: &'a Batch,
    from: usize,
    to: usize,
}

/// What is noted of a step.
struct Note;

impl Opening<Book, Noted> for Note {
    ghost use Rattle.std.specs.Prelude.{[], ◌∷◌};

    ghost log = { λ count book.
        record { config = book.config; opening = book.moment; events = [] } ∷ [] };
}

impl<'a> Opening<One<'a>, Noted> for Note {
    ghost use Rattle.std.specs.Prelude.{[], ◌∷◌};
    ghost use Rattle.hub.specs.Trailed.{further};

    ghost log = { λ count one. further one.trail.now (one.event.now ∷ []) ∷ [] };
}

impl<'a> Opening<Part<'a>, Noted> for Note {
    ghost use Rattle.std.specs.Prelude.{[], ◌∷◌};
    ghost use Rattle.hub.specs.Batches.{part_of};
    ghost use Rattle.hub.specs.Trailed.{further};

    ghost log = { λ count part.
        further part.trail.now (part_of part.batch.now part.from part.to) ∷ [] };
}

impl Trail {
    /// The trail of a book that was just opened.
    pub fn open(book: &Book) -> Trail
        ensures { result ≡ record
            { config = book.now.config; opening = book.now.moment; events = [] } }
    {
        let (seen, _) = Seen::open_row::<Book, Note>(book, Start::alone(), 0);
        Trail { seen }
    }

    /// An event was taken.
    pub fn add(&mut self, event: &Event)
        ensures { self.new ≡ further self.old (event.now ∷ []) }
    {
        let one = One { trail: self, event };
        let (seen, _) = Seen::open_row::<One<'_>, Note>(&one, Start::alone(), 0);
        self.seen = seen;
    }

    /// Of a batch the events from one place to another were taken.
    pub fn add_part(&mut self, batch: &Batch, from: usize, to: usize)
        ensures { self.new ≡ further self.old (part_of batch.now from to) }
    {
        let part = Part {
            trail: self,
            batch,
            from,
            to,
        };
        let (seen, _) = Seen::open_row::<Part<'_>, Note>(&part, Start::alone(), 0);
        self.seen = seen;
    }
}
