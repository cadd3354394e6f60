//! The changes of all filters' sets.

ghost use Rattle.std.specs.Prelude.{◌≡◌, ◌+◌, ◌<◌, ◌++◌, ◌∷◌, [], ℕ, List, length, map};
ghost use Rattle.std.specs.Prelude.{◌^◌, false, IfOk, IfSome, OnOk};
ghost use Rattle.agg_types.specs.declared.event.Event.{Event};
ghost use Rattle.set_changes.specs.Noting.{Takes};
ghost use Rattle.set_changes.specs.Numbered.{AreChangesOf, FlipsSay, Says, Sets, log_at, said_of};

use crate::change::Change;
use crate::log::Log;
use agg_types::NoMemory;
use standing_filters::{Flip, Flips};
use std::alloc::Global;
use std::marker::Model;

/// What came into the sets of standing filters and what left them, by how many events there were.
///
/// Contracts see, by the place of a filter, its changes and the number from which on they are
/// known.
pub struct Changes {
    alloc: Global,
    count: u64,
    start: u64,
    logs: Vec<Log>,
}

// By hand, so that what drops it elsewhere proves nothing of its parts.
impl Drop for Changes {
    fn drop(self) {
        let Changes {
            alloc: _,
            count: _,
            start: _,
            logs: _,
        } = self;
    }
}

impl Model for Changes {
    ghost use Rattle.set_changes.specs.Noting.{AreKept};
    ghost use Rattle.set_changes.specs.Numbered.{Numbered};

    ghost Value = { Numbered };

    ghost view = { λ c. record { count = c.count; start = c.start; logs = c.logs.items } };

    ghost invariant = { λ c. AreKept (record {
      count = c.count;
      start = c.start;
      logs = c.logs.items;
    }) };
}

impl Changes {
    /// Those of no events. Takes no memory.
    pub fn new(alloc: Global) -> Changes
        ensures { (sets : Sets) → AreChangesOf result sets [] }
    {
        Changes {
            alloc,
            count: 0,
            start: 0,
            logs: Vec::new(alloc),
        }
    }

    /// How many events there were.
    pub fn count(&self) -> u64
        ensures { result ≡ self.now.count }
    {
        self.count
    }

    /// So many events more came, and a book told what they did to its filters' sets.
    pub fn note_all(&mut self, flips: &Flips, events: u64)
        requires { self.old.count + events < 2 ^ 64 }
        ensures { (sets : Sets) (early late : List Event)
            → AreChangesOf self.old sets early → length late ≡ events
            → (flips.now.lost ≡ false → FlipsSay sets flips.now.flips early late)
            → AreChangesOf self.new sets (early ++ late) }
    {
        self.count += events;
        match flips.known() {
            None => self.begin_anew(),
            Some(flips) => self.note_each(flips),
        }
        let _ = &self.alloc;
    }

    /// What came into the set of the filter at a place and what left it behind the list of the
    /// first events, so many, in order; none where that isn't known any more. Takes memory for
    /// these alone.
    pub fn since(&self, filter: usize, number: u64) -> Result<Option<Vec<&Change>>, NoMemory>
        ensures { IfOk result (λ found. IfSome found (λ changes.
            (sets : Sets) (early late : List Event)
            → AreChangesOf self.now sets (early ++ late) → length early ≡ number
            → Says sets filter
            (λ key. said_of (map (λ change. change.now) changes.items) key) early late)) }
    {
        match self.logs.get(filter) {
            None => {
                if self.start <= number {
                    Ok(Some(Vec::new(self.alloc)))
                } else {
                    Ok(None)
                }
            }
            Some(log) => {
                if log.from() <= number {
                    Ok(Some(log.since(self.alloc, number)?))
                } else {
                    Ok(None)
                }
            }
        }
    }
}

impl Changes {
    // Knows what comes behind the events that there were, and nothing else.
    fn begin_anew(&mut self)
        ensures count { self.new.count ≡ self.old.count }
        ensures start { self.new.start ≡ self.old.count }
        ensures logs { self.new.logs ≡ [] }
    {
        self.logs.clear();
        self.start = self.count;
    }

    // Notes flips under the number of events that there were.
    fn note_each(&mut self, flips: &[Flip])
        ensures { Takes flips.now self.old self.new }
    {
        for flip in flips {
            self.note(flip);
        }
    }

    // Notes a flip.
    fn note(&mut self, flip: &Flip)
        ensures { Takes (flip.now ∷ []) self.old self.new }
    {
        let _ = &self.alloc;
        match self.reach(flip.filter) {
            Err(_) => self.begin_anew(),
            Ok(()) => {
                let alloc = self.alloc;
                let number = self.count;
                self.logs[flip.filter].note(alloc, number, &flip.key, flip.is_in);
            }
        }
    }

    // Has a log of the filter at a place, if there is memory for it.
    fn reach(&mut self, place: usize) -> Result<(), NoMemory>
        ensures within { OnOk result (place < length self.new.logs) }
        ensures count { self.new.count ≡ self.old.count }
        ensures same { (other : ℕ) → log_at self.new other ≡ log_at self.old other }
    {
        while self.logs.len() <= place {
            self.logs.push(Log::new(self.alloc, self.start))?;
        }
        Ok(())
    }
}
