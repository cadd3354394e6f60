//! Events that the book is still to take.

ghost use Rattle.std.specs.Prelude.{◌≡◌, ◌<◌, ◌+◌, ◌^◌, ◌++◌, [], length, IfSome, OnOk, OnErr};
ghost use Rattle.std.specs.Option.{option_map_or};
ghost use Rattle.fleet_model.specs.Seats.{numbered};
ghost use Rattle.fleet_core.specs.Waiting.{AreHandedOver, IsOneHandedOver, leave_if};

use crate::Book;
use agg_types::{NoMemory, What, Whats};
use std::alloc::Global;
use std::marker::Model;

/// Events of one seat that the book is still to take, in order: some facts, and then a leave, if
/// the seat gets free. Contracts see the list of the events.
#[derive(Drop)]
pub struct Waiting {
    seat: u64,
    seq: u64,
    facts: Whats,
    handed: usize,
    leaves: bool,
}

impl Model for Waiting {
    ghost use Rattle.std.specs.Prelude.{List, ◌++◌, ◌≤◌, ◌<◌, ◌+◌, ◌-◌, ◌^◌, drop, length};
    ghost use Rattle.agg_types.specs.declared.event.Event.{Event};
    ghost use Rattle.fleet_model.specs.Seats.{numbered};
    ghost use Rattle.fleet_core.specs.Waiting.{leave_if};

    ghost Value = { List Event };

    ghost view = { λ waiting.
        numbered waiting.seat waiting.seq
        (drop waiting.handed waiting.facts ++ leave_if waiting.leaves) };

    ghost invariant = { λ waiting.
        (waiting.handed ≤ length waiting.facts)
        × (waiting.seq + (length waiting.facts - waiting.handed) < 2 ^ 64)
        × (length waiting.facts < 2 ^ 63) };
}

impl Waiting {
    /// No events. Takes no memory.
    pub fn none(alloc: Global) -> Waiting
        ensures { result ≡ [] }
    {
        Waiting::new(0, 0, Whats::new(alloc), false)
    }

    /// These facts of a seat, the first under the number `seq`, and behind them a leave or none.
    pub fn new(seat: u64, seq: u64, facts: Whats, leaves: bool) -> Waiting
        requires numbers { seq + length facts < 2 ^ 64 }
        requires short { length facts < 2 ^ 63 }
        ensures { result ≡ numbered seat seq (facts ++ leave_if leaves) }
    {
        Waiting {
            seat,
            seq,
            facts,
            handed: 0,
            leaves,
        }
    }

    /// These facts of a connection's seat, if it has one, the first under the number `next_seq`,
    /// and behind them a leave or none.
    pub fn at_seat(
        alloc: Global,
        conn: u64,
        next_seq: Option<u64>,
        facts: Whats,
        leaves: bool,
    ) -> Waiting
        requires numbers { IfSome next_seq (λ seq. seq + length facts < 2 ^ 64) }
        requires short { length facts < 2 ^ 63 }
        ensures { result
            ≡ option_map_or (λ seq. numbered conn seq (facts ++ leave_if leaves)) next_seq [] }
    {
        match next_seq {
            None => Waiting::none(alloc),
            Some(seq) => Waiting::new(conn, seq, facts, leaves),
        }
    }

    /// How many events wait.
    pub fn len(&self) -> usize
        ensures { result ≡ length self.now }
    {
        let facts = self.facts.len() - self.handed;
        if self.leaves { facts + 1 } else { facts }
    }

    /// Hands the events to the book, one after the other. After NoMemory those that it has not
    /// taken wait as before.
    pub fn flush(&mut self, book: &mut Book) -> Result<(), NoMemory>
        ensures ok { OnOk result (self.new ≡ []) }
        ensures handed { AreHandedOver self.old book.old self.new book.new }
    {
        for _ in 0..self.len() {
            self.hand_over(book)?;
        }
        Ok(())
    }

    // Hands over the first event that waits.
    fn hand_over(&mut self, book: &mut Book) -> Result<(), NoMemory>
        ensures ok { OnOk result (IsOneHandedOver self.old book.old self.new book.new) }
        ensures err { OnErr result (self.new ≡ self.old) }
        ensures kept { OnErr result (book.new ≡ book.old) }
    {
        if self.handed < self.facts.len() {
            book.apply_lent(self.seat, self.seq, self.facts.at(self.handed))?;
            self.handed += 1;
            self.seq += 1;
        } else if self.leaves {
            book.apply(self.seat, self.seq, &What::Leave)?;
            self.leaves = false;
        }
        Ok(())
    }
}
