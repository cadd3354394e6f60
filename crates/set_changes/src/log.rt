//! The changes of one filter's set.

ghost use Rattle.std.specs.Prelude.{◌≡◌, ◌≤◌, ◌++◌, ◌∷◌, [], ℕ, OnErr, OnOk, IfOk, MatchOption};
ghost use Rattle.std.specs.Prelude.{drop, false, length, map, nat_lt, slice_get};
ghost use Rattle.set_changes.specs.Noting.{IsKept, IsNoted, IsRising};
ghost use Rattle.set_changes.specs.Numbered.{since};

use crate::change::Change;
use agg_types::{Key, NoMemory};
use std::alloc::Global;
use std::collections::VecDeque;
use std::marker::Model;

/// How many changes of a filter are kept at least.
const KEPT: u64 = 1000;

/// The changes of one filter, in order, of which all behind a number are known.
#[derive(Drop)]
pub(crate) struct Log {
    from: u64,
    changes: VecDeque<Change>,
    // How many keys came in and stayed since the log began.
    stayed: u64,
}

impl Model for Log {
    ghost use Rattle.set_changes.specs.Numbered.{Logged};

    ghost Value = { Logged };

    ghost view = { λ l. record { from = l.from; changes = l.changes.items } };
}

impl Log {
    /// A log that knows what comes behind a number. Takes no memory.
    pub(crate) fn new(alloc: Global, from: u64) -> Log
        ensures { result ≡ record { from = from; changes = [] } }
    {
        Log {
            from,
            changes: VecDeque::new(alloc),
            stayed: 0,
        }
    }

    /// The number from which on all is known.
    pub(crate) fn from(&self) -> u64
        ensures { result ≡ self.now.from }
    {
        self.from
    }

    /// Notes that a key came in or left, under a number. Where an allocation fails the log begins
    /// anew.
    #[tactic(auto, using(crate::proofs::Kept::kept_more, crate::proofs::Kept::noted_more, crate::proofs::Kept::kept_none))]
    pub(crate) fn note(&mut self, alloc: Global, number: u64, key: &Key, is_in: bool)
        requires { IsKept number self.old }
        ensures kept { IsKept number self.new }
        ensures noted { IsNoted (record { number = number; key = key.now; is_in = is_in })
            self.old self.new }
    {
        if self.push(alloc, number, key, is_in).is_err() {
            self.begin_anew(number);
            return;
        }
        self.stayed = if is_in {
            self.stayed.saturating_add(1)
        } else {
            self.stayed.saturating_sub(1)
        };
        // Two may go for one that comes, so a log shrinks once its set does.
        self.trim(number);
        self.trim(number);
    }

    // Puts a change behind the others.
    fn push(&mut self, alloc: Global, number: u64, key: &Key, is_in: bool) -> Result<(), NoMemory>
        ensures ok { OnOk result (self.new ≡ record self.old {
          changes = self.old.changes
              ++ record { number = number; key = key.now; is_in = is_in } ∷ [];
        }) }
        ensures err { OnErr result (self.new ≡ self.old) }
    {
        let key = key.duplicate(alloc)?;
        self.changes.push_back(Change { number, key, is_in })?;
        Ok(())
    }

    // Knows what comes behind a number, and nothing else.
    fn begin_anew(&mut self, from: u64)
        ensures { self.new ≡ record { from = from; changes = [] } }
    {
        self.changes.clear();
        self.from = from;
        self.stayed = 0;
    }

    // Drops the oldest change, if there are more than are kept.
    fn trim(&mut self, number: u64)
        requires { IsKept number self.old }
        ensures kept { IsKept number self.new }
        ensures up { self.old.from ≤ self.new.from }
        ensures same { (n : ℕ) → self.new.from ≤ n
            → since n self.new.changes ≡ since n self.old.changes }
    {
        if self.changes.len() as u64 <= KEPT.max(self.stayed) {
            return;
        }
        if let Some(gone) = self.changes.pop_front() {
            self.from = self.from.max(gone.number);
        }
    }

    /// The changes behind a number, in order.
    pub(crate) fn since(&self, alloc: Global, number: u64) -> Result<Vec<&Change>, NoMemory>
        requires { IsRising self.now.changes }
        ensures { IfOk result (λ changes. map (λ change. change.now) changes.items
            ≡ since number self.now.changes) }
    {
        let mut changes = Vec::new(alloc);
        for place in self.first_behind(number)..self.changes.len() {
            if let Some(change) = self.changes.get(place) {
                changes.push(change)?;
            }
        }
        Ok(changes)
    }

    // The place of the first change behind a number, looked for from the end.
    fn first_behind(&self, number: u64) -> usize
        requires { IsRising self.now.changes }
        ensures within { result ≤ length self.now.changes }
        ensures behind { drop result self.now.changes ≡ since number self.now.changes }
    {
        let mut place = self.changes.len();
        while place > 0 && self.is_behind(place - 1, number) {
            place -= 1;
        }
        place
    }

    // Whether the change at a place is behind a number.
    fn is_behind(&self, place: usize, number: u64) -> bool
        ensures { MatchOption (slice_get self.now.changes place) (result ≡ false)
            (λ change. result ≡ nat_lt number change.number) }
    {
        match self.changes.get(place) {
            None => false,
            Some(change) => number < change.number,
        }
    }
}
