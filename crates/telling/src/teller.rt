//! What one connection was told, and its turns.

ghost use Rattle.std.specs.Prelude.{◌≡◌, ◌++◌, ◌-◌, ◌^◌, [], List, ℕ, length, map, min, true};
ghost use Rattle.std.specs.Prelude.{false, IfOk, IsTrue, OnOk, OnErr};
ghost use Rattle.pushed_keys.specs.Moves.{AreMovedTo};
ghost use Rattle.pushed_keys.specs.Packed.{marks_of};
ghost use Rattle.telling.specs.Down.{defined_behind};
ghost use Rattle.telling.specs.Telling.{asked, defined_before, first_definitions, turn_messages};
ghost use Rattle.telling.specs.Telling.{keys_told, table_at, told_after, told_keys, turn_at};
ghost use Rattle.telling.specs.Telling.{turn_text};
ghost use Rattle.telling.specs.Telling.{untold};
ghost use Rattle.telling.specs.Unsaid.{undefined_from, unsaid_messages, unsaid_updates};

use crate::unsaid::{Unsaid, defined_behind, table_at};
use agg_types::{Items, Key, NoMemory};
use pushed_keys::{
    Moved, Packed, Pushed, ToldTable, Turn, UnsaidTable, are_idle, are_quiet, is_told, tell_all,
    tell_all_moved, told_at,
};
use std::alloc::Global;
use std::marker::Model;

/// What one connection was told of the pushed tables.
///
/// Contracts see of each table the last update id and the keys that were put, each with the moment
/// at which it was last put, and whether its set had it at the last turn. They see which table was
/// defined last, whether the first turn was made, and whether all is asked for anew.
pub struct Teller {
    alloc: Global,
    tables: Items<ToldTable>,
    defined: u64,
    begun: bool,
    anew: bool,
}

// By hand, so that a crate that drops a teller proves nothing of its parts.
impl Drop for Teller {
    fn drop(self) {
        let Teller {
            alloc: _,
            tables: _,
            defined: _,
            begun: _,
            anew: _,
        } = self;
    }
}

impl Model for Teller {
    ghost use Rattle.telling.specs.Told.{Told};

    ghost Value = { Told };

    ghost view = { λ teller. record {
      tables = teller.tables;
      defined = teller.defined;
      begun = teller.begun;
      anew = teller.anew;
    } };
}

impl Teller {
    /// A teller of a connection that was told nothing. Takes no memory.
    pub fn new(alloc: Global) -> Teller
        ensures { result ≡ untold }
    {
        Teller {
            alloc,
            tables: Items::from_vec(Vec::new(alloc)),
            defined: 0,
            begun: false,
            anew: false,
        }
    }

    /// A resync request was read: the next turn puts every key of the sets anew. Takes no memory.
    pub fn ask(&mut self)
        ensures { self.new ≡ asked self.old }
    {
        self.anew = true;
    }

    /// Makes a turn over the sets of the pushed tables, one a table, at their moment, in ms, and
    /// gives the bytes to write, none where nothing is to be said. After `NoMemory` nothing of it
    /// is told, and the teller is as it was.
    ///
    /// A turn that writes nothing takes no memory where the marks stay as they are.
    pub fn turn(
        &mut self,
        pushed: &[Pushed],
        sets: &[Vec<&Key>],
        now: u64,
    ) -> Result<Vec<u8>, NoMemory>
        ensures text { IfOk result (λ text. text.items ≡ turn_text pushed.now
            (map (λ set. map (λ key. key.now) set.items) sets.now) now self.old) }
        ensures told { OnOk result (self.new ≡ told_after pushed.now
            (map (λ set. map (λ key. key.now) set.items) sets.now) now self.old) }
        ensures err { OnErr result (self.new ≡ self.old) }
    {
        if self.is_quiet(pushed, sets, now) {
            return Ok(Vec::new(self.alloc));
        }
        let turn = self.turn_at(now);
        let (left, tables) = tell_all(self.alloc, turn, pushed, sets, self.tables.as_slice())?;
        let (unsaid, defined) = self.unsaid_of(pushed, left);
        let text = unsaid.text(pushed)?;
        self.end_turn(tables, defined);
        Ok(text)
    }

    /// Makes the turn that `turn` makes, and gives what it has to write in place of its bytes: of
    /// each key that is to be written its bytes and two more. `Unsaid::write` writes it piece by
    /// piece. After `NoMemory` nothing is told, and the teller is as it was.
    ///
    /// A turn that writes nothing takes no memory where the marks stay as they are.
    pub fn begin(
        &mut self,
        pushed: &[Pushed],
        sets: &[Vec<&Key>],
        now: u64,
    ) -> Result<Unsaid, NoMemory>
        ensures said { IfOk result (λ left. unsaid_messages pushed.now left
            ≡ turn_messages pushed.now (map (λ set. map (λ key. key.now) set.items) sets.now) now
            self.old) }
        ensures told { OnOk result (self.new ≡ told_after pushed.now
            (map (λ set. map (λ key. key.now) set.items) sets.now) now self.old) }
        ensures err { OnErr result (self.new ≡ self.old) }
    {
        if self.is_quiet(pushed, sets, now) {
            return Ok(Unsaid::none(self.alloc));
        }
        let turn = self.turn_at(now);
        let (left, tables) = tell_all(self.alloc, turn, pushed, sets, self.tables.as_slice())?;
        let (unsaid, defined) = self.unsaid_of(pushed, left);
        self.end_turn(tables, defined);
        Ok(unsaid)
    }

    /// Makes the turn that `begin` makes over the sets that these moves come to, at their moment,
    /// in ms, and gives what it has to write. After `NoMemory` nothing of it is told, and the
    /// teller is as it was.
    ///
    /// Of each table the moves are the keys that came into its set or left it since the last turn,
    /// in any order. Of a key that is named more than once the last word counts. That set is what
    /// the marks say (`laws::the_set_is_marked`), with a hold too.
    ///
    /// A turn goes through what moved, and through the parts of what was told in which a key moved
    /// or is due, or the life of one that left has gone by. The other parts it passes. A turn in
    /// which nothing moved and no part is gone through takes no memory.
    pub fn begin_by(
        &mut self,
        pushed: &[Pushed],
        moves: &[Vec<Moved<'_>>],
        now: u64,
    ) -> Result<Unsaid, NoMemory>
        ensures said { IfOk result (λ left. (sets : List (List (List ℕ)))
            → AreMovedTo pushed.now (map (λ ms. ms.items) moves.now) self.old.tables sets
            → unsaid_messages pushed.now left ≡ turn_messages pushed.now sets now self.old) }
        ensures told { OnOk result ((sets : List (List (List ℕ)))
            → AreMovedTo pushed.now (map (λ ms. ms.items) moves.now) self.old.tables sets
            → self.new ≡ told_after pushed.now sets now self.old) }
        ensures err { OnErr result (self.new ≡ self.old) }
    {
        if self.is_idle(pushed, moves, now) {
            return Ok(Unsaid::none(self.alloc));
        }
        let turn = self.turn_at(now);
        let (left, tables) = tell_all_moved(
            self.alloc,
            turn,
            pushed,
            moves,
            self.tables.as_slice(),
        )?;
        let (unsaid, defined) = self.unsaid_of(pushed, left);
        self.end_turn(tables, defined);
        Ok(unsaid)
    }

    /// The keys of a pushed table, by its place, that are told at a moment, in ms: put and not
    /// taken away, and their life hasn't gone by; none where there is no such table.
    pub fn told(
        &self,
        alloc: Global,
        pushed: &[Pushed],
        place: usize,
        now: u64,
    ) -> Result<Vec<&[u8]>, NoMemory>
        ensures { IfOk result (λ keys. map (λ key. key.now) keys.items
            ≡ told_keys pushed.now self.now place now) }
    {
        match table_at(pushed, place) {
            None => Ok(Vec::new(alloc)),
            Some(table) => {
                let (_, marks) = told_at(self.tables.as_slice(), place);
                keys_told(alloc, table, now, marks)
            }
        }
    }

    /// How many keys of a pushed table, by its place, have a mark, 2^64 - 1 where there are more.
    /// Behind a turn these are the keys that are told at its moment. 0 where there is no such
    /// table. The number is kept, not counted.
    pub fn count(&self, place: usize) -> u64
        ensures { result ≡ min (length (table_at self.now place).marks) (2 ^ 64 - 1) }
    {
        match self.tables.as_slice().get(place) {
            None => 0,
            Some(table) => table.marks.len(),
        }
    }

    // A turn at a moment.
    fn turn_at(&self, now: u64) -> Turn
        ensures { result ≡ turn_at now self.now }
    {
        Turn {
            now,
            anew: self.anew,
        }
    }

    // Whether a turn writes nothing and leaves all as it is.
    fn is_quiet(&self, pushed: &[Pushed], sets: &[Vec<&Key>], now: u64) -> bool
        ensures said { IsTrue result → turn_messages pushed.now
            (map (λ set. map (λ key. key.now) set.items) sets.now) now self.now ≡ [] }
        ensures told { IsTrue result → told_after pushed.now
            (map (λ set. map (λ key. key.now) set.items) sets.now) now self.now ≡ self.now }
    {
        if !self.begun || self.anew {
            return false;
        }
        are_quiet(self.turn_at(now), pushed, sets, self.tables.as_slice())
    }

    // Whether a turn by moves writes nothing and leaves all as it is.
    fn is_idle(&self, pushed: &[Pushed], moves: &[Vec<Moved<'_>>], now: u64) -> bool
        ensures said { IsTrue result → (sets : List (List (List ℕ)))
            → AreMovedTo pushed.now (map (λ ms. ms.items) moves.now) self.now.tables sets
            → turn_messages pushed.now sets now self.now ≡ [] }
        ensures told { IsTrue result → (sets : List (List (List ℕ)))
            → AreMovedTo pushed.now (map (λ ms. ms.items) moves.now) self.now.tables sets
            → told_after pushed.now sets now self.now ≡ self.now }
    {
        if !self.begun || self.anew {
            return false;
        }
        are_idle(self.turn_at(now), pushed, moves, self.tables.as_slice())
    }

    // What a turn has to write that took down this, and the table that is defined last behind it.
    fn unsaid_of(&self, pushed: &[Pushed], tables: Vec<UnsaidTable>) -> (Unsaid, u64)
        ensures left { unsaid_messages pushed.now result.0
            ≡ first_definitions pushed.now self.now ++ unsaid_updates
            (defined_before pushed.now self.now) 0 pushed.now tables.items }
        ensures defined { result.1
            ≡ defined_behind (defined_before pushed.now self.now) 0 tables.items }
    {
        let (undefined, defined) = self.before(pushed);
        let last = defined_behind(defined, tables.as_slice());
        (Unsaid::of(undefined, defined, tables), last)
    }

    // The place of the first table whose definition the next turn begins with, and the table that
    // is defined last before its updates: before the first turn all are defined.
    fn before(&self, pushed: &[Pushed]) -> (Option<usize>, u64)
        ensures first { undefined_from pushed.now result.0
            ≡ first_definitions pushed.now self.now }
        ensures defined { result.1 ≡ defined_before pushed.now self.now }
    {
        if self.begun {
            return (None, self.defined);
        }
        if pushed.is_empty() {
            return (None, 0);
        }
        (Some(0), pushed.len() as u64)
    }

    // A turn is made.
    fn end_turn(&mut self, tables: Items<ToldTable>, defined: u64)
        ensures { self.new ≡ record {
          tables = tables;
          defined = defined;
          begun = true;
          anew = false;
        } }
    {
        self.tables = tables;
        self.defined = defined;
        self.begun = true;
        self.anew = false;
    }
}

// The keys that these marks tell at a moment.
fn keys_told<'a>(
    alloc: Global,
    table: &Pushed,
    now: u64,
    marks: Packed<'a>,
) -> Result<Vec<&'a [u8]>, NoMemory>
    ensures { IfOk result (λ keys. map (λ key. key.now) keys.items
        ≡ keys_told table.now now (marks_of marks.entry)) }
{
    let mut keys = Vec::new(alloc);
    let mut left = marks;
    while let Some((mark, rest)) = left.split_first() {
        if is_told(table, now, mark.put) {
            keys.push(mark.key)?;
        }
        left = rest;
    }
    Ok(keys)
}
