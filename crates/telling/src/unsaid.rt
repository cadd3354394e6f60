//! What a turn has still to write.

ghost use Rattle.std.specs.Prelude.{◌≡◌, ◌≢◌, ◌↔◌, ◌<◌, ◌≤◌, ◌+◌, [], ℕ, List, None, false};
ghost use Rattle.std.specs.Prelude.{drop, length, slice_get, IfOk, IfSome, IsNone, IsSome, IsTrue};
ghost use Rattle.std.specs.Prelude.{MatchOption, OnErr, OnOk};
ghost use Rattle.std.specs.Option.{option_copied};
ghost use Rattle.peers_msg.specs.Spelling.{message_spelling};
ghost use Rattle.pushed_keys.specs.Turns.{AreSaid};
ghost use Rattle.pushed_keys.specs.declared.pushed.Pushed.{Pushed};
ghost use Rattle.telling.specs.Down.{IsFirstLeft, IsFurther, IsNext, behind, defined_behind};
ghost use Rattle.telling.specs.Down.{next_message, one_said};
ghost use Rattle.telling.specs.Telling.{definitions, text_of};
ghost use Rattle.telling.specs.Unsaid.{IsPiece, IsSaid, undefined_from, unsaid_messages};
ghost use Rattle.telling.specs.Unsaid.{unsaid_updates};

use crate::draft::Draft;
use agg_types::NoMemory;
use pushed_keys::{Change, Pushed, UnsaidTable};
use std::alloc::Global;
use std::marker::Model;

/// How many bytes a piece of what a turn writes has at most, unless it is one message alone.
pub const PIECE: usize = 65_536;

/// What a turn has still to write: what it took down of each table, of which messages are made
/// piece by piece.
///
/// Contracts see which definitions and which changes are left, as specs/Unsaid says.
pub struct Unsaid {
    undefined: Option<usize>,
    defined: u64,
    // The tables before this place are told.
    place: usize,
    tables: Vec<UnsaidTable>,
}

// By hand, so that a crate that drops it proves nothing of its parts.
impl Drop for Unsaid {
    fn drop(self) {
        let Unsaid {
            undefined: _,
            defined: _,
            place: _,
            tables: _,
        } = self;
    }
}

impl Model for Unsaid {
    ghost use Rattle.std.specs.Prelude.{drop};
    ghost use Rattle.telling.specs.Unsaid.{Unsaid};

    ghost Value = { Unsaid };

    ghost view = { λ unsaid. record {
      undefined = unsaid.undefined;
      defined = unsaid.defined;
      before = unsaid.place;
      tables = drop unsaid.place unsaid.tables.items;
    } };
}

impl Unsaid {
    /// Nothing is left to be written. Takes no memory.
    pub fn none(alloc: Global) -> Unsaid
        ensures { (pushed : List Pushed) → unsaid_messages pushed result ≡ [] }
    {
        Unsaid::of(None, 0, Vec::new(alloc))
    }

    /// The definitions from a place on, and what is left of tables behind the definition of the
    /// table with this id, 0 for none.
    pub fn of(undefined: Option<usize>, defined: u64, tables: Vec<UnsaidTable>) -> Unsaid
        ensures { result ≡ record {
          undefined = undefined;
          defined = defined;
          before = 0;
          tables = tables.items;
        } }
    {
        Unsaid {
            undefined,
            defined,
            place: 0,
            tables,
        }
    }

    /// Whether nothing is left to be written.
    pub fn is_done(&self) -> bool
        ensures done { IsTrue result
            → (pushed : List Pushed) → unsaid_messages pushed self.now ≡ [] }
        ensures said { IsTrue result ↔ IsSaid self.now }
    {
        self.undefined.is_none() && first_change(self.place, self.tables.as_slice()).is_none()
    }

    /// Writes a piece of what is left, in place of what the buffer had: as many whole messages as
    /// fit, and one at least. After `NoMemory` as much is left as before.
    ///
    /// A buffer that has room for `PIECE` bytes takes no more, unless one message is longer. Once
    /// nothing is left, the changes' memory is given back.
    pub fn write(&mut self, pushed: &[Pushed], piece: &mut Vec<u8>) -> Result<(), NoMemory>
        ensures ok { OnOk result (IsPiece pushed.now self.old self.new piece.new.items) }
        ensures ends { OnOk result (unsaid_messages pushed.now self.new ≡ [] → IsSaid self.new) }
        ensures err { OnErr result (self.new ≡ self.old) }
    {
        self.write_messages(pushed, piece)?;
        self.give_back(pushed);
        Ok(())
    }

    // Writes a piece of what is left.
    fn write_messages(&mut self, pushed: &[Pushed], piece: &mut Vec<u8>) -> Result<(), NoMemory>
        ensures ok { OnOk result (IsPiece pushed.now self.old self.new piece.new.items) }
        ensures err { OnErr result (self.new ≡ self.old) }
    {
        piece.clear();
        let mut draft = Draft::new(*self.tables.allocator());
        let Some(step) = self.draft_next(pushed, &mut draft)? else {
            return Ok(());
        };
        piece.extend_from_slice(draft.message.as_slice())?;
        self.leave_behind(step);
        while self.write_further(pushed, &mut draft, piece) {}
        Ok(())
    }

    /// The bytes of all that is left.
    pub fn text(self, pushed: &[Pushed]) -> Result<Vec<u8>, NoMemory>
        ensures { IfOk result (λ text. text.items ≡ text_of (unsaid_messages pushed.now self)) }
    {
        let alloc = *self.tables.allocator();
        let mut left = self;
        let mut draft = Draft::new(alloc);
        let mut text = Vec::new(alloc);
        while let Some(step) = left.draft_next(pushed, &mut draft)? {
            text.extend_from_slice(draft.message.as_slice())?;
            left.leave_behind(step);
        }
        Ok(text)
    }

    // Writes the next message too, if one is left that fits: whether it is written.
    fn write_further(&mut self, pushed: &[Pushed], draft: &mut Draft, piece: &mut Vec<u8>) -> bool
        ensures goes { IsTrue result
            → IsFurther pushed.now self.old self.new piece.old.items piece.new.items }
        ensures stays { result ≡ false
            → (self.new ≡ self.old) × (piece.new.items ≡ piece.old.items) }
    {
        let Ok(next) = self.draft_next(pushed, draft) else {
            return false;
        };
        let Some(step) = next else {
            return false;
        };
        let message = draft.message.as_slice();
        if piece.len().saturating_add(message.len()) > PIECE {
            return false;
        }
        if piece.extend_from_slice(message).is_err() {
            return false;
        }
        self.leave_behind(step);
        true
    }

    // Drafts the next message, if one is left.
    fn draft_next(&self, pushed: &[Pushed], draft: &mut Draft) -> Result<Option<Step>, NoMemory>
        ensures { IfOk result (λ next. MatchOption next (unsaid_messages pushed.now self.now ≡ [])
            (λ step. IsNext pushed.now self.now step draft.new.message.items)) }
    {
        let Some(place) = first_undefined(self.undefined, pushed) else {
            return draft_update(
                self.defined,
                self.place,
                pushed,
                self.tables.as_slice(),
                draft,
            );
        };
        draft.define(place as u64 + 1, &pushed[place])?;
        Ok(Some(Step {
            undefined: undefined_behind(place, pushed),
            defined: self.defined,
            place: self.place,
            is_update: false,
        }))
    }

    // Gives the memory back where nothing is left.
    fn give_back(&mut self, pushed: &[Pushed])
        ensures same { unsaid_messages pushed.now self.new ≡ unsaid_messages pushed.now self.old }
        ensures ends { unsaid_messages pushed.now self.new ≡ [] → IsSaid self.new }
    {
        if !self.has_next(pushed) {
            *self = Unsaid::of(None, 0, Vec::new(*self.tables.allocator()));
        }
    }

    // Whether a message is left.
    fn has_next(&self, pushed: &[Pushed]) -> bool
        ensures none { result ≡ false → unsaid_messages pushed.now self.now ≡ [] }
        ensures some { IsTrue result → unsaid_messages pushed.now self.now ≢ [] }
    {
        match first_undefined(self.undefined, pushed) {
            Some(_) => true,
            None => has_update(self.place, pushed, self.tables.as_slice()),
        }
    }

    // Leaves the message of a step behind.
    fn leave_behind(&mut self, step: Step)
        requires { self.old.before ≤ step.place }
        ensures { self.new ≡ behind step self.old }
    {
        self.undefined = step.undefined;
        self.defined = step.defined;
        self.place = step.place;
        if step.is_update {
            say_one(step.place, self.tables.as_mut_slice());
        }
    }
}

/// A step behind one message: the place of the first definition that is left then, the table that
/// is defined last, and the place of the first table that isn't told. It says whether the message
/// is an update of this table.
#[derive(Clone, Copy)]
pub struct Step {
    pub undefined: Option<usize>,
    pub defined: u64,
    pub place: usize,
    pub is_update: bool,
}

/// A change that is found, the place of its table, and the id of the update before it.
#[derive(Clone, Copy)]
pub struct Found<'a> {
    pub place: usize,
    pub last: u32,
    pub key: &'a [u8],
    pub change: Change,
}

// The place of the first table whose definition is left.
fn first_undefined(undefined: Option<usize>, pushed: &[Pushed]) -> Option<usize>
    ensures none { IsNone result → undefined_from pushed.now undefined ≡ [] }
    ensures is { IsSome result → undefined ≡ result }
    ensures within { IfSome result (λ place. place < length pushed.now) }
{
    let place = undefined?;
    if place < pushed.len() {
        Some(place)
    } else {
        None
    }
}

// The place of the first table whose definition is left behind that of this one.
fn undefined_behind(place: usize, pushed: &[Pushed]) -> Option<usize>
    requires { place < length pushed.now }
    ensures { undefined_from pushed.now result
        ≡ definitions (place + 1) (drop (place + 1) pushed.now) }
{
    let many = pushed.len();
    if place + 1 < many {
        Some(place + 1)
    } else {
        None
    }
}

// Drafts the next message of what is left of tables from a place on, if any is.
fn draft_update(
    defined: u64,
    place: usize,
    pushed: &[Pushed],
    tables: &[UnsaidTable],
    draft: &mut Draft,
) -> Result<Option<Step>, NoMemory>
    ensures { IfOk result (λ next. MatchOption next (unsaid_messages pushed.now (record {
      undefined = None;
      defined = defined;
      before = place;
      tables = drop place tables.now;
    }) ≡ []) (λ step. IsNext pushed.now (record {
      undefined = None;
      defined = defined;
      before = place;
      tables = drop place tables.now;
    }) step draft.new.message.items)) }
{
    let Some(found) = first_change(place, tables) else {
        return Ok(None);
    };
    let Some(table) = table_at(pushed, found.place) else {
        return Ok(None);
    };
    let id = found.place as u64 + 1;
    let is_update = defined == id;
    draft_one(is_update, id, table, found, draft)?;
    Ok(Some(Step {
        undefined: None,
        defined: id,
        place: found.place,
        is_update,
    }))
}

// Whether an update is left of tables from a place on.
fn has_update(place: usize, pushed: &[Pushed], tables: &[UnsaidTable]) -> bool
    ensures none { result ≡ false → (defined : ℕ)
        → unsaid_updates defined place (drop place pushed.now) (drop place tables.now) ≡ [] }
    ensures some { IsTrue result → (defined : ℕ)
        → unsaid_updates defined place (drop place pushed.now) (drop place tables.now) ≢ [] }
{
    match first_change(place, tables) {
        None => false,
        Some(found) => found.place < pushed.len(),
    }
}

// Drafts what is written next of a table, by its id: a change, or the definition before it.
fn draft_one(
    is_update: bool,
    id: u64,
    table: &Pushed,
    found: Found<'_>,
    draft: &mut Draft,
) -> Result<(), NoMemory>
    ensures { OnOk result (draft.new.message.items
        ≡ message_spelling (next_message is_update id table.now found.entry)) }
{
    if is_update {
        draft.update(table, found.last.wrapping_add(1), found.key, found.change)
    } else {
        draft.define(id, table)
    }
}

// The first change that is left of tables from a place on.
fn first_change(place: usize, tables: &[UnsaidTable]) -> Option<Found<'_>>
    ensures { MatchOption result (AreSaid (drop place tables.now))
        (IsFirstLeft place tables.now) }
{
    let mut at = place;
    while at < tables.len() {
        let table = &tables[at];
        if let Some((key, change)) = table.changes.first() {
            return Some(Found {
                place: at,
                last: table.last,
                key,
                change,
            });
        }
        at += 1;
    }
    None
}

/// The pushed table at a place.
pub fn table_at(pushed: &[Pushed], place: usize) -> Option<&Pushed>
    ensures { option_copied result ≡ slice_get pushed.now place }
{
    pushed.get(place)
}

// Leaves the first change of a table behind, by its place.
fn say_one(place: usize, tables: &mut [UnsaidTable])
    ensures { drop place tables.new ≡ one_said (drop place tables.old) }
{
    if place < tables.len() {
        let table = &mut tables[place];
        table.last = table.last.wrapping_add(1);
        table.changes.skip();
    }
}

/// The table that is defined last behind what is left of these, 0 for none.
pub fn defined_behind(defined: u64, tables: &[UnsaidTable]) -> u64
    ensures { result ≡ defined_behind defined 0 tables.now }
{
    let mut last = defined;
    for (before, table) in tables.iter().enumerate() {
        if table.changes.len() > 0 {
            last = before as u64 + 1;
        }
    }
    last
}
