//! What a session keeps of its sender's tables, and what a message does to it.

ghost use Rattle.std.specs.Prelude.{◌≡◌, ◌≤◌, List, [], drop, length, IfOk, IfSome, OnOk, true};
ghost use Rattle.std.specs.Option.{option_map};
ghost use Rattle.agg_types.specs.declared.event.What.{What};
ghost use Rattle.peers_msg.specs.Lent.{as_message};
ghost use Rattle.session_core.specs.Plan.{IsPlanNow, followed_now};
ghost use Rattle.session_core.specs.Run.{GoesOn, run, settled};
ghost use Rattle.session_core.specs.Undo.{undone, LeadBack};
ghost use Rattle.session_core.specs.Tracked.{followed_of, id_after};
ghost use Rattle.session_core.specs.Tracked.{place, entry_of, IsStep, defined, switched};
ghost use Rattle.session_core.specs.Tracked.{updated_under, step_of};

use crate::cause::End;
use crate::followed::followed_of;
use crate::puts::{id_after, make_plan, put_updates, tell_put};
use crate::run::clear_updated;
use crate::undo::{Change, note, take_back};
use agg_types::limits::MOST_FOLLOWED;
use agg_types::{Declared, NoMemory, Shape, Whats};
use peers_msg::{Definition, Given, LentMessage, WireCause};
use std::alloc::Global;
use std::mem;
use update_values::{CachedPlan, Layout, take_plan};

/// The most plans that are kept for tables that aren't in force.
const MOST_PLANS: usize = 16;

/// For how many changes room is kept at most.
const MOST_CHANGES: usize = 4;

/// What is kept of a definition that is followed.
#[derive(Clone, Copy, Debug)]
pub(crate) struct Followed {
    /// The position of the configured table.
    pub(crate) table: usize,
    /// The life of a row in ms; 0 for no end.
    pub(crate) expiry: u64,
    /// What is said of the values.
    pub(crate) layout: Layout,
}

/// What is kept of a sender's table id that was once followed.
#[derive(Clone, Copy, Debug)]
pub(crate) struct Entry {
    pub(crate) id: u64,
    /// The last update id.
    pub(crate) last: u32,
    /// Whether an update came in this piece.
    pub(crate) updated: bool,
    /// The last definition, if it is followed.
    pub(crate) followed: Option<Followed>,
}

/// What a message wants of the session, beside a fact that it may add to the facts.
#[derive(Clone, Copy, Debug)]
pub(crate) enum Heard {
    Nothing,
    /// The end of a resync is to be confirmed.
    Confirm,
    /// A resync is to be answered as partial.
    Partial,
    /// The session ends here.
    End(End),
}

/// The sender's table ids that were ever followed, and the one in force.
#[derive(Debug, Drop)]
pub(crate) struct Track {
    entries: Vec<Entry>,
    current: Option<usize>,
    /// Plans that were made; which of them are kept is nothing that contracts see.
    plans: Vec<CachedPlan>,
    /// Room for the changes of the next piece; nothing that contracts see either.
    room: Vec<Change>,
}

impl std::marker::Model for Track {
    ghost use Rattle.session_core.specs.Tracked.{Tracked};

    ghost Value = { Tracked };

    ghost view = { λ track. record { entries = track.entries.items; current = track.current } };
}

/// How many entries have a smaller id: the place of this one.
fn place(entries: &[Entry], id: u64) -> usize
    ensures count { result ≡ place id entries.now }
    ensures within { result ≤ length entries.now }
{
    match entries {
        [] => 0,
        [first, rest @ ..] => {
            if first.id < id {
                1 + place(rest, id)
            } else {
                0
            }
        }
    }
}

fn entry_of(entries: &[Entry], id: u64) -> Option<Entry>
    ensures { result ≡ entry_of id entries.now }
{
    let entry = entries.get(place(entries, id)).copied()?;
    if entry.id == id { Some(entry) } else { None }
}

/// What is in force, if it is followed.
fn followed_now(entries: &[Entry], current: Option<usize>) -> Option<&Followed>
    ensures { option_map (λ followed. followed.now) result
        ≡ followed_now (record { entries = entries.now; current = current }) }
{
    let entry = entries.get(current?)?;
    entry.followed.as_ref()
}

impl Track {
    /// Nothing is followed yet. Takes no memory.
    pub(crate) fn new(alloc: Global) -> Track
        ensures { result ≡ record { entries = []; current = None } }
    {
        Track {
            entries: Vec::new(alloc),
            current: None,
            plans: Vec::new(alloc),
            room: Vec::new(alloc),
        }
    }

    /// Takes out the room for the changes of a piece. Takes no memory.
    pub(crate) fn take_room(&mut self) -> Vec<Change>
        ensures none { result.items ≡ [] }
        ensures same { self.new ≡ self.old }
    {
        let alloc = *self.room.allocator();
        let mut room = mem::replace(&mut self.room, Vec::new(alloc));
        room.clear();
        room
    }

    /// Keeps the room of changes that are done with, unless there were many.
    pub(crate) fn keep_room(&mut self, changes: Vec<Change>)
        ensures { self.new ≡ self.old }
    {
        if changes.capacity() <= MOST_CHANGES {
            self.room = changes;
        }
    }

    /// The place of the id in force.
    pub(crate) fn current(&self) -> Option<usize>
        ensures { result ≡ self.now.current }
    {
        self.current
    }

    /// Takes the changes back, and puts the id in force that was.
    pub(crate) fn take_back(&mut self, current: Option<usize>, changes: Vec<Change>)
        ensures { self.new ≡ record {
          entries = undone changes.items self.old.entries;
          current = current;
        } }
    {
        take_back(changes, &mut self.entries);
        self.current = current;
    }

    /// The entries, ascending by id.
    pub(crate) fn entries(&self) -> &[Entry]
        ensures { result.now ≡ self.now.entries }
    {
        self.entries.as_slice()
    }

    /// Takes out the plan of the table in force, if it is kept.
    pub(crate) fn plan_now(&mut self, tables: &Declared<Shape>) -> Option<CachedPlan>
        ensures plan { IfSome result (IsPlanNow tables.now self.old) }
        ensures same { self.new ≡ self.old }
    {
        let followed = followed_now(self.entries.as_slice(), self.current)?;
        let shape = tables.get(followed.table)?;
        take_plan(&mut self.plans, &followed.layout, shape.cols.as_slice())
    }

    /// Keeps a plan for later. It goes where as many are kept already, or where an allocation
    /// fails.
    pub(crate) fn keep(&mut self, plan: Option<CachedPlan>)
        ensures { self.new ≡ self.old }
    {
        if let Some(plan) = plan
            && self.plans.len() < MOST_PLANS
        {
            let _ = self.plans.push(plan);
        }
    }

    /// No entry has an update yet.
    pub(crate) fn clear_updated(&mut self)
        ensures { self.new ≡ record {
          entries = settled self.old.entries;
          current = self.old.current;
        } }
    {
        clear_updated(&mut self.entries);
    }

    /// What a message does, with the plan of the table in force, where one was made. A fact is
    /// added to the facts. Nothing is said of what is kept after `NoMemory`.
    #[tactic(auto, unfolding(crate::specs::Tracked::step_of))]
    pub(crate) fn step(
        &mut self,
        alloc: Global,
        tables: &Declared<Shape>,
        peer: usize,
        plan: &mut Option<CachedPlan>,
        message: LentMessage<'_>,
        facts: &mut Whats,
        changes: &mut Vec<Change>,
    ) -> Result<Heard, NoMemory>
        requires { IfSome plan.old (IsPlanNow tables.now self.old) }
        ensures undo { LeadBack changes.old.items self.old.entries
            changes.new.items self.new.entries }
        ensures step { IfOk result (λ heard. IsStep self.new heard facts.old facts.new
            (step_of tables.now peer self.old (as_message message.entry))) }
        ensures planned { OnOk result (IfSome plan.new (IsPlanNow tables.now self.new)) }
    {
        match message {
            LentMessage::Request => Ok(Heard::Partial),
            LentMessage::Finished | LentMessage::Partial => Ok(Heard::Confirm),
            LentMessage::ProtocolError | LentMessage::SizeError => Ok(Heard::End(End::PeerError)),
            LentMessage::Update { id, life, rest } => {
                self.update(alloc, tables, peer, plan, id, life, rest, facts, changes)
            }
            LentMessage::Define(definition) => self.take_up(tables, plan, definition, changes),
            LentMessage::Switch(id) => {
                self.turn_to(tables, plan, id);
                Ok(Heard::Nothing)
            }
            LentMessage::Confirm
            | LentMessage::Heartbeat
            | LentMessage::Acked { .. }
            | LentMessage::Other { .. } => Ok(Heard::Nothing),
        }
    }

    /// Takes the updates from a place on, as long as they are rows under the id in force: the place
    /// of the first message that isn't taken.
    pub(crate) fn put_updates(
        &mut self,
        alloc: Global,
        tables: &Declared<Shape>,
        peer: usize,
        plan: &mut Option<CachedPlan>,
        given: &Given,
        from: usize,
        facts: &mut Whats,
        changes: &mut Vec<Change>,
    ) -> Result<usize, NoMemory>
        requires { IfSome plan.old (IsPlanNow tables.now self.old) }
        ensures undo { LeadBack changes.old.items self.old.entries
            changes.new.items self.new.entries }
        ensures goes_on { IfOk result (λ next. GoesOn facts.old facts.new [] []
            (run tables.now peer self.new (drop next given.now.messages))
            (run tables.now peer self.old (drop from given.now.messages))) }
        ensures planned { OnOk result (IfSome plan.new (IsPlanNow tables.now self.new)) }
        ensures forward { IfOk result (λ next. from ≤ next) }
    {
        let Some(LentMessage::Update { .. }) = given.get(from) else {
            return Ok(from);
        };
        let Some(at) = self.current else {
            return Ok(from);
        };
        let Some(entry) = self.entries.get(at) else {
            return Ok(from);
        };
        let Some(followed) = &entry.followed else {
            return Ok(from);
        };
        let Some(shape) = tables.get(followed.table) else {
            return Ok(from);
        };
        make_plan(alloc, followed, shape.cols.as_slice(), plan)?;
        let Some(plan) = plan else {
            return Ok(from);
        };
        let last = entry.last;
        let (next, last) = put_updates(
            alloc, peer, followed, shape, plan, given, from, last, facts,
        )?;
        if next == from {
            return Ok(from);
        }
        note(changes, at, entry)?;
        note_last(&mut self.entries[at], last);
        Ok(next)
    }

    /// A definition is in force, with its plan if that is kept. Apart, as is what follows, so that
    /// an update makes no room for what happens here.
    #[inline(never)]
    fn take_up(
        &mut self,
        tables: &Declared<Shape>,
        plan: &mut Option<CachedPlan>,
        definition: &Definition,
        changes: &mut Vec<Change>,
    ) -> Result<Heard, NoMemory>
        ensures undo { LeadBack changes.old.items self.old.entries
            changes.new.items self.new.entries }
        ensures step { IfOk result (λ heard. (facts : List What) → IsStep self.new heard facts facts
            (defined self.old definition.now.id (followed_of tables.now definition.now)
            (entry_of definition.now.id self.old.entries))) }
        ensures planned { OnOk result (IfSome plan.new (IsPlanNow tables.now self.new)) }
    {
        self.keep(plan.take());
        let heard = self.define(definition.id, followed_of(tables, definition), changes)?;
        *plan = self.plan_now(tables);
        Ok(heard)
    }

    /// An id is in force, with its last definition, and its plan if that is kept.
    #[inline(never)]
    fn turn_to(&mut self, tables: &Declared<Shape>, plan: &mut Option<CachedPlan>, id: u64)
        ensures track { self.new ≡ (switched self.old id).track }
        ensures planned { IfSome plan.new (IsPlanNow tables.now self.new) }
    {
        self.keep(plan.take());
        self.switch(id);
        *plan = self.plan_now(tables);
    }

    /// An id gets a definition, and is in force.
    fn define(
        &mut self,
        id: u64,
        followed: Option<Followed>,
        changes: &mut Vec<Change>,
    ) -> Result<Heard, NoMemory>
        ensures undo { LeadBack changes.old.items self.old.entries
            changes.new.items self.new.entries }
        ensures step { IfOk result (λ heard. (facts : List What) → IsStep self.new heard facts facts
            (defined self.old id followed (entry_of id self.old.entries))) }
    {
        let at = place(self.entries.as_slice(), id);
        match entry_of(self.entries.as_slice(), id) {
            Some(entry) => {
                note(changes, at, &entry)?;
                self.entries[at] = Entry { followed, ..entry };
                self.current = followed.map(|_| at);
            }
            None => {
                if followed.is_none() {
                    self.current = None;
                    return Ok(Heard::Nothing);
                }
                if self.entries.len() >= MOST_FOLLOWED {
                    return Ok(Heard::End(End::Wire(WireCause::BadField)));
                }
                let entry = Entry {
                    id,
                    last: 0,
                    updated: false,
                    followed,
                };
                changes.reserve(1)?;
                self.entries.insert(at, entry)?;
                changes.push_reserved(Change::Added(at));
                self.current = Some(at);
            }
        }
        Ok(Heard::Nothing)
    }

    /// An id is in force, with its last definition.
    fn switch(&mut self, id: u64)
        ensures { self.new ≡ (switched self.old id).track }
    {
        self.current = match entry_of(self.entries.as_slice(), id) {
            Some(
                Entry {
                    followed: Some(_),
                    ..
                },
            ) => Some(place(self.entries.as_slice(), id)),
            _ => None,
        };
    }

    /// An update that no run has taken: it can't be read, or no table that is followed is in force,
    /// and then it says nothing.
    #[cold]
    #[inline(never)]
    fn update(
        &mut self,
        alloc: Global,
        tables: &Declared<Shape>,
        peer: usize,
        plan: &mut Option<CachedPlan>,
        id: Option<u32>,
        life: Option<u32>,
        bytes: &[u8],
        facts: &mut Whats,
        changes: &mut Vec<Change>,
    ) -> Result<Heard, NoMemory>
        requires { IfSome plan.old (IsPlanNow tables.now self.old) }
        ensures undo { LeadBack changes.old.items self.old.entries
            changes.new.items self.new.entries }
        ensures step { IfOk result (λ heard. IsStep self.new heard facts.old facts.new
            (updated_under tables.now peer self.old self.old.current id life bytes.now)) }
        ensures planned { OnOk result (IfSome plan.new (IsPlanNow tables.now self.new)) }
    {
        let Some(at) = self.current else {
            return Ok(Heard::Nothing);
        };
        let Some(entry) = self.entries.get(at) else {
            return Ok(Heard::Nothing);
        };
        let Some(followed) = &entry.followed else {
            return Ok(Heard::Nothing);
        };
        if !tell_put(alloc, tables, peer, followed, plan, life, bytes, facts)? {
            return Ok(Heard::End(End::Wire(WireCause::BadField)));
        }
        note(changes, at, entry)?;
        note_update(&mut self.entries[at], id);
        Ok(Heard::Nothing)
    }
}

/// Keeps the id of the last update, and that it came in this piece.
fn note_last(entry: &mut Entry, last: u32)
    ensures { entry.new ≡ record entry.old { last = last; updated = true } }
{
    entry.last = last;
    entry.updated = true;
}

/// Keeps an update's id, and that it came in this piece.
#[inline]
fn note_update(entry: &mut Entry, id: Option<u32>)
    ensures { entry.new ≡ record entry.old { last = id_after entry.old.last id; updated = true } }
{
    entry.last = id_after(entry.last, id);
    entry.updated = true;
}
