//! What the verdicts need for an event, made before anything changes: room for the judgement of an
//! update's key, and the verdicts of a filter that is added. Where memory for it is refused, so is
//! the event.

ghost use Rattle.std.specs.Prelude.{◌≡◌, ◌+◌, ◌*◌, ◌≤◌, length, IsOk, OnErr, OnOk, true};
ghost use Rattle.agg_types.specs.Whats.{as_what};
ghost use Rattle.agg_types.specs.declared.event.What.{What as WhatName};
ghost use Rattle.agg_types.specs.declared.event.What.TheVariants.{Leave};
ghost use Rattle.agg_types.specs.declared.limits.TheConstants.{MOST_CONDS};
ghost use Rattle.fleet_model.specs.Answers.{keys_of};
ghost use Rattle.fleet_model.specs.Sound.{IsSound};
ghost use Rattle.standing_filters.specs.Watched.{IsReady};
ghost use Rattle.book_machine.specs.Due.{FitsPlace};
ghost use Rattle.book.specs.Reads.{IsFewBefore, pairs_from};
ghost use Rattle.book_machine.specs.Turns.{IsLentInto};
ghost use Rattle.book_machine.specs.Uses.{IsUseOf, has_filter};
ghost use Rattle.book.specs.Verdicts.{AreHeld, AreHeldFor, HasRoomFor, IsOneMore, with_filter};

use crate::adding::judged;
use crate::verdicts::{Verdicts, drop_at};
use agg_types::{Filter, Key, LentWhat, NoMemory, What};
use book_machine::{Machine, TableUse, has_filter};
use crossing::Meter;
use standing_filters::Standing;

impl Verdicts {
    /// An event that counts is to be applied to the machine: makes the room that its judgement
    /// takes, and judges all keys of a filter that it adds. After `NoMemory` no verdict has
    /// changed. A `Leave` needs nothing.
    pub(crate) fn prepare(
        &mut self,
        machine: &Machine,
        what: LentWhat<'_>,
        meter: &mut Meter,
    ) -> Result<(), NoMemory>
        requires sound { IsSound machine.now }
        requires fits { FitsPlace machine.now.config (as_what what) }
        requires fresh { meter.old.evals ≡ 0 }
        ensures held { OnOk result (AreHeld machine.now self.old.standing
            → AreHeldFor (as_what what.entry) machine.now self.new.standing) }
        ensures room { OnOk result
            (HasRoomFor (as_what what.entry) machine.now.config self.new.standing) }
        ensures few { OnOk result
            (IsFewBefore machine.now (as_what what.entry) meter.new.evals) }
        ensures err { OnErr result (self.new.standing.filters ≡ self.old.standing.filters) }
        ensures leaving { as_what what.entry ≡ Leave → IsOk result }
    {
        match what {
            LentWhat::Put { table, key, .. } => self.make_room(machine, table, key),
            LentWhat::Other(what) => self.prepare_other(machine, what, meter),
        }
    }

    // The same for one that lies elsewhere as it is.
    fn prepare_other(
        &mut self,
        machine: &Machine,
        what: &What,
        meter: &mut Meter,
    ) -> Result<(), NoMemory>
        requires sound { IsSound machine.now }
        requires fits { FitsPlace machine.now.config what.now }
        requires fresh { meter.old.evals ≡ 0 }
        ensures held { OnOk result (AreHeld machine.now self.old.standing
            → AreHeldFor what.now machine.now self.new.standing) }
        ensures room { OnOk result (HasRoomFor what.now machine.now.config self.new.standing) }
        ensures few { OnOk result (IsFewBefore machine.now what.now meter.new.evals) }
        ensures err { OnErr result (self.new.standing.filters ≡ self.old.standing.filters) }
        ensures leaving { what.now ≡ Leave → IsOk result }
    {
        match what {
            What::Put { table, key, .. } => self.make_room(machine, *table, key),
            What::AddFilter(filter) => self.add(machine, filter, meter),
            What::Clear { .. } => Ok(()),
            What::DropFilter(_) => Ok(()),
            What::Moment(_) => Ok(()),
            What::Sit => Ok(()),
            What::Open(_) => Ok(()),
            What::Leave => Ok(()),
        }
    }

    /// An update is to be put, of a table on which this stands: where a filter does, makes the room
    /// that the judgement of its key takes. No verdict has changed.
    #[inline]
    pub(crate) fn prepare_update(
        &mut self,
        machine: &Machine,
        table_use: &TableUse,
        what: LentWhat<'_>,
    ) -> Result<(), NoMemory>
        requires found { IsUseOf machine.now.config table_use.now }
        requires lent { IsLentInto table_use.now.table what }
        ensures filters { self.new.standing.filters ≡ self.old.standing.filters }
        ensures room { OnOk result
            (HasRoomFor (as_what what.entry) machine.now.config self.new.standing) }
    {
        if !table_use.is_judged {
            return Ok(());
        }
        let LentWhat::Put { table, key, .. } = what else {
            return Ok(());
        };
        self.room_for(machine, table, key)
    }

    // Makes the room to judge a key, where a filter is of its table. No verdict has changed.
    fn make_room(&mut self, machine: &Machine, table: usize, key: &Key) -> Result<(), NoMemory>
        ensures filters { self.new.standing.filters ≡ self.old.standing.filters }
        ensures room { OnOk result (has_filter machine.now.config table ≡ true
            → IsReady table key.now self.new.standing) }
    {
        if !has_filter(machine.config.filters.as_slice(), table) {
            return Ok(());
        }
        self.room_for(machine, table, key)
    }

    // What `make_room` does where a filter is of the table: it may have one key more. Mostly there
    // is room.
    #[inline]
    fn room_for(&mut self, machine: &Machine, table: usize, key: &Key) -> Result<(), NoMemory>
        ensures filters { self.new.standing.filters ≡ self.old.standing.filters }
        ensures room { OnOk result (IsReady table key.now self.new.standing) }
    {
        if self.standing.is_ready(table, key) {
            return Ok(());
        }
        let keys = machine.used(table).saturating_add(1);
        self.standing.prepare(table, key, keys)
    }

    // A filter is to be added: if it will be taken, it stands behind the others, with its verdicts.
    fn add(&mut self, machine: &Machine, filter: &Filter, meter: &mut Meter) -> Result<(), NoMemory>
        requires sound { IsSound machine.now }
        requires few { length filter.now.conds ≤ MOST_CONDS }
        requires fresh { meter.old.evals ≡ 0 }
        ensures held { OnOk result (AreHeld machine.now self.old.standing
            → AreHeld (with_filter machine.now filter.now) self.new.standing) }
        ensures few { OnOk result (meter.new.evals
            ≤ 505 * pairs_from (with_filter machine.now filter.now)
            (length machine.now.config.filters)) }
        ensures err { OnErr result (self.new.standing.filters ≡ self.old.standing.filters) }
    {
        if !machine.takes(filter) {
            return Ok(());
        }
        add_one(&mut self.standing, machine, filter, meter)
    }

    /// An event for which the verdicts were prepared was refused: those of a filter that it adds
    /// are taken away again.
    pub(crate) fn go_back(&mut self, machine: &Machine)
        ensures { (what : WhatName) → AreHeldFor what machine.now self.old.standing
            → AreHeld machine.now self.new.standing }
    {
        drop_at(&mut self.standing, machine.config.filters.len());
    }
}

// Adds a filter behind the others, with its verdicts on all keys of its table.
fn add_one(
    standing: &mut Standing,
    machine: &Machine,
    filter: &Filter,
    meter: &mut Meter,
) -> Result<(), NoMemory>
    requires sound { IsSound machine.now }
    requires few { length filter.now.conds ≤ MOST_CONDS }
    ensures added { OnOk result (IsOneMore machine.now filter.now standing.old.filters
        standing.new.filters) }
    ensures few { meter.new.evals ≤ meter.old.evals
        + 505 * length (keys_of machine.now filter.now.table) }
    ensures err { OnErr result (standing.new.filters ≡ standing.old.filters) }
{
    let adding = judged(standing, machine, filter, meter)?;
    standing.add(adding)
}
