//! The judging of a key whose rows may have changed.

ghost use Rattle.std.specs.Prelude.{◌≡◌, ◌+◌, ◌*◌, ◌≤◌, IfSome, IsTrue, true};
ghost use Rattle.agg_types.specs.Whats.{as_what};
ghost use Rattle.fleet_model.specs.Sound.{IsSound};
ghost use Rattle.fleet_model.specs.State.{State};
ghost use Rattle.fleet_model.specs.Values.{cols_of};
ghost use Rattle.screens.specs.Asked.{IsScreen};
ghost use Rattle.standing_filters.specs.Watched.{HaveNone, IsReady};
ghost use Rattle.book.specs.Flips.{TellsStepIfKnown};
ghost use Rattle.book.specs.Reads.{filters_at};
ghost use Rattle.book_machine.specs.Turns.{IsLentInto};
ghost use Rattle.book.specs.Screened.{MeetsNone};
ghost use Rattle.book_machine.specs.Uses.{IsUseOf, has_filter};
ghost use Rattle.book.specs.Verdicts.{AreHeld, ChangesKey, Follows, HasRoomFor};

use crate::one_key::OneKey;
use crate::verdicts::Verdicts;
use agg_types::{Key, LentWhat};
use book_machine::{Machine, TableUse, has_filter};
use crossing::Meter;
use peer_rows::Spot;
use screens::Screens;
use standing_filters::Flips;

impl Verdicts {
    /// The rows of a key may have changed: the filters of its table judge it, for which there is
    /// room.
    pub(crate) fn touch(
        &mut self,
        machine: &Machine,
        table: usize,
        key: &Key,
        spot: Option<Spot>,
        meter: &mut Meter,
        flips: &mut Flips,
    )
        requires sound { IsSound machine.now }
        requires room { has_filter machine.now.config table ≡ true
            → IsReady table key.now self.old.standing }
        ensures held { (state : State) → ChangesKey table key.now state machine.now
            → AreHeld state self.old.standing → AreHeld machine.now self.new.standing }
        ensures few { (state : State) → AreHeld state self.old.standing
            → meter.new.evals ≤ meter.old.evals + 505 * filters_at state table }
        ensures flips { (state : State) → IsSound state
            → ChangesKey table key.now state machine.now → AreHeld state self.old.standing
            → TellsStepIfKnown state machine.now flips.old flips.new }
    {
        if !has_filter(machine.config.filters.as_slice(), table) {
            return;
        }
        self.judge(machine, table, key, spot, meter, flips);
    }

    /// An update was put, of a table on which this stands and for whose judgement there is room:
    /// where no filter does, nothing is judged.
    #[inline]
    pub(crate) fn follow_update(
        &mut self,
        machine: &Machine,
        table_use: &TableUse,
        what: LentWhat<'_>,
        spot: Option<Spot>,
        flips: &mut Flips,
    )
        requires sound { IsSound machine.now }
        requires found { IsUseOf machine.now.config table_use.now }
        requires lent { IsLentInto table_use.now.table what }
        requires room { HasRoomFor (as_what what) machine.now.config self.old.standing }
        ensures held { (state : State) → Follows (as_what what.entry) state machine.now
            → AreHeld state self.old.standing → AreHeld machine.now self.new.standing }
        ensures flips { (state : State) → IsSound state
            → Follows (as_what what.entry) state machine.now → AreHeld state self.old.standing
            → TellsStepIfKnown state machine.now flips.old flips.new }
    {
        if !table_use.is_judged {
            return;
        }
        let LentWhat::Put { table, key, .. } = what else {
            return;
        };
        if self.passes(machine, &table_use.screens, table, key, spot) {
            return;
        }
        let mut meter = Meter::new();
        self.judge(machine, table, key, spot, &mut meter, flips);
    }

    // Whether an update of a key leaves all verdicts as they are: no filter has one on it, and its
    // rows are worth less than the filters of its table ask.
    #[inline(always)]
    fn passes(
        &self,
        machine: &Machine,
        screens: &Option<Screens>,
        table: usize,
        key: &Key,
        spot: Option<Spot>,
    ) -> bool
        requires { IfSome screens.now (IsScreen (cols_of machine.now.config.tables table)
            machine.now.config.filters table) }
        ensures unheld { IsTrue result → HaveNone key.now self.now.standing.filters }
        ensures unmet { IsTrue result → MeetsNone machine.now table key.now }
    {
        let Some(screens) = screens else {
            return false;
        };
        if self.standing.may_hold(key) {
            return false;
        }
        match machine.rows.of_key_at(spot, table, key) {
            None => false,
            Some(rows) => screens.stop(&rows),
        }
    }

    // What `touch` does where a filter is of the table.
    fn judge(
        &mut self,
        machine: &Machine,
        table: usize,
        key: &Key,
        spot: Option<Spot>,
        meter: &mut Meter,
        flips: &mut Flips,
    )
        requires sound { IsSound machine.now }
        requires room { IsReady table key.now self.old.standing }
        ensures held { (state : State) → ChangesKey table key.now state machine.now
            → AreHeld state self.old.standing → AreHeld machine.now self.new.standing }
        ensures few { (state : State) → AreHeld state self.old.standing
            → meter.new.evals ≤ meter.old.evals + 505 * filters_at state table }
        ensures flips { (state : State) → IsSound state
            → ChangesKey table key.now state machine.now → AreHeld state self.old.standing
            → TellsStepIfKnown state machine.now flips.old flips.new }
    {
        standing_filters::laws::touch_keeps_verdicts();
        let values = OneKey::new(machine, spot, table, key);
        let hint = spot.map(Spot::place);
        let now = machine.moment;
        let touched = self
            .standing
            .touch_near(hint, table, key, &values, now, meter, flips);
        let Ok(()) = touched else {
            unreachable!();
        };
    }
}
