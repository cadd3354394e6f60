//! The verdicts after a clear: those on the keys that it took, and no others.

ghost use Rattle.std.specs.Prelude.{◌≡◌};
ghost use Rattle.fleet_model.specs.Sound.{IsSound};
ghost use Rattle.fleet_model.specs.State.{State};
ghost use Rattle.standing_filters.specs.Flips.{TellsIfKnown, holding};
ghost use Rattle.standing_filters.specs.Watched.{AreForgotten};
ghost use Rattle.book.specs.Flips.{TellsStepIfKnown};
ghost use Rattle.book_machine.specs.Gone.{is_gone, without_keys};
ghost use Rattle.book.specs.Verdicts.{AreHeld, ChangesTable};

use crate::verdicts::Verdicts;
use book_machine::{Gone, Machine, has_filter};
use standing_filters::{Flips, Standing};

impl Verdicts {
    /// Keys of a table are gone: its filters hold them no more. Reads no value and takes no memory
    /// but for flips.
    pub(crate) fn forget(&mut self, machine: &Machine, table: usize, gone: &Gone, flips: &mut Flips)
        requires sound { IsSound machine.now }
        ensures held { (state : State) → ChangesTable table state machine.now
            → machine.now.rows ≡ without_keys table (is_gone gone.now) state.rows
            → AreHeld state self.old.standing → AreHeld machine.now self.new.standing }
        ensures flips { (state : State) → IsSound state → ChangesTable table state machine.now
            → machine.now.rows ≡ without_keys table (is_gone gone.now) state.rows
            → AreHeld state self.old.standing
            → TellsStepIfKnown state machine.now flips.old flips.new }
    {
        standing_filters::laws::forgetting_keeps_verdicts();
        if !has_filter(machine.config.filters.as_slice(), table) {
            return;
        }
        forget(&mut self.standing, table, gone, flips);
    }
}

// Takes the keys of a table that are gone out of the sets of its filters. Reads no value. What
// left the sets of a whole table isn't told, since that would take memory for each key.
fn forget(standing: &mut Standing, table: usize, gone: &Gone, flips: &mut Flips)
    ensures forgotten { AreForgotten table (is_gone gone.now) standing.old.filters
        standing.new.filters }
    ensures flips { TellsIfKnown (holding standing.old.filters) (holding standing.new.filters)
        flips.old flips.new }
{
    match gone {
        Gone::Nothing => {}
        Gone::Table => {
            flips.lose();
            standing.clear_table(table);
        }
        Gone::Keys(keys) => standing.forget(table, keys.as_slice(), flips),
    }
}
