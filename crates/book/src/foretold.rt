//! One filter and one key: whether it holds it, and when the clock changes that.

ghost use Rattle.std.specs.Prelude.{◌≤◌, length};
ghost use Rattle.agg_types.specs.declared.limits.TheConstants.{MOST_CONDS};
ghost use Rattle.fleet_model.specs.Sound.{IsSound};
ghost use Rattle.book.specs.Foretold.{IsForetold};

use crate::one_key::OneKey;
use agg_types::{Filter, Key};
use book_machine::Machine;
use crossing::Meter;
use standing_filters::{Verdict, judge};

/// Judges a key by a filter, standing or not, by the rows that a machine has now: one search.
pub(crate) fn verdict(machine: &Machine, filter: &Filter, key: &Key) -> Verdict
    requires sound { IsSound machine.now }
    requires few { length filter.now.conds ≤ MOST_CONDS }
    ensures { IsForetold machine.now filter.now key.now result }
{
    let values = OneKey::new(machine, None, filter.table, key);
    let mut meter = Meter::new();
    judge(filter, key, &values, machine.moment, &mut meter)
}
