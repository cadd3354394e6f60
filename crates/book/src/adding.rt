//! The verdicts of a filter that is added, on all keys of its table: one walk of the rows as they
//! lie, in which each key is judged by the rows at hand.

ghost use Rattle.std.specs.Prelude.{◌≡◌, ◌≤◌, ◌+◌, ◌*◌, length, IfOk, OnOk, Some};
ghost use Rattle.agg_types.specs.declared.limits.TheConstants.{MOST_CONDS};
ghost use Rattle.fleet_model.specs.Answers.{keys_of};
ghost use Rattle.fleet_model.specs.Sound.{IsSound};
ghost use Rattle.standing_filters.specs.Verdicts.{out};
ghost use Rattle.standing_filters.specs.Watched.{IsTouched, verdict_at};
ghost use Rattle.book.specs.Ahead.{AreAhead};
ghost use Rattle.book.specs.Verdicts.{IsJudged, living_in, sums_in};
ghost use Rattle.book_rows.specs.Store.{AreRowsOf};

use crate::one_key::OneKey;
use agg_types::{Filter, Key, NoMemory};
use book_machine::Machine;
use crossing::Meter;
use peer_rows::{EachKey, OfKey};
use standing_filters::{Adding, Standing};

/// A filter that is to be added, with its verdicts on all keys of its table.
pub(crate) fn judged(
    standing: &Standing,
    machine: &Machine,
    filter: &Filter,
    meter: &mut Meter,
) -> Result<Adding, NoMemory>
    requires sound { IsSound machine.now }
    requires few { length filter.now.conds ≤ MOST_CONDS }
    ensures filter { IfOk result (λ adding. adding.filter ≡ filter.now) }
    ensures judged { IfOk result (λ adding. IsJudged machine.now adding) }
    ensures few { meter.new.evals ≤ meter.old.evals
        + 505 * length (keys_of machine.now filter.now.table) }
{
    standing_filters::laws::adding_begins();
    let mut adding = standing.begin(filter, machine.used(filter.table))?;
    match machine.rows.each_key(filter.table) {
        None => Ok(adding),
        Some(walk) => {
            judge_each(&mut adding, machine, filter.table, walk, meter)?;
            Ok(adding)
        }
    }
}

// Judges the keys of a walk, one after the other.
fn judge_each(
    adding: &mut Adding,
    machine: &Machine,
    table: usize,
    walk: EachKey<'_>,
    meter: &mut Meter,
) -> Result<(), NoMemory>
    requires sound { IsSound machine.now }
    requires table { adding.old.filter.table ≡ table }
    requires ahead { AreAhead machine.now table walk adding.old }
    ensures filter { adding.new.filter ≡ adding.old.filter }
    ensures judged { OnOk result (IsJudged machine.now adding.new) }
    ensures few { meter.new.evals ≤ meter.old.evals + 505 * length walk.entry }
{
    standing_filters::laws::adding_goes_on();
    for (key, rows) in walk {
        judge_one(adding, machine, table, key, rows, meter)?;
    }
    Ok(())
}

// Judges a key by its rows.
fn judge_one(
    adding: &mut Adding,
    machine: &Machine,
    table: usize,
    key: &Key,
    rows: OfKey<'_>,
    meter: &mut Meter,
) -> Result<(), NoMemory>
    requires sound { IsSound machine.now }
    requires table { adding.old.filter.table ≡ table }
    requires rows { AreRowsOf machine.now.rows table key.now (Some rows) }
    ensures filter { adding.new.filter ≡ adding.old.filter }
    ensures touched { verdict_at adding.old.kept key.now ≡ out → OnOk result
        (IsTouched (sums_in machine.now) (living_in machine.now) table key.now machine.now.moment
        adding.old adding.new) }
    ensures few { meter.new.evals ≤ meter.old.evals + 505 }
{
    let values = OneKey::of_rows(machine, table, key, rows);
    adding.judge(key, &values, machine.moment, meter)
}
