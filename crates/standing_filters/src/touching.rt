//! One key, judged by the filters of its table.

ghost use Rattle.std.specs.Prelude.{◌≡◌, ◌≤◌, ◌<◌, ◌+◌, ◌*◌, ◌^◌, ◌==◌, ◌⊎◌};
ghost use Rattle.std.specs.Prelude.{[], false, length, map};
ghost use Rattle.std.specs.Prelude.{IfOk, OnOk, ℕ};
ghost use Rattle.crossing.specs.First.{IsFlatSoon};
ghost use Rattle.standing_filters.specs.Flips.{TellsFrom, holding};
ghost use Rattle.standing_filters.specs.Plans.{AreWatches, view_of_watch};
ghost use Rattle.standing_filters.specs.Ready.{AreCopies, HaveRoom, IsRoomFor};
ghost use Rattle.standing_filters.specs.Watched.{AreTouched, filters_of};

use crate::flips::Flips;
use crate::watch::{AHEAD, Watch};
use agg_types::{Key, NoMemory};
use crossing::{Meter, Values};
use std::alloc::Global;

/// Room for judgements of keys of a table.
#[derive(Clone, Copy)]
pub(crate) struct Reserved {
    /// How many filters are of the table.
    pub(crate) filters: usize,
    /// For so many judgements there is room in each of them.
    pub(crate) sure: usize,
}

/// Makes room for a verdict in each filter of a table, and for so many in all. Answers for how many
/// filters, and for how many judgements there is room in each: one at least, and at most `AHEAD`.
/// After `NoMemory` no verdict has changed.
#[inline]
pub(crate) fn reserve_each(
    watches: &mut [Watch],
    table: usize,
    keys: usize,
) -> Result<Reserved, NoMemory>
    requires watches { AreWatches watches.old }
    requires few { length watches.old < 2 ^ 64 }
    ensures stay { AreWatches watches.new }
    ensures same { map view_of_watch watches.new ≡ map view_of_watch watches.old }
    ensures room { IfOk result (λ reserved. HaveRoom reserved.sure table watches.new) }
    ensures sure { IfOk result (λ reserved. 0 < reserved.sure) }
    ensures filters { IfOk result (λ reserved. reserved.filters
        ≡ filters_of table (map view_of_watch watches.old)) }
{
    let Some((first, rest)) = watches.split_first_mut() else {
        return Ok(Reserved {
            filters: 0,
            sure: AHEAD,
        });
    };
    let others = reserve_each(rest, table, keys)?;
    if !first.is_of(table) {
        return Ok(others);
    }
    first.reserve(keys)?;
    Ok(Reserved {
        filters: others.filters + 1,
        sure: others.sure.min(first.room()),
    })
}

/// So many copies of a key, and at least one, in place of others.
#[inline]
pub(crate) fn make_copies(
    copies: &mut Vec<Key>,
    alloc: Global,
    key: &Key,
    count: usize,
) -> Result<(), NoMemory>
    ensures copies { OnOk result (AreCopies key.now count copies.new.items) }
    ensures some { OnOk result (0 < length copies.new.items) }
{
    let copy = key.duplicate(alloc)?;
    if count <= 1 && copies.len() == 1 {
        copies[0] = copy;
        return Ok(());
    }
    copies.clear();
    copies.push(copy)?;
    for _more in 1..count {
        copies.push(key.duplicate(alloc)?)?;
    }
    Ok(())
}

/// Judges a key by each filter of its table at a moment, and notes where it comes into a set or
/// leaves it. The first filter stands at a place. Each has room for a verdict, and there is a copy
/// of the key for it, which a short one doesn't need; a key that has no live row needs neither. The
/// room of each sinks by one at most. Takes no memory but for flips. A hint says in which place of
/// each filter's verdicts that on the key may lie; no answer depends on it.
pub(crate) fn touch_each<V: Values>(
    watches: &mut [Watch],
    at: usize,
    hint: Option<usize>,
    table: usize,
    key: &Key,
    copies: &mut Vec<Key>,
    values: &V,
    now: u64,
    meter: &mut Meter,
    flips: &mut Flips,
)
    requires watches { AreWatches watches.old }
    requires few { at + length watches.old < 2 ^ 64 }
    requires room { (V.living values.now table key.now now ≡ 0)
        ⊎ IsRoomFor table key.now copies.old.items watches.old }
    ensures stay { AreWatches watches.new }
    ensures touched { AreTouched (V.summed values.now) (V.living values.now) table key.now
        now (map view_of_watch watches.old) (map view_of_watch watches.new) }
    ensures counted { IsFlatSoon now (V.flat values.now table key.now)
        → meter.new.evals ≤ meter.old.evals
        + 505 * filters_of table (map view_of_watch watches.old) }
    ensures copies { (more : ℕ) → AreCopies key.now
        (more + filters_of table (map view_of_watch watches.old)) copies.old.items
        → AreCopies key.now more copies.new.items }
    ensures room_left { (count other : ℕ) → HaveRoom (count + 1) other watches.old
        → HaveRoom count other watches.new }
    ensures flips { flips.new.lost ≡ false → TellsFrom at
        (holding (map view_of_watch watches.old)) (holding (map view_of_watch watches.new))
        flips.old flips.new }
{
    let Some((first, rest)) = watches.split_first_mut() else {
        return;
    };
    touch_each(
        rest,
        at + 1,
        hint,
        table,
        key,
        copies,
        values,
        now,
        meter,
        flips,
    );
    if !first.is_of(table) {
        return;
    }
    let verdict = first.judge(key, values, now, meter);
    let held = first.change(hint, key, copies, verdict);
    flips.note(at, key, held, verdict.holds);
}
