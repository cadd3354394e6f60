//! Keys that have no row any more, forgotten by the filters of their table. No value is read.

ghost use Rattle.std.specs.Prelude.{◌≡◌, ◌+◌, ◌<◌, ◌^◌, ℕ, List, true, false, length, map};
ghost use Rattle.std.specs.Prelude.{if◌then◌else◌};
ghost use Rattle.standing_filters.specs.Flips.{TellsAt, TellsFrom, holding};
ghost use Rattle.standing_filters.specs.Plans.{AreWatches, IsWatch, kept_by, view_of_watch};
ghost use Rattle.standing_filters.specs.Verdicts.{out};
ghost use Rattle.standing_filters.specs.Watched.{AreForgotten, is_among, verdict_at};

use crate::flips::Flips;
use crate::watch::Watch;
use agg_types::Key;

/// Keeps no verdict on keys of a table, by each of its filters, and notes which of them were held.
/// The first filter stands at a place. Takes no memory but for flips.
pub(crate) fn forget_each(
    watches: &mut [Watch],
    at: usize,
    table: usize,
    keys: &[Key],
    flips: &mut Flips,
)
    requires watches { AreWatches watches.old }
    requires few { at + length watches.old < 2 ^ 64 }
    ensures stay { AreWatches watches.new }
    ensures forgotten { AreForgotten table (is_among keys.now) (map view_of_watch watches.old)
        (map view_of_watch watches.new) }
    ensures flips { flips.new.lost ≡ false → TellsFrom at
        (holding (map view_of_watch watches.old)) (holding (map view_of_watch watches.new))
        flips.old flips.new }
{
    let Some((first, rest)) = watches.split_first_mut() else {
        return;
    };
    forget_each(rest, at + 1, table, keys, flips);
    if !first.is_of(table) {
        return;
    }
    forget_keys(first, at, keys, flips);
}

// The same of one filter, which is one of the keys' table.
fn forget_keys(watch: &mut Watch, at: usize, keys: &[Key], flips: &mut Flips)
    requires watch { IsWatch watch.old }
    ensures stay { IsWatch watch.new }
    ensures filter { watch.new.filter ≡ watch.old.filter }
    ensures kept { (key : List ℕ) → verdict_at (kept_by watch.new) key
        ≡ (if is_among keys.now key then out else verdict_at (kept_by watch.old) key) }
    ensures flips { flips.new.lost ≡ false → TellsAt at
        (λ key. (verdict_at (kept_by watch.old) key).holds)
        (λ key. (verdict_at (kept_by watch.new) key).holds) flips.old flips.new }
{
    for key in keys {
        let held = watch.forget(None, key);
        flips.note(at, key, held, false);
    }
}

/// Keeps no verdict on any key of a table, by each of its filters. Takes no memory.
pub(crate) fn clear_each(watches: &mut [Watch], table: usize)
    requires watches { AreWatches watches.old }
    ensures stay { AreWatches watches.new }
    ensures forgotten { AreForgotten table (λ key. true) (map view_of_watch watches.old)
        (map view_of_watch watches.new) }
{
    let Some((first, rest)) = watches.split_first_mut() else {
        return;
    };
    clear_each(rest, table);
    if !first.is_of(table) {
        return;
    }
    first.clear();
}
