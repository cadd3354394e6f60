//! The clock goes on: the keys whose changes have come are judged by each filter.

ghost use Rattle.std.specs.Prelude.{◌≡◌, ◌+◌, ◌<◌, ◌^◌, ℕ, List, false, length, map};
ghost use Rattle.std.specs.List.{AllByRecursion};
ghost use Rattle.crossing.specs.First.{IsFlatSoon};
ghost use Rattle.standing_filters.specs.Flips.{TellsFrom, holding};
ghost use Rattle.standing_filters.specs.Plans.{AreWatches, view_of_watch};
ghost use Rattle.standing_filters.specs.Turns.{AreReadFor, AreTurned, IsQuiet};

use crate::flips::Flips;
use crate::watch::Watch;
use crossing::{Meter, Values};

/// Judges, by each filter, the keys whose verdicts change up to a moment, and notes which come into
/// a set and which leave it. The first filter stands at a place. Takes no memory but for flips and
/// plans.
pub(crate) fn turn_each<V: Values>(
    watches: &mut [Watch],
    at: usize,
    values: &V,
    t: u64,
    meter: &mut Meter,
    flips: &mut Flips,
)
    requires watches { AreWatches watches.old }
    requires few { at + length watches.old < 2 ^ 64 }
    ensures stay { AreWatches watches.new }
    ensures turned { AreTurned (V.summed values.now) (V.living values.now) t
        (map view_of_watch watches.old) (map view_of_watch watches.new) }
    ensures quiet { AllByRecursion (IsQuiet t) (map view_of_watch watches.old)
        → meter.new.evals ≡ meter.old.evals }
    ensures counted { ((table : ℕ) (key : List ℕ) → IsFlatSoon t (V.flat values.now table key))
        → AreReadFor t (map view_of_watch watches.old) meter.old.evals meter.new.evals }
    ensures flips { flips.new.lost ≡ false → TellsFrom at
        (holding (map view_of_watch watches.old)) (holding (map view_of_watch watches.new))
        flips.old flips.new }
{
    let Some((first, rest)) = watches.split_first_mut() else {
        return;
    };
    turn_each(rest, at + 1, values, t, meter, flips);
    first.turn(values, t, meter, at, flips);
}
