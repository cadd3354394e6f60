//! What kept verdicts say of a filter's set.

ghost use Rattle.standing_filters.specs.Laws.{AddingBegins, AddingGoesOn, FirstChangeIsTheSets};
ghost use Rattle.standing_filters.specs.Laws.{ForgettingKeepsVerdicts, MomentKeepsVerdicts};
ghost use Rattle.standing_filters.specs.Laws.{TouchKeepsVerdicts};

/// Where every key has its verdict of now, the first change of a verdict is the first moment at
/// which the filter holds a key that it doesn't now, or the other way round.
pub fn first_change_is_the_sets()
    ensures { FirstChangeIsTheSets }
{}

/// Where every key had its verdict and the values of one key have changed since, every key has its
/// verdict again once that one is touched.
pub fn touch_keeps_verdicts()
    ensures { TouchKeepsVerdicts }
{}

/// Where every key had its verdict and some keys of a table have no live row any more, every key
/// has its verdict again once these are forgotten.
pub fn forgetting_keeps_verdicts()
    ensures { ForgettingKeepsVerdicts }
{}

/// Where every key had its verdict and the clock has gone on, those that were to change up to then
/// are judged. Then every key has its verdict again, though rows that have ended are gone.
pub fn moment_keeps_verdicts()
    ensures { MomentKeepsVerdicts }
{}

/// A filter that holds no key has its verdict on every key, but on those that have a live row.
pub fn adding_begins()
    ensures { AddingBegins }
{}

/// Where a filter has its verdict on every key but some, and judges one of these, it has its
/// verdict on that one too.
pub fn adding_goes_on()
    ensures { AddingGoesOn }
{}
