ghost use Rattle.fleet_sums.specs.History.{StandingCanDrop, TotalsAreSums};

/// A law: each key's number of rows and its totals are those of the rows that still stand. It holds
/// after any list of rows added, of rows dropped that stood, and of rows replaced that stood.
pub fn totals_are_sums()
    ensures { TotalsAreSums }
{}

/// A law: after any such list each row that stands meets what `Sums::drop_row` and
/// `Sums::replace_row` ask of it. The rows that stand have a cell for each column of their table,
/// none of which counts 2^64.
pub fn standing_can_drop()
    ensures { StandingCanDrop }
{}
