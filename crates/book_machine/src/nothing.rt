//! When the rows of a key come to nothing in a column, told by one pass over them.

ghost use Rattle.std.specs.Prelude.{◌≡◌, ◌<◌, ◌≤◌, ◌^◌, ℕ, List, length, IfSome, Some, nat_lt};
ghost use Rattle.std.specs.Prelude.{slice_get};
ghost use Rattle.agg_types.specs.declared.column.Col.{Col as ColName};
ghost use Rattle.crossing.specs.First.{IsDropAt};
ghost use Rattle.period_rate.specs.Rate.{elapsed_at};
ghost use Rattle.fleet_model.specs.Keys.{row_worth};
ghost use Rattle.fleet_model.specs.Moments.{is_live};
ghost use Rattle.book_machine.specs.Foreseen.{worth_within};
ghost use Rattle.book_rows.specs.Placed.{found_in};
ghost use Rattle.book_rows.specs.Shown.{as_arrival, rows_worth};
ghost use Rattle.book_rows.specs.Store.{IfFound};

use crate::likely::Falling;
use agg_types::Col;
use book_rows::values::{found_in, held_worth};
use peer_rows::{Held, OfKey, Row};
use period_rate::Rate;

/// The first moment above `from` at which the rows of a key that were found are worth less than a
/// bound in a column, which they aren't at `from`. It is told where the bound is 1, as far as it
/// can be.
pub fn found_drop(
    rows: Option<&OfKey<'_>>,
    cols: &[(Col, u32)],
    col: Col,
    from: u64,
    bound: u128,
) -> Option<u64>
    requires { IfSome rows (λ rows. length rows.now < 2 ^ 64) }
    ensures { IfFound rows.entry
        (λ own. IfSome result (IsDropAt from (worth_within cols.now own col) bound)) }
{
    match rows {
        Some(rows) if bound == 1 => nothing_from(rows, cols, col, from),
        _ => None,
    }
}

// From when on rows of one key are worth nothing in a column, as far as it can be told.
fn nothing_from(rows: &OfKey<'_>, cols: &[(Col, u32)], col: Col, from: u64) -> Option<u64>
    requires { length rows.now < 2 ^ 64 }
    ensures { IfSome result (IsDropAt from (λ t. rows_worth cols.now col t rows.now) 1) }
{
    let (place, period) = found_in(cols, col)?;
    let (known, at) = last_of(rows.duplicate(), place, period)?;
    let (last, held) = known?;
    if at <= from || held_worth(period, at - 1, last, held) < 1 {
        return None;
    }
    Some(at)
}

// Of rows of one key one that is worth something until a moment, as is likely, with what it holds
// in that place, and that moment: from then on none is worth anything.
fn last_of<'a>(rows: OfKey<'a>, place: usize, period: u32) -> Option<(Option<(&'a Row, Held)>, u64)>
    ensures one { (cols : List (ColName × ℕ)) (col : ColName) (t : ℕ) → IfSome result
        (λ last. IfSome last.0 (λ own. row_worth cols col t (as_arrival own.0.now)
        ≤ rows_worth cols col t rows.entry)) }
    ensures held { IfSome result (λ last. IfSome last.0
        (λ own. slice_get own.0.now.cells place ≡ Some own.1)) }
    ensures over { (cols : List (ColName × ℕ)) (col : ColName) (t : ℕ)
        → found_in cols col ≡ Some (place, period) → IfSome result
        (λ last. last.1 ≤ t → rows_worth cols col t rows.entry ≡ 0) }
{
    let mut last = None;
    let mut latest = 0u64;
    for (_, row) in rows {
        let (over, falling, held) = over_from(place, period, row)?;
        if over > latest {
            let at = falling.below_from(period, 1).max(latest);
            if held_worth(period, at, row, held) > 0 {
                return None;
            }
            if at > latest {
                latest = at;
                last = Some((row, held));
            }
        }
    }
    Some((last, latest))
}

// From when on a row is surely worth nothing, if it holds a rate in that place: it has ended, or
// the rate's two periods are over. With the rate as it falls until then, and as the row holds it.
fn over_from(place: usize, period: u32, row: &Row) -> Option<(u64, Falling, Held)>
    ensures held { IfSome result (λ over. slice_get row.now.cells place ≡ Some over.2) }
    ensures over { (cols : List (ColName × ℕ)) (col : ColName) (t : ℕ)
        → found_in cols col ≡ Some (place, period) → IfSome result
        (λ over. over.0 ≤ t → row_worth cols col t (as_arrival row.now) ≡ 0) }
{
    match row.get(place) {
        Some(Held::Rate(rate)) => {
            let elapsed = elapsed_at(rate, row.arrived());
            let both = 2 * u64::from(period) + 1;
            let over = row.arrived().checked_add(both)?.saturating_sub(elapsed);
            let held = Held::Rate(rate);
            match end_of(row) {
                None => Some((over, falling(rate, over, u64::MAX), held)),
                Some(end) => Some((over.min(end), falling(rate, over, end), held)),
            }
        }
        _ => None,
    }
}

// From when on a row has ended, if it ends.
fn end_of(row: &Row) -> Option<u64>
    ensures { (t : ℕ)
        → IfSome result (λ end. is_live t (as_arrival row.now) ≡ nat_lt t end) }
{
    match row.ends() {
        None => None,
        Some(ends) => Some(ends.max(row.arrived())),
    }
}

// A rate as it falls until its periods are over, of a row that ends.
fn falling(rate: Rate, over: u64, ends: u64) -> Falling {
    let [_, _, _, cur, prev] = rate.to_words();
    Falling {
        last: over.saturating_sub(1),
        ends,
        cur: u64::from(cur),
        prev: u64::from(prev),
    }
}

// How long a rate's period had lasted at a moment.
fn elapsed_at(rate: Rate, arrived: u64) -> u64
    ensures { result ≡ elapsed_at rate arrived }
{
    let [own, _, _, _, _] = rate.to_words();
    let over = 2 * u64::from(own) + 1;
    over.saturating_sub(rate.zero_at().saturating_sub(arrived))
}
