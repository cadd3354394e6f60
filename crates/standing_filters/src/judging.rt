//! One filter and one key.

ghost use Rattle.std.specs.Prelude.{◌≡◌, ◌↔◌, ℕ, ◌+◌, ◌≤◌, IsTrue, false, length, nat_lt};
ghost use Rattle.std.specs.Prelude.{MatchOption};
ghost use Rattle.crossing.specs.First.{IsFlatSoon};
ghost use Rattle.crossing.specs.Parts.{AreFlatSoon, all_hold, part_holds};
ghost use Rattle.crossing.specs.Shown.{measured};
ghost use Rattle.agg_types.specs.Op.{op_holds};
ghost use Rattle.std.specs.List.{list_all};
ghost use Rattle.agg_types.specs.declared.limits.TheConstants.{MOST_CONDS};
ghost use Rattle.standing_filters.specs.Verdicts.{IsVerdict, Foretells, meets_at, out};

use agg_types::{Cond, Filter, Key, Op};
use crossing::{Falls, Measured, Meter, Of, Part, Values, next_change_from};

/// What is known of a filter and a key at a moment.
#[derive(Clone, Copy, Debug, PartialEq, Eq)]
pub struct Verdict {
    /// Whether the filter holds the key.
    pub holds: bool,
    /// The next moment, in ms, at which that changes, if only the clock goes on; none where it
    /// never does.
    pub next: Option<u64>,
}

/// The verdict of a key that a filter doesn't hold, and never will by the clock alone.
pub(crate) const OUT: Verdict = Verdict {
    holds: false,
    next: None,
};

impl Verdict {
    /// Whether the filter doesn't hold the key, and never will by the clock alone.
    pub fn is_out(self) -> bool
        ensures { IsTrue result ↔ (self ≡ out) }
    {
        !self.holds && self.next.is_none()
    }
}

/// Judges a key at a moment, in ms. Reads at most 505 values where they stay from 2^33 ms on, and
/// one of each condition up to the first that fails for good. Reads none where the most that the
/// key is ever worth can't meet a condition. Takes no memory.
pub fn judge<V: Values>(
    filter: &Filter,
    key: &Key,
    values: &V,
    now: u64,
    meter: &mut Meter,
) -> Verdict
    requires few { length filter.now.conds ≤ MOST_CONDS }
    ensures verdict { IsVerdict (V.summed values.now) (V.living values.now) filter.now now
        key.now result }
    ensures counted { IsFlatSoon now (V.flat values.now filter.now.table key.now)
        → meter.new.evals ≤ meter.old.evals + 505 }
    ensures dead { V.living values.now filter.now.table key.now now ≡ 0 → result ≡ out }
{
    let conds = filter.conds.as_slice();
    if never_met(conds, filter.table, key, values) {
        return OUT;
    }
    judge_by(conds, filter.table, key, values, now, meter)
}

// Whether some condition fails at every moment, by the most that a key is ever worth.
fn never_met<V: Values>(conds: &[Cond], table: usize, key: &Key, values: &V) -> bool
    ensures { IsTrue result → (t : ℕ) → list_all
        (λ cond. op_holds cond.op (V.summed values.now table key.now cond.col t) cond.bound)
        conds.now ≡ false }
{
    match conds {
        [] => false,
        [cond, rest @ ..] => {
            fails_always(cond, table, key, values) || never_met(rest, table, key, values)
        }
    }
}

// Whether a condition fails at every moment, by the most that a key is ever worth.
fn fails_always<V: Values>(cond: &Cond, table: usize, key: &Key, values: &V) -> bool
    ensures { IsTrue result → (t : ℕ) → op_holds cond.now.op
        (V.summed values.now table key.now cond.now.col t) cond.now.bound ≡ false }
{
    match values.most(table, key, cond.col) {
        None => false,
        Some(most) => fails_for_good(cond.op, most, cond.bound),
    }
}

// Judges a key of a table by up to four conditions. That a row lives stands behind them, since most
// keys that aren't held fail the conditions.
fn judge_by<V: Values>(
    conds: &[Cond],
    table: usize,
    key: &Key,
    values: &V,
    now: u64,
    meter: &mut Meter,
) -> Verdict
    requires few { length conds.now ≤ MOST_CONDS }
    ensures told { Foretells (λ t. meets_at (V.summed values.now) (V.living values.now) table
        conds.now key.now t) now result }
    ensures counted { IsFlatSoon now (V.flat values.now table key.now)
        → meter.new.evals ≤ meter.old.evals + 505 }
{
    let live = live_part(table, key, values);
    match conds {
        [a] => {
            let a = part_of(a, table, key, values);
            tell(&[a, live], now, meter)
        }
        [a, b] => {
            let a = part_of(a, table, key, values);
            let b = part_of(b, table, key, values);
            tell(&[a, b, live], now, meter)
        }
        [a, b, c] => {
            let a = part_of(a, table, key, values);
            let b = part_of(b, table, key, values);
            let c = part_of(c, table, key, values);
            tell(&[a, b, c, live], now, meter)
        }
        [a, b, c, d] => {
            let a = part_of(a, table, key, values);
            let b = part_of(b, table, key, values);
            let c = part_of(c, table, key, values);
            let d = part_of(d, table, key, values);
            tell(&[a, b, c, d, live], now, meter)
        }
        _ => tell(&[live], now, meter),
    }
}

// That some row of a key lives.
fn live_part<'a, V: Values>(table: usize, key: &'a Key, values: &'a V) -> Part<Of<'a, V>>
    ensures same { (t : ℕ) → op_holds result.op (measured
        (V.summed result.fall.values.now result.fall.table result.fall.key.now)
        (V.living result.fall.values.now result.fall.table result.fall.key.now)
        result.fall.measured t) result.bound
        ≡ nat_lt 0 (V.living values.now table key.now t) }
    ensures flat { V.flat result.fall.values.now result.fall.table result.fall.key.now
        ≡ V.flat values.now table key.now }
{
    Part {
        op: Op::Gt,
        bound: 0,
        fall: Of {
            values,
            table,
            key,
            measured: Measured::LiveRows,
        },
    }
}

// A condition on the values of a key.
fn part_of<'a, V: Values>(cond: &Cond, table: usize, key: &'a Key, values: &'a V) -> Part<Of<'a, V>>
    ensures same { (t : ℕ) → op_holds result.op (measured
        (V.summed result.fall.values.now result.fall.table result.fall.key.now)
        (V.living result.fall.values.now result.fall.table result.fall.key.now)
        result.fall.measured t) result.bound
        ≡ op_holds cond.now.op (V.summed values.now table key.now cond.now.col t) cond.now.bound }
    ensures flat { V.flat result.fall.values.now result.fall.table result.fall.key.now
        ≡ V.flat values.now table key.now }
{
    Part {
        op: cond.op,
        bound: cond.bound,
        fall: Of {
            values,
            table,
            key,
            measured: Measured::Column(cond.col),
        },
    }
}

// Whether conditions hold together, and when that changes.
fn tell<F: Falls>(parts: &[Part<F>], now: u64, meter: &mut Meter) -> Verdict
    ensures told { Foretells (all_hold F.value parts.now) now result }
    ensures counted { length parts.now ≤ 5 → AreFlatSoon F.flat now parts.now
        → meter.new.evals ≤ meter.old.evals + 505 }
{
    match hold_now(parts, now, meter) {
        None => OUT,
        Some(holds) => Verdict {
            holds,
            next: next_change_from(parts, now, holds, meter),
        },
    }
}

// Whether all conditions hold now; none where one of them never will from now on.
fn hold_now<F: Falls>(parts: &[Part<F>], now: u64, meter: &mut Meter) -> Option<bool>
    ensures value { MatchOption result
        ((t : ℕ) → now ≤ t → all_hold F.value parts.now t ≡ false)
        (λ holds. holds ≡ all_hold F.value parts.now now) }
    ensures counted { meter.new.evals ≤ meter.old.evals + length parts.now }
{
    match parts {
        [] => Some(true),
        [part, rest @ ..] => match holds_now(part, now, meter) {
            None => None,
            Some(false) => Some(false),
            Some(true) => hold_now(rest, now, meter),
        },
    }
}

// The same of one condition. A lower bound that isn't met never will be.
fn holds_now<F: Falls>(part: &Part<F>, now: u64, meter: &mut Meter) -> Option<bool>
    ensures value { MatchOption result
        ((t : ℕ) → now ≤ t → part_holds F.value part.now t ≡ false)
        (λ holds. holds ≡ part_holds F.value part.now now) }
    ensures counted { meter.new.evals ≤ meter.old.evals + 1 }
{
    match part.op {
        Op::Gt | Op::Ge => {
            if part.holds(now, meter) {
                Some(true)
            } else {
                None
            }
        }
        Op::Lt | Op::Le | Op::Ne => Some(part.holds(now, meter)),
        Op::Eq => {
            let value = meter.read(&part.fall, now);
            if fails_for_good(part.op, value, part.bound) {
                return None;
            }
            Some(part.op.holds(value, part.bound))
        }
    }
}

/// Whether a comparison by `gt`, `ge` or `eq` fails for this value and all below it. Of the others
/// it says that of none.
///
/// Who keeps at hand the most that values are ever worth asks this first, and so reads none of them
/// where it settles the answer.
pub fn fails_for_good(op: Op, value: u128, bound: u64) -> bool
    ensures { IsTrue result → (lower : ℕ) → lower ≤ value → op_holds op lower bound ≡ false }
{
    match op {
        Op::Gt => value <= u128::from(bound),
        Op::Ge | Op::Eq => value < u128::from(bound),
        Op::Lt | Op::Le | Op::Ne => false,
    }
}
