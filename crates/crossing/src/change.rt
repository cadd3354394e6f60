ghost use Rattle.std.specs.Prelude.{◌≡◌, ◌⊎◌, ℕ, ◌+◌, ◌*◌, ◌<◌, ◌≤◌, suc, length, MatchBool};
ghost use Rattle.std.specs.Prelude.{IfSome, Option, None, Some, true, false};
ghost use Rattle.crossing.specs.First.{IsFirstFrom, IsFlatSoon};
ghost use Rattle.crossing.specs.Parts.{AnyTurnsAfter, AreFlatSoon, Differs, IsBy, IsOneOf};
ghost use Rattle.crossing.specs.Parts.{TurnsAfter, all_hold, part_holds};

use crate::first::{above_up_to, first_above, known_above};
use crate::{Falls, Meter};
use agg_types::Op;

/// A condition on a value that only falls: it is compared with the bound.
#[derive(Clone, Copy, Debug)]
pub struct Part<F> {
    pub op: Op,
    pub bound: u64,
    pub fall: F,
}

impl<F: Falls> Part<F> {
    /// Whether the condition holds at a moment, in ms, by one look at its value.
    pub fn holds(&self, t: u64, meter: &mut Meter) -> bool
        ensures value { result ≡ part_holds F.value self.now t }
        ensures counted { meter.new.evals ≤ meter.old.evals + 1 }
    {
        let bound = u128::from(self.bound);
        match self.op {
            Op::Gt => !meter.is_below(&self.fall, t, bound + 1),
            Op::Ge => !meter.is_below(&self.fall, t, bound),
            Op::Lt => meter.is_below(&self.fall, t, bound),
            Op::Le => meter.is_below(&self.fall, t, bound + 1),
            Op::Eq | Op::Ne => {
                let value = meter.read(&self.fall, t);
                self.op.holds(value, self.bound)
            }
        }
    }
}

/// The least moment above `now`, in ms, at which the conditions hold together and didn't at `now`,
/// or the other way round; none exactly where there is none. For up to five of them, on values that
/// stay from 2^33 ms on, it reads values at most 500 times.
pub fn next_change<F: Falls>(parts: &[Part<F>], now: u64, meter: &mut Meter) -> Option<u64>
    ensures next { IsFirstFrom (now + 1) (Differs F.value parts.now now) result }
    ensures counted { length parts.now ≤ 5 → AreFlatSoon F.flat now parts.now
        → meter.new.evals ≤ meter.old.evals + 500 }
{
    let held = hold_all(parts, now, meter);
    next_change_from(parts, now, held, meter)
}

/// What `next_change` answers, where it is known whether the conditions hold together at `now`.
/// Reads values at most 400 times where that one may read 500.
pub fn next_change_from<F: Falls>(
    parts: &[Part<F>],
    now: u64,
    held: bool,
    meter: &mut Meter,
) -> Option<u64>
    requires held { held ≡ all_hold F.value parts.now now }
    ensures next { IsFirstFrom (now + 1) (Differs F.value parts.now now) result }
    ensures counted { length parts.now ≤ 5 → AreFlatSoon F.flat now parts.now
        → meter.new.evals ≤ meter.old.evals + 400 }
{
    soonest(parts, parts, now, held, None, meter)
}

// Whether all conditions hold at a moment.
fn hold_all<F: Falls>(parts: &[Part<F>], t: u64, meter: &mut Meter) -> bool
    ensures value { result ≡ all_hold F.value parts.now t }
    ensures counted { meter.new.evals ≤ meter.old.evals + length parts.now }
{
    match parts {
        [] => true,
        [part, rest @ ..] => { part.holds(t, meter) && hold_all(rest, t, meter) }
    }
}

// Of a moment at which all conditions together differ from `now`, and the turns of these
// conditions, the least such moment.
fn soonest<F: Falls>(
    all: &[Part<F>],
    rest: &[Part<F>],
    now: u64,
    held: bool,
    found: Option<u64>,
    meter: &mut Meter,
) -> Option<u64>
    requires held { held ≡ all_hold F.value all.now now }
    requires among { (t : ℕ) → all_hold F.value all.now t ≡ true
        → all_hold F.value rest.now t ≡ true }
    requires found { IfSome found (λ t. (now < t) × Differs F.value all.now now t) }
    ensures differs { IfSome result (λ t. (now < t) × Differs F.value all.now now t) }
    ensures kept { (t : ℕ) → IsBy found t → IsBy result t }
    ensures covers { (d : ℕ) → now ≤ d → AnyTurnsAfter F.value d rest.now
        → Differs F.value all.now now (suc d) → IsBy result (suc d) }
    ensures counted { length all.now ≤ 5 → AreFlatSoon F.flat now rest.now
        → meter.new.evals ≤ meter.old.evals + 80 * length rest.now }
{
    match rest {
        [] => found,
        [part, rest @ ..] => {
            let (first, second, surely) = turns(part, now, held, found, meter);
            let found = sooner(all, now, held, found, (first, surely), meter);
            let found = sooner(all, now, held, found, (second, false), meter);
            soonest(all, rest, now, held, found, meter)
        }
    }
}

// The sooner of a moment that was found and another, if all conditions together differ there:
// surely, or as their values are looked at.
fn sooner<F: Falls>(
    all: &[Part<F>],
    now: u64,
    held: bool,
    found: Option<u64>,
    turn: (Option<u64>, bool),
    meter: &mut Meter,
) -> Option<u64>
    requires held { held ≡ all_hold F.value all.now now }
    requires found { IfSome found (λ t. (now < t) × Differs F.value all.now now t) }
    requires surely { turn.1 ≡ true → IfSome turn.0 (Differs F.value all.now now) }
    ensures differs { IfSome result (λ t. (now < t) × Differs F.value all.now now t) }
    ensures kept { (t : ℕ) → IsBy found t → IsBy result t }
    ensures turn { IfSome turn.0 (λ t. now < t → Differs F.value all.now now t → IsBy result t) }
    ensures counted { meter.new.evals ≤ meter.old.evals + length all.now }
{
    let (Some(t), surely) = turn else {
        return found;
    };
    if t <= now || is_by(found, t) {
        return found;
    }
    if !surely && hold_all(all, t, meter) == held {
        return found;
    }
    Some(t)
}

// Whether a moment was found, no later than another.
fn is_by(found: Option<u64>, t: u64) -> bool
    ensures { MatchBool result (IsBy found t) (IsBy found t → ⊥) }
{
    match found {
        None => false,
        Some(found) => found <= t,
    }
}

// The moments above `now` at which the truth of a condition may turn: there are no others before
// the moment that was found. Where all conditions hold, so does this one, and it may be told that
// it surely fails at the first of them.
fn turns<F: Falls>(
    part: &Part<F>,
    now: u64,
    held: bool,
    found: Option<u64>,
    meter: &mut Meter,
) -> (Option<u64>, Option<u64>, bool)
    requires held { held ≡ true → part_holds F.value part.now now ≡ true }
    ensures turns { (d : ℕ) → now ≤ d → TurnsAfter F.value d part.now
        → IsBy found (suc d) ⊎ IsOneOf (result.0, result.1) (suc d) }
    ensures surely { result.2 ≡ true → (held ≡ true)
        × IfSome result.0 (λ t. part_holds F.value part.now t ≡ false) }
    ensures counted { IsFlatSoon now (F.flat part.now.fall)
        → meter.new.evals ≤ meter.old.evals + 70 }
{
    let bound = u128::from(part.bound);
    match part.op {
        Op::Gt if held => {
            let first = drop_above(&part.fall, now, bound + 1, found, meter);
            (first, None, true)
        }
        Op::Ge if held => {
            let first = drop_above(&part.fall, now, bound, found, meter);
            (first, None, true)
        }
        _ => {
            let (first, second) = turns_of(part, now, found, meter);
            (first, second, false)
        }
    }
}

// The same where nothing is known of the condition.
fn turns_of<F: Falls>(
    part: &Part<F>,
    now: u64,
    found: Option<u64>,
    meter: &mut Meter,
) -> (Option<u64>, Option<u64>)
    ensures turns { (d : ℕ) → now ≤ d → TurnsAfter F.value d part.now
        → IsBy found (suc d) ⊎ IsOneOf result (suc d) }
    ensures counted { IsFlatSoon now (F.flat part.now.fall)
        → meter.new.evals ≤ meter.old.evals + 70 }
{
    let bound = u128::from(part.bound);
    match part.op {
        Op::Le | Op::Gt => (drop_of(&part.fall, now, bound + 1, found, meter), None),
        Op::Lt | Op::Ge => (drop_of(&part.fall, now, bound, found, meter), None),
        Op::Eq | Op::Ne => {
            let first = drop_of(&part.fall, now, bound + 1, found, meter);
            (first, drop_of(&part.fall, now, bound, found, meter))
        }
    }
}

// The moment at which a value comes to be below a bound, if it does so above `now` and before the
// moment that was found.
fn drop_of<F: Falls>(
    fall: &F,
    now: u64,
    bound: u128,
    found: Option<u64>,
    meter: &mut Meter,
) -> Option<u64>
    ensures drop { (d : ℕ) → now ≤ d → bound ≤ F.value fall.now d
        → F.value fall.now (suc d) < bound → IsBy found (suc d) ⊎ (result ≡ Some (suc d)) }
    ensures counted { IsFlatSoon now (F.flat fall.now)
        → meter.new.evals ≤ meter.old.evals + 35 }
{
    if meter.read(fall, now) < bound {
        return None;
    }
    match found {
        None => first_above(fall, now, bound, meter),
        Some(found) => above_up_to(fall, now, found.saturating_sub(1), bound, meter),
    }
}

// The same where the value isn't below the bound at `now`: reads it once less.
fn drop_above<F: Falls>(
    fall: &F,
    now: u64,
    bound: u128,
    found: Option<u64>,
    meter: &mut Meter,
) -> Option<u64>
    requires not_yet { bound ≤ F.value fall.now now }
    ensures below { IfSome result (λ t. F.value fall.now t < bound) }
    ensures drop { (d : ℕ) → now ≤ d → bound ≤ F.value fall.now d
        → F.value fall.now (suc d) < bound → IsBy found (suc d) ⊎ (result ≡ Some (suc d)) }
    ensures counted { IsFlatSoon now (F.flat fall.now)
        → meter.new.evals ≤ meter.old.evals + 36 }
{
    match found {
        None => known_above(fall, now, bound, meter),
        Some(found) => above_up_to(fall, now, found.saturating_sub(1), bound, meter),
    }
}
