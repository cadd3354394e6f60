//! From when on a value is below a bound.

ghost use Rattle.std.specs.Prelude.{◌≡◌, ℕ, ◌+◌, ◌-◌, ◌^◌, ◌<◌, ◌≤◌};
ghost use Rattle.crossing.specs.First.{IsFirstFrom, IsFlatSoon};

use crate::between::between;
use crate::{Falls, Meter};

/// Up to how many ms a span is short enough for one more look than halving takes.
const SHORT_MS: u64 = 1 << 32;

/// Up to how many ms away a likely moment is looked at before the one from which a value stays.
const NEAR_MS: u64 = 1 << 26;

/// The least moment from `now` on, in ms, at which a value is below a bound; none exactly where it
/// never is. Reads the value at most 35 times where it stays from 2^33 ms on. Reads it three times
/// where it stays from 2^32 ms on and isn't below the bound before the moment from which it stays.
pub fn first_below<F: Falls>(fall: &F, now: u64, bound: u128, meter: &mut Meter) -> Option<u64>
    ensures first { IsFirstFrom now (λ t. F.value fall.now t < bound) result }
    ensures counted { IsFlatSoon now (F.flat fall.now)
        → meter.new.evals ≤ meter.old.evals + 35 }
    ensures late { F.flat fall.now ≤ now + 2 ^ 32 → bound ≤ F.value fall.now (F.flat fall.now - 1)
        → meter.new.evals ≤ meter.old.evals + 3 }
{
    if meter.is_below(fall, now, bound) {
        return Some(now);
    }
    first_above(fall, now, bound, meter)
}

/// The same where the value isn't below the bound at `now`: reads it once less.
pub(crate) fn first_above<F: Falls>(
    fall: &F,
    now: u64,
    bound: u128,
    meter: &mut Meter,
) -> Option<u64>
    requires not_yet { bound ≤ F.value fall.now now }
    ensures first { IsFirstFrom now (λ t. F.value fall.now t < bound) result }
    ensures counted { IsFlatSoon now (F.flat fall.now)
        → meter.new.evals ≤ meter.old.evals + 34 }
    ensures late { F.flat fall.now ≤ now + 2 ^ 32 → bound ≤ F.value fall.now (F.flat fall.now - 1)
        → meter.new.evals ≤ meter.old.evals + 2 }
{
    let flat = fall.flat_from();
    if flat <= now || !meter.is_below(fall, flat, bound) {
        return None;
    }
    Some(drop_until(fall, now, flat, bound, meter))
}

/// The same, where a likely moment is looked at before the one from which the value stays.
pub(crate) fn likely_above<F: Falls>(
    fall: &F,
    now: u64,
    bound: u128,
    meter: &mut Meter,
) -> Option<u64>
    requires not_yet { bound ≤ F.value fall.now now }
    ensures first { IsFirstFrom now (λ t. F.value fall.now t < bound) result }
    ensures counted { IsFlatSoon now (F.flat fall.now)
        → meter.new.evals ≤ meter.old.evals + 35 }
{
    let Some(likely) = fall.likely(now, bound) else {
        return first_above(fall, now, bound, meter);
    };
    if likely <= now || likely - now > NEAR_MS || !meter.is_below(fall, likely, bound) {
        return first_above(fall, now, bound, meter);
    }
    Some(between(fall, now, likely, bound, Some(likely - 1), 33, meter))
}

/// The least moment from `now` on and up to a last one at which a value is below a bound, which it
/// isn't at `now`; none exactly where there is none. Reads the value at most 34 times where it
/// stays from 2^33 ms on, and once where it isn't below the bound by then.
pub(crate) fn above_up_to<F: Falls>(
    fall: &F,
    now: u64,
    last: u64,
    bound: u128,
    meter: &mut Meter,
) -> Option<u64>
    requires not_yet { bound ≤ F.value fall.now now }
    ensures first { IsFirstFrom now (λ t. (t ≤ last) × (F.value fall.now t < bound)) result }
    ensures counted { IsFlatSoon now (F.flat fall.now)
        → meter.new.evals ≤ meter.old.evals + 34 }
{
    if last <= now || !meter.is_below(fall, last, bound) {
        return None;
    }
    let last = last.min(fall.flat_from());
    let likely = fall.likely(now, bound);
    Some(between(fall, now, last, bound, likely, 33, meter))
}

// The least moment at which a value is below a bound, between one at which it isn't yet and one
// from which it stays below. A count, and the number of rows, mostly drop there and nowhere before:
// so the moment before that is looked at first.
fn drop_until<F: Falls>(fall: &F, not_yet: u64, flat: u64, bound: u128, meter: &mut Meter) -> u64
    requires apart { not_yet < flat }
    requires not_yet { bound ≤ F.value fall.now not_yet }
    requires below { F.value fall.now flat < bound }
    ensures first { IsFirstFrom not_yet (λ t. F.value fall.now t < bound) (Some result) }
    ensures counted { IsFlatSoon not_yet flat → meter.new.evals ≤ meter.old.evals + 33 }
    ensures late { flat ≤ not_yet + 2 ^ 32 → bound ≤ F.value fall.now (flat - 1)
        → meter.new.evals ≤ meter.old.evals + 1 }
{
    if flat - not_yet > SHORT_MS {
        return between(fall, not_yet, flat, bound, None, 33, meter);
    }
    let before = flat - 1;
    if !meter.is_below(fall, before, bound) {
        return flat;
    }
    let likely = fall.likely(not_yet, bound);
    between(fall, not_yet, before, bound, likely, 32, meter)
}

/// What `likely_above` answers, told at once where that can be.
pub(crate) fn known_above<F: Falls>(
    fall: &F,
    now: u64,
    bound: u128,
    meter: &mut Meter,
) -> Option<u64>
    requires not_yet { bound ≤ F.value fall.now now }
    ensures first { IsFirstFrom now (λ t. F.value fall.now t < bound) result }
    ensures counted { IsFlatSoon now (F.flat fall.now)
        → meter.new.evals ≤ meter.old.evals + 36 }
{
    if let Some(known) = meter.known_drop(fall, now, bound) {
        return Some(known);
    }
    likely_above(fall, now, bound, meter)
}
