//! The moment of a drop within a span of moments.

ghost use Rattle.std.specs.Prelude.{◌≡◌, ℕ, ◌+◌, ◌*◌, ◌-◌, ◌^◌, ◌<◌, ◌≤◌, Some};
ghost use Rattle.crossing.specs.First.{IsFirstFrom};
ghost use Rattle.crossing.specs.Looks.{IsWithin};

use crate::{Falls, Meter};

/// How long spans are of which it is known how many looks halving takes, in ms.
const SHORT: u64 = 1 << 16;

const MIDDLE: u64 = 1 << 20;

const LONG: u64 = 1 << 26;

/// The least moment at which a value is below a bound, between one at which it isn't yet and one at
/// which it is. It is looked for near the moment that is likely first, while more looks are left
/// than halving takes, and by halving then.
pub(crate) fn between<F: Falls>(
    fall: &F,
    not_yet: u64,
    below: u64,
    bound: u128,
    likely: Option<u64>,
    looks: u64,
    meter: &mut Meter,
) -> u64
    requires apart { not_yet < below }
    requires not_yet { bound ≤ F.value fall.now not_yet }
    requires below { F.value fall.now below < bound }
    ensures first { IsFirstFrom not_yet (λ t. F.value fall.now t < bound) (Some result) }
    ensures counted { below ≤ not_yet + 2 ^ looks → meter.new.evals ≤ meter.old.evals + looks }
{
    let mut low = not_yet;
    let mut high = below;
    let mut spare = spare_looks(below - not_yet, looks);
    let (mut guess, mut stride) = first_guess(likely);
    while high - low > 1 {
        let look = look_at(low, high, guess, spare);
        let reach = stride;
        spare = spare.saturating_sub(1);
        stride = stride.saturating_mul(4);
        if meter.is_below(fall, look, bound) {
            high = look;
            guess = look.saturating_sub(reach);
        } else {
            low = look;
            guess = look.saturating_add(reach);
        }
    }
    high
}

// Where the first guess is, and how far from it the next one: a stride of 0 leads to no other.
fn first_guess(likely: Option<u64>) -> (u64, u64) {
    match likely {
        None => (0, 0),
        Some(likely) => (likely, 1),
    }
}

// How many looks at a span are left beside those that halving takes, at least.
fn spare_looks(span: u64, looks: u64) -> u64
    ensures { span ≤ 2 ^ looks → IsWithin looks result span }
{
    if span <= SHORT {
        looks.saturating_sub(16)
    } else if span <= MIDDLE {
        looks.saturating_sub(20)
    } else if span <= LONG {
        looks.saturating_sub(26)
    } else {
        0
    }
}

// Where to look inside a span: at the guess if it is inside and a look is spare, and else in the
// middle.
fn look_at(low: u64, high: u64, guess: u64, spare: u64) -> u64
    requires { low + 1 < high }
    ensures inside { (low < result) × (result < high) }
    ensures halves { spare ≡ 0 → (2 * (result - low) ≤ high - low + 1)
        × (2 * (high - result) ≤ high - low + 1) }
{
    if spare > 0 && low < guess && guess < high {
        guess
    } else {
        low + (high - low) / 2
    }
}
