//! How far a kept bound may be above what it bounds.

ghost use Rattle.std.specs.Prelude.{◌≡◌, ◌+◌, ◌*◌, ◌/◌, ◌≤◌, ◌&&◌, nat_le};
ghost use Rattle.ranked.specs.Walk.{bound_of};

/// The greatest number with so many leading zeros.
pub(crate) fn bound_of(zeros: u64) -> u128
    ensures { result ≡ bound_of zeros }
{
    if zeros < 128 { u128::MAX >> zeros } else { 0 }
}

/// How many leading zeros a new bound gets: those of what it is to bound.
pub(crate) fn zeros_for(bound: u128) -> u64
    ensures holds { bound ≤ bound_of result }
    ensures near { bound_of result ≤ 4 * bound + 3 }
{
    u64::from(bound.leading_zeros())
}

/// Whether a kept bound still serves: it holds, and isn't above four times of what it bounds.
pub(crate) fn serves(zeros: u64, bound: u128) -> bool
    ensures { result ≡ nat_le bound (bound_of zeros) && nat_le (bound_of zeros / 4) bound }
{
    let kept = bound_of(zeros);
    bound <= kept && kept / 4 <= bound
}
