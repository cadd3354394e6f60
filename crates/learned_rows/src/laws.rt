//! What the judgement comes to.
//!
//! A law of the definitions that the contracts cite is the contract of a function that does
//! nothing.

ghost use Rattle.std.specs.Prelude.{◌≡◌, ◌<◌, ◌≤◌, ◌*◌, ◌&&◌, ℕ, nat_le, true};
ghost use Rattle.learned_rows.specs.Judging.{are_many};

/// Where the sample has all learned rows, they are many exactly where 10 of them are alike, and a
/// hundredth.
pub fn a_whole_sample_is_counted_exactly()
    ensures { (learned alike : ℕ) → 0 < learned → are_many learned learned alike
        ≡ (nat_le learned (100 * alike) && nat_le 10 alike) }
{}

/// Where the sample has 1,000 of at least so many learned rows, they are many only where 10 of the
/// sample are alike.
pub fn a_large_sample_has_ten()
    ensures { (learned alike : ℕ) → are_many learned 1000 alike ≡ true → 10 ≤ alike }
{}
