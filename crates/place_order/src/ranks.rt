ghost use Rattle.std.specs.Prelude.{◌≡◌};
ghost use Rattle.place_order.specs.Orders.{by_rank};

use std::cmp::Ordering;

/// Who knows the order of places.
pub trait PlaceRanks {
    ghost use Rattle.std.specs.Prelude.{ℕ, List};

    /// The rank of a place. Ranks are compared as lists of numbers.
    ghost rank: { Self → ℕ → List ℕ };

    /// How the ranks of two places compare.
    fn order(&self, left: usize, right: usize) -> Ordering
        ensures { result ≡ by_rank (rank self.now) left right };
}
