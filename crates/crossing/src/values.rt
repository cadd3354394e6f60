ghost use Rattle.std.specs.Prelude.{◌≡◌, ℕ, ◌≤◌, List, IfSome, nat_lt};
ghost use Rattle.crossing.specs.First.{IsDropAt};
ghost use Rattle.agg_types.specs.declared.column.Col.{Col};

use crate::Falls;
use agg_types::{Col, Key};

/// The values of all keys as time goes on, in ms: they only fall, and stay from some moment on.
///
/// Tables are named by their positions.
pub trait Values {
    /// A key's summed value of a column at a moment.
    ghost summed: { Self → ℕ → List ℕ → Col → ℕ → ℕ };

    /// How many rows of a key live at a moment.
    ghost living: { Self → ℕ → List ℕ → ℕ → ℕ };

    /// A moment from which a key's values stay.
    ghost flat: { Self → ℕ → List ℕ → ℕ };

    /// A key's summed value of a column at a moment.
    fn value(&self, table: usize, key: &Key, col: Col, t: u64) -> u128
        ensures { result ≡ summed self.now table key.now col t };

    /// Whether a key's summed value of a column is below a bound at a moment.
    fn is_below(&self, table: usize, key: &Key, col: Col, t: u64, bound: u128) -> bool
        ensures { result ≡ nat_lt (summed self.now table key.now col t) bound }
    {
        self.value(table, key, col, t) < bound
    }

    /// The most that a key is worth in a column at any moment, where that is at hand.
    fn most(&self, table: usize, key: &Key, col: Col) -> Option<u128>
        ensures { IfSome result (λ most. (t : ℕ) → summed self.now table key.now col t ≤ most) }
    {
        None
    }

    /// How many rows of a key live at a moment.
    fn live(&self, table: usize, key: &Key, t: u64) -> usize
        ensures { result ≡ living self.now table key.now t };

    /// Whether fewer rows of a key than a bound live at a moment.
    fn are_fewer(&self, table: usize, key: &Key, t: u64, bound: u128) -> bool
        ensures { result ≡ nat_lt (living self.now table key.now t) bound }
    {
        (self.live(table, key, t) as u128) < bound
    }

    /// A moment from which a key's values stay.
    fn flat_from(&self, table: usize, key: &Key) -> u64
        ensures { result ≡ flat self.now table key.now };

    /// A moment above `from`, in ms, that may be the first at which a key's summed value of a
    /// column is below a bound, as far as one is known without reading values. It is a hint: no
    /// answer depends on it, and a wrong one only costs reads.
    fn likely(&self, table: usize, key: &Key, col: Col, from: u64, bound: u128) -> Option<u64> {
        None
    }

    /// The first moment above `from`, in ms, at which a key's summed value of a column is below a
    /// bound, which it isn't at `from`, where it can be told at once.
    fn known_drop(&self, table: usize, key: &Key, col: Col, from: u64, bound: u128) -> Option<u64>
        ensures { IfSome result (IsDropAt from (summed self.now table key.now col) bound) }
    {
        None
    }

    ghost sums_fall: { (v : Self) (table : ℕ) (key : List ℕ) (col : Col) (t later : ℕ)
        → t ≤ later → summed v table key col later ≤ summed v table key col t };

    ghost rows_end: { (v : Self) (table : ℕ) (key : List ℕ) (t later : ℕ)
        → t ≤ later → living v table key later ≤ living v table key t };

    ghost sums_stay: { (v : Self) (table : ℕ) (key : List ℕ) (col : Col) (t : ℕ)
        → flat v table key ≤ t
        → summed v table key col t ≡ summed v table key col (flat v table key) };

    ghost rows_stay: { (v : Self) (table : ℕ) (key : List ℕ) (t : ℕ)
        → flat v table key ≤ t → living v table key t ≡ living v table key (flat v table key) };
}

/// What is looked at of a key.
#[derive(Clone, Copy, Debug, PartialEq, Eq)]
pub enum Measured {
    /// Its summed value of a column.
    Column(Col),
    /// How many of its rows live.
    LiveRows,
}

/// One value of one key, as it falls.
#[derive(Clone, Copy, Debug)]
pub struct Of<'a, V> {
    pub values: &'a V,
    pub table: usize,
    pub key: &'a Key,
    pub measured: Measured,
}

impl<'a, V: Values> Falls for Of<'a, V> {
    ghost use Rattle.crossing.specs.Shown.{measured};
    ghost use Rattle.crossing.specs.Measures.{measured_falls, measured_stays};

    ghost value = { λ of. measured (V.summed of.values.now of.table of.key.now)
        (V.living of.values.now of.table of.key.now) of.measured };

    ghost flat = { λ of. V.flat of.values.now of.table of.key.now };

    fn at(&self, t: u64) -> u128 {
        match self.measured {
            Measured::Column(col) => self.values.value(self.table, self.key, col, t),
            Measured::LiveRows => self.values.live(self.table, self.key, t) as u128,
        }
    }

    fn is_below(&self, t: u64, bound: u128) -> bool {
        match self.measured {
            Measured::Column(col) => self.values.is_below(self.table, self.key, col, t, bound),
            Measured::LiveRows => self.values.are_fewer(self.table, self.key, t, bound),
        }
    }

    fn flat_from(&self) -> u64 {
        self.values.flat_from(self.table, self.key)
    }

    fn likely(&self, from: u64, bound: u128) -> Option<u64> {
        match self.measured {
            Measured::Column(col) => self.values.likely(self.table, self.key, col, from, bound),
            Measured::LiveRows => None,
        }
    }

    fn known_drop(&self, from: u64, bound: u128) -> Option<u64> {
        match self.measured {
            Measured::Column(col) => {
                self.values
                    .known_drop(self.table, self.key, col, from, bound)
            }
            Measured::LiveRows => None,
        }
    }

    ghost never_rises = { λ of. measured_falls
        (V.summed of.values.now of.table of.key.now) (V.living of.values.now of.table of.key.now)
        (V.sums_fall of.values.now of.table of.key.now)
        (V.rows_end of.values.now of.table of.key.now) of.measured };

    ghost stays = { λ of. measured_stays
        (V.summed of.values.now of.table of.key.now) (V.living of.values.now of.table of.key.now)
        (V.flat of.values.now of.table of.key.now)
        (V.sums_stay of.values.now of.table of.key.now)
        (V.rows_stay of.values.now of.table of.key.now) of.measured };
}
