ghost use Rattle.std.specs.Prelude.{◌≡◌, ℕ, ◌+◌, ◌^◌, ◌-◌, ◌<◌, ◌≤◌, min, nat_lt, IfSome};
ghost use Rattle.std.specs.Prelude.{is_some, if◌then◌else◌};
ghost use Rattle.crossing.specs.First.{IsDropAt};

use period_rate::Rate;
use std::marker::Model;

/// A value that never rises as time goes on, and stays as it is from some moment on. Moments are in
/// ms.
pub trait Falls {
    /// The value at a moment.
    ghost value: { Self → ℕ → ℕ };

    /// A moment from which it stays.
    ghost flat: { Self → ℕ };

    /// The value at a moment.
    fn at(&self, t: u64) -> u128
        ensures { result ≡ value self.now t };

    /// Whether the value is below a bound at a moment. Who adds a value up can tell it from a part.
    fn is_below(&self, t: u64, bound: u128) -> bool
        ensures { result ≡ nat_lt (value self.now t) bound }
    {
        self.at(t) < bound
    }

    /// A moment from which the value stays.
    fn flat_from(&self) -> u64
        ensures { result ≡ flat self.now };

    /// A moment above `from`, in ms, that may be the first at which the value is below a bound, as
    /// far as one is known without reading. It is a hint: what is found never depends on it, and a
    /// wrong one only costs reads.
    fn likely(&self, from: u64, bound: u128) -> Option<u64> {
        None
    }

    /// The first moment above `from`, in ms, at which the value is below a bound, which it isn't at
    /// `from`, where it can be told at once.
    fn known_drop(&self, from: u64, bound: u128) -> Option<u64>
        ensures { IfSome result (IsDropAt from (value self.now) bound) }
    {
        None
    }

    ghost never_rises: { (f : Self) (t later : ℕ) → t ≤ later → value f later ≤ value f t };

    ghost stays: { (f : Self) (t : ℕ) → flat f ≤ t → value f t ≡ value f (flat f) };
}

impl Falls for Rate {
    ghost use Rattle.period_rate.specs.Rate.{value_at, zero_moment};
    ghost use Rattle.crossing.specs.Rates.{stays_at_zero};
    ghost use Rattle.period_rate.proofs.Moments.{value_at_falls};

    ghost value = { value_at };

    ghost flat = { zero_moment };

    fn at(&self, t: u64) -> u128 {
        u128::from(Rate::at(self, t))
    }

    fn flat_from(&self) -> u64 {
        self.zero_at()
    }

    ghost never_rises = { value_at_falls };

    ghost stays = { stays_at_zero };
}

/// Counts how often a value was read. The count stays at its greatest number once it is there.
#[derive(Clone, Copy, Debug, PartialEq, Eq)]
pub struct Meter {
    pub evals: u64,
}

impl Meter {
    /// A count of 0.
    pub fn new() -> Meter
        ensures { result.evals ≡ 0 }
    {
        Meter { evals: 0 }
    }

    /// Reads a value at a moment, in ms, and counts that.
    pub fn read<F: Falls>(&mut self, fall: &F, t: u64) -> u128
        ensures value { result ≡ F.value fall.now t }
        ensures counted { self.new.evals ≡ min (self.old.evals + 1) (2 ^ 64 - 1) }
    {
        self.evals = self.evals.saturating_add(1);
        fall.at(t)
    }
    /// Tells whether a value is below a bound at a moment, in ms, and counts that.
    pub fn is_below<F: Falls>(&mut self, fall: &F, t: u64, bound: u128) -> bool
        ensures value { result ≡ nat_lt (F.value fall.now t) bound }
        ensures counted { self.new.evals ≡ min (self.old.evals + 1) (2 ^ 64 - 1) }
    {
        self.evals = self.evals.saturating_add(1);
        fall.is_below(t, bound)
    }

    /// The first moment above `from`, in ms, at which a value is below a bound, which it isn't at
    /// `from`, where it can be told at once. Counts that as one value that was read.
    pub fn known_drop<F: Falls>(&mut self, fall: &F, from: u64, bound: u128) -> Option<u64>
        ensures first { IfSome result (IsDropAt from (F.value fall.now) bound) }
        ensures counted { self.new.evals ≡ (if is_some result
            then min (self.old.evals + 1) (2 ^ 64 - 1) else self.old.evals) }
    {
        let known = fall.known_drop(from, bound)?;
        self.evals = self.evals.saturating_add(1);
        Some(known)
    }
}
