ghost use Rattle.std.specs.Prelude.{◌≡◌, ◌+◌, ◌-◌, ◌^◌, ◌<◌, ◌≤◌};

use std::marker::Model;

/// How many values a word has.
const WORD: u128 = 1 << 32;

/// A number below 2^96, in 12 bytes: the total of at most 2^32 counts of 64 bits.
#[derive(Debug, Drop)]
pub(crate) struct Total {
    high: u32,
    middle: u32,
    low: u32,
}

const _: () = prove!(size_of::<Total>() == 12);

impl Model for Total {
    ghost use Rattle.std.specs.Prelude.{ℕ, ◌+◌, ◌*◌, ◌^◌};

    ghost Value = { ℕ };

    ghost view = { λ total. (total.high * 2 ^ 32 + total.middle) * 2 ^ 32 + total.low };
}

impl Total {
    /// A total of this value.
    pub(crate) fn new(value: u128) -> Total
        requires { value < 2 ^ 96 }
        ensures { result ≡ value }
    {
        let upper = value / WORD;
        Total {
            high: (upper / WORD) as u32,
            middle: (upper % WORD) as u32,
            low: (value % WORD) as u32,
        }
    }

    /// The value.
    pub(crate) fn value(&self) -> u128
        ensures value { result ≡ self.now }
        ensures bound { result < 2 ^ 96 }
    {
        (u128::from(self.high) * WORD + u128::from(self.middle)) * WORD + u128::from(self.low)
    }

    /// Adds a count.
    pub(crate) fn add(&mut self, count: u64)
        requires { self.old + count < 2 ^ 96 }
        ensures { self.new ≡ self.old + count }
    {
        *self = Total::new(self.value() + u128::from(count));
    }

    /// Takes a count away.
    pub(crate) fn take(&mut self, count: u64)
        requires { count ≤ self.old }
        ensures { self.new ≡ self.old - count }
    {
        *self = Total::new(self.value() - u128::from(count));
    }
}
