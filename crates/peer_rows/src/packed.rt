ghost use Rattle.std.specs.Prelude.{◌≡◌, ◌+◌, ◌*◌, ◌^◌};
ghost use Rattle.peer_rows.specs.Packed.{held_of};

use crate::Held;
use period_rate::Rate;
use std::mem::size_of;

/// How many numbers a word has.
pub(crate) const WORD: u64 = 1 << 32;

/// A cell in words of 32 bits, so that it takes less room than a `Held`.
#[derive(Clone, Copy, Debug)]
pub(crate) enum Packed {
    Count([u32; 2]),
    Rate([u32; 5]),
}

const _: () = prove!(size_of::<Packed>() == 24);

impl Packed {
    /// Packs a cell.
    pub(crate) fn new(held: &Held) -> Packed
        ensures { held_of result ≡ held.now }
    {
        match held {
            Held::Count(count) => Packed::Count(halves(*count)),
            Held::Rate(rate) => Packed::Rate(rate.to_words()),
        }
    }

    /// The cell that was packed.
    pub(crate) fn held(&self) -> Held
        ensures { result ≡ held_of self.now }
    {
        match *self {
            Packed::Count(words) => {
                let [low, high] = words;
                Held::Count(whole(low, high))
            }
            Packed::Rate(words) => Held::Rate(Rate::from_words(words)),
        }
    }
}

/// The count of a low and a high half.
#[inline]
pub(crate) fn whole(low: u32, high: u32) -> u64
    ensures { result ≡ low + 2 ^ 32 * high }
{
    u64::from(low) + WORD * u64::from(high)
}

/// The low and the high half of a count.
#[inline]
pub(crate) fn halves(count: u64) -> [u32; 2]
    ensures { held_of (Packed.Count result) ≡ Held.Count count }
{
    let low = (count % WORD) as u32;
    let high = (count / WORD) as u32;
    [low, high]
}
