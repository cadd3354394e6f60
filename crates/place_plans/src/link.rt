//! Where a place stands.
ghost use Rattle.std.specs.Prelude.{◌≡◌, ◌<◌, Some, None, IfSome};

use std::marker::Model;

/// A short link has a moment below so many.
pub(crate) const MOMENTS: u64 = 1 << 40;

/// It has a number below this one, which is none.
pub(crate) const NUMBERS: u32 = (1 << 24) - 1;

// How many numbers the lower part of a number has.
const LOW: u32 = 1 << 16;

/// The moment of a place and its number in that moment's bucket, or none, in eight bytes. Contracts
/// see the pair.
#[derive(Debug, Drop)]
pub(crate) struct Link {
    // The moment's lower 32 bits, and the eight above them.
    low: u32,
    high: u8,
    // The number's upper eight bits, and its lower 16.
    index_high: u8,
    index_low: u16,
}

const _: () = prove!(size_of::<Link>() == 8);

impl Model for Link {
    ghost use Rattle.std.specs.Prelude.{ℕ, Option, ◌+◌, ◌*◌};
    ghost use Rattle.place_plans.specs.Links.{link_of};

    ghost Value = { Option (ℕ × ℕ) };

    ghost view = { λ l. link_of 16777215 l.low l.high (l.index_high * 65536 + l.index_low) };
}

impl Link {
    /// No plan.
    pub(crate) fn none() -> Link
        ensures { result ≡ None }
    {
        Link {
            low: 0,
            high: 0,
            index_high: u8::MAX,
            index_low: u16::MAX,
        }
    }

    /// The stand of a number in the bucket of a moment.
    pub(crate) fn to(moment: u64, index: u32) -> Link
        requires moment { moment < 1099511627776 }
        requires index { index < 16777215 }
        ensures { result ≡ Some (moment, index) }
    {
        Link {
            low: (moment % (1 << 32)) as u32,
            high: (moment / (1 << 32)) as u8,
            index_high: (index / LOW) as u8,
            index_low: (index % LOW) as u16,
        }
    }

    /// The moment and the number, if there is a plan.
    #[inline]
    pub(crate) fn get(&self) -> Option<(u64, u32)>
        ensures value { result ≡ self.now }
        ensures moment { IfSome result (λ link. link.0 < 1099511627776) }
        ensures index { IfSome result (λ link. link.1 < 16777215) }
    {
        let index = u32::from(self.index_high) * LOW + u32::from(self.index_low);
        if index == NUMBERS {
            return None;
        }
        let moment = u64::from(self.high) * (1 << 32) + u64::from(self.low);
        Some((moment, index))
    }
}
