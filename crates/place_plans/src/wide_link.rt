//! Where a place stands, at any moment and number.
ghost use Rattle.std.specs.Prelude.{◌≡◌, ◌<◌, Some, None, IfSome};

use std::marker::Model;

/// The moment of a place and its number in that moment's bucket, or none, in twelve bytes.
/// Contracts see the pair.
#[derive(Debug, Drop)]
pub(crate) struct WideLink {
    // The lower and the upper half of the moment.
    low: u32,
    high: u32,
    // The greatest number is none.
    index: u32,
}

const _: () = prove!(size_of::<WideLink>() == 12);

impl Model for WideLink {
    ghost use Rattle.std.specs.Prelude.{ℕ, Option};
    ghost use Rattle.place_plans.specs.Links.{link_of};

    ghost Value = { Option (ℕ × ℕ) };

    ghost view = { λ l. link_of 4294967295 l.low l.high l.index };
}

impl WideLink {
    /// No plan.
    pub(crate) fn none() -> WideLink
        ensures { result ≡ None }
    {
        WideLink {
            low: 0,
            high: 0,
            index: u32::MAX,
        }
    }

    /// The stand of a number in the bucket of a moment.
    pub(crate) fn to(moment: u64, index: u32) -> WideLink
        requires { index < 4294967295 }
        ensures { result ≡ Some (moment, index) }
    {
        WideLink {
            low: (moment % (1 << 32)) as u32,
            high: (moment / (1 << 32)) as u32,
            index,
        }
    }

    /// This stand, or none.
    pub(crate) fn of(link: Option<(u64, u32)>) -> WideLink
        requires { IfSome link (λ l. l.1 < 4294967295) }
        ensures { result ≡ link }
    {
        match link {
            Some((moment, index)) => WideLink::to(moment, index),
            None => WideLink::none(),
        }
    }

    /// The moment and the number, if there is a plan.
    #[inline]
    pub(crate) fn get(&self) -> Option<(u64, u32)>
        ensures value { result ≡ self.now }
        ensures small { IfSome result (λ link. link.1 < 4294967295) }
    {
        if self.index == u32::MAX {
            return None;
        }
        let moment = u64::from(self.high) * (1 << 32) + u64::from(self.low);
        Some((moment, self.index))
    }
}
