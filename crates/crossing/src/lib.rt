//! When a value that only falls crosses a bound, and when the joint truth of conditions on such
//! values changes next, to the millisecond.
//!
//! A rate falls as time goes on, a sum of rates and counts too, and so does the number of a key's
//! rows as they end. Standing filters plan by this crate when a key comes into their set or leaves
//! it; ranked lists take its `Values`. `Falls` is one such value, `Values` gives those of all keys,
//! and `Of` is one key's of them. Who keeps at hand the most that a key is ever worth tells it by
//! `Values::most`, so that no value is read where that settles what is asked. Whether one is below
//! a bound is asked for by `is_below`, so that who adds it up may stop where that is sure.
//! Who can tell at once when a value falls below a bound does so by `known_drop`, and is held to
//! it. Who can tell when that is likely says so by `likely`. The value is then mostly looked at
//! twice there, in place of halving the time up to the moment from which it stays.
//!
//! Promised: `first_below` gives the least moment at which a value is below a bound. `next_change`
//! gives the least later moment at which the truth of all conditions together differs from now.
//! Both give none exactly where there is none. `Meter` counts every value that is read for it, a
//! look at a bound and a drop that is told as one each. For up to five conditions on values that
//! stay from 2^33 ms on that is at most 500. `first_below` reads a value three times that drops
//! only at the moment from which it stays, up to 2^32 ms from now. Nothing takes memory. No clause
//! says how long reading a value takes.
#![tactic(auto)]

mod between;
mod change;
mod falls;
mod first;
mod values;

pub use change::{Part, next_change, next_change_from};
pub use falls::{Falls, Meter};
pub use first::first_below;
pub use values::{Measured, Of, Values};
