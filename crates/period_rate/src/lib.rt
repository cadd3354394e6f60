//! Event rates over a period, as a stick table's rate columns carry them, in whole numbers.
//!
//! A rate is kept as the two counts that arrived and the moment from which it is 0, so that its
//! value at any later moment needs no further message. Rows keep it, and whoever looks for the
//! moment at which it falls below a bound asks it.
//!
//! Promised: `Rate::at` is the stated rule of the time elapsed, rounded down; it never rises; and
//! it is 0 from `Rate::zero_at` on. It is never above `Rate::most`. All calls take no memory.
#![tactic(auto)]

mod rate;

pub use rate::Rate;
