//! Ranked lists, found by bounds on the values of keys.
//!
//! Books list the first keys of a table by a column. `Bounds` keeps for each key a bound that its
//! value doesn't exceed, found in the place that a hint names or by the key's hash, and an index of
//! the bounds with the greatest first. `Ranked` takes entries from the front until its best key
//! stands before all that are left, and then gives it. Values only fall by themselves, so bounds
//! hold as time goes on.
//!
//! A bound is 2^k - 1 for the least such number that holds, and is kept while it holds and isn't
//! above four times of what it bounds. So a count that grows moves its entry each time it doubles,
//! and a value that moves a little moves nothing. A list looks at all keys whose bound isn't below
//! the value that it gives: where values are spread, a few more than it gives; where nearly all
//! have as many digits, nearly all. Each of these is searched by its hash. So who can go through
//! all keys as their rows lie asks `looks_at_most` first, and goes where the list would look far:
//! `Best` keeps the best of keys that come in any order, and gives what the list would give.
//! `Leaders` keeps bounds for several lists, by their positions.
//!
//! Promised: a touched key has a bound of at least what was touched, and at most four times of it
//! and 3, until it is touched again or dropped. `Ranked` lends the first keys that a sort of all
//! live ones would give, each with its value. By then it never took more entries than there are
//! keys with a bound of at least that value. No clause says what a step costs.
#![tactic(auto)]

mod best;
mod bounds;
mod candidates;
mod leaders;
mod list;
mod looks;
mod slack;
mod walk;
mod wanted;

pub use best::Best;
pub use bounds::Bounds;
pub use leaders::Leaders;
pub use list::Ranked;
pub use wanted::Wanted;
