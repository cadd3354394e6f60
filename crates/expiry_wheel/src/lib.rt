//! Planned moments: sets of pairs of a moment and an item, the least first.
//!
//! Ranked lists keep their keys in one, each at a number that its bound gives. `DueIndex` is what
//! callers see: contracts speak of the list of its entries in order, and `plan`, `cancel`,
//! `next_at`, `take_due` and `after` answer exactly what that list says. Only `plan` takes memory,
//! and one that runs out of it changes nothing. `OrderedDue` keeps one ordered map; `Wheel` has
//! levels of 256 slots for every 64-bit moment; both meet one contract. `Entries` lends the entries
//! of one index in order. `Due` goes through two indexes side by side, by moment, the first one's
//! entries first on a tie.
//!
//! Ends of rows and changes of filters are planned by place (`place_plans`), so `Wheel` and `Due`
//! run in tests only.
//!
//! No clause says what a call costs, nor that a wheel has levels: docs/PERFORMANCE.md has figures.
#![tactic(auto)]

mod due;
mod entries;
mod index;
mod marks;
mod ordered;
mod slots;
mod together;
mod wheel;

pub use due::{Due, DueEntry};
pub use entries::Entries;
pub use index::DueIndex;
pub use ordered::OrderedDue;
pub use wheel::Wheel;
