//! The running sums of a fleet: for each table and key how many rows stand, and the total of their
//! counts in each column.
//!
//! It is for a caller that keeps rows and asks for their sums more often than it changes them.
//! Contracts see a finite map from tables and keys to totals, and each call as what it makes of it.
//! Two laws tie them to the rows: the totals are the sums over the rows that were added and not
//! dropped, and each of those can be dropped. Whoever calls sees to it that only rows that stand
//! are dropped. No clause says how long a call takes: each is one search of a table's keys.
#![tactic(auto)]

mod key_sums;
mod keys;
mod law;
mod sums;
mod table_sums;
mod total;

pub use keys::Keys;
pub use law::{standing_can_drop, totals_are_sums};
pub use sums::Sums;
