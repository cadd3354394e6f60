//! What moved in the set of a standing filter, all changes taken together.
//!
//! The hub keeps each change of a set (`set_changes`), and tells those behind a number. Who follows
//! a set wants less: the keys that are in it now and weren't, and the other way round. `what_moved`
//! gathers these, each once and in order. A key that came in and left again is in neither list.
//!
//! Promised: `what_moved` is exact over its changes (specs/Moving), and `laws` say that it leads
//! from the set then to the set now: of each key whose first change turned what was held then. That
//! each change does so is no clause of the crates that make them.
#![tactic(auto)]

pub mod laws;
mod moved;

pub use moved::{Moved, what_moved};
