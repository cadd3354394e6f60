//! What a fleet's history says: the rules of the product as definitions over whole lists of events,
//! and the machine of one event that every book is compared with.
//!
//! Books, the fleet and what shows their answers stand on it. Its promises are laws: the clauses of
//! functions that do nothing. The machine leaves what recomputing from the whole list gives. Other
//! laws say what holds of every state of a checked configuration, and that rows, sums, sets and
//! ranked lists are what their words say. For a book that keeps less than the list, they say what
//! an event does to the rows of one key. No clause says that these are the right rules:
//! docs/MODEL.md says them in words, and `worked` shows them on small runs.
#![tactic(auto)]

mod arrival;
pub mod laws;
mod summed;
pub mod worked;

pub use arrival::Arrival;
pub use summed::Summed;
