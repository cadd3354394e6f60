//! Connections of peers and the book of the fleet, one step at a time, in one thread.
//!
//! `replay` drives it. A `Fleet` represents the steps that were done, and its book
//! answers what recomputing from all their events gives, but for the last of them, which wait where
//! an allocation failed. `Fleet::step` promises what each step sends, which fault it answers, and
//! that nothing but its own events waits behind it. A step may also tell a connection what has
//! changed of the pushed tables: it sends what one turn writes, over the book's sets at its moment.
//! A fleet keeps of each connection what its steps say was told. `run` does a list of steps, and
//! promises which fault ends it. No clause says that memory suffices, nor that nothing waits where
//! no allocation failed: the scripts of `test_replay` show it; nor that each event of a step
//! counts. A fleet doesn't ask its sessions for idleness.
#![tactic(auto)]

mod connection;
mod connections;
mod fleet;
mod runs;
mod sets;
mod step;
mod waiting;

pub use book::Book;
pub use fleet::Fleet;
pub use runs::{Ran, RunFault, run};
pub use step::{FleetFault, Replies, Step};
