//! What every book does beside keeping rows: its seats and sessions, the filters and lists that
//! stand in its configuration, and the keys that it goes over.
//!
//! `book` stands on it, which keeps the rows, and `show_clear` takes a lemma on listings from it.
//! Contracts speak of the entries of maps, of lists, and of `fleet_model`'s definitions over
//! them. They say which number a seat is due and whether an event has it, what each kind of event
//! makes of seats, sessions and filters, and what is found at a position. A call that is refused
//! memory changes nothing; counting an event, leaving and ending sessions take none. No clause says
//! how long a call takes, or that one succeeds while there is memory.
#![tactic(auto)]

pub mod keys;
pub mod seats;
pub mod standing;
