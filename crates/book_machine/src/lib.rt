//! What a book holds beside its filters' verdicts, and what an event makes of it.
//!
//! `book` stands on it, and adds verdicts, runs and what its users call. `Machine` has the
//! configuration with the filters that stand, the moment, the rows (`book_rows`), the sessions and
//! the seats, and bounds for each ranked list (`ranked`). Contracts see it as the state of
//! `fleet_model`.
//!
//! Promised: an event that counts makes of the state what the machine of the model makes of it, or
//! nothing after a refused allocation (`Machine::apply`); so does each update of a turn, of which
//! the seat is counted up once (`Turn`). `Outcome` says whether an update found no room, and which
//! keys a clear took all rows of. What is asked of keys is what the model says: sums, listings and
//! ranked lists (`Machine::top`).
//!
//! `Values` of a machine are those of its keys as the clock goes on, for who judges them
//! (`crossing`): what they sum up to only falls, and stays from a moment on that is told. The same
//! is told of rows that were found already (`found_live`, `found_fewer`, `found_flat`). When rows
//! come to nothing one pass over them tells (`found_drop`).
//!
//! No clause speaks of `found_likely`, which guesses when a rate has come down, nor says how many
//! keys a ranked list looks at, or that hints at where rows lie save a search.
#![tactic(auto)]

mod clears;
mod foreseen;
mod gone;
mod leaders;
mod likely;
mod machine;
mod next;
mod nothing;
mod ranking;
mod table_use;
mod taking;
mod turns;

pub use foreseen::{found_fewer, found_flat, found_live};
pub use gone::Gone;
pub use likely::found_likely;
pub use machine::{Applied, Machine, Outcome};
pub use nothing::found_drop;
pub use ranking::Ranked;
pub use table_use::{TableUse, has_filter};
pub use turns::Turn;
