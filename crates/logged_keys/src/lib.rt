//! Which keys came into the sets of logged filters and which left them, as lines of a log.
//!
//! `collector_log` looks once a second, in a thread that looks at the book anyway. `LoggedKeys`
//! keeps the filters of the configuration's `log` lines, and how far their changes were told, as a
//! number of events. A round asks the hub for the changes behind that number (`Look::changes`),
//! tells some of them, and goes on from the number of the look. So no change is missed, and none is
//! told twice, while the hub knows them.
//!
//! Promised: a round tells at most 100 changes, of all filters together, and of each filter the
//! first ones of those that the look has, each once and in order; it counts the others, or says
//! that it isn't known which there were. The next round goes on exactly where it ended.
//! `laws` say what that comes to over all rounds. What the lines say, test_program prints.
#![tactic(auto)]

mod found;
mod keys;
pub mod laws;
mod lines;
mod noting;
mod round;
mod value;

pub(crate) use found::Found;
pub use keys::LoggedKeys;
pub use lines::KeyLine;
pub use noting::KeyLines;
pub use round::{LeftOut, MOST_LINES, Round, Told};
pub use value::Value;
