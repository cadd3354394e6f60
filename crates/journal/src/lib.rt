//! The log: what an operator reads on standard error, a line an event.
//!
//! `collector_log` and `listening` note events in the `Journal`, and one thread writes their lines.
//! `Event` says what happened, and a line's heading is the time, or for journald the level alone.
//! Who notes never waits for standard error: at most 1,000 lines wait, and what doesn't fit is
//! counted. Of what strangers or one peer can repeat, 60 lines a minute are told of each source,
//! and the others counted (`throttle`).
//!
//! Nothing is promised but that it is safe. What the lines say, and which are left out,
//! test_program prints.
#![tactic(auto)]

mod alarms;
mod floods;
mod heading;
mod journal;
mod log;

pub use alarms::Alarm;
pub use heading::Heading;
pub use journal::Journal;
pub use log::Event;
