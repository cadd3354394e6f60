//! How often a log tells what the same source repeats.
//!
//! A `Throttle` is of one kind of event. A line comes with its moment and its source, and is told
//! or left out. What is left out is counted, and handed out as counts within a minute. Nothing here
//! knows a clock or a text of a line: moments in ms come in, and verdicts go out.
//!
//! Promised: at most 60 lines of a source and 600 of all are told in a minute, which begins with
//! its first line. Each line is either told or counted, exactly once. At most 1,024 sources are
//! remembered, and as many counts wait. Where memory is lacking for a source, its line is counted
//! among the rest.
#![tactic(auto)]

mod counts;
mod flow;
mod minute;
mod sources;
mod throttle;

pub use counts::Counted;
pub(crate) use flow::Flow;
pub(crate) use minute::Minute;
pub use throttle::Throttle;
