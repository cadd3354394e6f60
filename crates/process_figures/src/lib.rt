//! What the process takes: memory, time of processors and descriptors; and when it began.
//!
//! `collector_log` tells it in `show info` and over HTTP. A test gives figures of its own by
//! `Usage`. Nothing is promised but that it is safe: no clause can say what the system tells.
#![tactic(auto)]

mod usage;

pub use usage::Usage;
