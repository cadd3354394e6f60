//! A configuration as text: the lines that `agg_config` reads, and its faults in words.
//!
//! For who shows what is configured, or why it can't be. What is appended is exactly the text that
//! `agg_config::written_configuration_is_read` speaks of: read again, it gives the configuration.
//! Of a fault it is the line's number, the word as it stands there, and what had to stand there. A
//! number with a unit is told as digits, and a name that nothing has with the names that there are.
//! After `NoMemory` a part of it may stand behind what was there. No clause says that there is
//! memory.
#![tactic(auto)]

mod explained;
mod lines;
mod named;
mod spelled;
mod tables;
mod words;

pub use explained::{append_explanation, append_explanations};
pub use lines::{append_config, append_filters, append_pushes, append_ranks, append_table};
