//! Scripts of steps and commands, replayed over a fleet.
//!
//! `aggregator replay` and the programs of its rows call it. `replay_lines` writes what
//! specs/Script says that a script prints: its configuration is read up to the first line `start`,
//! and then each line is done. The lines' texts stand one behind the other, each that of the
//! fleet's answers after the steps before it (specs/Runs), up to a line that ends the replay or for
//! which an allocation fails. Behind a step that tells a connection stand the pushed tables with
//! the keys that it was told (specs/Tellings). Where a read or a write fails, a beginning of that
//! was written. Of the script one line is kept at a time. `replay` does the same with a script in
//! memory, `replay_from` with a flush at the end. No clause says that an allocation fails only
//! where there is no memory.
#![tactic(auto)]

mod commands;
mod doing;
mod ending;
mod running;
mod script;
mod start;
mod steps;
mod streams;
mod tellings;
mod texts;
mod writing;

pub use ending::Ending;
pub use script::replay;
pub use streams::{replay_from, replay_lines};
