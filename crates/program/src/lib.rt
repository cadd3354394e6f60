//! What the words of a command line do to the streams of the program, and with which exit status.
//!
//! `listening::run` calls it over the handles of the machine, and test programs in memory.
//! `prepare` does all that a command line asks for but collect. It prints help or a mistake,
//! replays, prints a configuration for a haproxy.cfg, checks one, or reads one and prints its first
//! fault. What explains a fault goes to standard error. A configuration is the text of a file that
//! `Files` finds, or of standard input. What is left is a status, or what to collect by. `tell`
//! prints why collecting didn't begin or ended, `tell_no_words` why there are no words. Their
//! contracts say which bytes go to which stream and which status comes. The texts of help and of
//! most mistakes are `clap`'s, and the reasons of the system are its own: no clause says them, and
//! test_program prints some.
#![tactic(auto)]

mod checking;
mod fault;
mod files;
mod prepared;
mod preparing;
mod texts;
mod words;

pub use fault::{FAULT, Fault, Stuck, tell};
pub use files::Files;
pub use prepared::{Asked, Prepared};
pub use preparing::prepare;
pub use words::{arguments, tell_no_words};
