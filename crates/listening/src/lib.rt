//! The program over the handles of a machine: the collector on sockets, with its log.
//!
//! `aggregator` calls `run`, and test programs call it over arguments and streams of their own.
//! `collect` listens at all addresses and gives the workers of `serve` the machine's sockets,
//! clock and standard error. It watches them, and ends a collector that is stuck. When it is,
//! `Patience` promises. Beside that nothing is promised but that it is safe: no clause can say what
//! a socket carried.
#![tactic(auto)]

mod attending;
mod beside;
mod collecting;
mod disk;
mod patience;
mod pulse;
mod running;

pub use collecting::{Stopped, collect};
pub use disk::{Disk, Paths, Standard};
pub use patience::{Patience, Round, Signs};
pub use running::{run, run_words};
