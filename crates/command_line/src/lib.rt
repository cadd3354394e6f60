//! What the words of a command line ask for.
//!
//! `aggregator` reads its own with it. `read` gives the job, or why there is none with the exit
//! status that this has. How words make up options and their values is `clap`'s; the contract of
//! `read` is exact over its definitions, and `laws` say what they come to at the lines that the
//! documents show. No clause speaks of the texts of help and of usage errors, which are `clap`'s.
#![tactic(auto)]

mod address;
mod hosts;
mod job;
pub mod laws;
mod network;
mod networks;
mod reading;
mod usage;

pub use address::read_address;
pub use job::{Endpoints, Job, UnknownPeers};
pub use network::Network;
pub use networks::{admits, read_network};
pub use reading::{VERSION, read};
pub use usage::{PlaceOption, Usage};
