//! Whether proxies teach one another's rows: which sessions may, and what tells that they do.
//!
//! A proxy gives the rows that it learned, from other proxies or from its own worker before a
//! reload, update ids of their own. In a mesh two proxies teach the same rows, and the fleet's sums
//! count them twice. A reload alone gives learned rows too, but no other proxy holds these.
//!
//! `collector_log` keeps `Sessions`: what the present session of each peer taught of each table,
//! with the keys of the first rows that it had learned, at most 1,000. Once a second it asks for
//! one `Suspect`, a peer whose session taught more learned rows than own ones beside another one of
//! which that holds, and asks the book of it, without the lock under which the sessions lie.
//!
//! Promised: `Suspect::is_proved` counts exactly the keys of the sample of which both peers hold
//! rows with the same numbers, one above 3, as `show key` shows them, and answers yes exactly where
//! these are at least 10, and a hundredth, of all learned rows, as far as the sample tells; `laws`
//! say what that comes to. Of which session a suspect is and when it was told, test_program shows.
#![tactic(auto)]

mod alike;
mod judging;
pub mod laws;
mod sessions;
mod table;

pub use alike::{SMALL, are_alike, count_alike};
pub use judging::{LEAST_ROWS, SHARE, Suspect, prove_mesh};
pub use sessions::Sessions;
pub use table::SAMPLE;
