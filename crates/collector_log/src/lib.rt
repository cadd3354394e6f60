//! What a collector tells of itself: what is worth a line of the log, what operators ask of it, and
//! what pages show.
//!
//! `listening` gives `Notes` to the workers of `serve`, which tell it who came and went, what was
//! posted and which tables were defined. It notes what is worth a line (`journal`), and counts on
//! the `Board` what `show info`, `show peers` and `show peers <peer>` answer. `Watch` looks at the
//! book for full tables, for the keys of logged filters (`logged_keys`) and for rows that several
//! peers teach (`learned_rows`), and `CollectorFacts` is what the HTTP door shows. Nothing here is
//! promised but that it is safe. What is told, test_program prints.
#![tactic(auto)]

mod board;
mod facts;
mod fullness;
mod notes;
mod reporting;

pub use board::{Board, Totals};
pub use facts::CollectorFacts;
pub use fullness::{Fullness, Noted, Watch, note_learned};
pub use notes::Notes;
pub use process_figures::Usage;
pub use reporting::{Counters, HELP, append_info, append_peers, append_tables};
