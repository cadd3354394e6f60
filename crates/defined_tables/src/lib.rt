//! What comes of the tables that proxies define, and what is told of it.
//!
//! `collector_log` stands on it. `judge` says whether a table is followed, or why not, `Because`
//! says that in words, and `lacks_of` says which configured columns a followed one doesn't bring.
//! `DefinedTables` keeps what a connection of a peer defined, and `Mentioned` what was told of a
//! peer, so that it is told once.
//!
//! Promised: `lacks_of` says exactly which columns a definition lacks, and why. Which verdict comes
//! of a table, what is kept and what counts as told, and what the texts say, test_program shows.
#![tactic(auto)]

mod columns;
mod kept;
mod mentioned;
mod reasons;
mod verdict;

pub use columns::{Columns, Lacking, lacks_of};
pub use kept::{DefinedTable, DefinedTables};
pub use mentioned::{Mention, Mentioned};
pub use reasons::Because;
pub use verdict::{Verdict, judge};
