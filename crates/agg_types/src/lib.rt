//! The types that every other crate speaks of: keys and names, columns, a fleet's configuration,
//! and the events of its history, with the limits on their numbers.
//!
//! Every crate of the workspace uses it. Contracts see plain data: a key or a name is the list of
//! its bytes, in their order; a collection is the list of its items; a configuration and an event
//! are records of these. Promised are the tests: `Config::check` answers the first fault in a
//! stated order and none exactly where there is none; `Config::fits` holds exactly of what may
//! happen; `Op::holds` is the comparison; what is copied or duplicated is equal.
//!
//! A batch of events (`Whats`) is the list of what happens, whether it keeps an update's cells in
//! words (`PackedCells`) or one by one.
//!
//! No clause says that a copy succeeds while there is memory, or how much room a key takes (24
//! bytes where it has up to 16). Nor does one say that up to four cells take none beside their
//! list, or which updates a batch packs: those whose cells have seven words at most.
#![tactic(auto)]

mod cells;
mod check;
mod column;
mod config;
mod declared;
mod entry;
mod event;
mod fits;
mod form;
mod items;
mod key;
mod kind;
pub mod laws;
mod lent_what;
pub mod limits;
mod name;
mod no_memory;
mod packed;
mod row_key;
mod short_key;
mod whats;
mod words;

pub use cells::Cells;
pub use check::ConfigFault;
pub use column::{COLUMNS, Col, ColInfo, ColKind, LAST_BASIC_TYPE, LAST_TYPE};
pub use config::{Cond, Config, Filter, Ignored, KeyKind, Logged, Op, Push, Rank, Shape};
pub use declared::{Declared, Named};
pub use event::{Cell, Event, Select, What};
pub use form::UpdateForm;
pub use items::Items;
pub use key::Key;
pub use kind::{KINDS, KeyLength, KindInfo};
pub use lent_what::{LentCells, LentWhat};
pub use limits::{
    LAST_MOMENT, LAST_SEAT, MOST_CONDS, MOST_FILTERS, MOST_PEERS, MOST_PUSHES, MOST_RANKS,
    MOST_SEATS, MOST_TABLES, NUMBERS_END,
};
pub use name::{Name, is_name};
pub use no_memory::NoMemory;
pub use packed::PackedCells;
pub use row_key::RowKey;
pub use whats::Whats;
pub use words::{WORDS, Words, write_words};
