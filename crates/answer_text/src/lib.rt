//! The pieces of answers: the texts of tables and their rows, of standing filters and ranked lists,
//! and of one key with the peers that hold it.
//!
//! `show_clear` puts its answers together of them. Each call appends behind bytes that are there
//! already; after `NoMemory` a part of its text may stand behind them, and what was there is still
//! in front. What the texts are stands in specs/Tables, specs/Lists, specs/Names and
//! specs/KeyAnswer, as functions of rows, names and of the book's state.
#![tactic(auto)]

mod fleet;
mod lists;
mod names;
mod one_key;
mod pieces;
mod tables;

pub use lists::{append_change, append_change_ahead, append_held, append_ranking};
pub use one_key::append_one_key;
pub use pieces::{append_counted, append_labelled};
pub use tables::{append_heading, append_row, kind_name, shape_of};
