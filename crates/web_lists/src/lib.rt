//! What is told of a book over HTTP.
//!
//! `web_door` asks for lists as JSON, and for a summary, of the book that a look found. The book
//! comes by reference, so nothing here changes it. Of a filter's keys exactly the part is told that
//! was asked for, and no more of them are kept (`keys_from`). Of a table's rows no more are looked
//! for than are told, and one (`Book::first_rows`).
//!
//! What changed of a filter's set is told of what moved in it (`set_moves`), and else of the set.
#![tactic(auto)]

mod changes;
mod indexing;
mod lists;
mod of_key;
mod parts;
mod summing;
mod values;

pub use changes::{MOST_CHANGES, MOST_TOLD, Span, change_list};
pub use indexing::index;
pub use lists::{filter_list, rank_list, row_list, table_list};
pub use of_key::one_key;
pub use summing::{held_by, summed_up};
