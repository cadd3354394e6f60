//! The rows that the peers of a fleet hold: for each peer, table and key at most one.
//!
//! It is what a book of a fleet keeps of its peers' updates. Contracts see one finite map from
//! places to rows, as the list of its entries by table, key and peer. Each call is an insertion, a
//! removal, a look-up or a filter of that list, and a call that ran out of memory changed nothing.
//! The rows of one key lie together, so that one search finds what all peers hold of it.
//!
//! Rows lie in the numbered places of an exact index, a place of 72 bytes for a key, in no order. A
//! `Spot` is the number of a place: the place's key is looked at before it is believed. A key whose
//! hash's window is full lies in an ordered map. So keys that are made to collide cost what an
//! ordered map costs, and the hash needs no secret. `by_key` sorts the keys of its table in memory
//! of its own, which is given back with the listing. `each_key` walks the places as they lie.
//!
//! A key's place is looked at before the first of its rows ends (`place_plans`), and `end_rows`
//! takes out what has ended by a moment: it looks at what is due and no more. A row that is
//! exchanged for one that ends no earlier leaves the plan as it is. Where memory for a plan is
//! refused, the row is put all the same, and the next `end_rows` looks at all places. A place of
//! whose rows none ends has no plan, so none is left behind.
//!
//! The words of an update's packed cells are those of a row but for the moments of its rates: so
//! `arrive_at` copies them over the held row and dates its rates there, and makes no row beside it
//! where the key has one alone.
//!
//! No clause says how long a call takes. A look-up is at most one search of a table's keys, `count`
//! and `used` take constant time. A row that replaces another takes no memory but for its plan, and
//! for sums or pages for which it was refused before.
//! Of a `Spot` or a `Trace` clauses say only that no answer depends on it. Which keys `end_rows`
//! answers none says: those of which no row is left, as far as there was memory to tell them.
#![tactic(auto)]

mod ahead;
mod arrival;
mod arriving;
mod blank;
mod by_key;
mod each_key;
mod ending;
mod ends;
mod few;
mod index;
mod key_rows;
mod keyed;
mod listing;
mod mosts;
mod narrow;
mod of_key;
mod packed;
mod page;
mod pages;
mod row;
mod rows;
mod spot;
mod table;

pub use arrival::{Arrival, Arrived};
pub use by_key::ByKey;
pub use each_key::EachKey;
pub use of_key::OfKey;
pub use place_index::Trace;
pub use row::{FEW_CELLS, Held, Row, RowCells};
pub use rows::Rows;
pub use spot::Spot;
