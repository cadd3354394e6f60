//! The rows in force, and what they say of keys.
//!
//! `book` stands on it: its machine puts and clears rows here, its filters and lists ask for the
//! values of keys, and its queries list keys. `Store` keeps the rows in `peer_rows`, by table, key
//! and peer. Contracts see it as a list of rows by place (`InForce`), and speak of them by
//! `fleet_model`'s definitions.
//!
//! Promised: a row that is put stands in the place of the one that was there, and a refused
//! allocation changes nothing; ended and cleared rows are gone, and no others. What a key is worth
//! in a column at a moment is the sum over its rows (`values`), and what is answered of keys is
//! what `fleet_model` says of these rows: their sums and the keys that live (`queries`), those that
//! meet conditions, in order, all or the first ones behind a key (`meeting`, `first_meeting`), and
//! whether a peer may put one more (`Store::has_room`).
//!
//! Hints at where a key's rows lie (`Spot`, `Trace`) change no answer, and no clause says that they
//! save a search. Nor does one say how many rows are looked at, which keys `end_rows` answers, or
//! what `Drops` counts: tests show it.
#![tactic(auto)]

mod at;
mod drops;
mod first;
mod listed;
mod listing;
mod puts;
pub mod queries;
mod rooms;
mod row;
mod store;
pub mod values;

pub use at::At;
pub use drops::Drops;
pub use first::{Sought, first_meeting};
pub use listing::{BookRows, meeting};
pub use row::is_live;
pub use store::{Size, Store};
