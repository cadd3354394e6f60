//! A list in blocks of 1,024 items that never move: `Segments`.
//!
//! `place_index` keeps its places in one, `hash_windows` its windows, `place_order` its nodes and
//! `place_plans` its links.
//!
//! Contracts see the items in order, and for how many further ones there is memory. `reserve` takes
//! the memory of so many, or changes nothing; `push_reserved` takes one of them, and `push` asks
//! for one. `get`, `replace` and `item_mut` are those of a list.
//!
//! The memory of a block is taken at once, and written only as items come. So a further item moves
//! at most the list of the blocks' addresses, where that grows: at most 48 KB, up to four million
//! items. No clause says so, nor how long a call takes.
#![tactic(auto)]

mod segments;

pub use segments::Segments;
