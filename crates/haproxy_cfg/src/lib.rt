//! What the lines of a haproxy.cfg say of peers and stick tables.
//!
//! For `haproxy_import`, which walks the lines and makes a collector's configuration of them. Here
//! is what HAProxy's Configuration Manual says of one line: `opened` tells which kind of section a
//! line opens, and `before_hash` leaves its comment off. `value_of` finds the word behind a
//! keyword, and `ms_of` reads a time. `shape_of` is the table that the rest of a line describes,
//! with HAProxy's lengths and periods, with room for twice its entries, and with the life that
//! rates need at most. `item_of` and `period_behind` say of one column whether it is stored under
//! its own name, `stored_period` whether it is stored at all: `gpc0` and `gpc1` are the first two
//! elements of `gpc(n)`, too, and their rates those of `gpc_rate(n,p)`.
//!
//! Promised: each answer is exactly its definition in specs/, over the words of the line. What
//! isn't read here, as a type or a unit that no table may have, is `None`. `NoMemory` comes from
//! `shape_of` alone. Quotes, escapes and variables aren't read: `plain_name` says whether a name
//! has none. No clause says that HAProxy reads a line so.
#![tactic(auto)]

mod arrays;
mod lives;
mod sections;
mod tables;
mod values;

pub use arrays::{MOST_ELEMENTS, array_behind, array_len, array_period};
pub use sections::{SectionKind, before_hash, opened};
pub use tables::{fits, item_of, kind_of, period_behind, plain_name, shape_of, stored_period};
pub use values::{has_word, ms_of, value_of, word_of};
