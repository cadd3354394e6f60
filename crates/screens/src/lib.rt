//! What a key must be worth for a filter of its table to hold it, now or later.
//!
//! A book makes the screens of a table once for many updates (`table_use`). Most updates are of
//! keys that no filter holds, and of these a look at their rows then tells that no filter of the
//! table has to judge them.
//!
//! Promised: where screens stop rows, no filter of the table they are of holds their key at any
//! moment, whatever the rows' ages. There are screens of a table only where each of its filters has
//! a condition by `gt`, `ge` or `eq` on one of the first eight columns. Nothing takes memory.
#![tactic(auto)]

mod screens;

pub use screens::Screens;
