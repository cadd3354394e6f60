//! What one connection was told of a table, and what it is still to be told.

use crate::{Changes, Marks};
use agg_types::Key;

/// A key, the moment, in ms, at which it was last put, and whether its set had it at the last turn,
/// as contracts see them in `Marks`.
#[derive(Drop)]
pub struct Mark {
    pub key: Key,
    pub put: u64,
    pub is_in: bool,
}

/// What was told of a table: the id of its last update, 0 before the first, and the keys that were
/// put and not taken away, in the order of their bytes.
#[derive(Drop)]
pub struct ToldTable {
    pub last: u32,
    pub marks: Marks,
}

/// What is still to be written of a table: the id of the update before that, and the changes.
#[derive(Drop)]
pub struct UnsaidTable {
    pub last: u32,
    pub changes: Changes,
}
