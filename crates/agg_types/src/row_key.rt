use crate::Key;

/// Where a row stands: a table, a key of it and the peer that holds the row.
///
/// Places are ordered by table, then by key, then by peer, so that the rows of one key lie
/// together.
#[derive(Debug, Drop, PartialEq, Eq, PartialOrd, Ord)]
pub struct RowKey {
    pub table: usize,
    pub key: Key,
    pub peer: usize,
}
