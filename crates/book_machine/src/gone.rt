//! What a clear took.

use agg_types::Key;

/// Which keys of a table an event took all rows of.
#[derive(Debug, Drop)]
pub enum Gone {
    /// None: it isn't a clear, or doesn't count.
    Nothing,
    /// Every key.
    Table,
    /// These, each once or more often.
    Keys(Vec<Key>),
}
