//! One change of a filter's set.

use agg_types::Key;

/// A key that came into a filter's set or left it, and how many events there were then.
#[derive(Debug, Drop)]
pub struct Change {
    /// How many events there were at the end of those among which it changed.
    pub number: u64,
    /// The key.
    pub key: Key,
    /// Whether the filter held it then.
    pub is_in: bool,
}
