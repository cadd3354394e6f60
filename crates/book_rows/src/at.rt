//! Where a peer's row of a key stands, for calls that copy no key.

use agg_types::Key;
use peer_rows::Spot;

/// The place of a peer's row of a table and key, with a hint at where the key's rows lie.
#[derive(Clone, Copy, Debug)]
pub struct At<'a> {
    /// The position of the table.
    pub table: usize,
    /// The key.
    pub key: &'a Key,
    /// The position of the peer.
    pub peer: usize,
    /// Where the rows of the key may lie, if that is known.
    pub spot: Option<Spot>,
    /// Whether a ranked list is of the table.
    pub is_ranked: bool,
}
