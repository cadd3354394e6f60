use agg_types::COLUMNS;

/// What the fleet says of a key. It has how many peers hold a row of it, and the ms that the
/// longest of them has left, or none where some row never ends. It has the sum of each column, in
/// the order of `Col::ALL` (0 for a column that isn't stored).
#[derive(Clone, Copy, Debug, PartialEq, Eq)]
pub struct Summed {
    pub peers: usize,
    pub left: Option<u64>,
    pub values: [u128; COLUMNS],
}
