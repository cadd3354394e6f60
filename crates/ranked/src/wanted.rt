use agg_types::Col;

/// What is asked of a ranked list: the first keys of a table by a column at a moment.
#[derive(Clone, Copy, Debug)]
pub struct Wanted {
    pub table: usize,
    pub col: Col,
    /// How many keys at most.
    pub n: usize,
    /// The moment, in ms.
    pub now: u64,
}
