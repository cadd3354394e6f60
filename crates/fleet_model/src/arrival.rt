use agg_types::{Cell, Items};

/// A row as it stands at its place: the moment at which it arrived, in ms, how long it lives from
/// then on, and a cell for each stored column. It lives so many ms, or without end where that is
/// none.
#[derive(Debug, Drop)]
pub struct Arrival {
    pub arrived: u64,
    pub life: Option<u64>,
    pub cells: Items<Cell>,
}
