ghost use Rattle.std.specs.Prelude.{◌≡◌, ◌≤◌};
ghost use Rattle.agg_types.specs.declared.limits.TheConstants.{LAST_MOMENT};
ghost use Rattle.peer_rows.specs.Arriving.{arrived_row};
ghost use Rattle.peer_rows.specs.Ends.{end_of};

use crate::Spot;
use agg_types::{Col, PackedCells};

/// The cells of an update that arrive at a moment, in ms, in a table's columns, each with its
/// period in ms, and the life in ms from then on, if they end.
#[derive(Clone, Copy, Debug)]
pub struct Arrival<'a> {
    pub cells: &'a PackedCells,
    pub cols: &'a [(Col, u32)],
    pub t: u64,
    pub life: Option<u32>,
}

impl Arrival<'_> {
    // The moment from which their row has ended, if it ends.
    #[inline(always)]
    pub(crate) fn end(&self) -> Option<u64>
        requires { self.now.t ≤ LAST_MOMENT }
        ensures { result ≡ end_of (arrived_row self.now) }
    {
        match self.life {
            None => None,
            Some(life) => Some(self.t + u64::from(life)),
        }
    }
}

/// What became of the first row of a key that was to arrive.
#[derive(Clone, Copy, Debug)]
pub enum Arrived {
    /// It is laid down.
    New,
    /// The key has rows, which lie there. Nothing has changed.
    Held(Spot),
    /// It can't be laid down as it arrives. Nothing has changed.
    Misfit,
}
