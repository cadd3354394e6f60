//! An event of a batch, as the batch lends it.
ghost use Rattle.std.specs.Prelude.{◌≡◌, slice_get};
ghost use Rattle.agg_types.specs.Whats.{as_what, lent_cells};

use crate::{Cell, Key, PackedCells, What};

/// The cells of an update, as a batch lends them.
#[derive(Clone, Copy, Debug)]
pub enum LentCells<'a> {
    /// One by one.
    Slice(&'a [Cell]),
    /// In words.
    Packed(&'a PackedCells),
}

impl LentCells<'_> {
    /// The cell of a column, if there is one.
    #[inline]
    pub fn get(self, col: usize) -> Option<Cell>
        ensures { result ≡ slice_get (lent_cells self.entry) col }
    {
        match self {
            LentCells::Slice(cells) => cells.get(col).copied(),
            LentCells::Packed(cells) => cells.get(col),
        }
    }
}

/// What happened, as a batch lends it: the `What` of the same name, or any other.
#[derive(Clone, Copy, Debug)]
pub enum LentWhat<'a> {
    /// A peer's row of a table and key, in place of an older one.
    Put {
        peer: usize,
        table: usize,
        key: &'a Key,
        life: Option<u64>,
        cells: LentCells<'a>,
    },
    /// What lies in the batch as it is.
    Other(&'a What),
}

impl<'a> LentWhat<'a> {
    /// What is lent of one that lies elsewhere.
    #[inline]
    pub fn of(what: &'a What) -> LentWhat<'a>
        ensures { as_what result ≡ what.now }
    {
        match what {
            What::Put {
                peer,
                table,
                key,
                life,
                cells,
            } => LentWhat::Put {
                peer: *peer,
                table: *table,
                key,
                life: *life,
                cells: LentCells::Slice(cells.as_slice()),
            },
            _ => LentWhat::Other(what),
        }
    }
}
