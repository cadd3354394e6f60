ghost use Rattle.std.specs.Prelude.{◌≡◌, ◌&&◌, drop, IfSome};
ghost use Rattle.std.specs.List.{list_all};
ghost use Rattle.agg_types.specs.Fits.{key_fits, cell_fits, cells_fit, row_fits, stores, conds_fit};
ghost use Rattle.agg_types.specs.Fits.{select_fits, at_table, life_fits, filter_fits, fits};
ghost use Rattle.agg_types.specs.Form.{IsFormAt};
ghost use Rattle.agg_types.specs.Whats.{as_what, lent_cells};
ghost use Rattle.agg_types.specs.declared.event.What.TheVariants.{Put};

use crate::limits::{LAST_MOMENT, MOST_CONDS};
use crate::{
    Cell, Col, Cond, Config, Filter, Key, KeyKind, LentCells, LentWhat, PackedCells, Select, Shape,
    UpdateForm, What,
};

impl Config {
    /// Whether something may happen in this configuration. Its positions are in range, its key has
    /// the table's length, and each stored column has one cell of its kind. Its life has 32 bits,
    /// and its moment is at most the last. It has a condition or as many as there may be, each on a
    /// stored column.
    pub fn fits(&self, what: &What) -> bool
        ensures { result ≡ fits self.now what.now }
    {
        self.fits_lent(LentWhat::of(what))
    }

    /// Whether what is lent may happen in this configuration, as `fits` says it.
    #[inline]
    pub fn fits_lent(&self, what: LentWhat<'_>) -> bool
        ensures { result ≡ fits self.now (as_what what.entry) }
    {
        match what {
            LentWhat::Put {
                peer,
                table,
                key,
                life,
                cells,
            } => self.put_fits(peer, table, key, life, cells),
            LentWhat::Other(what) => self.other_fits(what),
        }
    }

    /// The same, said sooner of an update of a table whose form is known.
    #[inline(always)]
    pub fn fits_by(&self, table: usize, form: Option<UpdateForm>, what: LentWhat<'_>) -> bool
        requires { IfSome form (IsFormAt self.now.tables table) }
        ensures { result ≡ fits self.now (as_what what.entry) }
    {
        let LentWhat::Put {
            peer,
            table: own,
            key,
            life,
            cells: LentCells::Packed(cells),
        } = what
        else {
            return self.fits_lent(what);
        };
        match form {
            Some(form) if own == table && form.takes(key, cells) => {
                peer < self.peers.len() && life_fits(life)
            }
            _ => self.fits_lent(what),
        }
    }

    // Whether one may happen that lies elsewhere as it is.
    fn other_fits(&self, what: &What) -> bool
        ensures { result ≡ fits self.now what.now }
    {
        let tables = self.tables.as_slice();
        match what {
            What::Sit => true,
            What::Open(peer) => *peer < self.peers.len(),
            What::Put {
                peer,
                table,
                key,
                life,
                cells,
            } => self.put_fits(
                *peer,
                *table,
                key,
                *life,
                LentCells::Slice(cells.as_slice()),
            ),
            What::Clear { table, sel } => selection_fits(tables, *table, sel),
            What::AddFilter(filter) => filter_fits(tables, filter),
            What::DropFilter(_) => true,
            What::Moment(moment) => *moment <= LAST_MOMENT,
            What::Leave => true,
        }
    }

    // Whether a row may be put.
    fn put_fits(
        &self,
        peer: usize,
        table: usize,
        key: &Key,
        life: Option<u64>,
        cells: LentCells<'_>,
    ) -> bool
        ensures { result ≡ fits self.now (Put peer table key.now life (lent_cells cells.entry)) }
    {
        peer < self.peers.len()
            && life_fits(life)
            && row_fits(self.tables.as_slice(), table, key, cells)
    }
}

impl KeyKind {
    /// Whether these bytes may be a key of this kind.
    pub fn fits(self, key: &[u8]) -> bool
        ensures { result ≡ key_fits self key.now }
    {
        self.length().allows(key.len() as u64)
    }
}

impl Shape {
    /// Whether a column is among those stored.
    pub fn stores(&self, col: Col) -> bool
        ensures { result ≡ stores self.now.cols col }
    {
        stores(self.cols.as_slice(), col)
    }
}

fn stores(cols: &[(Col, u32)], col: Col) -> bool
    ensures { result ≡ stores cols.now col }
{
    cols.iter().any(|stored| stored.0.id() == col.id())
}

fn life_fits(life: Option<u64>) -> bool
    ensures { result ≡ life_fits life }
{
    match life {
        None => true,
        Some(life) => life < 1 << 32,
    }
}

fn row_fits(tables: &[Shape], table: usize, key: &Key, cells: LentCells<'_>) -> bool
    ensures { result ≡ row_fits tables.now table key.now (lent_cells cells.entry) }
{
    match tables.get(table) {
        None => false,
        Some(shape) => { shape.kind.fits(key.as_slice()) && lent_fit(shape.cols.as_slice(), cells) }
    }
}

fn lent_fit(cols: &[(Col, u32)], cells: LentCells<'_>) -> bool
    ensures { result ≡ cells_fit cols.now (lent_cells cells.entry) }
{
    match cells {
        LentCells::Slice(cells) => cells_fit(cols, cells),
        LentCells::Packed(cells) => packed_fit(cols, cells, 0),
    }
}

// The same of packed cells from a place on.
fn packed_fit(cols: &[(Col, u32)], cells: &PackedCells, from: usize) -> bool
    ensures { result ≡ cells_fit cols.now (drop from cells.now) }
{
    match cells.get(from) {
        None => cols.is_empty(),
        Some(cell) => match cols {
            [] => false,
            [col, cols @ ..] => cell_fits(col.0, cell) && packed_fit(cols, cells, from + 1),
        },
    }
}

fn cells_fit(cols: &[(Col, u32)], cells: &[Cell]) -> bool
    ensures { result ≡ cells_fit cols.now cells.now }
{
    match cols {
        [] => cells.is_empty(),
        [col, cols @ ..] => match cells {
            [] => false,
            [cell, cells @ ..] => cell_fits(col.0, *cell) && cells_fit(cols, cells),
        },
    }
}

fn cell_fits(col: Col, cell: Cell) -> bool
    ensures { result ≡ cell_fits col cell }
{
    match cell {
        Cell::Count(count) => !col.is_rate() && (col.is_wide() || count < 1 << 32),
        Cell::Rate { .. } => col.is_rate(),
    }
}

fn selection_fits(tables: &[Shape], table: usize, sel: &Select) -> bool
    ensures { result ≡ at_table tables.now table (λ shape. select_fits shape sel.now) }
{
    match tables.get(table) {
        None => false,
        Some(shape) => select_fits(shape, sel),
    }
}

fn select_fits(shape: &Shape, sel: &Select) -> bool
    ensures { result ≡ select_fits shape.now sel.now }
{
    match sel {
        Select::All => true,
        Select::One(key) => shape.kind.fits(key.as_slice()),
        Select::Conds(conds) => conds_fit(shape.cols.as_slice(), conds.as_slice()),
    }
}

fn conds_fit(cols: &[(Col, u32)], conds: &[Cond]) -> bool
    ensures { result ≡ conds_fit cols.now conds.now }
{
    let stored = all_stored(cols, conds);
    !conds.is_empty() && conds.len() <= MOST_CONDS && stored
}

pub(crate) fn all_stored(cols: &[(Col, u32)], conds: &[Cond]) -> bool
    ensures { result ≡ list_all (λ cond. stores cols.now cond.col) conds.now }
{
    conds.iter().all(|cond| stores(cols, cond.col))
}

fn filter_fits(tables: &[Shape], filter: &Filter) -> bool
    ensures { result ≡ filter_fits tables.now filter.now }
{
    filter.name.is_valid()
        && match tables.get(filter.table) {
            None => false,
            Some(shape) => conds_fit(shape.cols.as_slice(), filter.conds.as_slice()),
        }
}
