//! Rows that are put and taken away.

ghost use Rattle.std.specs.Prelude.{◌≡◌, ◌<◌, ◌≤◌, [], ◌∷◌, ◌++◌, map};
ghost use Rattle.std.specs.Prelude.{IfOk, OnOk, OnErr};
ghost use Rattle.std.specs.BTreeMap.{insert_entry, is_at};
ghost use Rattle.std.specs.Map.{remove_entry};
ghost use Rattle.agg_types.specs.RowKey.{row_key_cmp};
ghost use Rattle.agg_types.specs.Whats.{lent_cells};
ghost use Rattle.agg_types.specs.declared.limits.TheConstants.{LAST_MOMENT};
ghost use Rattle.fleet_model.specs.Normalized.{normalized_cell, normalized_cells};
ghost use Rattle.peer_rows.specs.Rows.{without_key, without_table};
ghost use Rattle.book_rows.specs.Planned.{AreRows, IsInside, IsShort, place_at};
ghost use Rattle.book_rows.specs.Shown.{arrivals, as_arrival, cell_of};
ghost use Rattle.book_rows.specs.Store.{HasArrived, put_arrival};

use crate::at::At;
use crate::store::Size;
use agg_types::{Cell, Col, Key, LentCells, NoMemory};
use peer_rows::{Arrival, Arrived, FEW_CELLS, Held, Row, RowCells, Rows, Spot};
use period_rate::Rate;
use std::alloc::Global;
use std::mem;

/// Whether a row was put, and where the rows of its key lie, if that was seen.
#[derive(Clone, Copy)]
pub(crate) struct Arriving {
    pub(crate) is_done: bool,
    pub(crate) spot: Option<Spot>,
}

/// Puts the row that packed cells make which arrive, where it lies, in the place of the one that
/// stood there. A key whose spot isn't known is searched once, whether it has rows or not. It isn't
/// done, and nothing has changed, where the cells don't fit a row itself, or the key has rows and
/// none of the peer.
#[inline(always)]
pub(crate) fn arrive(
    rows: &mut Rows,
    size: Size,
    at: At<'_>,
    arrival: &Arrival<'_>,
) -> Result<Arriving, NoMemory>
    requires rows { AreRows size.peers size.tables rows.old }
    requires inside { IsInside size.peers size.tables (place_at at) }
    requires in_range { arrival.now.t ≤ LAST_MOMENT }
    ensures ok { IfOk result (λ arriving.
        HasArrived arriving.is_done rows.old rows.new (place_at at.entry) arrival.now) }
    ensures err { OnErr result (rows.new ≡ rows.old) }
    ensures kept { AreRows size.peers size.tables rows.new }
{
    if at.spot.is_some() {
        return Ok(arrive_held(rows, size, at, arrival));
    }
    match rows.insert_arrival(at.peer, at.table, at.key, arrival)? {
        Arrived::New => Ok(Arriving::new(true, None)),
        Arrived::Misfit => Ok(Arriving::new(false, None)),
        Arrived::Held(spot) => {
            let at = At {
                spot: Some(spot),
                ..at
            };
            Ok(arrive_held(rows, size, at, arrival))
        }
    }
}

// The same where the peer holds a row of the key.
#[inline(always)]
fn arrive_held(rows: &mut Rows, size: Size, at: At<'_>, arrival: &Arrival<'_>) -> Arriving
    requires rows { AreRows size.peers size.tables rows.old }
    requires inside { IsInside size.peers size.tables (place_at at) }
    requires in_range { arrival.now.t ≤ LAST_MOMENT }
    ensures ok { HasArrived result.is_done rows.old rows.new (place_at at.entry) arrival.now }
    ensures kept { AreRows size.peers size.tables rows.new }
{
    let is_done = rows.arrive_at(at.spot, at.peer, at.table, at.key, arrival);
    Arriving::new(is_done, at.spot)
}

impl Arriving {
    #[inline(always)]
    fn new(is_done: bool, spot: Option<Spot>) -> Arriving
        ensures { result.is_done ≡ is_done }
    {
        Arriving { is_done, spot }
    }
}

/// Lays a row down that arrives at a moment, in ms, where another one lies. One of few cells takes
/// no memory, and is made there.
#[inline(always)]
pub(crate) fn lay_row(
    row: &mut Row,
    alloc: Global,
    t: u64,
    life: Option<u64>,
    cols: &[(Col, u32)],
    cells: LentCells<'_>,
) -> Result<(), NoMemory>
    requires in_range { t ≤ LAST_MOMENT }
    requires short { IsShort life }
    ensures { OnOk result
        (as_arrival row.new ≡ put_arrival t life cols.now (lent_cells cells.entry)) }
{
    match cells {
        LentCells::Slice(cells) => lay_cells(row, alloc, t, life, cols, cells),
        LentCells::Packed(cells) => {
            let cells = cells.unpack(alloc)?;
            lay_cells(row, alloc, t, life, cols, cells.as_slice())
        }
    }
}

// The same of cells that lie one by one.
fn lay_cells(
    row: &mut Row,
    alloc: Global,
    t: u64,
    life: Option<u64>,
    cols: &[(Col, u32)],
    cells: &[Cell],
) -> Result<(), NoMemory>
    requires in_range { t ≤ LAST_MOMENT }
    requires short { IsShort life }
    ensures { OnOk result (as_arrival row.new ≡ put_arrival t life cols.now cells.now) }
{
    if cells.len() > FEW_CELLS {
        *row = new_row(alloc, t, life, cols, cells)?;
        return Ok(());
    }
    let mut held = RowCells::none(alloc);
    hold(&mut held, t, cols, cells)?;
    let life = short(life);
    if !row.set_few(&held, t, life) {
        *row = Row::new(held, t, life)?;
    }
    Ok(())
}

/// A row that arrives at a moment, in ms.
#[inline(never)]
fn new_row(
    alloc: Global,
    t: u64,
    life: Option<u64>,
    cols: &[(Col, u32)],
    cells: &[Cell],
) -> Result<Row, NoMemory>
    requires in_range { t ≤ LAST_MOMENT }
    requires short { IsShort life }
    ensures { IfOk result
        (λ row. as_arrival row ≡ put_arrival t life cols.now cells.now) }
{
    let mut held = RowCells::with_capacity(alloc, cells.len())?;
    hold(&mut held, t, cols, cells)?;
    Ok(Row::new(held, t, short(life))?)
}

/// A life in 32 bits.
#[inline(always)]
pub(crate) fn short(life: Option<u64>) -> Option<u32>
    requires { IsShort life }
    ensures { result ≡ life }
{
    match life {
        None => None,
        Some(life) => Some(life as u32),
    }
}

// Puts cells that arrive at a moment behind others.
#[inline(always)]
fn hold(held: &mut RowCells, t: u64, cols: &[(Col, u32)], cells: &[Cell]) -> Result<(), NoMemory>
    requires { t ≤ LAST_MOMENT }
    ensures { OnOk result (map (cell_of t) held.new
        ≡ map (cell_of t) held.old ++ normalized_cells cols.now cells.now) }
{
    let mut cols_left = cols;
    let mut cells_left = cells;
    'cells: while let [col, cols_behind @ ..] = cols_left {
        let [cell, cells_behind @ ..] = cells_left else {
            break;
        };
        hold_one(held, t, col.1, *cell)?;
        cols_left = cols_behind;
        cells_left = cells_behind;
    }
    Ok(())
}

// Puts a cell that arrives at a moment behind others. Each kind is pushed by itself, so that what
// it is isn't asked again.
#[inline(always)]
fn hold_one(held: &mut RowCells, t: u64, period: u32, cell: Cell) -> Result<(), NoMemory>
    requires { t ≤ LAST_MOMENT }
    ensures { OnOk result (map (cell_of t) held.new
        ≡ map (cell_of t) held.old ++ normalized_cell period cell ∷ []) }
{
    match cell {
        Cell::Count(count) => held.push(Held::Count(count)),
        Cell::Rate { elapsed, cur, prev } => {
            let kept = elapsed.min(2 * u64::from(period) + 1);
            held.push(Held::Rate(Rate::arrive(period, kept, cur, prev, t)))
        }
    }
}

// Puts a row at a place: one that stands there is exchanged for it. Answers the place's hint.
#[inline(always)]
fn put_row(rows: &mut Rows, size: Size, at: At<'_>, row: &mut Row) -> Result<Option<Spot>, NoMemory>
    requires rows { AreRows size.peers size.tables rows.old }
    requires inside { IsInside size.peers size.tables (place_at at) }
    ensures ok { OnOk result (rows.new ≡ record rows.old
        { entries = insert_entry row_key_cmp rows.old.entries (place_at at.entry) row.old }) }
    ensures err { OnErr result (rows.new ≡ rows.old) }
    ensures kept { AreRows size.peers size.tables rows.new }
{
    if rows.exchange_at(at.spot, at.peer, at.table, at.key, row) {
        return Ok(at.spot);
    }
    let row = mem::replace(row, Row::blank());
    rows.put_at(at.spot, at.peer, at.table, at.key, row)?;
    Ok(at.spot)
}

/// Puts a row that has arrived, in the place of the one that stood there; another row is left where
/// it was taken. A key whose spot isn't known is searched once, whether it has rows or not. Answers
/// where its rows lay, if it had any.
#[inline(always)]
pub(crate) fn set_row(
    rows: &mut Rows,
    size: Size,
    at: At<'_>,
    row: &mut Row,
) -> Result<Option<Spot>, NoMemory>
    requires rows { AreRows size.peers size.tables rows.old }
    requires inside { IsInside size.peers size.tables (place_at at) }
    ensures ok { OnOk result (arrivals rows.new.entries ≡ insert_entry row_key_cmp
        (arrivals rows.old.entries) (place_at at.entry) (as_arrival row.old)) }
    ensures err { OnErr result (rows.new ≡ rows.old) }
    ensures kept { AreRows size.peers size.tables rows.new }
{
    if at.spot.is_some() {
        return put_row(rows, size, at, row);
    }
    match rows.insert_first(at.peer, at.table, at.key, row)? {
        None => Ok(None),
        Some(spot) => {
            let at = At {
                spot: Some(spot),
                ..at
            };
            put_row(rows, size, at, row)
        }
    }
}

/// Takes the row at a place away.
#[inline(never)]
pub(crate) fn drop_row(rows: &mut Rows, size: Size, at: At<'_>)
    requires rows { AreRows size.peers size.tables rows.old }
    requires inside { IsInside size.peers size.tables (place_at at) }
    ensures after { arrivals rows.new.entries
        ≡ remove_entry (is_at (row_key_cmp (place_at at.entry))) (arrivals rows.old.entries) }
    ensures kept { AreRows size.peers size.tables rows.new }
{
    rows.take_at(at.spot, at.peer, at.table, at.key);
}

/// Takes the rows of a table away.
pub(crate) fn drop_table(rows: &mut Rows, size: Size, table: usize)
    requires rows { AreRows size.peers size.tables rows.old }
    requires inside { table < size.tables }
    ensures after { rows.new ≡ without_table rows.old table }
    ensures kept { AreRows size.peers size.tables rows.new }
{
    rows.clear_table(table);
}

/// Takes the rows of a key away.
pub(crate) fn drop_key(rows: &mut Rows, size: Size, table: usize, key: &Key)
    requires rows { AreRows size.peers size.tables rows.old }
    requires inside { table < size.tables }
    ensures after { rows.new ≡ without_key rows.old table key.now }
    ensures kept { AreRows size.peers size.tables rows.new }
{
    rows.clear_key(table, key);
}
