//! What happens to a fleet of two tables, as data.

use agg_types::{
    Cell, Cells, Col, Cond, Filter, Items, Key, Name, NoMemory, Op, Select, What, Whats,
};
use std::alloc::Global;

/// A row of a peer: the number of its key, its life in ms, and what its cells are made from.
#[derive(Clone, Copy)]
pub struct Row {
    pub peer: usize,
    pub table: usize,
    pub key: u16,
    pub life: Option<u64>,
    pub count: u32,
}

/// One thing that happens. Seats come first; moments are in ms.
#[derive(Clone, Copy)]
pub enum Deed {
    Sit(u64),
    Open(u64, usize),
    Put(u64, Row),
    /// A seat puts a rate of the first table's key 1 for a peer: how long its period runs, and what
    /// came in the one before.
    Rate(u64, usize, u64, u32),
    /// All rows of a table go.
    ClearAll(usize),
    /// A key's rows go, by the table and the number of the key.
    ClearKey(usize, u16),
    /// The rows of keys of a table go whose count is above a bound.
    ClearAbove(usize, u64),
    /// A filter of this name on a table's rate, which is at least a bound.
    Add(u8, usize, u64),
    /// The added filter of this name goes.
    Drop(u8),
    /// The filter of the configuration is to go, which stays.
    DropConfigured,
    Moment(u64),
    Leave(u64),
}

/// Strings that begin alike.
const LETTERS: &[u8] = b"alike-alike-alike-alike-alike-and-not-alike";

/// A key of a table by its number: an address in the first, a beginning of one string in others.
fn key(alloc: Global, table: usize, number: u16) -> Result<Key, NoMemory> {
    if table == 0 {
        let [high, low] = number.to_be_bytes();
        return Key::copy(alloc, &[10, 0, high, low]);
    }
    let len = usize::from(number % 40) + 1;
    Key::copy(alloc, &LETTERS[..len])
}

/// The cells of a row: a count, and a rate that the count is made of.
fn cells(count: u32) -> [Cell; 2] {
    let rate = Cell::Rate {
        elapsed: u64::from(count % 25),
        cur: count % 7,
        prev: count % 5,
    };
    [Cell::Count(u64::from(count)), rate]
}

fn put(alloc: Global, row: Row) -> Result<What, NoMemory> {
    Ok(What::Put {
        peer: row.peer,
        table: row.table,
        key: key(alloc, row.table, row.key)?,
        life: row.life,
        cells: Cells::copy(alloc, &cells(row.count))?,
    })
}

fn put_rate(alloc: Global, peer: usize, elapsed: u64, prev: u32) -> Result<What, NoMemory> {
    let rate = Cell::Rate {
        elapsed,
        cur: 0,
        prev,
    };
    Ok(What::Put {
        peer,
        table: 0,
        key: key(alloc, 0, 1)?,
        life: None,
        cells: Cells::copy(alloc, &[Cell::Count(0), rate])?,
    })
}

fn above(alloc: Global, col: Col, op: Op, bound: u64) -> Result<Items<Cond>, NoMemory> {
    Items::copy(alloc, &[Cond { col, op, bound }])
}

fn added(alloc: Global, name: u8, table: usize, bound: u64) -> Result<What, NoMemory> {
    Ok(What::AddFilter(Filter {
        name: Name::copy(alloc, &[name])?,
        table,
        conds: above(alloc, Col::HttpReqRate, Op::Ge, bound)?,
    }))
}

/// The seat at which it happens. The clock, and who clears, adds and drops, sits at 0.
pub fn seat_of(deed: Deed) -> u64 {
    match deed {
        Deed::Sit(seat) | Deed::Open(seat, _) | Deed::Put(seat, _) | Deed::Leave(seat) => seat,
        Deed::Rate(seat, _, _, _) => seat,
        _ => 0,
    }
}

/// Adds what happens to a batch. A row is added with its cells, as a session adds it.
pub fn add(alloc: Global, batch: &mut Whats, deed: Deed) -> Result<(), NoMemory> {
    match deed {
        Deed::Put(_, row) => {
            let key = key(alloc, row.table, row.key)?;
            batch.push_put(row.peer, row.table, key, row.life, &cells(row.count))
        }
        _ => batch.push(what(alloc, deed)?),
    }
}

/// What happens.
pub fn what(alloc: Global, deed: Deed) -> Result<What, NoMemory> {
    match deed {
        Deed::Sit(_) => Ok(What::Sit),
        Deed::Open(_, peer) => Ok(What::Open(peer)),
        Deed::Put(_, row) => put(alloc, row),
        Deed::Rate(_, peer, elapsed, prev) => put_rate(alloc, peer, elapsed, prev),
        Deed::ClearAll(table) => Ok(What::Clear {
            table,
            sel: Select::All,
        }),
        Deed::ClearKey(table, number) => Ok(What::Clear {
            table,
            sel: Select::One(key(alloc, table, number)?),
        }),
        Deed::ClearAbove(table, bound) => Ok(What::Clear {
            table,
            sel: Select::Conds(above(alloc, Col::Gpc0, Op::Gt, bound)?),
        }),
        Deed::Add(name, table, bound) => added(alloc, name, table, bound),
        Deed::Drop(name) => Ok(What::DropFilter(Name::copy(alloc, &[name])?)),
        Deed::DropConfigured => Ok(What::DropFilter(Name::copy(alloc, b"standing")?)),
        Deed::Moment(moment) => Ok(What::Moment(moment)),
        Deed::Leave(_) => Ok(What::Leave),
    }
}
