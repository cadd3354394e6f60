//! Cells that are packed in words, rows that are laid of them where they lie, and batches.

use agg_types::{Cell, Col, Key, LentCells, LentWhat, NoMemory, PackedCells, Whats};
use anyhow::Result;
use peer_rows::{Arrival, Held, Row, Rows};
use period_rate::Rate;
use std::alloc::Global;

/// Columns, each with its period in ms, the cells of an update, when it arrives and for how long,
/// in ms.
#[derive(Clone, Copy)]
struct Case {
    name: &'static str,
    cols: &'static [(Col, u32)],
    cells: &'static [Cell],
    t: u64,
    life: Option<u32>,
}

const COUNTS: &[(Col, u32)] = &[(Col::Gpc0, 0), (Col::BytesInCnt, 0)];

const RATE: &[(Col, u32)] = &[(Col::HttpReqRate, 10_000)];

const MIXED: &[(Col, u32)] = &[
    (Col::Gpc0, 0),
    (Col::HttpReqRate, 10_000),
    (Col::ConnRate, 1_000),
];

const SLOW: &[(Col, u32)] = &[(Col::HttpReqRate, 1 << 24)];

const LARGEST: Cell = Cell::Count(0xffff_ffff);

const LARGER: Cell = Cell::Count(0x1_0000_0000);

/// What fits, and what is just too large for words or for a row's own place.
const CASES: [Case; 12] = [
    Case {
        name: "nothing",
        cols: &[],
        cells: &[],
        t: 0,
        life: None,
    },
    Case {
        name: "largest counts",
        cols: COUNTS,
        cells: &[Cell::Count(0), LARGEST],
        t: 5,
        life: Some(0),
    },
    Case {
        name: "a larger count",
        cols: COUNTS,
        cells: &[Cell::Count(0), LARGER],
        t: 5,
        life: None,
    },
    Case {
        name: "largest rate",
        cols: RATE,
        cells: &[Cell::Rate {
            elapsed: 0xffff_ffff,
            cur: 65_535,
            prev: 65_535,
        }],
        t: 5,
        life: Some(1),
    },
    Case {
        name: "more events",
        cols: RATE,
        cells: &[Cell::Rate {
            elapsed: 0,
            cur: 65_536,
            prev: 0,
        }],
        t: 5,
        life: None,
    },
    Case {
        name: "more events before",
        cols: RATE,
        cells: &[Cell::Rate {
            elapsed: 0,
            cur: 0,
            prev: 65_536,
        }],
        t: 5,
        life: None,
    },
    Case {
        name: "longer ago",
        cols: RATE,
        cells: &[Cell::Rate {
            elapsed: 0x1_0000_0000,
            cur: 1,
            prev: 1,
        }],
        t: 5,
        life: None,
    },
    Case {
        name: "seven words",
        cols: MIXED,
        cells: &[
            Cell::Count(7),
            Cell::Rate {
                elapsed: 20_001,
                cur: 3,
                prev: 4,
            },
            Cell::Rate {
                elapsed: 2_002,
                cur: 5,
                prev: 6,
            },
        ],
        t: 1_000_000,
        life: Some(60_000),
    },
    Case {
        name: "eight words",
        cols: MIXED,
        cells: &[
            Cell::Count(7),
            Cell::Count(8),
            Cell::Rate {
                elapsed: 1,
                cur: 3,
                prev: 4,
            },
            Cell::Rate {
                elapsed: 2,
                cur: 5,
                prev: 6,
            },
        ],
        t: 5,
        life: None,
    },
    Case {
        name: "more columns than cells",
        cols: MIXED,
        cells: &[
            Cell::Count(7),
            Cell::Rate {
                elapsed: 1,
                cur: 3,
                prev: 4,
            },
        ],
        t: 5,
        life: None,
    },
    Case {
        name: "a long period",
        cols: SLOW,
        cells: &[Cell::Rate {
            elapsed: 0,
            cur: 1,
            prev: 1,
        }],
        t: 5,
        life: None,
    },
    Case {
        name: "a late moment",
        cols: RATE,
        cells: &[Cell::Rate {
            elapsed: 0,
            cur: 1,
            prev: 1,
        }],
        t: 1 << 37,
        life: None,
    },
];

/// The cells of each update of `PLACES`: more than a list of cells keeps without memory of its own.
const SIX: [Cell; 6] = [Cell::Count(1); 6];

/// A peer, a table and a life, in ms: the largest that the entry of a batch has room for, and what
/// is just too large for one.
const PLACES: [(usize, usize, Option<u64>); 5] = [
    (0, 0, None),
    (0xffff_ffff, 0xffff, Some(0xffff_fffe)),
    (0x1_0000_0000, 0, None),
    (0, 0x1_0000, None),
    (0, 0, Some(0xffff_ffff)),
];

// A cell as it is held from its arrival on.
fn held(t: u64, period: u32, cell: Cell) -> Held {
    match cell {
        Cell::Count(count) => Held::Count(count),
        Cell::Rate { elapsed, cur, prev } => {
            let kept = elapsed.min(2 * u64::from(period) + 1);
            Held::Rate(Rate::arrive(period, kept, cur, prev, t.min(1 << 62)))
        }
    }
}

// Whether a row holds these cells.
fn holds(row: &Row, case: &Case) -> bool {
    let mut same = row.width() == case.cells.len() && row.arrived() == case.t;
    for (place, cell) in case.cells.iter().enumerate() {
        let Some(col) = case.cols.get(place) else {
            return false;
        };
        same = same && row.get(place) == Some(held(case.t, col.1, *cell));
    }
    same
}

// The first row of a key, laid where it lies, and once more over it: what came of both, and whether
// the row holds what arrived.
fn laid(alloc: Global, case: &Case, cells: &PackedCells) -> Result<(bool, bool), NoMemory> {
    let arrival = Arrival {
        cells,
        cols: case.cols,
        t: case.t.min(1 << 62),
        life: case.life,
    };
    let mut rows = Rows::new(alloc, 1, 1)?;
    let key = Key::copy(alloc, &[10, 0, 0, 1])?;
    let _ = rows.insert_arrival(0, 0, &key, &arrival)?;
    let again = rows.arrive_at(None, 0, 0, &key, &arrival);
    let same = match rows.get(0, 0, &key) {
        Some(row) => holds(row, case),
        None => false,
    };
    Ok((again, same))
}

fn show(rt: &HostRuntime, case: &Case) -> Result<()> {
    let alloc = rt.alloc();
    let Some(cells) = PackedCells::pack(case.cells) else {
        println!(rt; "{}: not packed", case.name)?;
        return Ok(());
    };
    let unpacked = cells.unpack(alloc)?;
    let same = unpacked.as_slice() == case.cells;
    let (again, holds) = match laid(alloc, case, &cells) {
        Err(_) => laid(alloc, case, &cells)?,
        Ok(laid) => laid,
    };
    println!(rt;
        "{}: packed, the same {same}; laid over {again}, holds it {holds}",
        case.name
    )?;
    Ok(())
}

// Whether a batch lends this update, and whether its cells lie in words there.
fn lent(whats: &Whats, at: (usize, usize, Option<u64>)) -> (bool, bool) {
    let Some(
        LentWhat::Put {
            peer,
            table,
            life,
            cells,
            ..
        },
    ) = whats.get(0)
    else {
        return (false, false);
    };
    let mut same = (peer, table, life) == at && cells.get(SIX.len()).is_none();
    for (place, cell) in SIX.iter().enumerate() {
        same = same && cells.get(place) == Some(*cell);
    }
    (same, matches!(cells, LentCells::Packed(_)))
}

fn show_batched(rt: &HostRuntime, at: (usize, usize, Option<u64>)) -> Result<()> {
    let alloc = rt.alloc();
    let Some(cells) = PackedCells::pack(&SIX) else {
        println!(rt; "six counts: not packed")?;
        return Ok(());
    };
    let (peer, table, life) = at;
    let mut whats = Whats::new(alloc);
    let key = Key::copy(alloc, &[10, 0, 0, 1])?;
    whats.push_packed(peer, table, key, life, cells)?;
    let (same, packed) = lent(&whats, at);
    println!(rt; "peer {peer}, table {table}, life {life:?}: the same {same}, packed {packed}")?;
    Ok(())
}

/// Shows each.
pub fn run(rt: &HostRuntime) -> Result<()> {
    for case in CASES {
        show(rt, &case)?;
    }
    for at in PLACES {
        show_batched(rt, at)?;
    }
    Ok(())
}
