//! The histories, as data.

use agg_types::Cell;

/// A row of the key of the number n with one cell.
#[derive(Clone, Copy)]
pub struct Row {
    pub peer: usize,
    pub n: u16,
    pub life: Option<u64>,
    pub cell: Cell,
}

/// A fleet of two peers and one table of a column, with a list of its first two keys; and the
/// conditions of its filter. Then rows that arrive at a moment, and the moments from then on at
/// which it is looked at, all in ms.
#[derive(Clone, Copy)]
pub struct Run {
    pub name: &'static str,
    pub fleet: &'static [u8],
    pub filter: &'static [u8],
    pub start: u64,
    pub rows: &'static [Row],
    pub moments: &'static [u64],
}

/// A table of a rate of one second, and the beginning of its filter's line.
const RATE: &[u8] = b"name agg
peer lb1
peer lb2
table t type ip size 100 store http_req_rate(1000)
rank top t http_req_rate 2
filter f t ";

/// A table of a count, and the beginning of its filter's line.
const COUNT: &[u8] = b"name agg
peer lb1
peer lb2
table t type ip size 100 store gpc0
rank top t gpc0 2
filter f t ";

/// Events of one second before, as two peers tell them half a second apart.
const TWO_RATES: &[Row] = &[
    Row {
        peer: 0,
        n: 1,
        life: None,
        cell: Cell::Rate {
            elapsed: 0,
            cur: 0,
            prev: 3,
        },
    },
    Row {
        peer: 1,
        n: 1,
        life: None,
        cell: Cell::Rate {
            elapsed: 500,
            cur: 0,
            prev: 3,
        },
    },
];

const ONE_RATE: &[Row] = &[Row {
    peer: 0,
    n: 1,
    life: None,
    cell: Cell::Rate {
        elapsed: 0,
        cur: 0,
        prev: 3,
    },
}];

const LONE_BEFORE: &[Row] = &[Row {
    peer: 0,
    n: 1,
    life: None,
    cell: Cell::Rate {
        elapsed: 0,
        cur: 0,
        prev: 1,
    },
}];

const LONE_NOW: &[Row] = &[Row {
    peer: 0,
    n: 1,
    life: None,
    cell: Cell::Rate {
        elapsed: 0,
        cur: 1,
        prev: 0,
    },
}];

/// A proxy's whole clock, as it is sent for a rate that is idle.
const IDLE: &[Row] = &[
    Row {
        peer: 0,
        n: 1,
        life: None,
        cell: Cell::Rate {
            elapsed: 5_000,
            cur: 7,
            prev: 7,
        },
    },
    Row {
        peer: 1,
        n: 1,
        life: None,
        cell: Cell::Rate {
            elapsed: 4_000_000_000,
            cur: 9,
            prev: 9,
        },
    },
];

const LAST_ROW: &[Row] = &[Row {
    peer: 0,
    n: 1,
    life: Some(1000),
    cell: Cell::Count(5),
}];

const ONE_OF_TWO: &[Row] = &[
    Row {
        peer: 0,
        n: 1,
        life: Some(100),
        cell: Cell::Count(3),
    },
    Row {
        peer: 1,
        n: 1,
        life: None,
        cell: Cell::Count(3),
    },
];

const THREE_KEYS: &[Row] = &[
    Row {
        peer: 0,
        n: 3,
        life: None,
        cell: Cell::Count(5),
    },
    Row {
        peer: 0,
        n: 1,
        life: Some(60_000),
        cell: Cell::Count(4),
    },
    Row {
        peer: 1,
        n: 1,
        life: Some(100),
        cell: Cell::Count(1),
    },
    Row {
        peer: 0,
        n: 2,
        life: None,
        cell: Cell::Count(5),
    },
];

/// A run over a rate of one second, from moment 0 on.
macro_rules! of_rate {
    ($name:expr, $filter:expr, $rows:expr, $moments:expr) => {
        Run {
            name: $name,
            fleet: RATE,
            filter: $filter,
            start: 0,
            rows: $rows,
            moments: &$moments,
        }
    };
}

/// A run over a count.
macro_rules! of_count {
    ($name:expr, $filter:expr, $start:expr, $rows:expr, $moments:expr) => {
        Run {
            name: $name,
            fleet: COUNT,
            filter: $filter,
            start: $start,
            rows: $rows,
            moments: &$moments,
        }
    };
}

/// Exactly 2, as two bounds.
const BETWEEN: &[u8] = b"data.http_req_rate le 2 data.http_req_rate ge 2";

/// What no value is.
const NOWHERE: &[u8] = b"data.http_req_rate ge 3 data.http_req_rate le 2";

const FROM_ONE: &[u8] = b"data.http_req_rate ge 1";

pub const RUNS: [Run; 10] = [
    of_rate!(
        "fleet rate",
        b"data.http_req_rate ge 3",
        TWO_RATES,
        [0, 166, 167]
    ),
    of_rate!(
        "passing set",
        b"data.http_req_rate eq 2",
        ONE_RATE,
        [0, 1, 333, 334]
    ),
    of_rate!("between", BETWEEN, ONE_RATE, [0, 1, 333, 334]),
    of_rate!("nowhere", NOWHERE, ONE_RATE, [0]),
    of_rate!("lone event before", FROM_ONE, LONE_BEFORE, [0, 1001]),
    of_rate!("lone event now", FROM_ONE, LONE_NOW, [0, 2001]),
    of_rate!("idle rates", b"data.http_req_rate lt 1", IDLE, [0, 1]),
    of_count!(
        "last row ends",
        b"data.gpc0 ge 1",
        500,
        LAST_ROW,
        [500, 1500]
    ),
    of_count!(
        "one of two ends",
        b"data.gpc0 lt 5",
        0,
        ONE_OF_TWO,
        [0, 100]
    ),
    of_count!("three keys", b"data.gpc0 ge 5", 0, THREE_KEYS, [0, 100]),
];
