//! The cases of one key, as data.

use agg_types::{Col, Cond, Op};

/// The end of a row that outlasts all rows here.
const LATE: u64 = 1_000_000;

/// How long ago the period of a rate began that has been 0 ever since, in ms.
const OVER: u64 = 3000;

/// A filter over a key, and the moments at which it is looked at.
#[derive(Clone, Copy)]
pub struct Case {
    pub name: &'static str,
    pub conds: &'static [Cond],
    /// How long before 0 the period of the second of its two rates began.
    pub second: u64,
    /// When its row ends.
    pub ends: u64,
    /// Whether it is touched at each moment; else at 0 alone, and then the clock goes on.
    pub touched: bool,
    pub moments: &'static [u64],
}

macro_rules! cond {
    ($op:ident, $bound:expr) => {
        Cond {
            col: Col::Gpc0,
            op: Op::$op,
            bound: $bound,
        }
    };
}

const IS_TWO: &[Cond] = &[cond!(Eq, 2)];

const FROM_THREE: &[Cond] = &[cond!(Ge, 3)];

/// They never hold together.
const CONTRARY: &[Cond] = &[cond!(Ge, 3), cond!(Lt, 3)];

const FOUR: &[Cond] = &[cond!(Lt, 6), cond!(Ge, 2), cond!(Ne, 4), cond!(Le, 5)];

macro_rules! case {
    ($name:expr, $conds:expr, $second:expr, $ends:expr, $touched:expr, $moments:expr) => {
        Case {
            name: $name,
            conds: $conds,
            second: $second,
            ends: $ends,
            touched: $touched,
            moments: &$moments,
        }
    };
}

pub const CASES: [Case; 16] = [
    // A value that passes 2 from above: the key comes at 1 and goes at 334.
    case!("passing", IS_TWO, OVER, LATE, true, [0, 1, 333, 334]),
    case!("jump", IS_TWO, OVER, LATE, true, [0, 334]),
    // Two proxies' rates, each rounded down by itself.
    case!("fleet", FROM_THREE, 500, LATE, true, [0, 1, 166, 167]),
    // A row that ends in the millisecond in which its value falls below the bound, or before.
    case!("ends with", FROM_THREE, 500, 167, true, [0, 166, 167]),
    case!("ends before", FROM_THREE, 500, 100, true, [0, 99, 100]),
    case!("contrary", CONTRARY, 0, LATE, true, [0, 500]),
    // The least and the greatest bound.
    case!("ge 0", &[cond!(Ge, 0)], 0, 2000, true, [0, 1999, 2000]),
    case!("lt 0", &[cond!(Lt, 0)], 0, 2000, true, [0]),
    case!("le most", &[cond!(Le, u64::MAX)], 0, 2000, true, [0, 2000]),
    case!("gt most", &[cond!(Gt, u64::MAX)], 0, 2000, true, [0]),
    case!("four", FOUR, 0, LATE, true, [0, 1, 333, 334, 667]),
    // The clock alone: a change that has come is judged once, whatever was passed.
    case!("clock", IS_TWO, OVER, LATE, false, [1, 333, 334, 400]),
    case!("clock jumps", IS_TWO, OVER, LATE, false, [334]),
    case!("clock between", IS_TWO, OVER, LATE, false, [333, 334]),
    case!("clock and end", FROM_THREE, 500, 167, false, [166, 167]),
    case!("clock for none", CONTRARY, 500, 167, false, [167]),
];
