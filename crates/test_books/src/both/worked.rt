//! Lists of events that were worked out by hand.

use crate::both::deeds::{Deed, Row};
use crate::both::fleet::{BOUNDED, FEW, MANY};

/// The greatest life that there is, in ms.
const LONGEST: u64 = (1 << 32) - 1;

/// What happens to a fleet.
#[derive(Clone, Copy)]
pub struct Worked {
    pub name: &'static str,
    pub fleet: &'static str,
    /// Who sits and speaks before all else.
    pub start: &'static [Deed],
    pub deeds: &'static [Deed],
}

/// Two seats are taken, and the first peer speaks at the second.
pub const ONE_PEER: &[Deed] = &[Deed::Sit(0), Deed::Sit(1), Deed::Open(1, 0)];

/// Three seats are taken, and a peer speaks at each but the first.
pub const TWO_PEERS: &[Deed] = &[
    Deed::Sit(0),
    Deed::Sit(1),
    Deed::Sit(2),
    Deed::Open(1, 0),
    Deed::Open(2, 1),
];

/// A seat puts a row of the first table for a peer: its key, its life, and what it counts.
macro_rules! put {
    ($seat:expr, $peer:expr, $key:expr, $life:expr, $count:expr) => {
        Deed::Put(
            $seat,
            Row {
                peer: $peer,
                table: 0,
                key: $key,
                life: $life,
                count: $count,
            },
        )
    };
}

/// A row stays when its seat leaves; a seat that left, and one that isn't the session in force, put
/// nothing; the next session's rows take the place of the older one's.
pub const RECONNECT: Worked = Worked {
    name: "reconnect",
    fleet: FEW,
    start: ONE_PEER,
    deeds: &[
        put!(1, 0, 1, None, 50),
        put!(1, 0, 2, Some(9), 41),
        Deed::Leave(1),
        put!(1, 0, 1, None, 3),
        Deed::Sit(2),
        put!(2, 0, 1, None, 3),
        Deed::Open(2, 0),
        put!(2, 0, 1, Some(4), 44),
        Deed::Sit(3),
        Deed::Open(3, 0),
        put!(2, 0, 1, None, 3),
        put!(3, 0, 3, None, 58),
        Deed::Moment(4),
        Deed::Leave(3),
        put!(2, 0, 1, None, 3),
        Deed::Moment(9),
    ],
};

/// Six rows are all that a peer may hold: the seventh isn't taken until one has ended or was
/// cleared, and a row that is held is replaced.
pub const SIZE_LIMIT: Worked = Worked {
    name: "size limit",
    fleet: FEW,
    start: TWO_PEERS,
    deeds: &[
        put!(1, 0, 1, Some(5), 1),
        put!(1, 0, 2, None, 2),
        put!(1, 0, 3, None, 43),
        put!(1, 0, 4, None, 4),
        put!(1, 0, 5, None, 55),
        put!(1, 0, 6, None, 6),
        put!(1, 0, 7, None, 47),
        put!(2, 1, 7, None, 48),
        put!(1, 0, 2, None, 42),
        Deed::Moment(5),
        put!(1, 0, 7, None, 49),
        put!(1, 0, 8, None, 8),
        Deed::ClearKey(0, 5),
        put!(1, 0, 8, None, 51),
        put!(1, 0, 9, None, 9),
    ],
};

/// Five rows are all that the peers may hold together, of both tables: a further one isn't taken
/// until one has ended, was taken away or was cleared. A row that its peer holds is replaced, and
/// one whose life is over at once is no further one.
pub const ROW_BOUND: Worked = Worked {
    name: "row bound",
    fleet: BOUNDED,
    start: TWO_PEERS,
    deeds: &[
        put!(1, 0, 1, Some(5), 1),
        put!(1, 0, 2, None, 42),
        put!(2, 1, 2, None, 3),
        put!(2, 1, 3, None, 44),
        Deed::Put(
            1,
            Row {
                peer: 0,
                table: 1,
                key: 3,
                life: None,
                count: 4,
            },
        ),
        put!(2, 1, 1, None, 50),
        put!(1, 0, 2, None, 2),
        put!(1, 0, 4, Some(0), 51),
        put!(1, 0, 4, None, 51),
        put!(2, 1, 2, Some(0), 3),
        put!(2, 1, 1, None, 52),
        put!(2, 1, 4, None, 53),
        Deed::Moment(5),
        put!(2, 1, 4, None, 54),
        put!(1, 0, 5, None, 55),
        Deed::ClearKey(0, 3),
        put!(1, 0, 5, None, 56),
        put!(1, 0, 6, None, 57),
    ],
};

/// Lives of nothing, of one ms and of all that there are; ends that move later and earlier, and a
/// moment over all of them.
const LIVES: Worked = Worked {
    name: "lives",
    fleet: MANY,
    start: ONE_PEER,
    deeds: &[
        Deed::Moment(1_000),
        put!(1, 0, 1, Some(0), 1),
        put!(1, 0, 2, Some(1), 2),
        put!(1, 0, 3, Some(LONGEST), 3),
        put!(1, 0, 4, Some(10), 4),
        put!(1, 0, 4, Some(LONGEST), 4),
        put!(1, 0, 5, Some(LONGEST), 5),
        put!(1, 0, 5, Some(10), 5),
        put!(1, 0, 6, Some(10), 6),
        put!(1, 0, 6, None, 6),
        put!(1, 0, 7, None, 7),
        put!(1, 0, 7, Some(10), 7),
        put!(1, 0, 8, Some(10), 8),
        put!(1, 0, 8, Some(0), 8),
        Deed::Moment(1_001),
        Deed::Moment(1_009),
        Deed::Moment(1_010),
        put!(1, 0, 5, Some(10), 55),
        Deed::Moment(1_000 + LONGEST - 1),
        Deed::Moment(1_000 + LONGEST),
        Deed::Moment(1 << 62),
        put!(1, 0, 9, Some(LONGEST), 9),
        Deed::Moment(1 << 62),
    ],
};

/// Filters are added and dropped: the one in the middle of three, one of another name that nothing
/// has, that of the configuration, and one that is added anew on another table. The others hold
/// what they held, before the clock goes on and behind it.
pub const DROPS: Worked = Worked {
    name: "drops",
    fleet: FEW,
    start: TWO_PEERS,
    deeds: &[
        put!(1, 0, 1, Some(30), 41),
        put!(2, 1, 1, Some(10), 24),
        put!(1, 0, 2, Some(30), 48),
        put!(2, 1, 3, None, 59),
        Deed::Drop(b'a'),
        Deed::Add(b'a', 0, 1),
        Deed::Add(b'b', 0, 3),
        Deed::Add(b'c', 0, 5),
        Deed::Drop(b'b'),
        put!(1, 0, 4, Some(12), 44),
        Deed::Moment(3),
        Deed::Drop(b'z'),
        Deed::DropConfigured,
        Deed::Add(b'b', 0, 2),
        Deed::Add(b'b', 0, 6),
        Deed::Moment(9),
        Deed::Drop(b'a'),
        Deed::Add(b'a', 1, 1),
        put!(1, 0, 2, Some(30), 13),
        Deed::ClearKey(0, 4),
        Deed::Drop(b'c'),
        Deed::Drop(b'b'),
        Deed::Drop(b'a'),
        Deed::Drop(b'a'),
        Deed::Moment(40),
    ],
};

/// Clears of all, of one key and by sums, and rows put again behind them whose ends come earlier or
/// later than those that were planned before.
const CLEARS: Worked = Worked {
    name: "clears",
    fleet: FEW,
    start: TWO_PEERS,
    deeds: &[
        put!(1, 0, 1, Some(30), 20),
        put!(2, 1, 1, Some(10), 21),
        put!(1, 0, 2, Some(30), 40),
        put!(2, 1, 3, None, 50),
        Deed::ClearAbove(0, 40),
        put!(1, 0, 1, Some(20), 59),
        put!(2, 1, 1, Some(40), 1),
        Deed::Add(b'a', 0, 1),
        Deed::Add(b'a', 1, 1),
        Deed::ClearKey(0, 2),
        put!(1, 0, 2, Some(5), 44),
        Deed::Moment(10),
        Deed::ClearAll(0),
        put!(1, 0, 1, Some(25), 57),
        Deed::Moment(20),
        Deed::Moment(30),
        Deed::Moment(35),
        Deed::ClearAll(1),
    ],
};

/// All of these.
pub const ALL: [Worked; 6] = [RECONNECT, SIZE_LIMIT, ROW_BOUND, LIVES, CLEARS, DROPS];

/// Two peers' rates of 3 a second at one key, one of them half a period old. They sum up to 4 at
/// first, to 3 from 1 ms on, and to 2 from 167 ms on.
pub const FALLING: &[Deed] = &[
    Deed::Rate(1, 0, 0, 3),
    Deed::Rate(2, 1, 500, 3),
    Deed::Moment(1),
    Deed::Moment(166),
    Deed::Moment(167),
];

/// One of the rows that all end at 50 ms.
pub fn of_crowd(key: u16) -> Deed {
    put!(1, 0, key, Some(50), u32::from(key))
}
