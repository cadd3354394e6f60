use crate::{Cells, Cond, Filter, Items, Key, Name};

/// A cell of a row as it comes: a count, or a rate with the ms elapsed in its current period and
/// the events of the current and of the previous period.
#[derive(Clone, Copy, Debug, PartialEq, Eq)]
pub enum Cell {
    Count(u64),
    Rate { elapsed: u64, cur: u32, prev: u32 },
}

/// Which keys of a table a clear takes: all, one, or those whose summed values meet all conditions.
#[derive(Debug, Drop)]
pub enum Select {
    All,
    One(Key),
    Conds(Items<Cond>),
}

/// What happens at a seat. Peers and tables are named by their positions in the configuration.
///
/// A life is in ms from the row's arrival; a row without one never ends. A moment is in ms.
#[derive(Debug)]
pub enum What {
    /// A connection or a worker sits down.
    Sit,
    /// The seat speaks for a peer from now on.
    Open(usize),
    /// A peer's row of a table and key, in place of an older one.
    Put {
        peer: usize,
        table: usize,
        key: Key,
        life: Option<u64>,
        cells: Cells,
    },
    /// Rows of a table are taken away, over all peers.
    Clear {
        table: usize,
        sel: Select,
    },
    /// A standing filter is added behind the others.
    AddFilter(Filter),
    /// The added filter of a name is taken away; those behind it move up by one. A configured one
    /// stays.
    DropFilter(Name),
    /// The clock says this moment.
    Moment(u64),
    /// The seat gets free for good.
    Leave,
}

// By hand, so that what drops it elsewhere proves nothing of its parts.
impl Drop for What {
    fn drop(self) {
        match self {
            What::Sit => {}
            What::Open(_) => {}
            What::Put {
                peer: _,
                table: _,
                key: _,
                life: _,
                cells: _,
            } => {}
            What::Clear { table: _, sel: _ } => {}
            What::AddFilter(_) => {}
            What::DropFilter(_) => {}
            What::Moment(_) => {}
            What::Leave => {}
        }
    }
}

/// One entry of the fleet's history: what happened, at which seat, under the seat's next number.
#[derive(Debug)]
pub struct Event {
    pub seat: u64,
    pub seq: u64,
    pub what: What,
}

// By hand, so that what drops it elsewhere proves nothing of its parts.
impl Drop for Event {
    fn drop(self) {
        let Event {
            seat: _,
            seq: _,
            what: _,
        } = self;
    }
}
