//! What happens to a fleet, as data.

use agg_types::{Col, Cond, Filter, Items, Key, Name, NoMemory, Op, Select};
use fleet_core::Step;
use std::alloc::Global;

/// One thing that happens. Connections come first; moments are in ms.
#[derive(Clone, Copy)]
pub enum Deed {
    Connect,
    Send(u64, &'static [u8]),
    Lose(u64),
    /// The rows of a key go.
    Clear(&'static [u8]),
    /// A filter on keys with a count of at least 3.
    Add,
    Moment(u64),
}

/// The step of a deed.
pub fn step(alloc: Global, deed: Deed) -> Result<Step, NoMemory> {
    match deed {
        Deed::Connect => Ok(Step::Connect),
        Deed::Send(conn, bytes) => Ok(Step::Bytes(conn, Items::copy(alloc, bytes)?)),
        Deed::Lose(conn) => Ok(Step::Lost(conn)),
        Deed::Clear(key) => Ok(Step::Clear {
            table: 0,
            sel: Select::One(Key::copy(alloc, key)?),
        }),
        Deed::Add => Ok(Step::AddFilter(many(alloc)?)),
        Deed::Moment(moment) => Ok(Step::Moment(moment)),
    }
}

fn many(alloc: Global) -> Result<Filter, NoMemory> {
    let cond = Cond {
        col: Col::Gpc0,
        op: Op::Ge,
        bound: 3,
    };
    Ok(Filter {
        name: Name::copy(alloc, b"many")?,
        table: 0,
        conds: Items::copy(alloc, &[cond])?,
    })
}
