//! The fleet that is posted to, and what its proxies say, in few events that grow all that a book
//! has.

use agg_types::{
    Cell, Cells, Col, Cond, Filter, Items, Key, Name, NoMemory, Op, Select, What, Whats,
};
use anyhow::Result;
use hub::Opening;
use std::alloc::Global;
use test_hub_calls::TRIES;
use test_support::{alone, config};

/// The batches of a run, each made when it is posted.
#[derive(Clone, Copy)]
pub enum Batch {
    /// A peer speaks, and puts rows of these keys, which live for 1,000 ms.
    Rows(usize, &'static [&'static [u8]]),
    /// A filter of this name is added.
    Filter(&'static [u8]),
    /// The clock goes on to this moment, in ms.
    Moment(u64),
    /// The rows with a count above 0 are cleared.
    Clear,
    /// No event.
    Nothing,
}

/// The collector `agg` of two peers, with a table of texts that stores gpc0 and a ranked list.
const FLEET: &[u8] = b"name agg
peer lb1
peer lb2
table t type string len 64 size 1000 store gpc0
rank top t gpc0 2
";

/// The fleet, just opened.
pub fn opening(alloc: Global) -> Result<Opening> {
    let config = config(alloc, FLEET)?;
    Ok(Opening::new(alloc, config, 0)?)
}

fn above_zero(alloc: Global) -> Result<Items<Cond>, NoMemory> {
    let cond = Cond {
        col: Col::Gpc0,
        op: Op::Gt,
        bound: 0,
    };
    Items::copy(alloc, &[cond])
}

fn put(alloc: Global, peer: usize, key: &[u8]) -> Result<What, NoMemory> {
    Ok(What::Put {
        peer,
        table: 0,
        key: Key::copy(alloc, key)?,
        life: Some(1000),
        cells: Cells::copy(alloc, &[Cell::Count(1)])?,
    })
}

fn rows(alloc: Global, peer: usize, keys: &[&[u8]]) -> Result<Whats, NoMemory> {
    let mut whats = Whats::new(alloc);
    whats.push(What::Open(peer))?;
    for key in keys {
        whats.push(put(alloc, peer, key)?)?;
    }
    Ok(whats)
}

fn filter(alloc: Global, name: &[u8]) -> Result<What, NoMemory> {
    Ok(What::AddFilter(Filter {
        name: Name::copy(alloc, name)?,
        table: 0,
        conds: above_zero(alloc)?,
    }))
}

fn clear(alloc: Global) -> Result<What, NoMemory> {
    Ok(What::Clear {
        table: 0,
        sel: Select::Conds(above_zero(alloc)?),
    })
}

impl Batch {
    fn make(self, alloc: Global) -> Result<Whats, NoMemory> {
        match self {
            Batch::Rows(peer, keys) => rows(alloc, peer, keys),
            Batch::Filter(name) => alone(alloc, filter(alloc, name)?),
            Batch::Moment(moment) => alone(alloc, What::Moment(moment)),
            Batch::Clear => alone(alloc, clear(alloc)?),
            Batch::Nothing => Ok(Whats::new(alloc)),
        }
    }

    /// Its events, made anew where an allocation failed.
    pub fn made(self, alloc: Global) -> Result<Whats, NoMemory> {
        for _ in 0..TRIES {
            if let Ok(made) = self.make(alloc) {
                return Ok(made);
            }
        }
        self.make(alloc)
    }
}
