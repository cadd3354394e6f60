ghost use Rattle.std.specs.Prelude.{◌≡◌, IfOk};

use agg_types::{Config, Filter, Items, Name, NoMemory, Select, What};
use session_core::SessionCause;
use std::alloc::Global;
use thiserror::Error;

/// What happens to a fleet. Connections are numbered from 1, in the order in which they came.
#[derive(Debug, Drop)]
pub enum Step {
    /// A peer connects. It gets a seat if one is free.
    Connect,
    /// Bytes come from an open connection.
    Bytes(u64, Items<u8>),
    /// An open connection is lost.
    Lost(u64),
    /// Rows of a table are taken away, over all peers (Management Guide, `clear table`).
    Clear { table: usize, sel: Select },
    /// A standing filter is added behind the others.
    AddFilter(Filter),
    /// The added filter of a name is taken away.
    DropFilter(Name),
    /// The clock says this moment, in ms.
    Moment(u64),
    /// An open connection is told what has changed of the pushed tables, if its hello was accepted.
    /// It adds no event.
    Told(u64),
}

impl Step {
    ghost use Rattle.fleet_core.specs.Possible.{does_fit};
    ghost use Rattle.fleet_core.specs.Steps.{conn_of, what_at};

    /// What it makes happen at the fleet's own seat: a clear, a filter that is added or
    /// dropped, or a moment; none where it is a connection's step.
    pub fn what(&self, alloc: Global) -> Result<Option<What>, NoMemory>
        ensures { IfOk result (λ what. what ≡ what_at self.now) }
    {
        match self {
            Step::Connect | Step::Bytes(..) | Step::Lost(_) | Step::Told(_) => Ok(None),
            Step::Clear { table, sel } => Ok(Some(What::Clear {
                table: *table,
                sel: duplicate_select(alloc, sel)?,
            })),
            Step::AddFilter(filter) => Ok(Some(What::AddFilter(filter.duplicate(alloc)?))),
            Step::DropFilter(name) => Ok(Some(What::DropFilter(name.duplicate(alloc)?))),
            Step::Moment(moment) => Ok(Some(What::Moment(*moment))),
        }
    }

    /// Whether it may come to a fleet of this configuration: what it makes happen fits, by
    /// `Config::fits`. A connection's step always may.
    pub fn fits(&self, alloc: Global, config: &Config) -> Result<bool, NoMemory>
        ensures { IfOk result (λ fits. fits ≡ does_fit config.now self.now) }
    {
        match self.what(alloc)? {
            None => Ok(true),
            Some(what) => Ok(config.fits(&what)),
        }
    }

    /// The number of the connection that it names, or 0.
    pub fn conn(&self) -> u64
        ensures { result ≡ conn_of self.now }
    {
        match self {
            Step::Bytes(conn, _) | Step::Lost(conn) | Step::Told(conn) => *conn,
            _ => 0,
        }
    }
}

fn duplicate_select(alloc: Global, sel: &Select) -> Result<Select, NoMemory>
    ensures { IfOk result (λ copy. copy ≡ sel.now) }
{
    match sel {
        Select::All => Ok(Select::All),
        Select::One(key) => Ok(Select::One(key.duplicate(alloc)?)),
        Select::Conds(conds) => Ok(Select::Conds(conds.duplicate(alloc)?)),
    }
}

/// What is sent: to which connection, or 0 where a step is no connection's, and the bytes.
#[derive(Debug, Drop)]
pub struct Replies {
    pub conn: u64,
    pub out: Items<u8>,
}

/// Why a step isn't done, or, at `Session`, how a connection ended by it.
#[derive(Debug, Drop, Error)]
pub enum FleetFault {
    /// There is no such open connection. Nothing has changed.
    #[error("no such connection")]
    NoConn,
    /// There are no numbers left for what the step would add. Nothing has changed.
    #[error("no numbers left")]
    Spent,
    /// An allocation failed. The step isn't done; events that waited may have been taken.
    #[error("out of memory")]
    NoMemory,
    /// The step is done and the connection is closed. What it posted before is stored, and these
    /// bytes are still to be sent to it.
    #[error("{cause}")]
    Session { cause: SessionCause, out: Items<u8> },
}
