ghost use Rattle.std.specs.Prelude.{◌≡◌, IfOk};
ghost use Rattle.agg_types.specs.Op.{op_holds};

use crate::{Col, Declared, Items, Name, Named, NoMemory};
use std::alloc::Global;

/// The kind of a table's keys (Configuration Manual, "stick-table", `type`).
///
/// Lengths are in bytes: a string key has at most `len`, a binary key exactly `len`.
#[derive(Clone, Copy, Debug, PartialEq, Eq)]
pub enum KeyKind {
    Integer,
    Ip,
    Ipv6,
    Str(u64),
    Binary(u64),
}

/// A table: its name, the kind of its keys, how many rows each peer may hold, how long a row may
/// live, and the columns stored.
///
/// With `keep`, in ms, a row lives at most so long, whatever life its proxy gives it. A column
/// stands with its period in ms, which is 0 for a count. Columns ascend.
#[derive(Debug)]
pub struct Shape {
    pub name: Name,
    pub kind: KeyKind,
    pub size: u64,
    pub keep: Option<u64>,
    pub cols: Items<(Col, u32)>,
}

// By hand, so that what drops it elsewhere proves nothing of its parts.
impl Drop for Shape {
    fn drop(self) {
        let Shape {
            name: _,
            kind: _,
            size: _,
            keep: _,
            cols: _,
        } = self;
    }
}

/// How a condition compares a value with its bound (Management Guide, "show table").
#[derive(Clone, Copy, Debug, PartialEq, Eq)]
pub enum Op {
    Eq,
    Ne,
    Le,
    Ge,
    Lt,
    Gt,
}

impl Op {
    /// Whether the comparison holds of a value and its bound.
    pub fn holds(self, value: u128, bound: u64) -> bool
        ensures { result ≡ op_holds self value bound }
    {
        let bound = u128::from(bound);
        match self {
            Op::Eq => value == bound,
            Op::Ne => value != bound,
            Op::Le => value <= bound,
            Op::Ge => value >= bound,
            Op::Lt => value < bound,
            Op::Gt => value > bound,
        }
    }
}

/// A condition on the summed value of a column.
#[derive(Clone, Copy, Debug, PartialEq, Eq)]
pub struct Cond {
    pub col: Col,
    pub op: Op,
    pub bound: u64,
}

/// A standing filter: the keys of a table for which all conditions hold.
#[derive(Debug)]
pub struct Filter {
    pub name: Name,
    pub table: usize,
    pub conds: Items<Cond>,
}

// By hand, so that what drops it elsewhere proves nothing of its parts.
impl Drop for Filter {
    fn drop(self) {
        let Filter {
            name: _,
            table: _,
            conds: _,
        } = self;
    }
}

/// A ranked list: the first `n` keys of a table by a column, the larger value first.
#[derive(Debug)]
pub struct Rank {
    pub name: Name,
    pub table: usize,
    pub col: Col,
    pub n: u64,
}

// By hand, so that what drops it elsewhere proves nothing of its parts.
impl Drop for Rank {
    fn drop(self) {
        let Rank {
            name: _,
            table: _,
            col: _,
            n: _,
        } = self;
    }
}

/// A filter whose set every proxy is told, under the filter's name.
///
/// With a hold, in ms, a key that has left the set stays told until so long after its last
/// telling; without one it is taken away at once.
#[derive(Debug)]
pub struct Push {
    pub name: Name,
    pub hold: Option<u64>,
}

// By hand, so that what drops it elsewhere proves nothing of its parts.
impl Drop for Push {
    fn drop(self) {
        let Push { name: _, hold: _ } = self;
    }
}

/// A filter of which the log tells each key that comes into its set or leaves it.
#[derive(Debug)]
pub struct Logged {
    pub filter: Name,
}

// By hand, so that what drops it elsewhere proves nothing of its parts.
impl Drop for Logged {
    fn drop(self) {
        let Logged { filter: _ } = self;
    }
}

/// A table that proxies define under this name and that isn't followed on purpose.
#[derive(Debug)]
pub struct Ignored {
    pub table: Name,
}

// By hand, so that what drops it elsewhere proves nothing of its parts.
impl Drop for Ignored {
    fn drop(self) {
        let Ignored { table: _ } = self;
    }
}

/// A collector's configuration: its own name, and its peers, tables, filters and ranked lists,
/// which events name by position, the filters that it pushes, how many rows all peers may hold
/// together, where that has a bound, the filters whose keys its log tells, and the tables that it
/// leaves out without telling.
#[derive(Debug)]
pub struct Config {
    pub me: Name,
    pub peers: Declared<Name>,
    pub tables: Declared<Shape>,
    pub filters: Declared<Filter>,
    pub ranks: Declared<Rank>,
    pub pushes: Declared<Push>,
    pub rows: Option<u64>,
    pub logs: Declared<Logged>,
    pub ignored: Declared<Ignored>,
}

// By hand, so that what drops it elsewhere proves nothing of its parts.
impl Drop for Config {
    fn drop(self) {
        let Config {
            me: _,
            peers: _,
            tables: _,
            filters: _,
            ranks: _,
            pushes: _,
            rows: _,
            logs: _,
            ignored: _,
        } = self;
    }
}

impl Named for Shape {
    ghost name_of = { λ shape. shape.name };

    fn name(&self) -> &[u8] {
        self.name.as_slice()
    }

    fn again(&self, alloc: Global) -> Result<Shape, NoMemory> {
        self.duplicate(alloc)
    }
}

impl Shape {
    /// An equal table.
    pub fn duplicate(&self, alloc: Global) -> Result<Shape, NoMemory>
        ensures { IfOk result (λ copied. copied ≡ self.now) }
    {
        Ok(Shape {
            name: self.name.duplicate(alloc)?,
            kind: self.kind,
            size: self.size,
            keep: self.keep,
            cols: self.cols.duplicate(alloc)?,
        })
    }
}

impl Named for Filter {
    ghost name_of = { λ filter. filter.name };

    fn name(&self) -> &[u8] {
        self.name.as_slice()
    }

    fn again(&self, alloc: Global) -> Result<Filter, NoMemory> {
        self.duplicate(alloc)
    }
}

impl Filter {
    /// An equal filter.
    pub fn duplicate(&self, alloc: Global) -> Result<Filter, NoMemory>
        ensures { IfOk result (λ copied. copied ≡ self.now) }
    {
        Ok(Filter {
            name: self.name.duplicate(alloc)?,
            table: self.table,
            conds: self.conds.duplicate(alloc)?,
        })
    }
}

impl Named for Rank {
    ghost name_of = { λ rank. rank.name };

    fn name(&self) -> &[u8] {
        self.name.as_slice()
    }

    fn again(&self, alloc: Global) -> Result<Rank, NoMemory> {
        self.duplicate(alloc)
    }
}

impl Rank {
    /// An equal ranked list.
    pub fn duplicate(&self, alloc: Global) -> Result<Rank, NoMemory>
        ensures { IfOk result (λ copied. copied ≡ self.now) }
    {
        Ok(Rank {
            name: self.name.duplicate(alloc)?,
            table: self.table,
            col: self.col,
            n: self.n,
        })
    }
}

impl Named for Push {
    ghost name_of = { λ push. push.name };

    fn name(&self) -> &[u8] {
        self.name.as_slice()
    }

    fn again(&self, alloc: Global) -> Result<Push, NoMemory> {
        self.duplicate(alloc)
    }
}

impl Push {
    /// An equal push.
    pub fn duplicate(&self, alloc: Global) -> Result<Push, NoMemory>
        ensures { IfOk result (λ copied. copied ≡ self.now) }
    {
        Ok(Push {
            name: self.name.duplicate(alloc)?,
            hold: self.hold,
        })
    }
}

impl Named for Logged {
    ghost name_of = { λ logged. logged.filter };

    fn name(&self) -> &[u8] {
        self.filter.as_slice()
    }

    fn again(&self, alloc: Global) -> Result<Logged, NoMemory> {
        Ok(Logged {
            filter: self.filter.duplicate(alloc)?,
        })
    }
}

impl Named for Ignored {
    ghost name_of = { λ ignored. ignored.table };

    fn name(&self) -> &[u8] {
        self.table.as_slice()
    }

    fn again(&self, alloc: Global) -> Result<Ignored, NoMemory> {
        Ok(Ignored {
            table: self.table.duplicate(alloc)?,
        })
    }
}

impl Config {
    /// An equal configuration: every field agrees.
    pub fn duplicate(&self, alloc: Global) -> Result<Config, NoMemory>
        ensures { IfOk result (λ copied. copied ≡ self.now) }
    {
        Ok(Config {
            me: self.me.duplicate(alloc)?,
            peers: self.peers.duplicate(alloc)?,
            tables: self.tables.duplicate(alloc)?,
            filters: self.filters.duplicate(alloc)?,
            ranks: self.ranks.duplicate(alloc)?,
            pushes: self.pushes.duplicate(alloc)?,
            rows: self.rows,
            logs: self.logs.duplicate(alloc)?,
            ignored: self.ignored.duplicate(alloc)?,
        })
    }
}
