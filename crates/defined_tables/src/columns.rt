//! Columns that a peer doesn't bring, and the names of those that aren't kept.

ghost use Rattle.std.specs.Prelude.{◌≡◌, IfOk};
ghost use Rattle.defined_tables.specs.Lacks.{lacks_in};

use agg_types::{Col, NoMemory, Shape};
use peers_msg::Definition;
use std::alloc::Global;
use std::fmt;
use update_values::{Lack, lack_of};

/// A configured column that a followed table of a peer doesn't bring, and why.
#[derive(Clone, Copy, Debug, PartialEq, Eq)]
pub struct Lacking {
    pub col: Col,
    pub lack: Lack,
}

impl fmt::Display for Lacking {
    fn fmt<W: fmt::Write>(&self, f: &mut fmt::Formatter<W>) -> fmt::Result {
        let col = self.col.name();
        match self.lack {
            Lack::NotSent => write!(f, "{col} isn't sent"),
            Lack::OtherPeriod(period) => write!(f, "{col} has the period {period} there"),
            Lack::NoPeriod => write!(f, "{col} has no period there"),
            Lack::NotRead => write!(f, "{col} can't be read there"),
        }
    }
}

/// The columns of a configured table that a definition of it doesn't bring, in their order.
pub fn lacks_of(
    alloc: Global,
    shape: &Shape,
    definition: &Definition,
) -> Result<Vec<Lacking>, NoMemory>
    ensures { IfOk result (λ lacks. lacks.items ≡ lacks_in definition.now shape.now.cols) }
{
    let mut lacks = Vec::new(alloc);
    for col in shape.cols.as_slice() {
        if let Some(lack) = lack_of(definition, col.0, col.1) {
            lacks.push(Lacking { col: col.0, lack })?;
        }
    }
    Ok(lacks)
}

/// The names of data types, of which a bit stands for each, as HAProxy's configuration has them,
/// with commas between them. One that isn't known is told by its number.
#[derive(Clone, Copy)]
pub struct Columns(pub u64);

impl fmt::Display for Columns {
    fn fmt<W: fmt::Write>(&self, f: &mut fmt::Formatter<W>) -> fmt::Result {
        let mut is_first = true;
        for id in 0..64u8 {
            if (self.0 >> id) & 1 == 1 {
                if !is_first {
                    f.write_str(",")?;
                }
                match name_of(id) {
                    None => write!(f, "{id}")?,
                    Some(name) => f.write_str(name)?,
                }
                is_first = false;
            }
        }
        Ok(())
    }
}

// The name of a data type: of a column, or of what has no sum.
fn name_of(id: u8) -> Option<&'static str> {
    match id {
        0 => Some("server_id"),
        1 => Some("gpt0"),
        19 => Some("server_key"),
        22 => Some("gpt"),
        23 => Some("gpc"),
        24 => Some("gpc_rate"),
        _ => {
            let column = Col::ALL.iter().find(|col| col.id() == id)?;
            Some(column.name())
        }
    }
}
