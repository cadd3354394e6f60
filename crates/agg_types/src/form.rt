//! What the updates of a table have in common.
ghost use Rattle.std.specs.Prelude.{◌≡◌, IfSome, IsTrue, if◌then◌else◌};
ghost use Rattle.agg_types.specs.Col.{is_rate};
ghost use Rattle.agg_types.specs.Form.{FitAllOf, FitColumns, IsFormAt};

use crate::{Col, Key, KeyLength, PackedCells, Shape};

/// What the updates of a table have in common that a batch packs, looked up once for all that
/// follow each other: how long their keys are, how many cells there are, and of which kinds.
#[derive(Clone, Copy, Debug)]
pub struct UpdateForm {
    length: KeyLength,
    len: u8,
    // The digits that say the cells' kinds.
    kinds: u16,
}

impl UpdateForm {
    /// That of the table at a position, if there is one and a batch packs its updates.
    pub fn of(tables: &[Shape], table: usize) -> Option<UpdateForm>
        ensures { IfSome result (IsFormAt tables.now table) }
    {
        let shape = tables.get(table)?;
        let (len, kinds) = kinds_of(shape.cols.as_slice())?;
        Some(UpdateForm {
            length: shape.kind.length(),
            len,
            kinds,
        })
    }

    /// Whether an update with this key and these cells has the form.
    #[inline(always)]
    pub fn takes(self, key: &Key, cells: &PackedCells) -> bool
        ensures { IsTrue result → FitAllOf self key.now cells.now }
    {
        let (len, _, kinds, _) = cells.laid();
        len == self.len && kinds == self.kinds && self.length.allows(key.as_slice().len() as u64)
    }
}

// How many cells these columns have and the digits of their kinds, if so many are packed.
fn kinds_of(cols: &[(Col, u32)]) -> Option<(u8, u16)>
    ensures { IfSome result (λ kinds. FitColumns cols.now kinds.0 kinds.1) }
{
    let (mut len, mut kinds) = (0u8, 0u16);
    for col in cols {
        len = len.checked_add(1)?;
        kinds = kinds.checked_mul(4)? + digit(col.0);
    }
    Some((len, kinds))
}

// The digit of a column's cells.
fn digit(col: Col) -> u16
    ensures { result ≡ (if is_rate col then 3 else 0) }
{
    if col.is_rate() { 3 } else { 0 }
}
