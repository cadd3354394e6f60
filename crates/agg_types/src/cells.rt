ghost use Rattle.std.specs.Prelude.{◌≡◌, ◌<◌, ◌≤◌, ◌==◌, [], ◌∷◌, ◌++◌, length, IsTrue, IfOk, OnOk};
ghost use Rattle.std.specs.Prelude.{OnErr};

use crate::{Cell, Items, NoMemory};
use std::alloc::Global;
use std::fmt;
use std::marker::Model;

/// How many cells lie in the value itself.
const FEW: usize = 4;

/// What stands where there is no cell.
const BLANK: Cell = Cell::Count(0);

/// The cells of a row as they come, in the order of its table's columns. Contracts see the list of
/// them.
///
/// Up to four cells lie in the value itself and take no memory beside it; more lie in one block.
pub struct Cells {
    form: Form,
}

// By hand, so that what drops it elsewhere proves nothing of its parts.
impl Drop for Cells {
    fn drop(self) {
        let Cells { form: _ } = self;
    }
}

const _: () = prove!(size_of::<Cells>() <= 112);

#[derive(Drop)]
enum Form {
    Few(FewCells),
    Many(Items<Cell>),
}

/// At most four cells, with blank ones behind them.
#[derive(Drop)]
struct FewCells {
    len: u8,
    cells: [Cell; FEW],
    alloc: Global,
}

impl Model for FewCells {
    ghost use Rattle.std.specs.Prelude.{◌≤◌, List, take};
    ghost use Rattle.agg_types.specs.declared.event.Cell.{Cell};

    ghost Value = { List Cell };

    ghost view = { λ few. take few.len few.cells };

    ghost invariant = { λ few. few.len ≤ 4 };
}

impl Model for Cells {
    ghost use Rattle.std.specs.Prelude.{List};
    ghost use Rattle.agg_types.specs.declared.event.Cell.{Cell};

    ghost Value = { List Cell };

    ghost use Rattle.agg_types.specs.Cells.{form_cells};

    ghost view = { λ cells. form_cells cells.form };
}

impl Cells {
    /// No cells yet. Takes no memory.
    #[inline]
    pub fn new(alloc: Global) -> Cells
        ensures { result ≡ [] }
    {
        Cells {
            form: Form::Few(FewCells::new(alloc)),
        }
    }

    /// No cells yet, with room for so many.
    #[inline]
    pub fn with_capacity(alloc: Global, count: usize) -> Result<Cells, NoMemory>
        ensures { IfOk result (λ cells. cells ≡ []) }
    {
        if count <= FEW {
            return Ok(Cells::new(alloc));
        }
        Ok(Cells {
            form: Form::Many(Items::from_vec(Vec::with_capacity(alloc, count)?)),
        })
    }

    /// A copy of these cells.
    pub fn copy(alloc: Global, cells: &[Cell]) -> Result<Cells, NoMemory>
        ensures { IfOk result (λ copied. copied ≡ cells.now) }
    {
        if cells.len() <= FEW {
            return Ok(Cells {
                form: Form::Few(FewCells::copy(alloc, cells)),
            });
        }
        Ok(Cells {
            form: Form::Many(Items::copy(alloc, cells)?),
        })
    }

    /// An equal list, in memory of its own.
    pub fn duplicate(&self, alloc: Global) -> Result<Cells, NoMemory>
        ensures { IfOk result (λ copied. copied ≡ self.now) }
    {
        Cells::copy(alloc, self.as_slice())
    }

    /// The cells, in order.
    #[inline]
    pub fn as_slice(&self) -> &[Cell]
        ensures { result.now ≡ self.now }
    {
        match &self.form {
            Form::Few(few) => few.as_slice(),
            Form::Many(cells) => cells.as_slice(),
        }
    }

    /// Adds a cell behind the others. After NoMemory the list is as it was.
    #[inline]
    pub fn push(&mut self, cell: Cell) -> Result<(), NoMemory>
        ensures ok { OnOk result (self.new ≡ self.old ++ cell ∷ []) }
        ensures err { OnErr result (self.new ≡ self.old) }
    {
        self.form.push(cell)
    }

    /// How many cells there are.
    #[inline]
    pub fn len(&self) -> usize
        ensures { result ≡ length self.now }
    {
        self.as_slice().len()
    }

    /// Whether there is no cell.
    #[inline]
    pub fn is_empty(&self) -> bool
        ensures { result ≡ (length self.now == 0) }
    {
        self.as_slice().is_empty()
    }
}

impl Form {
    ghost use Rattle.agg_types.specs.Cells.{form_cells};

    #[inline]
    fn push(&mut self, cell: Cell) -> Result<(), NoMemory>
        ensures ok { OnOk result (form_cells self.new ≡ form_cells self.old ++ cell ∷ []) }
        ensures err { OnErr result (self.new ≡ self.old) }
    {
        match self {
            Form::Few(few) => {
                if few.has_room() {
                    few.push(cell);
                    Ok(())
                } else {
                    self.push_spread(cell)
                }
            }
            Form::Many(_) => self.push_spread(cell),
        }
    }

    // The same in a block. Apart, so that a push with room in the value itself makes none for what
    // happens here.
    #[inline(never)]
    fn push_spread(&mut self, cell: Cell) -> Result<(), NoMemory>
        ensures ok { OnOk result (form_cells self.new ≡ form_cells self.old ++ cell ∷ []) }
        ensures err { OnErr result (self.new ≡ self.old) }
    {
        match self {
            Form::Few(few) => {
                *self = Form::Many(grown(few.alloc(), few.as_slice(), cell)?);
                Ok(())
            }
            Form::Many(cells) => cells.push(cell),
        }
    }
}

/// These cells and one behind them, in a block that has room for more.
fn grown(alloc: Global, few: &[Cell], cell: Cell) -> Result<Items<Cell>, NoMemory>
    ensures { IfOk result (λ cells. cells ≡ few.now ++ cell ∷ []) }
{
    let mut cells = Vec::with_capacity(alloc, 2 * FEW)?;
    cells.extend_from_slice(few)?;
    cells.push(cell)?;
    Ok(Items::from_vec(cells))
}

impl FewCells {
    #[inline]
    fn new(alloc: Global) -> FewCells
        ensures { result ≡ [] }
    {
        FewCells {
            len: 0,
            cells: [BLANK; FEW],
            alloc,
        }
    }

    fn copy(alloc: Global, cells: &[Cell]) -> FewCells
        requires { length cells.now ≤ 4 }
        ensures { result ≡ cells.now }
    {
        let mut few = [BLANK; FEW];
        few[..cells.len()].copy_from_slice(cells);
        FewCells {
            len: cells.len() as u8,
            cells: few,
            alloc,
        }
    }

    fn alloc(&self) -> Global {
        self.alloc
    }

    #[inline]
    fn as_slice(&self) -> &[Cell]
        ensures { result.now ≡ self.now }
    {
        &self.cells[..self.len as usize]
    }

    #[inline]
    fn has_room(&self) -> bool
        ensures { IsTrue result → length self.now < 4 }
    {
        (self.len as usize) < FEW
    }

    #[inline]
    fn push(&mut self, cell: Cell)
        requires { length self.old < 4 }
        ensures { self.new ≡ self.old ++ cell ∷ [] }
    {
        self.cells[self.len as usize] = cell;
        self.len += 1;
    }
}

impl fmt::Debug for Cells {
    fn fmt<W: fmt::Write>(&self, f: &mut fmt::Formatter<W>) -> fmt::Result {
        f.debug_tuple("Cells").field(&self.as_slice()).finish()
    }
}
