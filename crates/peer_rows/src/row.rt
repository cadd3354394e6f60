ghost use Rattle.std.specs.Prelude.{◌≡◌, ◌+◌, ◌/◌, ◌≤◌, [], ◌∷◌, ◌++◌, length, map};
ghost use Rattle.std.specs.Prelude.{slice_get, IfOk, IfSome, MatchBool, OnOk, OnErr};
ghost use Rattle.std.specs.Option.{option_map};
ghost use Rattle.agg_types.specs.declared.limits.TheConstants.{LAST_MOMENT};
ghost use Rattle.peer_rows.specs.Counted.{counted, counted_at};
ghost use Rattle.peer_rows.specs.Ends.{end_of, lives_at};
ghost use Rattle.peer_rows.specs.Laid.{life_in, moment_of, row_in, stored};
ghost use Rattle.peer_rows.specs.Most.{most_at, most_of};
ghost use Rattle.peer_rows.specs.Packed.{held_of};

use crate::few::{self, Few};
use crate::packed::{Packed, WORD, whole};
use agg_types::{NoMemory, WORDS, Words};
use period_rate::Rate;
use std::alloc::Global;
use std::marker::Model;
use std::mem;

/// So many cells are laid into the value itself, while they fit there.
pub const FEW_CELLS: usize = 5;

/// What a row holds of one column: a count, or a rate over a period.
#[derive(Clone, Copy, Debug, PartialEq, Eq)]
pub enum Held {
    Count(u64),
    Rate(Rate),
}

impl Held {
    // What it adds to a total.
    fn counted(&self) -> u64
        ensures { result ≡ counted self.now }
    {
        match self {
            Held::Count(count) => *count,
            Held::Rate(_) => 0,
        }
    }

    // The most that it is worth at any moment.
    fn most(&self) -> u64
        ensures { result ≡ most_of self.now }
    {
        match self {
            Held::Count(count) => *count,
            Held::Rate(rate) => rate.most(),
        }
    }
}

/// The cells of a row, in the order of its table's columns. Contracts see the list of them.
///
/// Cells of up to seven words lie in the value itself and take no memory beside it: a count below
/// 2^32 takes one, another two, a rate of counts below 2^16 three, another five. Others lie in a
/// block.
#[derive(Debug)]
pub struct RowCells {
    form: Form,
    alloc: Global,
}

// By hand, so that what drops it elsewhere proves nothing of its parts.
impl Drop for RowCells {
    fn drop(self) {
        let RowCells { form: _, alloc: _ } = self;
    }
}

#[derive(Debug, Drop)]
enum Form {
    Few(Few),
    Many(Vec<Packed>),
}

impl Model for RowCells {
    ghost use Rattle.std.specs.Prelude.{List};
    ghost use Rattle.peer_rows.specs.declared.row.Held.{Held};

    ghost Value = { List Held };

    ghost use Rattle.peer_rows.specs.Form.{cells_in};

    ghost view = { λ cells. cells_in cells.form };
}

impl RowCells {
    /// No cells, to be few. Takes no memory.
    #[inline(always)]
    pub fn none(alloc: Global) -> RowCells
        ensures { result ≡ [] }
    {
        RowCells {
            form: Form::Few(Few::none()),
            alloc,
        }
    }

    /// No cells, with room for so many.
    pub fn with_capacity(alloc: Global, cells: usize) -> Result<RowCells, NoMemory>
        ensures { IfOk result (λ cells. cells ≡ []) }
    {
        if cells <= FEW_CELLS {
            return Ok(RowCells::none(alloc));
        }
        let form = Form::Many(Vec::with_capacity(alloc, cells)?);
        Ok(RowCells { form, alloc })
    }

    /// Adds a cell behind the others. After `NoMemory` there are the same cells as before.
    #[inline(always)]
    pub fn push(&mut self, held: Held) -> Result<(), NoMemory>
        ensures ok { OnOk result (self.new ≡ self.old ++ held ∷ []) }
        ensures err { OnErr result (self.new ≡ self.old) }
    {
        match &mut self.form {
            Form::Few(few) => {
                if few.push(&held) {
                    return Ok(());
                }
            }
            Form::Many(cells) => return Ok(cells.push(Packed::new(&held))?),
        }
        self.part(held)
    }

    // Takes the cells into a block, and adds one that doesn't fit beside few.
    #[cold]
    #[inline(never)]
    fn part(&mut self, held: Held) -> Result<(), NoMemory>
        ensures ok { OnOk result (self.new ≡ self.old ++ held ∷ []) }
        ensures err { OnErr result (self.new ≡ self.old) }
    {
        let mut cells = spread(self.alloc, self)?;
        cells.push(Packed::new(&held))?;
        self.form = Form::Many(cells);
        Ok(())
    }

    /// A copy of these cells.
    pub fn copy(alloc: Global, held: &[Held]) -> Result<RowCells, NoMemory>
        ensures { IfOk result (λ cells. cells ≡ held.now) }
    {
        let mut cells = RowCells::with_capacity(alloc, held.len())?;
        for cell in held {
            cells.push(*cell)?;
        }
        Ok(cells)
    }

    /// The cell of a column, if there is one.
    pub fn get(&self, col: usize) -> Option<Held>
        ensures { result ≡ slice_get self.now col }
    {
        match &self.form {
            Form::Few(few) => few.get(col),
            Form::Many(cells) => Some(cells.get(col)?.held()),
        }
    }

    /// How many cells there are.
    pub fn len(&self) -> usize
        ensures { result ≡ length self.now }
    {
        match &self.form {
            Form::Few(few) => few.len(),
            Form::Many(cells) => cells.len(),
        }
    }
}

// The same cells, packed one by one, with room for one more.
fn spread(alloc: Global, few: &RowCells) -> Result<Vec<Packed>, NoMemory>
    ensures { IfOk result (λ cells. map held_of cells.items ≡ few.now) }
{
    let mut cells = Vec::with_capacity(alloc, FEW_CELLS + 1)?;
    for col in 0..few.len() {
        if let Some(held) = few.get(col) {
            cells.push(Packed::new(&held))?;
        }
    }
    Ok(cells)
}

/// A row as it stands: its cells, the moment of its arrival, and the moment from which it has
/// ended, if it ends. Moments are in milliseconds. Contracts see these three.
///
/// It takes 40 bytes. Few cells lie in the value itself, beside a moment of arrival in the first
/// four years, below 2^37 ms, and any life but the longest. Other rows have their cells in a block.
#[derive(Debug)]
pub struct Row {
    pub(crate) laid: Laid,
}

// By hand, so that what drops it elsewhere proves nothing of its parts.
impl Drop for Row {
    fn drop(self) {
        let Row { laid: _ } = self;
    }
}

const _: () = prove!(size_of::<Row>() == 40);

#[derive(Debug, Drop)]
pub(crate) enum Laid {
    // How many cells there are, with the high bits of the moment of arrival, the digits that say
    // the cells' kinds, and their words; the low bits of the moment, and the life.
    Few {
        head: u8,
        kinds: u16,
        words: Words,
        low: u32,
        life: u32,
    },
    // Whether it ends, and by which life.
    Block {
        ends: bool,
        life: u32,
        cells: Vec<Packed>,
        arrived: u64,
    },
}

// So many numbers of cells there are in a byte, beside the high bits of a moment.
pub(crate) const LENS: u8 = 8;

// So many numbers these bits have.
pub(crate) const HIGHS: u64 = 32;

// The life that says that a row of few cells never ends.
const ENDLESS: u32 = u32::MAX;

impl Model for Row {
    ghost use Rattle.std.specs.Prelude.{◌≤◌};
    ghost use Rattle.agg_types.specs.declared.limits.TheConstants.{LAST_MOMENT};
    ghost use Rattle.peer_rows.specs.Laid.{StoredRow, row_in};

    ghost Value = { StoredRow };

    ghost view = { λ row. row_in row.laid };

    ghost invariant = { λ row. (row_in row.laid).arrived ≤ LAST_MOMENT };
}

impl Row {
    /// A row of cells that arrive at a moment, and end once their life is over, if they have one.
    #[inline(always)]
    pub fn new(cells: RowCells, arrived: u64, life: Option<u32>) -> Result<Row, NoMemory>
        requires { arrived ≤ LAST_MOMENT }
        ensures { IfOk result (λ row. row ≡ record {
          cells = cells;
          arrived = arrived;
          ends = option_map (λ life. arrived + life) life;
        }) }
    {
        let mut row = Row::blank();
        if row.set_few(&cells, arrived, life) {
            return Ok(row);
        }
        let laid = block(cells, arrived, life)?;
        Ok(Row { laid })
    }

    /// Becomes what `new` makes of these cells, if they and the moments fit the value itself, and
    /// else stays. Takes no memory.
    ///
    /// A processor waits where words that were just written one by one are read as a block, as
    /// where a row is handed on. So who makes many rows makes each where it is to lie.
    #[inline(always)]
    pub fn set_few(&mut self, cells: &RowCells, arrived: u64, life: Option<u32>) -> bool
        requires { arrived ≤ LAST_MOMENT }
        ensures { MatchBool result (self.new ≡ stored cells.now arrived life)
            (self.new ≡ self.old) }
    {
        lay(&mut self.laid, cells, arrived, life)
    }

    /// A row without cells, which never ends, to be left where one is taken. Takes no memory.
    pub fn blank() -> Row {
        Row {
            laid: Laid::Few {
                head: 0,
                kinds: 0,
                words: [0; WORDS],
                low: 0,
                life: ENDLESS,
            },
        }
    }

    /// The moment of its arrival.
    #[inline]
    pub fn arrived(&self) -> u64
        ensures { result ≡ self.now.arrived }
    {
        match &self.laid {
            Laid::Few { head, low, .. } => moment(*head, *low),
            Laid::Block { arrived, .. } => *arrived,
        }
    }

    /// The moment from which it has ended, if it ends.
    #[inline]
    pub fn ends(&self) -> Option<u64>
        ensures { result ≡ self.now.ends }
    {
        match &self.laid {
            Laid::Few {
                head,
                low,
                life,
                ..
            } => {
                if *life == ENDLESS {
                    None
                } else {
                    Some(moment(*head, *low) + u64::from(*life))
                }
            }
            Laid::Block {
                ends,
                life,
                arrived,
                ..
            } => {
                if *ends {
                    Some(*arrived + u64::from(*life))
                } else {
                    None
                }
            }
        }
    }

    /// The same, known to be no sooner than it arrived.
    #[inline]
    pub fn end(&self) -> Option<u64>
        ensures { result ≡ end_of self.now }
    {
        Some(self.ends()?.max(self.arrived()))
    }

    /// Whether it lives at a moment.
    #[inline]
    pub fn is_live(&self, t: u64) -> bool
        ensures { result ≡ lives_at t self.now }
    {
        match self.end() {
            None => true,
            Some(end) => t < end,
        }
    }

    /// The cell of a column, if there is one.
    pub fn get(&self, col: usize) -> Option<Held>
        ensures { result ≡ slice_get self.now.cells col }
    {
        match &self.laid {
            Laid::Few {
                head,
                kinds,
                words,
                ..
            } => few::get(*head % LENS, *kinds, words, col),
            Laid::Block { cells, .. } => Some(cells.get(col)?.held()),
        }
    }

    /// What is counted in a column: nothing where it holds a rate, or where there is no such
    /// column.
    pub fn count(&self, col: usize) -> u64
        ensures { result ≡ counted_at self.now.cells col }
    {
        match self.get(col) {
            Some(held) => held.counted(),
            None => 0,
        }
    }

    /// The most that the cell of a column is worth at any moment: nothing where there is none.
    pub fn most(&self, col: usize) -> u64
        ensures { result ≡ most_at self.now.cells col }
    {
        match &self.laid {
            Laid::Few {
                head,
                kinds,
                words,
                ..
            } => few::most(*head % LENS, *kinds, words, col),
            Laid::Block { .. } => match self.get(col) {
                Some(held) => held.most(),
                None => 0,
            },
        }
    }

    /// How many cells it has.
    pub fn width(&self) -> usize
        ensures { result ≡ length self.now.cells }
    {
        match &self.laid {
            Laid::Few {
                head,
                kinds,
                words,
                ..
            } => few::count(*head % LENS, *kinds, words),
            Laid::Block { cells, .. } => cells.len(),
        }
    }
}

// The moment whose high bits lie in a byte with a number of cells.
#[inline]
fn moment(head: u8, low: u32) -> u64
    ensures { result ≡ moment_of low (head / 8) }
{
    whole(low, u32::from(head / LENS))
}

// Lays a row down with its cells in the value itself, if these and its moments fit there.
#[inline(always)]
fn lay(laid: &mut Laid, cells: &RowCells, arrived: u64, life: Option<u32>) -> bool
    ensures { MatchBool result (row_in laid.new ≡ stored cells.now arrived life)
        (laid.new ≡ laid.old) }
{
    let Form::Few(few) = &cells.form else {
        return false;
    };
    let high = arrived / WORD;
    if high >= HIGHS {
        return false;
    }
    let Some(life) = life_word(life) else {
        return false;
    };
    let (len, kinds, words) = few.laid();
    *laid = Laid::Few {
        head: len + LENS * high as u8,
        kinds,
        words: *words,
        low: (arrived % WORD) as u32,
        life,
    };
    true
}

// The number of a life, if that isn't the one that says that there is none.
#[inline(always)]
pub(crate) fn life_word(life: Option<u32>) -> Option<u32>
    ensures { IfSome result (λ word. life_in word ≡ life) }
{
    match life {
        None => Some(ENDLESS),
        Some(ENDLESS) => None,
        Some(life) => Some(life),
    }
}

// A row with its cells in a block.
#[cold]
#[inline(never)]
fn block(cells: RowCells, arrived: u64, life: Option<u32>) -> Result<Laid, NoMemory>
    ensures { IfOk result (λ laid. row_in laid ≡ stored cells arrived life) }
{
    let cells = packed(cells)?;
    Ok(Laid::Block {
        ends: life.is_some(),
        life: life.unwrap_or(0),
        cells,
        arrived,
    })
}

// The block of cells, made of few ones.
fn packed(mut cells: RowCells) -> Result<Vec<Packed>, NoMemory>
    ensures { IfOk result (λ block. map held_of block.items ≡ cells) }
{
    let alloc = cells.alloc;
    match mem::replace(&mut cells.form, Form::Few(Few::none())) {
        Form::Many(block) => Ok(block),
        few => spread(alloc, &RowCells { form: few, alloc }),
    }
}
