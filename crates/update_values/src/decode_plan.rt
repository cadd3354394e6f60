//! How the values of a table's updates are read, and the room for what is read.

ghost use Rattle.std.specs.Prelude.{◌≡◌, ◌≤◌, vec_len, IfOk, IfSome, IsTrue, None, Some, true};
ghost use Rattle.std.specs.Option.{ForSome};
ghost use Rattle.update_values.specs.Straight.{is_straight};

use crate::layout::Layout;
use crate::plan::{Source, fill, name_before, read_along, sources_of, widths};
use crate::straight::{is_straight, read_packed, read_straight, take_at_most};
use agg_types::{Cell, Col, NoMemory, PackedCells, WORDS};
use std::alloc::Global;

/// How the updates of a table are read.
#[derive(Debug, Drop)]
pub(crate) struct DecodePlan {
    /// Room for the numbers of an update.
    pub(crate) numbers: Vec<u64>,
    /// Before which of them the name of a server stands, if one is read.
    pub(crate) name: Option<usize>,
    /// Where each column's numbers are among them.
    pub(crate) sources: Vec<Source>,
    /// The cells of the update that was read last.
    pub(crate) cells: Vec<Cell>,
    /// Whether the columns' numbers are all that is read, in the columns' order: then the cells are
    /// read in one pass, and the room for numbers isn't used.
    pub(crate) straight: bool,
    /// Whether the cells can be read so into words. Where the columns are too many, no update tries
    /// it in vain.
    pub(crate) packs: bool,
    ghost one_each: { vec_len cells ≡ vec_len sources },
    ghost in_order: { IsTrue straight → is_straight 0 (vec_len numbers) sources.items ≡ true },
    ghost no_name: { IsTrue straight → name ≡ None },
    ghost around: { ForSome name (λ before. before ≤ vec_len numbers) },
    ghost in_words: { IsTrue packs → IsTrue straight },
}

/// Whether the columns' numbers are all that is read, in the columns' order.
fn is_in_order(name: Option<usize>, count: usize, sources: &[Source]) -> bool
    ensures in_order { IsTrue result → is_straight 0 count sources.now ≡ true }
    ensures no_name { IsTrue result → name ≡ None }
{
    name.is_none() && is_straight(0, count, sources)
}

/// Whether cells of these columns are read into words.
fn packs(straight: bool, sources: &[Source]) -> bool
    ensures { IsTrue result → IsTrue straight }
{
    straight && take_at_most(WORDS, sources)
}

impl DecodePlan {
    ghost use Rattle.update_values.specs.Plan.{AreCells, IsPlan, planned};

    /// The plan for updates of this layout, under these columns.
    pub(crate) fn new(
        alloc: Global,
        layout: &Layout,
        cols: &[(Col, u32)],
    ) -> Result<DecodePlan, NoMemory>
        ensures { IfOk result (IsPlan layout.now cols.now) }
    {
        let read = layout.types_read(cols);
        let sources = sources_of(alloc, layout, read, cols)?;
        let name = name_before(layout, read);
        let count = widths(layout, read);
        let mut numbers = Vec::new(alloc);
        numbers.resize(count, 0)?;
        let mut cells = Vec::new(alloc);
        cells.resize(sources.len(), Cell::Count(0))?;
        let straight = is_in_order(name, count, sources.as_slice());
        let packs = packs(straight, sources.as_slice());
        Ok(DecodePlan {
            numbers,
            name,
            sources,
            cells,
            straight,
            packs,
        })
    }

    /// Reads the cells of an update's values into words; `None` where one is cut or too large, or
    /// where they aren't all that can be read so: `read` tells that.
    #[inline(always)]
    pub(crate) fn pack(&self, bytes: &[u8]) -> Option<PackedCells>
        ensures { IfSome result (λ packed. planned self.now bytes.now ≡ Some packed) }
    {
        if !self.packs {
            return None;
        }
        read_packed(self.sources.as_slice(), bytes)
    }

    /// Reads the cells of an update's values; false where one is cut or too large.
    #[inline]
    pub(crate) fn read(&mut self, bytes: &[u8]) -> bool
        ensures cells { AreCells result self.new.cells.items (planned self.old bytes.now) }
        ensures width { vec_len self.new.numbers ≡ vec_len self.old.numbers }
        ensures name { self.new.name ≡ self.old.name }
        ensures sources { self.new.sources ≡ self.old.sources }
    {
        if self.straight {
            return read_straight(self.sources.as_slice(), bytes, &mut self.cells);
        }
        if read_along(self.name, bytes, &mut self.numbers).is_none() {
            return false;
        }
        fill(
            &mut self.cells,
            self.numbers.as_slice(),
            self.sources.as_slice(),
        );
        true
    }
}
