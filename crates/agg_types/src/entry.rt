//! An event of a batch, as the batch keeps it.
ghost use Rattle.std.specs.Prelude.{◌≡◌, ℕ, ◌+◌, ◌≤◌, List, [], ◌∷◌, ◌++◌};
ghost use Rattle.std.specs.Prelude.{drop, length, take};
ghost use Rattle.std.specs.Prelude.{IsTrue};
ghost use Rattle.agg_types.specs.Whats.{AreWithin, FitsCells, FitsEntry, FitsLife};
ghost use Rattle.agg_types.specs.Whats.{as_what, entry_what, life_of};
ghost use Rattle.agg_types.specs.declared.event.Cell.{Cell as CellValue};
ghost use Rattle.agg_types.specs.declared.event.What.TheVariants.{Put};

use crate::{Cell, Key, LentCells, LentWhat, PackedCells, What};
use std::mem::size_of;

/// The life that stands for none. No longer one fits an entry.
const ENDLESS: u32 = u32::MAX;

/// The largest position of a peer and the largest place of an update's cells that fit an entry.
const LARGEST: usize = u32::MAX as usize;

/// The largest position of a table that fits one.
const LAST_TABLE: usize = u16::MAX as usize;

/// The largest number of cells that fits one.
const MOST: usize = u8::MAX as usize;

/// An event of a batch.
pub(crate) enum Entry {
    /// A peer's row. Its cells lie among the batch's, from a place on.
    Put {
        count: u8,
        table: u16,
        peer: u32,
        start: u32,
        life: u32,
        key: Key,
    },
    /// The same with its cells in words.
    Packed {
        table: u16,
        peer: u32,
        life: u32,
        key: Key,
        cells: PackedCells,
    },
    /// What happens seldom, or is too large for the forms above.
    Other(Box<What>),
}

const _: () = prove!(size_of::<Entry>() == 72);

// By hand, so that what drops it elsewhere proves nothing of its parts.
impl Drop for Entry {
    fn drop(self) {
        match self {
            Entry::Put {
                count: _,
                table: _,
                peer: _,
                start: _,
                life: _,
                key: _,
            } => {}
            Entry::Packed {
                table: _,
                peer: _,
                life: _,
                key: _,
                cells: _,
            } => {}
            Entry::Other(_) => {}
        }
    }
}

impl Entry {
    /// The entry of an update whose cells, so many, are laid behind these.
    #[inline]
    pub(crate) fn put(
        peer: usize,
        table: usize,
        key: Key,
        life: Option<u64>,
        start: usize,
        count: usize,
    ) -> Entry
        requires fits { FitsEntry peer table life }
        requires cells { FitsCells start count }
        ensures says { (before cells : List CellValue) → start ≡ length before
            → count ≡ length cells
            → entry_what (before ++ cells) result ≡ Put peer table key life cells }
        ensures within { (len : ℕ) → start + count ≤ len → AreWithin len (result ∷ []) }
    {
        Entry::Put {
            count: count as u8,
            table: table as u16,
            peer: peer as u32,
            start: start as u32,
            life: life_word(life),
            key,
        }
    }

    /// The entry of an update whose cells are in words.
    #[inline(always)]
    pub(crate) fn packed(
        peer: usize,
        table: usize,
        key: Key,
        life: Option<u64>,
        cells: PackedCells,
    ) -> Entry
        requires fits { FitsEntry peer table life }
        ensures says { (others : List CellValue)
            → entry_what others result ≡ Put peer table key life cells }
        ensures within { (len : ℕ) → AreWithin len (result ∷ []) }
    {
        Entry::Packed {
            table: table as u16,
            peer: peer as u32,
            life: life_word(life),
            key,
            cells,
        }
    }

    /// What the entry says over the batch's cells.
    #[inline]
    pub(crate) fn lend<'a>(&'a self, cells: &'a [Cell]) -> LentWhat<'a>
        ensures { as_what result ≡ entry_what cells.now self.now }
    {
        match self {
            Entry::Put {
                count,
                table,
                peer,
                start,
                life,
                key,
            } => LentWhat::Put {
                peer: *peer as usize,
                table: *table as usize,
                key,
                life: life_from(*life),
                cells: LentCells::Slice(first(from(cells, *start as usize), *count as usize)),
            },
            Entry::Packed {
                table,
                peer,
                life,
                key,
                cells,
            } => LentWhat::Put {
                peer: *peer as usize,
                table: *table as usize,
                key,
                life: life_from(*life),
                cells: LentCells::Packed(cells),
            },
            Entry::Other(what) => LentWhat::of(what),
        }
    }
}

// The cells from a place on.
#[inline]
fn from(cells: &[Cell], start: usize) -> &[Cell]
    ensures { result.now ≡ drop start cells.now }
{
    if start <= cells.len() {
        &cells[start..]
    } else {
        &[]
    }
}

// The first so many cells, or all.
#[inline]
fn first(cells: &[Cell], count: usize) -> &[Cell]
    ensures { result.now ≡ take count cells.now }
{
    if count <= cells.len() {
        &cells[..count]
    } else {
        cells
    }
}

/// Whether an update of a peer has an entry.
#[inline(always)]
pub(crate) fn fits(peer: usize, table: usize, life: Option<u64>) -> bool
    ensures { IsTrue result → FitsEntry peer table life }
{
    peer <= LARGEST && table <= LAST_TABLE && life_fits(life)
}

/// Whether so many cells that begin at a place have one.
#[inline]
pub(crate) fn cells_fit(start: usize, count: usize) -> bool
    ensures { IsTrue result → FitsCells start count }
{
    start <= LARGEST && count <= MOST
}

// Whether a life fits an entry.
#[inline]
fn life_fits(life: Option<u64>) -> bool
    ensures { IsTrue result → FitsLife life }
{
    match life {
        Some(ms) => ms < u64::from(ENDLESS),
        None => true,
    }
}

#[inline]
fn life_from(life: u32) -> Option<u64>
    ensures { result ≡ life_of life }
{
    if life == ENDLESS {
        None
    } else {
        Some(u64::from(life))
    }
}

// The number that stands for a life.
#[inline]
fn life_word(life: Option<u64>) -> u32
    requires { FitsLife life }
    ensures { life_of result ≡ life }
{
    match life {
        Some(ms) => ms as u32,
        None => ENDLESS,
    }
}
