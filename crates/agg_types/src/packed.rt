//! The cells of an update in words of 32 bits.
ghost use Rattle.std.specs.Prelude.{◌≡◌, ◌+◌, ◌<◌, ◌≤◌, ℕ, [], ◌∷◌, ◌++◌, length, IfSome};
ghost use Rattle.std.specs.Prelude.{if◌then◌else◌, slice_get, slice_index, IfOk};
ghost use Rattle.std.specs.Option.{is_some};
ghost use Rattle.agg_types.specs.Form.{AreWords};
ghost use Rattle.agg_types.specs.Packed.{AreKinds, ArePacked, cell_at, fit_words, packed_cells};
ghost use Rattle.agg_types.specs.Packed.{total_width, width};
ghost use Rattle.agg_types.specs.declared.event.Cell.TheVariants.{Count, Rate};

use crate::{Cell, Cells, NoMemory, WORDS, Words, write_words};
use std::alloc::Global;
use std::marker::Model;

/// So many numbers a word has.
const WORD: u64 = 1 << 32;

/// So many numbers a rate's count has in half a word.
const COUNTS: u32 = 1 << 16;

/// The cells of an update in words of 32 bits, one cell behind the other, as a batch keeps those
/// that fit there: a count below 2^32 takes one word, and a rate of counts below 2^16 and an
/// elapsed time below 2^32 ms takes three. Contracts see the list of the cells.
#[derive(Debug, Drop)]
pub struct PackedCells {
    len: u8,
    used: u8,
    // The digits that say the cells' kinds: 0 a count, 3 a rate.
    kinds: u16,
    words: Words,
}

impl Model for PackedCells {
    ghost use Rattle.std.specs.Prelude.{List};
    ghost use Rattle.agg_types.specs.declared.event.Cell.{Cell};
    ghost use Rattle.agg_types.specs.Packed.{ArePacked, packed_cells};

    ghost Value = { List Cell };

    ghost view = { λ packed. packed_cells packed.len packed.kinds packed.words };

    ghost invariant = { λ packed. ArePacked packed.len packed.used packed.kinds };
}

impl PackedCells {
    /// No cells.
    #[inline(always)]
    pub fn none() -> PackedCells
        ensures { result ≡ [] }
    {
        PackedCells {
            len: 0,
            used: 0,
            kinds: 0,
            words: [0; WORDS],
        }
    }

    /// These cells in words, if they fit there.
    #[inline(always)]
    pub fn pack(cells: &[Cell]) -> Option<PackedCells>
        ensures cells { IfSome result (λ packed. packed ≡ cells.now) }
        ensures fit { is_some result ≡ fit_words cells.now }
    {
        let mut packed = PackedCells::none();
        for cell in cells {
            if !packed.push(*cell) {
                return None;
            }
        }
        Some(packed)
    }

    /// Adds a cell behind the others, if it fits there.
    #[inline(always)]
    pub fn push(&mut self, cell: Cell) -> bool
        ensures cells { self.new ≡ (if result then self.old ++ cell ∷ [] else self.old) }
        ensures fit { result ≡ fit_words (self.old ++ cell ∷ []) }
    {
        match cell {
            Cell::Count(count) => self.push_count(count),
            Cell::Rate { elapsed, cur, prev } => self.push_rate(elapsed, cur, prev),
        }
    }

    /// Adds a count behind the others, if it fits there.
    #[inline(always)]
    pub fn push_count(&mut self, count: u64) -> bool
        ensures cells { self.new ≡ (if result then self.old ++ Count count ∷ [] else self.old) }
        ensures fit { result ≡ fit_words (self.old ++ Count count ∷ []) }
    {
        count < WORD && self.push_words(0, &[count as u32])
    }

    /// Adds a rate behind the others, with the time elapsed in ms, if it fits there.
    #[inline(always)]
    pub fn push_rate(&mut self, elapsed: u64, cur: u32, prev: u32) -> bool
        ensures cells { self.new ≡ (if result then self.old ++ Rate elapsed cur prev ∷ []
            else self.old) }
        ensures fit { result ≡ fit_words (self.old ++ Rate elapsed cur prev ∷ []) }
    {
        elapsed < WORD
            && cur < COUNTS
            && prev < COUNTS
            && self.push_words(3, &[cur + COUNTS * prev, elapsed as u32, 0])
    }

    // Adds a cell of these words, if there is room for them.
    #[inline(always)]
    fn push_words(&mut self, digit: u16, own: &[u32]) -> bool
        requires small { digit < 4 }
        requires kind { AreKinds 1 digit }
        requires words { length own.now ≡ width digit }
        ensures cells { self.new ≡ (if result then self.old ++ cell_at digit own.now 0 ∷ []
            else self.old) }
        ensures fit { result ≡ fit_words (self.old ++ cell_at digit own.now 0 ∷ []) }
    {
        tell(&self.words);
        tell(own);
        let used = self.used as usize;
        if used + own.len() > WORDS {
            return false;
        }
        write_words(&mut self.words, used, own);
        self.kinds = self.kinds * 4 + digit;
        self.len += 1;
        self.used += own.len() as u8;
        true
    }

    /// How many cells there are, how many words they take, the digits that say the cells' kinds,
    /// and the words.
    #[inline(always)]
    pub fn laid(&self) -> (u8, u8, u16, &Words)
        ensures cells { packed_cells result.0 result.2 result.3.now ≡ self.now }
        ensures are { ArePacked result.0 result.1 result.2 }
        ensures words { AreWords result.3.now }
    {
        tell(&self.words);
        (self.len, self.used, self.kinds, &self.words)
    }

    /// How many cells there are.
    #[inline(always)]
    pub fn len(&self) -> usize
        ensures { result ≡ length self.now }
    {
        self.len as usize
    }

    /// The cell of a column, if there is one.
    pub fn get(&self, col: usize) -> Option<Cell>
        ensures cell { result ≡ slice_get self.now col }
        ensures few { IfSome result (λ _. col < 7) }
    {
        get(self.len, self.kinds, self.used, &self.words, col)
    }

    /// The cells one by one. More than four take memory.
    #[inline(never)]
    pub fn unpack(&self, alloc: Global) -> Result<Cells, NoMemory>
        ensures { IfOk result (λ cells. cells ≡ self.now) }
    {
        let mut cells = Cells::with_capacity(alloc, self.len())?;
        for col in 0..self.len() {
            if let Some(cell) = self.get(col) {
                cells.push(cell)?;
            }
        }
        Ok(cells)
    }
}

// Says what the type of words says of each.
#[inline(always)]
fn tell(words: &[u32])
    ensures { AreWords words.now }
{
    let _ = words;
}

// The cell of a column, of so many whose kinds are the digits of a number and which take so many
// words.
fn get(len: u8, kinds: u16, used: u8, words: &Words, col: usize) -> Option<Cell>
    requires used { used ≡ total_width len kinds }
    requires small { used ≤ 7 }
    ensures { result ≡ slice_get (packed_cells len kinds words.now) col }
{
    if len == 0 {
        return None;
    }
    let digit = kinds % 4;
    let at = used - width(digit);
    let before = len - 1;
    if col == before as usize {
        return Some(cell(digit, words, at as usize));
    }
    get(before, kinds / 4, at, words, col)
}

// How many words a cell takes.
#[inline]
fn width(digit: u16) -> u8
    ensures { result ≡ width digit }
{
    if digit == 0 { 1 } else { 3 }
}

// The cell of a kind whose words begin at a place.
fn cell(digit: u16, words: &Words, at: usize) -> Cell
    requires { at + width digit ≤ 7 }
    ensures { result ≡ cell_at digit words.now at }
{
    if digit == 0 {
        return Cell::Count(u64::from(words[at]));
    }
    Cell::Rate {
        elapsed: u64::from(words[at + 1]),
        cur: words[at] % COUNTS,
        prev: words[at] / COUNTS,
    }
}
