//! Cells in words of 32 bits that lie in the row itself, one cell behind the other.
ghost use Rattle.std.specs.Prelude.{◌≡◌, ◌+◌, ◌*◌, ◌<◌, ◌≤◌, ◌%◌, ℕ, [], ◌∷◌, ◌++◌, length};
ghost use Rattle.std.specs.Prelude.{slice_get, slice_index, if◌then◌else◌};
ghost use Rattle.peer_rows.specs.Few.{cell_at, cells_of, kind_of, total_width, width};
ghost use Rattle.peer_rows.specs.Most.{most_at, most_of};

use crate::Held;
use crate::narrow::{narrowed, widened};
use crate::packed::{Packed, halves, whole};
use agg_types::{WORDS, Words, write_words};
use period_rate::Rate;
use std::marker::Model;

// What a cell is, and so how many words it takes: a count below 2^32 one, another two, a rate five,
// and a narrow one three.
#[derive(Clone, Copy)]
enum Kind {
    Small,
    Large,
    Rated,
    Narrow,
}

impl Kind {
    // The kind of the last cell, of those whose kinds are the digits of a number.
    fn last(kinds: u16) -> Kind
        ensures { result ≡ kind_of (kinds % 4) }
    {
        match kinds % 4 {
            0 => Kind::Small,
            1 => Kind::Large,
            2 => Kind::Rated,
            _ => Kind::Narrow,
        }
    }

    // Its digit.
    fn digit(self) -> u16
        ensures digit { result < 4 }
        ensures kind { kind_of result ≡ self }
    {
        match self {
            Kind::Small => 0,
            Kind::Large => 1,
            Kind::Rated => 2,
            Kind::Narrow => 3,
        }
    }

    // How many words it takes.
    fn width(self) -> usize
        ensures value { result ≡ width self }
        ensures some { 0 < result }
        ensures small { result ≤ 5 }
    {
        match self {
            Kind::Small => 1,
            Kind::Large => 2,
            Kind::Rated => 5,
            Kind::Narrow => 3,
        }
    }
}

/// How many cells there are.
pub(crate) fn count(len: u8, kinds: u16, words: &Words) -> usize
    ensures { result ≡ length (cells_of len kinds words.now) }
{
    len as usize
}

/// The cell of a column, if there is one.
pub(crate) fn get(len: u8, kinds: u16, words: &Words, col: usize) -> Option<Held>
    ensures { result ≡ slice_get (cells_of len kinds words.now) col }
{
    if len == 0 {
        return None;
    }
    let before = len - 1;
    if col == before as usize {
        let at = total(before, kinds / 4);
        return Some(cell(Kind::last(kinds), words, at));
    }
    get(before, kinds / 4, words, col)
}

/// The most that the cell of a column is worth at any moment, read off its words: nothing where
/// there is none.
pub(crate) fn most(len: u8, kinds: u16, words: &Words, col: usize) -> u64
    ensures { result ≡ most_at (cells_of len kinds words.now) col }
{
    if len == 0 {
        return 0;
    }
    let before = len - 1;
    if col == before as usize {
        let at = total(before, kinds / 4);
        return worth(Kind::last(kinds), words, at);
    }
    most(before, kinds / 4, words, col)
}

/// A few cells as they are laid, one behind the other. Contracts see the list of them.
///
/// How many words they take stands beside them, so that laying one more sums nothing up.
#[derive(Debug, Drop)]
pub(crate) struct Few {
    len: u8,
    used: u8,
    // The digits that say the cells' kinds.
    kinds: u16,
    words: Words,
}

impl Model for Few {
    ghost use Rattle.std.specs.Prelude.{List};
    ghost use Rattle.peer_rows.specs.declared.row.Held.{Held};
    ghost use Rattle.peer_rows.specs.Few.{AreLaid, cells_of};

    ghost Value = { List Held };

    ghost view = { λ few. cells_of few.len few.kinds few.words };

    ghost invariant = { λ few. AreLaid few.len few.used few.kinds };
}

impl Few {
    /// No cells.
    #[inline(always)]
    pub(crate) fn none() -> Few
        ensures { result ≡ [] }
    {
        Few {
            len: 0,
            used: 0,
            kinds: 0,
            words: [0; WORDS],
        }
    }

    /// Adds a cell behind the others, if there is room for its words.
    #[inline(always)]
    pub(crate) fn push(&mut self, held: &Held) -> bool
        ensures { self.new ≡ (if result then self.old ++ held.now ∷ [] else self.old) }
    {
        match held {
            Held::Count(count) => self.push_count(*count),
            Held::Rate(rate) => self.push_rate(rate),
        }
    }

    // Adds a rate, in three words if it fits there.
    #[inline(always)]
    fn push_rate(&mut self, rate: &Rate) -> bool
        ensures { self.new
            ≡ (if result then self.old ++ Held.Rate rate.now ∷ [] else self.old) }
    {
        let wide = rate.to_words();
        match narrowed(&wide) {
            Some(narrow) => self.push_words(Kind::Narrow, &narrow),
            None => self.push_words(Kind::Rated, &wide),
        }
    }

    // Adds a count, in one word if it fits there.
    #[inline(always)]
    fn push_count(&mut self, count: u64) -> bool
        ensures { self.new ≡ (if result then self.old ++ Held.Count count ∷ [] else self.old) }
    {
        let [low, high] = halves(count);
        if high == 0 {
            self.push_words(Kind::Small, &[low])
        } else {
            self.push_words(Kind::Large, &[low, high])
        }
    }

    // Adds a cell of these words.
    #[inline(always)]
    fn push_words(&mut self, kind: Kind, own: &[u32]) -> bool
        requires words { length own.now ≡ width kind }
        ensures { self.new ≡ (if result then self.old ++ cell_at kind own.now 0 ∷ []
            else self.old) }
    {
        let used = self.used as usize;
        if used + own.len() > WORDS {
            return false;
        }
        let Some(before) = self.kinds.checked_mul(4) else {
            return false;
        };
        write_words(&mut self.words, used, own);
        self.kinds = before + kind.digit();
        self.len += 1;
        self.used += own.len() as u8;
        true
    }

    /// The cell of a column, if there is one.
    pub(crate) fn get(&self, col: usize) -> Option<Held>
        ensures { result ≡ slice_get self.now col }
    {
        get(self.len, self.kinds, &self.words, col)
    }

    /// How many cells there are.
    #[inline]
    pub(crate) fn len(&self) -> usize
        ensures { result ≡ length self.now }
    {
        count(self.len, self.kinds, &self.words)
    }

    /// How many cells there are, the digits of their kinds, and their words.
    #[inline(always)]
    pub(crate) fn laid(&self) -> (u8, u16, &Words)
        ensures cells { cells_of result.0 result.1 result.2.now ≡ self.now }
        ensures few { result.0 < 8 }
    {
        (self.len, self.kinds, &self.words)
    }
}

// How many words cells take, whose kinds are the digits of a number.
#[inline]
fn total(len: u8, kinds: u16) -> usize
    ensures value { result ≡ total_width len kinds }
    ensures least { len ≤ result }
    ensures small { result ≤ 5 * len }
{
    let (mut left, mut digits, mut used) = (len, kinds, 0);
    while left > 0 {
        used += Kind::last(digits).width();
        digits /= 4;
        left -= 1;
    }
    used
}

// The cell of a kind whose words begin at a place.
fn cell(kind: Kind, words: &Words, at: usize) -> Held
    requires { at < 4294967296 }
    ensures { result ≡ cell_at kind words.now at }
{
    let first = word(words, at);
    match kind {
        Kind::Small => Held::Count(u64::from(first)),
        Kind::Large => Packed::Count([first, word(words, at + 1)]).held(),
        Kind::Narrow => {
            let wide = widened([first, word(words, at + 1), word(words, at + 2)]);
            Held::Rate(Rate::from_words(wide))
        }
        Kind::Rated => Packed::Rate([
            first,
            word(words, at + 1),
            word(words, at + 2),
            word(words, at + 3),
            word(words, at + 4),
        ])
        .held(),
    }
}

// The most that a cell is worth at any moment whose words begin at a place.
fn worth(kind: Kind, words: &Words, at: usize) -> u64
    requires { at < 4294967296 }
    ensures { result ≡ most_of (cell_at kind words.now at) }
{
    match kind {
        Kind::Small => u64::from(word(words, at)),
        Kind::Large => whole(word(words, at), word(words, at + 1)),
        Kind::Narrow => {
            let [_, _, _, cur, prev] = widened([
                word(words, at),
                word(words, at + 1),
                word(words, at + 2),
            ]);
            u64::from(cur) + u64::from(prev)
        }
        Kind::Rated => u64::from(word(words, at + 3)) + u64::from(word(words, at + 4)),
    }
}

// The word at a place, and 0 behind the last.
fn word(words: &Words, at: usize) -> u32
    ensures { result ≡ slice_index words.now at }
{
    if at < WORDS { words[at] } else { 0 }
}
