//! Rows that are laid where they lie, of cells that arrive.
ghost use Rattle.std.specs.Prelude.{◌≡◌, ◌+◌, ◌*◌, ◌^◌, ◌<◌, ◌≤◌, ℕ, length, map, take};
ghost use Rattle.std.specs.Prelude.{slice_index, true, MatchBool};
ghost use Rattle.agg_types.specs.declared.limits.TheConstants.{LAST_MOMENT};
ghost use Rattle.agg_types.specs.Packed.{AreKinds, packed_cells};
ghost use Rattle.agg_types.specs.Packed.{cell_at as packed_cell, total_width as packed_width};
ghost use Rattle.peer_rows.specs.Arriving.{AreShort, arrived_row, arriving, arriving_cell};
ghost use Rattle.peer_rows.specs.Few.{cell_at, cells_of};
ghost use Rattle.peer_rows.specs.Laid.{row_in};
ghost use Rattle.peer_rows.specs.declared.few.Kind.TheVariants.{Narrow};

use crate::packed::WORD;
use crate::row::{self, Laid, life_word};
use crate::{Arrival, Row, narrow};
use agg_types::{Col, WORDS, Words};

impl Row {
    /// Becomes the row of cells that arrive, if that can be laid here, and else stays. Takes no
    /// memory.
    ///
    /// It can where there are as many cells as columns, the moment is in the first four years
    /// (below 2^37 ms), the life is any but the longest, and each period is below 2^24 ms.
    #[inline(always)]
    pub fn arrive(&mut self, arrival: &Arrival<'_>) -> bool
        requires { arrival.now.t ≤ LAST_MOMENT }
        ensures { MatchBool result (self.new ≡ arrived_row arrival.now) (self.new ≡ self.old) }
    {
        lay(&mut self.laid, arrival)
    }
}

// Lays the row of cells that arrive down, if all of it fits there.
#[inline(always)]
fn lay(laid: &mut Laid, arrival: &Arrival<'_>) -> bool
    ensures { MatchBool result (row_in laid.new ≡ arrived_row arrival.now)
        (laid.new ≡ laid.old) }
{
    let high = arrival.t / WORD;
    if high >= row::HIGHS {
        return false;
    }
    let Some(life) = life_word(arrival.life) else {
        return false;
    };
    let (len, used, kinds, packed) = arrival.cells.laid();
    if arrival.cols.len() != len as usize || !are_short(arrival.cols) {
        return false;
    }
    *laid = Laid::Few {
        head: len + row::LENS * high as u8,
        kinds,
        words: [0; WORDS],
        low: (arrival.t % WORD) as u32,
        life,
    };
    // The words are copied once and dated where they lie, since a processor waits where words that
    // were just written one by one are read as a block.
    if let Laid::Few { words, .. } = laid {
        *words = *packed;
        date(len, kinds, used as usize, words, arrival.cols, arrival.t);
    }
    true
}

// Whether each column's period is below 2^24 ms.
#[inline(always)]
fn are_short(cols: &[(Col, u32)]) -> bool
    ensures { result ≡ true → AreShort cols.now }
{
    for col in cols {
        if col.1 >= narrow::PERIODS {
            return false;
        }
    }
    true
}

// Makes of the words of cells, which end at a place, those of the row's cells that arrive at a
// moment. The kinds are read from the last cell on.
fn date(len: u8, kinds: u16, end: usize, words: &mut Words, cols: &[(Col, u32)], t: u64)
    requires kinds { AreKinds len kinds }
    requires end { end ≡ packed_width len kinds }
    requires most { end ≤ 7 }
    requires columns { len ≤ length cols.now }
    requires short { AreShort cols.now }
    requires early { t < 2 ^ 37 }
    ensures cells { cells_of len kinds words.new
        ≡ arriving t (take len cols.now) (packed_cells len kinds words.old) }
    ensures behind { (k : ℕ) → end ≤ k
        → slice_index words.new k ≡ slice_index words.old k }
{
    if len == 0 {
        return;
    }
    let before = len - 1;
    if kinds % 4 == 0 {
        date(before, kinds / 4, end - 1, words, cols, t);
    } else {
        let at = end - 3;
        date_rate(words, at, cols[before as usize].1, t);
        date(before, kinds / 4, at, words, cols, t);
    }
}

// Writes behind the counts of a rate whose words begin at a place the moment from which it is 0,
// and its period, in the place of the time elapsed.
#[inline(always)]
fn date_rate(words: &mut Words, at: usize, period: u32, t: u64)
    requires within { at + 3 ≤ 7 }
    requires short { period < 2 ^ 24 }
    requires early { t < 2 ^ 37 }
    ensures cell { cell_at Narrow words.new at
        ≡ arriving_cell t period (packed_cell 3 words.old at) }
    ensures before { (k : ℕ) → k < at → slice_index words.new k ≡ slice_index words.old k }
    ensures behind { (k : ℕ) → at + 3 ≤ k
        → slice_index words.new k ≡ slice_index words.old k }
{
    let over = 2 * u64::from(period) + 1;
    let elapsed = u64::from(words[at + 1]).min(over);
    let zero_at = t + over - elapsed;
    words[at + 1] = (zero_at % WORD) as u32;
    words[at + 2] = (zero_at / WORD) as u32 + narrow::HIGHS * period;
}
