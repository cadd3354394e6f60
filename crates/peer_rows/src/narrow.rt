//! A rate of few events in three words: its two counts share one, and the high half of the moment
//! from which it is 0 shares another with its period.
ghost use Rattle.std.specs.Prelude.{◌≡◌, slice_index, IfSome};
ghost use Rattle.peer_rows.specs.Few.{widened};

/// So many numbers a count has in half a word.
const COUNTS: u32 = 1 << 16;

/// So many numbers the high half of a moment has beside a period: moments of 34 years.
pub(crate) const HIGHS: u32 = 1 << 8;

/// So many numbers a period has, in ms: up to four hours and a half.
pub(crate) const PERIODS: u32 = 1 << 24;

/// A rate's five words in three, if its counts are below 2^16, its period below 2^24 ms, and the
/// moment from which it is 0 below 2^40 ms.
#[inline]
pub(crate) fn narrowed(wide: &[u32; 5]) -> Option<[u32; 3]>
    ensures { IfSome result (λ narrow. widened (slice_index narrow 0) (slice_index narrow 1)
        (slice_index narrow 2) ≡ wide.now) }
{
    let [period, low, high, cur, prev] = *wide;
    if cur >= COUNTS || prev >= COUNTS || period >= PERIODS || high >= HIGHS {
        return None;
    }
    Some([cur + COUNTS * prev, low, high + HIGHS * period])
}

/// The five words that three stand for.
#[inline]
pub(crate) fn widened(narrow: [u32; 3]) -> [u32; 5]
    ensures { result ≡ widened (slice_index narrow 0) (slice_index narrow 1)
        (slice_index narrow 2) }
{
    let [counts, low, rest] = narrow;
    [
        rest / HIGHS,
        low,
        rest % HIGHS,
        counts % COUNTS,
        counts / COUNTS,
    ]
}
