//! When a key's rates are likely to have come down to a bound: worked out from the counts that
//! arrived, without reading a value. No clause speaks of it, since no answer depends on it: who
//! looks for that moment reads the values there.

use agg_types::Col;
use book_rows::values::stored_at;
use peer_rows::{Held, OfKey, Row};

/// Of up to how many rows the rates are added up as they fall.
const ROWS: usize = 64;

/// After how many looks at such a sum what has been found is good enough.
const LOOKS: u32 = 48;

/// At how many of them, the first ones, a line between the ends says where to look.
const LINES: u32 = 8;

/// One row's rate, as it falls. Moments are in ms.
#[derive(Clone, Copy)]
pub struct Falling {
    /// The last moment of the second of the periods in which its events count.
    pub last: u64,
    /// From when on the row has ended.
    pub ends: u64,
    /// The events of the current period, and of the one before.
    pub cur: u64,
    pub prev: u64,
}

impl Falling {
    /// The rate that a row holds in a place, if it holds one there.
    pub fn of(row: &Row, place: usize, period: u32) -> Option<Falling> {
        let Held::Rate(rate) = row.get(place)? else {
            return None;
        };
        let [own, _, _, cur, prev] = rate.to_words();
        let over = 2 * u64::from(own) + 1;
        let elapsed = over.saturating_sub(rate.zero_at().saturating_sub(row.arrived()));
        let both = 2 * u64::from(period);
        Some(Falling {
            last: row.arrived().saturating_add(both).saturating_sub(elapsed),
            ends: row.end().unwrap_or(u64::MAX),
            cur: u64::from(cur),
            prev: u64::from(prev),
        })
    }

    // The same, as it is added up.
    fn share(self, period: u64) -> Share {
        let until = self.last.min(self.ends.saturating_sub(1));
        let Falling {
            last,
            cur,
            prev,
            ..
        } = self;
        if cur > 1 || (cur == 0 && prev > 1) {
            Share {
                until,
                last,
                whole: 0,
                cur,
                prev,
            }
        } else if cur == 1 {
            Share {
                until,
                last,
                whole: period,
                cur: 0,
                prev,
            }
        } else {
            Share {
                until: until.min(last.saturating_sub(period)),
                last,
                whole: prev.saturating_mul(period),
                cur: 0,
                prev: 0,
            }
        }
    }

    /// From when on it is nothing.
    pub fn over_from(self) -> u64 {
        self.last.saturating_add(1).min(self.ends)
    }

    /// The first moment at which it is below a bound above 0.
    pub fn below_from(self, period: u32, bound: u64) -> u64 {
        let period = u64::from(period);
        let left = if self.cur < bound {
            if self.prev == 0 {
                2 * period
            } else if self.cur == 0 && self.prev == 1 {
                period
            } else {
                period.saturating_add(least_ms(bound - self.cur, period, self.prev))
            }
        } else if self.cur > 1 {
            least_ms(bound, period, self.cur)
        } else {
            0
        };
        self.last
            .saturating_add(1)
            .saturating_sub(left)
            .min(self.ends)
    }
}

// One row's rate, as it is added up: up to a moment a whole part, and what falls evenly in each of
// two periods. An event has as many parts as the period has ms.
#[derive(Clone, Copy)]
struct Share {
    until: u64,
    last: u64,
    whole: u64,
    cur: u64,
    prev: u64,
}

impl Share {
    // Nothing.
    const NONE: Share = Share {
        until: 0,
        last: 0,
        whole: 0,
        cur: 0,
        prev: 0,
    };

    // Its parts at a moment.
    fn parts_at(self, period: u64, t: u64) -> u64 {
        if t > self.until {
            return 0;
        }
        let left = self.last.saturating_sub(t);
        let own = self.cur.saturating_mul(left.min(period));
        let before = self.prev.saturating_mul(left.saturating_sub(period));
        self.whole.saturating_add(own).saturating_add(before)
    }
}

// The fewest ms of a period over which so many events of it come to an amount.
fn least_ms(amount: u64, period: u64, events: u64) -> u64 {
    let events = events.max(1);
    amount.saturating_mul(period).saturating_add(events - 1) / events
}

/// The first moment, in ms, at which the rates of the rows that were found are likely to sum up to
/// less than a bound, which they don't at `from`. Of more than 64 rows it is told where the bound
/// is 1.
pub fn found_likely(
    rows: Option<&OfKey<'_>>,
    cols: &[(Col, u32)],
    col: Col,
    from: u64,
    bound: u128,
) -> Option<u64> {
    let rows = rows?;
    let place = stored_at(cols, col)?;
    let (_, period) = cols.get(place)?;
    let bound = u64::try_from(bound).ok()?;
    if bound == 1 || rows.len() == 1 {
        return last_below(rows.duplicate(), place, *period, bound);
    }
    sum_below(rows.duplicate(), place, *period, from, bound)
}

// From when on each rate by itself is below a bound.
fn last_below(rows: OfKey<'_>, place: usize, period: u32, bound: u64) -> Option<u64> {
    let mut latest = 0u64;
    for (_, row) in rows {
        let falling = Falling::of(row, place, period)?;
        latest = latest.max(falling.below_from(period, bound));
    }
    Some(latest)
}

// From when on the sum of a few rates is below a bound.
fn sum_below(rows: OfKey<'_>, place: usize, period: u32, from: u64, bound: u64) -> Option<u64> {
    if rows.len() > ROWS {
        return None;
    }
    let count = rows.len();
    let mut shares = [Share::NONE; ROWS];
    let mut over = 0u64;
    for (share, (_, row)) in shares.iter_mut().zip(rows) {
        let falling = Falling::of(row, place, period)?;
        *share = falling.share(u64::from(period));
        over = over.max(falling.over_from());
    }
    let sum = Sum {
        shares: shares.get(..count)?,
        period: u64::from(period),
        inverse: (u64::MAX / u64::from(period.max(2))).saturating_add(1),
    };
    Some(narrowed(&sum, from, over, bound))
}

// A sum of rates, each rounded down.
#[derive(Clone, Copy)]
struct Sum<'a> {
    shares: &'a [Share],
    period: u64,
    // 2^64 by the period, rounded up: times the inverse is cheaper than a division.
    inverse: u64,
}

impl<'a> Sum<'a> {
    // The events at a moment.
    fn at(&self, t: u64) -> u64 {
        let mut sum = 0u64;
        for share in self.shares {
            let parts = share.parts_at(self.period, t);
            let wide = u128::from(parts).wrapping_mul(u128::from(self.inverse));
            sum = sum.saturating_add(u64::try_from(wide >> 64).unwrap_or(0));
        }
        sum
    }
}

// A span of moments at whose end a sum is below a bound, and at whose beginning it isn't. It says
// how far above and below the sum is there, as far as a line from one to the other is to tell.
#[derive(Clone, Copy)]
struct Span {
    low: u64,
    high: u64,
    above: u64,
    below: u64,
    was_below: Option<bool>,
}

impl Span {
    // Where to look inside it: where the line meets the bound, or in the middle.
    fn inside(&self, by_line: bool) -> u64 {
        let length = self.high.saturating_sub(self.low);
        let most = length.saturating_sub(1);
        let all = self.above.saturating_add(self.below).max(1);
        let into = if by_line {
            length.saturating_mul(self.above) / all
        } else {
            length / 2
        };
        self.low.saturating_add(into.max(1).min(most))
    }

    // Ends or begins at a moment where the sum is this. Of two ends in turn the other one counts
    // half as far, so that the line comes to meet the bound behind what is looked for.
    fn narrow(&mut self, at: u64, sum: u64, bound: u64) {
        let is_below = sum < bound;
        let same = self.was_below == Some(is_below);
        if is_below {
            self.high = at;
            self.below = far(bound.saturating_sub(sum).saturating_sub(1));
            self.above = if same { self.above / 2 } else { self.above };
        } else {
            self.low = at;
            self.above = far(sum.saturating_sub(bound));
            self.below = if same { self.below / 2 } else { self.below };
        }
        self.was_below = Some(is_below);
    }
}

// How far a number of events is from half of one.
fn far(events: u64) -> u64 {
    events.saturating_mul(2).saturating_add(1)
}

// From when on a sum is below a bound, between two moments.
fn narrowed(sum: &Sum<'_>, from: u64, over: u64, bound: u64) -> u64 {
    let mut span = Span {
        low: from,
        high: over,
        above: far(sum.at(from).saturating_sub(bound)),
        below: far(bound.saturating_sub(1)),
        was_below: None,
    };
    for look in 0..LOOKS {
        if span.high.saturating_sub(span.low) <= 1 {
            break;
        }
        let at = span.inside(look < LINES);
        span.narrow(at, sum.at(at), bound);
    }
    span.high
}
