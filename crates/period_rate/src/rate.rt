ghost use Rattle.std.specs.Prelude.{◌≡◌, ℕ, ◌+◌, ◌-◌, ◌*◌, ◌^◌, ◌<◌, ◌≤◌};
ghost use Rattle.period_rate.specs.Share.{rate, while_running, once_ended};

// How many numbers a word has.
const WORD: u64 = 1 << 32;

/// How many events fell into one period's length, as time goes on with no further event.
///
/// A rate knows the events of its current period, of the period before, and the first moment at
/// which more than two periods have passed since the current one began. Periods and moments are in
/// milliseconds.
#[derive(Clone, Copy, Debug, PartialEq, Eq)]
pub struct Rate {
    period: u32,
    zero_at: u64,
    cur: u32,
    prev: u32,
}

impl Rate {
    ghost use Rattle.period_rate.specs.Rate.{arrived, most_of, value_at, zero_moment};
    ghost use Rattle.period_rate.specs.Words.{rate_of};

    /// The rate that a message of moment `now` tells of: `elapsed` ms of the current period had
    /// passed, with `cur` events in it so far and `prev` in the period before.
    ///
    /// Before `now`, elapsed time counts back, down to 0.
    pub fn arrive(period: u32, elapsed: u64, cur: u32, prev: u32, now: u64) -> Rate
        requires { now ≤ 2 ^ 62 }
        ensures made { result ≡ arrived period elapsed cur prev now }
        ensures value { (t : ℕ) → value_at result t ≡ rate period prev cur (elapsed + t - now) }
        ensures zero { zero_moment result ≡ now + 2 * period + 1 - elapsed }
    {
        Rate {
            period,
            zero_at: (now + 2 * u64::from(period) + 1).saturating_sub(elapsed),
            cur,
            prev,
        }
    }

    /// The rate at the moment `t`, rounded down. It never rises as `t` grows.
    pub fn at(&self, t: u64) -> u64
        ensures value { result ≡ value_at self.now t }
        ensures never_rises { (later : ℕ) → t ≤ later → value_at self.now later ≤ result }
        ensures over { zero_moment self.now ≤ t → result ≡ 0 }
    {
        let period = u64::from(self.period);
        let before_zero = self.zero_at.saturating_sub(t);
        let elapsed = (2 * period + 1).saturating_sub(before_zero);
        events(period, self.prev, self.cur, elapsed)
    }

    /// The most that it is at any moment: the events of both periods. No moment is read.
    pub fn most(&self) -> u64
        ensures value { result ≡ most_of self.now }
        ensures bound { (t : ℕ) → value_at self.now t ≤ result }
    {
        u64::from(self.cur) + u64::from(self.prev)
    }

    /// The first moment at which the elapsed time is above two periods: from there on the rate is
    /// 0. Where that was so before the clock began, it is 0.
    pub fn zero_at(&self) -> u64
        ensures { result ≡ zero_moment self.now }
    {
        self.zero_at
    }

    /// The rate as five words, from which `from_words` makes the same rate.
    pub fn to_words(&self) -> [u32; 5]
        ensures { rate_of result ≡ self.now }
    {
        let low = (self.zero_at % WORD) as u32;
        let high = (self.zero_at / WORD) as u32;
        [self.period, low, high, self.cur, self.prev]
    }

    /// The rate of five words, as `to_words` gives them.
    pub fn from_words(words: [u32; 5]) -> Rate
        ensures { result ≡ rate_of words }
    {
        let [period, low, high, cur, prev] = words;
        let zero_at = u64::from(low) + WORD * u64::from(high);
        Rate {
            period,
            zero_at,
            cur,
            prev,
        }
    }
}

// The rate by its cases, at an elapsed time.
#[tactic(auto, unfolding(crate::specs::Share::rate))]
fn events(period: u64, prev: u32, cur: u32, elapsed: u64) -> u64
    requires { period < 2 ^ 32 }
    ensures { result ≡ rate period prev cur elapsed }
{
    if period == 0 {
        0
    } else if elapsed <= period {
        events_while_running(period, prev, cur, elapsed)
    } else if elapsed <= 2 * period {
        events_once_ended(period, cur, elapsed)
    } else {
        0
    }
}

#[tactic(auto, using(crate::proofs::Falling::share_fits, crate::proofs::Falling::share_le), unfolding(crate::specs::Share::while_running))]
fn events_while_running(period: u64, prev: u32, cur: u32, elapsed: u64) -> u64
    requires above_zero { 0 < period }
    requires small { period < 2 ^ 32 }
    requires running { elapsed ≤ period }
    ensures { result ≡ while_running period prev cur elapsed }
{
    if cur == 0 && prev <= 1 {
        u64::from(prev)
    } else {
        u64::from(cur) + u64::from(prev) * (period - elapsed) / period
    }
}

#[tactic(auto, using(crate::proofs::Falling::share_fits, crate::proofs::Falling::share_le), unfolding(crate::specs::Share::once_ended))]
fn events_once_ended(period: u64, cur: u32, elapsed: u64) -> u64
    requires small { period < 2 ^ 32 }
    requires ended { (period < elapsed) × (elapsed ≤ 2 * period) }
    ensures { result ≡ once_ended period cur elapsed }
{
    if cur <= 1 {
        u64::from(cur)
    } else {
        u64::from(cur) * (2 * period - elapsed) / period
    }
}
